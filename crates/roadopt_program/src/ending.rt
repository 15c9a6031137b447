// What is put out at the end of a run.
ghost use Rattle.std.specs.Prelude.{◌≡◌, ℕ, List, None, IsTrue};
ghost use Rattle.std.specs.String.{string_bytes};
ghost use Rattle.roadopt_program.specs.Ends.{Says, after_fault, said, missing_end};
ghost use Rattle.roadopt_program.specs.Statuses.{is_silent};
ghost use Rattle.roadopt_program.specs.inside.Outcomes.{Prints, Finishes, end_of, made_end};

use crate::Status;
use branch_bound::Found;
use cert_text::Cert;
use outside::{Sink, Store};
use std::alloc::Global;

/// The end of a run and the bytes that are due for the output.
#[derive(Drop)]
pub(crate) struct Ending {
    pub(crate) status: Status,
    pub(crate) output: Vec<u8>,
}

/// All that is made for the end of a run, before anything is written.
#[derive(Drop)]
pub(crate) struct Made {
    /// The status and what is printed.
    pub(crate) ending: Ending,
    /// The bytes of the file that is written, if any.
    pub(crate) text: Option<Vec<u8>>,
    /// What is handed out, if anything.
    pub(crate) found: Option<Product>,
}

/// What a command found that is handed out at the end of a run.
#[derive(Drop)]
pub(crate) enum Product {
    /// A search found this.
    Searched { found: Found },
    /// This certificate was carried to the costs of the road.
    Carried { cert: Cert },
}

/// An end without a search, which writes no file.
pub(crate) fn unsearched(ending: Ending) -> Made
    ensures found { result.found ≡ None }
    ensures end { (name : List ℕ) → made_end name result ≡ end_of ending }
{
    Made {
        ending,
        text: None,
        found: None,
    }
}

/// The end at which this line is printed.
pub(crate) fn said(status: Status, line: String) -> Ending
    ensures status { result.status ≡ status }
    ensures output { result.output.items ≡ string_bytes line }
{
    Ending {
        status,
        output: line.into_bytes(),
    }
}

/// The end where a file that is to be read isn't there.
pub(crate) fn missing(alloc: Global) -> Ending
    ensures { end_of result ≡ missing_end }
{
    Ending {
        status: Status::Missing,
        output: Vec::new(alloc),
    }
}

/// How a run ends where its output couldn't be written.
fn after_fault(status: Status) -> Status
    ensures value { result ≡ after_fault status }
    ensures as_silent { is_silent result ≡ is_silent status }
{
    match status {
        Status::Done | Status::Gap => Status::WriteFault,
        refused => refused,
    }
}

/// Whether nothing is printed at this end.
fn is_silent(status: Status) -> bool
    ensures { result ≡ is_silent status }
{
    matches!(
        status,
        Status::ReadFault | Status::Missing | Status::NoMemory
    )
}

/// Prints what is due, and answers the end of the run.
pub(crate) fn print<O: Sink>(out: &mut O, ending: &Ending) -> Status
    ensures prints { Prints ending.now.status ending.now.output.items
        (record { written = O.written out.old; faults = O.faults out.old })
        (record { written = O.written out.new; faults = O.faults out.new }) result }
    ensures silent { IsTrue (is_silent result) → out.new ≡ out.old }
{
    if is_silent(ending.status) {
        return ending.status;
    }
    match out.put(ending.output.as_slice()) {
        Ok(()) => ending.status,
        Err(_) => after_fault(ending.status),
    }
}

/// Writes the file that is due, and then prints what is due; answers the end of the run.
pub(crate) fn finish<S: Store, O: Sink>(
    made: &Made,
    name: &str,
    store: &mut S,
    out: &mut O,
) -> Status
    ensures finishes { Finishes (S.files store.old) (S.files store.new) (made_end name.now made.now) (S.write_faults store.old) (S.write_faults store.new)
        (record { written = O.written out.old; faults = O.faults out.old })
        (record { written = O.written out.new; faults = O.faults out.new }) result }
    ensures silent { IsTrue (is_silent result) → out.new ≡ out.old }
    ensures reads { S.read_faults store.new ≡ S.read_faults store.old }
{
    if let Some(text) = &made.text {
        if store.write(name, text.as_slice()).is_err() {
            return Status::WriteFault;
        }
    }
    print(out, &made.ending)
}

/// Prints the line of a refusal, which stays one where the line couldn't be written.
pub(crate) fn say<O: Sink>(out: &mut O, line: &str)
    ensures { Says line.now
        (record { written = O.written out.old; faults = O.faults out.old })
        (record { written = O.written out.new; faults = O.faults out.new }) }
{
    let _ = out.put(line.as_bytes());
}

// The top call.
ghost use Rattle.std.specs.Prelude.{◌≡◌, ◌≤◌, ◌⊎◌, ◌↔◌, false, ℕ, [], Some, None, Option, IsTrue, map};
ghost use Rattle.std.specs.String.{string_bytes};
ghost use Rattle.outside.specs.Faults.{HasRisen};
ghost use Rattle.roadopt_program.specs.Ends.{Says};
ghost use Rattle.roadopt_program.specs.CommandWords.{command_of, on_road, trial};
ghost use Rattle.roadopt_program.specs.Headline.{KeepsSolve, KeepsTrial, KeepsCarry};
ghost use Rattle.roadopt_program.specs.Printed.{usage_line};
ghost use Rattle.roadopt_program.specs.Runs.{IsAnswered, IsRefused, IsMissing, IsLost, EndsAsDue, AnswersSolve, AnswersCarry, AnswersTrial, HasOneEnd, cert_found, notes_found};
ghost use Rattle.roadopt_program.specs.Statuses.{is_answer, may_hand_out, is_refusal, is_silent};
ghost use Rattle.roadopt_program.specs.inside.Called.{called, road_called, IsCallable};
ghost use Rattle.roadopt_program.specs.inside.Outcomes.{Outcome, TrialOutcome, TriesOnly};

use crate::Status;
use crate::commands::end_of_command;
use crate::ending::{Product, finish, print, say};
use crate::forms::{Command, RoadCommand, command_of};
use crate::inputs::Lost;
use crate::trying::try_number;
use branch_bound::NodeNote;
use cert_text::Cert;
use outside::{Sink, Store};
use road_types::Listed;
use std::alloc::{AllocError, Global};

/// What is printed where the words aren't one of the forms.
const USAGE: &str =
    "usage: judge ROAD PLAN, check ROAD CERT, replay ROAD CERT, solve ROAD CERT, trial NUMBER, carry ROAD CERT NEW, mass ROAD CERT\n";

/// How a run ended, and what its search found.
#[derive(Debug, Drop)]
pub struct Answer {
    /// The end, whose code is the exit status.
    pub status: Status,
    /// The certificate of a search, at `Done`, `Gap` and `WriteFault` of `solve` and `trial`, or the one that was carried, at `Done` and
    /// `WriteFault` of `carry`.
    pub cert: Option<Cert>,
    /// A note for each node of a search's tree, in preorder; without a search there are none.
    pub notes: Listed<NodeNote>,
}

/// Runs the program over a store and a sink; `words` are those of the command line, without the program's name.
///
/// `Usage` where they aren't `judge ROAD PLAN`, `check ROAD CERT`, `replay ROAD CERT`, `solve ROAD CERT`, `trial NUMBER`, `carry ROAD CERT NEW` or
/// `mass ROAD CERT`. Else the road file is read, then the section table that it names, then the plan or the certificate, and the line for it,
/// its report or its mass diagram is printed; or the road is searched, the certificate that was found is written to CERT, and its report is
/// printed; or the bound of the certificate is carried to this road's costs, the certificate with it is written to NEW, and its cost and bound
/// are printed. The first thing that is wrong on this way is the end. `NoMemory` may come at any step before anything is written or printed.
#[tactic(auto, using(crate::proofs::RunLaws::usage_as_due, crate::proofs::DueLaws::one_end, crate::proofs::HeadlineLaws::usage_solve, crate::proofs::HeadlineLaws::usage_trial, crate::proofs::HeadlineLaws::usage_solve_answers, crate::proofs::HeadlineLaws::usage_trial_answers, crate::proofs::HeadlineLaws::usage_carry, crate::proofs::HeadlineLaws::usage_carry_answers))]
pub fn run<S: Store, O: Sink>(alloc: Global, words: &[String], store: &mut S, out: &mut O) -> Answer
    // The words, before anything is read.
    ensures usage { (result.status ≡ Status.Usage) ↔ (command_of (map string_bytes words.now) ≡ None) }
    ensures usage_line { result.status ≡ Status.Usage → Says usage_line
        (record { written = O.written out.old; faults = O.faults out.old })
        (record { written = O.written out.new; faults = O.faults out.new }) }
    ensures usage_reads_nothing { result.status ≡ Status.Usage → store.new ≡ store.old }

    // An answer, or the first refusal in the order of the call, is what is due for the files, and stands in the output.
    ensures answered { IsTrue (is_answer result.status) → IsAnswered (S.files store.old) (map string_bytes words.now) result.status result.cert result.notes (S.files store.new)
        (record { written = O.written out.old; faults = O.faults out.old })
        (record { written = O.written out.new; faults = O.faults out.new }) }
    ensures refused { IsTrue (is_refusal result.status) → IsRefused (S.files store.old) (map string_bytes words.now) result.status
        (record { written = O.written out.old; faults = O.faults out.old })
        (record { written = O.written out.new; faults = O.faults out.new }) }
    ensures missing { result.status ≡ Status.Missing → IsMissing (S.files store.old) (map string_bytes words.now)
        (S.read_faults store.old) (S.read_faults store.new) }

    // What fails has its cause in this call; want of memory alone is free.
    ensures read_fault { result.status ≡ Status.ReadFault → HasRisen (S.read_faults store.old) (S.read_faults store.new) }
    ensures write_fault { result.status ≡ Status.WriteFault → IsLost (S.files store.old) (map string_bytes words.now) result.cert result.notes (S.files store.new)
        (S.write_faults store.old) (S.write_faults store.new)
        (record { written = O.written out.old; faults = O.faults out.old })
        (record { written = O.written out.new; faults = O.faults out.new }) }
    // The sink is as it was where a file wasn't read or isn't there, or memory was wanting.
    ensures silent { IsTrue (is_silent result.status) → out.new ≡ out.old }
    // No file is changed, and nothing is handed out, but at an answer or at one that was lost.
    ensures files { may_hand_out result.status ≡ false → S.files store.new ≡ S.files store.old }
    ensures nothing_found { may_hand_out result.status ≡ false → (result.cert ≡ None) × (result.notes ≡ []) }

    // The promise of `solve` and of `trial`: what their answers say of the road is true.
    ensures solve { KeepsSolve (S.files store.old) (map string_bytes words.now) result.status result.cert result.notes (S.files store.new)
        (record { written = O.written out.old; faults = O.faults out.old })
        (record { written = O.written out.new; faults = O.faults out.new }) }
    ensures trial { KeepsTrial (S.files store.old) (map string_bytes words.now) result.status result.cert result.notes (S.files store.new)
        (record { written = O.written out.old; faults = O.faults out.old })
        (record { written = O.written out.new; faults = O.faults out.new }) }

    // The promise of `carry`: what its answer says of the road is true.
    ensures carry { KeepsCarry (S.files store.old) (map string_bytes words.now) result.status result.cert result.notes (S.files store.new)
        (record { written = O.written out.old; faults = O.faults out.old })
        (record { written = O.written out.new; faults = O.faults out.new }) }

    // The other direction: where files are told, one end is due at the most beside what a search found, and the run reaches it, or
    // an answer of a search that is asked for, unless something failed.
    ensures as_due { EndsAsDue (S.files store.old) (map string_bytes words.now) (S.read_faults store.old) (S.read_faults store.new)
        (record { written = O.written out.old; faults = O.faults out.old })
        (record { written = O.written out.new; faults = O.faults out.new }) result.status }
    ensures solve_answers { AnswersSolve (S.files store.old) (map string_bytes words.now)
        (S.read_faults store.old) (S.read_faults store.new) (S.write_faults store.old) (S.write_faults store.new)
        (record { written = O.written out.old; faults = O.faults out.old })
        (record { written = O.written out.new; faults = O.faults out.new }) result.status }
    ensures carry_answers { AnswersCarry (S.files store.old) (map string_bytes words.now)
        (S.read_faults store.old) (S.read_faults store.new) (S.write_faults store.old) (S.write_faults store.new)
        (record { written = O.written out.old; faults = O.faults out.old })
        (record { written = O.written out.new; faults = O.faults out.new }) result.status }
    ensures trial_answers { AnswersTrial (map string_bytes words.now)
        (record { written = O.written out.old; faults = O.faults out.old })
        (record { written = O.written out.new; faults = O.faults out.new }) result.status }
    ensures trial_uses_no_file { (number : ℕ) → command_of (map string_bytes words.now) ≡ Some (trial number) → store.new ≡ store.old }
    ensures one_end { HasOneEnd (S.files store.old) (map string_bytes words.now) }
{
    let Some(command) = command_of(words) else {
        say(out, USAGE);
        return handed_out(alloc, Status::Usage, None);
    };
    carry_out(alloc, command, store, out)
}

/// The answer at this status: what was found is handed out.
fn handed_out(alloc: Global, status: Status, found: Option<Product>) -> Answer
    ensures status { result.status ≡ status }
    ensures cert { result.cert ≡ cert_found found }
    ensures notes { result.notes ≡ notes_found found }
{
    match found {
        Some(Product::Searched { found }) => Answer {
            status,
            cert: Some(found.cert),
            notes: found.notes,
        },
        Some(Product::Carried { cert }) => Answer {
            status,
            cert: Some(cert),
            notes: Listed::new(Vec::new(alloc)),
        },
        None => Answer {
            status,
            cert: None,
            notes: Listed::new(Vec::new(alloc)),
        },
    }
}

/// How a run ends that was given up.
fn lost_status(lost: Lost) -> Status
    ensures failed { result ≡ Status.ReadFault → lost ≡ Lost.Failed }
    ensures either { (result ≡ Status.ReadFault) ⊎ (result ≡ Status.NoMemory) }
{
    match lost {
        Lost::Failed => Status::ReadFault,
        Lost::NoMemory => Status::NoMemory,
    }
}

/// Carries a command out, and answers the end of the run.
#[tactic(auto, using(crate::proofs::RunLaws::trial_carried))]
fn carry_out<S: Store, O: Sink>(
    alloc: Global,
    command: Command<'_>,
    store: &mut S,
    out: &mut O,
) -> Answer
    requires { IsCallable command }
    ensures outcome { Outcome (S.files store.old) (called command.entry) (S.files store.new)
        (S.read_faults store.old) (S.read_faults store.new) (S.write_faults store.old) (S.write_faults store.new)
        (record { written = O.written out.old; faults = O.faults out.old })
        (record { written = O.written out.new; faults = O.faults out.new }) result.status result.cert result.notes }
    ensures tries { TriesOnly (called command.entry)
        (record { written = O.written out.old; faults = O.faults out.old })
        (record { written = O.written out.new; faults = O.faults out.new }) result.status result.cert result.notes }
    ensures trial_uses_no_file { (number : ℕ) → called command.entry ≡ trial number → store.new ≡ store.old }
    ensures silent { IsTrue (is_silent result.status) → out.new ≡ out.old }
{
    match command {
        Command::OnRoad { command } => carry_out_on_road(alloc, &command, store, out),
        Command::Trial { number } => carry_out_trial(alloc, number, out),
    }
}

/// Carries a command over two files out.
fn carry_out_on_road<S: Store, O: Sink>(
    alloc: Global,
    command: &RoadCommand<'_>,
    store: &mut S,
    out: &mut O,
) -> Answer
    ensures outcome { Outcome (S.files store.old)
        (on_road (road_called command.now)) (S.files store.new)
        (S.read_faults store.old) (S.read_faults store.new) (S.write_faults store.old) (S.write_faults store.new)
        (record { written = O.written out.old; faults = O.faults out.old })
        (record { written = O.written out.new; faults = O.faults out.new }) result.status result.cert result.notes }
    ensures silent { IsTrue (is_silent result.status) → out.new ≡ out.old }
{
    match end_of_command(alloc, command, store) {
        Ok(made) => {
            let status = finish(&made, command.name_written(), store, out);
            handed_out(alloc, status, made.found)
        }
        Err(lost) => handed_out(alloc, lost_status(lost), None),
    }
}

/// Carries the trial of a number out.
fn carry_out_trial<O: Sink>(alloc: Global, number: u64, out: &mut O) -> Answer
    requires { number ≤ 999999999 }
    ensures outcome { TrialOutcome number
        (record { written = O.written out.old; faults = O.faults out.old })
        (record { written = O.written out.new; faults = O.faults out.new }) result.status result.cert result.notes }
    ensures silent { IsTrue (is_silent result.status) → out.new ≡ out.old }
{
    match try_number(alloc, number) {
        Ok(made) => {
            let status = print(out, &made.ending);
            handed_out(alloc, status, made.found)
        }
        Err(AllocError) => handed_out(alloc, Status::NoMemory, None),
    }
}

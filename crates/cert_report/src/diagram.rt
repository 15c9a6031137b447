// The mass diagram of a certificate's plan.
ghost use Rattle.std.specs.Prelude.{◌≡◌, None, IfOk, OnErr};
ghost use Rattle.road_types.specs.Faults.{road_fault};
ghost use Rattle.cert_text.specs.CertText.{Certificate, IsCertText};
ghost use Rattle.cert_report.specs.CertReport.{AddsMass, AnswersMass};
ghost use Rattle.cert_report.specs.inside.Stating.{StatesHeading, HasReport};

use crate::replaying::findings;
use cert_checker::{CheckErr, check};
use cert_text::{Heading, read_heading};
use plan_text::TextErr;
use report::write_mass;
use road_types::Road;
use std::alloc::{AllocError, Global};
use text_parts::Lines;

/// Reads what stands in a certificate before its tree.
#[tactic(auto, using(crate::proofs::StatingLemmas::reads_heading))]
fn read_start(alloc: Global, road: &Road, bytes: &[u8]) -> Result<Heading, TextErr>
    requires { road_fault road.now ≡ None }
    ensures { (cert : Certificate) → IsCertText road.now bytes.now cert → StatesHeading cert result }
{
    let mut lines = Lines::over(bytes);
    read_heading(alloc, road, bytes, &mut lines)
}

/// Appends the mass diagram of a valid certificate, whose text the bytes are.
fn append_mass(
    alloc: Global,
    road: &Road,
    bytes: &[u8],
    out: &mut Vec<u8>,
) -> Result<(), AllocError>
    requires accepted { road_fault road.now ≡ None }
    requires valid { HasReport road.now bytes.now }
    ensures adds { IfOk result (λ _. AddsMass road.now bytes.now out.old.items out.new.items) }
    ensures kept { OnErr result (out.new.items ≡ out.old.items) }
{
    match read_start(alloc, road, bytes) {
        Ok(heading) => write_mass(alloc, road, &findings(&heading), out),
        Err(TextErr::NoMemory) => Err(AllocError),
        Err(TextErr::Bad { .. }) => unreachable!(),
    }
}

/// Checks a certificate of an accepted road and appends the mass diagram of its plan, or the line that says that there is none. `Refused`
/// comes as from `check`: exactly where the bytes aren't the text of a valid certificate, with the first broken rule and its line. Nothing is
/// appended at an error.
pub fn mass(alloc: Global, road: &Road, bytes: &[u8], out: &mut Vec<u8>) -> Result<(), CheckErr>
    requires { road_fault road.now ≡ None }
    ensures { AnswersMass road.now bytes.now out.old.items result out.new.items }
{
    match check(alloc, road, bytes) {
        Ok(_) => Ok(append_mass(alloc, road, bytes, out)?),
        Err(refusal) => Err(refusal),
    }
}

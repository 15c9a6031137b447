// The report of a certificate that is checked.
ghost use Rattle.std.specs.Prelude.{◌≡◌, None, IfOk, OnErr};
ghost use Rattle.road_types.specs.Faults.{road_fault};
ghost use Rattle.cert_text.specs.CertText.{Certificate, IsCertText};
ghost use Rattle.report.specs.Reports.{plan_found, bound_found};
ghost use Rattle.cert_report.specs.CertReport.{plan_stated, AddsReport, AnswersReplay};
ghost use Rattle.cert_report.specs.inside.Stating.{States, HasReport};

use crate::counting::count_open;
use cert_checker::{CheckErr, check};
use cert_text::{Heading, read_heading};
use plan_text::TextErr;
use report::{Findings, OpenLeaves, write_report};
use road_types::Road;
use std::alloc::{AllocError, Global};
use text_parts::Lines;

/// What stands in a certificate before its tree, and the leaves of the tree that were left open.
#[derive(Drop)]
pub(crate) struct Stated {
    pub(crate) heading: Heading,
    pub(crate) leaves: OpenLeaves,
}

/// Reads what a certificate states.
fn read_stated(alloc: Global, road: &Road, bytes: &[u8]) -> Result<Stated, TextErr>
    requires { road_fault road.now ≡ None }
    ensures { (cert : Certificate) → IsCertText road.now bytes.now cert → States cert result }
{
    let mut lines = Lines::over(bytes);
    let heading = match read_heading(alloc, road, bytes, &mut lines) {
        Ok(heading) => heading,
        Err(error) => return Err(error),
    };
    match count_open(alloc, road.row_count(), &mut lines) {
        Ok(leaves) => Ok(Stated { heading, leaves }),
        Err(error) => Err(error),
    }
}

/// What was found, as a certificate states it.
pub(crate) fn findings(heading: &Heading) -> Findings<'_>
    requires { heading.now.bound ≡ None → heading.now.planned ≡ None }
    ensures plan { plan_found result ≡ plan_stated heading.now.planned }
    ensures bound { bound_found result ≡ heading.now.bound }
{
    let Some(bound) = heading.bound else {
        return Findings::NoPlan;
    };
    match &heading.planned {
        Some(priced) => Findings::Planned {
            plan: &priced.plan,
            bound,
        },
        None => Findings::Bounded { bound },
    }
}

/// Appends the report of a valid certificate, whose text the bytes are.
fn append_report(
    alloc: Global,
    road: &Road,
    bytes: &[u8],
    out: &mut Vec<u8>,
) -> Result<(), AllocError>
    requires accepted { road_fault road.now ≡ None }
    requires valid { HasReport road.now bytes.now }
    ensures adds { IfOk result (λ _. AddsReport road.now bytes.now out.old.items out.new.items) }
    ensures kept { OnErr result (out.new.items ≡ out.old.items) }
{
    match read_stated(alloc, road, bytes) {
        Ok(stated) => write_report(alloc, road, &findings(&stated.heading), stated.leaves, out),
        Err(TextErr::NoMemory) => Err(AllocError),
        Err(TextErr::Bad { .. }) => unreachable!(),
    }
}

/// Checks a certificate of an accepted road and appends its report. `Refused` comes as from `check`: exactly where the bytes aren't the
/// text of a valid certificate, with the first broken rule and its line. Nothing is appended at an error.
pub fn replay(alloc: Global, road: &Road, bytes: &[u8], out: &mut Vec<u8>) -> Result<(), CheckErr>
    requires { road_fault road.now ≡ None }
    ensures { AnswersReplay road.now bytes.now out.old.items result out.new.items }
{
    match check(alloc, road, bytes) {
        Ok(_) => Ok(append_report(alloc, road, bytes, out)?),
        Err(refusal) => Err(refusal),
    }
}

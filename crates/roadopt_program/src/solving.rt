// `solve ROAD CERT` on an accepted road.
ghost use Rattle.std.specs.Prelude.{◌≡◌, ◌↔◌, ℕ, List, IfOk, IsTrue, Some, None};
ghost use Rattle.road_types.specs.Faults.{road_fault};
ghost use Rattle.cert_text.specs.CertText.{cert_text};
ghost use Rattle.cert_text.specs.Certs.{certificate_of, IsSpelledCert};
ghost use Rattle.branch_bound.specs.Found.{IsFound};
ghost use Rattle.report.specs.Lines.{AreLines};
ghost use Rattle.cert_report.specs.CertReport.{cert_lines};
ghost use Rattle.roadopt_program.specs.Solving.{HasStatus, Solves};
ghost use Rattle.roadopt_program.specs.inside.Outcomes.{made_end};

use crate::Status;
use crate::ending::{Ending, Made, Product};
use branch_bound::{Found, search};
use cert_report::report_cert;
use cert_text::{Cert, write_cert};
use numbers::Frac;
use road_types::Road;
use std::alloc::{AllocError, Global};

/// Cost and bound are one, or neither stands.
fn has_no_gap(cost: &Option<Frac>, bound: &Option<Frac>) -> bool
    ensures { IsTrue result ↔ (cost.now ≡ bound.now) }
{
    match (cost, bound) {
        (None, None) => true,
        (Some(cost), Some(bound)) => cost.is_same(bound),
        (None, Some(_)) | (Some(_), None) => false,
    }
}

/// The end of a search with this cost and this bound.
pub(crate) fn status_of(cost: &Option<Frac>, bound: &Option<Frac>) -> Status
    ensures { HasStatus result cost.now bound.now }
{
    if has_no_gap(cost, bound) {
        Status::Done
    } else {
        Status::Gap
    }
}

/// The text of a certificate.
pub(crate) fn text_of(alloc: Global, road: &Road, cert: &Cert) -> Result<Vec<u8>, AllocError>
    requires accepted { road_fault road.now ≡ None }
    requires spelled { IsSpelledCert road.now cert.now }
    ensures { IfOk result (λ text. text.items ≡ cert_text road.now (certificate_of cert.now)) }
{
    let mut text = Vec::new(alloc);
    write_cert(alloc, road, cert, &mut text)?;
    Ok(text)
}

/// The report of what was found.
fn report_of(alloc: Global, road: &Road, found: &Found) -> Result<Vec<u8>, AllocError>
    requires accepted { road_fault road.now ≡ None }
    requires found { IsFound road.now found.now }
    ensures { IfOk result (λ report. AreLines (cert_lines road.now (certificate_of found.now.cert)) report.items) }
{
    let mut report = Vec::new(alloc);
    report_cert(alloc, road, &found.cert, &mut report)?;
    Ok(report)
}

/// The end for an accepted road: the certificate and its report are made, before anything is written.
pub(crate) fn solve_road(alloc: Global, road: &Road) -> Result<Made, AllocError>
    requires { road_fault road.now ≡ None }
    ensures { IfOk result (λ made. (name : List ℕ) → Solves road.now name made.found (made_end name made)) }
{
    let found = search(alloc, road)?;
    let text = text_of(alloc, road, &found.cert)?;
    let report = report_of(alloc, road, &found)?;
    Ok(solved(found, text, report))
}

/// The end of a search that found this.
fn solved(found: Found, text: Vec<u8>, report: Vec<u8>) -> Made
    ensures found { result.found ≡ Some (Product.Searched found) }
    ensures status { HasStatus result.ending.status found.cert.cost found.cert.bound }
    ensures output { result.ending.output ≡ report }
    ensures text { result.text ≡ Some text }
{
    Made {
        ending: Ending {
            status: status_of(&found.cert.cost, &found.cert.bound),
            output: report,
        },
        text: Some(text),
        found: Some(Product::Searched { found }),
    }
}

// `carry ROAD CERT NEW` on an accepted road.
ghost use Rattle.std.specs.Prelude.{◌≡◌, ℕ, List, IfOk, Some, None};
ghost use Rattle.std.specs.String.{string_bytes};
ghost use Rattle.road_types.specs.Faults.{road_fault};
ghost use Rattle.cert_checker.specs.Carriable.{IsCarriableCert, IsNoCarriableText, IsFirstCarryRefusal};
ghost use Rattle.cert_checker.specs.Refusals.{refused};
ghost use Rattle.cert_text.specs.CertText.{cert_text};
ghost use Rattle.cert_text.specs.Certs.{certificate_of};
ghost use Rattle.roadopt_program.specs.Carrying.{CarriesBytes};
ghost use Rattle.roadopt_program.specs.Ends.{End};
ghost use Rattle.roadopt_program.specs.Printed.{carried_line};
ghost use Rattle.roadopt_program.specs.inside.Outcomes.{made_end};

use crate::cert_checking::cert_refused;
use crate::ending::{Made, Product, said, unsearched};
use crate::solving::text_of;
use crate::{Status, lines};
use carried_bounds::carry;
use cert_checker::{CertRule, CheckErr, carriable};
use cert_text::Cert;
use road_types::Road;
use std::alloc::{AllocError, Global};

/// The end for the bytes of a certificate's file: all is made before anything is written.
pub(crate) fn carry_bytes(alloc: Global, road: &Road, bytes: &[u8]) -> Result<Made, AllocError>
    requires { road_fault road.now ≡ None }
    ensures { IfOk result (λ made. (name : List ℕ) → CarriesBytes road.now name bytes.now made.found (made_end name made)) }
{
    match carriable(alloc, road, bytes) {
        Ok(given) => carry_cert(alloc, road, bytes, &given),
        Err(CheckErr::Refused { rule, line }) => not_carried(alloc, road, bytes, rule, line),
        Err(CheckErr::NoMemory) => Err(AllocError),
    }
}

/// The end for a certificate whose bound can be carried.
fn carry_cert(alloc: Global, road: &Road, bytes: &[u8], given: &Cert) -> Result<Made, AllocError>
    requires accepted { road_fault road.now ≡ None }
    requires carriable { IsCarriableCert road.now bytes.now given.now }
    ensures { IfOk result (λ made. (name : List ℕ) → CarriesBytes road.now name bytes.now made.found (made_end name made)) }
{
    let cert = carry(alloc, road, given)?;
    let text = text_of(alloc, road, &cert)?;
    let line = lines::carried_line(alloc, &cert.cost, &cert.bound)?;
    Ok(carried(cert, text, line))
}

/// The end at which a carried certificate is written.
fn carried(cert: Cert, text: Vec<u8>, line: String) -> Made
    ensures found { result.found ≡ Some (Product.Carried cert) }
    ensures end { (name : List ℕ) → made_end name result
        ≡ record { status = Status.Done; output = string_bytes line; file = Some (record { name = name; bytes = text.items }) } }
{
    Made {
        ending: said(Status::Done, line),
        text: Some(text),
        found: Some(Product::Carried { cert }),
    }
}

/// The end for bytes that are the text of no certificate whose bound can be carried.
#[tactic(auto, using(crate::proofs::CarryLemmas::refused_made))]
fn not_carried(
    alloc: Global,
    road: &Road,
    bytes: &[u8],
    rule: CertRule,
    line: usize,
) -> Result<Made, AllocError>
    requires accepted { road_fault road.now ≡ None }
    requires none { IsNoCarriableText road.now bytes.now }
    requires first { IsFirstCarryRefusal road.now bytes.now (refused rule line) }
    ensures { IfOk result (λ made. (name : List ℕ) → CarriesBytes road.now name bytes.now made.found (made_end name made)) }
{
    Ok(unsearched(cert_refused(alloc, rule, line)?))
}

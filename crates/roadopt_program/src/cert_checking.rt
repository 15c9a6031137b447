// `check ROAD CERT` on an accepted road.
ghost use Rattle.std.specs.Prelude.{◌≡◌, IfOk, None};
ghost use Rattle.road_types.specs.Faults.{road_fault};
ghost use Rattle.roadopt_program.specs.CertChecking.{OfCertBytes};
ghost use Rattle.roadopt_program.specs.Printed.{cert_refused_line, valid_line};

use crate::ending::{Ending, said};
use crate::{Status, lines};
use cert_checker::{CertRule, CheckErr, Checked, check};
use road_types::Road;
use std::alloc::{AllocError, Global};

/// The end for a valid certificate.
fn valid(alloc: Global, checked: &Checked) -> Result<Ending, AllocError>
    ensures status { IfOk result (λ e. e.status ≡ Status.Done) }
    ensures line { IfOk result (λ e. e.output.items ≡ valid_line checked.now.cost checked.now.bound) }
{
    let line = lines::valid_line(alloc, &checked.cost, &checked.bound)?;
    Ok(said(Status::Done, line))
}

/// The end for bytes that are no valid certificate of the road.
pub(crate) fn cert_refused(alloc: Global, rule: CertRule, line: usize) -> Result<Ending, AllocError>
    ensures status { IfOk result (λ e. e.status ≡ Status.CertRefused) }
    ensures line { IfOk result (λ e. e.output.items ≡ cert_refused_line rule line) }
{
    let line = lines::cert_refused_line(alloc, rule, line)?;
    Ok(said(Status::CertRefused, line))
}

/// The end for the bytes of a certificate's file.
pub(crate) fn check_bytes(alloc: Global, road: &Road, bytes: &[u8]) -> Result<Ending, AllocError>
    requires { road_fault road.now ≡ None }
    ensures { IfOk result (λ e. OfCertBytes road.now bytes.now e.status e.output.items) }
{
    match check(alloc, road, bytes) {
        Ok(checked) => valid(alloc, &checked),
        Err(CheckErr::Refused { rule, line }) => cert_refused(alloc, rule, line),
        Err(CheckErr::NoMemory) => Err(AllocError),
    }
}

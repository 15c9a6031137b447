// `replay ROAD CERT` and `mass ROAD CERT` on an accepted road.
ghost use Rattle.std.specs.Prelude.{◌≡◌, IfOk, None};
ghost use Rattle.road_types.specs.Faults.{road_fault};
ghost use Rattle.cert_report.specs.CertReport.{cert_lines, cert_mass_lines};
ghost use Rattle.roadopt_program.specs.Replaying.{OfReported};

use crate::Status;
use crate::cert_checking::cert_refused;
use crate::ending::Ending;
use cert_checker::CheckErr;
use cert_report::{mass, replay};
use road_types::Road;
use std::alloc::{AllocError, Global};

/// The end of a replay for the bytes of a certificate's file.
pub(crate) fn replay_bytes(alloc: Global, road: &Road, bytes: &[u8]) -> Result<Ending, AllocError>
    requires { road_fault road.now ≡ None }
    ensures { IfOk result (λ e. OfReported cert_lines road.now bytes.now e.status e.output.items) }
{
    let mut report = Vec::new(alloc);
    match replay(alloc, road, bytes, &mut report) {
        Ok(()) => Ok(Ending {
            status: Status::Done,
            output: report,
        }),
        Err(CheckErr::Refused { rule, line }) => cert_refused(alloc, rule, line),
        Err(CheckErr::NoMemory) => Err(AllocError),
    }
}

/// The end of a mass diagram for the bytes of a certificate's file.
pub(crate) fn mass_bytes(alloc: Global, road: &Road, bytes: &[u8]) -> Result<Ending, AllocError>
    requires { road_fault road.now ≡ None }
    ensures { IfOk result (λ e. OfReported cert_mass_lines road.now bytes.now e.status e.output.items) }
{
    let mut diagram = Vec::new(alloc);
    match mass(alloc, road, bytes, &mut diagram) {
        Ok(()) => Ok(Ending {
            status: Status::Done,
            output: diagram,
        }),
        Err(CheckErr::Refused { rule, line }) => cert_refused(alloc, rule, line),
        Err(CheckErr::NoMemory) => Err(AllocError),
    }
}

// `trial NUMBER`.
ghost use Rattle.std.specs.Prelude.{◌≤◌, IfOk};
ghost use Rattle.roadopt_program.specs.Trying.{Tries};
ghost use Rattle.roadopt_program.specs.inside.Outcomes.{end_of};

use crate::ending::{Ending, Made, Product};
use crate::lines;
use crate::solving::status_of;
use branch_bound::search;
use std::alloc::{AllocError, Global};
use trial_roads::trial_road;

/// The end for the trial road of a number: it is searched, and the line for what was found is made.
pub(crate) fn try_number(alloc: Global, number: u64) -> Result<Made, AllocError>
    requires { number ≤ 999999999 }
    ensures { IfOk result (λ made. Tries number made.found (end_of made.ending)) }
{
    let road = trial_road(alloc, number)?;
    let found = search(alloc, &road)?;
    let status = status_of(&found.cert.cost, &found.cert.bound);
    let line = lines::trial_line(alloc, number, &road, &found, status)?;
    Ok(Made {
        ending: Ending {
            status,
            output: line.into_bytes(),
        },
        text: None,
        found: Some(Product::Searched { found }),
    })
}

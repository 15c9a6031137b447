// Calls that are made many times, so that what one takes can be measured.
ghost use Rattle.std.specs.Prelude.{◌≡◌, None, IfOk};
ghost use Rattle.road_types.specs.Faults.{road_fault};
ghost use Rattle.milp_builder.specs.Boxes.{IsBoxOf};
ghost use Rattle.safe_bounds.specs.Values.{AreMultipliers};

use algebra::GREATEST_SCALE;
use milp_builder::{BoxRange, Milp, build};
use road_types::Road;
use safe_bounds::{Scratch, leaf_value};
use std::alloc::{AllocError, Global};

/// Makes the program of a box so many times, and says how many rows there were in all.
pub(crate) fn builds_text(
    alloc: Global,
    road: &Road,
    range: &BoxRange,
    count: &str,
) -> Result<String, AllocError>
    requires accepted { road_fault road.now ≡ None }
    requires fits { IsBoxOf road.now range.now }
{
    let mut rows = 0usize;
    for _ in 0..count.parse::<u32>().unwrap_or(0) {
        let milp = build(alloc, road, range)?;
        rows = rows.saturating_add(milp.rows());
    }
    format!(in alloc; "{rows} rows")
}

/// Forms the value of a box's program so many times, at the scales 0, 1, .. and with the greatest multiplier for each row,
/// and says the last one.
pub(crate) fn values_text(
    alloc: Global,
    road: &Road,
    range: &BoxRange,
    count: &str,
) -> Result<String, AllocError>
    requires accepted { road_fault road.now ≡ None }
    requires fits { IsBoxOf road.now range.now }
{
    let milp = build(alloc, road, range)?;
    let value = last_value(alloc, &milp, count.parse::<u32>().unwrap_or(0))?;
    format!(in alloc; "value {value}")
}

fn last_value(alloc: Global, milp: &Milp, count: u32) -> Result<i128, AllocError> {
    let mults = greatest_multipliers(alloc, milp)?;
    let mut scratch = Scratch::new(alloc, milp.columns())?;
    let mut value = 0;
    for scale in 0..count {
        value = leaf_value(milp, i128::from(scale), mults.as_slice(), &mut scratch);
    }
    Ok(value)
}

/// The greatest multiplier, for each row.
fn greatest_multipliers(alloc: Global, milp: &Milp) -> Result<Vec<i128>, AllocError>
    ensures { IfOk result (λ mults. AreMultipliers milp.now mults.items) }
{
    let mut mults = Vec::new(alloc);
    mults.resize(milp.rows(), GREATEST_SCALE)?;
    Ok(mults)
}

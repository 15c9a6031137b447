// The value of a leaf, by the multipliers as they are written down.
ghost use Rattle.std.specs.Prelude.{◌≡◌, ◌-◌, ◌^◌, ◌≤◌, length, replicate, slice_set, IfOk, None, pos, ◌≤ℤ◌, unsigned_abs};
ghost use Rattle.algebra.specs.Numbered.{IsNumber};
ghost use Rattle.algebra.specs.Scale.{greatest_scale};
ghost use Rattle.programs.specs.Programs.{row_count};
ghost use Rattle.road_types.specs.Faults.{road_fault};
ghost use Rattle.road_types.specs.RoadPrograms.{row_count as road_row_count};
ghost use Rattle.safe_bounds.specs.Sparse.{dense, RisesByRow};
ghost use Rattle.milp_builder.specs.Boxes.{IsBoxOf};
ghost use Rattle.cert_tree.specs.Trees.{AreMultipliersBehind};
ghost use Rattle.cert_tree.specs.Soundness.{box_value, told_value};

use milp_builder::{BoxRange, build};
use programs::Milp;
use road_types::Road;
use safe_bounds::{Scratch, leaf_value};
use std::alloc::{AllocError, Global};

/// The value of a scale from 0 to 2^40 and multipliers on a program: pairs of a row's number, from 1, and a value that
/// isn't 0 of magnitude at most 2^40, rows rising; rows without one have 0. At scale 0 it is the dead value.
pub fn told_value(
    alloc: Global,
    milp: &Milp,
    scale: i128,
    mults: &[(u32, i128)],
) -> Result<i128, AllocError>
    requires scale_from { pos 0 ≤ℤ scale }
    requires scale_to { scale ≤ℤ pos greatest_scale }
    requires mults { AreMultipliersBehind (row_count milp.now) 0 mults.now }
    ensures value { IfOk result (λ value. value ≡ told_value milp.now scale mults.now) }
    ensures width { IfOk result (λ value. unsigned_abs value ≤ 2 ^ 86) }
{
    let spread = spread(alloc, milp.rows(), mults)?;
    let mut scratch = Scratch::new(alloc, milp.columns())?;
    Ok(leaf_value(milp, scale, spread.as_slice(), &mut scratch))
}

/// The value of a scale and multipliers on the rows of a box of the road, as `told_value` says.
pub fn box_value(
    alloc: Global,
    road: &Road,
    range: &BoxRange,
    scale: i128,
    mults: &[(u32, i128)],
) -> Result<i128, AllocError>
    requires accepted { road_fault road.now ≡ None }
    requires fits { IsBoxOf road.now range.now }
    requires scale_from { pos 0 ≤ℤ scale }
    requires scale_to { scale ≤ℤ pos greatest_scale }
    requires mults { AreMultipliersBehind (road_row_count road.now) 0 mults.now }
    ensures value { IfOk result (λ value. value ≡ box_value road.now range.now scale mults.now) }
    ensures width { IfOk result (λ value. unsigned_abs value ≤ 2 ^ 86) }
{
    let milp = build(alloc, road, range)?;
    told_value(alloc, &milp, scale, mults)
}

/// One multiplier for each of so many rows: those that the pairs tell, and 0. Rows are numbered from 1, and are asked to
/// rise and to be at most the number of rows.
pub fn spread(alloc: Global, rows: usize, mults: &[(u32, i128)]) -> Result<Vec<i128>, AllocError>
    requires { RisesByRow 0 rows mults.now }
    ensures { IfOk result (λ spread. spread.items ≡ dense rows mults.now) }
{
    let mut spread = zeros(alloc, rows)?;
    for place in 0..mults.len() {
        put(&mut spread, mults[place]);
    }
    Ok(spread)
}

fn zeros(alloc: Global, count: usize) -> Result<Vec<i128>, AllocError>
    ensures { IfOk result (λ zeros. zeros.items ≡ replicate count (pos 0)) }
{
    let mut zeros = Vec::new(alloc);
    zeros.resize(count, 0)?;
    Ok(zeros)
}

/// Sets the multiplier of a row.
fn put(spread: &mut Vec<i128>, mult: (u32, i128))
    requires { IsNumber mult.0 (length spread.old.items) }
    ensures { spread.new.items ≡ slice_set spread.old.items (mult.0 - 1) mult.1 }
{
    spread[mult.0 as usize - 1] = mult.1;
}

// What scales and multipliers give.
ghost use Rattle.std.specs.Prelude.{◌≡◌, ◌<◌, ◌^◌, ◌≤ℤ◌, IsTrue, None, length, pos, unsigned_abs};
ghost use Rattle.algebra.specs.Numbered.{IsNumber};
ghost use Rattle.algebra.specs.Scale.{IsScale};
ghost use Rattle.term_store.specs.declared.side.Side.TheVariants.{AtLeast};
ghost use Rattle.programs.specs.Programs.{row_at, row_count};
ghost use Rattle.road_types.specs.Faults.{road_fault};
ghost use Rattle.milp_builder.specs.Boxes.{IsBoxOf};
ghost use Rattle.safe_bounds.specs.Values.{HasRightSigns, IsMultiplier, multiplier_at};
ghost use Rattle.bound_tools.specs.Ascents.{AreAllowed};

use crate::numbers_in::first_and_rest;
use algebra::GREATEST_SCALE;
use bound_tools::ascend;
use milp_builder::{BoxRange, Milp, build};
use road_types::Road;
use safe_bounds::{Scratch, leaf_value, narrow};
use std::alloc::{AllocError, Global};
use term_store::Side;

/// The value of a scale and of one multiplier for each row of a box's program.
pub(crate) fn value_text(
    alloc: Global,
    road: &Road,
    range: &BoxRange,
    numbers: &str,
) -> Result<String, AllocError>
    requires accepted { road_fault road.now ≡ None }
    requires fits { IsBoxOf road.now range.now }
{
    let milp = build(alloc, road, range)?;
    let (scale, mults) = first_and_rest(alloc, numbers)?;
    match value_of(alloc, &milp, scale, mults.as_slice())? {
        Some(value) => format!(in alloc; "value {value}"),
        None => String::from_str(alloc, "no value"),
    }
}

fn value_of(
    alloc: Global,
    milp: &Milp,
    scale: i128,
    mults: &[i128],
) -> Result<Option<i128>, AllocError> {
    let mut scratch = Scratch::new(alloc, milp.columns())?;
    let is_of_rows = mults.len() == milp.rows() && mults.iter().all(|mult| is_multiplier(*mult));
    if scale >= 0 && scale <= GREATEST_SCALE && is_of_rows {
        Ok(Some(leaf_value(milp, scale, mults, &mut scratch)))
    } else {
        Ok(None)
    }
}

fn is_multiplier(mult: i128) -> bool
    ensures { IsTrue result → IsMultiplier mult }
{
    mult >= -GREATEST_SCALE && mult <= GREATEST_SCALE
}

/// The scale and the multipliers that `narrow` leaves, and whether it changed them.
pub(crate) fn narrow_text(alloc: Global, numbers: &str) -> Result<String, AllocError> {
    let (mut scale, mut mults) = first_and_rest(alloc, numbers)?;
    if scale < 1 || !mults.iter().all(|mult| isnt_least(*mult)) {
        return String::from_str(alloc, "no scale and multipliers");
    }
    let changed = narrow(mults.as_mut_slice(), &mut scale);
    let mults = mults.as_slice();
    format!(in alloc; "{changed} {scale} {mults:?}")
}

fn isnt_least(mult: i128) -> bool
    ensures { IsTrue result → unsigned_abs mult < 2 ^ 127 }
{
    mult != i128::MIN
}

/// The scale, the value and the multipliers that `ascend` leaves of a scale and one multiplier for each row of a box's program.
/// The first of the numbers says in how many rounds.
pub(crate) fn ascend_text(
    alloc: Global,
    road: &Road,
    range: &BoxRange,
    numbers: &str,
) -> Result<String, AllocError>
    requires accepted { road_fault road.now ≡ None }
    requires fits { IsBoxOf road.now range.now }
{
    let milp = build(alloc, road, range)?;
    let (rounds, rest) = numbers.split_once(' ').unwrap_or((numbers, ""));
    let rounds = rounds.parse::<u32>().unwrap_or(0);
    let (scale, mut mults) = first_and_rest(alloc, rest)?;
    if scale < 1 || scale > GREATEST_SCALE || !are_allowed(&milp, mults.as_slice()) {
        return String::from_str(alloc, "no scale and multipliers");
    }
    ascended(alloc, &milp, rounds, scale, mults.as_mut_slice())
}

/// What `ascend` leaves of a scale and multipliers.
fn ascended(
    alloc: Global,
    milp: &Milp,
    rounds: u32,
    scale: i128,
    mults: &mut [i128],
) -> Result<String, AllocError>
    requires scale { IsScale scale }
    requires mults { AreAllowed milp.now mults.old }
{
    let mut scratch = Scratch::new(alloc, milp.columns())?;
    let mut scale = scale;
    ascend(milp, &mut scale, mults, rounds, &mut scratch);
    let value = leaf_value(milp, scale, mults, &mut scratch);
    format!(in alloc; "scale {scale} value {value} {mults:?}")
}

/// Whether there is one multiplier for each row, within the limit and with the right sign.
fn are_allowed(milp: &Milp, mults: &[i128]) -> bool
    ensures { IsTrue result → AreAllowed milp.now mults.now }
{
    mults.len() == milp.rows()
        && mults.iter().all(|mult| is_multiplier(*mult))
        && have_right_signs(milp, mults)
}

fn have_right_signs(milp: &Milp, mults: &[i128]) -> bool
    requires { length mults.now ≡ row_count milp.now }
    ensures { IsTrue result → HasRightSigns milp.now mults.now }
{
    for before in 0..milp.rows() {
        if !has_right_sign(milp, mults, before + 1) {
            return false;
        }
    }
    true
}

fn has_right_sign(milp: &Milp, mults: &[i128], i: usize) -> bool
    requires number { IsNumber i (row_count milp.now) }
    requires count { length mults.now ≡ row_count milp.now }
    ensures { IsTrue result → (row_at milp.now i).side ≡ AtLeast → pos 0 ≤ℤ multiplier_at mults.now i }
{
    mults[i - 1] >= 0 || milp.row(i).side() == Side::Equal
}

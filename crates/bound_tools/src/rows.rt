// Changes of one row's multiplier.
ghost use Rattle.std.specs.Prelude.{◌≡◌, ◌↔◌, IsTrue, ◌^◌, ◌≤◌, pos, ◌≤ℤ◌, unsigned_abs};
ghost use Rattle.algebra.specs.Numbered.{IsNumber};
ghost use Rattle.algebra.specs.Scale.{IsScale};
ghost use Rattle.programs.specs.Programs.{column_count, row_count};
ghost use Rattle.safe_bounds.specs.Values.{value_of};
ghost use Rattle.bound_tools.specs.Ascents.{AreAllowed, IsUnit};
ghost use Rattle.bound_tools.specs.inside.Climbs.{CanStand, IsRaised, IsTried};

use algebra::{GREATEST_SCALE, plus};
use programs::Milp;
use safe_bounds::{Scratch, leaf_value};
use term_store::Side;

/// Raises the value by changes of the multiplier of row `i`, numbered from 1: by 1 and its doubles, or else by -1 and its
/// doubles. Whether it rose; `value` is kept.
pub(crate) fn raise(
    milp: &Milp,
    scale: i128,
    mults: &mut [i128],
    value: &mut i128,
    i: usize,
    scratch: &mut Scratch,
) -> bool
    requires number { IsNumber i (row_count milp.now) }
    requires scale { IsScale scale }
    requires mults { AreAllowed milp.now mults.old }
    requires value { value.old ≡ value_of milp.now scale mults.old }
    requires scratch { column_count milp.now ≤ scratch.old }
    ensures raised { IsRaised milp.now scale i result mults.old mults.new }
    ensures value { value.new ≡ value_of milp.now scale mults.new }
    ensures scratch { scratch.new ≡ scratch.old }
{
    if climb(milp, scale, mults, value, i, 1, scratch) {
        return true;
    }
    climb(milp, scale, mults, value, i, -1, scratch)
}

/// Changes the multiplier of row `i` by a unit, then by twice as much again and again, as long as the value rises. Whether
/// it rose at all.
fn climb(
    milp: &Milp,
    scale: i128,
    mults: &mut [i128],
    value: &mut i128,
    i: usize,
    unit: i128,
    scratch: &mut Scratch,
) -> bool
    requires number { IsNumber i (row_count milp.now) }
    requires scale { IsScale scale }
    requires mults { AreAllowed milp.now mults.old }
    requires value { value.old ≡ value_of milp.now scale mults.old }
    requires unit { IsUnit unit }
    requires scratch { column_count milp.now ≤ scratch.old }
    ensures tried { IsTried milp.now scale i unit result mults.old mults.new }
    ensures value { value.new ≡ value_of milp.now scale mults.new }
    ensures scratch { scratch.new ≡ scratch.old }
{
    if !try_change(milp, scale, mults, value, i, unit, scratch) {
        return false;
    }
    climb_on(milp, scale, mults, value, i, unit, scratch);
    true
}

/// Changes the multiplier of row `i` by twice a unit, then by twice as much again and again, as long as the value rises.
fn climb_on(
    milp: &Milp,
    scale: i128,
    mults: &mut [i128],
    value: &mut i128,
    i: usize,
    unit: i128,
    scratch: &mut Scratch,
)
    requires number { IsNumber i (row_count milp.now) }
    requires scale { IsScale scale }
    requires mults { AreAllowed milp.now mults.old }
    requires value { value.old ≡ value_of milp.now scale mults.old }
    requires unit { IsUnit unit }
    requires scratch { column_count milp.now ≤ scratch.old }
    ensures allowed { AreAllowed milp.now mults.new }
    ensures never_falls { value_of milp.now scale mults.old ≤ℤ value_of milp.now scale mults.new }
    ensures value { value.new ≡ value_of milp.now scale mults.new }
    ensures scratch { scratch.new ≡ scratch.old }
{
    let mut change = unit;
    for _turn in 0..40 {
        change = doubled(change);
        if !try_change(milp, scale, mults, value, i, change, scratch) {
            return;
        }
    }
}

/// Twice the change, as far as it is within the limit.
fn doubled(change: i128) -> i128
    requires { unsigned_abs change ≤ 2 ^ 41 }
    ensures { unsigned_abs result ≤ 2 ^ 41 }
{
    if change.unsigned_abs() > GREATEST_SCALE as u128 {
        return change;
    }
    plus(change, change)
}

/// Changes the multiplier of row `i`, numbered from 1, where that is allowed and raises the value; else all stays. Whether
/// it was changed; `value` is kept.
fn try_change(
    milp: &Milp,
    scale: i128,
    mults: &mut [i128],
    value: &mut i128,
    i: usize,
    by: i128,
    scratch: &mut Scratch,
) -> bool
    requires number { IsNumber i (row_count milp.now) }
    requires scale { IsScale scale }
    requires mults { AreAllowed milp.now mults.old }
    requires value { value.old ≡ value_of milp.now scale mults.old }
    requires by { unsigned_abs by ≤ 2 ^ 41 }
    requires scratch { column_count milp.now ≤ scratch.old }
    ensures tried { IsTried milp.now scale i by result mults.old mults.new }
    ensures value { value.new ≡ value_of milp.now scale mults.new }
    ensures scratch { scratch.new ≡ scratch.old }
{
    let old = mults[i - 1];
    let tried = plus(old, by);
    if !can_stand(milp, i, tried) {
        return false;
    }
    mults[i - 1] = tried;
    let risen = leaf_value(milp, scale, mults, scratch);
    if risen > *value {
        *value = risen;
        return true;
    }
    mults[i - 1] = old;
    false
}

/// Whether the number is within the limit and has the right sign of a multiplier of row `i`, numbered from 1.
fn can_stand(milp: &Milp, i: usize, y: i128) -> bool
    requires { IsNumber i (row_count milp.now) }
    ensures { IsTrue result ↔ CanStand milp.now i y }
{
    if y.unsigned_abs() > GREATEST_SCALE as u128 {
        return false;
    }
    y >= 0 || milp.row(i).side() == Side::Equal
}

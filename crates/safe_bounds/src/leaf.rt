// The value of a scale and multipliers.
ghost use Rattle.std.specs.Prelude.{◌≡◌, ℕ, ◌*◌, ◌^◌, ◌≤◌, List, length, ℤ, pos, ◌-ℤ◌, ◌*ℤ◌, ◌≤ℤ◌, ◌<ℤ◌, unsigned_abs};
ghost use Rattle.std.specs.Int.{int_min};
ghost use Rattle.algebra.specs.Numbered.{numbered, IsNumber};
ghost use Rattle.algebra.specs.Scale.{greatest_scale};
ghost use Rattle.programs.specs.Programs.{bounds_at, column_count, cost_at};
ghost use Rattle.programs.specs.Weights.{reach};
ghost use Rattle.programs.specs.Limits.{IsWithinLimits};
ghost use Rattle.safe_bounds.specs.Values.{AreMultipliers, HasRightSigns, IsMultiplier, value_of, reduced_cost as cost_left};
ghost use Rattle.safe_bounds.specs.Bounds.{BoundsCosts, HasNoPoint};
ghost use Rattle.safe_bounds.specs.inside.Drawn.{AreAtMost};

use crate::products::times_word;
use crate::rows::draw_rows;
use crate::scratch::Scratch;
use algebra::{minus, plus, times};
use programs::Milp;

/// The value of a scale from 0 to 2^40 and one multiplier of magnitude at most 2^40 for each row. Where the
/// multipliers' signs are right, no point costs less than the value over the scale; at scale 0, the dead value, a
/// value above 0 leaves no point. Both hold of every scale and all multipliers, as `any_bound` and `any_dead` say. The scratch is asked to have room for the program's columns. It takes no memory.
pub fn leaf_value(milp: &Milp, scale: i128, mults: &[i128], scratch: &mut Scratch) -> i128
    requires scale_from { pos 0 ≤ℤ scale }
    requires scale_to { scale ≤ℤ pos greatest_scale }
    requires mults { AreMultipliers milp.now mults.now }
    requires scratch { column_count milp.now ≤ scratch.old }
    ensures value { result ≡ value_of milp.now scale mults.now }
    ensures bound { HasRightSigns milp.now mults.now → BoundsCosts milp.now scale result }
    ensures dead { HasRightSigns milp.now mults.now → scale ≡ pos 0 → pos 0 <ℤ result → HasNoPoint milp.now }
    ensures any_bound { (s : ℤ) (ys : List ℤ) → HasRightSigns milp.now ys → BoundsCosts milp.now s (value_of milp.now s ys) }
    ensures any_dead { (ys : List ℤ) → HasRightSigns milp.now ys → pos 0 <ℤ value_of milp.now (pos 0) ys → HasNoPoint milp.now }
    ensures width { unsigned_abs result ≤ 2 ^ 86 }
    ensures scratch { scratch.new ≡ scratch.old }
{
    let columns = milp.columns();
    value_over(milp, scale, mults, &mut scratch.drawn[..columns])
}

/// The value, formed over `drawn`, which has one number a column.
fn value_over(milp: &Milp, scale: i128, mults: &[i128], drawn: &mut [i128]) -> i128
    requires limits { IsWithinLimits milp.now }
    requires scale { IsMultiplier scale }
    requires mults { AreMultipliers milp.now mults.now }
    requires columns { length drawn.old ≡ column_count milp.now }
    ensures value { result ≡ value_of milp.now scale mults.now }
    ensures width { unsigned_abs result ≤ 2 ^ 86 }
{
    drawn.fill(0);
    let mut value = draw_rows(milp, mults, drawn);
    for (place, at_column) in drawn.iter().enumerate() {
        let reduced = reduced_cost(milp, place + 1, scale, *at_column);
        value = plus(value, least_share(milp, place + 1, reduced));
    }
    value
}

/// Makes each number the reduced cost of its column: the scaled cost less what the multipliers draw there. The scale is
/// of magnitude at most 2^40, as is each multiplier. It takes no memory.
pub fn reduce_costs(milp: &Milp, scale: i128, mults: &[i128], reduced: &mut [i128])
    requires scale { IsMultiplier scale }
    requires mults { AreMultipliers milp.now mults.now }
    requires columns { length reduced.old ≡ column_count milp.now }
    ensures columns { length reduced.new ≡ column_count milp.now }
    ensures reduced { (j : ℕ) → IsNumber j (column_count milp.now)
        → numbered (pos 0) reduced.new j ≡ cost_left milp.now scale mults.now j }
    ensures width { AreAtMost (2 ^ 124) reduced.new }
{
    let columns = milp.columns();
    reduce_within(milp, scale, mults, reduced, columns)
}

/// Does what `reduce_costs` says; `columns` is the number of columns.
fn reduce_within(milp: &Milp, scale: i128, mults: &[i128], reduced: &mut [i128], columns: usize)
    requires limits { IsWithinLimits milp.now }
    requires scale { IsMultiplier scale }
    requires mults { AreMultipliers milp.now mults.now }
    requires columns { length reduced.old ≡ column_count milp.now }
    requires count { columns ≡ column_count milp.now }
    ensures columns { length reduced.new ≡ column_count milp.now }
    ensures reduced { (j : ℕ) → IsNumber j (column_count milp.now)
        → numbered (pos 0) reduced.new j ≡ cost_left milp.now scale mults.now j }
    ensures width { AreAtMost (2 ^ 124) reduced.new }
{
    reduced.fill(0);
    draw_rows(milp, mults, reduced);
    for place in 0..columns {
        reduced[place] = reduced_cost(milp, place + 1, scale, reduced[place]);
    }
}

/// The scaled cost of column `j`, numbered from 1, less what the multipliers drew there.
fn reduced_cost(milp: &Milp, j: usize, scale: i128, drawn: i128) -> i128
    requires number { IsNumber j (column_count milp.now) }
    requires scale { IsMultiplier scale }
    requires drawn { unsigned_abs drawn ≤ 2 ^ 123 }
    ensures value { result ≡ scale *ℤ cost_at milp.now j -ℤ drawn }
    ensures width { unsigned_abs result ≤ 2 ^ 124 }
{
    minus(times_word(scale, milp.cost(j)), drawn)
}

/// The least that column `j`, numbered from 1, can add by a reduced cost: that times one of the column's bounds. Reduced
/// cost times each bound is asked to be of magnitude at most 2^126.
pub fn least_share(milp: &Milp, j: usize, reduced: i128) -> i128
    requires number { IsNumber j (column_count milp.now) }
    requires width { unsigned_abs reduced * reach (bounds_at milp.now j) ≤ 2 ^ 126 }
    ensures { result ≡ int_min (reduced *ℤ (bounds_at milp.now j).0) (reduced *ℤ (bounds_at milp.now j).1) }
{
    let (low, high) = milp.bounds(j);
    let at_low = times(reduced, i128::from(low));
    let at_high = times(reduced, i128::from(high));
    at_low.min(at_high)
}

// Pricing: which bound a basic value breaks, and by how much about.
ghost use Rattle.std.specs.Prelude.{◌≡◌, ◌↔◌, ◌^◌, ◌-◌, ◌<◌, ◌≤◌, length, ◌+ℤ◌, IfOk, IfErr, IfSome, IfNone, IsTrue};
ghost use Rattle.tableau.specs.Signs.{IsOppositeSign, IsSameSign};
ghost use Rattle.tableau.specs.declared.bound.Bound.TheVariants.{Lower, Upper};
ghost use Rattle.sparse_rows.specs.Lines.{IsLine};
ghost use Rattle.simplex.specs.inside.Choices.{IsBroken, IsWideSum};

use crate::signs::is_positive;
use numbers::{Narrow, W128, Whole};
use sparse_rows::{entry, is_negative, product_of, row_sum};
use std::cmp::Ordering;
use tableau::Bound;
use term_store::Term;
use wide_whole::W256;

/// The bound that a row's basic value breaks, and by how much about, in the units of the column: by sums of 128 bits, and of twice
/// as many where those don't hold a number. `Err` with the column of a number in the sum for it that is out of their range.
pub(crate) fn broken_bound<W: Narrow>(
    row: &[Term<W>],
    basic: u32,
    low: &[W],
    high: &[W],
    has_high: &[bool],
    at_high: &[bool],
) -> Result<Option<(Bound, u128)>, u32>
    requires high { length high.now ≡ length low.now }
    requires has_high { length has_high.now ≡ length low.now }
    requires at_high { length at_high.now ≡ length low.now }
    requires basic { (1 ≤ basic) × (basic < length low.now) }
    requires line { IsLine W.meaning 1 (length low.now) row.now }
    ensures broken { IfOk result (λ o. IfSome o (λ (bound, _). IsBroken W.meaning row.now basic low.now high.now has_high.now at_high.now bound)) }
    ensures not_low { IfOk result (λ o. IfNone o (IsBroken W.meaning row.now basic low.now high.now has_high.now at_high.now Lower → ⊥)) }
    ensures not_high { IfOk result (λ o. IfNone o (IsBroken W.meaning row.now basic low.now high.now has_high.now at_high.now Upper → ⊥)) }
    ensures wide { IfErr result (λ j. IsWideSum W.meaning row.now basic low.now high.now has_high.now at_high.now (2 ^ 255 - 1) j) }
    ensures column { IfErr result (λ j. (1 ≤ j) × (j < length low.now)) }
{
    match broken_bound_in::<W, W128>(row, basic, low, high, has_high, at_high) {
        Ok(broken) => Ok(broken),
        Err(_) => broken_bound_in::<W, W256>(row, basic, low, high, has_high, at_high),
    }
}

/// The bound that a row's basic value breaks, and by how much about, in the units of the column, by sums of T's range. `Err` with the
/// column of a number in the sum for it that is out of it.
fn broken_bound_in<W: Narrow, T: Whole>(
    row: &[Term<W>],
    basic: u32,
    low: &[W],
    high: &[W],
    has_high: &[bool],
    at_high: &[bool],
) -> Result<Option<(Bound, u128)>, u32>
    requires wider { W.greatest ≤ T.greatest }
    requires high { length high.now ≡ length low.now }
    requires has_high { length has_high.now ≡ length low.now }
    requires at_high { length at_high.now ≡ length low.now }
    requires basic { (1 ≤ basic) × (basic < length low.now) }
    requires line { IsLine W.meaning 1 (length low.now) row.now }
    ensures broken { IfOk result (λ o. IfSome o (λ (bound, _). IsBroken W.meaning row.now basic low.now high.now has_high.now at_high.now bound)) }
    ensures not_low { IfOk result (λ o. IfNone o (IsBroken W.meaning row.now basic low.now high.now has_high.now at_high.now Lower → ⊥)) }
    ensures not_high { IfOk result (λ o. IfNone o (IsBroken W.meaning row.now basic low.now high.now has_high.now at_high.now Upper → ⊥)) }
    ensures wide { IfErr result (λ j. IsWideSum W.meaning row.now basic low.now high.now has_high.now at_high.now T.greatest j) }
    ensures column { IfErr result (λ j. (1 ≤ j) × (j < length low.now)) }
{
    let rest: T = match row_sum(row, basic, low, high, at_high) {
        Ok(rest) => rest,
        Err(column) => return Err(column),
    };
    let pivot = entry(row, basic);
    let place = basic as usize;
    let Some(at_low) = product_of::<W, T>(pivot, low[place]) else {
        return Err(basic);
    };
    if breaks_low(pivot, rest, at_low) {
        return Ok(Some((Bound::Lower, excess(rest, at_low, pivot))));
    }
    if !has_high[place] {
        return Ok(None);
    }
    let Some(at_top) = product_of::<W, T>(pivot, high[place]) else {
        return Err(basic);
    };
    if breaks_high(pivot, rest, at_top) {
        return Ok(Some((Bound::Upper, excess(rest, at_top, pivot))));
    }
    Ok(None)
}

/// Whether the sum of a row with its basic column at the lower bound has the sign of the basic entry.
fn breaks_low<W: Narrow, T: Whole>(pivot: W, rest: T, at_low: T) -> bool
    ensures { IsTrue result ↔ IsSameSign (W.meaning pivot) (T.meaning rest +ℤ T.meaning at_low) }
{
    let order = rest.negated().order(at_low);
    if is_negative(pivot) {
        order == Ordering::Greater
    } else {
        is_positive(pivot) && order == Ordering::Less
    }
}

/// Whether the sum of a row with its basic column at the upper bound has the other sign than the basic entry.
fn breaks_high<W: Narrow, T: Whole>(pivot: W, rest: T, at_top: T) -> bool
    ensures { IsTrue result ↔ IsOppositeSign (W.meaning pivot) (T.meaning rest +ℤ T.meaning at_top) }
{
    let order = rest.negated().order(at_top);
    if is_negative(pivot) {
        order == Ordering::Less
    } else {
        is_positive(pivot) && order == Ordering::Greater
    }
}

/// About how far a basic value is outside of a bound, in parts of 65,536.
fn excess<W: Narrow, T: Whole>(rest: T, at_bound: T, pivot: W) -> u128 {
    let gap = match rest.plus(at_bound) {
        Some(sum) => sum.size(),
        None => u128::MAX,
    };
    gap.saturating_mul(65_536) / pivot.wide().unsigned_abs().max(1)
}

// The ratio test: which column is to enter.
ghost use Rattle.std.specs.Prelude.{◌≡◌, ◌≢◌, ◌↔◌, ◌*◌, ◌<◌, ◌≤◌, ℕ, true, false, length, slice_index_or, pos, IfSome, IfNone, IsTrue, unsigned_abs};
ghost use Rattle.tableau.specs.Exchanges.{IsToward};
ghost use Rattle.sparse_rows.specs.Lines.{IsLine};
ghost use Rattle.sparse_rows.specs.Sums.{meaning_at};
ghost use Rattle.wide_products.specs.Naturals.{whole_of};
ghost use Rattle.simplex.specs.inside.Choices.{IsChosen, MayEnter};

use crate::signs::{is_opposite_sign, is_same_sign, magnitude};
use numbers::{Narrow, W128, Whole};
use sparse_rows::{entry, product_of};
use std::cmp::Ordering;
use tableau::Bound;
use term_store::Term;
use wide_products::Wide;

/// The column that enters for a row whose basic value breaks this bound: the first one of the least ratio, `None` where no
/// column may enter.
pub(crate) fn entering_column<W: Narrow>(
    row: &[Term<W>],
    costs: &[Term<W>],
    basic: u32,
    low: &[W],
    high: &[W],
    has_high: &[bool],
    at_high: &[bool],
    broken: Bound,
) -> Option<u32>
    requires high { length high.now ≡ length low.now }
    requires has_high { length has_high.now ≡ length low.now }
    requires at_high { length at_high.now ≡ length low.now }
    requires line { IsLine W.meaning 1 (length low.now) row.now }
    requires costs { IsLine W.meaning 0 (length low.now) costs.now }
    ensures chosen { IfSome result (λ c. IsChosen W.meaning row.now basic low.now high.now has_high.now at_high.now costs.now broken c) }
    ensures none { IfNone result ((j : ℕ) → MayEnter W.meaning row.now basic low.now high.now has_high.now at_high.now broken j → ⊥) }
{
    let pivot = entry(row, basic);
    let mut best = 0;
    let mut best_cost = W::one();
    let mut best_entry = W::zero();
    for term in row {
        let column = term.column;
        if !may_enter(
            term.value, pivot, column, basic, low, high, has_high, at_high, broken,
        ) {
            continue;
        }
        let cost = entry(costs, column);
        if !is_ratio_less(cost, term.value, best_cost, best_entry) {
            continue;
        }
        best = column;
        best_cost = cost;
        best_entry = term.value;
    }
    if best == 0 {
        return None;
    }
    Some(best)
}

/// Whether a column may enter: from its entry and the basic one.
fn may_enter<W: Narrow>(
    value: W,
    pivot: W,
    column: u32,
    basic: u32,
    low: &[W],
    high: &[W],
    has_high: &[bool],
    at_high: &[bool],
    broken: Bound,
) -> bool
    requires column { column < length low.now }
    requires high { length high.now ≡ length low.now }
    requires has_high { length has_high.now ≡ length low.now }
    requires at_high { length at_high.now ≡ length low.now }
    ensures other { IsTrue result → basic ≢ column }
    ensures movable { IsTrue result → slice_index_or has_high.now column false ≡ true → meaning_at W.meaning low.now column ≢ meaning_at W.meaning high.now column }
    ensures toward { IsTrue result → IsToward broken (slice_index_or at_high.now column false) (W.meaning value) (W.meaning pivot) }
    ensures all { basic ≢ column
        → (slice_index_or has_high.now column false ≡ true → meaning_at W.meaning low.now column ≢ meaning_at W.meaning high.now column)
        → IsToward broken (slice_index_or at_high.now column false) (W.meaning value) (W.meaning pivot) → IsTrue result }
{
    if column == basic {
        return false;
    }
    let place = column as usize;
    if !is_toward(broken, at_high[place], value, pivot) {
        return false;
    }
    if !has_high[place] {
        return true;
    }
    differ(low[place], high[place])
}

/// Whether two numbers differ.
fn differ<W: Narrow>(a: W, b: W) -> bool
    ensures { IsTrue result ↔ (W.meaning a ≢ W.meaning b) }
{
    a.order(b) != Ordering::Equal
}

/// Whether a move from a bound into the range moves the basic value towards the broken bound.
fn is_toward<W: Narrow>(broken: Bound, at_high: bool, value: W, pivot: W) -> bool
    ensures { IsTrue result ↔ IsToward broken at_high (W.meaning value) (W.meaning pivot) }
{
    match broken {
        Bound::Lower => {
            if at_high {
                is_same_sign(pivot, value)
            } else {
                is_opposite_sign(pivot, value)
            }
        }
        Bound::Upper => {
            if at_high {
                is_opposite_sign(pivot, value)
            } else {
                is_same_sign(pivot, value)
            }
        }
    }
}

/// Whether the ratio of a cost entry to a row entry is less than another one, by magnitudes.
fn is_ratio_less<W: Narrow>(cost: W, value: W, other_cost: W, other_value: W) -> bool
    ensures { IsTrue result
        ↔ (unsigned_abs (W.meaning cost) * unsigned_abs (W.meaning other_value) < unsigned_abs (W.meaning other_cost) * unsigned_abs (W.meaning value)) }
{
    match is_narrow_ratio_less(cost, value, other_cost, other_value) {
        Some(is_less) => is_less,
        None => is_wide_ratio_less(cost, value, other_cost, other_value),
    }
}

/// The same by products of 128 bits. `None` where those don't hold one.
fn is_narrow_ratio_less<W: Narrow>(cost: W, value: W, other_cost: W, other_value: W) -> Option<bool>
    ensures { IfSome result (λ is_less. IsTrue is_less
        ↔ (unsigned_abs (W.meaning cost) * unsigned_abs (W.meaning other_value) < unsigned_abs (W.meaning other_cost) * unsigned_abs (W.meaning value))) }
{
    let left = narrow_product(cost, other_value)?;
    let right = narrow_product(other_cost, value)?;
    Some(left.order(right) == Ordering::Less)
}

/// The same by products in two halves.
fn is_wide_ratio_less<W: Narrow>(cost: W, value: W, other_cost: W, other_value: W) -> bool
    ensures { IsTrue result
        ↔ (unsigned_abs (W.meaning cost) * unsigned_abs (W.meaning other_value) < unsigned_abs (W.meaning other_cost) * unsigned_abs (W.meaning value)) }
{
    let left = wide_product(cost, other_value);
    let right = wide_product(other_cost, value);
    left.order(right) == Ordering::Less
}

/// The product of two magnitudes in 128 bits, where those hold it.
fn narrow_product<W: Narrow>(a: W, b: W) -> Option<W128>
    ensures { IfSome result (λ z. ⟦<W128 as Whole>⟧.meaning z ≡ pos (unsigned_abs (W.meaning a) * unsigned_abs (W.meaning b))) }
{
    product_of(magnitude(a), magnitude(b))
}

/// The product of two magnitudes in two halves.
fn wide_product<W: Narrow>(a: W, b: W) -> Wide
    ensures { whole_of result ≡ pos (unsigned_abs (W.meaning a) * unsigned_abs (W.meaning b)) }
{
    Wide::product(magnitude(a).wide(), magnitude(b).wide())
}

// Cells of a reduced row, computed in the wider range.
ghost use Rattle.std.specs.Prelude.{◌≡◌, ℕ, ◌+◌, ◌<◌, ◌≤◌, length, vec_capacity, ℤ, pos, ◌<ℤ◌, IfSome, IfNone, IsTrue, ◌↔◌};
ghost use Rattle.sparse_rows.specs.Lines.{IsFilled};
ghost use Rattle.sparse_rows.specs.Cells.{cell, IsWideCell};

use numbers::{Narrow, Whole};
use std::cmp::Ordering;
use term_store::Term;

/// The number in a range that is no smaller.
pub fn widened<W: Narrow, T: Whole>(v: W) -> T
    requires { W.greatest ≤ T.greatest }
    ensures { T.meaning result ≡ W.meaning v }
{
    match T::of_wide(v.wide()) {
        Some(wide) => wide,
        None => T::zero(),
    }
}

/// The cell of a row's entry and the pivot row's entry.
pub(crate) fn cell_of<W: Narrow, T: Whole>(keep: T, entry: W, take: T, pivot_entry: W) -> Option<T>
    requires { W.greatest ≤ T.greatest }
    ensures value { IfSome result (λ z. T.meaning z
        ≡ cell (T.meaning keep) (W.meaning entry) (T.meaning take) (W.meaning pivot_entry)) }
    ensures wide { IfNone result
        (IsWideCell T.greatest (T.meaning keep) (W.meaning entry) (T.meaning take) (W.meaning pivot_entry)) }
{
    let left: T = widened(entry);
    let right: T = widened(pivot_entry);
    keep.product_difference(left, take, right)
}

/// The cell of a row's entry at a column where the pivot row has none.
pub(crate) fn kept_cell<W: Narrow, T: Whole>(keep: T, entry: W) -> Option<T>
    requires { W.greatest ≤ T.greatest }
    ensures value { IfSome result (λ z. (take : ℤ) → T.meaning z
        ≡ cell (T.meaning keep) (W.meaning entry) take (pos 0)) }
    ensures wide { IfNone result
        ((take : ℤ) → IsWideCell T.greatest (T.meaning keep) (W.meaning entry) take (pos 0)) }
{
    let left: T = widened(entry);
    keep.times(left)
}

/// The cell of the pivot row's entry at a column where the row has none.
pub(crate) fn taken_cell<W: Narrow, T: Whole>(take: T, pivot_entry: W) -> Option<T>
    requires { W.greatest ≤ T.greatest }
    ensures value { IfSome result (λ z. (keep : ℤ) → T.meaning z
        ≡ cell keep (pos 0) (T.meaning take) (W.meaning pivot_entry)) }
    ensures wide { IfNone result
        ((keep : ℤ) → IsWideCell T.greatest keep (pos 0) (T.meaning take) (W.meaning pivot_entry)) }
{
    let right: T = widened(pivot_entry);
    let product = take.times(right)?;
    Some(product.negated())
}

/// Puts a term behind the others, where its value isn't 0.
pub fn put<T: Whole>(terms: &mut Vec<Term<T>>, column: u32, value: T)
    requires { length terms.old.items < vec_capacity terms.old }
    ensures filled { (entries : ℕ → ℤ) (c : ℕ) → IsFilled T.meaning terms.old.items c entries → c ≤ column
        → ((j : ℕ) → c ≤ j → j < column → entries j ≡ pos 0) → entries column ≡ T.meaning value
        → IsFilled T.meaning terms.new.items (column + 1) entries }
    ensures capacity { vec_capacity terms.new ≡ vec_capacity terms.old }
{
    if is_zero(value) {
        return;
    }
    terms.push_reserved(Term { column, value });
}

/// Whether the number is 0.
pub fn is_zero<T: Whole>(value: T) -> bool
    ensures { IsTrue result ↔ (T.meaning value ≡ pos 0) }
{
    value.sign() == Ordering::Equal
}

/// Whether the number is below 0.
pub fn is_negative<T: Whole>(value: T) -> bool
    ensures { IsTrue result ↔ (T.meaning value <ℤ pos 0) }
{
    value.sign() == Ordering::Less
}

// The sum of a row at the bounds where its columns stand.
ghost use Rattle.std.specs.Prelude.{◌≡◌, ◌⊎◌, ◌-◌, ◌<◌, ◌≤◌, length, ℤ, ◌*ℤ◌, IfOk, IfErr, IfSome, IfNone, unsigned_abs};
ghost use Rattle.algebra.specs.Sums.{sum_to};
ghost use Rattle.sparse_rows.specs.Lines.{IsLine};
ghost use Rattle.sparse_rows.specs.Sums.{share, standing_at};

use crate::cells::{is_zero, widened};
use numbers::{Narrow, Whole};
use term_store::Term;

/// The sum of a row's entries, each times the bound at which its column stands, without the column `without`. There are
/// one lower and one upper bound for each column, column 0 among them. `Err` with the column of a product, or of a sum up
/// to it, that is out of T's range.
pub fn row_sum<W: Narrow, T: Whole>(
    row: &[Term<W>],
    without: u32,
    low: &[W],
    high: &[W],
    at_high: &[bool],
) -> Result<T, u32>
    requires wider { W.greatest ≤ T.greatest }
    requires high { length high.now ≡ length low.now }
    requires at_high { length at_high.now ≡ length low.now }
    requires line { IsLine W.meaning 1 (length low.now) row.now }
    ensures sum { IfOk result (λ z. T.meaning z
        ≡ sum_to (share W.meaning row.now without low.now high.now at_high.now) (length low.now - 1)) }
    ensures wide { IfErr result (λ column. (T.greatest < unsigned_abs (share W.meaning row.now without low.now high.now at_high.now column))
        ⊎ (T.greatest < unsigned_abs (sum_to (share W.meaning row.now without low.now high.now at_high.now) column))) }
    ensures column { IfErr result (λ column. (1 ≤ column) × (column < length low.now)) }
{
    let mut total = T::zero();
    for term in row {
        let column = term.column;
        if column == without {
            continue;
        }
        let bound: W = standing(low, high, at_high, column as usize);
        if is_zero(bound) {
            continue;
        }
        let Some(product) = product_of::<W, T>(term.value, bound) else {
            return Err(column);
        };
        let Some(sum) = total.plus(product) else {
            return Err(column);
        };
        total = sum;
    }
    Ok(total)
}

/// The bound at which a column stands.
pub fn standing<W: Whole>(low: &[W], high: &[W], at_high: &[bool], column: usize) -> W
    requires column { column < length low.now }
    requires high { length high.now ≡ length low.now }
    requires at_high { length at_high.now ≡ length low.now }
    ensures { W.meaning result ≡ standing_at W.meaning low.now high.now at_high.now column }
{
    if at_high[column] {
        high[column]
    } else {
        low[column]
    }
}

/// A product in the wider range.
pub fn product_of<W: Narrow, T: Whole>(a: W, b: W) -> Option<T>
    requires { W.greatest ≤ T.greatest }
    ensures value { IfSome result (λ z. T.meaning z ≡ W.meaning a *ℤ W.meaning b) }
    ensures wide { IfNone result (T.greatest < unsigned_abs (W.meaning a *ℤ W.meaning b)) }
{
    let left: T = widened(a);
    let right: T = widened(b);
    left.times(right)
}

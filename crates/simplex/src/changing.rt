// The changes that an exchange makes when all its rows are prepared.
ghost use Rattle.std.specs.Prelude.{◌≡◌, ◌+◌, ◌<◌, ℕ, [], false, length, slice_index_or, cond, if◌then◌else◌};
ghost use Rattle.std.specs.List.{swap};
ghost use Rattle.sparse_rows.specs.Lines.{IsLine};
ghost use Rattle.simplex.specs.inside.Rows.{IsRestood, IsStood};

use numbers::Narrow;
use sparse_rows::is_negative;
use term_store::{Rows, Term};

/// Exchanges each marked row with its spare one.
pub(crate) fn swap_in<W: Narrow>(lines: &mut Rows<W>, marks: &[bool])
    requires { length lines.old.rows ≡ length marks.now + length marks.now }
    ensures count { length lines.new.rows ≡ length lines.old.rows }
    ensures width { lines.new.width ≡ lines.old.width }
    ensures rows { (k : ℕ) → k < length marks.now → slice_index_or lines.new.rows k []
        ≡ cond (slice_index_or marks.now k false) (slice_index_or lines.old.rows (length marks.now + k) []) (slice_index_or lines.old.rows k []) }
{
    let count = marks.len();
    for k in 0..count {
        swap_marked(lines, k, count + k, marks[k]);
    }
}

/// Exchanges two rows where they are marked.
fn swap_marked<W: Narrow>(lines: &mut Rows<W>, k: usize, spare: usize, marked: bool)
    requires { (k < length lines.old.rows) × (spare < length lines.old.rows) }
    ensures rows { lines.new.rows ≡ (if marked then (swap lines.old.rows k spare) else lines.old.rows) }
    ensures width { lines.new.width ≡ lines.old.width }
{
    if marked {
        lines.swap_rows(k, spare);
    }
}

/// Puts the leaving column at a bound, where it is a structural one.
pub(crate) fn stand(at_high: &mut [bool], leaving: usize, columns: usize, upper: bool)
    requires { columns < length at_high.old }
    ensures count { length at_high.new ≡ length at_high.old }
    ensures stood { IsStood leaving columns upper at_high.old at_high.new }
{
    if leaving <= columns {
        at_high[leaving] = upper;
    }
}

/// Puts each structural column at the bound that the sign of its cost entry asks for; where that is 0 it stays.
pub(crate) fn restand<W: Narrow>(costs: &[Term<W>], at_high: &mut [bool], columns: usize)
    requires { columns < length at_high.old }
    ensures count { length at_high.new ≡ length at_high.old }
    ensures stood { (end : ℕ) → IsLine W.meaning 0 end costs.now → IsRestood W.meaning costs.now columns at_high.old at_high.new }
{
    for term in costs {
        let column = term.column as usize;
        if column > columns {
            return;
        }
        at_high[column] = is_negative(term.value);
    }
}

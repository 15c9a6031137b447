// A row times a factor less a pivot row times another.
ghost use Rattle.std.specs.Prelude.{◌≡◌, ◌≤◌, vec_capacity, IfOk, IfErr};
ghost use Rattle.sparse_rows.specs.Lines.{IsLine, IsFilled, entry_of};
ghost use Rattle.sparse_rows.specs.Cells.{cell, IsWideCell};

use crate::cells::{cell_of, kept_cell, put, taken_cell};
use numbers::{Narrow, Whole};
use term_store::Term;

/// Puts `keep` times the row `other` less `take` times the row `pivot` in place of the terms of `out`, whose capacity is
/// the number of columns. `Err` with the column of a cell that is out of T's range.
pub fn combine<W: Narrow, T: Whole>(
    pivot: &[Term<W>],
    other: &[Term<W>],
    keep: T,
    take: T,
    out: &mut Vec<Term<T>>,
) -> Result<(), u32>
    requires wider { W.greatest ≤ T.greatest }
    requires pivot { IsLine W.meaning 0 (vec_capacity out.old) pivot.now }
    requires other { IsLine W.meaning 0 (vec_capacity out.old) other.now }
    ensures ok { IfOk result (λ _. IsFilled T.meaning out.new.items (vec_capacity out.old)
        (λ j. cell (T.meaning keep) (entry_of W.meaning other.now j) (T.meaning take) (entry_of W.meaning pivot.now j))) }
    ensures err { IfErr result (λ column. IsWideCell T.greatest (T.meaning keep) (entry_of W.meaning other.now column)
        (T.meaning take) (entry_of W.meaning pivot.now column)) }
    ensures capacity { vec_capacity out.new ≡ vec_capacity out.old }
{
    out.clear();
    let mut a = 0;
    let mut b = 0;
    while a < pivot.len() && b < other.len() {
        let (x, y) = (pivot[a], other[b]);
        if x.column < y.column {
            let Some(value) = taken_cell(take, x.value) else {
                return Err(x.column);
            };
            put(out, x.column, value);
            a += 1;
        } else if y.column < x.column {
            let Some(value) = kept_cell(keep, y.value) else {
                return Err(y.column);
            };
            put(out, y.column, value);
            b += 1;
        } else {
            let Some(value) = cell_of(keep, y.value, take, x.value) else {
                return Err(x.column);
            };
            put(out, x.column, value);
            a += 1;
            b += 1;
        }
    }
    while a < pivot.len() {
        let x = pivot[a];
        let Some(value) = taken_cell(take, x.value) else {
            return Err(x.column);
        };
        put(out, x.column, value);
        a += 1;
    }
    while b < other.len() {
        let y = other[b];
        let Some(value) = kept_cell(keep, y.value) else {
            return Err(y.column);
        };
        put(out, y.column, value);
        b += 1;
    }
    Ok(())
}

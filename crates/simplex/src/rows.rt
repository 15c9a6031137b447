// An exchange on the rows, the basis and the bounds at which columns stand.
ghost use Rattle.std.specs.Prelude.{◌≡◌, ◌≢◌, ◌+◌, ◌<◌, ◌≤◌, ℕ, [], length, slice_index_or, slice_set, pos, IfOk, IfErr};
ghost use Rattle.sparse_rows.specs.Lines.{IsLine, entry_of};
ghost use Rattle.simplex.specs.inside.Rows.{IsChangedRow, IsRestanding, IsWideRow, LeavesEntries};

use crate::cells::Cells;
use crate::changing::{restand, stand, swap_in};
use crate::prepare::prepare;
use crate::signs::breaks_upper;
use numbers::Narrow;
use sparse_rows::entry;
use term_store::Rows;

/// Exchanges the basic column of row `row` for column `col`. `Err` with the row and the column of an entry that is out of
/// range; all is then as before.
pub(crate) fn exchange_rows<W: Narrow>(
    lines: &mut Rows<W>,
    marks: &mut [bool],
    cells: &mut Cells,
    basis: &mut [u32],
    at_high: &mut [bool],
    columns: usize,
    row: usize,
    col: u32,
) -> Result<(), (usize, u32)>
    requires rows { length lines.old.rows ≡ length marks.old + length marks.old }
    requires row { row < length marks.old }
    requires width { cells.old ≤ lines.old.width }
    requires column { col < cells.old }
    requires rising { (k : ℕ) → k < length marks.old → IsLine W.meaning 0 cells.old (slice_index_or lines.old.rows k []) }
    requires nonzero { entry_of W.meaning (slice_index_or lines.old.rows row []) col ≢ pos 0 }
    requires entries { (k : ℕ) → k < length marks.old → LeavesEntries W.meaning row col cells.old k
        (slice_index_or lines.old.rows row []) (slice_index_or lines.old.rows k []) }
    requires basis { length basis.old ≡ length marks.old }
    requires columns { columns < length at_high.old }
    requires standing { length at_high.old ≡ cells.old }
    ensures count { length lines.new.rows ≡ length lines.old.rows }
    ensures marks { length marks.new ≡ length marks.old }
    ensures width { lines.new.width ≡ lines.old.width }
    ensures room { cells.new ≡ cells.old }
    ensures standing { length at_high.new ≡ length at_high.old }
    ensures changed { IfOk result (λ _. (k : ℕ) → k < length marks.old → IsChangedRow W.meaning row col cells.old k
        (slice_index_or lines.old.rows row []) (slice_index_or lines.old.rows k []) (slice_index_or lines.new.rows k [])) }
    ensures basis { IfOk result (λ _. basis.new ≡ slice_set basis.old row col) }
    ensures restanding { IfOk result (λ _. IsRestanding W.meaning columns (slice_index_or basis.old row 0) col
        (slice_index_or lines.old.rows row []) (slice_index_or lines.new.rows 0 []) at_high.old at_high.new) }
    ensures same { IfErr result (λ _. (k : ℕ) → k < length marks.old → slice_index_or lines.new.rows k [] ≡ slice_index_or lines.old.rows k []) }
    ensures same_basis { IfErr result (λ _. basis.new ≡ basis.old) }
    ensures same_standing { IfErr result (λ _. at_high.new ≡ at_high.old) }
    ensures wide { IfErr result (λ (k, column). (k < length marks.old) × IsWideRow W.meaning W.greatest row col cells.old k
        (slice_index_or lines.old.rows row []) (slice_index_or lines.old.rows k []) column) }
{
    let pivot = entry(lines.row(row), col);
    match prepare(lines, marks, row, col, pivot, cells) {
        Ok(()) => {}
        Err(place) => return Err(place),
    }
    let leaving = basis[row];
    let upper = breaks_upper(entry(lines.row(row), leaving), pivot, at_high[col as usize]);
    swap_in(lines, marks);
    stand(at_high, leaving as usize, columns, upper);
    restand(lines.row(0), at_high, columns);
    basis[row] = col;
    Ok(())
}

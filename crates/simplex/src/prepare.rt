// What becomes of the rows in an exchange, written into spare rows.
ghost use Rattle.std.specs.Prelude.{◌≡◌, ◌≢◌, ◌+◌, ◌<◌, ◌≤◌, ℕ, [], true, false, length, slice_index_or, pos, IfOk, IfErr};
ghost use Rattle.sparse_rows.specs.Lines.{IsLine, entry_of};
ghost use Rattle.simplex.specs.inside.Rows.{AreSameBut, IsPrepared, IsWideRow, LeavesEntries};

use crate::cells::Cells;
use numbers::Narrow;
use sparse_rows::{entry, is_zero};
use term_store::Rows;

/// Writes what becomes of each row in the exchange of row `row` and column `col`, whose entry is `pivot`, into the spare rows
/// behind them, and marks those that change. `Err` with the row and the column of an entry that is out of range.
pub(crate) fn prepare<W: Narrow>(
    lines: &mut Rows<W>,
    marks: &mut [bool],
    row: usize,
    col: u32,
    pivot: W,
    cells: &mut Cells,
) -> Result<(), (usize, u32)>
    requires rows { length lines.old.rows ≡ length marks.old + length marks.old }
    requires row { row < length marks.old }
    requires width { cells.old ≤ lines.old.width }
    requires column { col < cells.old }
    requires rising { (k : ℕ) → k < length marks.old → IsLine W.meaning 0 cells.old (slice_index_or lines.old.rows k []) }
    requires pivot { W.meaning pivot ≡ entry_of W.meaning (slice_index_or lines.old.rows row []) col }
    requires nonzero { W.meaning pivot ≢ pos 0 }
    requires entries { (k : ℕ) → k < length marks.old → LeavesEntries W.meaning row col cells.old k
        (slice_index_or lines.old.rows row []) (slice_index_or lines.old.rows k []) }
    ensures count { length lines.new.rows ≡ length lines.old.rows }
    ensures same { (k : ℕ) → k < length marks.old → slice_index_or lines.new.rows k [] ≡ slice_index_or lines.old.rows k [] }
    ensures width { lines.new.width ≡ lines.old.width }
    ensures room { cells.new ≡ cells.old }
    ensures prepared { IfOk result (λ _. (k : ℕ) → k < length marks.old → IsPrepared W.meaning row col cells.old k
        (slice_index_or lines.old.rows row []) (slice_index_or lines.old.rows k []) (slice_index_or marks.new k false)
        (slice_index_or lines.new.rows (length marks.old + k) [])) }
    ensures wide { IfErr result (λ (k, column). (k < length marks.old) × IsWideRow W.meaning W.greatest row col cells.old k
        (slice_index_or lines.old.rows row []) (slice_index_or lines.old.rows k []) column) }
{
    let count = marks.len();
    for k in 0..count {
        match prepare_line(lines, k, row, count + k, col, pivot, cells) {
            Ok(marked) => marks[k] = marked,
            Err(column) => return Err((k, column)),
        }
    }
    Ok(())
}

/// Writes what becomes of row `k` in the exchange of row `row` and column `col`, whose entry is `pivot`, into row `spare`,
/// where it changes, and says whether it does. `Err` with the column of an entry that is out of range.
fn prepare_line<W: Narrow>(
    lines: &mut Rows<W>,
    k: usize,
    row: usize,
    spare: usize,
    col: u32,
    pivot: W,
    cells: &mut Cells,
) -> Result<bool, u32>
    requires rows { (k < spare) × ((row < spare) × (spare < length lines.old.rows)) }
    requires width { cells.old ≤ lines.old.width }
    requires row_line { IsLine W.meaning 0 cells.old (slice_index_or lines.old.rows row []) }
    requires other_line { IsLine W.meaning 0 cells.old (slice_index_or lines.old.rows k []) }
    requires pivot { W.meaning pivot ≡ entry_of W.meaning (slice_index_or lines.old.rows row []) col }
    requires nonzero { W.meaning pivot ≢ pos 0 }
    requires entries { LeavesEntries W.meaning row col cells.old k
        (slice_index_or lines.old.rows row []) (slice_index_or lines.old.rows k []) }
    ensures rows { AreSameBut W.meaning spare lines.old.rows lines.new.rows }
    ensures width { lines.new.width ≡ lines.old.width }
    ensures room { cells.new ≡ cells.old }
    ensures prepared { IfOk result (λ marked. IsPrepared W.meaning row col cells.old k
        (slice_index_or lines.old.rows row []) (slice_index_or lines.old.rows k []) marked (slice_index_or lines.new.rows spare [])) }
    ensures wide { IfErr result (λ column. IsWideRow W.meaning W.greatest row col cells.old k
        (slice_index_or lines.old.rows row []) (slice_index_or lines.old.rows k []) column) }
{
    if k == row {
        return Ok(false);
    }
    let other = entry(lines.row(k), col);
    if is_zero(other) {
        return Ok(false);
    }
    match cells.reduce_line(lines, k, row, spare, pivot, other) {
        Ok(()) => Ok(true),
        Err(column) => Err(column),
    }
}

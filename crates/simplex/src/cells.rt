// A row reduced by another one and divided by the greatest common divisor of its entries.
ghost use Rattle.std.specs.Prelude.{◌≡◌, ◌≢◌, ◌<ℤ◌, ◌*ℤ◌, ◌+◌, ◌<◌, ◌≤◌, ℕ, List, [], length, vec_capacity, slice_index_or, slice_set, pos, unsigned_abs, IfOk, IfErr};
ghost use Rattle.numbers.specs.Divisors.{Divides};
ghost use Rattle.term_store.specs.declared.term.Term.{Term};
ghost use Rattle.tableau.specs.Exchanges.{IsDivided};
ghost use Rattle.sparse_rows.specs.Lines.{IsLine, entry_of};
ghost use Rattle.simplex.specs.inside.Rows.{AreSameBut, IsWideBy, reduced_by};

use numbers::{Narrow, W128, Whole};
use sparse_rows::{combine, common_divisor, factors, widened, write_divided};
use std::alloc::{AllocError, Global};
use std::marker::Model;
use term_store::{Rows, Term};
use wide_whole::W256;

/// Room for the terms of a reduced row before they are divided: in 128 bits, and in twice as many where those don't hold a product.
/// Contracts see the number of columns for which there is room.
#[derive(Drop)]
pub(crate) struct Cells {
    narrow: Vec<Term<W128>>,
    wide: Vec<Term<W256>>,
}

impl Model for Cells {
    ghost use Rattle.std.specs.Prelude.{◌≡◌, ℕ, vec_capacity};

    ghost Value = { ℕ };

    ghost view = { λ c. vec_capacity c.narrow };

    ghost invariant = { λ c. vec_capacity c.wide ≡ vec_capacity c.narrow };
}

impl Cells {
    /// Room for a term in each of so many columns.
    pub(crate) fn new(alloc: Global, columns: usize) -> Result<Cells, AllocError>
        ensures { IfOk result (λ cells. cells ≡ columns) }
    {
        let narrow = Vec::with_capacity(alloc, columns)?;
        let wide = Vec::with_capacity(alloc, columns)?;
        Ok(Cells { narrow, wide })
    }

    /// Writes row `k` reduced by row `row`, whose entries at one column are these, into row `spare`, divided by the greatest
    /// common divisor of its entries. `Err` with the column of an entry that is out of range.
    pub(crate) fn reduce_line<W: Narrow>(
        &mut self,
        lines: &mut Rows<W>,
        k: usize,
        row: usize,
        spare: usize,
        pivot: W,
        other: W,
    ) -> Result<(), u32>
        requires rows { (k < spare) × ((row < spare) × (spare < length lines.old.rows)) }
        requires width { self.old ≤ lines.old.width }
        requires row_line { IsLine W.meaning 0 self.old (slice_index_or lines.old.rows row []) }
        requires other_line { IsLine W.meaning 0 self.old (slice_index_or lines.old.rows k []) }
        requires nonzero { W.meaning pivot ≢ pos 0 }
        requires entries { (j : ℕ) × (j < self.old) × (reduced_by (W.meaning pivot) (W.meaning other)
            (entry_of W.meaning (slice_index_or lines.old.rows row [])) (entry_of W.meaning (slice_index_or lines.old.rows k [])) j ≢ pos 0) }
        ensures rows { AreSameBut W.meaning spare lines.old.rows lines.new.rows }
        ensures width { lines.new.width ≡ lines.old.width }
        ensures room { self.new ≡ self.old }
        ensures line { IfOk result (λ _. IsLine W.meaning 0 self.old (slice_index_or lines.new.rows spare [])) }
        ensures divided { IfOk result (λ _. (last : ℕ) → last + 1 ≡ self.old
            → IsDivided last (reduced_by (W.meaning pivot) (W.meaning other)
            (entry_of W.meaning (slice_index_or lines.old.rows row [])) (entry_of W.meaning (slice_index_or lines.old.rows k [])))
            (entry_of W.meaning (slice_index_or lines.new.rows spare []))) }
        ensures wide { IfErr result (λ column. IsWideBy W.greatest (W.meaning pivot) (W.meaning other)
            (entry_of W.meaning (slice_index_or lines.old.rows row [])) (entry_of W.meaning (slice_index_or lines.old.rows k [])) column) }
        ensures column { IfErr result (λ column. column < self.old) }
    {
        match reduce_in(lines, k, row, spare, pivot, other, &mut self.narrow) {
            Ok(()) => Ok(()),
            Err(_) => reduce_in(lines, k, row, spare, pivot, other, &mut self.wide),
        }
    }
}

/// Writes row `k` reduced by row `row`, whose entries at one column are these, into row `spare`, divided by the greatest
/// common divisor of its entries; `cells` gets the terms before that. `Err` with the column of an entry that is out of range.
fn reduce_in<W: Narrow, T: Whole>(
    lines: &mut Rows<W>,
    k: usize,
    row: usize,
    spare: usize,
    pivot: W,
    other: W,
    cells: &mut Vec<Term<T>>,
) -> Result<(), u32>
    requires wider { W.greatest ≤ T.greatest }
    requires rows { (k < spare) × ((row < spare) × (spare < length lines.old.rows)) }
    requires width { vec_capacity cells.old ≤ lines.old.width }
    requires row_line { IsLine W.meaning 0 (vec_capacity cells.old) (slice_index_or lines.old.rows row []) }
    requires other_line { IsLine W.meaning 0 (vec_capacity cells.old) (slice_index_or lines.old.rows k []) }
    requires nonzero { W.meaning pivot ≢ pos 0 }
    requires entries { (j : ℕ) × (j < vec_capacity cells.old) × (reduced_by (W.meaning pivot) (W.meaning other)
        (entry_of W.meaning (slice_index_or lines.old.rows row [])) (entry_of W.meaning (slice_index_or lines.old.rows k [])) j ≢ pos 0) }
    ensures rows { AreSameBut W.meaning spare lines.old.rows lines.new.rows }
    ensures width { lines.new.width ≡ lines.old.width }
    ensures capacity { vec_capacity cells.new ≡ vec_capacity cells.old }
    ensures line { IfOk result (λ _. IsLine W.meaning 0 (vec_capacity cells.old) (slice_index_or lines.new.rows spare [])) }
    ensures divided { IfOk result (λ _. (last : ℕ) → last + 1 ≡ vec_capacity cells.old
        → IsDivided last (reduced_by (W.meaning pivot) (W.meaning other)
        (entry_of W.meaning (slice_index_or lines.old.rows row [])) (entry_of W.meaning (slice_index_or lines.old.rows k [])))
        (entry_of W.meaning (slice_index_or lines.new.rows spare []))) }
    ensures wide { IfErr result (λ column. IsWideBy W.greatest (W.meaning pivot) (W.meaning other)
        (entry_of W.meaning (slice_index_or lines.old.rows row [])) (entry_of W.meaning (slice_index_or lines.old.rows k [])) column) }
    ensures column { IfErr result (λ column. column < vec_capacity cells.old) }
{
    let (keep, take) = factors(pivot, other);
    match combine(
        lines.row(row),
        lines.row(k),
        widened(keep),
        widened(take),
        cells,
    ) {
        Ok(()) => {}
        Err(column) => return Err(column),
    }
    let terms = cells.as_slice();
    write_line(lines, spare, terms, common_divisor(terms))
}

/// Puts the row of these terms, each divided by `divisor`, in place of row `spare`. `Err` with the column of a quotient that
/// is out of range.
fn write_line<W: Narrow, T: Whole>(
    lines: &mut Rows<W>,
    spare: usize,
    terms: &[Term<T>],
    divisor: T,
) -> Result<(), u32>
    requires row { spare < length lines.old.rows }
    requires positive { pos 0 <ℤ T.meaning divisor }
    requires divides { (end : ℕ) → IsLine T.meaning 0 end terms.now → (j : ℕ) → j < end → Divides (T.meaning divisor) (entry_of T.meaning terms.now j) }
    requires line { IsLine T.meaning 0 lines.old.width terms.now }
    ensures rows { (new : List (Term W)) × (lines.new.rows ≡ slice_set lines.old.rows spare new) }
    ensures width { lines.new.width ≡ lines.old.width }
    ensures line { IfOk result (λ _. (end : ℕ) → IsLine T.meaning 0 end terms.now
        → IsLine W.meaning 0 end (slice_index_or lines.new.rows spare [])) }
    ensures divided { IfOk result (λ _. (j : ℕ) → entry_of T.meaning terms.now j
        ≡ T.meaning divisor *ℤ entry_of W.meaning (slice_index_or lines.new.rows spare []) j) }
    ensures wide { IfErr result (λ column. W.greatest < unsigned_abs (entry_of T.meaning terms.now column)) }
{
    write_divided(terms, divisor, lines.row_mut(spare))
}

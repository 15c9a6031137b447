// The point of an optimal tableau.
ghost use Rattle.std.specs.Prelude.{◌≡◌, ◌≢◌, ◌⊎◌, ◌+◌, ◌-◌, ◌^◌, ◌<◌, ◌≤◌, ℕ, ℤ, [], length, pos, vec_capacity, slice_index_or, IfOk, IfErr, IfSome, IfNone, unsigned_abs};
ghost use Rattle.algebra.specs.Numbered.{numbered};
ghost use Rattle.algebra.specs.Sums.{sum_to};
ghost use Rattle.sparse_rows.specs.Lines.{IsLine};
ghost use Rattle.sparse_rows.specs.Sums.{share};
ghost use Rattle.programs.specs.Programs.{column_count, row_count};
ghost use Rattle.tableau.specs.Tableaux.{IsNonbasic, IsRow, basic_entry, rest, standing};
ghost use Rattle.tableau.specs.Ends.{IsLeastDenominator, IsOptimal, IsPointOfTableau};
ghost use Rattle.tableau.specs.Operations.{IsOutOfRange};
ghost use Rattle.simplex.specs.States.{tableau_of};

use crate::joining::{cleared, joined};
use crate::table::Tableau;
use numbers::{Narrow, W128, Whole};
use sparse_rows::{entry, row_sum, standing, widened};
use tableau::Op;
use term_store::Term;
use wide_whole::W256;

impl<'a, W: Narrow> Tableau<'a, W> {
    /// The sum of a row without its basic column. `Err` with an operation of it that is out of range.
    pub(crate) fn rest(&self, row: usize) -> Result<W256, Op>
        requires { IsRow (tableau_of W.meaning self.now) row }
        ensures sum { IfOk result (λ z. ⟦<W256 as Whole>⟧.meaning z ≡ rest (tableau_of W.meaning self.now) row) }
        ensures wide { IfErr result (λ op. IsOutOfRange W.greatest (tableau_of W.meaning self.now) op) }
    {
        let basis = self.basis.as_slice();
        match sum_of(
            self.lines.row(row),
            basis[row],
            &self.low,
            &self.high,
            &self.at_high,
        ) {
            Ok(sum) => Ok(sum),
            Err(column) => Err(Op::Value {
                row: row as u16,
                col: column as u16,
            }),
        }
    }

    /// The entry of a row's basic column.
    pub(crate) fn pivot(&self, row: usize) -> W
        requires { IsRow (tableau_of W.meaning self.now) row }
        ensures value { W.meaning result ≡ basic_entry (tableau_of W.meaning self.now) row }
        ensures nonzero { W.meaning result ≢ pos 0 }
    {
        entry(self.line(row), self.basic(row))
    }

    /// The least common denominator of the basic values of an optimal tableau. `Err` with an operation that is out of range.
    pub(crate) fn denominator(&self) -> Result<W256, Op>
        requires { IsOptimal (tableau_of W.meaning self.now) }
        ensures least { IfOk result (λ d. IsLeastDenominator (tableau_of W.meaning self.now) (row_count self.now.program) (⟦<W256 as Whole>⟧.meaning d)) }
        ensures wide { IfErr result (λ op. IsOutOfRange W.greatest (tableau_of W.meaning self.now) op) }
    {
        let rows = self.rows();
        let mut den = W256::one();
        for k in 0..rows {
            let row = k + 1;
            let rest = match self.rest(row) {
                Ok(rest) => rest,
                Err(op) => return Err(op),
            };
            match joined(den, self.pivot(row), rest) {
                Some(next) => den = next,
                None => return Err(Op::Join { row: row as u16 }),
            }
        }
        Ok(den)
    }

    /// The coordinate of a structural column over the least common denominator. `Err` with an operation that is out of range.
    fn coordinate(&self, den: W256, column: usize) -> Result<W256, Op>
        requires optimal { IsOptimal (tableau_of W.meaning self.now) }
        requires least { IsLeastDenominator (tableau_of W.meaning self.now) (row_count self.now.program) (⟦<W256 as Whole>⟧.meaning den) }
        requires first { 1 ≤ column }
        requires last { column ≤ column_count self.now.program }
        ensures value { IfOk result (λ z. (x : ℕ → ℤ) → IsPointOfTableau (tableau_of W.meaning self.now) (⟦<W256 as Whole>⟧.meaning den) x
            → x column ≡ ⟦<W256 as Whole>⟧.meaning z) }
        ensures wide { IfErr result (λ op. IsOutOfRange W.greatest (tableau_of W.meaning self.now) op) }
    {
        match self.row_of(column) {
            Some(row) => self.basic_coordinate(den, row),
            None => self.standing_coordinate(den, column),
        }
    }

    /// The coordinate of the basic column of a row, a structural one, over the least common denominator. `Err` with an operation
    /// that is out of range.
    fn basic_coordinate(&self, den: W256, row: usize) -> Result<W256, Op>
        requires optimal { IsOptimal (tableau_of W.meaning self.now) }
        requires least { IsLeastDenominator (tableau_of W.meaning self.now) (row_count self.now.program) (⟦<W256 as Whole>⟧.meaning den) }
        requires row { IsRow (tableau_of W.meaning self.now) row }
        requires structural { slice_index_or self.now.basis row 0 ≤ column_count self.now.program }
        ensures value { IfOk result (λ z. (x : ℕ → ℤ) → IsPointOfTableau (tableau_of W.meaning self.now) (⟦<W256 as Whole>⟧.meaning den) x
            → x (slice_index_or self.now.basis row 0) ≡ ⟦<W256 as Whole>⟧.meaning z) }
        ensures wide { IfErr result (λ op. IsOutOfRange W.greatest (tableau_of W.meaning self.now) op) }
    {
        let rows = self.rows();
        let rest = match self.rest(row) {
            Ok(rest) => rest,
            Err(op) => return Err(op),
        };
        match cleared(den, self.pivot(row), rest) {
            Some(numerator) => Ok(numerator),
            None => Err(Op::Join { row: rows as u16 }),
        }
    }

    /// The coordinate of a structural column that isn't basic over the least common denominator. `Err` with an operation that is
    /// out of range.
    fn standing_coordinate(&self, den: W256, column: usize) -> Result<W256, Op>
        requires optimal { IsOptimal (tableau_of W.meaning self.now) }
        requires least { IsLeastDenominator (tableau_of W.meaning self.now) (row_count self.now.program) (⟦<W256 as Whole>⟧.meaning den) }
        requires first { 1 ≤ column }
        requires last { column ≤ column_count self.now.program }
        requires nonbasic { IsNonbasic (tableau_of W.meaning self.now) column }
        ensures value { IfOk result (λ z. (x : ℕ → ℤ) → IsPointOfTableau (tableau_of W.meaning self.now) (⟦<W256 as Whole>⟧.meaning den) x
            → x column ≡ ⟦<W256 as Whole>⟧.meaning z) }
        ensures wide { IfErr result (λ op. IsOutOfRange W.greatest (tableau_of W.meaning self.now) op) }
    {
        let rows = self.rows();
        match den.times(widened(self.bound_of(column))) {
            Some(numerator) => Ok(numerator),
            None => Err(Op::Join { row: rows as u16 }),
        }
    }

    /// The bound at which a structural column stands where it isn't basic.
    pub(crate) fn bound_of(&self, column: usize) -> W
        requires first { 1 ≤ column }
        requires last { column ≤ column_count self.now.program }
        ensures { W.meaning result ≡ standing (tableau_of W.meaning self.now) column }
    {
        standing(&self.low, &self.high, &self.at_high, column)
    }

    /// The row whose basic column this structural one is.
    pub(crate) fn row_of(&self, column: usize) -> Option<usize>
        requires { column ≤ column_count self.now.program }
        ensures some { IfSome result (λ i. IsRow (tableau_of W.meaning self.now) i × (slice_index_or self.now.basis i 0 ≡ column)) }
        ensures none { IfNone result (IsNonbasic (tableau_of W.meaning self.now) column) }
    {
        place_of(&self.basis, column as u32)
    }

    /// Puts the coordinates of the structural columns over the least common denominator into `point`, which has room for them.
    /// `Err` with an operation that is out of range.
    pub(crate) fn fill_point(&self, den: W256, point: &mut Vec<i128>) -> Result<(), Op>
        requires none { point.old.items ≡ [] }
        requires room { column_count self.now.program ≤ vec_capacity point.old }
        requires optimal { IsOptimal (tableau_of W.meaning self.now) }
        requires least { IsLeastDenominator (tableau_of W.meaning self.now) (row_count self.now.program) (⟦<W256 as Whole>⟧.meaning den) }
        ensures capacity { vec_capacity point.new ≡ vec_capacity point.old }
        ensures count { IfOk result (λ _. length point.new.items ≡ column_count self.now.program) }
        ensures coordinates { IfOk result (λ _. (x : ℕ → ℤ) → IsPointOfTableau (tableau_of W.meaning self.now) (⟦<W256 as Whole>⟧.meaning den) x
            → (j : ℕ) → 1 ≤ j → j ≤ column_count self.now.program → numbered (pos 0) point.new.items j ≡ x j) }
        ensures wide { IfErr result (λ op. IsOutOfRange W.greatest (tableau_of W.meaning self.now) op) }
    {
        let columns = self.columns();
        let rows = self.rows();
        for k in 0..columns {
            match self.coordinate(den, k + 1) {
                Ok(coordinate) => match coordinate.narrow() {
                    Some(number) => point.push_reserved(number),
                    None => return Err(Op::Join { row: rows as u16 }),
                },
                Err(op) => return Err(op),
            }
        }
        Ok(())
    }
}

/// The sum of a row's entries, each times the bound at which its column stands, without the column `without`: in 128 bits, and in
/// twice as many where those don't hold a number. `Err` with the column of a product, or of a sum up to it, that is out of their range.
fn sum_of<W: Narrow>(
    row: &[Term<W>],
    without: u32,
    low: &[W],
    high: &[W],
    at_high: &[bool],
) -> Result<W256, u32>
    requires high { length high.now ≡ length low.now }
    requires at_high { length at_high.now ≡ length low.now }
    requires line { IsLine W.meaning 1 (length low.now) row.now }
    ensures sum { IfOk result (λ z. ⟦<W256 as Whole>⟧.meaning z
        ≡ sum_to (share W.meaning row.now without low.now high.now at_high.now) (length low.now - 1)) }
    ensures wide { IfErr result (λ column. (2 ^ 255 - 1 < unsigned_abs (share W.meaning row.now without low.now high.now at_high.now column))
        ⊎ (2 ^ 255 - 1 < unsigned_abs (sum_to (share W.meaning row.now without low.now high.now at_high.now) column))) }
    ensures column { IfErr result (λ column. (1 ≤ column) × (column < length low.now)) }
{
    match row_sum::<W, W128>(row, without, low, high, at_high) {
        Ok(sum) => Ok(widened(sum)),
        Err(_) => row_sum::<W, W256>(row, without, low, high, at_high),
    }
}

/// The place behind the first one where the number stands.
fn place_of(basis: &[u32], column: u32) -> Option<usize>
    ensures some { IfSome result (λ i. (1 ≤ i) × ((i < length basis.now) × (slice_index_or basis.now i 0 ≡ column))) }
    ensures none { IfNone result ((i : ℕ) → 1 ≤ i → i < length basis.now → slice_index_or basis.now i 0 ≢ column) }
{
    for i in 1..basis.len() {
        if basis[i] == column {
            return Some(i);
        }
    }
    None
}

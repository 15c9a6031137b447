// The choice of an exchange: pricing finds the row, the ratio test the column.
ghost use Rattle.std.specs.Prelude.{◌≡◌, ◌≢◌, ◌⊎◌, ◌<◌, [], slice_index_or, IfOk, IfErr, IfSome, IfNone, nat_lt, if◌then◌else◌};
ghost use Rattle.tableau.specs.Tableaux.{IsRow};
ghost use Rattle.tableau.specs.Exchanges.{IsOutside};
ghost use Rattle.programs.specs.Programs.{row_count};
ghost use Rattle.tableau.specs.Ends.{IsEmptyRow};
ghost use Rattle.tableau.specs.declared.bound.Bound.{Bound};
ghost use Rattle.tableau.specs.Operations.{IsOutOfRange};
ghost use Rattle.simplex.specs.Choices.{IsChoice};
ghost use Rattle.simplex.specs.States.{tableau_of};
ghost use Rattle.simplex.specs.inside.Choices.{IsChosen};
ghost use Rattle.simplex.specs.inside.Pricing.{IsPriced};

use crate::choice::Choice;
use crate::pricing::broken_bound;
use crate::ratio_test::entering_column;
use crate::table::Tableau;
use numbers::Narrow;
use sparse_rows::{entry, is_zero};
use tableau::{Bound, Exchange, Op};

/// The row of the least-numbered basic column of those outside, 0 where there is none, the bound that it breaks, and that
/// column; and another row outside with its bound.
type Pricing = ((usize, Bound, u32), (usize, Bound, u128));

/// Of two rows outside, the one of the lesser basic column.
fn lesser(first: (usize, Bound, u32), row: (usize, Bound, u32)) -> (usize, Bound, u32)
    ensures { result ≡ (if nat_lt row.2 first.2 then row else first) }
{
    if row.2 < first.2 { row } else { first }
}

/// Of two rows outside, the one further outside; the first of them may be none, with the number 0.
fn larger(largest: (usize, Bound, u128), row: (usize, Bound, u128)) -> (usize, Bound, u128)
    ensures { (result ≡ row) ⊎ ((result ≡ largest) × (largest.0 ≢ 0)) }
{
    if largest.0 != 0 && row.2 <= largest.2 {
        return largest;
    }
    row
}

impl<'a, W: Narrow> Tableau<'a, W> {
    /// What is to be done next: the exchange of the least-numbered basic column outside while its ratio is 0, else one of a row
    /// far outside.
    pub(crate) fn choose(&self) -> Choice
        ensures { IsChoice W.greatest (tableau_of W.meaning self.now) result }
    {
        let (first, largest) = match self.price_rows() {
            Ok(priced) => priced,
            Err(op) => return Choice::Wide(op),
        };
        if first.0 == 0 {
            return Choice::Optimal;
        }
        let Some(column) = self.ratio_test(first.0, first.1) else {
            return Choice::Empty {
                row: first.0,
                broken: first.1,
            };
        };
        if is_zero(entry(self.lines.row(0), column)) {
            return Choice::Good(exchange_of(first.0, column));
        }
        let Some(other) = self.ratio_test(largest.0, largest.1) else {
            return Choice::Empty {
                row: largest.0,
                broken: largest.1,
            };
        };
        if is_zero(entry(self.lines.row(0), other)) {
            return Choice::Good(exchange_of(first.0, column));
        }
        Choice::Good(exchange_of(largest.0, other))
    }

    /// The rows outside. `Err` with an operation of the sum for a basic value that is out of range.
    fn price_rows(&self) -> Result<Pricing, Op>
        ensures priced { IfOk result (λ (first, other). IsPriced (tableau_of W.meaning self.now) (row_count self.now.program)
            first.0 first.1 first.2 other.0 other.1) }
        ensures wide { IfErr result (λ op. IsOutOfRange W.greatest (tableau_of W.meaning self.now) op) }
    {
        let mut first = (0, Bound::Lower, u32::MAX);
        let mut largest = (0, Bound::Lower, 0);
        let rows = self.milp.rows();
        let basis = self.basis.as_slice();
        for k in 0..rows {
            let row = k + 1;
            match self.outside(row) {
                Ok(None) => continue,
                Ok(Some((bound, size))) => {
                    first = lesser(first, (row, bound, basis[row]));
                    largest = larger(largest, (row, bound, size));
                }
                Err(op) => return Err(op),
            }
        }
        Ok((first, largest))
    }

    /// The bound that the basic value of a row breaks, and by how much about.
    fn outside(&self, row: usize) -> Result<Option<(Bound, u128)>, Op>
        requires { IsRow (tableau_of W.meaning self.now) row }
        ensures outside { IfOk result (λ o. IfSome o (λ (bound, _). IsOutside (tableau_of W.meaning self.now) row bound)) }
        ensures inside { IfOk result (λ o. IfNone o ((bound : Bound) → IsOutside (tableau_of W.meaning self.now) row bound → ⊥)) }
        ensures wide { IfErr result (λ op. IsOutOfRange W.greatest (tableau_of W.meaning self.now) op) }
    {
        let basis = self.basis.as_slice();
        match broken_bound(
            self.lines.row(row),
            basis[row],
            &self.low,
            &self.high,
            &self.has_high,
            &self.at_high,
        ) {
            Ok(broken) => Ok(broken),
            Err(column) => Err(Op::Value {
                row: row as u16,
                col: column as u16,
            }),
        }
    }

    /// The column that enters for a row outside.
    fn ratio_test(&self, row: usize, broken: Bound) -> Option<u32>
        requires row { IsRow (tableau_of W.meaning self.now) row }
        requires outside { IsOutside (tableau_of W.meaning self.now) row broken }
        ensures chosen { IfSome result (λ c. IsChosen W.meaning (slice_index_or self.now.lines row []) (slice_index_or self.now.basis row 0)
            self.now.low self.now.high self.now.has_high self.now.at_high (slice_index_or self.now.lines 0 []) broken c) }
        ensures few { IfSome result (λ c. c < 65536) }
        ensures none { IfNone result (IsEmptyRow (tableau_of W.meaning self.now) row broken) }
    {
        let basis = self.basis.as_slice();
        entering_column(
            self.lines.row(row),
            self.lines.row(0),
            basis[row],
            &self.low,
            &self.high,
            &self.has_high,
            &self.at_high,
            broken,
        )
    }
}

/// The exchange of a row and a column.
fn exchange_of(row: usize, column: u32) -> Exchange
    requires row { row < 65536 }
    requires column { column < 65536 }
    ensures row { result.row ≡ row }
    ensures col { result.col ≡ column }
{
    Exchange {
        row: row as u16,
        col: column as u16,
    }
}

// About what the columns of a tableau are, where no exact values are asked.
ghost use Rattle.std.specs.Prelude.{◌≡◌, ◌≢◌, ◌≤◌, [], pos, vec_capacity};
ghost use Rattle.programs.specs.Programs.{column_count};
ghost use Rattle.tableau.specs.Tableaux.{IsRow};
ghost use Rattle.simplex.specs.States.{tableau_of};

use crate::table::Tableau;
use numbers::{Narrow, Whole};

/// The parts of a unit in which rough numbers are told.
const PARTS: i128 = 1_024;

impl<'a, W: Narrow> Tableau<'a, W> {
    /// Puts about what each structural column is into `rough`, which has room for it, in parts of a unit.
    pub(crate) fn fill_rough(&self, rough: &mut Vec<i128>)
        requires none { rough.old.items ≡ [] }
        requires room { column_count self.now.program ≤ vec_capacity rough.old }
    {
        let columns = self.columns();
        for k in 0..columns {
            rough.push_reserved(self.rough_coordinate(k + 1));
        }
    }

    /// About what a structural column is: its value in the tableau; where 128 bits don't hold the sum of its row, the bound
    /// at which it last stood.
    fn rough_coordinate(&self, column: usize) -> i128
        requires first { 1 ≤ column }
        requires last { column ≤ column_count self.now.program }
    {
        let bound = self.bound_of(column).wide().saturating_mul(PARTS);
        match self.row_of(column) {
            Some(row) => self.rough_basic(row).unwrap_or(bound),
            None => bound,
        }
    }

    /// About what the basic column of a row is. `None` where 128 bits don't hold the sum of the row.
    fn rough_basic(&self, row: usize) -> Option<i128>
        requires { IsRow (tableau_of W.meaning self.now) row }
    {
        match self.rest(row) {
            Ok(rest) => {
                let quotient = rough_quotient(rest.narrow()?, self.pivot(row).wide());
                Some(0i128.saturating_sub(quotient))
            }
            Err(_) => None,
        }
    }
}

/// About the quotient, in parts of a unit.
fn rough_quotient(number: i128, divisor: i128) -> i128
    requires { divisor ≢ pos 0 }
{
    let whole = number.wrapping_div(divisor).saturating_mul(PARTS);
    let rest = number.wrapping_rem(divisor).saturating_mul(PARTS);
    whole.saturating_add(rest.wrapping_div(divisor))
}

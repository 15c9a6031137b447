// Operations of the simplex that have an exact value.
use crate::exchange::Exchange;

/// An operation on a tableau, named so that a reader can do it again. Rows are numbered from 1, row 0 is the cost row;
/// columns are numbered from 1, and column 0 of row 0 is the scale.
#[derive(Clone, Copy, Debug, PartialEq, Eq)]
pub enum Op {
    /// In the good exchange `swap`, one of the two products at that row and column, or their difference.
    Cell { swap: Exchange, row: u16, col: u16 },
    /// In the sum for the basic value of a row, the product at a column or the sum up to it; at the row's basic column,
    /// the product of its entry and a bound. At the start also an entry, cost or bound itself: costs and structural
    /// columns' bounds at row 0, a row's right side at its slack.
    Value { row: u16, col: u16 },
    /// One of the two cross products that compare the ratios of two different columns eligible for a row.
    Ratio { row: u16, col: u16, other: u16 },
    /// In an optimal tableau, the least common denominator of the basic values of rows 1 to `row`, or the
    /// coordinate of a structural column over it.
    Join { row: u16 },
}

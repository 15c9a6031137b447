// One step of the simplex.

/// An exchange: the basic column of row `row` leaves the basis there, and column `col` enters it.
/// Rows and columns are numbered from 1; the slack of row i is the column i places behind the structural ones.
#[derive(Clone, Copy, Debug, PartialEq, Eq)]
pub struct Exchange {
    /// The row of the column that leaves.
    pub row: u16,
    /// The column that enters.
    pub col: u16,
}

// The two bounds of a column.

/// One of the two bounds of a column.
#[derive(Clone, Copy, Debug, PartialEq, Eq)]
pub enum Bound {
    /// The least value that the column may take.
    Lower,
    /// The greatest value that the column may take.
    Upper,
}

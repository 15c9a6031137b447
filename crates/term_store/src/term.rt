// One entry of a sparse row.

/// The entry of a row in one column; a column that no term of a row names has no entry there.
#[derive(Clone, Copy, Debug, PartialEq, Eq)]
pub struct Term<V> {
    /// The column's number, as the caller counts columns.
    pub column: u32,
    /// The entry.
    pub value: V,
}

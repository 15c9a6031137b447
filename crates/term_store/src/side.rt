// How the sum of a row's terms stands to the row's right side.

/// What a row asks of the sum of its terms: to equal the right side, or to be at least that.
#[derive(Clone, Copy, Debug, PartialEq, Eq)]
pub enum Side {
    /// The sum equals the right side.
    Equal,
    /// The sum is the right side or more.
    AtLeast,
}

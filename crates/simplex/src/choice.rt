// What the simplex does next.
use tableau::{Bound, Exchange, Op};

/// What is to be done with a tableau.
#[derive(Clone, Copy)]
pub(crate) enum Choice {
    /// It is optimal.
    Optimal,
    /// The basic value of this row breaks this bound, and no column is eligible for it.
    Empty { row: usize, broken: Bound },
    /// This exchange is good.
    Good(Exchange),
    /// An exact value of this operation is out of range.
    Wide(Op),
}

// A program to be solved.
use programs::Milp;

/// A linear program whose columns may take any value in their bounds.
#[derive(Clone, Copy)]
pub struct Lp<'a> {
    /// The program.
    pub milp: &'a Milp,
}

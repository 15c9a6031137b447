//! Trees of boxes with a bound at each leaf: what a certificate proves of all admissible plans.
#![tactic(auto)]

mod pairs;
mod tree;
mod values;

pub use pairs::written;
pub use tree::{Tree, Why};
pub use values::{box_value, spread, told_value};

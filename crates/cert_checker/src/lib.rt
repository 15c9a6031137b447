//! The checker of certificates: it accepts exactly the texts of valid ones, by sums, products and comparisons alone, and holds one leaf
//! at a time. What it refuses it refuses by the first broken rule, with its line.
#![tactic(auto)]

mod checking;
mod leaf;
mod refusal;
mod walk;

pub use checking::{carriable, check};
pub use refusal::{CertRule, CheckErr, Checked, Refusal};

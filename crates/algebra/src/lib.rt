// Laws of the whole numbers that proofs of the crates above stand on, sums over ℤ, and arithmetic on numbers that are known to fit.
// Definitions stand in `specs/`, lemmas in `proofs/`.
#![tactic(auto)]

mod arithmetic;

pub use arithmetic::{GREATEST_SCALE, at_most, minus, opposite, plus, same, scaled, times};

//! Exact products of two numbers of 128 bits, each in two halves: their sums, differences, order, greatest common divisor
//! and quotients.
#![tactic(auto)]

mod dividing;
mod euclid;
mod magnitude;
mod signs;
mod wide;

pub use magnitude::Magnitude;
pub use wide::Wide;

//! Safe bounds of a linear program: what a scale and one multiplier for each row prove of the costs of all points.
//! Multipliers come from anywhere; what they prove is formed by whole numbers alone.
#![tactic(auto)]

mod leaf;
mod narrowing;
mod products;
mod rows;
mod scratch;

pub use leaf::{leaf_value, least_share, reduce_costs};
pub use narrowing::narrow;
pub use scratch::Scratch;

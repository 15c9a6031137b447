//! The rows of a road's program for what is moved: balances, pits, transit past blocks, stops and openings in order, in this
//! order, and what each of them asks of the sum of its terms.
#![tactic(auto)]

mod balances;
mod blocks;
mod pits;
mod rows;
mod sides;

pub use rows::haul_rows;
pub use sides::haul_side;

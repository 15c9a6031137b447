//! The rows of a road's program for heights and volumes: offsets, continuity, grade ends, fixed points and volumes, in this
//! order, and what each of them asks of the sum of its terms.
#![tactic(auto)]

mod heights;
mod lines;
mod numbers;
mod ranges;
mod rights;
mod rows;
mod sides;
mod volumes;

pub use ranges::Ranges;
pub use rows::section_rows;
pub use sides::section_side;

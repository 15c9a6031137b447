//! Roads by the names of their files, and boxes of a road by words for their splits: what programs beside the product, which
//! try its crates on lines of text, have in common.
#![tactic(auto)]

mod boxes;
mod files;

pub use boxes::box_of;
pub use files::{file, road_of};

// Reads a road file: from its bytes to the road, or to the first of its faults.
// The keys of a file are looked at first, then the kinds of its values, then their ranges, then the road.
#![tactic(auto)]

mod document;
mod error;
mod file;
mod keys;
mod kinds;
mod ranges;
mod reader;

pub use error::RoadErr;
pub use reader::{read_road, table_name};

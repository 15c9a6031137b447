//! Reads a section table, as spreadsheets write it: from the bytes of the file to the sections of a road.
//! The records are those of the `csv` crate; a table that isn't of the stated columns is refused.
#![tactic(auto)]

mod cells;
mod error;
mod records;
mod table;

pub use error::TableErr;
pub use table::read_sections;

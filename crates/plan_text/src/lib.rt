//! The text of a plan, line by line: a reader that names the first line which isn't of its form, and the writer.
//! A plan has one text, and what was written is taken in again, whatever follows it.
#![tactic(auto)]

mod error;
mod form;
mod plan;
mod read;
mod rows;
mod write;

pub use error::TextErr;
pub use plan::{read_plan, read_whole_plan};
pub use write::write_plan;

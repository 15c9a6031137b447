//! Rows of terms in memory that is taken once: a row is lent for reading or for writing, and never copied.
//! A write through a view of a row changes that row alone.
#![tactic(auto)]

mod lending;
mod row;
mod rows;
mod side;
mod term;

pub use row::{Row, RowMut};
pub use rows::Rows;
pub use side::Side;
pub use term::Term;

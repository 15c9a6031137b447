//! Texts by lines and words, and the one spelling of a whole number, all borrowed from the bytes of the source.
//! Readers of plans, certificates and section tables stand on it, so that each of them can name the line that is wrong.
#![tactic(auto)]

mod cut;
mod decimal;
mod line;
mod lines;
mod words;

pub use cut::cut_at;
pub use decimal::whole;
pub use line::Line;
pub use lines::Lines;
pub use words::Words;

//! The text of a certificate, line by line: nodes are read one at a time and without memory, so that a checker can hold one leaf.
//! A certificate has one text; a whole one is read from it, and written.
#![tactic(auto)]

mod cert;
mod forms;
mod fractions;
mod head;
mod heading;
mod leaf;
mod lines;
mod nodes;
mod read;
mod step;
mod words;
mod write;

pub use cert::{Cert, LONGEST_TEXT};
pub use heading::{Heading, PricedPlan, read_end, read_heading};
pub use leaf::LeafBuf;
pub use nodes::NodeReader;
pub use read::read_cert;
pub use step::Step;
pub use write::write_cert;

//! Keys of nodes of a search, which key is the least, and what it means that a tree was grown best first.
//! A key is a value over a scale: it bounds from below what anything in the node's box costs.
#![tactic(auto)]

mod picking;

pub use picking::{is_at_most, pick};

//! What is made of bounds that were proved: multipliers whose value rises, change by change.
#![tactic(auto)]

mod ascent;
mod rows;

pub use ascent::ascend;

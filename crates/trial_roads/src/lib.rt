//! Roads for trials, one for each number: their sections are drawn by a generator, and each of them is accepted.
#![tactic(auto)]

mod draws;
mod road;

pub use road::{GREATEST_NUMBER, trial_road};

//! The program's commands over any store and sink: `run` takes the words of the command line and answers how it ended.
//! The definitions stand in specs/: CommandWords (words), Due (what is due, in the order of the call), Runs (what stands behind each end).
#![tactic(auto)]

mod carrying;
mod cert_checking;
mod commands;
mod ending;
mod forms;
mod inputs;
mod judging;
mod lines;
mod program;
mod replaying;
mod roads;
mod solving;
mod status;
mod trying;

pub use program::{Answer, run};
pub use status::Status;

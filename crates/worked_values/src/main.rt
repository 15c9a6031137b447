//! Reads lines such as `fraction 6 -4`, tries the calls of the lower crates that no command reaches on what they say,
//! and prints each line with what was given. The answers that are wanted stand in `stdout`.
#![tactic(auto)]

mod answer;
mod disk;
mod outputs;
mod plans;
mod roads;
mod rows;
mod shown;
mod sinks;
mod small;
mod stores;
mod texts;
mod whole_numbers;
mod writing;

use answer::answer;
use std::io;
use writing::Answer;

fn main(rt: HostRuntime) -> io::Result<()> {
    for line in rt.lines(rt.alloc()) {
        let line = line?;
        print_answer(&rt, line.as_str())?;
    }
    Ok(())
}

/// Prints a line with what is given for it.
fn print_answer(rt: &HostRuntime, line: &str) -> io::Result<()> {
    let mut out = Answer::new(rt.alloc());
    answer(rt, &mut out, line);
    let text = out.text()?;
    println!(rt; "{line}: {text}")
}

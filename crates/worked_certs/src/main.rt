//! Reads lines such as `nodes 3 dead 0\n`, tries the calls of certificates' texts that no command reaches on what they say,
//! and prints each line with what was given. The answers that are wanted stand in `stdout`.
#![tactic(auto)]

mod certs;
mod files;
mod nodes;
mod shown;

use std::alloc::AllocError;
use std::io;

fn main(rt: HostRuntime) -> io::Result<()> {
    for line in rt.lines(rt.alloc()) {
        let line = line?;
        let text = answer(&rt, line.as_str())?;
        println!(rt; "{line}: {text}")?;
    }
    Ok(())
}

/// What is given for a line: its first word names the calls, and what follows is theirs.
fn answer(rt: &HostRuntime, line: &str) -> Result<String, AllocError> {
    let alloc = rt.alloc();
    let (name, rest) = line.split_once(' ').unwrap_or((line, ""));
    match name {
        "nodes" => nodes::nodes(alloc, rest),
        "deep" => nodes::deep(alloc, rest),
        "read" => certs::read(rt, rest),
        "with" => certs::with_line(rt, rest),
        _ => String::from_str(alloc, "no such calls"),
    }
}

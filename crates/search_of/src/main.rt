//! Reads lines with the name of a road file, or of a trial road as `trial 3`, and prints what a search of it finds: the plan, cost, bound and
//! tree of the certificate, the number of nodes, and each node's note. What can be asked behind a `;`:
//!
//! - `end`: cost and bound, whether the nodes are within the budget with a note for each, whether a leaf was closed, and how many leaves
//!   were left open for each cause;
//! - `open`: the cost, and how many leaves were left open for each cause;
//! - `kept`: whether the nodes are within the budget with a note for each, and whether the bound is at most the cost;
//! - `value 28`: the value of a column in the root's optimum;
//! - `plan 3`: the height at the first segment's start, the openings, and cut and fill of a section in the first stage;
//! - `brief`: the number of nodes, cost and bound, and how many notes there are of each kind;
//! - a number: that the road is searched so many times before its nodes are counted.
//!
//! A line `pick` prints the place of the least of three keys.
#![tactic(auto)]

mod answer;
mod counts;
mod plans;

use answer::answer;
use std::io;

fn main(rt: HostRuntime) -> io::Result<()> {
    for line in rt.lines(rt.alloc()) {
        let line = line?;
        let text = answer(&rt, line.as_str())?;
        println!(rt; "{text}")?;
    }
    Ok(())
}

//! Reads lines such as `road.toml;64/128 300;removal 1 2 first;height 3 0 second`: a road, a range of numbers with a budget of
//! exchanges, and splits of the box of all plans, of each of which one part is taken. Prints how the linear program of the box
//! that is left ends, or that there is no such road, box or range. The ranges are:
//!
//! - `64`, `128`, `1000`: whole numbers of magnitude at most 2^63 - 1, 2^127 - 1, 1000;
//! - `64/128`, `1000/128`: the first of these, or else the second; it is said which one was used.
//!
//! A further word `brief` asks for the kind of the end and what is told by the program alone, without the trail; a number asks
//! that the program is solved so many times before the end is printed.
#![tactic(auto)]

mod answer;
mod ends;
mod thousand;

use answer::answer;
use std::io;

fn main(rt: HostRuntime) -> io::Result<()> {
    for line in rt.lines(rt.alloc()) {
        let line = line?;
        let text = answer(&rt, line.as_str())?;
        println!(rt; "{text}")?;
    }
    Ok(())
}

//! Reads lines such as `road.toml;rows;removal 1 2 first;height 3 0 second`: a road file, what is asked, and splits of the box
//! of all plans, of each of which one part is taken. Prints what is asked of the box that is left, or that there is no such
//! road or box. What can be asked:
//!
//! - `rows`: the counts of its program and the road's weight, the bounds and the cost of each column, and the rows;
//! - `counts`: the first line of these; `ranges`: the box's ranges; `families`: how many rows are for heights and volumes, and
//!   how many for hauls;
//! - `point FILE`: the point of the plan in a file, and what both cost; `plan 1 500 ..`: the plan of a denominator and a point;
//! - `value 2 450 ..`: the value of a scale and of one multiplier for each row; `ascend 1 2 450 ..`: the scale, the value and the
//!   multipliers that `ascend` leaves of them in one round;
//! - `builds 100`: makes the program 100 times; `values 100`: forms its value with all multipliers 100 times.
//!
//! A line `narrow 3 2199023255552 ..` prints what `narrow` leaves of a scale and multipliers.
#![tactic(auto)]

mod answer;
mod families;
mod multipliers;
mod numbers_in;
mod plans;
mod points;
mod printing;
mod repeats;

use answer::answer;
use std::io;

fn main(rt: HostRuntime) -> io::Result<()> {
    for line in rt.lines(rt.alloc()) {
        let line = line?;
        let text = answer(&rt, line.as_str())?;
        println!(rt; "{text}")?;
    }
    Ok(())
}

//! Reads lines such as `two.toml;least;low 2 1 450 2 -450`: a road file, what is asked, and nodes of a tree in preorder on the box
//! of all plans. A node is `low SCALE` or `dead` with pairs of a row's number and a multiplier, or a split such as `removal 1 2`
//! or `height 1 0`. Prints what is asked of the tree, or that there is no such road or tree. What can be asked:
//!
//! - `least`: the least bound of the leaves;
//! - `grown`: the number of nodes, where the tree was grown from its first leaf by splitting the leaf at a place;
//! - `joined`: the number of nodes, where the tree was joined from its leaves.
#![tactic(auto)]

mod answer;
mod nodes;
mod trees;

use answer::answer;
use std::io;

fn main(rt: HostRuntime) -> io::Result<()> {
    for line in rt.lines(rt.alloc()) {
        let line = line?;
        let text = answer(&rt, line.as_str())?;
        println!(rt; "{line}: {text}")?;
    }
    Ok(())
}

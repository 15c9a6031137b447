//! Linear programs over whole numbers: columns with bounds and costs, and rows of terms.
//! A program is kept as a `Milp`, whose sizes and weight are limited, so that sums over it fit their widths.
#![tactic(auto)]

mod milp;

pub use milp::{Milp, RowView};

//! The exact dual simplex over whole numbers of a range, on sparse rows.
#![tactic(auto)]

mod cells;
mod changing;
mod choice;
mod choosing;
mod ending;
mod filling;
mod joining;
mod lp;
mod lp_end;
mod numbers_of;
mod prepare;
mod pricing;
mod ratio_test;
mod rough;
mod rows;
mod running;
mod signs;
mod solving;
mod table;
mod views;

pub use lp::Lp;
pub use lp_end::{LpEnd, Used};
pub use solving::{solve, solve_either};
pub use table::Tableau;
pub use tableau::{Bound, Exchange, Op};

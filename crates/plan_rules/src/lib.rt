// The rules of a plan and its cost: what a plan is, whether it is admissible, the first rule that it breaks, its price.
// The definitions stand in specs/: Plans, Fits, Rules, Costs, Verdicts.
#![tactic(auto)]

mod costs;
pub mod entries;
mod fits;
mod heights;
mod judging;
mod logic;
mod plan;
mod rules;
mod verdict;
mod within;

pub use costs::{CostTotals, cost_totals};
pub use heights::{height_at, offset_of};
pub use judging::judge;
pub use plan::{Piece, Plan};
pub use road_types::table_volume;
pub use verdict::{Rule, Verdict};

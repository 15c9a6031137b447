//! The search: boxes are split best bound first until the bound meets the cost of the best plan or the nodes are spent, and each
//! node of the tree keeps a note that shows why it was closed, split or left open.
#![tactic(auto)]

mod asking;
mod best;
mod finding;
mod flat_roads;
mod free_splits;
mod growing;
mod notes;
mod piece_boxes;
mod proving;
mod scores;
mod settled;
mod settling;
mod solving;
mod splines;
mod splitting;
mod walks;
mod work;

pub use best_first::pick;
pub use finding::{Found, search};
pub use notes::NodeNote;

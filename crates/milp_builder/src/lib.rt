// Boxes of plans and the mixed-integer program of a box: what a search splits, bounds and solves.
#![tactic(auto)]

mod amounts;
mod bounds;
mod boxes;
mod breakpoints;
mod kinds;
mod plans;
mod points;
mod program;
mod root;
mod showing;
mod shown_plan;
mod splits;
mod volumes;

pub use boxes::{BoxRange, Split};
pub use breakpoints::is_breakpoint;
pub use plans::{exact_plan, plan_of};
pub use points::point_of;
pub use program::build;
pub use programs::{Milp, RowView};
pub use root::root_box;
pub use showing::{is_exact_at, moved_volume, part_removal, shown, volume_of_offset};
pub use splits::parts;
pub use volumes::GREATEST_COMPARABLE;

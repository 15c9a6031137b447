// The road as the other crates see it: its record, what stands on it by number, heights along its segments, volumes of its slabs,
// and the first of its rules that the record breaks.
#![tactic(auto)]

mod check;
mod column;
mod columns;
mod counts;
mod entries;
mod fault;
mod heights;
mod lines;
mod listed;
pub mod ranges;
mod road;
mod segments;
mod text;
mod volumes;
mod weight;

/// The greatest length of a road file and of a section table, in bytes.
pub const LONGEST_FILE: usize = 4_194_304;

/// The greatest weight of a road: 2^46.
pub const GREATEST_WEIGHT: i128 = 70_368_744_177_664;

pub use column::Column;
pub use columns::column_of;
pub use fault::Fault;
pub use heights::{grade_along, height_along};
pub use listed::Listed;
pub use road::{Access, Block, Fixed, Hop, Pit, PitKind, Road, Section, Slab};
pub use text::Text;
pub use volumes::{net_volume, table_volume, thickness_of};

//! The report on what was found for a road, in lines and in tables that a spreadsheet reads: profile, earthwork, hauls, blocks and costs.
//! Also the mass diagram of a plan: net hauls, zones of one direction and haul moments.
//! The definitions stand in specs/: Reports (lines and tables), Mass (the diagram), Lines (how a text shows them).
#![tactic(auto)]

mod cells;
mod entries;
mod findings;
mod lines;
mod mass;
mod tables;
mod write;
mod zones;

pub use findings::{Findings, OpenLeaves};
pub use mass::{ordinate, write_mass};
pub use write::write_report;

//! The report of a certificate: of its text, which is checked and whose open leaves are counted node by node, and of one in memory.
//! Also the mass diagram of the plan that a certificate states.
#![tactic(auto)]

mod counting;
mod diagram;
mod held;
mod replaying;

pub use diagram::mass;
pub use held::report_cert;
pub use replaying::replay;

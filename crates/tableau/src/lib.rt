//! Tableaux of the dual simplex over whole numbers without a width: what a tableau is, what a good exchange makes of it,
//! where it ends, and which operations have exact values. Definitions stand in `specs/`, laws in `proofs/`.
#![tactic(auto)]

mod bound;
mod exchange;
mod op;

pub use bound::Bound;
pub use exchange::Exchange;
pub use op::Op;

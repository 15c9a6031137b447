//! Bounds carried to other costs: a certificate of a road stays worth something when unit costs change. Its plan is priced anew, and
//! the multipliers of its leaves are raised for the new costs.
#![tactic(auto)]

mod carrying;
mod leaves;
mod pricing;
mod trees;

pub use carrying::carry;

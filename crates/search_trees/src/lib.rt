//! Trees that grow leaf by leaf and keep the number of their nodes, and the least bound that their leaves prove.
#![tactic(auto)]

mod least;
mod places;
mod rooted;

pub use least::{bound_of, least_bound};
pub use rooted::SearchTree;

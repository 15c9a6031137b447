//! Whether a point's volumes are those of its offsets, over any denominator of 128 bits: volumes are formed in two halves.
#![tactic(auto)]

mod arithmetic;
mod comparing;
mod volumes;

pub use comparing::{is_exact_at, moved_volume};

//! Whole numbers of a bounded range, and fractions in lowest terms.
//! Every call gives the exact value, or `None` exactly where that value is out of range.
#![tactic(auto)]

mod divisors;
mod fraction;
mod products;
mod w128;
mod w64;
mod whole;

pub use divisors::magnitude_gcd;
pub use fraction::{Frac, common_den};
pub use w64::W64;
pub use w128::W128;
pub use whole::{Narrow, Whole};

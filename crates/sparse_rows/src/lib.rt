//! Kernels on sparse rows of whole numbers: an entry looked up, and a row reduced by a pivot row and divided by the
//! greatest common divisor of its entries. Rows hold numbers of one range, products those of another that is no smaller.
#![tactic(auto)]

mod cells;
mod combining;
mod dividing;
mod factoring;
mod lookup;
mod summing;

pub use cells::{is_negative, is_zero, put, widened};
pub use combining::combine;
pub use dividing::{common_divisor, write_divided};
pub use factoring::factors;
pub use lookup::entry;
pub use summing::{product_of, row_sum, standing};

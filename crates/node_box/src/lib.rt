//! A box that contracts see as the value in it, so that a type that leads back to itself is plain data for them.
//! It is the box of the kit's `sqlite_items`, but hands a refused value back and lets the value be replaced.
#![tactic(auto)]

mod boxed;

pub use boxed::NodeBox;

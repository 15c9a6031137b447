//! A row of a road's program in the making: coefficients at kinds of column become terms in numbered columns.
//! With the laws that the terms of every row of a road rise by column.
#![tactic(auto)]

mod row;

pub use row::FormRow;

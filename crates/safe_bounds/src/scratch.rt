// Room for one number a column, taken once for many values.
use std::alloc::{AllocError, Global};
use std::marker::Model;

/// Room for one number a column, which `leaf_value` writes over; contracts see the number of columns alone.
#[derive(Debug, Drop)]
pub struct Scratch {
    pub(crate) drawn: Vec<i128>,
}

impl Model for Scratch {
    ghost use Rattle.std.specs.Prelude.{ℕ, length};

    ghost Value = { ℕ };

    ghost view = { λ s. length s.drawn.items };
}

impl Scratch {
    ghost use Rattle.std.specs.Prelude.{◌≡◌, IfOk, length};
    ghost use Rattle.std.specs.Borrow.{sem, Lends, Array, i128 as wide};
    ghost use Rattle.safe_bounds.specs.contracts.scratch.Scratch.{the_row};

    /// Room for that many columns. `AllocError` where that memory can't be had.
    pub fn new(alloc: Global, columns: usize) -> Result<Scratch, AllocError>
        ensures { IfOk result (λ scratch. scratch ≡ columns) }
    {
        let mut drawn = Vec::new(alloc);
        drawn.resize(columns, 0)?;
        Ok(Scratch { drawn })
    }

    /// The numbers, one a column.
    pub fn numbers(&mut self) -> &mut [i128]
        ensures* room { sem 𝓛 (Lends the_row (Array wide 0) self.entry result (λ _. self.old)) }
        ensures count { length result.now ≡ self.old }
    {
        self.drawn.as_mut_slice()
    }
}

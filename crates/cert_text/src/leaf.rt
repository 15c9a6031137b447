ghost use Rattle.std.specs.Prelude.{◌≡◌, IfOk, []};

use std::alloc::{AllocError, Global};
use std::marker::Model;

/// A buffer for one leaf's multipliers, with room for one for each row.
#[derive(Drop)]
pub struct LeafBuf {
    pub(crate) mults: Vec<(u32, i128)>,
}

impl Model for LeafBuf {
    ghost use Rattle.std.specs.Prelude.{vec_capacity};
    ghost use Rattle.cert_text.specs.Steps.{Leaf};

    ghost Value = { Leaf };

    ghost view = { λ b. record { mults = b.mults.items; room = vec_capacity b.mults } };
}

impl LeafBuf {
    /// An empty buffer with room for so many multipliers.
    pub fn new(alloc: Global, rows: usize) -> Result<LeafBuf, AllocError>
        ensures { IfOk result (λ leaf. leaf ≡ record { mults = []; room = rows }) }
    {
        let mults = Vec::with_capacity(alloc, rows)?;
        Ok(LeafBuf { mults })
    }

    /// The last leaf's multipliers: the number of a row, from 1, and its multiplier, rows rising.
    pub fn mults(&self) -> &[(u32, i128)]
        ensures { result.now ≡ self.now.mults }
    {
        self.mults.as_slice()
    }
}

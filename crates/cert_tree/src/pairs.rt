// Multipliers as they are written down.
ghost use Rattle.std.specs.Prelude.{◌≡◌, ◌+◌, ◌<◌, ◌≤◌, length, IfOk, OnOk};
ghost use Rattle.std.specs.List.{All};
ghost use Rattle.safe_bounds.specs.Values.{IsMultiplier};
ghost use Rattle.cert_tree.specs.Written.{IsWritten};
ghost use Rattle.cert_tree.specs.inside.Pushed.{pushed_unless_zero};

use road_types::Listed;
use std::alloc::{AllocError, Global};

/// Multipliers of each row as they are written down: pairs of a row's number, from 1, and a value that isn't 0.
pub fn written(alloc: Global, mults: &[i128]) -> Result<Listed<(u32, i128)>, AllocError>
    requires few { length mults.now ≤ 600 }
    requires within { All IsMultiplier mults.now }
    ensures { IfOk result (λ pairs. IsWritten mults.now (length mults.now) pairs) }
{
    let mut pairs = Vec::new(alloc);
    for before in 0..mults.len() {
        push_written(&mut pairs, before, mults[before])?;
    }
    Ok(Listed::new(pairs))
}

/// The multiplier of one more row is written down, unless it is 0.
#[tactic(auto, using(crate::proofs::WrittenLemmas::pushed_some, crate::proofs::WrittenLemmas::pushed_none))]
fn push_written(pairs: &mut Vec<(u32, i128)>, before: usize, mult: i128) -> Result<(), AllocError>
    requires few { before < 600 }
    ensures { OnOk result (pairs.new.items ≡ pushed_unless_zero pairs.old.items (before + 1) mult) }
{
    if mult != 0 {
        pairs.push((before as u32 + 1, mult))?;
    }
    Ok(())
}

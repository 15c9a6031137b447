// What stands in a plan by its number, which begins at 1.
ghost use Rattle.std.specs.Prelude.{◌≡◌, pos};
ghost use Rattle.road_types.specs.Numbered.{numbered};
ghost use Rattle.plan_rules.specs.Plans.{piece_of, amount, opening};

use crate::plan::{Piece, Plan};
use road_types::Listed;

/// Entry `number` of a stage, both numbered from 1; 0 where there is none.
pub fn amount_at(stages: &Listed<Listed<i128>>, stage: usize, number: usize) -> i128
    ensures { result ≡ amount stages.now stage number }
{
    if stage == 0 || stage > stages.len() {
        0
    } else {
        entry_at(&stages.as_slice()[stage - 1], number)
    }
}

fn entry_at(row: &Listed<i128>, number: usize) -> i128
    ensures { result ≡ numbered (pos 0) row.now number }
{
    if number == 0 || number > row.len() {
        0
    } else {
        row.as_slice()[number - 1]
    }
}

/// The height of a segment.
pub fn piece_at(plan: &Plan, segment: usize) -> Piece
    ensures { result ≡ piece_of plan.now segment }
{
    if segment == 0 || segment > plan.pieces.len() {
        Piece { a: 0, b: 0, c: 0 }
    } else {
        plan.pieces.as_slice()[segment - 1]
    }
}

/// The stage from which a block is open; 0 where there is no such block.
pub fn opening_at(plan: &Plan, block: usize) -> usize
    ensures { result ≡ opening plan.now block }
{
    if block == 0 || block > plan.opens.len() {
        0
    } else {
        usize::from(plan.opens.as_slice()[block - 1])
    }
}

// Sweeps over the rows.
ghost use Rattle.std.specs.Prelude.{◌≡◌, ◌≤◌, ◌≤ℤ◌, ◌||◌};
ghost use Rattle.algebra.specs.Scale.{IsScale};
ghost use Rattle.programs.specs.Programs.{column_count, row_count};
ghost use Rattle.safe_bounds.specs.Values.{value_of};
ghost use Rattle.bound_tools.specs.Ascents.{AreAllowed, RoseOrIsBest};
ghost use Rattle.bound_tools.specs.inside.Climbs.{IsSwept};

use crate::rows::raise;
use programs::Milp;
use safe_bounds::{Scratch, leaf_value};

/// Raises the value of a scale and multipliers by changes of single multipliers, in at most so many rounds over the rows, and
/// stops at the first round in which nothing rises. The scale, from 1 to 2^40, stays; multipliers stay of magnitude at most
/// 2^40 with right signs, as they are asked to be. The value never falls. After one round or more it rose, or the multipliers
/// are as before and no change of a single one by 1, within right signs and the limit, raises it. The scratch is asked to have
/// room for the program's columns. It takes no memory.
pub fn ascend(milp: &Milp, scale: &mut i128, mults: &mut [i128], rounds: u32, scratch: &mut Scratch)
    requires scale { IsScale scale.old }
    requires mults { AreAllowed milp.now mults.old }
    requires scratch { column_count milp.now ≤ scratch.old }
    ensures scale { scale.new ≡ scale.old }
    ensures mults { AreAllowed milp.now mults.new }
    ensures never_falls { value_of milp.now scale.old mults.old ≤ℤ value_of milp.now scale.old mults.new }
    ensures risen { 1 ≤ rounds → RoseOrIsBest milp.now scale.old mults.old mults.new }
    ensures scratch { scratch.new ≡ scratch.old }
{
    let mut value = leaf_value(milp, *scale, mults, scratch);
    ascend_from(milp, *scale, mults, &mut value, rounds, scratch)
}

/// Does what `ascend` says, from multipliers of this value, which is kept.
fn ascend_from(
    milp: &Milp,
    scale: i128,
    mults: &mut [i128],
    value: &mut i128,
    rounds: u32,
    scratch: &mut Scratch,
)
    requires scale { IsScale scale }
    requires mults { AreAllowed milp.now mults.old }
    requires value { value.old ≡ value_of milp.now scale mults.old }
    requires scratch { column_count milp.now ≤ scratch.old }
    ensures mults { AreAllowed milp.now mults.new }
    ensures never_falls { value_of milp.now scale mults.old ≤ℤ value_of milp.now scale mults.new }
    ensures risen { 1 ≤ rounds → RoseOrIsBest milp.now scale mults.old mults.new }
    ensures scratch { scratch.new ≡ scratch.old }
{
    for _round in 0..rounds {
        if !sweep(milp, scale, mults, value, scratch) {
            return;
        }
    }
}

/// Raises the value row by row. Whether it rose; `value` is kept.
fn sweep(
    milp: &Milp,
    scale: i128,
    mults: &mut [i128],
    value: &mut i128,
    scratch: &mut Scratch,
) -> bool
    requires scale { IsScale scale }
    requires mults { AreAllowed milp.now mults.old }
    requires value { value.old ≡ value_of milp.now scale mults.old }
    requires scratch { column_count milp.now ≤ scratch.old }
    ensures swept { IsSwept milp.now scale (row_count milp.now) result mults.old mults.new }
    ensures value { value.new ≡ value_of milp.now scale mults.new }
    ensures scratch { scratch.new ≡ scratch.old }
{
    let mut raised = false;
    for place in 0..milp.rows() {
        let risen = raise(milp, scale, mults, value, place + 1, scratch);
        raised = either(risen, raised);
    }
    raised
}

fn either(a: bool, b: bool) -> bool
    ensures { result ≡ (a || b) }
{
    a || b
}

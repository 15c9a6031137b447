// The multipliers of one leaf.
ghost use Rattle.std.specs.Prelude.{◌≡◌, None, IfOk};
ghost use Rattle.algebra.specs.Scale.{IsScale};
ghost use Rattle.programs.specs.Programs.{row_count};
ghost use Rattle.safe_bounds.specs.Values.{HasRightSigns};
ghost use Rattle.safe_bounds.specs.Sparse.{dense};
ghost use Rattle.road_types.specs.Faults.{road_fault};
ghost use Rattle.road_types.specs.RoadPrograms.{row_count as road_row_count};
ghost use Rattle.milp_builder.specs.Boxes.{IsBoxOf};
ghost use Rattle.cert_tree.specs.Trees.{AreMultipliersBehind};
ghost use Rattle.cert_tree.specs.Proving.{AreSigned};
ghost use Rattle.carried_bounds.specs.Carried.{AreCarried};
ghost use Rattle.carried_bounds.specs.inside.Risen.{AreRisen};

use bound_tools::ascend;
use cert_tree::{spread, written};
use milp_builder::{BoxRange, build};
use programs::Milp;
use road_types::{Listed, Road};
use safe_bounds::Scratch;
use std::alloc::{AllocError, Global};

/// The rounds in which the multipliers of a leaf are raised.
const ROUNDS: u32 = 8;

/// The multipliers of a low leaf, raised on its own box.
pub(crate) fn carried_mults(
    alloc: Global,
    road: &Road,
    range: &BoxRange,
    scale: i128,
    mults: &[(u32, i128)],
) -> Result<Listed<(u32, i128)>, AllocError>
    requires accepted { road_fault road.now ≡ None }
    requires fits { IsBoxOf road.now range.now }
    requires scale { IsScale scale }
    requires mults { AreMultipliersBehind (road_row_count road.now) 0 mults.now }
    requires signed { AreSigned road.now range.now mults.now }
    ensures { IfOk result (λ carried. AreCarried road.now range.now scale mults.now carried) }
{
    let milp = build(alloc, road, range)?;
    raised_mults(alloc, &milp, scale, mults)
}

/// The multipliers, raised on a program.
fn raised_mults(
    alloc: Global,
    milp: &Milp,
    scale: i128,
    mults: &[(u32, i128)],
) -> Result<Listed<(u32, i128)>, AllocError>
    requires scale { IsScale scale }
    requires mults { AreMultipliersBehind (row_count milp.now) 0 mults.now }
    requires signs { HasRightSigns milp.now (dense (row_count milp.now) mults.now) }
    ensures { IfOk result (λ risen. AreRisen milp.now scale mults.now risen) }
{
    let mut spread = spread(alloc, milp.rows(), mults)?;
    let mut scratch = Scratch::new(alloc, milp.columns())?;
    let mut scale = scale;
    ascend(
        milp,
        &mut scale,
        spread.as_mut_slice(),
        ROUNDS,
        &mut scratch,
    );
    written(alloc, spread.as_slice())
}

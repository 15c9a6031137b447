// Openings, and what blocks keep from being moved.
ghost use Rattle.std.specs.Prelude.{◌↔◌, IsTrue};
ghost use Rattle.road_types.specs.Numbered.{IsNumber};
ghost use Rattle.road_types.specs.Road.{block_count};
ghost use Rattle.road_types.specs.WellFormed.{IsWellFormed};
ghost use Rattle.plan_rules.specs.Fits.{Fits};
ghost use Rattle.plan_rules.specs.Plans.{opening};
ghost use Rattle.plan_rules.specs.Rules.{IsOpening, RespectsBlock};

use crate::entries::{amount_at, opening_at};
use crate::logic::both;
use crate::plan::Plan;
use crate::rules::flows::hauled_out;
use algebra::{at_most, same};
use road_types::Road;

/// Whether a block's opening is a stage from 2 on, or the one after the last, which means never.
pub fn is_opening(road: &Road, plan: &Plan, number: usize) -> bool
    requires well_formed { IsWellFormed road.now }
    ensures { IsTrue result ↔ IsOpening road.now (opening plan.now number) }
{
    let stage = opening_at(plan, number);
    both(2 <= stage, stage <= road.stages + 1)
}

/// Whether a stage respects a block: before its opening no more leaves its section than is cut there, from then on nothing
/// is cut or filled there.
pub fn respects_block(road: &Road, plan: &Plan, stage: usize, number: usize) -> bool
    requires well_formed { IsWellFormed road.now }
    requires fits { Fits road.now plan.now }
    requires number { IsNumber number (block_count road.now) }
    ensures { IsTrue result ↔ RespectsBlock road.now plan.now stage number }
{
    let section = road.block(number).section;
    let cut = amount_at(&plan.cut, stage, section);
    if stage < opening_at(plan, number) {
        at_most(hauled_out(plan, stage, section), cut)
    } else {
        both(same(cut, 0), same(amount_at(&plan.fill, stage, section), 0))
    }
}

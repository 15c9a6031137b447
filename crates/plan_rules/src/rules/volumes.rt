// Offsets within the slabs, and the volumes that go with them.
ghost use Rattle.std.specs.Prelude.{◌↔◌, IsTrue, ◌≡◌, ◌^◌, neg_ℤ, ◌≤◌, unsigned_abs};
ghost use Rattle.algebra.specs.Sums.{sum_to};
ghost use Rattle.algebra.specs.Scale.{IsScale};
ghost use Rattle.road_types.specs.Numbered.{IsNumber};
ghost use Rattle.road_types.specs.Road.{section_count, section};
ghost use Rattle.road_types.specs.Volumes.{thickness_of, net_volume};
ghost use Rattle.road_types.specs.WellFormed.{IsWellFormed, IsSlabTable};
ghost use Rattle.plan_rules.specs.Fits.{Fits};
ghost use Rattle.plan_rules.specs.inside.FitsByParts.{HasModerateAmounts};
ghost use Rattle.plan_rules.specs.Rules.{HasItsVolume, IsWithin, IsLimited, fill_less_cut};

use crate::entries::amount_at;
use crate::heights::offset_at;
use crate::plan::Plan;
use crate::within::is_within;
use algebra::{minus, opposite, plus, same};
use road_types::{Road, Section, net_volume, thickness_of};

/// Whether a section's offset lies within its slabs, and its fill less cut is the volume of that offset.
pub fn has_its_volume(road: &Road, plan: &Plan, number: usize) -> bool
    requires well_formed { IsWellFormed road.now }
    requires fits { Fits road.now plan.now }
    requires limited { IsLimited road.now plan.now }
    requires number { IsNumber number (section_count road.now) }
    ensures { IsTrue result ↔ HasItsVolume road.now plan.now number }
{
    let section = road.section(number);
    let offset = offset_at(road, plan, number);
    if lies_in_slabs(section, offset, plan.den) {
        same(
            moved_volume(road, plan, number),
            net_volume(section, offset, plan.den),
        )
    } else {
        false
    }
}

/// Whether an offset lies within the section's slabs.
fn lies_in_slabs(section: &Section, offset: i128, den: i128) -> bool
    requires cut { IsSlabTable section.now.cut }
    requires fill { IsSlabTable section.now.fill }
    requires den { IsScale den }
    ensures value { IsTrue result
        ↔ IsWithin (neg_ℤ (thickness_of section.now.cut)) (thickness_of section.now.fill) den offset }
    ensures width { IsTrue result → unsigned_abs offset ≤ 2 ^ 86 }
{
    let below = opposite(thickness_of(section.cut.as_slice()));
    let above = thickness_of(section.fill.as_slice());
    is_within(below, above, den, offset)
}

/// What is filled in a section in all stages, less what is cut.
fn moved_volume(road: &Road, plan: &Plan, number: usize) -> i128
    requires well_formed { IsWellFormed road.now }
    requires fits { Fits road.now plan.now }
    ensures { result ≡ sum_to (fill_less_cut plan.now number) road.now.stages }
{
    let mut total = 0;
    for before in 0..road.stages {
        total = plus(total, fill_less_cut(plan, number, before + 1));
    }
    total
}

/// What is filled in a section in a stage, less what is cut.
fn fill_less_cut(plan: &Plan, number: usize, stage: usize) -> i128
    requires { HasModerateAmounts plan.now }
    ensures { result ≡ fill_less_cut plan.now number stage }
{
    minus(
        amount_at(&plan.fill, stage, number),
        amount_at(&plan.cut, stage, number),
    )
}

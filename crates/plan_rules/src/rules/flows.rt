// What comes to a section and what leaves it.
ghost use Rattle.std.specs.Prelude.{◌↔◌, IsTrue, ◌≡◌, ◌^◌, ◌≤◌, ◌*◌, unsigned_abs};
ghost use Rattle.algebra.specs.Sums.{sum_to};
ghost use Rattle.road_types.specs.Numbered.{IsNumber};
ghost use Rattle.road_types.specs.Road.{section_count, access_count};
ghost use Rattle.road_types.specs.WellFormed.{IsWellFormed};
ghost use Rattle.plan_rules.specs.Fits.{Fits};
ghost use Rattle.plan_rules.specs.inside.FitsByParts.{HasModerateAmounts};
ghost use Rattle.plan_rules.specs.Rules.{IsBalanced, access_share, hauled_in, hauled_out, earth_in, earth_out};

use crate::entries::amount_at;
use crate::plan::Plan;
use algebra::{plus, same};
use road_types::{PitKind, Road};

/// Whether what comes to a section in a stage equals what leaves it.
pub fn is_balanced(road: &Road, plan: &Plan, stage: usize, number: usize) -> bool
    requires well_formed { IsWellFormed road.now }
    requires fits { Fits road.now plan.now }
    requires number { IsNumber number (section_count road.now) }
    ensures { IsTrue result ↔ IsBalanced road.now plan.now stage number }
{
    let coming = earth_in(road, plan, stage, number);
    let leaving = earth_out(road, plan, stage, number);
    same(coming, leaving)
}

/// What is cut in a section, hauled to it and borrowed for it in a stage.
fn earth_in(road: &Road, plan: &Plan, stage: usize, number: usize) -> i128
    requires well_formed { IsWellFormed road.now }
    requires fits { Fits road.now plan.now }
    requires number { IsNumber number (section_count road.now) }
    ensures { result ≡ earth_in road.now plan.now stage number }
{
    let borrowed = access_total(road, plan, PitKind::Borrow, stage, number);
    let cut = amount_at(&plan.cut, stage, number);
    plus(plus(cut, hauled_in(plan, stage, number)), borrowed)
}

/// What is filled in a section, hauled from it and wasted of it in a stage.
fn earth_out(road: &Road, plan: &Plan, stage: usize, number: usize) -> i128
    requires well_formed { IsWellFormed road.now }
    requires fits { Fits road.now plan.now }
    requires number { IsNumber number (section_count road.now) }
    ensures { result ≡ earth_out road.now plan.now stage number }
{
    let wasted = access_total(road, plan, PitKind::Waste, stage, number);
    let fill = amount_at(&plan.fill, stage, number);
    plus(plus(fill, hauled_out(plan, stage, number)), wasted)
}

/// What comes over hops: to the right from the section before, to the left from the section after.
fn hauled_in(plan: &Plan, stage: usize, number: usize) -> i128
    requires amounts { HasModerateAmounts plan.now }
    requires number { 1 ≤ number }
    ensures value { result ≡ hauled_in plan.now stage number }
    ensures width { unsigned_abs result ≤ 2 * 10 ^ 30 }
{
    plus(
        amount_at(&plan.right, stage, number - 1),
        amount_at(&plan.left, stage, number),
    )
}

/// What leaves over hops: to the right to the section after, to the left to the section before.
pub fn hauled_out(plan: &Plan, stage: usize, number: usize) -> i128
    requires amounts { HasModerateAmounts plan.now }
    requires number { 1 ≤ number }
    ensures value { result ≡ hauled_out plan.now stage number }
    ensures width { unsigned_abs result ≤ 2 * 10 ^ 30 }
{
    plus(
        amount_at(&plan.right, stage, number),
        amount_at(&plan.left, stage, number - 1),
    )
}

/// What goes in a stage over all access roads between a section and pits of a kind.
fn access_total(road: &Road, plan: &Plan, kind: PitKind, stage: usize, number: usize) -> i128
    requires well_formed { IsWellFormed road.now }
    requires fits { Fits road.now plan.now }
    ensures value { result ≡ sum_to (access_share road.now plan.now kind stage number) (access_count road.now) }
    ensures width { unsigned_abs result ≤ 16 * 10 ^ 30 }
{
    let mut total = 0;
    for before in 0..road.roads.len() {
        total = plus(
            total,
            access_share(road, plan, kind, stage, number, before + 1),
        );
    }
    total
}

/// What goes in a stage over an access road; 0 where it stands elsewhere or its pit is of the other kind.
fn access_share(
    road: &Road,
    plan: &Plan,
    kind: PitKind,
    stage: usize,
    number: usize,
    access: usize,
) -> i128
    requires well_formed { IsWellFormed road.now }
    requires fits { Fits road.now plan.now }
    requires access { IsNumber access (access_count road.now) }
    ensures { result ≡ access_share road.now plan.now kind stage number access }
{
    if road.serves(kind, number, access) {
        amount_at(&plan.roads, stage, access)
    } else {
        0
    }
}

// Caps of amounts and capacities of pits.
ghost use Rattle.std.specs.Prelude.{◌↔◌, IsTrue, ◌≡◌, ◌≤◌};
ghost use Rattle.algebra.specs.Sums.{sum_to};
ghost use Rattle.road_types.specs.Numbered.{IsNumber};
ghost use Rattle.road_types.specs.Road.{section_count, hop_count, access_count, pit_count, section, hop, access};
ghost use Rattle.road_types.specs.WellFormed.{IsWellFormed};
ghost use Rattle.plan_rules.specs.Fits.{Fits};
ghost use Rattle.plan_rules.specs.Plans.{amount};
ghost use Rattle.plan_rules.specs.Rules.{KeepsCaps, IsPitCapped, IsAmountCapped, IsCapped, amount_count, pit_share, access_amount};

use crate::entries::amount_at;
use crate::plan::Plan;
use crate::within::is_within;
use algebra::{at_most, plus, scaled};
use road_types::Road;

/// Whether a pit's total (stage 0) or an amount of a stage is within its cap.
pub fn keeps_caps(road: &Road, plan: &Plan, stage: usize, place: usize) -> bool
    requires well_formed { IsWellFormed road.now }
    requires fits { Fits road.now plan.now }
    requires pit { stage ≡ 0 → IsNumber place (pit_count road.now) }
    requires counted { 1 ≤ stage → IsNumber place (amount_count road.now) }
    ensures { IsTrue result ↔ KeepsCaps road.now plan.now stage place }
{
    if stage == 0 {
        is_pit_capped(road, plan, place)
    } else {
        is_amount_capped(road, plan, stage, place)
    }
}

/// Whether a pit's total over its access roads and all stages is at most its capacity.
fn is_pit_capped(road: &Road, plan: &Plan, number: usize) -> bool
    requires well_formed { IsWellFormed road.now }
    requires fits { Fits road.now plan.now }
    requires number { IsNumber number (pit_count road.now) }
    ensures { IsTrue result ↔ IsPitCapped road.now plan.now number }
{
    at_most(
        pit_total(road, plan, number),
        scaled(road.pit(number).capacity, plan.den),
    )
}

/// What goes over all access roads of a pit in all stages.
fn pit_total(road: &Road, plan: &Plan, number: usize) -> i128
    requires well_formed { IsWellFormed road.now }
    requires fits { Fits road.now plan.now }
    ensures { result ≡ sum_to (pit_share road.now plan.now number) (access_count road.now) }
{
    let mut total = 0;
    for before in 0..road.roads.len() {
        total = plus(total, pit_share(road, plan, number, before + 1));
    }
    total
}

/// What goes over an access road in all stages; 0 where it belongs to another pit.
fn pit_share(road: &Road, plan: &Plan, number: usize, access: usize) -> i128
    requires well_formed { IsWellFormed road.now }
    requires fits { Fits road.now plan.now }
    requires access { IsNumber access (access_count road.now) }
    ensures { result ≡ pit_share road.now plan.now number access }
{
    if road.access(access).pit == number {
        access_amount(road, plan, access)
    } else {
        0
    }
}

/// What goes over an access road in all stages.
fn access_amount(road: &Road, plan: &Plan, access: usize) -> i128
    requires well_formed { IsWellFormed road.now }
    requires fits { Fits road.now plan.now }
    ensures { result ≡ access_amount plan.now access road.now.stages }
{
    let mut total = 0;
    for before in 0..road.stages {
        total = plus(total, amount_at(&plan.roads, before + 1, access));
    }
    total
}

/// Whether the amount that is counted at a place of a stage is within its cap.
fn is_amount_capped(road: &Road, plan: &Plan, stage: usize, place: usize) -> bool
    requires well_formed { IsWellFormed road.now }
    requires fits { Fits road.now plan.now }
    requires place { IsNumber place (amount_count road.now) }
    ensures { IsTrue result ↔ IsAmountCapped road.now plan.now stage place }
{
    let sections = road.sections.len();
    let hops = road.hops.len();
    let right = 2 * sections;
    let left = right + hops;
    let roads = left + hops;
    if place <= sections {
        is_cut_capped(road, plan, stage, place)
    } else if place <= right {
        is_fill_capped(road, plan, stage, place - sections)
    } else if place <= left {
        is_right_capped(road, plan, stage, place - right)
    } else if place <= roads {
        is_left_capped(road, plan, stage, place - left)
    } else {
        is_access_capped(road, plan, stage, place - roads)
    }
}

fn is_cut_capped(road: &Road, plan: &Plan, stage: usize, number: usize) -> bool
    requires fits { Fits road.now plan.now }
    requires number { IsNumber number (section_count road.now) }
    ensures { IsTrue result ↔ IsCapped (section road.now number).cut_max plan.now.den (amount plan.now.cut stage number) }
{
    is_within(
        0,
        road.section(number).cut_max,
        plan.den,
        amount_at(&plan.cut, stage, number),
    )
}

fn is_fill_capped(road: &Road, plan: &Plan, stage: usize, number: usize) -> bool
    requires fits { Fits road.now plan.now }
    requires number { IsNumber number (section_count road.now) }
    ensures { IsTrue result ↔ IsCapped (section road.now number).fill_max plan.now.den (amount plan.now.fill stage number) }
{
    is_within(
        0,
        road.section(number).fill_max,
        plan.den,
        amount_at(&plan.fill, stage, number),
    )
}

fn is_right_capped(road: &Road, plan: &Plan, stage: usize, number: usize) -> bool
    requires fits { Fits road.now plan.now }
    requires number { IsNumber number (hop_count road.now) }
    ensures { IsTrue result ↔ IsCapped (hop road.now number).right_max plan.now.den (amount plan.now.right stage number) }
{
    is_within(
        0,
        road.hop(number).right_max,
        plan.den,
        amount_at(&plan.right, stage, number),
    )
}

fn is_left_capped(road: &Road, plan: &Plan, stage: usize, number: usize) -> bool
    requires fits { Fits road.now plan.now }
    requires number { IsNumber number (hop_count road.now) }
    ensures { IsTrue result ↔ IsCapped (hop road.now number).left_max plan.now.den (amount plan.now.left stage number) }
{
    is_within(
        0,
        road.hop(number).left_max,
        plan.den,
        amount_at(&plan.left, stage, number),
    )
}

fn is_access_capped(road: &Road, plan: &Plan, stage: usize, number: usize) -> bool
    requires fits { Fits road.now plan.now }
    requires number { IsNumber number (access_count road.now) }
    ensures { IsTrue result ↔ IsCapped (access road.now number).max plan.now.den (amount plan.now.roads stage number) }
{
    is_within(
        0,
        road.access(number).max,
        plan.den,
        amount_at(&plan.roads, stage, number),
    )
}

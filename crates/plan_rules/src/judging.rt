// The judge: the first rule that a plan breaks, or its cost.
ghost use Rattle.std.specs.Prelude.{◌≡◌, ◌↔◌, IsTrue, None, MatchOption};
ghost use Rattle.road_types.specs.Faults.{road_fault};
ghost use Rattle.road_types.specs.WellFormed.{IsWellFormed};
ghost use Rattle.plan_rules.specs.Fits.{Fits};
ghost use Rattle.plan_rules.specs.Rules.{Keeps, IsPlace, place_count, at_no_stage, at_each_stage, amount_count};
ghost use Rattle.plan_rules.specs.inside.Scans.{KeepsLesser};
ghost use Rattle.plan_rules.specs.Verdicts.{IsVerdict, HasNarrowCost};
ghost use Rattle.plan_rules.specs.inside.Scans.{KeepsStage, IsFirstPlace, KeepsRule, IsFirstStage};

use crate::costs::cost_of;
use crate::plan::Plan;
use crate::rules::blocks::{is_opening, respects_block};
use crate::rules::caps::keeps_caps;
use crate::rules::flows::is_balanced;
use crate::rules::limits::{ends_in_grade, is_continuous, is_in_limits, passes_fixed_point};
use crate::rules::volumes::has_its_volume;
use crate::verdict::{Rule, Verdict};
use road_types::Road;

/// The rules in the order in which they are tried.
const RULES: [Rule; 9] = [
    Rule::P1,
    Rule::P2,
    Rule::P3,
    Rule::P4,
    Rule::P5,
    Rule::P6,
    Rule::P7,
    Rule::P8,
    Rule::P9,
];

/// Admissible with the cost over the plan's denominator where no rule is broken, else the first broken rule: the least rule,
/// then the least stage, then the least place. A cost has a magnitude of at most 2^118.
pub fn judge(road: &Road, plan: &Plan) -> Verdict
    requires accepted { road_fault road.now ≡ None }
    requires fits { Fits road.now plan.now }
    ensures verdict { IsVerdict road.now plan.now result }
    ensures width { HasNarrowCost result }
{
    verdict_of(road, plan)
}

/// The verdict on a plan of an accepted road.
fn verdict_of(road: &Road, plan: &Plan) -> Verdict
    requires well_formed { IsWellFormed road.now }
    requires fits { Fits road.now plan.now }
    ensures verdict { IsVerdict road.now plan.now result }
    ensures width { HasNarrowCost result }
{
    for rule in RULES {
        if let Some((stage, place)) = first_broken_stage(road, plan, rule) {
            return Verdict::Broken { rule, stage, place };
        }
    }
    Verdict::Admissible {
        cost: cost_of(road, plan),
    }
}

/// The first stage of a rule that has a broken place, with the first such place.
fn first_broken_stage(road: &Road, plan: &Plan, rule: Rule) -> Option<(usize, usize)>
    requires well_formed { IsWellFormed road.now }
    requires fits { Fits road.now plan.now }
    requires lesser { KeepsLesser road.now plan.now rule }
    ensures { MatchOption result (KeepsRule road.now plan.now rule) (λ p. IsFirstStage road.now plan.now rule p.0 p.1) }
{
    for stage in 0..road.stages + 1 {
        if let Some(place) = first_broken_place(road, plan, rule, stage) {
            return Some((stage, place));
        }
    }
    None
}

/// The first place of a rule's stage that isn't kept.
fn first_broken_place(road: &Road, plan: &Plan, rule: Rule, stage: usize) -> Option<usize>
    requires well_formed { IsWellFormed road.now }
    requires fits { Fits road.now plan.now }
    requires lesser { KeepsLesser road.now plan.now rule }
    ensures { MatchOption result (KeepsStage road.now plan.now rule stage) (λ p. IsFirstPlace road.now plan.now rule stage p) }
{
    for before in 0..place_count(road, rule, stage) {
        if !keeps(road, plan, rule, stage, before + 1) {
            return Some(before + 1);
        }
    }
    None
}

/// How many places a rule has at a stage; stage 0 stands for a rule without stages.
#[tactic(auto, unfolding(crate::specs::Rules::place_count))]
fn place_count(road: &Road, rule: Rule, stage: usize) -> usize
    requires well_formed { IsWellFormed road.now }
    ensures { result ≡ place_count road.now rule stage }
{
    let segments = road.knots.len() - 1;
    match rule {
        Rule::P1 | Rule::P3 => at_no_stage(stage, segments),
        Rule::P2 => at_no_stage(stage, segments - 1),
        Rule::P4 => at_no_stage(stage, road.fixed.len()),
        Rule::P5 => at_no_stage(stage, road.sections.len()),
        Rule::P6 => at_no_stage(stage, road.pits.len())
            + at_each_stage(road, stage, amount_count(road)),
        Rule::P7 => at_each_stage(road, stage, road.sections.len()),
        Rule::P8 => at_no_stage(stage, road.blocks.len()),
        Rule::P9 => at_each_stage(road, stage, road.blocks.len()),
    }
}

/// So many places where a rule without stages has them.
fn at_no_stage(stage: usize, count: usize) -> usize
    ensures { result ≡ at_no_stage stage count }
{
    if stage == 0 { count } else { 0 }
}

/// So many places in each of the road's stages.
fn at_each_stage(road: &Road, stage: usize, count: usize) -> usize
    ensures { result ≡ at_each_stage road.now stage count }
{
    if 1 <= stage && stage <= road.stages {
        count
    } else {
        0
    }
}

/// How many amounts a stage has.
fn amount_count(road: &Road) -> usize
    requires well_formed { IsWellFormed road.now }
    ensures { result ≡ amount_count road.now }
{
    2 * (road.sections.len() + road.hops.len()) + road.roads.len()
}

/// Whether a rule holds at a place, where all lesser rules hold everywhere.
#[tactic(auto, unfolding(crate::specs::Rules::Keeps, crate::specs::Rules::place_count))]
fn keeps(road: &Road, plan: &Plan, rule: Rule, stage: usize, place: usize) -> bool
    requires well_formed { IsWellFormed road.now }
    requires fits { Fits road.now plan.now }
    requires lesser { KeepsLesser road.now plan.now rule }
    requires place { IsPlace road.now rule stage place }
    ensures { IsTrue result ↔ Keeps road.now plan.now rule stage place }
{
    match rule {
        Rule::P1 => is_in_limits(road, plan, place),
        Rule::P2 => is_continuous(road, plan, place),
        Rule::P3 => ends_in_grade(road, plan, place),
        Rule::P4 => passes_fixed_point(road, plan, place),
        Rule::P5 => has_its_volume(road, plan, place),
        Rule::P6 => keeps_caps(road, plan, stage, place),
        Rule::P7 => is_balanced(road, plan, stage, place),
        Rule::P8 => is_opening(road, plan, place),
        Rule::P9 => respects_block(road, plan, stage, place),
    }
}

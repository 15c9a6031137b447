// The linear program of a box, and the leaf that its end gives.
ghost use Rattle.std.specs.Prelude.{◌≡◌, ◌<◌, ◌≤◌, ◌^◌, ◌-◌, ◌≤ℤ◌, None, IfOk, OnOk, IfSome, pos, unsigned_abs};
ghost use Rattle.std.specs.Int.{int_max};
ghost use Rattle.std.specs.List.{All};
ghost use Rattle.algebra.specs.Scale.{IsScale};
ghost use Rattle.numbers.specs.Fractions.{IsLowest, HasValue};
ghost use Rattle.programs.specs.Points.{IsPoint};
ghost use Rattle.safe_bounds.specs.Values.{AreMultipliers};
ghost use Rattle.road_types.specs.Faults.{road_fault};
ghost use Rattle.road_types.specs.declared.road.Road.{Road};
ghost use Rattle.plan_rules.specs.Rules.{IsAdmissible};
ghost use Rattle.plan_rules.specs.Costs.{cost_of};
ghost use Rattle.milp_builder.specs.Boxes.{IsBoxOf};
ghost use Rattle.milp_builder.specs.Parts.{IsSplitOf};
ghost use Rattle.milp_builder.specs.BoxPrograms.{box_program};
ghost use Rattle.best_first.specs.Keys.{IsKey};
ghost use Rattle.simplex.specs.Ends.{IsEnd, IsDead, IsOptimum, HasNumbersWithin, AreWithin};
ghost use Rattle.branch_bound.specs.Optima.{exchange_budget};
ghost use Rattle.branch_bound.specs.inside.Asking.{AsksForNothing};
ghost use Rattle.branch_bound.specs.inside.Grown.{grown_of, dead_leaf, whole_leaf, waiting_leaf, stopped_leaf, IsCostKey};
ghost use Rattle.branch_bound.specs.inside.Proving.{IsProvedOn};
ghost use Rattle.branch_bound.specs.inside.Pieces.{IsImproved};
ghost use Rattle.branch_bound.specs.inside.Searches.{best_cost, IsBest, IsSolvedBox};
ghost use Rattle.branch_bound.specs.inside.Solving.{AreProving, IsStopOf, IsStoppedLeaf, IsEmptyLeaf, AreDeadMults, IsOptimumOf, IsWholeLeaf, IsCheaper, IsPricedBest};
ghost use Rattle.branch_bound.specs.declared.notes.NodeNote.TheVariants.{Limit};

use crate::asking::asked_split;
use crate::best::Best;
use crate::free_splits::{Rough, free_split};
use crate::notes::NodeNote;
use crate::piece_boxes::look_at;
use crate::proving::{greatest_magnitude, narrowed, past_limit, prove, value_on};
use crate::work::{Optimum, Proved, Reason, Waiting, Work};
use algebra::GREATEST_SCALE;
use best_first::is_at_most;
use cert_tree::written;
use milp_builder::{BoxRange, Split, build, plan_of};
use numbers::{Frac, W64, W128};
use plan_rules::{Plan, Verdict, judge};
use programs::Milp;
use road_types::{Listed, Road};
use simplex::{Lp, LpEnd, solve_either};
use std::alloc::{AllocError, Global};
use tableau::Exchange;

/// The parts of a unit in which a stop tells about what each column is.
const ROUGH_UNIT: i128 = 1_024;

/// A stop of the simplex: its note, a scale and a multiplier for each row, and about what each column is.
#[derive(Drop)]
pub struct Stop {
    pub note: NodeNote,
    pub scale: i128,
    pub mults: Vec<i128>,
    pub rough: Vec<i128>,
}

/// Solves a box: its leaf. A plan that is found and cheaper is the best one then.
pub(crate) fn solve_box(
    alloc: Global,
    road: &Road,
    range: BoxRange,
    best: &mut Option<Best>,
) -> Result<Work, AllocError>
    requires accepted { road_fault road.now ≡ None }
    requires fits { IsBoxOf road.now range }
    requires best { IsBest road.now best.old }
    ensures { IfOk result (λ leaf. IsSolvedBox road.now best.old range (record { leaf = leaf; best = best.new })) }
{
    let milp = build(alloc, road, &range)?;
    let end = end_of(alloc, road, &milp)?;
    solve_end(alloc, road, range, &milp, end, best)
}

/// How the simplex ends on a program.
#[tactic(auto, using(crate::proofs::SolvingLemmas::end_of_either))]
pub(crate) fn end_of(alloc: Global, road: &Road, milp: &Milp) -> Result<LpEnd, AllocError>
    requires accepted { road_fault road.now ≡ None }
    ensures end { IfOk result (λ end. IsEnd (2 ^ 127 - 1) milp.now (exchange_budget road.now) end) }
    ensures numbers { IfOk result (λ end. HasNumbersWithin (2 ^ 127 - 1) end) }
{
    let (end, _used) = solve_either::<W64, W128>(alloc, &Lp { milp }, exchange_budget(road))?;
    Ok(end)
}

/// The greatest number of exchanges on one box.
#[tactic(auto, using(crate::proofs::BudgetLemmas::pivots_some, crate::proofs::BudgetLemmas::pivots_few))]
fn exchange_budget(road: &Road) -> u32
    requires { road_fault road.now ≡ None }
    ensures value { result ≡ exchange_budget road.now }
    ensures some { 1 ≤ result }
{
    road.pivots.unsigned_abs() as u32
}

/// The leaf that an end gives.
#[tactic(auto, using(crate::proofs::EndLemmas::spent_proving, crate::proofs::EndLemmas::wide_proving, crate::proofs::EndLemmas::optimum_proving, crate::proofs::EndLemmas::spent_solved, crate::proofs::EndLemmas::wide_solved, crate::proofs::EndLemmas::empty_solved))]
fn solve_end(
    alloc: Global,
    road: &Road,
    range: BoxRange,
    milp: &Milp,
    end: LpEnd,
    best: &mut Option<Best>,
) -> Result<Work, AllocError>
    requires accepted { road_fault road.now ≡ None }
    requires fits { IsBoxOf road.now range }
    requires program { milp.now ≡ box_program road.now range }
    requires end { IsEnd (2 ^ 127 - 1) milp.now (exchange_budget road.now) end }
    requires numbers { HasNumbersWithin (2 ^ 127 - 1) end }
    requires best { IsBest road.now best.old }
    ensures { IfOk result (λ leaf. IsSolvedBox road.now best.old range (record { leaf = leaf; best = best.new })) }
{
    match end {
        LpEnd::Best {
            trail,
            den,
            point,
            scale,
            mults,
        } => {
            let optimum = Optimum {
                trail: Listed::new(trail),
                den,
                point: Listed::new(point),
                scale,
                mults: Listed::new(mults),
            };
            solve_optimum(alloc, road, range, milp, optimum, best)
        }
        LpEnd::Empty {
            trail,
            ray,
            scale,
            mults,
        } => empty_leaf(alloc, road, range, milp, trail, ray, scale, mults),
        LpEnd::Pivots {
            trail,
            scale,
            mults,
            rough,
        } => {
            let note = NodeNote::Pivots {
                trail: Listed::new(trail),
            };
            let stop = Stop {
                note,
                scale,
                mults,
                rough,
            };
            stopped_leaf(alloc, road, range, milp, stop)
        }
        LpEnd::Wide {
            trail,
            op,
            scale,
            mults,
            rough,
        } => {
            let note = NodeNote::Wide {
                trail: Listed::new(trail),
                op,
            };
            let stop = Stop {
                note,
                scale,
                mults,
                rough,
            };
            stopped_leaf(alloc, road, range, milp, stop)
        }
    }
}

/// The leaf of a box whose simplex stopped, with what its multipliers prove.
fn stopped_leaf(
    alloc: Global,
    road: &Road,
    range: BoxRange,
    milp: &Milp,
    stop: Stop,
) -> Result<Work, AllocError>
    requires accepted { road_fault road.now ≡ None }
    requires fits { IsBoxOf road.now range }
    requires proving { AreProving milp.now stop.scale stop.mults.items }
    ensures { IfOk result (λ leaf. IsStoppedLeaf road.now range milp.now stop.scale stop.mults.items stop.note leaf) }
{
    let split = split_at(road, &range, ROUGH_UNIT, stop.rough.as_slice());
    let proved = prove(alloc, milp, stop.scale, stop.mults)?;
    Ok(stop_of(split, range, proved, stop.note))
}

/// The leaf of a stop: it waits to be split where its box has a split.
#[tactic(auto, using(crate::proofs::SolvingLemmas::stop_waits, crate::proofs::SolvingLemmas::stop_stays))]
fn stop_of(split: Option<Split>, range: BoxRange, proved: Proved, note: NodeNote) -> Work
    ensures { (road : Road) → IfSome split (λ s. IsSplitOf road range s) → IsStopOf road range proved note (grown_of result) }
{
    match split {
        Some(split) => waiting_leaf(range, split, Reason::Stop { note }, proved),
        None => ended_leaf(proved, note),
    }
}

/// A leaf that stays as it is, with its note.
fn ended_leaf(proved: Proved, note: NodeNote) -> Work
    ensures { grown_of result ≡ stopped_leaf proved note }
{
    Work::Stopped { proved, note }
}

/// The leaf of an empty box: its narrowed ray, or, where that no longer proves it empty, what its multipliers prove.
#[tactic(auto, using(crate::proofs::EndLemmas::dead_multipliers, crate::proofs::EndLemmas::dead_proving, crate::proofs::EndLemmas::empty_dead, crate::proofs::EndLemmas::empty_limit, crate::proofs::SolvingLemmas::below_range))]
fn empty_leaf(
    alloc: Global,
    road: &Road,
    range: BoxRange,
    milp: &Milp,
    trail: Vec<Exchange>,
    ray: Vec<i128>,
    scale: i128,
    mults: Vec<i128>,
) -> Result<Work, AllocError>
    requires accepted { road_fault road.now ≡ None }
    requires fits { IsBoxOf road.now range }
    requires dead { IsDead milp.now (exchange_budget road.now) trail.items ray.items scale mults.items }
    requires ray { AreWithin (2 ^ 127 - 1) ray.items }
    requires mults { AreWithin (2 ^ 127 - 1) mults.items }
    ensures { IfOk result (λ leaf. IsEmptyLeaf road.now range milp.now trail.items scale mults.items leaf) }
{
    let greatest = greatest_magnitude(ray.as_slice());
    let ray = narrowed(from_one(greatest), ray);
    if let Some(pairs) = dead_mults(alloc, milp, ray.mults.as_slice())? {
        return Ok(emptied_leaf(pairs));
    }
    let note = NodeNote::Limit {
        trail: Listed::new(trail),
        value: greatest,
    };
    let stop = Stop {
        note,
        scale,
        mults,
        rough: Vec::new(alloc),
    };
    stopped_leaf(alloc, road, range, milp, stop)
}

/// Multipliers as they are written down, where their dead value is above 0.
#[tactic(auto, using(crate::proofs::EmptyLemmas::dead_written, crate::proofs::EmptyLemmas::not_dead, crate::proofs::ProvingLemmas::few_multipliers))]
fn dead_mults(
    alloc: Global,
    milp: &Milp,
    mults: &[i128],
) -> Result<Option<Listed<(u32, i128)>>, AllocError>
    requires mults { AreMultipliers milp.now mults.now }
    ensures { IfOk result (λ pairs. AreDeadMults milp.now mults.now pairs) }
{
    let value = value_on(alloc, milp, 0, mults)?;
    if value > 0 {
        let pairs = written(alloc, mults)?;
        return Ok(Some(pairs));
    }
    Ok(None)
}

/// A number, or 1 where it is less.
fn from_one(x: i128) -> i128
    ensures { result ≡ int_max x (pos 1) }
{
    if x < 1 { 1 } else { x }
}

/// The leaf of a box with an optimum.
fn solve_optimum(
    alloc: Global,
    road: &Road,
    range: BoxRange,
    milp: &Milp,
    optimum: Optimum,
    best: &mut Option<Best>,
) -> Result<Work, AllocError>
    requires accepted { road_fault road.now ≡ None }
    requires fits { IsBoxOf road.now range }
    requires program { milp.now ≡ box_program road.now range }
    requires optimum { IsOptimum (box_program road.now range) (exchange_budget road.now) optimum.trail optimum.den optimum.point optimum.scale optimum.mults }
    requires numbers { AreProving milp.now optimum.scale optimum.mults }
    requires best { IsBest road.now best.old }
    ensures { IfOk result (λ leaf. IsSolvedBox road.now best.old range (record { leaf = leaf; best = best.new })) }
{
    let proved = prove_optimum(alloc, milp, &optimum)?;
    leaf_of_optimum(alloc, road, range, optimum, proved, best)
}

/// What the multipliers of an optimum prove.
fn prove_optimum(alloc: Global, milp: &Milp, optimum: &Optimum) -> Result<Proved, AllocError>
    requires { AreProving milp.now optimum.now.scale optimum.now.mults }
    ensures { IfOk result (λ proved. IsProvedOn milp.now optimum.now.scale optimum.now.mults proved) }
{
    let mults = copied(alloc, optimum.mults.as_slice())?;
    prove(alloc, milp, optimum.scale, mults)
}

/// The numbers in a vector of their own.
fn copied(alloc: Global, numbers: &[i128]) -> Result<Vec<i128>, AllocError>
    ensures { IfOk result (λ copy. copy.items ≡ numbers.now) }
{
    let mut copy = Vec::new(alloc);
    copy.extend_from_slice(numbers)?;
    Ok(copy)
}

/// The leaf of an optimum with what it proves: it waits to be split where it asks for a split, and else gives a plan.
#[tactic(auto, using(crate::proofs::EndLemmas::den_scale, crate::proofs::EndLemmas::waiting_solved, crate::proofs::EndLemmas::denominator_solved, crate::proofs::WholeLemmas::whole_solved, crate::proofs::SearchLemmas::cost_key))]
fn leaf_of_optimum(
    alloc: Global,
    road: &Road,
    range: BoxRange,
    optimum: Optimum,
    proved: Proved,
    best: &mut Option<Best>,
) -> Result<Work, AllocError>
    requires accepted { road_fault road.now ≡ None }
    requires fits { IsBoxOf road.now range }
    requires optimum { IsOptimumOf road.now range optimum proved }
    requires best { IsBest road.now best.old }
    ensures { IfOk result (λ leaf. IsSolvedBox road.now best.old range (record { leaf = leaf; best = best.new })) }
{
    if let Some(split) = asked_split(road, &range, optimum.den, optimum.point.as_slice()) {
        return Ok(waiting_leaf(range, split, Reason::Asked { optimum }, proved));
    }
    if optimum.den > GREATEST_SCALE {
        return past_plans(alloc, road, optimum, proved, best);
    }
    match plan_found(alloc, road, &range, optimum.den, optimum.point.as_slice()) {
        Ok(found) => Ok(whole_leaf(optimum, proved, found, best)),
        Err(error) => {
            drop(optimum);
            Err(error)
        }
    }
}

/// The leaf of an optimum that asks for no split and whose denominator is past those of plans: a plan that no certificate holds. Another
/// one near it may be the best one then.
fn past_plans(
    alloc: Global,
    road: &Road,
    optimum: Optimum,
    proved: Proved,
    best: &mut Option<Best>,
) -> Result<Work, AllocError>
    requires accepted { road_fault road.now ≡ None }
    requires best { IsBest road.now best.old }
    ensures leaf { IfOk result (λ leaf. grown_of leaf ≡ stopped_leaf proved (Limit optimum.trail optimum.den)) }
    ensures best { OnOk result (IsImproved road.now best.old best.new) }
{
    match look_at(alloc, road, &optimum, best) {
        Ok(()) => Ok(past_leaf(optimum, proved)),
        Err(error) => {
            drop(optimum);
            Err(error)
        }
    }
}

/// The leaf of an optimum whose denominator is past those of plans.
fn past_leaf(optimum: Optimum, proved: Proved) -> Work
    ensures { grown_of result ≡ stopped_leaf proved (Limit optimum.trail optimum.den) }
{
    let den = optimum.den;
    limit_leaf(optimum, proved, den)
}

/// A split of a box, chosen by about where a point stands.
fn split_at(road: &Road, range: &BoxRange, den: i128, point: &[i128]) -> Option<Split>
    requires accepted { road_fault road.now ≡ None }
    requires fits { IsBoxOf road.now range.now }
    requires den { pos 1 ≤ℤ den }
    ensures { IfSome result (λ split. IsSplitOf road.now range.now split) }
{
    let rough = Rough {
        unit: den,
        numbers: point,
    };
    free_split(road, range, rough)
}

/// A leaf that waits to be split.
fn waiting_leaf(range: BoxRange, split: Split, reason: Reason, proved: Proved) -> Work
    ensures { grown_of result ≡ waiting_leaf (record { range = range; split = split; reason = reason; proved = proved }) }
{
    Work::Waiting {
        leaf: Waiting {
            range,
            split,
            reason,
            proved,
        },
    }
}

/// A leaf whose box is proved empty.
fn emptied_leaf(mults: Listed<(u32, i128)>) -> Work
    ensures { grown_of result ≡ dead_leaf mults }
{
    Work::Dead { mults }
}

/// A leaf whose optimum is a plan.
fn done_leaf(proved: Proved) -> Work
    ensures { grown_of result ≡ whole_leaf proved }
{
    Work::Whole { proved }
}

/// The leaf of an optimum with a number past the limit.
fn limit_leaf(optimum: Optimum, proved: Proved, value: i128) -> Work
    ensures { grown_of result ≡ stopped_leaf proved (Limit optimum.trail value) }
{
    ended_leaf(proved, limit_note(optimum, value))
}

/// The note of an optimum with a number past the limit.
fn limit_note(optimum: Optimum, value: i128) -> NodeNote
    ensures { result ≡ Limit optimum.trail value }
{
    NodeNote::Limit {
        trail: optimum.trail,
        value,
    }
}

/// The plan of a point that asks for no split, with its cost.
#[tactic(auto, using(crate::proofs::PricedLemmas::priced_plan, crate::proofs::PricedLemmas::some_plan))]
fn plan_found(
    alloc: Global,
    road: &Road,
    range: &BoxRange,
    den: i128,
    point: &[i128],
) -> Result<Best, AllocError>
    requires accepted { road_fault road.now ≡ None }
    requires fits { IsBoxOf road.now range.now }
    requires den { IsScale den }
    requires point { IsPoint (box_program road.now range.now) den point.now }
    requires asked { AsksForNothing road.now den point.now }
    ensures { IfOk result (λ found. IsPricedBest road.now (box_program road.now range.now) den point.now found) }
{
    match plan_of(alloc, road, range, den, point)? {
        Some(plan) => Ok(priced(road, plan)),
        None => unreachable!(),
    }
}

/// An admissible plan with its cost.
pub(crate) fn priced(road: &Road, plan: Plan) -> Best
    requires accepted { road_fault road.now ≡ None }
    requires admissible { IsAdmissible road.now plan }
    requires den { IsScale plan.den }
    ensures plan { result.plan ≡ plan }
    ensures cost { HasValue result.cost (cost_of road.now plan) plan.den }
    ensures lowest { IsLowest result.cost }
{
    let cost = cost_of(road, &plan);
    match Frac::new(cost, plan.den) {
        Some(cost) => Best { plan, cost },
        None => unreachable!(),
    }
}

/// The cost of an admissible plan, over its denominator.
fn cost_of(road: &Road, plan: &Plan) -> i128
    requires accepted { road_fault road.now ≡ None }
    requires admissible { IsAdmissible road.now plan.now }
    requires den { IsScale plan.now.den }
    ensures value { result ≡ cost_of road.now plan.now }
    ensures width { unsigned_abs result ≤ 2 ^ 118 }
{
    match judge(road, plan) {
        Verdict::Admissible { cost } => cost,
        Verdict::Broken { .. } => unreachable!(),
    }
}

/// The leaf of an optimum that is a plan, which is the best one where it is cheaper: its bound is the plan's cost, unless a number
/// past the limit had to be narrowed.
#[tactic(auto, using(crate::proofs::WholeLemmas::whole_is, crate::proofs::WholeLemmas::past_is))]
fn whole_leaf(optimum: Optimum, proved: Proved, found: Best, best: &mut Option<Best>) -> Work
    requires scale { pos 1 ≤ℤ optimum.scale }
    requires within { All (λ y. unsigned_abs y < 2 ^ 127) optimum.mults }
    requires found { IsKey (found.cost.num, found.cost.den) }
    requires best { IsCostKey (best_cost best.old) }
    ensures { IsWholeLeaf optimum proved found best.old (record { leaf = result; best = best.new }) }
{
    *best = Some(cheaper(found, best.take()));
    match past_limit(optimum.scale, optimum.mults.as_slice()) {
        None => {
            drop(optimum);
            done_leaf(proved)
        }
        Some(value) => limit_leaf(optimum, proved, value),
    }
}

/// The cheaper of two plans, the old one where they cost as much.
#[tactic(auto, using(crate::proofs::WholeLemmas::keeps_old, crate::proofs::WholeLemmas::takes_found, crate::proofs::WholeLemmas::takes_first))]
pub(crate) fn cheaper(found: Best, old: Option<Best>) -> Best
    requires found { IsKey (found.cost.num, found.cost.den) }
    requires old { IsCostKey (best_cost old) }
    ensures { IsCheaper found old result }
{
    let Some(old) = old else {
        return found;
    };
    if is_at_most(
        (old.cost.num(), old.cost.den()),
        (found.cost.num(), found.cost.den()),
    ) {
        drop(found);
        old
    } else {
        drop(old);
        found
    }
}

// The plan of a certificate with its cost on a road.
ghost use Rattle.std.specs.Prelude.{◌≡◌, ◌^◌, ◌≤◌, None, IfOk, unsigned_abs};
ghost use Rattle.road_types.specs.Faults.{road_fault};
ghost use Rattle.numbers.specs.Fractions.{IsLowest, HasValue};
ghost use Rattle.plan_rules.specs.Rules.{IsAdmissible};
ghost use Rattle.plan_rules.specs.Costs.{cost_of};
ghost use Rattle.plan_text.specs.PlanText.{HasText};
ghost use Rattle.cert_text.specs.CertText.{IsStated};
ghost use Rattle.carried_bounds.specs.inside.Risen.{ArePriced, CanBePriced};

use numbers::Frac;
use plan_rules::{Piece, Plan, Verdict, judge};
use road_types::{Listed, Road};
use std::alloc::{AllocError, Global};

/// A plan and its cost, or neither.
#[derive(Drop)]
pub struct Priced {
    pub plan: Option<Plan>,
    pub cost: Option<Frac>,
}

/// A copy of the plan with its cost, where there is a plan.
pub(crate) fn price_plan(
    alloc: Global,
    road: &Road,
    plan: &Option<Plan>,
) -> Result<Priced, AllocError>
    requires accepted { road_fault road.now ≡ None }
    requires plan { CanBePriced road.now plan.now }
    ensures { IfOk result (λ priced. ArePriced road.now plan.now priced.plan priced.cost) }
{
    match plan {
        None => Ok(Priced {
            plan: None,
            cost: None,
        }),
        Some(plan) => {
            let cost = lowest_cost(road, plan);
            let copy = copied_plan(alloc, plan)?;
            Ok(Priced {
                plan: Some(copy),
                cost: Some(cost),
            })
        }
    }
}

/// The cost of an admissible plan, in lowest terms.
fn lowest_cost(road: &Road, plan: &Plan) -> Frac
    requires accepted { road_fault road.now ≡ None }
    requires text { HasText road.now plan.now }
    requires admissible { IsAdmissible road.now plan.now }
    ensures lowest { IsLowest result }
    ensures value { HasValue result (cost_of road.now plan.now) plan.now.den }
    ensures stated { IsStated result }
{
    let cost = cost_over(road, plan);
    match Frac::new(cost, plan.den) {
        Some(cost) => cost,
        None => unreachable!(),
    }
}

/// The cost of an admissible plan, over its denominator.
fn cost_over(road: &Road, plan: &Plan) -> i128
    requires accepted { road_fault road.now ≡ None }
    requires text { HasText road.now plan.now }
    requires admissible { IsAdmissible road.now plan.now }
    ensures value { result ≡ cost_of road.now plan.now }
    ensures width { unsigned_abs result ≤ 2 ^ 118 }
{
    match judge(road, plan) {
        Verdict::Admissible { cost } => cost,
        Verdict::Broken { .. } => unreachable!(),
    }
}

/// A copy of a plan.
fn copied_plan(alloc: Global, plan: &Plan) -> Result<Plan, AllocError>
    ensures { IfOk result (λ copy. copy ≡ plan.now) }
{
    let pieces: Vec<Piece> = Vec::from_slice(alloc, plan.pieces.as_slice())?;
    let cut = copied_table(alloc, plan.cut.as_slice())?;
    let fill = copied_table(alloc, plan.fill.as_slice())?;
    let right = copied_table(alloc, plan.right.as_slice())?;
    let left = copied_table(alloc, plan.left.as_slice())?;
    let roads = copied_table(alloc, plan.roads.as_slice())?;
    let opens: Vec<u8> = Vec::from_slice(alloc, plan.opens.as_slice())?;
    Ok(Plan {
        den: plan.den,
        pieces: Listed::new(pieces),
        cut,
        fill,
        right,
        left,
        roads,
        opens: Listed::new(opens),
    })
}

/// A copy of lists of numbers.
#[tactic(auto, using(crate::proofs::CopyLemmas::row_copied))]
fn copied_table(alloc: Global, rows: &[Listed<i128>]) -> Result<Listed<Listed<i128>>, AllocError>
    ensures { IfOk result (λ copy. copy ≡ rows.now) }
{
    let mut copy = Vec::new(alloc);
    for row in rows {
        let numbers = Vec::from_slice(alloc, row.as_slice())?;
        copy.push(Listed::new(numbers))?;
    }
    Ok(Listed::new(copy))
}

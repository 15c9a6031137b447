// `judge ROAD PLAN` on an accepted road.
ghost use Rattle.std.specs.Prelude.{◌≡◌, IfOk, None};
ghost use Rattle.road_types.specs.Faults.{road_fault};
ghost use Rattle.plan_rules.specs.Fits.{Fits};
ghost use Rattle.roadopt_program.specs.Judging.{OfPlan, OfPlanBytes};
ghost use Rattle.roadopt_program.specs.Printed.{plan_refused_line};

use crate::ending::{Ending, said};
use crate::{Status, lines};
use plan_rules::{Plan, Verdict, judge};
use plan_text::{TextErr, read_whole_plan};
use road_types::Road;
use std::alloc::{AllocError, Global};

/// The end for a plan that fits the road.
fn judge_plan(alloc: Global, road: &Road, plan: &Plan) -> Result<Ending, AllocError>
    requires accepted { road_fault road.now ≡ None }
    requires fits { Fits road.now plan.now }
    ensures { IfOk result (λ e. OfPlan road.now plan.now e.status e.output.items) }
{
    match judge(road, plan) {
        Verdict::Admissible { cost } => {
            let line = lines::cost_line(alloc, cost, plan.den)?;
            Ok(said(Status::Done, line))
        }
        Verdict::Broken { rule, stage, place } => {
            let line = lines::broken_line(alloc, rule, stage, place)?;
            Ok(said(Status::PlanBroken, line))
        }
    }
}

/// The end for bytes that are no plan of the road.
fn plan_refused(alloc: Global, line: usize) -> Result<Ending, AllocError>
    ensures status { IfOk result (λ e. e.status ≡ Status.PlanRefused) }
    ensures line { IfOk result (λ e. e.output.items ≡ plan_refused_line line) }
{
    let line = lines::plan_refused_line(alloc, line)?;
    Ok(said(Status::PlanRefused, line))
}

/// The end for the bytes of a plan's file.
pub(crate) fn judge_bytes(alloc: Global, road: &Road, bytes: &[u8]) -> Result<Ending, AllocError>
    requires { road_fault road.now ≡ None }
    ensures { IfOk result (λ e. OfPlanBytes road.now bytes.now e.status e.output.items) }
{
    match read_whole_plan(alloc, road, bytes) {
        Ok(plan) => judge_plan(alloc, road, &plan),
        Err(TextErr::Bad { line }) => plan_refused(alloc, line),
        Err(TextErr::NoMemory) => Err(AllocError),
    }
}

// Plans as points, and points as plans.
ghost use Rattle.std.specs.Prelude.{◌≡◌, None};
ghost use Rattle.road_types.specs.Faults.{road_fault};
ghost use Rattle.milp_builder.specs.Boxes.{IsBoxOf};
ghost use Rattle.plan_rules.specs.Fits.{Fits};

use crate::numbers_in::first_and_rest;
use crate::points::{cost_of_point, is_point};
use algebra::GREATEST_SCALE;
use milp_builder::{BoxRange, build, plan_of, point_of};
use named_boxes::file;
use plan_rules::{Plan, Verdict, judge};
use plan_text::{TextErr, read_whole_plan, write_plan};
use road_types::Road;
use std::alloc::{AllocError, Global};

/// The point of the plan in a file, the plan's cost over its denominator, and what the point costs in the box's program and
/// whether it is a point of that.
pub(crate) fn point_text(
    rt: &HostRuntime,
    road: &Road,
    range: &BoxRange,
    name: &str,
) -> Result<String, AllocError>
    requires accepted { road_fault road.now ≡ None }
    requires fits { IsBoxOf road.now range.now }
{
    let alloc = rt.alloc();
    let Some(bytes) = file(rt, name)? else {
        return String::from_str(alloc, "no file");
    };
    match read_whole_plan(alloc, road, bytes.as_slice()) {
        Ok(plan) => plan_point_text(alloc, road, range, &plan),
        Err(TextErr::NoMemory) => Err(AllocError),
        Err(TextErr::Bad { line }) => format!(in alloc; "no plan at line {line}"),
    }
}

fn plan_point_text(
    alloc: Global,
    road: &Road,
    range: &BoxRange,
    plan: &Plan,
) -> Result<String, AllocError>
    requires accepted { road_fault road.now ≡ None }
    requires fits { IsBoxOf road.now range.now }
    requires plan { Fits road.now plan.now }
{
    let Verdict::Admissible { cost } = judge(road, plan) else {
        return String::from_str(alloc, "no admissible plan");
    };
    let point = point_of(alloc, road, plan)?;
    let point = point.as_slice();
    let milp = build(alloc, road, range)?;
    let is_inside = is_point(&milp, plan.den, point);
    let in_rows = cost_of_point(&milp, point).unwrap_or(-1);
    format!(in alloc; "{point:?} cost {cost} in the rows {in_rows} a point {is_inside}")
}

/// The plan of a denominator and a point of a box's program.
pub(crate) fn plan_text(
    alloc: Global,
    road: &Road,
    range: &BoxRange,
    numbers: &str,
) -> Result<String, AllocError>
    requires accepted { road_fault road.now ≡ None }
    requires fits { IsBoxOf road.now range.now }
{
    let (den, point) = first_and_rest(alloc, numbers)?;
    let point = point.as_slice();
    let milp = build(alloc, road, range)?;
    if den < 1 || den > GREATEST_SCALE || !is_point(&milp, den, point) {
        return String::from_str(alloc, "no point");
    }
    match plan_of(alloc, road, range, den, point)? {
        Some(plan) => written(alloc, road, &plan),
        None => String::from_str(alloc, "no plan"),
    }
}

/// The text of a plan.
fn written(alloc: Global, road: &Road, plan: &Plan) -> Result<String, AllocError> {
    if !plan.fits(road) {
        return String::from_str(alloc, "a plan past all sizes");
    }
    let mut text = Vec::new(alloc);
    write_plan(alloc, road, plan, &mut text)?;
    String::from_utf8_lossy(alloc, text.as_slice())
}

// The plan of a point.
ghost use Rattle.std.specs.Prelude.{◌≡◌, IfOk, None, length};
ghost use Rattle.algebra.specs.Scale.{IsScale};
ghost use Rattle.programs.specs.Points.{IsPoint};
ghost use Rattle.road_types.specs.Faults.{road_fault};
ghost use Rattle.road_types.specs.WellFormed.{IsWellFormed};
ghost use Rattle.road_types.specs.Columns.{columns_of};
ghost use Rattle.road_points.specs.Shown.{HasWholeRemovals, HasExactVolumes};
ghost use Rattle.milp_builder.specs.Boxes.{IsBoxOf};
ghost use Rattle.milp_builder.specs.BoxPrograms.{box_program};
ghost use Rattle.milp_builder.specs.Comparing.{HasComparableVolumes};
ghost use Rattle.milp_builder.specs.FoundPlans.{IsPlanOfPoint, IsFoundPlan, PointsArePlans};
ghost use Rattle.milp_builder.specs.inside.ShownPlans.{IsShownPlan};

use crate::boxes::BoxRange;
use crate::showing::{other_volume, part_removal};
use crate::shown_plan::shown_plan;
use plan_rules::Plan;
use road_types::Road;
use std::alloc::{AllocError, Global};

/// The one admissible plan over a denominator whose point this is, for a point of a box's program: inside the box. None where a
/// removal is neither done nor undone at some stage, or some section's fill less its cut isn't the volume of its offset; such
/// a section has a breakpoint strictly inside its range of the box.
pub fn plan_of(
    alloc: Global,
    road: &Road,
    range: &BoxRange,
    den: i128,
    point: &[i128],
) -> Result<Option<Plan>, AllocError>
    requires accepted { road_fault road.now ≡ None }
    requires fits { IsBoxOf road.now range.now }
    requires den { IsScale den }
    requires point { IsPoint (box_program road.now range.now) den point.now }
    ensures found { IfOk result (λ plan. IsFoundPlan road.now range.now den point.now plan) }
    ensures points { PointsArePlans road.now }
{
    whole_plan(alloc, road, den, point)
}

/// The one admissible plan over a denominator whose point this is, for a point of a box's program with whole removals and exact
/// volumes: inside the box.
pub fn exact_plan(
    alloc: Global,
    road: &Road,
    range: &BoxRange,
    den: i128,
    point: &[i128],
) -> Result<Plan, AllocError>
    requires accepted { road_fault road.now ≡ None }
    requires fits { IsBoxOf road.now range.now }
    requires den { IsScale den }
    requires point { IsPoint (box_program road.now range.now) den point.now }
    requires whole { HasWholeRemovals road.now den point.now }
    requires exact { HasExactVolumes road.now den point.now }
    ensures { IfOk result (λ plan. IsPlanOfPoint road.now range.now den point.now plan) }
{
    shown_plan(alloc, road, den, point)
}

/// The plan that the point shows, where its removals are whole and its volumes exact.
fn whole_plan(
    alloc: Global,
    road: &Road,
    den: i128,
    point: &[i128],
) -> Result<Option<Plan>, AllocError>
    requires well_formed { IsWellFormed road.now }
    requires columns { length point.now ≡ length (columns_of road.now) }
    requires den { IsScale den }
    requires small { HasComparableVolumes road.now point.now }
    ensures { IfOk result (λ plan. IsShownPlan road.now den point.now plan) }
{
    if let Some(_at) = part_removal(road, den, point) {
        return Ok(None);
    }
    if let Some(_section) = other_volume(road, den, point) {
        return Ok(None);
    }
    let plan = shown_plan(alloc, road, den, point)?;
    Ok(Some(plan))
}

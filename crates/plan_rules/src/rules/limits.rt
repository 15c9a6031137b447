// Limits of segments, continuity at knots, grades at segments' ends, and fixed points.
ghost use Rattle.std.specs.Prelude.{◌↔◌, IsTrue, ◌-◌};
ghost use Rattle.road_types.specs.Numbered.{IsNumber};
ghost use Rattle.road_types.specs.Road.{segment_count, fixed_count};
ghost use Rattle.road_types.specs.WellFormed.{IsWellFormed};
ghost use Rattle.plan_rules.specs.Fits.{Fits};
ghost use Rattle.plan_rules.specs.Rules.{IsInLimits, IsContinuous, EndsInGrade, PassesFixedPoint, IsLimited};

use crate::entries::piece_at;
use crate::heights::{end_grade, end_height, height_on};
use crate::logic::both;
use crate::plan::Plan;
use crate::within::is_within;
use algebra::{opposite, same};
use road_types::Road;

/// Whether a segment's numbers are within the road's limits.
pub fn is_in_limits(road: &Road, plan: &Plan, segment: usize) -> bool
    requires well_formed { IsWellFormed road.now }
    requires fits { Fits road.now plan.now }
    ensures { IsTrue result ↔ IsInLimits road.now plan.now segment }
{
    let piece = piece_at(plan, segment);
    let height = is_within(road.low, road.high, plan.den, piece.a);
    let grade = is_within(road.grade.0, road.grade.1, plan.den, piece.b);
    let curve = is_within(opposite(road.curve), road.curve, plan.den, piece.c);
    both(both(height, grade), curve)
}

/// Whether the next segment begins with the height and the grade with which this one ends.
pub fn is_continuous(road: &Road, plan: &Plan, segment: usize) -> bool
    requires well_formed { IsWellFormed road.now }
    requires fits { Fits road.now plan.now }
    requires limited { IsLimited road.now plan.now }
    requires segment { IsNumber segment (segment_count road.now - 1) }
    ensures { IsTrue result ↔ IsContinuous road.now plan.now segment }
{
    let next = piece_at(plan, segment + 1);
    let height = same(next.a, end_height(road, plan, segment));
    let grade = same(next.b, end_grade(road, plan, segment));
    both(height, grade)
}

/// Whether the grade at a segment's end is within the road's limits.
pub fn ends_in_grade(road: &Road, plan: &Plan, segment: usize) -> bool
    requires well_formed { IsWellFormed road.now }
    requires fits { Fits road.now plan.now }
    requires limited { IsLimited road.now plan.now }
    requires segment { IsNumber segment (segment_count road.now) }
    ensures { IsTrue result ↔ EndsInGrade road.now plan.now segment }
{
    is_within(
        road.grade.0,
        road.grade.1,
        plan.den,
        end_grade(road, plan, segment),
    )
}

/// Whether the height at a fixed point is within its limits.
pub fn passes_fixed_point(road: &Road, plan: &Plan, number: usize) -> bool
    requires well_formed { IsWellFormed road.now }
    requires fits { Fits road.now plan.now }
    requires limited { IsLimited road.now plan.now }
    requires number { IsNumber number (fixed_count road.now) }
    ensures { IsTrue result ↔ PassesFixedPoint road.now plan.now number }
{
    let fixed = road.fixed_point(number);
    is_within(
        fixed.low,
        fixed.high,
        plan.den,
        height_on(road, plan, fixed.station),
    )
}

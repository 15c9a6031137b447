// Heights of a plan along the road, and how far it lies above the ground.
ghost use Rattle.std.specs.Prelude.{◌≡◌, ℤ, ◌^◌, ◌*ℤ◌, None, unsigned_abs, ◌≤◌};
ghost use Rattle.algebra.specs.Scale.{IsScale};
ghost use Rattle.road_types.specs.Numbered.{IsNumber};
ghost use Rattle.road_types.specs.Heights.{height_along, grade_along};
ghost use Rattle.road_types.specs.Road.{section_count, segment_count, section};
ghost use Rattle.road_types.specs.Faults.{road_fault};
ghost use Rattle.road_types.specs.WellFormed.{IsWellFormed, IsHeight, IsOnKnots};
ghost use Rattle.plan_rules.specs.Fits.{Fits};
ghost use Rattle.plan_rules.specs.Rules.{height_at, offset_of, end_height, end_grade, IsLimited};
ghost use Rattle.plan_rules.specs.inside.Widths.{IsSmallPiece};

use crate::entries::piece_at;
use crate::plan::{Piece, Plan};
use algebra::{minus, times};
use road_types::{Road, Section, grade_along, height_along};

/// The plan's height at a station between the first and the last knot, over the plan's denominator.
pub fn height_at(road: &Road, plan: &Plan, station: i64) -> i128
    requires accepted { road_fault road.now ≡ None }
    requires fits { Fits road.now plan.now }
    requires limited { IsLimited road.now plan.now }
    requires station { IsOnKnots road.now station }
    ensures { result ≡ height_at road.now plan.now station }
{
    height_on(road, plan, station)
}

/// How far the plan lies above the ground at a section, over the plan's denominator.
pub fn offset_of(road: &Road, plan: &Plan, section: usize) -> i128
    requires accepted { road_fault road.now ≡ None }
    requires fits { Fits road.now plan.now }
    requires limited { IsLimited road.now plan.now }
    requires section { IsNumber section (section_count road.now) }
    ensures { result ≡ offset_of road.now plan.now section }
{
    offset_at(road, plan, section)
}

/// The height at a station of an accepted road.
pub fn height_on(road: &Road, plan: &Plan, station: i64) -> i128
    requires well_formed { IsWellFormed road.now }
    requires fits { Fits road.now plan.now }
    requires limited { IsLimited road.now plan.now }
    requires station { IsOnKnots road.now station }
    ensures value { result ≡ height_at road.now plan.now station }
    ensures width { unsigned_abs result ≤ 2 ^ 96 }
{
    let segment = road.segment_of(station);
    piece_height(piece_at(plan, segment), road.steps_from(segment, station))
}

/// The offset at a section of an accepted road.
pub fn offset_at(road: &Road, plan: &Plan, section: usize) -> i128
    requires well_formed { IsWellFormed road.now }
    requires fits { Fits road.now plan.now }
    requires limited { IsLimited road.now plan.now }
    requires section { IsNumber section (section_count road.now) }
    ensures value { result ≡ offset_of road.now plan.now section }
{
    let section = road.section(section);
    minus(
        height_on(road, plan, section.station),
        ground_over(section, plan.den),
    )
}

/// The height of the ground at a section, over a denominator.
fn ground_over(section: &Section, den: i128) -> i128
    requires den { IsScale den }
    requires ground { IsHeight section.now.ground }
    ensures value { result ≡ den *ℤ section.now.ground }
    ensures width { unsigned_abs result ≤ 2 ^ 64 }
{
    times(den, i128::from(section.ground))
}

/// The height of a piece at so many steps from its start.
fn piece_height(piece: Piece, along: i64) -> i128
    requires small { IsSmallPiece piece }
    requires along { unsigned_abs along ≤ 2 ^ 17 }
    ensures value { result ≡ height_along piece.a piece.b piece.c along }
    ensures width { unsigned_abs result ≤ 2 ^ 96 }
{
    height_along(piece.a, piece.b, piece.c, along)
}

/// The grade of a piece at so many steps from its start.
fn piece_grade(piece: Piece, along: i64) -> i128
    requires small { IsSmallPiece piece }
    requires along { unsigned_abs along ≤ 2 ^ 17 }
    ensures { result ≡ grade_along piece.b piece.c along }
{
    grade_along(piece.b, piece.c, along)
}

/// The height at the end of a segment.
pub fn end_height(road: &Road, plan: &Plan, segment: usize) -> i128
    requires well_formed { IsWellFormed road.now }
    requires fits { Fits road.now plan.now }
    requires limited { IsLimited road.now plan.now }
    requires segment { IsNumber segment (segment_count road.now) }
    ensures { result ≡ end_height road.now plan.now segment }
{
    piece_height(piece_at(plan, segment), road.segment_length(segment))
}

/// The grade at the end of a segment.
pub fn end_grade(road: &Road, plan: &Plan, segment: usize) -> i128
    requires well_formed { IsWellFormed road.now }
    requires fits { Fits road.now plan.now }
    requires limited { IsLimited road.now plan.now }
    requires segment { IsNumber segment (segment_count road.now) }
    ensures { result ≡ end_grade road.now plan.now segment }
{
    piece_grade(piece_at(plan, segment), road.segment_length(segment))
}

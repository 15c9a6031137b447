// What the rows for heights and volumes ask of the sums of their terms.
ghost use Rattle.std.specs.Prelude.{None, ◌≡◌, ◌+◌, ◌*◌, ◌-◌, ◌++◌};
ghost use Rattle.algebra.specs.Numbered.{numbered, IsNumber};
ghost use Rattle.form_rows.specs.FormRows.{asked};
ghost use Rattle.road_types.specs.Faults.{road_fault};
ghost use Rattle.road_types.specs.Accepted.{IsAccepted};
ghost use Rattle.road_types.specs.Forms.{no_form};
ghost use Rattle.road_types.specs.Ranges.{AreHeightRanges};
ghost use Rattle.road_types.specs.Road.{section_count, segment_count, fixed_count};
ghost use Rattle.road_types.specs.RoadPrograms.{lines_in, section_row_count};
ghost use Rattle.road_types.specs.SectionForms.{offset_forms, continuity_forms, grade_end_forms, fixed_forms, volume_forms, section_forms};

use crate::numbers::opposite;
use crate::ranges::Ranges;
use crate::rights::volume_right;
use road_types::Road;
use term_store::Side;

/// What the row with this number, from 1, of those for heights and volumes asks of the sum of its terms: the side and the right
/// side.
pub fn section_side(road: &Road, ranges: &Ranges, row: usize) -> (Side, i64)
    requires accepted { road_fault road.now ≡ None }
    requires ranges { AreHeightRanges road.now ranges.now.heights }
    requires row { IsNumber row (section_row_count road.now) }
    ensures { result ≡ asked (numbered no_form (section_forms road.now (lines_in road.now ranges.now.heights)) row) }
{
    let count = road.sections.len();
    if row <= count {
        offset_side(road, row)
    } else {
        later_side(road, ranges, row - count)
    }
}

fn offset_side(road: &Road, row: usize) -> (Side, i64)
    requires { IsNumber row (section_count road.now) }
    ensures { result ≡ asked (numbered no_form (offset_forms road.now) row) }
{
    (Side::Equal, road.section(row).ground)
}

/// The same behind the rows of offsets.
fn later_side(road: &Road, ranges: &Ranges, row: usize) -> (Side, i64)
    requires accepted { IsAccepted road.now }
    requires ranges { AreHeightRanges road.now ranges.now.heights }
    requires row { IsNumber row
        (2 * (segment_count road.now - 1) + (2 * segment_count road.now + (2 * fixed_count road.now + 4 * section_count road.now))) }
    ensures { result ≡ asked (numbered no_form
        (continuity_forms road.now ++ (grade_end_forms road.now ++ (fixed_forms road.now ++ volume_forms road.now (lines_in road.now ranges.now.heights)))) row) }
{
    let count = 2 * (road.knots.len() - 2);
    if row <= count {
        continuity_side(road, row)
    } else {
        limit_side(road, ranges, row - count)
    }
}

fn continuity_side(road: &Road, row: usize) -> (Side, i64)
    requires { IsNumber row (2 * (segment_count road.now - 1)) }
    ensures { result ≡ asked (numbered no_form (continuity_forms road.now) row) }
{
    (Side::Equal, 0)
}

/// The same behind the rows of continuity.
fn limit_side(road: &Road, ranges: &Ranges, row: usize) -> (Side, i64)
    requires accepted { IsAccepted road.now }
    requires ranges { AreHeightRanges road.now ranges.now.heights }
    requires row { IsNumber row (2 * segment_count road.now + (2 * fixed_count road.now + 4 * section_count road.now)) }
    ensures { result ≡ asked (numbered no_form
        (grade_end_forms road.now ++ (fixed_forms road.now ++ volume_forms road.now (lines_in road.now ranges.now.heights))) row) }
{
    let count = 2 * (road.knots.len() - 1);
    if row <= count {
        grade_end_side(road, row)
    } else {
        last_side(road, ranges, row - count)
    }
}

fn grade_end_side(road: &Road, row: usize) -> (Side, i64)
    requires accepted { IsAccepted road.now }
    requires row { IsNumber row (2 * segment_count road.now) }
    ensures { result ≡ asked (numbered no_form (grade_end_forms road.now) row) }
{
    if (row - 1) % 2 == 0 {
        (Side::AtLeast, road.grade.0)
    } else {
        (Side::AtLeast, opposite(road.grade.1))
    }
}

/// The same behind the rows of grade ends.
fn last_side(road: &Road, ranges: &Ranges, row: usize) -> (Side, i64)
    requires accepted { IsAccepted road.now }
    requires ranges { AreHeightRanges road.now ranges.now.heights }
    requires row { IsNumber row (2 * fixed_count road.now + 4 * section_count road.now) }
    ensures { result ≡ asked (numbered no_form (fixed_forms road.now ++ volume_forms road.now (lines_in road.now ranges.now.heights)) row) }
{
    let count = 2 * road.fixed.len();
    if row <= count {
        fixed_side(road, row)
    } else {
        volume_side(road, ranges, row - count)
    }
}

fn fixed_side(road: &Road, row: usize) -> (Side, i64)
    requires accepted { IsAccepted road.now }
    requires row { IsNumber row (2 * fixed_count road.now) }
    ensures { result ≡ asked (numbered no_form (fixed_forms road.now) row) }
{
    let point = road.fixed_point((row - 1) / 2 + 1);
    if (row - 1) % 2 == 0 {
        (Side::AtLeast, point.low)
    } else {
        (Side::AtLeast, opposite(point.high))
    }
}

fn volume_side(road: &Road, ranges: &Ranges, row: usize) -> (Side, i64)
    requires accepted { IsAccepted road.now }
    requires ranges { AreHeightRanges road.now ranges.now.heights }
    requires row { IsNumber row (4 * section_count road.now) }
    ensures { result ≡ asked (numbered no_form (volume_forms road.now (lines_in road.now ranges.now.heights)) row) }
{
    let number = (row - 1) / 4 + 1;
    (
        Side::AtLeast,
        volume_right(road, ranges, number, (row - 1) % 4),
    )
}

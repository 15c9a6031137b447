// The rows for heights and grades.
ghost use Rattle.std.specs.Prelude.{◌≡◌, ◌<◌, ◌≤◌, ◌+◌, ◌*◌, ◌-◌, [], ◌∷◌, length};
ghost use Rattle.algebra.specs.Numbered.{IsNumber};
ghost use Rattle.form_rows.specs.FormRows.{form_terms, forms_terms, Grew};
ghost use Rattle.road_types.specs.RoadPrograms.{terms_of};
ghost use Rattle.road_types.specs.Accepted.{IsAccepted};
ghost use Rattle.road_types.specs.Columns.{column_count};
ghost use Rattle.road_types.specs.Road.{section as section_of, section_count, segment_count, fixed_count, fixed_point};
ghost use Rattle.road_types.specs.SectionForms.{grade_entries, station_entries, offset_form, offset_forms, next_height_form, next_grade_form, continuity_forms, grade_end_forms, fixed_forms};
ghost use Rattle.road_types.specs.Forms.{negated};
ghost use Rattle.road_types.specs.Heights.{segment_length};
ghost use Rattle.road_types.specs.WellFormed.{IsOnKnots};

use crate::numbers::{double, opposite, square};
use form_rows::FormRow;
use road_types::{Column, Road};
use term_store::Rows;

/// The station of a section.
fn section_station(road: &Road, section: usize) -> i64
    requires accepted { IsAccepted road.now }
    requires section { IsNumber section (section_count road.now) }
    ensures value { result ≡ (section_of road.now section).station }
    ensures on_knots { IsOnKnots road.now result }
{
    road.section(section).station
}

/// The row that joins a section's offset to its segment.
fn offset_row(road: &Road, section: usize, row: &mut FormRow, rows: &mut Rows<i64>)
    requires accepted { IsAccepted road.now }
    requires section { IsNumber section (section_count road.now) }
    requires free { length rows.old.rows < rows.old.room }
    requires width { column_count road.now ≤ rows.old.width }
    ensures { Grew rows.old rows.new (form_terms road.now (offset_form road.now section) ∷ []) }
{
    let station = section_station(road, section);
    let segment = road.segment_of(station);
    let s = road.steps_from(segment, station);
    row.clear();
    row.add_all(
        road,
        &[
            (Column::A { segment }, 1),
            (Column::B { segment }, s),
            (Column::C { segment }, square(s)),
            (Column::Offset { section }, -1),
        ],
    );
    row.put(rows);
}

/// The rows that join offsets to segments.
pub(crate) fn offset_rows(road: &Road, row: &mut FormRow, rows: &mut Rows<i64>)
    requires accepted { IsAccepted road.now }
    requires free { length rows.old.rows + section_count road.now ≤ rows.old.room }
    requires width { column_count road.now ≤ rows.old.width }
    ensures { Grew rows.old rows.new (forms_terms road.now (offset_forms road.now)) }
{
    for before in 0..road.sections.len() {
        offset_row(road, before + 1, row, rows);
    }
}

/// The row by which the next segment begins with the height with which a segment ends.
fn next_height_row(road: &Road, segment: usize, row: &mut FormRow, rows: &mut Rows<i64>)
    requires accepted { IsAccepted road.now }
    requires segment { IsNumber segment (segment_count road.now) }
    requires free { length rows.old.rows < rows.old.room }
    requires width { column_count road.now ≤ rows.old.width }
    ensures { Grew rows.old rows.new (form_terms road.now (next_height_form road.now segment) ∷ []) }
{
    let s = road.segment_length(segment);
    let next = segment + 1;
    row.clear();
    row.add_all(
        road,
        &[
            (Column::A { segment }, 1),
            (Column::B { segment }, s),
            (Column::C { segment }, square(s)),
            (Column::A { segment: next }, -1),
        ],
    );
    row.put(rows);
}

/// The row by which the next segment begins with the grade with which a segment ends.
fn next_grade_row(road: &Road, segment: usize, row: &mut FormRow, rows: &mut Rows<i64>)
    requires accepted { IsAccepted road.now }
    requires segment { IsNumber segment (segment_count road.now) }
    requires free { length rows.old.rows < rows.old.room }
    requires width { column_count road.now ≤ rows.old.width }
    ensures { Grew rows.old rows.new (form_terms road.now (next_grade_form road.now segment) ∷ []) }
{
    let s = road.segment_length(segment);
    let next = segment + 1;
    row.clear();
    row.add_all(
        road,
        &[
            (Column::B { segment }, 1),
            (Column::C { segment }, double(s)),
            (Column::B { segment: next }, -1),
        ],
    );
    row.put(rows);
}

/// The rows that make heights and grades continuous at inner knots.
pub(crate) fn continuity_rows(road: &Road, row: &mut FormRow, rows: &mut Rows<i64>)
    requires accepted { IsAccepted road.now }
    requires free { length rows.old.rows + 2 * (segment_count road.now - 1) ≤ rows.old.room }
    requires width { column_count road.now ≤ rows.old.width }
    ensures { Grew rows.old rows.new (forms_terms road.now (continuity_forms road.now)) }
{
    for before in 0..road.knots.len() - 2 {
        next_height_row(road, before + 1, row, rows);
        next_grade_row(road, before + 1, row, rows);
    }
}

/// The row that asks a least grade at a segment's end.
fn least_grade_row(road: &Road, segment: usize, row: &mut FormRow, rows: &mut Rows<i64>)
    requires accepted { IsAccepted road.now }
    requires segment { IsNumber segment (segment_count road.now) }
    requires free { length rows.old.rows < rows.old.room }
    requires width { column_count road.now ≤ rows.old.width }
    ensures { Grew rows.old rows.new
        (terms_of road.now (grade_entries segment (segment_length road.now.knots segment)) ∷ []) }
{
    let s = road.segment_length(segment);
    row.clear();
    row.add_all(
        road,
        &[
            (Column::B { segment }, 1),
            (Column::C { segment }, double(s)),
        ],
    );
    row.put(rows);
}

/// The row that asks a greatest grade at a segment's end.
fn greatest_grade_row(road: &Road, segment: usize, row: &mut FormRow, rows: &mut Rows<i64>)
    requires accepted { IsAccepted road.now }
    requires segment { IsNumber segment (segment_count road.now) }
    requires free { length rows.old.rows < rows.old.room }
    requires width { column_count road.now ≤ rows.old.width }
    ensures { Grew rows.old rows.new
        (terms_of road.now (negated (grade_entries segment (segment_length road.now.knots segment))) ∷ []) }
{
    let s = road.segment_length(segment);
    row.clear();
    row.add_all(
        road,
        &[
            (Column::B { segment }, -1),
            (Column::C { segment }, opposite(double(s))),
        ],
    );
    row.put(rows);
}

/// The rows that limit the grade at the end of each segment.
pub(crate) fn grade_end_rows(road: &Road, row: &mut FormRow, rows: &mut Rows<i64>)
    requires accepted { IsAccepted road.now }
    requires free { length rows.old.rows + 2 * segment_count road.now ≤ rows.old.room }
    requires width { column_count road.now ≤ rows.old.width }
    ensures { Grew rows.old rows.new (forms_terms road.now (grade_end_forms road.now)) }
{
    for before in 0..road.knots.len() - 1 {
        least_grade_row(road, before + 1, row, rows);
        greatest_grade_row(road, before + 1, row, rows);
    }
}

/// The station of a fixed point.
fn point_station(road: &Road, point: usize) -> i64
    requires accepted { IsAccepted road.now }
    requires point { IsNumber point (fixed_count road.now) }
    ensures value { result ≡ (fixed_point road.now point).station }
    ensures on_knots { IsOnKnots road.now result }
{
    road.fixed_point(point).station
}

/// The row that asks a least height at a fixed point.
fn least_height_row(road: &Road, point: usize, row: &mut FormRow, rows: &mut Rows<i64>)
    requires accepted { IsAccepted road.now }
    requires point { IsNumber point (fixed_count road.now) }
    requires free { length rows.old.rows < rows.old.room }
    requires width { column_count road.now ≤ rows.old.width }
    ensures { Grew rows.old rows.new (terms_of road.now (station_entries road.now (fixed_point road.now point).station) ∷ []) }
{
    let station = point_station(road, point);
    let segment = road.segment_of(station);
    let s = road.steps_from(segment, station);
    row.clear();
    row.add_all(
        road,
        &[
            (Column::A { segment }, 1),
            (Column::B { segment }, s),
            (Column::C { segment }, square(s)),
        ],
    );
    row.put(rows);
}

/// The row that asks a greatest height at a fixed point.
fn greatest_height_row(road: &Road, point: usize, row: &mut FormRow, rows: &mut Rows<i64>)
    requires accepted { IsAccepted road.now }
    requires point { IsNumber point (fixed_count road.now) }
    requires free { length rows.old.rows < rows.old.room }
    requires width { column_count road.now ≤ rows.old.width }
    ensures { Grew rows.old rows.new (terms_of road.now (negated (station_entries road.now (fixed_point road.now point).station)) ∷ []) }
{
    let station = point_station(road, point);
    let segment = road.segment_of(station);
    let s = road.steps_from(segment, station);
    row.clear();
    row.add_all(
        road,
        &[
            (Column::A { segment }, -1),
            (Column::B { segment }, opposite(s)),
            (Column::C { segment }, opposite(square(s))),
        ],
    );
    row.put(rows);
}

/// The rows of fixed points.
pub(crate) fn fixed_rows(road: &Road, row: &mut FormRow, rows: &mut Rows<i64>)
    requires accepted { IsAccepted road.now }
    requires free { length rows.old.rows + 2 * fixed_count road.now ≤ rows.old.room }
    requires width { column_count road.now ≤ rows.old.width }
    ensures { Grew rows.old rows.new (forms_terms road.now (fixed_forms road.now)) }
{
    for before in 0..road.fixed.len() {
        least_height_row(road, before + 1, row, rows);
        greatest_height_row(road, before + 1, row, rows);
    }
}

// The rows that keep a section's volume between its lines.
ghost use Rattle.std.specs.Prelude.{◌≡◌, ◌<◌, ◌≤◌, ◌+◌, ◌*◌, ◌^◌, [], ◌∷◌, ◌++◌, length, unsigned_abs};
ghost use Rattle.algebra.specs.Lists.{flat_to};
ghost use Rattle.algebra.specs.Numbered.{IsNumber};
ghost use Rattle.form_rows.specs.FormRows.{forms_terms, Grew};
ghost use Rattle.road_types.specs.Accepted.{IsAccepted};
ghost use Rattle.road_types.specs.Columns.{column_count};
ghost use Rattle.road_types.specs.Forms.{negated};
ghost use Rattle.road_types.specs.Ranges.{AreHeightRanges};
ghost use Rattle.road_types.specs.Road.{section, section_count};
ghost use Rattle.road_types.specs.RoadPrograms.{terms_of, lines_in};
ghost use Rattle.road_types.specs.SectionForms.{volume_entries, lines_forms, volume_forms};
ghost use Rattle.road_types.specs.declared.column.Column.TheVariants.{Offset, Cut, Fill};

use crate::numbers::opposite;
use crate::ranges::Ranges;
use crate::rights::section_slopes;
use form_rows::FormRow;
use road_types::{Column, Road};
use term_store::Rows;

/// Adds cut and fill of a section in all stages, with one coefficient each.
fn add_moved(road: &Road, section: usize, cut: i64, fill: i64, row: &mut FormRow)
    requires accepted { IsAccepted road.now }
    requires room { length row.old ≤ 60 }
    ensures { row.new ≡ row.old
        ++ terms_of road.now (flat_to (λ t. (Cut section t, cut) ∷ (Fill section t, fill) ∷ []) road.now.stages) }
{
    for before in 0..road.stages {
        let stage = before + 1;
        row.add_all(
            road,
            &[
                (Column::Cut { section, stage }, cut),
                (Column::Fill { section, stage }, fill),
            ],
        );
    }
}

/// A row of a section's offset, and its cut and fill in all stages.
fn line_row(
    road: &Road,
    section: usize,
    slope: i64,
    cut: i64,
    fill: i64,
    row: &mut FormRow,
    rows: &mut Rows<i64>,
)
    requires accepted { IsAccepted road.now }
    requires free { length rows.old.rows < rows.old.room }
    requires width { column_count road.now ≤ rows.old.width }
    ensures { Grew rows.old rows.new (terms_of road.now
        ((Offset section, slope) ∷ flat_to (λ t. (Cut section t, cut) ∷ (Fill section t, fill) ∷ []) road.now.stages) ∷ []) }
{
    row.clear();
    row.add_all(road, &[(Column::Offset { section }, slope)]);
    add_moved(road, section, cut, fill, row);
    row.put(rows);
}

/// The row by which the volume lies above a line of this slope.
fn above_row(road: &Road, section: usize, slope: i64, row: &mut FormRow, rows: &mut Rows<i64>)
    requires accepted { IsAccepted road.now }
    requires slope { unsigned_abs slope ≤ 2 ^ 60 }
    requires free { length rows.old.rows < rows.old.room }
    requires width { column_count road.now ≤ rows.old.width }
    ensures { Grew rows.old rows.new (terms_of road.now (volume_entries road.now section slope) ∷ []) }
{
    line_row(road, section, opposite(slope), -1, 1, row, rows);
}

/// The row by which the volume lies below a line of this slope.
fn below_row(road: &Road, section: usize, slope: i64, row: &mut FormRow, rows: &mut Rows<i64>)
    requires accepted { IsAccepted road.now }
    requires slope { unsigned_abs slope ≤ 2 ^ 60 }
    requires free { length rows.old.rows < rows.old.room }
    requires width { column_count road.now ≤ rows.old.width }
    ensures { Grew rows.old rows.new (terms_of road.now (negated (volume_entries road.now section slope)) ∷ []) }
{
    line_row(road, section, slope, 1, -1, row, rows);
}

/// The four rows of a section's lines.
fn lines_rows(road: &Road, ranges: &Ranges, section: usize, row: &mut FormRow, rows: &mut Rows<i64>)
    requires accepted { IsAccepted road.now }
    requires ranges { AreHeightRanges road.now ranges.now.heights }
    requires section { IsNumber section (section_count road.now) }
    requires free { length rows.old.rows + 4 ≤ rows.old.room }
    requires width { column_count road.now ≤ rows.old.width }
    ensures { Grew rows.old rows.new
        (forms_terms road.now (lines_forms road.now section (lines_in road.now ranges.now.heights section))) }
{
    let slopes = section_slopes(road, ranges, section);
    above_row(road, section, slopes.least, row, rows);
    below_row(road, section, slopes.greatest, row, rows);
    below_row(road, section, slopes.least, row, rows);
    above_row(road, section, slopes.greatest, row, rows);
}

/// The rows of all sections' lines.
pub(crate) fn volume_rows(road: &Road, ranges: &Ranges, row: &mut FormRow, rows: &mut Rows<i64>)
    requires accepted { IsAccepted road.now }
    requires ranges { AreHeightRanges road.now ranges.now.heights }
    requires free { length rows.old.rows + 4 * section_count road.now ≤ rows.old.room }
    requires width { column_count road.now ≤ rows.old.width }
    ensures { Grew rows.old rows.new (forms_terms road.now (volume_forms road.now (lines_in road.now ranges.now.heights))) }
{
    for before in 0..road.sections.len() {
        lines_rows(road, ranges, before + 1, row, rows);
    }
}

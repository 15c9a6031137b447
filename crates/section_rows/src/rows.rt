// All rows for heights and volumes.
ghost use Rattle.std.specs.Prelude.{None, ◌≡◌, ◌+◌, ◌≤◌, length, OnOk, OnErr};
ghost use Rattle.form_rows.specs.FormRows.{forms_terms, Grew};
ghost use Rattle.road_types.specs.Faults.{road_fault};
ghost use Rattle.road_types.specs.Accepted.{IsAccepted};
ghost use Rattle.road_types.specs.Columns.{column_count};
ghost use Rattle.road_types.specs.Ranges.{AreHeightRanges};
ghost use Rattle.road_types.specs.RoadPrograms.{lines_in, section_row_count};
ghost use Rattle.road_types.specs.SectionForms.{section_forms};

use crate::heights::{continuity_rows, fixed_rows, grade_end_rows, offset_rows};
use crate::ranges::Ranges;
use crate::volumes::volume_rows;
use form_rows::FormRow;
use road_types::Road;
use std::alloc::{AllocError, Global};
use term_store::Rows;

/// Puts the rows for heights and volumes behind the others, the volumes over these ranges. Room for them is asked for, and a
/// width of at least the road's columns. `AllocError` where the memory for one row in the making can't be had; the rows are
/// then as before.
pub fn section_rows(
    alloc: Global,
    road: &Road,
    ranges: &Ranges,
    rows: &mut Rows<i64>,
) -> Result<(), AllocError>
    requires accepted { road_fault road.now ≡ None }
    requires ranges { AreHeightRanges road.now ranges.now.heights }
    requires free { length rows.old.rows + section_row_count road.now ≤ rows.old.room }
    requires width { column_count road.now ≤ rows.old.width }
    ensures ok { OnOk result
        (Grew rows.old rows.new (forms_terms road.now (section_forms road.now (lines_in road.now ranges.now.heights)))) }
    ensures err { OnErr result (rows.new ≡ rows.old) }
{
    let mut row = FormRow::new(alloc)?;
    put_rows(road, ranges, &mut row, rows);
    Ok(())
}

/// Puts the rows, made in a row that has its memory.
fn put_rows(road: &Road, ranges: &Ranges, row: &mut FormRow, rows: &mut Rows<i64>)
    requires accepted { IsAccepted road.now }
    requires ranges { AreHeightRanges road.now ranges.now.heights }
    requires free { length rows.old.rows + section_row_count road.now ≤ rows.old.room }
    requires width { column_count road.now ≤ rows.old.width }
    ensures { Grew rows.old rows.new (forms_terms road.now (section_forms road.now (lines_in road.now ranges.now.heights))) }
{
    offset_rows(road, row, rows);
    continuity_rows(road, row, rows);
    grade_end_rows(road, row, rows);
    fixed_rows(road, row, rows);
    volume_rows(road, ranges, row, rows);
}

// The mixed-integer program of a box.
ghost use Rattle.std.specs.Prelude.{◌≡◌, IfOk, map, None};
ghost use Rattle.algebra.specs.Numbered.{numbered, IsNumber};
ghost use Rattle.form_rows.specs.FormRows.{asked, forms_terms};
ghost use Rattle.road_types.specs.Accepted.{IsAccepted};
ghost use Rattle.road_types.specs.Columns.{columns_of};
ghost use Rattle.road_types.specs.Faults.{road_fault};
ghost use Rattle.road_types.specs.Forms.{no_form};
ghost use Rattle.road_types.specs.Ranges.{AreHeightRanges};
ghost use Rattle.road_types.specs.RoadPrograms.{forms_of, lines_in, section_row_count, row_count};
ghost use Rattle.milp_builder.specs.Boxes.{IsBoxOf};
ghost use Rattle.milp_builder.specs.BoxPrograms.{box_program};

use crate::bounds::{column_bounds, column_costs};
use crate::boxes::BoxRange;
use crate::kinds::columns_of;
use haul_rows::{haul_rows, haul_side};
use programs::Milp;
use road_types::{Column, Listed, Road};
use section_rows::{Ranges, section_rows, section_side};
use std::alloc::{AllocError, Global};
use term_store::{Rows, Side};

/// The rows, bounds and costs of a box of the road.
pub fn build(alloc: Global, road: &Road, range: &BoxRange) -> Result<Milp, AllocError>
    requires accepted { road_fault road.now ≡ None }
    requires fits { IsBoxOf road.now range.now }
    ensures { IfOk result (λ milp. milp ≡ box_program road.now range.now) }
{
    build_accepted(alloc, road, range)
}

fn build_accepted(alloc: Global, road: &Road, range: &BoxRange) -> Result<Milp, AllocError>
    requires faultless { road_fault road.now ≡ None }
    requires accepted { IsAccepted road.now }
    requires fits { IsBoxOf road.now range.now }
    ensures { IfOk result (λ milp. milp ≡ box_program road.now range.now) }
{
    let ranges = ranges_of(alloc, range)?;
    let kinds = columns_of(alloc, road)?;
    build_over(alloc, road, range, &ranges, kinds.as_slice())
}

/// The program of a box of these ranges, over the kinds of column that the road has.
fn build_over(
    alloc: Global,
    road: &Road,
    range: &BoxRange,
    ranges: &Ranges,
    kinds: &[Column],
) -> Result<Milp, AllocError>
    requires faultless { road_fault road.now ≡ None }
    requires accepted { IsAccepted road.now }
    requires fits { IsBoxOf road.now range.now }
    requires ranges { ranges.now.heights ≡ range.now.heights }
    requires kinds { kinds.now ≡ columns_of road.now }
    ensures { IfOk result (λ milp. milp ≡ box_program road.now range.now) }
{
    let bounds = column_bounds(alloc, road, range, kinds)?;
    let costs = column_costs(alloc, road, kinds)?;
    let (rows, along) = box_rows(alloc, road, ranges)?;
    let sides = match sides_of(alloc, road, ranges, along) {
        Ok(sides) => sides,
        Err(error) => {
            drop(rows);
            return Err(error);
        }
    };
    let rights = match rights_of(alloc, road, ranges, along) {
        Ok(rights) => rights,
        Err(error) => {
            drop(rows);
            return Err(error);
        }
    };
    Ok(Milp::new(rows, sides, rights, bounds, costs))
}

fn ranges_of(alloc: Global, range: &BoxRange) -> Result<Ranges, AllocError>
    ensures { IfOk result (λ ranges. ranges.heights ≡ range.now.heights) }
{
    let heights = Vec::from_slice(alloc, range.heights.as_slice())?;
    Ok(Ranges {
        heights: Listed::new(heights),
    })
}

/// The rows, and how many of them are for heights and volumes.
fn box_rows(alloc: Global, road: &Road, ranges: &Ranges) -> Result<(Rows<i64>, usize), AllocError>
    requires faultless { road_fault road.now ≡ None }
    requires accepted { IsAccepted road.now }
    requires ranges { AreHeightRanges road.now ranges.now.heights }
    ensures rows { IfOk result (λ made. made.0.rows ≡ forms_terms road.now (forms_of road.now (lines_in road.now ranges.now.heights))) }
    ensures along { IfOk result (λ made. made.1 ≡ section_row_count road.now) }
{
    let mut rows = Rows::new(alloc, road.row_count(), road.column_count())?;
    section_rows(alloc, road, ranges, &mut rows)?;
    let along = rows.count();
    haul_rows(alloc, road, &mut rows)?;
    Ok((rows, along))
}

fn sides_of(
    alloc: Global,
    road: &Road,
    ranges: &Ranges,
    along: usize,
) -> Result<Vec<Side>, AllocError>
    requires faultless { road_fault road.now ≡ None }
    requires accepted { IsAccepted road.now }
    requires ranges { AreHeightRanges road.now ranges.now.heights }
    requires along { along ≡ section_row_count road.now }
    ensures { IfOk result (λ sides. sides.items ≡ map (λ form. form.side) (forms_of road.now (lines_in road.now ranges.now.heights))) }
{
    let mut sides = Vec::new(alloc);
    for before in 0..road.row_count() {
        let (side, _right) = row_side(road, ranges, along, before + 1);
        sides.push(side)?;
    }
    Ok(sides)
}

fn rights_of(
    alloc: Global,
    road: &Road,
    ranges: &Ranges,
    along: usize,
) -> Result<Vec<i64>, AllocError>
    requires faultless { road_fault road.now ≡ None }
    requires accepted { IsAccepted road.now }
    requires ranges { AreHeightRanges road.now ranges.now.heights }
    requires along { along ≡ section_row_count road.now }
    ensures { IfOk result (λ rights. rights.items ≡ map (λ form. form.right) (forms_of road.now (lines_in road.now ranges.now.heights))) }
{
    let mut rights = Vec::new(alloc);
    for before in 0..road.row_count() {
        let (_side, right) = row_side(road, ranges, along, before + 1);
        rights.push(right)?;
    }
    Ok(rights)
}

/// What a row asks of the sum of its terms, where so many rows are for heights and volumes.
fn row_side(road: &Road, ranges: &Ranges, along: usize, row: usize) -> (Side, i64)
    requires faultless { road_fault road.now ≡ None }
    requires accepted { IsAccepted road.now }
    requires ranges { AreHeightRanges road.now ranges.now.heights }
    requires along { along ≡ section_row_count road.now }
    requires row { IsNumber row (row_count road.now) }
    ensures { result ≡ asked (numbered no_form (forms_of road.now (lines_in road.now ranges.now.heights)) row) }
{
    if row <= along {
        section_side(road, ranges, row)
    } else {
        haul_side(road, row)
    }
}

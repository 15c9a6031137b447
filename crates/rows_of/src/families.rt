// The rows of each family, made apart.
ghost use Rattle.std.specs.Prelude.{◌≡◌, None};
ghost use Rattle.road_types.specs.Accepted.{IsAccepted};
ghost use Rattle.road_types.specs.Faults.{road_fault};
ghost use Rattle.road_types.specs.Ranges.{AreHeightRanges};
ghost use Rattle.milp_builder.specs.Boxes.{IsBoxOf};

use haul_rows::haul_rows;
use milp_builder::BoxRange;
use road_types::{Listed, Road};
use section_rows::{Ranges, section_rows};
use std::alloc::{AllocError, Global};
use term_store::Rows;

/// How many rows are made for heights and volumes, and how many for hauls.
pub(crate) fn families_text(
    alloc: Global,
    road: &Road,
    range: &BoxRange,
) -> Result<String, AllocError>
    requires accepted { road_fault road.now ≡ None }
    requires fits { IsBoxOf road.now range.now }
{
    let heights = Vec::from_slice(alloc, range.heights.as_slice())?;
    let ranges = Ranges {
        heights: Listed::new(heights),
    };
    let for_sections = rows_for_sections(alloc, road, &ranges)?;
    let for_hauls = rows_for_hauls(alloc, road)?;
    format!(in alloc; "section rows {for_sections} haul rows {for_hauls}")
}

fn rows_for_sections(alloc: Global, road: &Road, ranges: &Ranges) -> Result<usize, AllocError>
    requires faultless { road_fault road.now ≡ None }
    requires accepted { IsAccepted road.now }
    requires ranges { AreHeightRanges road.now ranges.now.heights }
{
    let mut rows = Rows::new(alloc, road.row_count(), road.column_count())?;
    section_rows(alloc, road, ranges, &mut rows)?;
    Ok(rows.count())
}

fn rows_for_hauls(alloc: Global, road: &Road) -> Result<usize, AllocError>
    requires faultless { road_fault road.now ≡ None }
    requires accepted { IsAccepted road.now }
{
    let mut rows = Rows::new(alloc, road.row_count(), road.column_count())?;
    haul_rows(alloc, road, &mut rows)?;
    Ok(rows.count())
}

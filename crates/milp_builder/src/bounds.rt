// Bounds and costs of the columns of a box's program.
ghost use Rattle.std.specs.Prelude.{◌≡◌, ◌==◌, if◌then◌else◌, IfOk, map, pos};
ghost use Rattle.std.specs.List.{All};
ghost use Rattle.road_types.specs.Numbered.{IsNumber};
ghost use Rattle.road_types.specs.Road.{block, block_count};
ghost use Rattle.road_types.specs.WellFormed.{IsWellFormed};
ghost use Rattle.road_types.specs.Columns.{bounds_of, unit_cost, opened_bounds};
ghost use Rattle.road_points.specs.ColumnKinds.{IsKindOf};
ghost use Rattle.milp_builder.specs.Boxes.{IsBoxOf};

use crate::boxes::BoxRange;
use crate::splits::{height_range, opening_range};
use road_types::{Column, Road};
use std::alloc::{AllocError, Global};

/// The least and the greatest value in each column.
pub fn column_bounds(
    alloc: Global,
    road: &Road,
    range: &BoxRange,
    kinds: &[Column],
) -> Result<Vec<(i64, i64)>, AllocError>
    requires well_formed { IsWellFormed road.now }
    requires fits { IsBoxOf road.now range.now }
    requires kinds { All (IsKindOf road.now) kinds.now }
    ensures { IfOk result (λ bounds. bounds.items ≡ map (bounds_of road.now range.now.heights range.now.opens) kinds.now) }
{
    let mut bounds = Vec::new(alloc);
    for kind in kinds {
        bounds.push(bounds_of(road, range, *kind))?;
    }
    Ok(bounds)
}

/// The cost of a unit in each column.
pub fn column_costs(alloc: Global, road: &Road, kinds: &[Column]) -> Result<Vec<i64>, AllocError>
    requires well_formed { IsWellFormed road.now }
    requires kinds { All (IsKindOf road.now) kinds.now }
    ensures { IfOk result (λ costs. costs.items ≡ map (unit_cost road.now) kinds.now) }
{
    let mut costs = Vec::new(alloc);
    for kind in kinds {
        costs.push(unit_cost(road, *kind))?;
    }
    Ok(costs)
}

fn bounds_of(road: &Road, range: &BoxRange, kind: Column) -> (i64, i64)
    requires well_formed { IsWellFormed road.now }
    requires fits { IsBoxOf road.now range.now }
    requires kind { IsKindOf road.now kind }
    ensures { result ≡ bounds_of road.now range.now.heights range.now.opens kind }
{
    match kind {
        Column::A { .. } => (road.low, road.high),
        Column::B { .. } => road.grade,
        Column::C { .. } => (-road.curve, road.curve),
        Column::Offset { section } => height_range(range, section),
        Column::Cut { section, .. } => (0, road.section(section).cut_max),
        Column::Fill { section, .. } => (0, road.section(section).fill_max),
        Column::Right { hop, .. } => (0, road.hop(hop).right_max),
        Column::Left { hop, .. } => (0, road.hop(hop).left_max),
        Column::Access { road: number, .. } => (0, road.access(number).max),
        Column::Opened { block, stage } => opened_bounds(opening_range(range, block), stage),
    }
}

/// Surely not opened at the stage, surely opened, or either.
fn opened_bounds(opening: (u8, u8), stage: usize) -> (i64, i64)
    ensures { result ≡ opened_bounds opening stage }
{
    if stage < usize::from(opening.0) {
        (0, 0)
    } else if usize::from(opening.1) <= stage {
        (1, 1)
    } else {
        (0, 1)
    }
}

fn unit_cost(road: &Road, kind: Column) -> i64
    requires well_formed { IsWellFormed road.now }
    requires kind { IsKindOf road.now kind }
    ensures { result ≡ unit_cost road.now kind }
{
    match kind {
        Column::A { .. } | Column::B { .. } | Column::C { .. } | Column::Offset { .. } => 0,
        Column::Cut { section, .. } => road.section(section).cut_cost,
        Column::Fill { section, .. } => road.section(section).fill_cost,
        Column::Right { hop, .. } => road.hop(hop).right_cost,
        Column::Left { hop, .. } => road.hop(hop).left_cost,
        Column::Access { road: number, .. } => road.access_unit_cost(number),
        Column::Opened { block, stage } => removal_cost(road, block, stage),
    }
}

/// A removal is paid at the last stage.
fn removal_cost(road: &Road, number: usize, stage: usize) -> i64
    requires { IsNumber number (block_count road.now) }
    ensures { result ≡ (if stage == road.now.stages then (block road.now number).cost else pos 0) }
{
    if stage == road.stages {
        road.block(number).cost
    } else {
        0
    }
}

// The plan that a point shows.
ghost use Rattle.std.specs.Prelude.{◌≡◌, ◌≤◌, if◌then◌else◌, IfOk, length, pos};
ghost use Rattle.std.specs.Ordering.{int_eq};
ghost use Rattle.algebra.specs.Lists.{list_to};
ghost use Rattle.road_types.specs.WellFormed.{IsWellFormed};
ghost use Rattle.road_types.specs.Road.{segment_count, block_count};
ghost use Rattle.road_types.specs.Columns.{columns_of};
ghost use Rattle.road_types.specs.declared.column.Column.TheVariants.{Opened};
ghost use Rattle.road_points.specs.Shown.{shown};
ghost use Rattle.road_points.specs.ShownPlan.{table_to, piece_at, opening_at, plan_at};
ghost use Rattle.milp_builder.specs.inside.Amounts.{column_in};

use crate::amounts::{Amount, column_in};
use crate::showing::shown;
use plan_rules::{Piece, Plan};
use road_types::{Column, Listed, Road};
use std::alloc::{AllocError, Global};

/// The plan over a denominator whose numbers the point shows.
pub fn shown_plan(alloc: Global, road: &Road, den: i128, point: &[i128]) -> Result<Plan, AllocError>
    requires well_formed { IsWellFormed road.now }
    requires columns { length point.now ≡ length (columns_of road.now) }
    ensures { IfOk result (λ plan. plan ≡ plan_at road.now den (shown road.now point.now)) }
{
    let sections = road.sections.len();
    let hops = road.hops.len();
    let accesses = road.roads.len();
    let pieces = shown_pieces(alloc, road, point)?;
    let cut = shown_table(alloc, road, point, Amount::Cut, sections)?;
    let fill = shown_table(alloc, road, point, Amount::Fill, sections)?;
    let right = shown_table(alloc, road, point, Amount::Right, hops)?;
    let left = shown_table(alloc, road, point, Amount::Left, hops)?;
    let roads = shown_table(alloc, road, point, Amount::Access, accesses)?;
    let opens = shown_openings(alloc, road, point)?;
    Ok(Plan {
        den,
        pieces,
        cut,
        fill,
        right,
        left,
        roads,
        opens,
    })
}

fn shown_pieces(alloc: Global, road: &Road, point: &[i128]) -> Result<Listed<Piece>, AllocError>
    requires well_formed { IsWellFormed road.now }
    requires columns { length point.now ≡ length (columns_of road.now) }
    ensures { IfOk result (λ pieces. pieces ≡ list_to (piece_at (shown road.now point.now)) (segment_count road.now)) }
{
    let mut pieces = Vec::new(alloc);
    for before in 0..road.knots.len() - 1 {
        pieces.push(shown_piece(road, point, before + 1))?;
    }
    Ok(Listed::new(pieces))
}

fn shown_piece(road: &Road, point: &[i128], segment: usize) -> Piece
    requires well_formed { IsWellFormed road.now }
    requires columns { length point.now ≡ length (columns_of road.now) }
    ensures { result ≡ piece_at (shown road.now point.now) segment }
{
    Piece {
        a: shown(road, point, Column::A { segment }),
        b: shown(road, point, Column::B { segment }),
        c: shown(road, point, Column::C { segment }),
    }
}

/// So many amounts of each stage.
fn shown_table(
    alloc: Global,
    road: &Road,
    point: &[i128],
    amount: Amount,
    entries: usize,
) -> Result<Listed<Listed<i128>>, AllocError>
    requires well_formed { IsWellFormed road.now }
    requires columns { length point.now ≡ length (columns_of road.now) }
    ensures { IfOk result (λ rows. rows ≡ table_to (λ i t. shown road.now point.now (column_in amount i t)) road.now.stages entries) }
{
    let mut rows = Vec::new(alloc);
    for before in 0..road.stages {
        let row = shown_row(alloc, road, point, amount, before + 1, entries)?;
        rows.push(row)?;
    }
    Ok(Listed::new(rows))
}

/// So many amounts of a stage.
fn shown_row(
    alloc: Global,
    road: &Road,
    point: &[i128],
    amount: Amount,
    stage: usize,
    entries: usize,
) -> Result<Listed<i128>, AllocError>
    requires well_formed { IsWellFormed road.now }
    requires columns { length point.now ≡ length (columns_of road.now) }
    ensures { IfOk result (λ row. row ≡ list_to (λ i. shown road.now point.now (column_in amount i stage)) entries) }
{
    let mut row = Vec::new(alloc);
    for before in 0..entries {
        row.push(shown(road, point, column_in(amount, before + 1, stage)))?;
    }
    Ok(Listed::new(row))
}

fn shown_openings(alloc: Global, road: &Road, point: &[i128]) -> Result<Listed<u8>, AllocError>
    requires well_formed { IsWellFormed road.now }
    requires columns { length point.now ≡ length (columns_of road.now) }
    ensures { IfOk result (λ opens. opens ≡ list_to (opening_at road.now (shown road.now point.now)) (block_count road.now)) }
{
    let mut opens = Vec::new(alloc);
    for before in 0..road.blocks.len() {
        opens.push(shown_opening(road, point, before + 1))?;
    }
    Ok(Listed::new(opens))
}

/// One more than the number of stages at which the point shows the block as closed.
fn shown_opening(road: &Road, point: &[i128], block: usize) -> u8
    requires well_formed { IsWellFormed road.now }
    requires columns { length point.now ≡ length (columns_of road.now) }
    ensures { result ≡ opening_at road.now (shown road.now point.now) block }
{
    let mut closed = 0;
    for before in 0..road.stages {
        closed += closed_at(road, point, block, before + 1);
    }
    closed + 1
}

/// 1 where the point shows the block as closed at the stage, and else 0.
fn closed_at(road: &Road, point: &[i128], block: usize, stage: usize) -> u8
    requires well_formed { IsWellFormed road.now }
    requires columns { length point.now ≡ length (columns_of road.now) }
    ensures value { result ≡ (if int_eq (shown road.now point.now (Opened block stage)) (pos 0) then 1 else 0) }
    ensures few { result ≤ 1 }
{
    if shown(road, point, Column::Opened { block, stage }) == 0 {
        1
    } else {
        0
    }
}

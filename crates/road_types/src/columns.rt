// The number of a column.
ghost use Rattle.std.specs.Prelude.{◌≡◌, ◌↔◌, ℕ, ◌+◌, ◌*◌, ◌≤◌, MatchOption, IfSome, nat_le, ◌&&◌};
ghost use Rattle.road_types.specs.WellFormed.{IsCounted};
ghost use Rattle.road_types.specs.Road.{section_count};
ghost use Rattle.road_types.specs.RecordFaults.{is_number};
ghost use Rattle.road_types.specs.Columns.{IsColumn, column_at, offsets_before, segment_column, stage_column, block_column, column_number};

use crate::counts::{blocks_before, product, stage_width, stages_before};
use crate::{Column, Road};

/// The number, from 1, of the column that stands for this; none where the road has no such column.
pub fn column_of(road: &Road, kind: Column) -> Option<usize>
    requires { IsCounted road.now }
    ensures value { result ≡ column_number road.now kind }
    ensures kinds { MatchOption result ((j : ℕ) → ¬ IsColumn road.now j kind)
        (λ number. (j : ℕ) → IsColumn road.now j kind ↔ (j ≡ number)) }
    ensures few { IfSome result (λ number. number ≤ 2000) }
{
    number_of(road, kind)
}

#[tactic(auto, unfolding(crate::specs::Columns::column_number))]
fn number_of(road: &Road, kind: Column) -> Option<usize>
    requires { IsCounted road.now }
    ensures value { result ≡ column_number road.now kind }
    ensures few { IfSome result (λ number. number ≤ 2000) }
{
    let sections = road.sections.len();
    let hops = road.hops.len();
    match kind {
        Column::A { segment } => segment_column(road, segment, 1),
        Column::B { segment } => segment_column(road, segment, 2),
        Column::C { segment } => segment_column(road, segment, 3),
        Column::Offset { section } => offset_column(road, section),
        Column::Cut { section, stage } => stage_column(road, stage, 0, sections, section),
        Column::Fill { section, stage } => stage_column(road, stage, sections, sections, section),
        Column::Right { hop, stage } => stage_column(road, stage, 2 * sections, hops, hop),
        Column::Left { hop, stage } => stage_column(road, stage, 2 * sections + hops, hops, hop),
        Column::Access {
            road: number,
            stage,
        } => {
            stage_column(
                road,
                stage,
                2 * sections + 2 * hops,
                road.roads.len(),
                number,
            )
        }
        Column::Opened { block, stage } => block_column(road, block, stage),
    }
}

/// Whether this is the number, from 1, of one of so many entries.
fn is_number(i: usize, count: usize) -> bool
    ensures { result ≡ is_number i count }
{
    1 <= i && i <= count
}

/// The column at a place among the three of a segment.
fn segment_column(road: &Road, segment: usize, place: usize) -> Option<usize>
    requires counted { IsCounted road.now }
    requires place { place ≤ 3 }
    ensures value { result ≡ segment_column road.now segment place }
    ensures few { IfSome result (λ number. number ≤ 2000) }
{
    if is_number(segment, road.knots.len() - 1) {
        Some(3 * (segment - 1) + place)
    } else {
        None
    }
}

/// The column of a section's offset.
fn offset_column(road: &Road, section: usize) -> Option<usize>
    requires { IsCounted road.now }
    ensures value { result ≡ column_at (is_number section (section_count road.now)) (offsets_before road.now) section }
    ensures few { IfSome result (λ number. number ≤ 2000) }
{
    if is_number(section, road.sections.len()) {
        Some(3 * (road.knots.len() - 1) + section)
    } else {
        None
    }
}

/// The column at a place among so many of a stage, behind others of that stage.
fn stage_column(
    road: &Road,
    stage: usize,
    before: usize,
    count: usize,
    place: usize,
) -> Option<usize>
    requires counted { IsCounted road.now }
    requires before { before ≤ 300 }
    requires count { count ≤ 100 }
    ensures value { result ≡ stage_column road.now stage before count place }
    ensures few { IfSome result (λ number. number ≤ 2000) }
{
    if is_number(stage, road.stages) && is_number(place, count) {
        Some(stages_before(road) + (product(stage - 1, stage_width(road)) + before) + place)
    } else {
        None
    }
}

/// The column for a block and a stage, of which there is none at stage 1.
fn block_column(road: &Road, block: usize, stage: usize) -> Option<usize>
    requires { IsCounted road.now }
    ensures value { result ≡ block_column road.now block stage }
    ensures few { IfSome result (λ number. number ≤ 2000) }
{
    if is_number(block, road.blocks.len()) && is_later_stage(road, stage) {
        Some(blocks_before(road) + product(block - 1, road.stages - 1) + (stage - 1))
    } else {
        None
    }
}

/// Whether this is a stage behind the first one.
fn is_later_stage(road: &Road, stage: usize) -> bool
    ensures { result ≡ nat_le 2 stage && nat_le stage road.now.stages }
{
    2 <= stage && stage <= road.stages
}

// Splits of a box whose simplex stopped, so that no optimum asks for one.
ghost use Rattle.std.specs.Prelude.{◌≡◌, ◌⊎◌, ◌≤◌, ◌<◌, None, IfSome, length, pos, ◌≤ℤ◌};
ghost use Rattle.road_types.specs.Faults.{road_fault};
ghost use Rattle.road_types.specs.Numbered.{IsNumber};
ghost use Rattle.road_types.specs.Ranges.{height_range};
ghost use Rattle.road_types.specs.Road.{section, section_count, block_count};
ghost use Rattle.volume_lines.specs.SlabTables.{HasSlabTables};
ghost use Rattle.milp_builder.specs.Boxes.{IsBoxOf, opening_range};
ghost use Rattle.milp_builder.specs.Parts.{IsSplitOf};
ghost use Rattle.branch_bound.specs.inside.FreeSplits.{IsFreeHeight};
ghost use Rattle.branch_bound.specs.inside.Splitting.{IsInnerBreakpoint};

use crate::asking::height_range;
use crate::scores::{Place, is_apart, rounded, width};
use crate::splitting::{Candidate, Ranked, best_breakpoint, inner_breakpoint};
use milp_builder::{BoxRange, Split};
use road_types::{Column, Road, column_of};

/// About where a point stands: for each column a number over the unit. Nothing is known of it, and it may have no numbers.
#[derive(Clone, Copy)]
pub struct Rough<'a> {
    pub unit: i128,
    pub numbers: &'a [i128],
}

/// A split of a box: one for which a rough point asks; and else that of the section whose volume can still differ most; and else
/// that of the first block whose opening isn't decided.
pub(crate) fn free_split(road: &Road, range: &BoxRange, rough: Rough<'_>) -> Option<Split>
    requires accepted { road_fault road.now ≡ None }
    requires fits { IsBoxOf road.now range.now }
    requires unit { pos 1 ≤ℤ rough.unit }
    ensures { IfSome result (λ split. IsSplitOf road.now range.now split) }
{
    match rough_split(road, range, rough) {
        Some(split) => Some(split),
        None => box_split(road, range),
    }
}

/// The split for which a rough point asks: of the first block that is opened in part, and else of a section whose volume is another
/// than that of its offset.
fn rough_split(road: &Road, range: &BoxRange, rough: Rough<'_>) -> Option<Split>
    requires accepted { road_fault road.now ≡ None }
    requires fits { IsBoxOf road.now range.now }
    requires unit { pos 1 ≤ℤ rough.unit }
    ensures { IfSome result (λ split. IsSplitOf road.now range.now split) }
{
    if rough.numbers.is_empty() {
        return None;
    }
    match part_opening(road, range, rough) {
        Some(split) => Some(split),
        None => height_of(rough_height(road, range, rough)),
    }
}

/// The split of a section's heights, where there is one.
fn height_of(best: Option<Candidate>) -> Option<Split>
    ensures { (road : Road) (box : BoxRange) → IsFreeHeight road box best → IfSome result (λ split. IsSplitOf road box split) }
{
    match best {
        Some(best) => Some(Split::Height {
            section: best.section,
            at: best.at,
        }),
        None => None,
    }
}

/// The split of the first block that is opened in part, at the first such stage.
#[tactic(auto, using(crate::proofs::FreeLemmas::opening_splits, crate::proofs::FreeLemmas::opens_number))]
fn part_opening(road: &Road, range: &BoxRange, rough: Rough<'_>) -> Option<Split>
    requires accepted { road_fault road.now ≡ None }
    requires fits { IsBoxOf road.now range.now }
    ensures { IfSome result (λ split. IsSplitOf road.now range.now split) }
{
    for before in 0..road.blocks.len() {
        let opens = opening_range(range, before + 1);
        if let Some(stage) = part_stage(road, rough, opens, before + 1) {
            return Some(Split::Removal {
                block: before + 1,
                stage,
            });
        }
    }
    None
}

/// The first stage of a range of openings, but for its last, by which a block is opened in part.
fn part_stage(road: &Road, rough: Rough<'_>, opens: (u8, u8), block: usize) -> Option<usize>
    requires accepted { road_fault road.now ≡ None }
    ensures { IfSome result (λ stage. (opens.0 ≤ stage) × (stage < opens.1)) }
{
    for stage in usize::from(opens.0)..usize::from(opens.1) {
        let opened = number_of(road, rough, Column::Opened { block, stage });
        if 0 < opened && opened < rough.unit {
            return Some(stage);
        }
    }
    None
}

/// The best split of heights of the sections whose volume is another than that of their offset.
#[tactic(auto, using(crate::proofs::FreeLemmas::one_of_both))]
fn rough_height(road: &Road, range: &BoxRange, rough: Rough<'_>) -> Option<Candidate>
    requires accepted { road_fault road.now ≡ None }
    requires fits { IsBoxOf road.now range.now }
    requires unit { pos 1 ≤ℤ rough.unit }
    ensures { IsFreeHeight road.now range.now result }
{
    let mut best = None;
    for before in 0..road.sections.len() {
        best = best_of(best, rough_height_at(road, range, rough, before + 1));
    }
    best
}

/// The split of a section's heights, where its volume is another than that of its offset, rounded to litres.
#[tactic(auto, using(crate::proofs::FreeLemmas::tables_of_section, crate::proofs::FreeLemmas::range_number, crate::proofs::FreeLemmas::section_splits))]
fn rough_height_at(
    road: &Road,
    range: &BoxRange,
    rough: Rough<'_>,
    number: usize,
) -> Option<Candidate>
    requires accepted { road_fault road.now ≡ None }
    requires fits { IsBoxOf road.now range.now }
    requires unit { pos 1 ≤ℤ rough.unit }
    requires number { IsNumber number (section_count road.now) }
    ensures { IsFreeHeight road.now range.now result }
{
    let place = rough_place(road, rough, number);
    if !is_apart(road.section(number), height_range(range, number), place) {
        return None;
    }
    match best_at(road, range, number, place) {
        Some(ranked) => Some(Candidate {
            section: number,
            at: ranked.at,
            score: ranked.score,
        }),
        None => None,
    }
}

/// What a section is filled in all stages, less what it is cut, over the unit.
pub(crate) fn moved_volume(road: &Road, rough: Rough<'_>, section: usize) -> i128
    requires accepted { road_fault road.now ≡ None }
{
    let mut volume = 0i128;
    for before in 0..road.stages {
        let stage = before + 1;
        let filled = number_of(road, rough, Column::Fill { section, stage });
        let cut = number_of(road, rough, Column::Cut { section, stage });
        volume = volume.saturating_add(filled.saturating_sub(cut));
    }
    volume
}

/// The rough number of a column, 0 where there is none.
pub(crate) fn number_of(road: &Road, rough: Rough<'_>, kind: Column) -> i128
    requires accepted { road_fault road.now ≡ None }
{
    match column_of(road, kind) {
        Some(column) => number_at(rough.numbers, column),
        None => 0,
    }
}

/// The number at a place, counted from 1; 0 where there is none.
fn number_at(numbers: &[i128], place: usize) -> i128 {
    if 0 < place && place <= numbers.len() {
        return numbers[place - 1];
    }
    0
}

/// A split of a box, chosen by the box alone.
fn box_split(road: &Road, range: &BoxRange) -> Option<Split>
    requires accepted { road_fault road.now ≡ None }
    requires fits { IsBoxOf road.now range.now }
    ensures { IfSome result (λ split. IsSplitOf road.now range.now split) }
{
    match height_of(widest(road, range)) {
        Some(split) => Some(split),
        None => opening_split(road, range),
    }
}

/// The split of the section whose volume can still differ most.
#[tactic(auto, using(crate::proofs::FreeLemmas::one_of_both))]
fn widest(road: &Road, range: &BoxRange) -> Option<Candidate>
    requires accepted { road_fault road.now ≡ None }
    requires fits { IsBoxOf road.now range.now }
    ensures { IsFreeHeight road.now range.now result }
{
    let mut best = None;
    for before in 0..road.sections.len() {
        best = best_of(best, wide_height_at(road, range, before + 1));
    }
    best
}

/// The better of two, the first where both score alike.
fn best_of(first: Option<Candidate>, second: Option<Candidate>) -> Option<Candidate>
    ensures { (result ≡ first) ⊎ (result ≡ second) }
{
    match (first, second) {
        (Some(one), Some(two)) => Some(if two.score > one.score { two } else { one }),
        (Some(one), None) => Some(one),
        (None, second) => second,
    }
}

/// The split of a section's heights, scored by how much its volume can still differ.
#[tactic(auto, using(crate::proofs::FreeLemmas::tables_of_section, crate::proofs::FreeLemmas::range_number, crate::proofs::FreeLemmas::section_splits))]
fn wide_height_at(road: &Road, range: &BoxRange, number: usize) -> Option<Candidate>
    requires accepted { road_fault road.now ≡ None }
    requires fits { IsBoxOf road.now range.now }
    requires number { IsNumber number (section_count road.now) }
    ensures { IsFreeHeight road.now range.now result }
{
    match inner_at(road, range, number) {
        Some(at) => Some(Candidate {
            section: number,
            at,
            score: width(road.section(number), height_range(range, number)),
        }),
        None => None,
    }
}

/// A breakpoint strictly inside the range of offsets of a section.
fn inner_at(road: &Road, range: &BoxRange, number: usize) -> Option<i64>
    requires number { IsNumber number (section_count road.now) }
    requires ranges { IsNumber number (length range.now.heights) }
    requires tables { HasSlabTables (section road.now number) }
    ensures { IfSome result (λ at. IsInnerBreakpoint (section road.now number) (height_range range.now.heights number) at) }
{
    inner_breakpoint(road.section(number), height_range(range, number))
}

/// The breakpoint strictly inside the range of offsets of a section that scores best.
fn best_at(road: &Road, range: &BoxRange, number: usize, place: Place) -> Option<Ranked>
    requires number { IsNumber number (section_count road.now) }
    requires ranges { IsNumber number (length range.now.heights) }
    requires tables { HasSlabTables (section road.now number) }
    ensures { IfSome result (λ best. IsInnerBreakpoint (section road.now number) (height_range range.now.heights number) best.at) }
{
    best_breakpoint(road.section(number), height_range(range, number), place)
}

/// About where a section stands: its offset in whole mm, and what it is filled less what it is cut in whole litres.
fn rough_place(road: &Road, rough: Rough<'_>, number: usize) -> Place
    requires accepted { road_fault road.now ≡ None }
    requires unit { pos 1 ≤ℤ rough.unit }
{
    rounded(
        number_of(road, rough, Column::Offset { section: number }),
        moved_volume(road, rough, number),
        rough.unit,
    )
}

/// The split of the first block whose opening isn't decided: between its least opening and those after it.
#[tactic(auto, using(crate::proofs::FreeLemmas::opening_splits, crate::proofs::FreeLemmas::opens_number))]
fn opening_split(road: &Road, range: &BoxRange) -> Option<Split>
    requires accepted { road_fault road.now ≡ None }
    requires fits { IsBoxOf road.now range.now }
    ensures { IfSome result (λ split. IsSplitOf road.now range.now split) }
{
    for before in 0..road.blocks.len() {
        let opens = opening_range(range, before + 1);
        if opens.0 < opens.1 {
            return Some(Split::Removal {
                block: before + 1,
                stage: usize::from(opens.0),
            });
        }
    }
    None
}

/// The range of openings of a block.
#[tactic(auto, using(crate::proofs::FreeLemmas::opens_at))]
fn opening_range(range: &BoxRange, number: usize) -> (u8, u8)
    requires { IsNumber number (length range.now.opens) }
    ensures { result ≡ opening_range range.now number }
{
    range.opens.as_slice()[number - 1]
}

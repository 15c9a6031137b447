// What a point of a road's program shows: its numbers by kind of column, parts of removals, volumes, and the plan.
ghost use Rattle.std.specs.Prelude.{◌≡◌, ◌↔◌, ◌⊎◌, IsTrue, MatchOption, length, ◌-ℤ◌};
ghost use Rattle.road_types.specs.Numbered.{IsNumber};
ghost use Rattle.road_types.specs.WellFormed.{IsWellFormed};
ghost use Rattle.road_types.specs.Road.{section, section_count, block_count};
ghost use Rattle.road_types.specs.Volumes.{net_volume};
ghost use Rattle.road_types.specs.Columns.{columns_of};
ghost use Rattle.road_types.specs.declared.column.Column.TheVariants.{Offset, Cut, Fill};
ghost use Rattle.road_points.specs.Shown.{shown, IsWholeAt, HasWholeRemovals, moved_volume, IsExactAt, HasExactVolumes};
ghost use Rattle.milp_builder.specs.Comparing.{IsComparable, HasComparableVolumes};
ghost use Rattle.milp_builder.specs.FoundPlans.{IsPartRemoval, IsOtherVolume};
ghost use Rattle.milp_builder.specs.inside.ShownPlans.{IsOpenedWhole};

use crate::volumes::net_volume;
use algebra::{minus, plus, same};
use road_types::{Column, Road, column_of};

/// The point's number in the column of a kind, over the point's denominator; 0 where the road has no such column.
pub fn shown(road: &Road, point: &[i128], kind: Column) -> i128
    requires well_formed { IsWellFormed road.now }
    requires columns { length point.now ≡ length (columns_of road.now) }
    ensures { result ≡ shown road.now point.now kind }
{
    match column_of(road, kind) {
        Some(column) => point[column - 1],
        None => 0,
    }
}

/// The first block, from 1, and its first stage, from 2, at which a removal is neither done nor undone.
pub fn part_removal(road: &Road, den: i128, point: &[i128]) -> Option<(usize, usize)>
    requires well_formed { IsWellFormed road.now }
    requires columns { length point.now ≡ length (columns_of road.now) }
    ensures { MatchOption result (HasWholeRemovals road.now den point.now) (λ at. IsPartRemoval road.now den point.now at.0 at.1) }
{
    for before in 0..road.blocks.len() {
        if let Some(stage) = part_stage(road, den, point, before + 1) {
            return Some((before + 1, stage));
        }
    }
    None
}

/// The first stage at which a block's removal is neither done nor undone.
fn part_stage(road: &Road, den: i128, point: &[i128], block: usize) -> Option<usize>
    requires well_formed { IsWellFormed road.now }
    requires columns { length point.now ≡ length (columns_of road.now) }
    requires block { IsNumber block (block_count road.now) }
    ensures { MatchOption result (IsOpenedWhole road.now den point.now block) (λ stage. IsPartRemoval road.now den point.now block stage) }
{
    for stage in 2..road.stages + 1 {
        if !is_whole_at(road, den, point, block, stage) {
            return Some(stage);
        }
    }
    None
}

fn is_whole_at(road: &Road, den: i128, point: &[i128], block: usize, stage: usize) -> bool
    requires well_formed { IsWellFormed road.now }
    requires columns { length point.now ≡ length (columns_of road.now) }
    ensures { IsTrue result ↔ IsWholeAt road.now den point.now block stage }
{
    is_one_of(shown(road, point, Column::Opened { block, stage }), 0, den)
}

fn is_one_of(x: i128, a: i128, b: i128) -> bool
    ensures { IsTrue result ↔ ((x ≡ a) ⊎ (x ≡ b)) }
{
    x == a || x == b
}

/// The first section whose volume isn't that of its offset.
pub fn other_volume(road: &Road, den: i128, point: &[i128]) -> Option<usize>
    requires well_formed { IsWellFormed road.now }
    requires columns { length point.now ≡ length (columns_of road.now) }
    requires den { IsComparable den }
    requires small { HasComparableVolumes road.now point.now }
    ensures { MatchOption result (HasExactVolumes road.now den point.now) (λ i. IsOtherVolume road.now den point.now i) }
{
    for before in 0..road.sections.len() {
        if !is_exact_at(road, den, point, before + 1) {
            return Some(before + 1);
        }
    }
    None
}

/// Whether a section, from 1, is filled and cut as its offset asks.
pub fn is_exact_at(road: &Road, den: i128, point: &[i128], section: usize) -> bool
    requires well_formed { IsWellFormed road.now }
    requires columns { length point.now ≡ length (columns_of road.now) }
    requires den { IsComparable den }
    requires small { HasComparableVolumes road.now point.now }
    requires section { IsNumber section (section_count road.now) }
    ensures { IsTrue result ↔ IsExactAt road.now den point.now section }
{
    same(
        moved_volume(road, point, section),
        volume_of_offset(road, den, point, section),
    )
}

/// The volume of a section, from 1, at the offset that the point shows, in litres: what fills it up to there, less what is cut down to
/// there. Offset and volume are over the denominator.
pub fn volume_of_offset(road: &Road, den: i128, point: &[i128], number: usize) -> i128
    requires well_formed { IsWellFormed road.now }
    requires columns { length point.now ≡ length (columns_of road.now) }
    requires den { IsComparable den }
    requires small { HasComparableVolumes road.now point.now }
    requires section { IsNumber number (section_count road.now) }
    ensures { result ≡ net_volume (section road.now number).cut (section road.now number).fill
        (shown road.now point.now (Offset number)) den }
{
    net_volume(
        road.section(number),
        shown(road, point, Column::Offset { section: number }),
        den,
    )
}

/// What the point fills in a section, from 1, in all stages, less what it cuts: in litres over the denominator. 0 where the road has
/// no such section.
pub fn moved_volume(road: &Road, point: &[i128], section: usize) -> i128
    requires well_formed { IsWellFormed road.now }
    requires columns { length point.now ≡ length (columns_of road.now) }
    requires small { HasComparableVolumes road.now point.now }
    ensures { result ≡ moved_volume road.now point.now section }
{
    let mut total = 0;
    for before in 0..road.stages {
        total = plus(total, moved_in(road, point, section, before + 1));
    }
    total
}

/// What the point fills in a section in a stage, less what it cuts.
fn moved_in(road: &Road, point: &[i128], section: usize, stage: usize) -> i128
    requires well_formed { IsWellFormed road.now }
    requires columns { length point.now ≡ length (columns_of road.now) }
    requires small { HasComparableVolumes road.now point.now }
    ensures { result ≡ shown road.now point.now (Fill section stage) -ℤ shown road.now point.now (Cut section stage) }
{
    minus(
        shown(road, point, Column::Fill { section, stage }),
        shown(road, point, Column::Cut { section, stage }),
    )
}

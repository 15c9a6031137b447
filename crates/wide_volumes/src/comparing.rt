// Whether a section of a point is filled and cut as its offset asks.
ghost use Rattle.std.specs.Prelude.{◌≡◌, ◌↔◌, IsTrue, length, pos, ◌^◌, ◌≤◌, ◌-ℤ◌, ◌≤ℤ◌, unsigned_abs};
ghost use Rattle.road_types.specs.Numbered.{IsNumber};
ghost use Rattle.road_types.specs.WellFormed.{IsWellFormed};
ghost use Rattle.road_types.specs.Road.{section, section_count};
ghost use Rattle.road_types.specs.Volumes.{net_volume};
ghost use Rattle.road_types.specs.Columns.{columns_of};
ghost use Rattle.road_types.specs.declared.column.Column.TheVariants.{Offset, Cut, Fill};
ghost use Rattle.road_points.specs.Shown.{shown, moved_volume, IsExactAt};
ghost use Rattle.wide_products.specs.Naturals.{whole_of};

use crate::arithmetic::{minus, plus};
use crate::volumes::net_volume;
use milp_builder::shown;
use road_types::{Column, Road};
use std::cmp::Ordering;
use wide_products::Wide;

/// Whether a section, from 1, is filled and cut as its offset asks.
pub fn is_exact_at(road: &Road, den: i128, point: &[i128], section: usize) -> bool
    requires well_formed { IsWellFormed road.now }
    requires columns { length point.now ≡ length (columns_of road.now) }
    requires den { pos 1 ≤ℤ den }
    requires section { IsNumber section (section_count road.now) }
    ensures { IsTrue result ↔ IsExactAt road.now den point.now section }
{
    let moved = moved_volume(road, point, section);
    moved.order(volume_of_offset(road, den, point, section)) == Ordering::Equal
}

/// The volume of a section, from 1, at the offset that the point shows, in litres over the denominator.
fn volume_of_offset(road: &Road, den: i128, point: &[i128], number: usize) -> Wide
    requires well_formed { IsWellFormed road.now }
    requires columns { length point.now ≡ length (columns_of road.now) }
    requires den { pos 1 ≤ℤ den }
    requires section { IsNumber number (section_count road.now) }
    ensures { whole_of result ≡ net_volume (section road.now number).cut (section road.now number).fill
        (shown road.now point.now (Offset number)) den }
{
    net_volume(
        road.section(number),
        shown(road, point, Column::Offset { section: number }),
        den,
    )
}

/// What the point fills in a section, from 1, in all stages, less what it cuts: in litres over the denominator. 0 where the road has
/// no such section.
pub fn moved_volume(road: &Road, point: &[i128], section: usize) -> Wide
    requires well_formed { IsWellFormed road.now }
    requires columns { length point.now ≡ length (columns_of road.now) }
    ensures { whole_of result ≡ moved_volume road.now point.now section }
{
    let mut total = Wide::of(0);
    for before in 0..road.stages {
        total = plus(total, moved_in(road, point, section, before + 1));
    }
    total
}

/// What the point fills in a section in a stage, less what it cuts.
fn moved_in(road: &Road, point: &[i128], section: usize, stage: usize) -> Wide
    requires well_formed { IsWellFormed road.now }
    requires columns { length point.now ≡ length (columns_of road.now) }
    ensures value { whole_of result ≡ shown road.now point.now (Fill section stage) -ℤ shown road.now point.now (Cut section stage) }
    ensures to { unsigned_abs (whole_of result) ≤ 2 ^ 128 }
{
    minus(
        Wide::of(shown(road, point, Column::Fill { section, stage })),
        Wide::of(shown(road, point, Column::Cut { section, stage })),
    )
}

// Volumes and thicknesses of slab tables.
ghost use Rattle.std.specs.Prelude.{◌≡◌, ℤ, pos, neg_ℤ, ◌^◌, ◌-ℤ◌, ◌*ℤ◌, ◌≤ℤ◌, ◌≤◌, unsigned_abs};
ghost use Rattle.std.specs.Int.{int_min, int_max};
ghost use Rattle.road_types.specs.WellFormed.{IsSlabTable, IsSolidSlab};
ghost use Rattle.road_types.specs.Volumes.{volume_to, thickness_of, net_volume};
ghost use Rattle.algebra.specs.Scale.{IsScale};

use crate::{Section, Slab};
use algebra::{minus, plus, scaled, times};

/// The volume of the slabs down to a depth, in litres; depth and volume are over the denominator.
pub fn table_volume(slabs: &[Slab], depth: i128, den: i128) -> i128
    requires slabs { IsSlabTable slabs.now }
    requires den { IsScale den }
    requires depth_from { pos 0 ≤ℤ depth }
    requires depth_to { depth ≤ℤ pos (2 ^ 86) }
    ensures value { result ≡ volume_to slabs.now depth den }
    ensures from { pos 0 ≤ℤ result }
    ensures to { result ≤ℤ pos (2 ^ 90) }
{
    let mut volume = 0;
    let mut left = depth;
    for slab in slabs {
        volume = plus(volume, slab_volume(*slab, left, den));
        left = left_below(*slab, left, den);
    }
    volume
}

/// The slab's area times how much of its thickness the depth takes.
fn slab_volume(slab: Slab, depth: i128, den: i128) -> i128
    requires solid { IsSolidSlab slab }
    requires den { IsScale den }
    requires depth { pos 0 ≤ℤ depth }
    ensures value { result ≡ slab.area *ℤ int_min depth (slab.thick *ℤ den) }
    ensures from { pos 0 ≤ℤ result }
    ensures to { result ≤ℤ pos (2 ^ 88) }
{
    volume_of(slab.area, thickness_within(slab, depth, den))
}

/// The volume of a layer.
fn volume_of(area: i64, thickness: i128) -> i128
    requires area_from { pos 0 ≤ℤ area }
    requires area_to { area ≤ℤ pos (2 ^ 24) }
    requires thickness_from { pos 0 ≤ℤ thickness }
    requires thickness_to { thickness ≤ℤ pos (2 ^ 64) }
    ensures value { result ≡ area *ℤ thickness }
    ensures from { pos 0 ≤ℤ result }
    ensures to { result ≤ℤ pos (2 ^ 88) }
{
    times(i128::from(area), thickness)
}

/// How much of the slab's thickness the depth takes.
fn thickness_within(slab: Slab, depth: i128, den: i128) -> i128
    requires solid { IsSolidSlab slab }
    requires den { IsScale den }
    requires depth { pos 0 ≤ℤ depth }
    ensures value { result ≡ int_min depth (slab.thick *ℤ den) }
    ensures from { pos 0 ≤ℤ result }
    ensures to { result ≤ℤ pos (2 ^ 64) }
{
    depth.min(scaled(slab.thick, den))
}

/// How much of the depth lies below the slab.
fn left_below(slab: Slab, depth: i128, den: i128) -> i128
    requires solid { IsSolidSlab slab }
    requires den { IsScale den }
    requires depth { pos 0 ≤ℤ depth }
    ensures value { result ≡ int_max (depth -ℤ slab.thick *ℤ den) (pos 0) }
    ensures from { pos 0 ≤ℤ result }
{
    minus(depth, scaled(slab.thick, den)).max(0)
}

/// The thickness of all slabs together, in mm.
pub fn thickness_of(slabs: &[Slab]) -> i64
    requires { IsSlabTable slabs.now }
    ensures value { result ≡ thickness_of slabs.now }
    ensures from { pos 0 ≤ℤ result }
    ensures to { result ≤ℤ pos 40000000 }
{
    let mut thickness = 0;
    for slab in slabs {
        thickness += slab.thick;
    }
    thickness
}

/// The volume that fills a section up to an offset, less what is cut where the offset is below the ground; in litres, both over
/// the denominator.
pub fn net_volume(section: &Section, offset: i128, den: i128) -> i128
    requires cut { IsSlabTable section.now.cut }
    requires fill { IsSlabTable section.now.fill }
    requires den { IsScale den }
    requires offset { unsigned_abs offset ≤ 2 ^ 86 }
    ensures { result ≡ net_volume section.now.cut section.now.fill offset den }
{
    let filled = table_volume(section.fill.as_slice(), above_ground(offset), den);
    let cut = table_volume(section.cut.as_slice(), below_ground(offset), den);
    minus(filled, cut)
}

/// How far an offset lies above the ground, 0 where it lies below.
fn above_ground(offset: i128) -> i128
    requires { unsigned_abs offset ≤ 2 ^ 86 }
    ensures value { result ≡ int_max offset (pos 0) }
    ensures from { pos 0 ≤ℤ result }
    ensures to { result ≤ℤ pos (2 ^ 86) }
{
    offset.max(0)
}

/// How far an offset lies below the ground, 0 where it lies above.
fn below_ground(offset: i128) -> i128
    requires { unsigned_abs offset ≤ 2 ^ 86 }
    ensures value { result ≡ int_max (neg_ℤ offset) (pos 0) }
    ensures from { pos 0 ≤ℤ result }
    ensures to { result ≤ℤ pos (2 ^ 86) }
{
    (-offset).max(0)
}

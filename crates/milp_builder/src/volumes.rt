// Volumes of slab tables over denominators past those of plans, wide enough to be compared in 128 bits.
ghost use Rattle.std.specs.Prelude.{◌≡◌, pos, neg_ℤ, ◌^◌, ◌-ℤ◌, ◌*ℤ◌, ◌≤ℤ◌, ◌≤◌, unsigned_abs};
ghost use Rattle.std.specs.Int.{int_min, int_max};
ghost use Rattle.road_types.specs.WellFormed.{IsSlabTable, IsSolidSlab};
ghost use Rattle.road_types.specs.Volumes.{volume_to, net_volume};
ghost use Rattle.milp_builder.specs.Comparing.{IsComparable};

use algebra::{minus, plus, times};
use road_types::{Section, Slab};

/// The greatest denominator over which volumes are compared.
pub const GREATEST_COMPARABLE: i128 = 4_722_366_482_869_645_213_696;

/// The volume that fills a section up to an offset, less what is cut where the offset is below the ground; in litres, both over
/// the denominator.
pub fn net_volume(section: &Section, offset: i128, den: i128) -> i128
    requires cut { IsSlabTable section.now.cut }
    requires fill { IsSlabTable section.now.fill }
    requires den { IsComparable den }
    requires offset { unsigned_abs offset ≤ 2 ^ 98 }
    ensures { result ≡ net_volume section.now.cut section.now.fill offset den }
{
    let filled = table_volume(section.fill.as_slice(), above_ground(offset), den);
    let cut = table_volume(section.cut.as_slice(), below_ground(offset), den);
    minus(filled, cut)
}

/// How far an offset lies above the ground, 0 where it lies below.
fn above_ground(offset: i128) -> i128
    requires { unsigned_abs offset ≤ 2 ^ 98 }
    ensures value { result ≡ int_max offset (pos 0) }
    ensures from { pos 0 ≤ℤ result }
    ensures to { result ≤ℤ pos (2 ^ 98) }
{
    offset.max(0)
}

/// How far an offset lies below the ground, 0 where it lies above.
fn below_ground(offset: i128) -> i128
    requires { unsigned_abs offset ≤ 2 ^ 98 }
    ensures value { result ≡ int_max (neg_ℤ offset) (pos 0) }
    ensures from { pos 0 ≤ℤ result }
    ensures to { result ≤ℤ pos (2 ^ 98) }
{
    (-offset).max(0)
}

/// The volume of the slabs down to a depth, in litres; depth and volume are over the denominator.
fn table_volume(slabs: &[Slab], depth: i128, den: i128) -> i128
    requires slabs { IsSlabTable slabs.now }
    requires den { IsComparable den }
    requires depth_from { pos 0 ≤ℤ depth }
    requires depth_to { depth ≤ℤ pos (2 ^ 98) }
    ensures value { result ≡ volume_to slabs.now depth den }
    ensures from { pos 0 ≤ℤ result }
    ensures to { result ≤ℤ pos (2 ^ 122) }
{
    let mut volume = 0;
    let mut left = depth;
    for slab in slabs {
        volume = plus(volume, slab_volume(*slab, left, den));
        left = left_below(*slab, left, den);
    }
    volume
}

/// The slab's area times how much of its thickness the depth takes.
fn slab_volume(slab: Slab, depth: i128, den: i128) -> i128
    requires solid { IsSolidSlab slab }
    requires den { IsComparable den }
    requires depth { pos 0 ≤ℤ depth }
    ensures value { result ≡ slab.area *ℤ int_min depth (slab.thick *ℤ den) }
    ensures from { pos 0 ≤ℤ result }
    ensures to { result ≤ℤ pos (2 ^ 120) }
{
    volume_of(slab.area, thickness_within(slab, depth, den))
}

/// The volume of a layer.
fn volume_of(area: i64, thickness: i128) -> i128
    requires area_from { pos 0 ≤ℤ area }
    requires area_to { area ≤ℤ pos (2 ^ 24) }
    requires thickness_from { pos 0 ≤ℤ thickness }
    requires thickness_to { thickness ≤ℤ pos (2 ^ 96) }
    ensures value { result ≡ area *ℤ thickness }
    ensures from { pos 0 ≤ℤ result }
    ensures to { result ≤ℤ pos (2 ^ 120) }
{
    times(i128::from(area), thickness)
}

/// How much of the slab's thickness the depth takes.
fn thickness_within(slab: Slab, depth: i128, den: i128) -> i128
    requires solid { IsSolidSlab slab }
    requires den { IsComparable den }
    requires depth { pos 0 ≤ℤ depth }
    ensures value { result ≡ int_min depth (slab.thick *ℤ den) }
    ensures from { pos 0 ≤ℤ result }
    ensures to { result ≤ℤ pos (2 ^ 96) }
{
    depth.min(thickness_over(slab, den))
}

/// How much of the depth lies below the slab.
fn left_below(slab: Slab, depth: i128, den: i128) -> i128
    requires solid { IsSolidSlab slab }
    requires den { IsComparable den }
    requires depth { pos 0 ≤ℤ depth }
    ensures value { result ≡ int_max (depth -ℤ slab.thick *ℤ den) (pos 0) }
    ensures from { pos 0 ≤ℤ result }
{
    minus(depth, thickness_over(slab, den)).max(0)
}

/// The slab's thickness over the denominator.
#[tactic(auto, using(crate::proofs::ComparingLemmas::thickness_width, crate::proofs::ComparingLemmas::thickness_from))]
fn thickness_over(slab: Slab, den: i128) -> i128
    requires solid { IsSolidSlab slab }
    requires den { IsComparable den }
    ensures value { result ≡ slab.thick *ℤ den }
    ensures from { pos 0 ≤ℤ result }
    ensures to { result ≤ℤ pos (2 ^ 96) }
{
    times(i128::from(slab.thick), den)
}

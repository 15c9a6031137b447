// Volumes of slab tables over any denominator of 128 bits.
ghost use Rattle.std.specs.Prelude.{◌≡◌, pos, ◌^◌, ◌-ℤ◌, ◌*ℤ◌, ◌≤ℤ◌};
ghost use Rattle.std.specs.Int.{int_min, int_max};
ghost use Rattle.road_types.specs.WellFormed.{IsSlabTable, IsSolidSlab};
ghost use Rattle.road_types.specs.Volumes.{volume_to, net_volume};
ghost use Rattle.wide_products.specs.Naturals.{whole_of};

use crate::arithmetic::{from_zero, least, minus, plus, times};
use road_types::{Section, Slab};
use wide_products::Wide;

/// The volume that fills a section up to an offset, less what is cut where the offset is below the ground; in litres, both over
/// the denominator.
pub(crate) fn net_volume(section: &Section, offset: i128, den: i128) -> Wide
    requires cut { IsSlabTable section.now.cut }
    requires fill { IsSlabTable section.now.fill }
    requires den { pos 1 ≤ℤ den }
    ensures { whole_of result ≡ net_volume section.now.cut section.now.fill offset den }
{
    let offset = Wide::of(offset);
    let filled = table_volume(section.fill.as_slice(), from_zero(offset), den);
    let cut = table_volume(section.cut.as_slice(), from_zero(offset.negated()), den);
    minus(filled, cut)
}

/// The volume of the slabs down to a depth, in litres; depth and volume are over the denominator.
fn table_volume(slabs: &[Slab], depth: Wide, den: i128) -> Wide
    requires slabs { IsSlabTable slabs.now }
    requires den { pos 1 ≤ℤ den }
    requires depth { pos 0 ≤ℤ whole_of depth }
    ensures value { whole_of result ≡ volume_to slabs.now (whole_of depth) den }
    ensures from { pos 0 ≤ℤ whole_of result }
    ensures to { whole_of result ≤ℤ pos (2 ^ 178) }
{
    let mut volume = Wide::of(0);
    let mut left = depth;
    for slab in slabs {
        volume = plus(volume, slab_volume(*slab, left, den));
        left = left_below(*slab, left, den);
    }
    volume
}

/// The slab's area times how much of its thickness the depth takes.
fn slab_volume(slab: Slab, depth: Wide, den: i128) -> Wide
    requires solid { IsSolidSlab slab }
    requires den { pos 1 ≤ℤ den }
    requires depth { pos 0 ≤ℤ whole_of depth }
    ensures value { whole_of result ≡ slab.area *ℤ int_min (whole_of depth) (slab.thick *ℤ den) }
    ensures from { pos 0 ≤ℤ whole_of result }
    ensures to { whole_of result ≤ℤ pos (2 ^ 176) }
{
    volume_of(slab.area, least(depth, thickness_over(slab, den)))
}

/// The volume of a layer.
fn volume_of(area: i64, thickness: Wide) -> Wide
    requires area_from { pos 0 ≤ℤ area }
    requires area_to { area ≤ℤ pos (2 ^ 24) }
    requires thickness_from { pos 0 ≤ℤ whole_of thickness }
    requires thickness_to { whole_of thickness ≤ℤ pos (2 ^ 152) }
    ensures value { whole_of result ≡ area *ℤ whole_of thickness }
    ensures from { pos 0 ≤ℤ whole_of result }
    ensures to { whole_of result ≤ℤ pos (2 ^ 176) }
{
    times(Wide::of(i128::from(area)), thickness)
}

/// How much of the depth lies below the slab.
fn left_below(slab: Slab, depth: Wide, den: i128) -> Wide
    requires solid { IsSolidSlab slab }
    requires den { pos 1 ≤ℤ den }
    requires depth { pos 0 ≤ℤ whole_of depth }
    ensures value { whole_of result ≡ int_max (whole_of depth -ℤ slab.thick *ℤ den) (pos 0) }
    ensures from { pos 0 ≤ℤ whole_of result }
{
    from_zero(minus(depth, thickness_over(slab, den)))
}

/// The slab's thickness over the denominator.
#[tactic(auto, using(crate::proofs::WidthLemmas::thickness_width, crate::proofs::WidthLemmas::thickness_from))]
fn thickness_over(slab: Slab, den: i128) -> Wide
    requires solid { IsSolidSlab slab }
    requires den { pos 1 ≤ℤ den }
    ensures value { whole_of result ≡ slab.thick *ℤ den }
    ensures from { pos 0 ≤ℤ whole_of result }
    ensures to { whole_of result ≤ℤ pos (2 ^ 152) }
{
    Wide::product(i128::from(slab.thick), den)
}

// The slopes of a section's volume.
ghost use Rattle.std.specs.Prelude.{◌≡◌, ℤ, pos, map, ◌≤ℤ◌, fold};
ghost use Rattle.std.specs.Int.{int_max};
ghost use Rattle.road_types.specs.WellFormed.{IsSlabTable};
ghost use Rattle.road_types.specs.Lines.{widest_area, deepest};
ghost use Rattle.road_types.specs.declared.road.Slab.{Slab as Layer};

use crate::volumes::thickness_of;
use crate::{Section, Slab};

/// The greatest area of all slabs on both sides, in m².
pub(crate) fn widest_area(section: &Section) -> i64
    requires cut { IsSlabTable section.now.cut }
    requires fill { IsSlabTable section.now.fill }
    ensures value { result ≡ widest_area section.now }
    ensures from { pos 0 ≤ℤ result }
    ensures to { result ≤ℤ pos 10000000 }
{
    greatest_area(
        section.fill.as_slice(),
        greatest_area(section.cut.as_slice(), 0),
    )
}

/// The greatest of an area and those of some slabs.
fn greatest_area(slabs: &[Slab], first: i64) -> i64
    requires slabs { IsSlabTable slabs.now }
    requires from { pos 0 ≤ℤ first }
    requires to { first ≤ℤ pos 10000000 }
    ensures value { result ≡ fold int_max first (map (λ (slab : Layer). slab.area) slabs.now) }
    ensures from { pos 0 ≤ℤ result }
    ensures to { result ≤ℤ pos 10000000 }
{
    let mut greatest = first;
    for slab in slabs {
        greatest = greatest.max(slab.area);
    }
    greatest
}

/// The greater thickness of both sides, in mm.
pub(crate) fn deepest(section: &Section) -> i64
    requires cut { IsSlabTable section.now.cut }
    requires fill { IsSlabTable section.now.fill }
    ensures value { result ≡ deepest section.now }
    ensures from { pos 0 ≤ℤ result }
    ensures to { result ≤ℤ pos 40000000 }
{
    thickness_of(section.cut.as_slice()).max(thickness_of(section.fill.as_slice()))
}

// The slopes of a section's volume over a range of offsets, and the right sides of its four rows.
ghost use Rattle.std.specs.Prelude.{◌≡◌, ◌≤◌, fold, ℤ, pos, ◌+ℤ◌, ◌≤ℤ◌, int_le, ◌&&◌, if◌then◌else◌, [], ◌∷◌};
ghost use Rattle.std.specs.Int.{int_min, int_max};
ghost use Rattle.road_types.specs.Lines.{areas_between, lines_over};
ghost use Rattle.road_types.specs.Ranges.{IsHeightRange};
ghost use Rattle.road_types.specs.WellFormed.{IsSlabTable, IsSolidSlab};
ghost use Rattle.section_rows.specs.inside.Scans.{area_within, IsScan};

use crate::numbers::opposite;
use road_types::{Section, Slab, net_volume};

/// The least and the greatest slope that were found, and the depth down to which slabs were looked at, in mm.
#[derive(Clone, Copy, Debug)]
pub(crate) struct Scan {
    pub(crate) top: i64,
    pub(crate) least: i64,
    pub(crate) greatest: i64,
}

/// The depth at which a slab ends that begins at a depth.
fn bottom_of(slab: Slab, top: i64) -> i64
    requires slab { IsSolidSlab slab }
    requires from { pos 0 ≤ℤ top }
    requires to { top ≤ℤ pos 100000000 }
    ensures value { result ≡ top +ℤ slab.thick }
    ensures from { pos 0 ≤ℤ result }
{
    top + slab.thick
}

/// Whether one range of depths lies within another.
fn lies_within(top: i64, bottom: i64, low: i64, high: i64) -> bool
    ensures { result ≡ int_le low top && int_le bottom high }
{
    low <= top && bottom <= high
}

/// The lesser of a slope and an area that counts.
fn least_with(least: i64, counts: bool, area: i64) -> i64
    requires from { pos 0 ≤ℤ least }
    requires to { least ≤ℤ pos 10000000 }
    requires area { pos 0 ≤ℤ area }
    ensures value { result ≡ fold int_min least (if counts then area ∷ [] else []) }
    ensures from { pos 0 ≤ℤ result }
    ensures to { result ≤ℤ pos 10000000 }
{
    if counts { least.min(area) } else { least }
}

/// The greater of a slope and an area that counts.
fn greatest_with(greatest: i64, counts: bool, area: i64) -> i64
    requires from { pos 0 ≤ℤ greatest }
    requires to { greatest ≤ℤ pos 10000000 }
    requires area { area ≤ℤ pos 10000000 }
    ensures value { result ≡ fold int_max greatest (if counts then area ∷ [] else []) }
    ensures from { pos 0 ≤ℤ result }
    ensures to { result ≤ℤ pos 10000000 }
{
    if counts { greatest.max(area) } else { greatest }
}

/// The scan with the next slab, whose area counts where it lies wholly between two depths.
fn with_slab(scan: Scan, slab: Slab, low: i64, high: i64) -> Scan
    requires scan { IsScan scan }
    requires slab { IsSolidSlab slab }
    requires top { scan.top ≤ℤ pos 100000000 }
    ensures top { result.top ≡ scan.top +ℤ slab.thick }
    ensures least { result.least ≡ fold int_min scan.least (area_within slab scan.top low high) }
    ensures greatest { result.greatest ≡ fold int_max scan.greatest (area_within slab scan.top low high) }
    ensures scan { IsScan result }
{
    let bottom = bottom_of(slab, scan.top);
    let counts = lies_within(scan.top, bottom, low, high);
    Scan {
        top: bottom,
        least: least_with(scan.least, counts, slab.area),
        greatest: greatest_with(scan.greatest, counts, slab.area),
    }
}

/// The scan with all slabs of a table, from the ground on.
fn with_table(first: Scan, slabs: &[Slab], low: i64, high: i64) -> Scan
    requires scan { IsScan first }
    requires slabs { IsSlabTable slabs.now }
    ensures least { result.least ≡ fold int_min first.least (areas_between slabs.now (pos 0) low high) }
    ensures greatest { result.greatest ≡ fold int_max first.greatest (areas_between slabs.now (pos 0) low high) }
    ensures scan { IsScan result }
{
    let mut scan = Scan {
        top: 0,
        least: first.least,
        greatest: first.greatest,
    };
    for slab in slabs {
        scan = with_slab(scan, *slab, low, high);
    }
    scan
}

/// The slopes of a section's volume over a range of offsets.
pub(crate) fn slopes(section: &Section, range: (i64, i64)) -> Scan
    requires cut { IsSlabTable section.now.cut }
    requires fill { IsSlabTable section.now.fill }
    requires range { IsHeightRange section.now range }
    ensures least { result.least ≡ (lines_over section.now range).least }
    ensures greatest { result.greatest ≡ (lines_over section.now range).greatest }
    ensures scan { IsScan result }
{
    let first = Scan {
        top: 0,
        least: 10_000_000,
        greatest: 0,
    };
    let cut = with_table(
        first,
        section.cut.as_slice(),
        opposite(range.1),
        opposite(range.0),
    );
    with_table(cut, section.fill.as_slice(), range.0, range.1)
}

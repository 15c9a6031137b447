// How much of an optimum the two parts of a split cut off: the score by which a split is chosen. No plan and no bound depends on a
// score, so that its arithmetic saturates.
ghost use Rattle.std.specs.Prelude.{pos, ◌≤ℤ◌};

use road_types::{Section, Slab};

/// Where a point shows a section: its offset in mm and the volume moved in litres, each rounded down.
#[derive(Clone, Copy)]
pub struct Place {
    pub offset: i128,
    pub volume: i128,
}

/// The least and the greatest area, in m², of the slabs between two offsets.
#[derive(Clone, Copy)]
pub struct Areas {
    pub least: i128,
    pub greatest: i128,
}

/// A place from its numbers over a denominator.
pub(crate) fn rounded(offset: i128, volume: i128, den: i128) -> Place
    requires { pos 1 ≤ℤ den }
{
    Place {
        offset: offset.div_euclid(den),
        volume: volume.div_euclid(den),
    }
}

/// The product of what the two parts of a split at an offset cut off.
pub(crate) fn score(section: &Section, range: (i64, i64), at: i64, place: Place) -> i128 {
    let low = i128::from(range.0);
    let high = i128::from(range.1);
    let place = Place {
        offset: clamped(place.offset, low, high),
        volume: place.volume,
    };
    let at = i128::from(at);
    cut_off(section, low, at, place).saturating_mul(cut_off(section, at, high, place))
}

/// Whether the volume of a place differs from that of its offset, brought into a range, by more than a litre.
pub(crate) fn is_apart(section: &Section, range: (i64, i64), place: Place) -> bool {
    let offset = clamped(place.offset, i128::from(range.0), i128::from(range.1));
    let volume = net_volume(section, offset);
    outside(place.volume, volume, volume) > 1
}

/// By how much a section's volume differs between the ends of a range of offsets, in litres.
pub(crate) fn width(section: &Section, range: (i64, i64)) -> i128 {
    net_volume(section, i128::from(range.1)).saturating_sub(net_volume(
        section,
        i128::from(range.0),
    ))
}

/// How far a place lies outside a part, in litres: the distance of its volume from what the part's rows allow at the nearest offset of
/// the part, and the least area of the part times the distance to that offset.
fn cut_off(section: &Section, low: i128, high: i128, place: Place) -> i128 {
    let areas = areas_within(section, low, high);
    let nearest = clamped(place.offset, low, high);
    let from_low = nearest.saturating_sub(low);
    let to_high = high.saturating_sub(nearest);
    let at_low = net_volume(section, low);
    let at_high = net_volume(section, high);
    let least = at_low
        .saturating_add(areas.least.saturating_mul(from_low))
        .max(at_high.saturating_sub(areas.greatest.saturating_mul(to_high)));
    let greatest = at_low
        .saturating_add(areas.greatest.saturating_mul(from_low))
        .min(at_high.saturating_sub(areas.least.saturating_mul(to_high)));
    outside(place.volume, least, greatest).saturating_add(
        areas.least.saturating_mul(outside(place.offset, low, high)),
    )
}

/// The number of a range that is nearest to a number.
fn clamped(x: i128, low: i128, high: i128) -> i128 {
    x.max(low).min(high)
}

/// How far a number lies outside a range.
fn outside(x: i128, low: i128, high: i128) -> i128 {
    low.saturating_sub(x).max(x.saturating_sub(high)).max(0)
}

/// The areas of the slabs of a section between two offsets; 0 where there are none.
fn areas_within(section: &Section, low: i128, high: i128) -> Areas {
    let filled = table_areas(section.fill.as_slice(), low, high);
    let cut = table_areas(
        section.cut.as_slice(),
        high.saturating_neg(),
        low.saturating_neg(),
    );
    match (filled, cut) {
        (None, None) => Areas {
            least: 0,
            greatest: 0,
        },
        (Some(areas), None) | (None, Some(areas)) => areas,
        (Some(areas), Some(others)) => joined(areas, others),
    }
}

/// The areas of the slabs of a table between two depths.
fn table_areas(slabs: &[Slab], low: i128, high: i128) -> Option<Areas> {
    let mut areas = None;
    let mut depth = 0i128;
    for slab in slabs {
        let below = depth.saturating_add(i128::from(slab.thick));
        if low <= depth && below <= high {
            areas = Some(with_area(areas, i128::from(slab.area)));
        }
        depth = below;
    }
    areas
}

/// Areas, and one more.
fn with_area(areas: Option<Areas>, area: i128) -> Areas {
    let one = Areas {
        least: area,
        greatest: area,
    };
    match areas {
        None => one,
        Some(areas) => joined(areas, one),
    }
}

/// The least and the greatest of both.
fn joined(areas: Areas, others: Areas) -> Areas {
    Areas {
        least: areas.least.min(others.least),
        greatest: areas.greatest.max(others.greatest),
    }
}

/// The volume that fills a section up to an offset, less what is cut down to it, in litres.
fn net_volume(section: &Section, offset: i128) -> i128 {
    let filled = table_volume(section.fill.as_slice(), offset);
    let cut = table_volume(section.cut.as_slice(), offset.saturating_neg());
    filled.saturating_sub(cut)
}

/// The volume of the slabs of a table down to a depth, 0 where the depth is below 0, in litres.
fn table_volume(slabs: &[Slab], depth: i128) -> i128 {
    let mut volume = 0i128;
    let mut left = depth.max(0);
    for slab in slabs {
        let layer = left.min(i128::from(slab.thick));
        volume = volume.saturating_add(i128::from(slab.area).saturating_mul(layer));
        left = left.saturating_sub(layer);
    }
    volume
}

// Roads made up so that the flow of a given profile is theirs: all heights are 0, and each section lies as far from the profile as gives
// it its volume. Nothing is claimed of them: whether such a road is accepted is asked of the road itself.
ghost use Rattle.std.specs.Prelude.{◌≡◌, None};
ghost use Rattle.road_types.specs.Faults.{road_fault};

use crate::free_splits::{Rough, moved_volume, number_of};
use crate::settled::{Amounts, column};
use crate::splines::in_grid;
use road_types::{Access, Block, Fixed, Hop, Listed, Pit, Road, Section, Slab, Text};
use std::alloc::{AllocError, Global};

/// The area of the slab that holds most of a volume, in m².
const AREA: i128 = 10_000_000;

/// What may flow more in any case, in litres over the grid.
const SPARE: i128 = 64;

/// The greatest cap of a road, in litres.
const GREATEST_CAP: i128 = 100_000_000_000_000;

/// What flows at a point: its road and numbers, the grid in whose parts it is counted, and by how much more may flow.
#[derive(Clone, Copy)]
pub struct Flow<'a> {
    pub road: &'a Road,
    pub point: Rough<'a>,
    pub grid: i128,
    pub slack: i128,
}

/// The flow of a point, with room for volumes over the grid that differ from the point's.
pub(crate) fn flow_near<'a>(
    road: &'a Road,
    point: Rough<'a>,
    volumes: &[i128],
    grid: i128,
) -> Flow<'a>
    requires accepted { road_fault road.now ≡ None }
    ensures { result.road.now ≡ road.now }
{
    let mut apart = 0i128;
    for before in 0..road.sections.len() {
        let moved = in_grid(
            moved_volume(road, point, before.saturating_add(1)),
            point.unit,
            grid,
        );
        let by = number_at(volumes, before).saturating_sub(moved);
        apart = apart.saturating_add(by.saturating_abs());
    }
    Flow {
        road,
        point,
        grid,
        slack: apart.saturating_mul(4).saturating_add(SPARE),
    }
}

/// A cap times the grid, or what flows and may flow more, if that is less.
fn cap_of(flow: Flow<'_>, cap: i64, kind: Amounts, number: usize) -> i64
    requires accepted { road_fault flow.road.now ≡ None }
{
    let mut most = 0i128;
    for before in 0..flow.road.stages {
        most = most.max(amount_at(flow, kind, number, before.saturating_add(1)));
    }
    scaled(cap, flow, most)
}

/// What flows of a kind in a stage, in parts of the grid.
fn amount_at(flow: Flow<'_>, kind: Amounts, number: usize, stage: usize) -> i128
    requires accepted { road_fault flow.road.now ≡ None }
{
    in_grid(
        number_of(flow.road, flow.point, column(kind, number, stage)),
        flow.point.unit,
        flow.grid,
    )
}

/// The flat road of a road whose sections have these volumes in litres over the grid, fill less cut.
pub(crate) fn flat_road(alloc: Global, flow: Flow<'_>, volumes: &[i128]) -> Result<Road, AllocError>
    requires accepted { road_fault flow.road.now ≡ None }
{
    let road = flow.road;
    let knots = ends_of(alloc, road.knots.as_slice())?;
    let sections = flat_sections(alloc, flow, volumes)?;
    let pits = scaled_pits(alloc, flow)?;
    let roads = scaled_accesses(alloc, flow)?;
    let blocks: Vec<Block> = Vec::from_slice(alloc, road.blocks.as_slice())?;
    let hops = scaled_hops(alloc, flow)?;
    let fixed: Vec<Fixed> = Vec::new(alloc);
    Ok(Road {
        step: road.step,
        stages: road.stages,
        knots: Listed::new(knots),
        low: 0,
        high: 0,
        grade: (0, 0),
        curve: 0,
        sections: Listed::new(sections),
        fixed: Listed::new(fixed),
        pits: Listed::new(pits),
        roads: Listed::new(roads),
        blocks: Listed::new(blocks),
        hops: Listed::new(hops),
        nodes: 1,
        pivots: road.pivots,
    })
}

/// The first and the last of the stations.
fn ends_of(alloc: Global, stations: &[i64]) -> Result<Vec<i64>, AllocError> {
    let mut ends = Vec::new(alloc);
    if !stations.is_empty() {
        ends.push(stations[0])?;
        ends.push(stations[stations.len() - 1])?;
    }
    Ok(ends)
}

fn flat_sections(
    alloc: Global,
    flow: Flow<'_>,
    volumes: &[i128],
) -> Result<Vec<Section>, AllocError>
    requires accepted { road_fault flow.road.now ≡ None }
{
    let mut sections = Vec::new(alloc);
    let mut number = 1usize;
    for section in flow.road.sections.as_slice() {
        let volume = number_at(volumes, number.saturating_sub(1));
        sections.push(flat_section(alloc, flow, section, number, volume)?)?;
        number = number.saturating_add(1);
    }
    Ok(sections)
}

/// A section which lies below height 0 where its volume is filled, and above where it is cut.
fn flat_section(
    alloc: Global,
    flow: Flow<'_>,
    section: &Section,
    number: usize,
    volume: i128,
) -> Result<Section, AllocError>
    requires accepted { road_fault flow.road.now ≡ None }
{
    let moved = slabs_of(alloc, volume.saturating_abs())?;
    let other = slabs_of(alloc, 0)?;
    let depth = depth_of(volume.saturating_abs());
    let is_cut = volume < 0;
    let (cut, fill, ground) = if is_cut {
        (moved, other, depth)
    } else {
        (other, moved, 0i64.saturating_sub(depth))
    };
    Ok(Section {
        station: section.station,
        ground,
        cut: Listed::new(cut),
        fill: Listed::new(fill),
        cut_cost: section.cut_cost,
        fill_cost: section.fill_cost,
        cut_max: cap_of(flow, section.cut_max, Amounts::Cut, number),
        fill_max: cap_of(flow, section.fill_max, Amounts::Fill, number),
    })
}

/// Slabs whose whole volume is this one; a thin one where it is 0.
fn slabs_of(alloc: Global, volume: i128) -> Result<Vec<Slab>, AllocError> {
    let whole = volume.div_euclid(AREA);
    let rest = volume.rem_euclid(AREA);
    let mut slabs = Vec::new(alloc);
    if whole > 0 {
        slabs.push(Slab {
            thick: narrowed(whole),
            area: narrowed(AREA),
        })?;
    }
    if rest > 0 {
        slabs.push(Slab {
            thick: 1,
            area: narrowed(rest),
        })?;
    }
    if slabs.is_empty() {
        slabs.push(Slab { thick: 1, area: 1 })?;
    }
    Ok(slabs)
}

/// How deep the slabs of a volume are, in mm; 0 where it is 0.
fn depth_of(volume: i128) -> i64 {
    let whole = volume.div_euclid(AREA);
    if volume.rem_euclid(AREA) > 0 {
        narrowed(whole.saturating_add(1))
    } else {
        narrowed(whole)
    }
}

fn scaled_pits(alloc: Global, flow: Flow<'_>) -> Result<Vec<Pit>, AllocError>
    requires accepted { road_fault flow.road.now ≡ None }
{
    let all = all_accesses(flow);
    let mut pits = Vec::new(alloc);
    for pit in flow.road.pits.as_slice() {
        pits.push(scaled_pit(alloc, flow, pit, all)?)?;
    }
    Ok(pits)
}

/// What flows on all access roads in all stages, in parts of the grid.
fn all_accesses(flow: Flow<'_>) -> i128
    requires accepted { road_fault flow.road.now ≡ None }
{
    let mut all = 0i128;
    for before in 0..flow.road.roads.len() {
        for stage in 0..flow.road.stages {
            let amount = amount_at(
                flow,
                Amounts::Access,
                before.saturating_add(1),
                stage.saturating_add(1),
            );
            all = all.saturating_add(amount);
        }
    }
    all
}

fn scaled_pit(alloc: Global, flow: Flow<'_>, pit: &Pit, all: i128) -> Result<Pit, AllocError> {
    let name = String::from_str(alloc, pit.name.as_str())?;
    Ok(Pit {
        name: Text::new(name),
        kind: pit.kind,
        capacity: scaled(pit.capacity, flow, all),
        cost: pit.cost,
    })
}

fn scaled_accesses(alloc: Global, flow: Flow<'_>) -> Result<Vec<Access>, AllocError>
    requires accepted { road_fault flow.road.now ≡ None }
{
    let mut roads = Vec::new(alloc);
    let mut number = 1usize;
    for access in flow.road.roads.as_slice() {
        roads.push(Access {
            pit: access.pit,
            section: access.section,
            cost: access.cost,
            max: cap_of(flow, access.max, Amounts::Access, number),
        })?;
        number = number.saturating_add(1);
    }
    Ok(roads)
}

fn scaled_hops(alloc: Global, flow: Flow<'_>) -> Result<Vec<Hop>, AllocError>
    requires accepted { road_fault flow.road.now ≡ None }
{
    let mut hops = Vec::new(alloc);
    let mut number = 1usize;
    for hop in flow.road.hops.as_slice() {
        hops.push(Hop {
            right_cost: hop.right_cost,
            right_max: cap_of(flow, hop.right_max, Amounts::Right, number),
            left_cost: hop.left_cost,
            left_max: cap_of(flow, hop.left_max, Amounts::Left, number),
        })?;
        number = number.saturating_add(1);
    }
    Ok(hops)
}

/// A cap times the grid, or so much as flows and may flow more, or the greatest cap there is.
fn scaled(cap: i64, flow: Flow<'_>, most: i128) -> i64 {
    let whole = i128::from(cap).saturating_mul(flow.grid);
    narrowed(whole.min(most.saturating_add(flow.slack)).min(GREATEST_CAP))
}

/// A number in 64 bits, or the greatest of these.
fn narrowed(x: i128) -> i64 {
    match i64::try_from(x) {
        Ok(narrow) => narrow,
        Err(_) => i64::MAX,
    }
}

/// A number of a list, 0 where there is none.
fn number_at(numbers: &[i128], place: usize) -> i128 {
    if place < numbers.len() {
        numbers[place]
    } else {
        0
    }
}

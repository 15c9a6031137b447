// Plans put together from a profile and a flow. Nothing is claimed of how they come about: each is judged by all rules before it is held.
ghost use Rattle.std.specs.Prelude.{◌≡◌, None, OnOk, IsTrue};
ghost use Rattle.algebra.specs.Scale.{IsScale};
ghost use Rattle.road_types.specs.Faults.{road_fault};
ghost use Rattle.plan_rules.specs.Rules.{IsAdmissible};
ghost use Rattle.best_first.specs.Keys.{IsKey};
ghost use Rattle.branch_bound.specs.inside.Searches.{IsBest};
ghost use Rattle.branch_bound.specs.inside.Pieces.{IsImproved};

use crate::best::Best;
use crate::flat_roads::{flat_road, flow_near};
use crate::free_splits::{Rough, number_of};
use crate::piece_boxes::{Aim, PARTS, piece_box};
use crate::solving::{cheaper, end_of, priced};
use crate::splines::{height_at, in_grid, spline_near, station_at};
use algebra::GREATEST_SCALE;
use milp_builder::build;
use numbers::Frac;
use plan_rules::{Piece, Plan, Verdict, judge};
use road_types::{Column, Listed, Road, Section, Slab};
use simplex::LpEnd;
use std::alloc::{AllocError, Global};

/// The finest grid on which profiles are settled: parts of a mm, of a mm per step and of a mm per step².
const FINEST: i128 = 1_048_576;

/// The number of grids, each half as fine as the one before.
const GRIDS: usize = 17;

/// The greatest magnitude of a bound's value.
const GREATEST_VALUE: u128 = 77_371_252_455_336_267_181_195_264;

/// Offers a plan at a point of a box of single pieces: the point's own where its denominator is that of a plan, and else one on a grid.
pub(crate) fn offer_near(
    alloc: Global,
    road: &Road,
    point: Rough<'_>,
    opens: &[usize],
    best: &mut Option<Best>,
) -> Result<(), AllocError>
    requires accepted { road_fault road.now ≡ None }
    requires best { IsBest road.now best.old }
    ensures { OnOk result (IsImproved road.now best.old best.new) }
{
    if point.unit > GREATEST_SCALE {
        return offer_settled(alloc, road, point, opens, best);
    }
    let pieces = pieces_of(alloc, road, point)?;
    let plan = plan_of_flow(alloc, road, point, pieces, opens, point.unit)?;
    offer(road, plan, best);
    Ok(())
}

/// Offers a plan on the finest grid on which there is one near a point.
#[tactic(auto, using(crate::proofs::PieceLemmas::improved_same))]
fn offer_settled(
    alloc: Global,
    road: &Road,
    point: Rough<'_>,
    opens: &[usize],
    best: &mut Option<Best>,
) -> Result<(), AllocError>
    requires accepted { road_fault road.now ≡ None }
    requires best { IsBest road.now best.old }
    ensures { OnOk result (IsImproved road.now best.old best.new) }
{
    if let Some(plan) = finest(alloc, road, point, opens)? {
        offer(road, plan, best);
    }
    Ok(())
}

/// A plan on the finest grid on which there is one near a point.
fn finest(
    alloc: Global,
    road: &Road,
    point: Rough<'_>,
    opens: &[usize],
) -> Result<Option<Plan>, AllocError>
    requires accepted { road_fault road.now ≡ None }
{
    let mut grid = FINEST;
    for _turn in 0..GRIDS {
        if let Some(plan) = settled(alloc, road, point, opens, grid)? {
            return Ok(Some(plan));
        }
        grid = grid.div_euclid(2);
    }
    Ok(None)
}

/// A plan on a grid near a point, where there is a profile and a flow of it.
fn settled(
    alloc: Global,
    road: &Road,
    point: Rough<'_>,
    opens: &[usize],
    grid: i128,
) -> Result<Option<Plan>, AllocError>
    requires accepted { road_fault road.now ≡ None }
{
    if !is_light(alloc, road, point, grid)? {
        return Ok(None);
    }
    match spline_near(alloc, road, point, grid)? {
        Some(pieces) => settled_at(alloc, road, point, pieces, opens, grid),
        None => Ok(None),
    }
}

/// Whether the flat road of the volumes at about the offsets of a point is accepted: before a profile is looked for on a grid that is too
/// fine.
fn is_light(alloc: Global, road: &Road, point: Rough<'_>, grid: i128) -> Result<bool, AllocError>
    requires accepted { road_fault road.now ≡ None }
{
    let mut volumes = Vec::new(alloc);
    let mut number = 1usize;
    for section in road.sections.as_slice() {
        let offset = number_of(road, point, Column::Offset { section: number });
        volumes.push(volume_at(section, in_grid(offset, point.unit, grid), grid))?;
        number = number.saturating_add(1);
    }
    let flow = flow_near(road, point, volumes.as_slice(), grid);
    let flat = flat_road(alloc, flow, volumes.as_slice())?;
    Ok(flat.check().is_none())
}

/// The plan of pieces over a grid, with a cheapest flow.
fn settled_at(
    alloc: Global,
    road: &Road,
    point: Rough<'_>,
    pieces: Vec<Piece>,
    opens: &[usize],
    grid: i128,
) -> Result<Option<Plan>, AllocError>
    requires accepted { road_fault road.now ≡ None }
{
    let volumes = volumes_of(alloc, road, pieces.as_slice(), grid)?;
    let flow = flow_near(road, point, volumes.as_slice(), grid);
    let flat = flat_road(alloc, flow, volumes.as_slice())?;
    match flat.check() {
        Some(_) => Ok(None),
        None => flow_on(alloc, &flat, pieces, opens, grid),
    }
}

/// The plan of pieces over a grid, with a cheapest flow of the flat road.
fn flow_on(
    alloc: Global,
    flat: &Road,
    pieces: Vec<Piece>,
    opens: &[usize],
    grid: i128,
) -> Result<Option<Plan>, AllocError>
    requires accepted { road_fault flat.now ≡ None }
{
    let aim = flat_aim(alloc, flat, opens)?;
    let range = piece_box(alloc, flat, &aim)?;
    let milp = build(alloc, flat, &range)?;
    match end_of(alloc, flat, &milp)? {
        LpEnd::Best { den, point, .. } => {
            let flow = Rough {
                unit: den,
                numbers: point.as_slice(),
            };
            let pieces = times(alloc, pieces.as_slice(), den)?;
            let plan = plan_of_flow(alloc, flat, flow, pieces, opens, grid.saturating_mul(den))?;
            Ok(Some(plan))
        }
        LpEnd::Empty { .. } | LpEnd::Pivots { .. } | LpEnd::Wide { .. } => Ok(None),
    }
}

/// The aim at the offsets of a flat road.
fn flat_aim(alloc: Global, flat: &Road, opens: &[usize]) -> Result<Aim, AllocError> {
    let opens: Vec<usize> = Vec::from_slice(alloc, opens)?;
    let mut offsets = Vec::new(alloc);
    for section in flat.sections.as_slice() {
        offsets.push(
            0i128
                .saturating_sub(i128::from(section.ground))
                .saturating_mul(PARTS),
        )?;
    }
    Ok(Aim { opens, offsets })
}

/// The pieces with each number so many times as large.
fn times(alloc: Global, pieces: &[Piece], by: i128) -> Result<Vec<Piece>, AllocError> {
    let mut products = Vec::new(alloc);
    for piece in pieces {
        products.push(Piece {
            a: piece.a.saturating_mul(by),
            b: piece.b.saturating_mul(by),
            c: piece.c.saturating_mul(by),
        })?;
    }
    Ok(products)
}

/// The volumes of the sections on pieces over a grid, in litres over the grid: fill less cut.
fn volumes_of(
    alloc: Global,
    road: &Road,
    pieces: &[Piece],
    grid: i128,
) -> Result<Vec<i128>, AllocError> {
    let mut volumes = Vec::new(alloc);
    for section in road.sections.as_slice() {
        let height = height_on(road.knots.as_slice(), pieces, section.station);
        let offset = height.saturating_sub(i128::from(section.ground).saturating_mul(grid));
        volumes.push(volume_at(section, offset, grid))?;
    }
    Ok(volumes)
}

/// The height of pieces at a station: that of the first piece that ends there or behind.
fn height_on(knots: &[i64], pieces: &[Piece], station: i64) -> i128 {
    let mut from = station_at(knots, 0);
    let mut place = 1usize;
    for piece in pieces {
        let to = station_at(knots, place);
        if station <= to {
            let along = i128::from(station).saturating_sub(i128::from(from));
            return height_at(piece.a, piece.b, piece.c, along);
        }
        from = to;
        place = place.saturating_add(1);
    }
    0
}

/// The volume of a section at an offset over a grid, in litres over the grid.
fn volume_at(section: &Section, offset: i128, grid: i128) -> i128 {
    let fill = volume_within(section.fill.as_slice(), offset, grid);
    let cut = volume_within(section.cut.as_slice(), 0i128.saturating_sub(offset), grid);
    fill.saturating_sub(cut)
}

/// The volume of slabs down to a depth over a grid; 0 where the depth is below 0.
fn volume_within(slabs: &[Slab], depth: i128, grid: i128) -> i128 {
    let mut left = depth.max(0);
    let mut volume = 0i128;
    for slab in slabs {
        let part = left.min(i128::from(slab.thick).saturating_mul(grid));
        volume = volume.saturating_add(part.saturating_mul(i128::from(slab.area)));
        left = left.saturating_sub(part);
    }
    volume
}

/// The pieces that a point shows, over its denominator.
fn pieces_of(alloc: Global, road: &Road, point: Rough<'_>) -> Result<Vec<Piece>, AllocError>
    requires accepted { road_fault road.now ≡ None }
{
    let mut pieces = Vec::new(alloc);
    for before in 1..road.knots.len() {
        pieces.push(Piece {
            a: number_of(road, point, Column::A { segment: before }),
            b: number_of(road, point, Column::B { segment: before }),
            c: number_of(road, point, Column::C { segment: before }),
        })?;
    }
    Ok(pieces)
}

/// Which amounts of a flow a table has.
#[derive(Clone, Copy)]
pub enum Amounts {
    Cut,
    Fill,
    Right,
    Left,
    Access,
}

/// The plan of pieces and the flow that a point of a road shows, all over the denominator.
fn plan_of_flow(
    alloc: Global,
    road: &Road,
    flow: Rough<'_>,
    pieces: Vec<Piece>,
    opens: &[usize],
    den: i128,
) -> Result<Plan, AllocError>
    requires accepted { road_fault road.now ≡ None }
{
    let sections = road.sections.len();
    let hops = road.hops.len();
    let cut = table_of(alloc, road, flow, Amounts::Cut, sections)?;
    let fill = table_of(alloc, road, flow, Amounts::Fill, sections)?;
    let right = table_of(alloc, road, flow, Amounts::Right, hops)?;
    let left = table_of(alloc, road, flow, Amounts::Left, hops)?;
    let roads = table_of(alloc, road, flow, Amounts::Access, road.roads.len())?;
    let opens = openings(alloc, opens)?;
    Ok(Plan {
        den,
        pieces: Listed::new(pieces),
        cut: Listed::new(cut),
        fill: Listed::new(fill),
        right: Listed::new(right),
        left: Listed::new(left),
        roads: Listed::new(roads),
        opens: Listed::new(opens),
    })
}

/// The amounts of one kind, by stage.
fn table_of(
    alloc: Global,
    road: &Road,
    flow: Rough<'_>,
    kind: Amounts,
    count: usize,
) -> Result<Vec<Listed<i128>>, AllocError>
    requires accepted { road_fault road.now ≡ None }
{
    let mut table = Vec::new(alloc);
    for stage in 0..road.stages {
        let row = row_of(alloc, road, flow, kind, count, stage.saturating_add(1))?;
        table.push(Listed::new(row))?;
    }
    Ok(table)
}

/// The amounts of one kind in a stage.
fn row_of(
    alloc: Global,
    road: &Road,
    flow: Rough<'_>,
    kind: Amounts,
    count: usize,
    stage: usize,
) -> Result<Vec<i128>, AllocError>
    requires accepted { road_fault road.now ≡ None }
{
    let mut row = Vec::new(alloc);
    for before in 0..count {
        row.push(number_of(road, flow, column(kind, before.saturating_add(1), stage)))?;
    }
    Ok(row)
}

pub(crate) fn column(kind: Amounts, number: usize, stage: usize) -> Column {
    match kind {
        Amounts::Cut => Column::Cut {
            section: number,
            stage,
        },
        Amounts::Fill => Column::Fill {
            section: number,
            stage,
        },
        Amounts::Right => Column::Right { hop: number, stage },
        Amounts::Left => Column::Left { hop: number, stage },
        Amounts::Access => Column::Access {
            road: number,
            stage,
        },
    }
}

/// Openings in a byte each, 0 where one is too large.
fn openings(alloc: Global, stages: &[usize]) -> Result<Vec<u8>, AllocError> {
    let mut opens = Vec::new(alloc);
    for stage in stages {
        let opening = match u8::try_from(*stage) {
            Ok(opening) => opening,
            Err(_) => 0,
        };
        opens.push(opening)?;
    }
    Ok(opens)
}

/// Holds a plan where it keeps all rules and is cheaper than the best one.
#[tactic(auto, using(crate::proofs::PieceLemmas::improved_same))]
fn offer(road: &Road, plan: Plan, best: &mut Option<Best>)
    requires accepted { road_fault road.now ≡ None }
    requires best { IsBest road.now best.old }
    ensures { IsImproved road.now best.old best.new }
{
    if is_admissible(road, &plan) {
        hold(road, plan, best);
    } else {
        drop(plan);
    }
}

/// Whether a plan fits the road and keeps all rules.
fn is_admissible(road: &Road, plan: &Plan) -> bool
    requires accepted { road_fault road.now ≡ None }
    ensures { IsTrue result → IsAdmissible road.now plan.now × IsScale plan.now.den }
{
    if !plan.fits(road) {
        return false;
    }
    match judge(road, plan) {
        Verdict::Admissible { .. } => true,
        Verdict::Broken { .. } => false,
    }
}

/// Holds an admissible plan where it is cheaper than the best one.
#[tactic(auto, using(crate::proofs::PieceLemmas::improved_same, crate::proofs::PieceLemmas::offered, crate::proofs::SearchLemmas::cost_key))]
fn hold(road: &Road, plan: Plan, best: &mut Option<Best>)
    requires accepted { road_fault road.now ≡ None }
    requires admissible { IsAdmissible road.now plan }
    requires den { IsScale plan.den }
    requires best { IsBest road.now best.old }
    ensures { IsImproved road.now best.old best.new }
{
    let found = priced(road, plan);
    if is_key(&found.cost) {
        *best = Some(cheaper(found, best.take()));
    } else {
        drop(found);
    }
}

/// Whether a cost's numbers are within the widths of a bound's.
fn is_key(cost: &Frac) -> bool
    ensures { IsTrue result → IsKey (cost.now.num, cost.now.den) }
{
    cost.num().unsigned_abs() <= GREATEST_VALUE && 1 <= cost.den() && cost.den() <= GREATEST_SCALE
}

// Pieces on a grid near those of a point: a beam of whole-number splines, segment by segment. Nothing is claimed of what is found; limits,
// fixed points and the reach of the slabs are looked at on the way, so that a plan of the pieces has a chance to keep all rules.
ghost use Rattle.std.specs.Prelude.{◌≡◌, None};
ghost use Rattle.road_types.specs.Faults.{road_fault};

use crate::free_splits::{Rough, number_of};
use plan_rules::Piece;
use road_types::{Column, Fixed, Road, Slab};
use std::alloc::{AllocError, Global};

/// The number of splines that are kept at each knot.
const WIDTH: usize = 100;

/// The least denominator that is shortened.
const LONG_UNIT: i128 = 1_267_650_600_228_229_401_496_703_205_376;

/// A section as the splines meet it; but for the station all numbers are in parts of the grid.
#[derive(Clone, Copy)]
struct Target {
    station: i64,
    ground: i128,
    low: i128,
    high: i128,
    wanted: i128,
}

/// A spline up to a knot: height and grade there, the last curve, where the spline up to the knot before stands, and how far it lies from
/// what is wanted: over its sections alone, and with what its end lets expect.
#[derive(Clone, Copy)]
struct Node {
    a: i128,
    b: i128,
    c: i128,
    before: usize,
    miss: i128,
    rank: i128,
}

/// The segment that is walked: its stations, and height, grade and curve that are wanted at its end.
#[derive(Clone, Copy)]
struct Segment {
    from: i64,
    to: i64,
    is_first: bool,
    is_last: bool,
    height: i128,
    grade: i128,
    curve: i128,
}

/// Pieces near those of a point, as whole numbers over a grid; none where none was found.
pub(crate) fn spline_near(
    alloc: Global,
    road: &Road,
    wanted: Rough<'_>,
    grid: i128,
) -> Result<Option<Vec<Piece>>, AllocError>
    requires accepted { road_fault road.now ≡ None }
{
    let targets = targets_of(alloc, road, wanted, grid)?;
    let mut nodes = starts_of(alloc, road, wanted, grid)?;
    let mut from = 0usize;
    for segment in 1..road.knots.len() {
        let until = nodes.len();
        let walked = segment_at(road, wanted, grid, segment);
        let mut beam = Vec::new(alloc);
        for place in from..until {
            if place < nodes.len() {
                walk(
                    road,
                    targets.as_slice(),
                    walked,
                    grid,
                    place,
                    nodes[place],
                    &mut beam,
                )?;
            }
        }
        for node in beam.as_slice() {
            nodes.push(*node)?;
        }
        from = until;
    }
    pieces_back(alloc, road, nodes.as_slice(), from)
}

/// A number over a denominator, in parts of a grid, rounded down; 0 where the denominator is below 1. Past 2^100 the denominator is
/// shortened first, so that nothing saturates.
pub(crate) fn in_grid(x: i128, unit: i128, grid: i128) -> i128 {
    if unit < 1 || grid < 1 {
        return 0;
    }
    let whole = x.div_euclid(unit).saturating_mul(grid);
    let rest = x.rem_euclid(unit);
    whole.saturating_add(if unit < LONG_UNIT {
        rest.saturating_mul(grid).div_euclid(unit)
    } else {
        divided(rest, unit.div_euclid(grid))
    })
}

fn targets_of(
    alloc: Global,
    road: &Road,
    wanted: Rough<'_>,
    grid: i128,
) -> Result<Vec<Target>, AllocError>
    requires accepted { road_fault road.now ≡ None }
{
    let mut targets = Vec::new(alloc);
    let mut number = 1usize;
    for section in road.sections.as_slice() {
        let offset = number_of(road, wanted, Column::Offset { section: number });
        targets.push(Target {
            station: section.station,
            ground: i128::from(section.ground).saturating_mul(grid),
            low: 0i128.saturating_sub(thickness(section.cut.as_slice(), grid)),
            high: thickness(section.fill.as_slice(), grid),
            wanted: in_grid(offset, wanted.unit, grid),
        })?;
        number = number.saturating_add(1);
    }
    Ok(targets)
}

fn thickness(slabs: &[Slab], grid: i128) -> i128 {
    let mut total = 0i128;
    for slab in slabs {
        total = total.saturating_add(i128::from(slab.thick).saturating_mul(grid));
    }
    total
}

/// Where splines begin: heights and grades about those that are wanted.
fn starts_of(
    alloc: Global,
    road: &Road,
    wanted: Rough<'_>,
    grid: i128,
) -> Result<Vec<Node>, AllocError>
    requires accepted { road_fault road.now ≡ None }
{
    let a = in_grid(
        number_of(road, wanted, Column::A { segment: 1 }),
        wanted.unit,
        grid,
    );
    let b = in_grid(
        number_of(road, wanted, Column::B { segment: 1 }),
        wanted.unit,
        grid,
    );
    let mut nodes = Vec::new(alloc);
    for by in 0..4usize {
        for more in 0..4usize {
            nodes.push(Node {
                a: about(a, by),
                b: about(b, more),
                c: 0,
                before: 0,
                miss: 0,
                rank: 0,
            })?;
        }
    }
    Ok(nodes)
}

fn segment_at(road: &Road, wanted: Rough<'_>, grid: i128, segment: usize) -> Segment
    requires accepted { road_fault road.now ≡ None }
{
    let knots = road.knots.as_slice();
    let from = station_at(knots, segment.saturating_sub(1));
    let to = station_at(knots, segment);
    let length = i128::from(to).saturating_sub(i128::from(from));
    let a = in_grid(
        number_of(road, wanted, Column::A { segment }),
        wanted.unit,
        grid,
    );
    let b = in_grid(
        number_of(road, wanted, Column::B { segment }),
        wanted.unit,
        grid,
    );
    let c = in_grid(
        number_of(road, wanted, Column::C { segment }),
        wanted.unit,
        grid,
    );
    let next = segment.saturating_add(1);
    let is_last = next >= knots.len();
    Segment {
        from,
        to,
        is_first: segment == 1,
        is_last,
        height: if is_last {
            height_at(a, b, c, length)
        } else {
            in_grid(
                number_of(road, wanted, Column::A { segment: next }),
                wanted.unit,
                grid,
            )
        },
        grade: if is_last {
            grade_at(b, c, length)
        } else {
            in_grid(
                number_of(road, wanted, Column::B { segment: next }),
                wanted.unit,
                grid,
            )
        },
        curve: c,
    }
}

pub(crate) fn station_at(knots: &[i64], place: usize) -> i64 {
    if place < knots.len() { knots[place] } else { 0 }
}

/// The height along a piece.
pub(crate) fn height_at(a: i128, b: i128, c: i128, along: i128) -> i128 {
    c.saturating_mul(along)
        .saturating_add(b)
        .saturating_mul(along)
        .saturating_add(a)
}

fn grade_at(b: i128, c: i128, along: i128) -> i128 {
    c.saturating_mul(2).saturating_mul(along).saturating_add(b)
}

/// Puts the splines that go on from one over a segment into the beam.
fn walk(
    road: &Road,
    targets: &[Target],
    segment: Segment,
    grid: i128,
    place: usize,
    node: Node,
    beam: &mut Vec<Node>,
) -> Result<(), AllocError> {
    let length = i128::from(segment.to).saturating_sub(i128::from(segment.from));
    if length < 1
        || !is_within(road.low, road.high, grid, node.a)
        || !is_grade(road, grid, node.b)
    {
        return Ok(());
    }
    let straight = height_at(node.a, node.b, 0, length);
    let by_height = divided(segment.height.saturating_sub(straight), square(length));
    let by_grade = divided(
        segment.grade.saturating_sub(node.b),
        length.saturating_mul(2),
    );
    for more in 0..4usize {
        let c = about(segment.curve, more);
        go_on(road, targets, segment, grid, place, node, c, beam)?;
        let c = about(by_height, more);
        if !is_near(c, segment.curve) {
            go_on(road, targets, segment, grid, place, node, c, beam)?;
        }
        let c = about(by_grade, more);
        if !is_near(c, segment.curve) && !is_near(c, by_height) {
            go_on(road, targets, segment, grid, place, node, c, beam)?;
        }
    }
    Ok(())
}

/// A quotient, rounded down; 0 where the divisor is below 1.
fn divided(x: i128, by: i128) -> i128 {
    if by < 1 { 0 } else { x.div_euclid(by) }
}

/// The number that is so much more than one less than another.
fn about(x: i128, more: usize) -> i128 {
    x.saturating_add(more as i128).saturating_sub(1)
}

/// Whether a curve is among those that are tried about another one.
fn is_near(c: i128, about: i128) -> bool {
    let by = c.saturating_sub(about);
    -1 <= by && by <= 2
}

/// Whether a number over the grid lies between two whole ones.
fn is_within(low: i64, high: i64, grid: i128, x: i128) -> bool {
    i128::from(low).saturating_mul(grid) <= x && x <= i128::from(high).saturating_mul(grid)
}

fn is_grade(road: &Road, grid: i128, b: i128) -> bool {
    is_within(road.grade.0, road.grade.1, grid, b)
}

/// Puts the spline that goes on with a curve into the beam, where it keeps the road's limits.
fn go_on(
    road: &Road,
    targets: &[Target],
    segment: Segment,
    grid: i128,
    place: usize,
    node: Node,
    c: i128,
    beam: &mut Vec<Node>,
) -> Result<(), AllocError> {
    let length = i128::from(segment.to).saturating_sub(i128::from(segment.from));
    let a = height_at(node.a, node.b, c, length);
    let b = grade_at(node.b, c, length);
    if c.saturating_abs() > i128::from(road.curve).saturating_mul(grid)
        || !is_grade(road, grid, b)
        || !passes_all(road.fixed.as_slice(), segment, grid, node, c)
    {
        return Ok(());
    }
    let Some(here) = miss_of(targets, segment, node, c) else {
        return Ok(());
    };
    let miss = node.miss.saturating_add(here);
    let by_height = a.saturating_sub(segment.height);
    let by_grade = b.saturating_sub(segment.grade).saturating_mul(length);
    let ahead = if segment.is_last {
        0
    } else {
        square(by_height).saturating_add(square(by_height.saturating_add(by_grade)))
    };
    let next = Node {
        a,
        b,
        c,
        before: place,
        miss,
        rank: miss.saturating_add(ahead.saturating_mul(2)),
    };
    put(beam, next)
}

fn square(x: i128) -> i128 {
    x.saturating_mul(x)
}

/// Whether a station lies on a segment; the first one has both of its ends.
fn is_on(segment: Segment, station: i64) -> bool {
    station <= segment.to
        && (station > segment.from || (segment.is_first && station == segment.from))
}

/// The height of a spline at a station of the segment.
fn height_there(segment: Segment, node: Node, c: i128, station: i64) -> i128 {
    height_at(
        node.a,
        node.b,
        c,
        i128::from(station).saturating_sub(i128::from(segment.from)),
    )
}

fn passes_all(fixed: &[Fixed], segment: Segment, grid: i128, node: Node, c: i128) -> bool {
    for point in fixed {
        if is_on(segment, point.station)
            && !is_within(
                point.low,
                point.high,
                grid,
                height_there(segment, node, c, point.station),
            )
        {
            return false;
        }
    }
    true
}

/// How far a spline lies from what is wanted at the segment's sections; none where it leaves the slabs.
fn miss_of(targets: &[Target], segment: Segment, node: Node, c: i128) -> Option<i128> {
    let mut miss = 0i128;
    for target in targets {
        if is_on(segment, target.station) {
            let height = height_there(segment, node, c, target.station);
            let offset = height.saturating_sub(target.ground);
            if offset < target.low || offset > target.high {
                return None;
            }
            miss = miss.saturating_add(square(offset.saturating_sub(target.wanted)));
        }
    }
    Some(miss)
}

/// Puts a spline in its place by rank, and lets the last one go where there are too many.
fn put(beam: &mut Vec<Node>, node: Node) -> Result<(), AllocError> {
    beam.push(node)?;
    let mut place = beam.len().saturating_sub(1);
    for _turn in 0..WIDTH.saturating_add(1) {
        if place == 0 || place >= beam.len() || beam[place - 1].rank <= beam[place].rank {
            break;
        }
        beam.swap(place - 1, place);
        place = place.saturating_sub(1);
    }
    if beam.len() > WIDTH {
        beam.pop();
    }
    Ok(())
}

/// The pieces of the spline that lies nearest at the sections, of those from a place on.
fn pieces_back(
    alloc: Global,
    road: &Road,
    nodes: &[Node],
    from: usize,
) -> Result<Option<Vec<Piece>>, AllocError> {
    let Some(place) = nearest(nodes, from) else {
        return Ok(None);
    };
    let mut curves = Vec::new(alloc);
    let mut at = place;
    for _turn in 1..road.knots.len() {
        if at < nodes.len() {
            curves.push(nodes[at].c)?;
            at = nodes[at].before;
        }
    }
    if at >= nodes.len() {
        return Ok(None);
    }
    Ok(Some(pieces_from(alloc, road, nodes[at], curves.as_slice())?))
}

/// The spline that lies nearest at the sections, of those from a place on.
fn nearest(nodes: &[Node], from: usize) -> Option<usize> {
    let mut best = None;
    for place in from..nodes.len() {
        best = match best {
            Some(found) => {
                if nodes[place].miss < miss_at(nodes, found) {
                    Some(place)
                } else {
                    Some(found)
                }
            }
            None => Some(place),
        };
    }
    best
}

fn miss_at(nodes: &[Node], place: usize) -> i128 {
    if place < nodes.len() {
        nodes[place].miss
    } else {
        0
    }
}

/// The pieces of a spline from its beginning on, by its curves, the last one first.
fn pieces_from(
    alloc: Global,
    road: &Road,
    start: Node,
    curves: &[i128],
) -> Result<Vec<Piece>, AllocError> {
    let knots = road.knots.as_slice();
    let mut pieces = Vec::new(alloc);
    let mut a = start.a;
    let mut b = start.b;
    for segment in 1..knots.len() {
        let c = curve_at(curves, segment);
        pieces.push(Piece { a, b, c })?;
        let from = station_at(knots, segment.saturating_sub(1));
        let length = i128::from(station_at(knots, segment)).saturating_sub(i128::from(from));
        a = height_at(a, b, c, length);
        b = grade_at(b, c, length);
    }
    Ok(pieces)
}

/// The curve of a segment, of curves whose last comes first; 0 where there is none.
fn curve_at(curves: &[i128], segment: usize) -> i128 {
    if 0 < segment && segment <= curves.len() {
        curves[curves.len() - segment]
    } else {
        0
    }
}

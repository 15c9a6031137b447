// Numbers within their ranges, and names of their form; the tests that a reader of roads asks too are public.
ghost use Rattle.std.specs.Prelude.{◌≡◌};
ghost use Rattle.std.specs.List.{list_all};
ghost use Rattle.road_types.specs.RecordFaults.{is_between, is_station, is_height, is_grade, is_curve, is_measure, is_cost, is_cap, is_step, is_stages, is_name_byte, is_name, slab_in_range, section_in_range, hop_in_range, fixed_in_range, pit_in_range, access_in_range, block_in_range, prices_in_range, grades_in_range, limits_in_range, scales_in_range, lists_in_range, is_in_range};

use crate::{Access, Block, Fixed, Hop, Pit, Road, Section, Slab};

/// Whether low <= x <= high.
pub fn is_between(low: i64, high: i64, x: i64) -> bool
    ensures { result ≡ is_between low high x }
{
    low <= x && x <= high
}

/// Whether a station or a knot, in whole steps, is in 0..=100000.
pub fn is_station(x: i64) -> bool
    ensures { result ≡ is_station x }
{
    is_between(0, 100_000, x)
}

/// Whether a height, in mm, is in -10000000..=10000000.
pub fn is_height(x: i64) -> bool
    ensures { result ≡ is_height x }
{
    is_between(-10_000_000, 10_000_000, x)
}

fn is_grade(x: i64) -> bool
    ensures { result ≡ is_grade x }
{
    is_between(-1_000_000, 1_000_000, x)
}

/// Whether a curve, in mm per step², is in 0..=1000000.
pub fn is_curve(x: i64) -> bool
    ensures { result ≡ is_curve x }
{
    is_between(0, 1_000_000, x)
}

/// Whether a thickness, in mm, or an area, in m², is in -10000000..=10000000.
pub fn is_measure(x: i64) -> bool
    ensures { result ≡ is_measure x }
{
    is_between(-10_000_000, 10_000_000, x)
}

/// Whether a cost, in cost units, is in 0..=1000000.
pub fn is_cost(x: i64) -> bool
    ensures { result ≡ is_cost x }
{
    is_between(0, 1_000_000, x)
}

/// Whether a cap or a capacity, in litres, is in 0..=100000000000000.
pub fn is_cap(x: i64) -> bool
    ensures { result ≡ is_cap x }
{
    is_between(0, 100_000_000_000_000, x)
}

/// Whether a step, in metres, is in 1..=1000.
pub fn is_step(x: i64) -> bool
    ensures { result ≡ is_step x }
{
    is_between(1, 1000, x)
}

fn is_stages(n: usize) -> bool
    ensures { result ≡ is_stages n }
{
    1 <= n && n <= 4
}

fn is_name_byte(b: u8) -> bool
    ensures { result ≡ is_name_byte b }
{
    (48 <= b && b <= 57) || (65 <= b && b <= 90) || (97 <= b && b <= 122) || b == 95 || b == 45
}

fn are_name_bytes(bytes: &[u8]) -> bool
    ensures { result ≡ list_all is_name_byte bytes.now }
{
    bytes.iter().all(|b| is_name_byte(*b))
}

/// Whether a name has 1 to 32 bytes of letters, digits, `_` and `-` of ASCII.
pub fn is_name(name: &str) -> bool
    ensures { result ≡ is_name name.now }
{
    1 <= name.len() && name.len() <= 32 && are_name_bytes(name.as_bytes())
}

fn slab_in_range(s: &Slab) -> bool
    ensures { result ≡ slab_in_range s.now }
{
    is_measure(s.thick) && is_measure(s.area)
}

fn slabs_in_range(slabs: &[Slab]) -> bool
    ensures { result ≡ list_all slab_in_range slabs.now }
{
    slabs.iter().all(slab_in_range)
}

fn prices_in_range(s: &Section) -> bool
    ensures { result ≡ prices_in_range s.now }
{
    is_cost(s.cut_cost) && is_cost(s.fill_cost) && is_cap(s.cut_max) && is_cap(s.fill_max)
}

fn section_in_range(s: &Section) -> bool
    ensures { result ≡ section_in_range s.now }
{
    is_station(s.station)
        && is_height(s.ground)
        && slabs_in_range(s.cut.as_slice())
        && slabs_in_range(s.fill.as_slice())
        && prices_in_range(s)
}

fn hop_in_range(h: &Hop) -> bool
    ensures { result ≡ hop_in_range h.now }
{
    is_cost(h.right_cost) && is_cap(h.right_max) && is_cost(h.left_cost) && is_cap(h.left_max)
}

fn fixed_in_range(f: &Fixed) -> bool
    ensures { result ≡ fixed_in_range f.now }
{
    is_station(f.station) && is_height(f.low) && is_height(f.high)
}

fn pit_in_range(p: &Pit) -> bool
    ensures { result ≡ pit_in_range p.now }
{
    is_name(p.name.as_str()) && is_cap(p.capacity) && is_cost(p.cost)
}

fn access_in_range(a: &Access) -> bool
    ensures { result ≡ access_in_range a.now }
{
    is_cost(a.cost) && is_cap(a.max)
}

/// Whether every knot is in its range.
pub fn stations_in_range(stations: &[i64]) -> bool
    ensures { result ≡ list_all is_station stations.now }
{
    stations.iter().all(|x| is_station(*x))
}

/// Whether the station, ground, thicknesses, areas, costs and caps of every section are in their ranges.
pub fn sections_in_range(sections: &[Section]) -> bool
    ensures { result ≡ list_all section_in_range sections.now }
{
    sections.iter().all(section_in_range)
}

/// Whether the costs and caps of every hop are in their ranges.
pub fn hops_in_range(hops: &[Hop]) -> bool
    ensures { result ≡ list_all hop_in_range hops.now }
{
    hops.iter().all(hop_in_range)
}

/// Whether the station and the heights of every fixed point are in their ranges.
pub fn fixed_points_in_range(points: &[Fixed]) -> bool
    ensures { result ≡ list_all fixed_in_range points.now }
{
    points.iter().all(fixed_in_range)
}

fn pits_in_range(pits: &[Pit]) -> bool
    ensures { result ≡ list_all pit_in_range pits.now }
{
    pits.iter().all(pit_in_range)
}

fn roads_in_range(roads: &[Access]) -> bool
    ensures { result ≡ list_all access_in_range roads.now }
{
    roads.iter().all(access_in_range)
}

fn blocks_in_range(blocks: &[Block]) -> bool
    ensures { result ≡ list_all block_in_range blocks.now }
{
    blocks.iter().all(|b| is_cost(b.cost))
}

/// Whether both grades, in mm per step, are in -1000000..=1000000.
pub fn grades_in_range(grade: (i64, i64)) -> bool
    ensures { result ≡ grades_in_range grade }
{
    is_grade(grade.0) && is_grade(grade.1)
}

fn limits_in_range(road: &Road) -> bool
    ensures { result ≡ limits_in_range road.now }
{
    is_height(road.low)
        && is_height(road.high)
        && grades_in_range(road.grade)
        && is_curve(road.curve)
}

fn scales_in_range(road: &Road) -> bool
    ensures { result ≡ scales_in_range road.now }
{
    is_step(road.step) && is_stages(road.stages) && stations_in_range(road.knots.as_slice())
}

fn lists_in_range(road: &Road) -> bool
    ensures { result ≡ lists_in_range road.now }
{
    sections_in_range(road.sections.as_slice())
        && hops_in_range(road.hops.as_slice())
        && fixed_points_in_range(road.fixed.as_slice())
        && pits_in_range(road.pits.as_slice())
        && roads_in_range(road.roads.as_slice())
        && blocks_in_range(road.blocks.as_slice())
}

/// Whether every number of the record is within its range and every name of its form.
#[tactic(auto, unfolding(crate::specs::RecordFaults::is_in_range))]
pub(crate) fn is_in_range(road: &Road) -> bool
    ensures { result ≡ is_in_range road.now }
{
    scales_in_range(road) && limits_in_range(road) && lists_in_range(road)
}

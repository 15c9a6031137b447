// The weight of a road, by what stands on it.
ghost use Rattle.std.specs.Prelude.{◌≡◌, pos, ◌+◌, ◌-◌, ◌*◌, ◌^◌, ◌≤◌, unsigned_abs, nat_le, if◌then◌else◌};
ghost use Rattle.algebra.specs.Totals.{total_to};
ghost use Rattle.algebra.specs.Numbered.{IsNumber};
ghost use Rattle.programs.specs.Weights.{reach};
ghost use Rattle.road_types.specs.WellFormed.{IsWellFormed, IsWellFormedSection, IsWellFormedHop, IsOnKnots};
ghost use Rattle.road_types.specs.Heights.{steps_along, segment_length};
ghost use Rattle.road_types.specs.Lines.{widest_area, deepest};
ghost use Rattle.road_types.specs.Road.{section, hop, fixed_point, block, section_count, segment_count, hop_count, fixed_count, pit_count, access_count, block_count};
ghost use Rattle.road_types.specs.RecordFaults.{is_number};
ghost use Rattle.road_types.specs.RoadPrograms.{road_weight};
ghost use Rattle.road_types.specs.inside.Loads.{height_reach, grade_reach, curve_reach, height_load, grade_load, earth_cap, earth_cost, line_load, section_load, joint_load, segment_load, fixed_load, hop_load, access_load, pit_load, haul_cap, block_load};

use crate::lines::{deepest, widest_area};
use crate::{Hop, Road, Section};

impl Road {
    /// The weight of the road's program, which bounds all sums that are formed over its rows and columns.
    pub fn weight(&self) -> i128
        requires { IsWellFormed self.now }
        ensures value { result ≡ pos (road_weight self.now) }
        ensures small { road_weight self.now ≤ 2 ^ 120 }
    {
        let heights = sections_load(self) + (joints_load(self) + segments_load(self));
        let hauls = fixed_points_load(self) + hops_load(self);
        let rest = accesses_load(self) + (pits_load(self) + blocks_load(self));
        total(heights, hauls + rest)
    }
}

/// Two small numbers together, as a signed number.
fn total(a: u128, b: u128) -> i128
    requires a { a ≤ 2 ^ 119 }
    requires b { b ≤ 2 ^ 119 }
    ensures { result ≡ pos (a + b) }
{
    (a + b) as i128
}

// ---- numbers

/// The magnitude of a number.
fn magnitude(x: i64) -> u128
    ensures { result ≡ unsigned_abs x }
{
    u128::from(x.unsigned_abs())
}

/// The greater magnitude of two bounds.
fn reach(low: i64, high: i64) -> u128
    ensures { result ≡ reach (low, high) }
{
    magnitude(low).max(magnitude(high))
}

/// The product of two magnitudes.
fn product(a: u128, b: u128) -> u128
    requires a { a ≤ 2 ^ 50 }
    requires b { b ≤ 2 ^ 50 }
    ensures value { result ≡ a * b }
    ensures small { result ≤ 2 ^ 100 }
{
    a * b
}

/// The product of a number of stages with an amount.
fn product_of_few(few: u128, amount: u128) -> u128
    requires few { few ≤ 4 }
    requires amount { amount ≤ 2 ^ 104 }
    ensures value { result ≡ few * amount }
    ensures small { result ≤ 2 ^ 106 }
{
    few * amount
}

/// The square of a number of steps.
fn square(s: u128) -> u128
    requires { s ≤ 2 ^ 17 }
    ensures value { result ≡ s * s }
    ensures small { result ≤ 2 ^ 34 }
{
    s * s
}

/// The number of stages times an amount.
fn staged(road: &Road, amount: u128) -> u128
    requires well_formed { IsWellFormed road.now }
    requires amount { amount ≤ 2 ^ 104 }
    ensures value { result ≡ road.now.stages * amount }
    ensures small { result ≤ 2 ^ 106 }
{
    product_of_few(road.stages as u128, amount)
}

/// The number of stages behind the first one times an amount.
fn later_staged(road: &Road, amount: u128) -> u128
    requires well_formed { IsWellFormed road.now }
    requires amount { amount ≤ 2 ^ 104 }
    ensures value { result ≡ (road.now.stages - 1) * amount }
    ensures small { result ≤ 2 ^ 106 }
{
    product_of_few((road.stages - 1) as u128, amount)
}

// ---- heights and grades

fn height_reach(road: &Road) -> u128
    requires { IsWellFormed road.now }
    ensures value { result ≡ height_reach road.now }
    ensures small { result ≤ 2 ^ 24 }
{
    reach(road.low, road.high)
}

fn grade_reach(road: &Road) -> u128
    requires { IsWellFormed road.now }
    ensures value { result ≡ grade_reach road.now }
    ensures small { result ≤ 2 ^ 20 }
{
    reach(road.grade.0, road.grade.1)
}

fn curve_reach(road: &Road) -> u128
    requires { IsWellFormed road.now }
    ensures value { result ≡ curve_reach road.now }
    ensures small { result ≤ 2 ^ 20 }
{
    magnitude(road.curve)
}

/// A height after so many steps.
fn height_load(road: &Road, s: u128) -> u128
    requires well_formed { IsWellFormed road.now }
    requires s { s ≤ 2 ^ 17 }
    ensures value { result ≡ height_load road.now s }
    ensures small { result ≤ 2 ^ 102 }
{
    height_reach(road) + (product(s, grade_reach(road)) + product(square(s), curve_reach(road)))
}

/// A grade after so many steps.
fn grade_load(road: &Road, s: u128) -> u128
    requires well_formed { IsWellFormed road.now }
    requires s { s ≤ 2 ^ 17 }
    ensures value { result ≡ grade_load road.now s }
    ensures small { result ≤ 2 ^ 102 }
{
    grade_reach(road) + product(2 * s, curve_reach(road))
}

/// The height at a station.
fn station_load(road: &Road, station: i64) -> u128
    requires well_formed { IsWellFormed road.now }
    requires station { IsOnKnots road.now station }
    ensures value { result ≡ height_load road.now (unsigned_abs (steps_along road.now.knots station)) }
    ensures small { result ≤ 2 ^ 102 }
{
    height_load(
        road,
        magnitude(road.steps_from(road.segment_of(station), station)),
    )
}

/// The length of a segment.
fn length(road: &Road, segment: usize) -> u128
    requires well_formed { IsWellFormed road.now }
    requires segment { IsNumber segment (segment_count road.now) }
    ensures value { result ≡ unsigned_abs (segment_length road.now.knots segment) }
    ensures small { result ≤ 2 ^ 17 }
{
    magnitude(road.segment_length(segment))
}

// ---- sections

/// The most that is cut and filled at a section in one stage.
fn earth_cap(road: &Road, section: &Section) -> u128
    requires { IsWellFormedSection road.now section.now }
    ensures value { result ≡ earth_cap section.now }
    ensures small { result ≤ 2 ^ 48 }
{
    magnitude(section.cut_max) + magnitude(section.fill_max)
}

/// What that costs.
fn earth_cost(road: &Road, section: &Section) -> u128
    requires { IsWellFormedSection road.now section.now }
    ensures value { result ≡ earth_cost section.now }
    ensures small { result ≤ 2 ^ 101 }
{
    product(magnitude(section.cut_cost), magnitude(section.cut_max))
        + product(magnitude(section.fill_cost), magnitude(section.fill_max))
}

/// The greatest area of a section's slabs times its greatest depth.
fn line_load(road: &Road, section: &Section) -> u128
    requires { IsWellFormedSection road.now section.now }
    ensures value { result ≡ line_load section.now }
    ensures small { result ≤ 2 ^ 100 }
{
    product(magnitude(widest_area(section)), magnitude(deepest(section)))
}

/// The rows of a section's volume.
fn volume_load(road: &Road, section: &Section) -> u128
    requires well_formed { IsWellFormed road.now }
    requires section { IsWellFormedSection road.now section.now }
    ensures value { result ≡ 4 * (3 * line_load section.now + road.now.stages * earth_cap section.now) }
    ensures small { result ≤ 2 ^ 109 }
{
    4 * (3 * line_load(road, section) + staged(road, earth_cap(road, section)))
}

/// The row of a section's offset.
fn offset_load(road: &Road, section: &Section) -> u128
    requires well_formed { IsWellFormed road.now }
    requires section { IsWellFormedSection road.now section.now }
    ensures value { result ≡ height_load road.now (unsigned_abs (steps_along road.now.knots section.now.station))
        + (unsigned_abs (deepest section.now) + unsigned_abs section.now.ground) }
    ensures small { result ≤ 2 ^ 103 }
{
    station_load(road, section.station) + (magnitude(deepest(section)) + magnitude(section.ground))
}

/// All rows and costs of a section.
fn section_load(road: &Road, section: &Section) -> u128
    requires well_formed { IsWellFormed road.now }
    requires section { IsWellFormedSection road.now section.now }
    ensures value { result ≡ section_load road.now section.now }
    ensures small { result ≤ 2 ^ 110 }
{
    let balances = staged(road, earth_cap(road, section));
    let costs = staged(road, earth_cost(road, section));
    offset_load(road, section) + (volume_load(road, section) + (balances + costs))
}

fn sections_load(road: &Road) -> u128
    requires { IsWellFormed road.now }
    ensures value { result ≡ total_to (λ i. section_load road.now (section road.now i)) (section_count road.now) }
    ensures small { result ≤ 2 ^ 116 }
{
    let mut total = 0;
    for before in 0..road.sections.len() {
        total += section_load(road, road.section(before + 1));
    }
    total
}

// ---- segments and fixed points

/// The two rows that join a segment to the next one.
fn joint_load(road: &Road, segment: usize) -> u128
    requires well_formed { IsWellFormed road.now }
    requires segment { IsNumber segment (segment_count road.now) }
    ensures value { result ≡ joint_load road.now segment }
    ensures small { result ≤ 2 ^ 110 }
{
    let s = length(road, segment);
    (height_load(road, s) + height_reach(road)) + (grade_load(road, s) + grade_reach(road))
}

fn joints_load(road: &Road) -> u128
    requires { IsWellFormed road.now }
    ensures value { result ≡ total_to (joint_load road.now) (segment_count road.now - 1) }
    ensures small { result ≤ 2 ^ 116 }
{
    let mut total = 0;
    for before in 0..road.knots.len() - 2 {
        total += joint_load(road, before + 1);
    }
    total
}

/// The two rows that limit the grade at a segment's end.
fn segment_load(road: &Road, segment: usize) -> u128
    requires well_formed { IsWellFormed road.now }
    requires segment { IsNumber segment (segment_count road.now) }
    ensures value { result ≡ segment_load road.now segment }
    ensures small { result ≤ 2 ^ 110 }
{
    2 * grade_load(road, length(road, segment))
        + (magnitude(road.grade.0) + magnitude(road.grade.1))
}

fn segments_load(road: &Road) -> u128
    requires { IsWellFormed road.now }
    ensures value { result ≡ total_to (segment_load road.now) (segment_count road.now) }
    ensures small { result ≤ 2 ^ 116 }
{
    let mut total = 0;
    for before in 0..road.knots.len() - 1 {
        total += segment_load(road, before + 1);
    }
    total
}

/// The two rows of a fixed point.
fn fixed_load(road: &Road, number: usize) -> u128
    requires well_formed { IsWellFormed road.now }
    requires number { IsNumber number (fixed_count road.now) }
    ensures value { result ≡ fixed_load road.now number }
    ensures small { result ≤ 2 ^ 110 }
{
    let point = road.fixed_point(number);
    2 * station_load(road, point.station) + (magnitude(point.low) + magnitude(point.high))
}

fn fixed_points_load(road: &Road) -> u128
    requires { IsWellFormed road.now }
    ensures value { result ≡ total_to (fixed_load road.now) (fixed_count road.now) }
    ensures small { result ≤ 2 ^ 116 }
{
    let mut total = 0;
    for before in 0..road.fixed.len() {
        total += fixed_load(road, before + 1);
    }
    total
}

// ---- hauls, access roads and pits

/// The rows and costs of a hop's hauls.
fn hop_load(road: &Road, hop: Hop) -> u128
    requires well_formed { IsWellFormed road.now }
    requires hop { IsWellFormedHop hop }
    ensures value { result ≡ hop_load road.now hop }
    ensures small { result ≤ 2 ^ 110 }
{
    let right = magnitude(hop.right_max);
    let left = magnitude(hop.left_max);
    let costs = product(magnitude(hop.right_cost), right) + product(magnitude(hop.left_cost), left);
    staged(road, 2 * (right + left)) + staged(road, costs)
}

fn hops_load(road: &Road) -> u128
    requires { IsWellFormed road.now }
    ensures value { result ≡ total_to (λ h. hop_load road.now (hop road.now h)) (hop_count road.now) }
    ensures small { result ≤ 2 ^ 116 }
{
    let mut total = 0;
    for before in 0..road.hops.len() {
        total += hop_load(road, road.hop(before + 1));
    }
    total
}

/// The rows and costs of an access road's amounts.
fn access_load(road: &Road, number: usize) -> u128
    requires well_formed { IsWellFormed road.now }
    requires number { IsNumber number (access_count road.now) }
    ensures value { result ≡ access_load road.now number }
    ensures small { result ≤ 2 ^ 110 }
{
    let cap = magnitude(road.access(number).max);
    staged(road, 2 * cap) + staged(road, product(magnitude(road.access_unit_cost(number)), cap))
}

fn accesses_load(road: &Road) -> u128
    requires { IsWellFormed road.now }
    ensures value { result ≡ total_to (access_load road.now) (access_count road.now) }
    ensures small { result ≤ 2 ^ 116 }
{
    let mut total = 0;
    for before in 0..road.roads.len() {
        total += access_load(road, before + 1);
    }
    total
}

/// The row of a pit.
fn pit_load(road: &Road, number: usize) -> u128
    requires { IsNumber number (pit_count road.now) }
    ensures value { result ≡ pit_load road.now number }
    ensures small { result ≤ 2 ^ 110 }
{
    magnitude(road.pit(number).capacity)
}

fn pits_load(road: &Road) -> u128
    requires { IsWellFormed road.now }
    ensures value { result ≡ total_to (pit_load road.now) (pit_count road.now) }
    ensures small { result ≤ 2 ^ 116 }
{
    let mut total = 0;
    for before in 0..road.pits.len() {
        total += pit_load(road, before + 1);
    }
    total
}

// ---- blocks

/// The most that leaves a section by hauls in one stage; a hop past an end counts 0.
fn haul_cap(road: &Road, section: usize) -> u128
    requires well_formed { IsWellFormed road.now }
    requires section { IsNumber section (section_count road.now) }
    ensures value { result ≡ haul_cap road.now section }
    ensures small { result ≤ 2 ^ 48 }
{
    right_cap(road, section) + left_cap(road, section - 1)
}

/// The cap of hauls to the right over a hop, 0 past an end.
fn right_cap(road: &Road, number: usize) -> u128
    requires { IsWellFormed road.now }
    ensures value { result ≡ unsigned_abs (hop road.now number).right_max }
    ensures small { result ≤ 2 ^ 47 }
{
    if is_hop(road, number) {
        magnitude(road.hop(number).right_max)
    } else {
        0
    }
}

/// The cap of hauls to the left over a hop, 0 past an end.
fn left_cap(road: &Road, number: usize) -> u128
    requires { IsWellFormed road.now }
    ensures value { result ≡ unsigned_abs (hop road.now number).left_max }
    ensures small { result ≤ 2 ^ 47 }
{
    if is_hop(road, number) {
        magnitude(road.hop(number).left_max)
    } else {
        0
    }
}

/// The rows and the removal of a block.
fn block_load(road: &Road, number: usize) -> u128
    requires well_formed { IsWellFormed road.now }
    requires number { IsNumber number (block_count road.now) }
    ensures value { result ≡ block_load road.now number }
    ensures small { result ≤ 2 ^ 110 }
{
    let block = road.block(number);
    transit_load(road, block.section)
        + (stop_load(road, block.section) + (order_load(road) + removal_load(road, block.cost)))
}

/// The transit rows of a block at a section.
fn transit_load(road: &Road, number: usize) -> u128
    requires well_formed { IsWellFormed road.now }
    requires number { IsNumber number (section_count road.now) }
    ensures value { result ≡ road.now.stages * (unsigned_abs (section road.now number).cut_max + haul_cap road.now number)
        + (road.now.stages - 1) * haul_cap road.now number }
    ensures small { result ≤ 2 ^ 107 }
{
    let hauls = haul_cap(road, number);
    staged(road, magnitude(road.section(number).cut_max) + hauls) + later_staged(road, hauls)
}

/// The stop rows of a block at a section.
fn stop_load(road: &Road, number: usize) -> u128
    requires well_formed { IsWellFormed road.now }
    requires number { IsNumber number (section_count road.now) }
    ensures value { result ≡ (road.now.stages - 1) * (3 * earth_cap (section road.now number)) }
    ensures small { result ≤ 2 ^ 106 }
{
    later_staged(road, 3 * earth_cap(road, road.section(number)))
}

/// The order rows of a block.
fn order_load(road: &Road) -> u128
    requires { IsWellFormed road.now }
    ensures value { result ≡ 2 * (road.now.stages - 2) }
    ensures small { result ≤ 4 }
{
    2 * (road.stages.saturating_sub(2) as u128)
}

/// What a removal costs where there is a stage for it.
fn removal_load(road: &Road, cost: i64) -> u128
    ensures value { result ≡ if nat_le 2 road.now.stages then unsigned_abs cost else 0 }
    ensures small { result ≤ 2 ^ 64 }
{
    if 2 <= road.stages { magnitude(cost) } else { 0 }
}

fn blocks_load(road: &Road) -> u128
    requires { IsWellFormed road.now }
    ensures value { result ≡ total_to (block_load road.now) (block_count road.now) }
    ensures small { result ≤ 2 ^ 116 }
{
    let mut total = 0;
    for before in 0..road.blocks.len() {
        total += block_load(road, before + 1);
    }
    total
}

/// Whether a hop has this number.
fn is_hop(road: &Road, number: usize) -> bool
    ensures { result ≡ is_number number (hop_count road.now) }
{
    1 <= number && number <= road.hops.len()
}

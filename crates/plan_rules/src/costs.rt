// What a plan costs.
ghost use Rattle.std.specs.Prelude.{◌≡◌, ◌^◌, ◌≤◌, ◌*◌, unsigned_abs, None};
ghost use Rattle.road_types.specs.Numbered.{IsNumber};
ghost use Rattle.road_types.specs.Faults.{road_fault};
ghost use Rattle.road_types.specs.Road.{block_count};
ghost use Rattle.road_types.specs.WellFormed.{IsWellFormed};
ghost use Rattle.plan_rules.specs.Fits.{Fits};
ghost use Rattle.plan_rules.specs.Rules.{IsAdmissible};
ghost use Rattle.plan_rules.specs.Costs.{amounts_of, entry_count, entry_unit_cost, entry_cost, stage_cost, movement_cost, removal_cost, cut_total, fill_total, haul_total, access_total, removal_total, cost_of};
ghost use Rattle.plan_rules.specs.inside.Widths.{IsPayable};

use crate::entries::{amount_at, opening_at};
use crate::plan::Plan;
use algebra::{plus, times};
use road_types::{Listed, Road};

/// What is moved, each kind with its amounts by stage.
#[derive(Clone, Copy)]
enum Movement {
    Cut,
    Fill,
    Right,
    Left,
    Access,
}

/// What a plan costs by what is paid for, each total over the plan's denominator.
#[derive(Clone, Copy)]
pub struct CostTotals {
    /// Cut in all sections.
    pub cut: i128,
    /// Fill in all sections.
    pub fill: i128,
    /// Hauls over hops, both ways.
    pub haul: i128,
    /// Access roads with their pits.
    pub access: i128,
    /// Removals of blocks.
    pub removal: i128,
}

/// The five totals of an admissible plan, which together are its cost. Each has a magnitude of at most 2^118.
pub fn cost_totals(road: &Road, plan: &Plan) -> CostTotals
    requires accepted { road_fault road.now ≡ None }
    requires fits { Fits road.now plan.now }
    requires admissible { IsAdmissible road.now plan.now }
    ensures cut { result.cut ≡ cut_total road.now plan.now }
    ensures fill { result.fill ≡ fill_total road.now plan.now }
    ensures haul { result.haul ≡ haul_total road.now plan.now }
    ensures access { result.access ≡ access_total road.now plan.now }
    ensures removal { result.removal ≡ removal_total road.now plan.now }
    ensures cut_width { unsigned_abs result.cut ≤ 2 ^ 118 }
    ensures fill_width { unsigned_abs result.fill ≤ 2 ^ 118 }
    ensures haul_width { unsigned_abs result.haul ≤ 2 ^ 118 }
    ensures access_width { unsigned_abs result.access ≤ 2 ^ 118 }
    ensures removal_width { unsigned_abs result.removal ≤ 2 ^ 118 }
{
    totals(road, plan)
}

/// The five totals of a plan whose amounts are within their caps.
fn totals(road: &Road, plan: &Plan) -> CostTotals
    requires well_formed { IsWellFormed road.now }
    requires fits { Fits road.now plan.now }
    requires payable { IsPayable road.now plan.now }
    ensures cut { result.cut ≡ cut_total road.now plan.now }
    ensures fill { result.fill ≡ fill_total road.now plan.now }
    ensures haul { result.haul ≡ haul_total road.now plan.now }
    ensures access { result.access ≡ access_total road.now plan.now }
    ensures removal { result.removal ≡ removal_total road.now plan.now }
    ensures cut_width { unsigned_abs result.cut ≤ 48 * 10 ^ 21 * 2 ^ 40 }
    ensures fill_width { unsigned_abs result.fill ≤ 48 * 10 ^ 21 * 2 ^ 40 }
    ensures haul_width { unsigned_abs result.haul ≤ 96 * 10 ^ 21 * 2 ^ 40 }
    ensures access_width { unsigned_abs result.access ≤ 48 * 10 ^ 21 * 2 ^ 40 }
    ensures removal_width { unsigned_abs result.removal ≤ 2 ^ 62 }
{
    CostTotals {
        cut: movement_cost(road, plan, Movement::Cut),
        fill: movement_cost(road, plan, Movement::Fill),
        haul: haul_total(road, plan),
        access: movement_cost(road, plan, Movement::Access),
        removal: removal_total(road, plan),
    }
}

/// The cost of a plan whose amounts are within their caps, over its denominator.
pub fn cost_of(road: &Road, plan: &Plan) -> i128
    requires well_formed { IsWellFormed road.now }
    requires fits { Fits road.now plan.now }
    requires payable { IsPayable road.now plan.now }
    ensures value { result ≡ cost_of road.now plan.now }
    ensures width { unsigned_abs result ≤ 2 ^ 118 }
{
    let cut = movement_cost(road, plan, Movement::Cut);
    let fill = movement_cost(road, plan, Movement::Fill);
    let haul = haul_total(road, plan);
    let access = movement_cost(road, plan, Movement::Access);
    plus(
        plus(plus(plus(cut, fill), haul), access),
        removal_total(road, plan),
    )
}

/// The cost of hauls over hops, to the right and to the left.
fn haul_total(road: &Road, plan: &Plan) -> i128
    requires well_formed { IsWellFormed road.now }
    requires payable { IsPayable road.now plan.now }
    ensures value { result ≡ haul_total road.now plan.now }
    ensures width { unsigned_abs result ≤ 96 * 10 ^ 21 * 2 ^ 40 }
{
    plus(
        movement_cost(road, plan, Movement::Right),
        movement_cost(road, plan, Movement::Left),
    )
}

/// The cost of one kind of movement in all stages.
#[tactic(auto, unfolding(crate::specs::Costs::movement_cost))]
fn movement_cost(road: &Road, plan: &Plan, movement: Movement) -> i128
    requires well_formed { IsWellFormed road.now }
    requires payable { IsPayable road.now plan.now }
    ensures value { result ≡ movement_cost road.now plan.now movement }
    ensures width { unsigned_abs result ≤ 48 * 10 ^ 21 * 2 ^ 40 }
{
    let mut total = 0;
    for before in 0..road.stages {
        total = plus(total, stage_cost(road, plan, movement, before + 1));
    }
    total
}

/// The cost of one kind of movement in a stage.
#[tactic(auto, unfolding(crate::specs::Costs::stage_cost))]
fn stage_cost(road: &Road, plan: &Plan, movement: Movement, stage: usize) -> i128
    requires well_formed { IsWellFormed road.now }
    requires payable { IsPayable road.now plan.now }
    requires stage { IsNumber stage road.now.stages }
    ensures { result ≡ stage_cost road.now plan.now movement stage }
{
    let mut total = 0;
    for before in 0..entry_count(road, movement) {
        total = plus(total, entry_cost(road, plan, movement, stage, before + 1));
    }
    total
}

/// The cost of one entry: its unit cost times its amount.
fn entry_cost(road: &Road, plan: &Plan, movement: Movement, stage: usize, number: usize) -> i128
    requires well_formed { IsWellFormed road.now }
    requires payable { IsPayable road.now plan.now }
    requires stage { IsNumber stage road.now.stages }
    requires number { IsNumber number (entry_count road.now movement) }
    ensures { result ≡ entry_cost road.now plan.now movement stage number }
{
    let unit = entry_unit_cost(road, movement, number);
    times(
        i128::from(unit),
        amount_at(amounts_of(plan, movement), stage, number),
    )
}

/// How many entries of a kind of movement a stage has.
fn entry_count(road: &Road, movement: Movement) -> usize
    ensures { result ≡ entry_count road.now movement }
{
    match movement {
        Movement::Cut | Movement::Fill => road.sections.len(),
        Movement::Right | Movement::Left => road.hops.len(),
        Movement::Access => road.roads.len(),
    }
}

/// The amounts of a kind of movement, by stage.
fn amounts_of(plan: &Plan, movement: Movement) -> &Listed<Listed<i128>>
    ensures { result.now ≡ amounts_of plan.now movement }
{
    match movement {
        Movement::Cut => &plan.cut,
        Movement::Fill => &plan.fill,
        Movement::Right => &plan.right,
        Movement::Left => &plan.left,
        Movement::Access => &plan.roads,
    }
}

/// What a litre of an entry costs.
fn entry_unit_cost(road: &Road, movement: Movement, number: usize) -> i64
    requires well_formed { IsWellFormed road.now }
    requires number { IsNumber number (entry_count road.now movement) }
    ensures { result ≡ entry_unit_cost road.now movement number }
{
    match movement {
        Movement::Cut => road.section(number).cut_cost,
        Movement::Fill => road.section(number).fill_cost,
        Movement::Right => road.hop(number).right_cost,
        Movement::Left => road.hop(number).left_cost,
        Movement::Access => road.access_unit_cost(number),
    }
}

/// The cost of all removals.
#[tactic(auto, unfolding(crate::specs::Costs::removal_total))]
fn removal_total(road: &Road, plan: &Plan) -> i128
    requires well_formed { IsWellFormed road.now }
    requires fits { Fits road.now plan.now }
    ensures value { result ≡ removal_total road.now plan.now }
    ensures width { unsigned_abs result ≤ 2 ^ 62 }
{
    let mut total = 0;
    for before in 0..road.blocks.len() {
        total = plus(total, removal_cost(road, plan, before + 1));
    }
    total
}

/// The cost of a block's removal; 0 where it never opens.
fn removal_cost(road: &Road, plan: &Plan, number: usize) -> i128
    requires well_formed { IsWellFormed road.now }
    requires fits { Fits road.now plan.now }
    requires number { IsNumber number (block_count road.now) }
    ensures { result ≡ removal_cost road.now plan.now number }
{
    if opening_at(plan, number) <= road.stages {
        times(plan.den, i128::from(road.block(number).cost))
    } else {
        0
    }
}

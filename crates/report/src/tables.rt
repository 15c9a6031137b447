// The tables of a plan and of its mass diagram.
ghost use Rattle.std.specs.Prelude.{◌≡◌, ◌∷◌, [], ◌++◌, flat_map, IfOk, None, unsigned_abs, ◌<◌, ◌≤◌, ◌^◌, ◌+◌, ◌+ℤ◌};
ghost use Rattle.algebra.specs.Lists.{flat_to};
ghost use Rattle.algebra.specs.Scale.{IsScale};
ghost use Rattle.road_types.specs.Faults.{road_fault};
ghost use Rattle.road_types.specs.Numbered.{IsNumber};
ghost use Rattle.road_types.specs.Road.{hop_count, access_count};
ghost use Rattle.plan_rules.specs.Fits.{Fits};
ghost use Rattle.plan_rules.specs.Rules.{IsAdmissible};
ghost use Rattle.report.specs.Lines.{Adds};
ghost use Rattle.report.specs.Reports.{said_line, left_lines, access_lines, hauls_of_stage, plan_tables, cost_line};
ghost use Rattle.report.specs.Mass.{mass_tables};
ghost use Rattle.report.specs.inside.Listings.{cost_lines, all_cost_lines};
ghost use Rattle.report.specs.inside.Tables.{table_name, table_header, part_count, part_lines, table_lines};

use crate::cells::over_den;
use crate::entries::Listing;
use crate::lines::{push_row, push_said};
use crate::mass::{push_moment, push_nets};
use crate::zones::push_zones;
use algebra::plus;
use plan_rules::{CostTotals, Plan, cost_totals};
use road_types::Road;
use std::alloc::{AllocError, Global};

/// The tables of a report, and those of a mass diagram.
#[derive(Clone, Copy)]
enum Table {
    Profile,
    Earthwork,
    Haul,
    Blocks,
    Costs,
    Mass,
    Zones,
    Moment,
}

/// Adds the name and the header of a table.
fn push_heading(name: &str, header: &str, out: &mut Vec<u8>) -> Result<(), AllocError>
    ensures { IfOk result (λ _. Adds (said_line name.now ∷ said_line header.now ∷ []) out.old.items out.new.items) }
{
    push_said(name, out)?;
    push_said(header, out)
}

/// Adds what is hauled to the left and over access roads in a stage.
fn push_hauls_back(
    alloc: Global,
    road: &Road,
    plan: &Plan,
    stage: usize,
    out: &mut Vec<u8>,
) -> Result<(), AllocError>
    requires accepted { road_fault road.now ≡ None }
    requires fits { Fits road.now plan.now }
    requires admissible { IsAdmissible road.now plan.now }
    ensures { IfOk result (λ _. Adds (flat_to (left_lines plan.now stage) (hop_count road.now) ++ flat_to (access_lines road.now plan.now stage) (access_count road.now))
        out.old.items out.new.items) }
{
    Listing::Left.push_all(alloc, road, plan, stage, out)?;
    Listing::Access.push_all(alloc, road, plan, stage, out)
}

/// Adds what is hauled in a stage.
fn push_hauls_of_stage(
    alloc: Global,
    road: &Road,
    plan: &Plan,
    stage: usize,
    out: &mut Vec<u8>,
) -> Result<(), AllocError>
    requires accepted { road_fault road.now ≡ None }
    requires fits { Fits road.now plan.now }
    requires admissible { IsAdmissible road.now plan.now }
    ensures { IfOk result (λ _. Adds (hauls_of_stage road.now plan.now stage) out.old.items out.new.items) }
{
    Listing::Right.push_all(alloc, road, plan, stage, out)?;
    push_hauls_back(alloc, road, plan, stage, out)
}

/// Adds the row of a cost.
fn push_cost(
    alloc: Global,
    plan: &Plan,
    item: &str,
    cost: i128,
    out: &mut Vec<u8>,
) -> Result<(), AllocError>
    requires den { IsScale plan.now.den }
    requires cost { unsigned_abs cost < 2 ^ 127 }
    ensures { IfOk result (λ _. Adds (cost_line plan.now item.now cost ∷ []) out.old.items out.new.items) }
{
    let cost = over_den(alloc, plan, cost)?;
    push_row(alloc, &[item.as_bytes(), cost.as_bytes()], out)
}

/// The sum of a total so far and a further one.
fn further(so_far: i128, total: i128) -> i128
    requires so_far { unsigned_abs so_far ≤ 2 ^ 122 }
    requires total { unsigned_abs total ≤ 2 ^ 118 }
    ensures value { result ≡ so_far +ℤ total }
    ensures width { unsigned_abs result ≤ unsigned_abs so_far + 2 ^ 118 }
{
    plus(so_far, total)
}

/// The whole cost of an admissible plan.
pub(crate) fn whole_cost(totals: CostTotals) -> i128
    requires cut { unsigned_abs totals.cut ≤ 2 ^ 118 }
    requires fill { unsigned_abs totals.fill ≤ 2 ^ 118 }
    requires haul { unsigned_abs totals.haul ≤ 2 ^ 118 }
    requires access { unsigned_abs totals.access ≤ 2 ^ 118 }
    requires removal { unsigned_abs totals.removal ≤ 2 ^ 118 }
    ensures value { result ≡ (((totals.cut +ℤ totals.fill) +ℤ totals.haul) +ℤ totals.access) +ℤ totals.removal }
    ensures width { unsigned_abs result < 2 ^ 127 }
{
    let earthwork = further(totals.cut, totals.fill);
    let with_haul = further(earthwork, totals.haul);
    let with_access = further(with_haul, totals.access);
    further(with_access, totals.removal)
}

/// Adds the rows of the costs.
fn push_costs(
    alloc: Global,
    plan: &Plan,
    totals: CostTotals,
    out: &mut Vec<u8>,
) -> Result<(), AllocError>
    requires den { IsScale plan.now.den }
    requires cut { unsigned_abs totals.cut ≤ 2 ^ 118 }
    requires fill { unsigned_abs totals.fill ≤ 2 ^ 118 }
    requires haul { unsigned_abs totals.haul ≤ 2 ^ 118 }
    requires access { unsigned_abs totals.access ≤ 2 ^ 118 }
    requires removal { unsigned_abs totals.removal ≤ 2 ^ 118 }
    ensures { IfOk result (λ _. Adds (cost_lines plan.now totals.cut totals.fill totals.haul totals.access totals.removal) out.old.items out.new.items) }
{
    push_cost(alloc, plan, "cut", totals.cut, out)?;
    push_cost(alloc, plan, "fill", totals.fill, out)?;
    push_cost(alloc, plan, "haul", totals.haul, out)?;
    push_cost(alloc, plan, "access", totals.access, out)?;
    push_cost(alloc, plan, "removal", totals.removal, out)?;
    push_cost(alloc, plan, "total", whole_cost(totals), out)
}

/// Adds the rows of all costs of an admissible plan.
fn push_all_costs(
    alloc: Global,
    road: &Road,
    plan: &Plan,
    out: &mut Vec<u8>,
) -> Result<(), AllocError>
    requires accepted { road_fault road.now ≡ None }
    requires fits { Fits road.now plan.now }
    requires admissible { IsAdmissible road.now plan.now }
    ensures { IfOk result (λ _. Adds (all_cost_lines road.now plan.now) out.old.items out.new.items) }
{
    push_costs(alloc, plan, cost_totals(road, plan), out)
}

impl Table {
    fn name(self) -> &'static str
        ensures { result.now ≡ table_name self }
    {
        match self {
            Table::Profile => "profile",
            Table::Earthwork => "earthwork",
            Table::Haul => "haul",
            Table::Blocks => "blocks",
            Table::Costs => "costs",
            Table::Mass => "mass",
            Table::Zones => "zones",
            Table::Moment => "moment",
        }
    }

    fn header(self) -> &'static str
        ensures { result.now ≡ table_header self }
    {
        match self {
            Table::Profile => "section,station,metres,ground,height,offset,net",
            Table::Earthwork => "stage,section,cut,fill",
            Table::Haul => "stage,from,to,litres",
            Table::Blocks => "block,section,stage",
            Table::Costs => "item,cost",
            Table::Mass => "stage,hop,from,to,net",
            Table::Zones => "stage,from,to,direction,peak",
            Table::Moment => "stage,litremetres",
        }
    }

    /// How many parts the records have: one for each stage, or one for all of them.
    fn part_count(self, road: &Road) -> usize
        ensures { result ≡ part_count road.now self }
    {
        match self {
            Table::Earthwork | Table::Haul | Table::Mass | Table::Zones | Table::Moment => {
                road.stages
            }
            Table::Profile | Table::Blocks | Table::Costs => 1,
        }
    }

    /// Adds the records of a part.
    #[tactic(auto, unfolding(crate::specs::inside::Tables::part_lines, crate::specs::Reports::earthwork_of_stage, crate::specs::inside::Listings::listing_lines, crate::specs::inside::Listings::entry_lines))]
    fn push_part(
        self,
        alloc: Global,
        road: &Road,
        plan: &Plan,
        part: usize,
        out: &mut Vec<u8>,
    ) -> Result<(), AllocError>
        requires accepted { road_fault road.now ≡ None }
        requires fits { Fits road.now plan.now }
        requires admissible { IsAdmissible road.now plan.now }
        requires part { IsNumber part (part_count road.now self) }
        ensures { IfOk result (λ _. Adds (part_lines road.now plan.now self part) out.old.items out.new.items) }
    {
        match self {
            Table::Profile => Listing::Profile.push_all(alloc, road, plan, part, out),
            Table::Earthwork => Listing::Earthwork.push_all(alloc, road, plan, part, out),
            Table::Haul => push_hauls_of_stage(alloc, road, plan, part, out),
            Table::Blocks => Listing::Blocks.push_all(alloc, road, plan, part, out),
            Table::Costs => push_all_costs(alloc, road, plan, out),
            Table::Mass => push_nets(alloc, road, plan, part, out),
            Table::Zones => push_zones(alloc, road, plan, part, out),
            Table::Moment => push_moment(alloc, road, plan, part, out),
        }
    }

    /// Adds the records of all parts.
    fn push_records(
        self,
        alloc: Global,
        road: &Road,
        plan: &Plan,
        out: &mut Vec<u8>,
    ) -> Result<(), AllocError>
        requires accepted { road_fault road.now ≡ None }
        requires fits { Fits road.now plan.now }
        requires admissible { IsAdmissible road.now plan.now }
        ensures { IfOk result (λ _. Adds (flat_to (part_lines road.now plan.now self) (part_count road.now self)) out.old.items out.new.items) }
    {
        for before in 0..self.part_count(road) {
            self.push_part(alloc, road, plan, before + 1, out)?;
        }
        Ok(())
    }

    /// Adds the table: its name, its header and its records.
    fn push(
        self,
        alloc: Global,
        road: &Road,
        plan: &Plan,
        out: &mut Vec<u8>,
    ) -> Result<(), AllocError>
        requires accepted { road_fault road.now ≡ None }
        requires fits { Fits road.now plan.now }
        requires admissible { IsAdmissible road.now plan.now }
        ensures { IfOk result (λ _. Adds (table_lines road.now plan.now self) out.old.items out.new.items) }
    {
        push_heading(self.name(), self.header(), out)?;
        self.push_records(alloc, road, plan, out)
    }
}

/// Adds tables of an admissible plan, one behind the other.
fn push_tables(
    alloc: Global,
    road: &Road,
    plan: &Plan,
    tables: &[Table],
    out: &mut Vec<u8>,
) -> Result<(), AllocError>
    requires accepted { road_fault road.now ≡ None }
    requires fits { Fits road.now plan.now }
    requires admissible { IsAdmissible road.now plan.now }
    ensures { IfOk result (λ _. Adds (flat_map (table_lines road.now plan.now) tables.now) out.old.items out.new.items) }
{
    for table in tables {
        table.push(alloc, road, plan, out)?;
    }
    Ok(())
}

/// Adds the tables of a report.
pub(crate) fn push_plan_tables(
    alloc: Global,
    road: &Road,
    plan: &Plan,
    out: &mut Vec<u8>,
) -> Result<(), AllocError>
    requires accepted { road_fault road.now ≡ None }
    requires fits { Fits road.now plan.now }
    requires admissible { IsAdmissible road.now plan.now }
    ensures { IfOk result (λ _. Adds (plan_tables road.now plan.now) out.old.items out.new.items) }
{
    let tables = [
        Table::Profile,
        Table::Earthwork,
        Table::Haul,
        Table::Blocks,
        Table::Costs,
    ];
    push_tables(alloc, road, plan, &tables, out)
}

/// Adds the tables of a mass diagram.
pub(crate) fn push_mass_tables(
    alloc: Global,
    road: &Road,
    plan: &Plan,
    out: &mut Vec<u8>,
) -> Result<(), AllocError>
    requires accepted { road_fault road.now ≡ None }
    requires fits { Fits road.now plan.now }
    requires admissible { IsAdmissible road.now plan.now }
    ensures { IfOk result (λ _. Adds (mass_tables road.now plan.now) out.old.items out.new.items) }
{
    let tables = [Table::Mass, Table::Zones, Table::Moment];
    push_tables(alloc, road, plan, &tables, out)
}

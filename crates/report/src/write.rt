// The report as a whole.
ghost use Rattle.std.specs.Prelude.{◌≡◌, ◌∷◌, [], ◌++◌, ◌<◌, ◌^◌, IfOk, OnErr, None, Some, codes, unsigned_abs};
ghost use Rattle.algebra.specs.Scale.{IsScale};
ghost use Rattle.road_types.specs.Faults.{road_fault};
ghost use Rattle.plan_rules.specs.Costs.{cost_of};
ghost use Rattle.plan_rules.specs.Fits.{Fits};
ghost use Rattle.plan_rules.specs.Rules.{IsAdmissible};
ghost use Rattle.report.specs.Lines.{Adds, alone, ratio, gap};
ghost use Rattle.report.specs.Reports.{said_line, sizes_text, leaves_text, bounded_lines, found_lines, found_tables, report_lines, plan_found, bound_found, IsReportable};

use crate::cells::{bound_text, cost_text, gap_text, leaves_text, sizes_text};
use crate::lines::{push_line, push_said};
use crate::tables::{push_plan_tables, whole_cost};
use crate::{Findings, OpenLeaves};
use numbers::Frac;
use plan_rules::{Plan, cost_totals};
use road_types::Road;
use std::alloc::{AllocError, Global};

/// Appends the report on what was found for a road, with the numbers of leaves that were left open.
///
/// The one error is want of memory; nothing is appended then.
pub fn write_report(
    alloc: Global,
    road: &Road,
    found: &Findings<'_>,
    leaves: OpenLeaves,
    out: &mut Vec<u8>,
) -> Result<(), AllocError>
    requires accepted { road_fault road.now ≡ None }
    requires reportable { IsReportable road.now (plan_found found.now) }
    ensures report { IfOk result (λ _. Adds (report_lines road.now (plan_found found.now) (bound_found found.now) leaves) out.old.items out.new.items) }
    ensures kept { OnErr result (out.new.items ≡ out.old.items) }
{
    let mut text = Vec::new(alloc);
    push_report(alloc, road, found, leaves, &mut text)?;
    out.extend_from_slice(text.as_slice())
}

/// Adds all of the report.
fn push_report(
    alloc: Global,
    road: &Road,
    found: &Findings<'_>,
    leaves: OpenLeaves,
    out: &mut Vec<u8>,
) -> Result<(), AllocError>
    requires accepted { road_fault road.now ≡ None }
    requires reportable { IsReportable road.now (plan_found found.now) }
    ensures { IfOk result (λ _. Adds (report_lines road.now (plan_found found.now) (bound_found found.now) leaves) out.old.items out.new.items) }
{
    push_sizes(alloc, road, out)?;
    push_behind_sizes(alloc, road, found, leaves, out)
}

fn push_behind_sizes(
    alloc: Global,
    road: &Road,
    found: &Findings<'_>,
    leaves: OpenLeaves,
    out: &mut Vec<u8>,
) -> Result<(), AllocError>
    requires accepted { road_fault road.now ≡ None }
    requires reportable { IsReportable road.now (plan_found found.now) }
    ensures { IfOk result (λ _. Adds (found_lines road.now (plan_found found.now) (bound_found found.now) ++ ((said_line (leaves_text leaves) ∷ []) ++ found_tables road.now (plan_found found.now)))
        out.old.items out.new.items) }
{
    push_found(alloc, road, found, out)?;
    push_behind_found(alloc, road, found, leaves, out)
}

fn push_behind_found(
    alloc: Global,
    road: &Road,
    found: &Findings<'_>,
    leaves: OpenLeaves,
    out: &mut Vec<u8>,
) -> Result<(), AllocError>
    requires accepted { road_fault road.now ≡ None }
    requires reportable { IsReportable road.now (plan_found found.now) }
    ensures { IfOk result (λ _. Adds ((said_line (leaves_text leaves) ∷ []) ++ found_tables road.now (plan_found found.now)) out.old.items out.new.items) }
{
    push_leaves(alloc, leaves, out)?;
    push_found_tables(alloc, road, found, out)
}

/// Adds the tables of a plan that was found.
#[tactic(auto, unfolding(crate::specs::Reports::found_tables), using(crate::proofs::LinesLemmas::nothing_added))]
fn push_found_tables(
    alloc: Global,
    road: &Road,
    found: &Findings<'_>,
    out: &mut Vec<u8>,
) -> Result<(), AllocError>
    requires accepted { road_fault road.now ≡ None }
    requires reportable { IsReportable road.now (plan_found found.now) }
    ensures { IfOk result (λ _. Adds (found_tables road.now (plan_found found.now)) out.old.items out.new.items) }
{
    match found {
        Findings::NoPlan | Findings::Bounded { .. } => Ok(()),
        Findings::Planned { plan, .. } => push_plan_tables(alloc, road, plan, out),
    }
}

/// Adds the line of the road's sizes.
fn push_sizes(alloc: Global, road: &Road, out: &mut Vec<u8>) -> Result<(), AllocError>
    ensures { IfOk result (λ _. Adds (said_line (sizes_text road.now) ∷ []) out.old.items out.new.items) }
{
    let text = sizes_text(alloc, road)?;
    push_said(text.as_str(), out)
}

/// Adds the line of the leaves that were left open.
fn push_leaves(alloc: Global, leaves: OpenLeaves, out: &mut Vec<u8>) -> Result<(), AllocError>
    ensures { IfOk result (λ _. Adds (said_line (leaves_text leaves) ∷ []) out.old.items out.new.items) }
{
    let text = leaves_text(alloc, leaves)?;
    push_said(text.as_str(), out)
}

/// Adds cost, bound and gap.
#[tactic(auto, unfolding(crate::specs::Reports::found_lines))]
fn push_found(
    alloc: Global,
    road: &Road,
    found: &Findings<'_>,
    out: &mut Vec<u8>,
) -> Result<(), AllocError>
    requires accepted { road_fault road.now ≡ None }
    requires reportable { IsReportable road.now (plan_found found.now) }
    ensures { IfOk result (λ _. Adds (found_lines road.now (plan_found found.now) (bound_found found.now)) out.old.items out.new.items) }
{
    match found {
        Findings::NoPlan => push_said("no plan", out),
        Findings::Bounded { bound } => push_bounded(alloc, road, bound, out),
        Findings::Planned { plan, bound } => push_planned(alloc, road, plan, bound, out),
    }
}

/// Adds the line of a bound.
fn push_bound(alloc: Global, bound: &Frac, out: &mut Vec<u8>) -> Result<(), AllocError>
    ensures { IfOk result (λ _. Adds (said_line (bound_text bound.now) ∷ []) out.old.items out.new.items) }
{
    let text = bound_text(alloc, bound)?;
    push_said(text.as_str(), out)
}

ghost use Rattle.report.specs.Reports.{bound_text};

/// Adds the lines of a bound without a plan.
#[tactic(auto, unfolding(crate::specs::Reports::bounded_lines))]
fn push_bounded(
    alloc: Global,
    road: &Road,
    bound: &Frac,
    out: &mut Vec<u8>,
) -> Result<(), AllocError>
    ensures { IfOk result (λ _. Adds (bounded_lines road.now None bound.now) out.old.items out.new.items) }
{
    push_said("cost none", out)?;
    push_bound(alloc, bound, out)?;
    push_said("gap open", out)
}

/// Adds the lines of a plan with its bound.
fn push_planned(
    alloc: Global,
    road: &Road,
    plan: &Plan,
    bound: &Frac,
    out: &mut Vec<u8>,
) -> Result<(), AllocError>
    requires accepted { road_fault road.now ≡ None }
    requires fits { Fits road.now plan.now }
    requires admissible { IsAdmissible road.now plan.now }
    ensures { IfOk result (λ _. Adds (bounded_lines road.now (Some plan.now) bound.now) out.old.items out.new.items) }
{
    push_priced(alloc, road, plan, cost_of(road, plan), bound, out)
}

/// The cost of an admissible plan, over its denominator.
#[tactic(auto, unfolding(plan_rules::specs::Costs::cost_of))]
fn cost_of(road: &Road, plan: &Plan) -> i128
    requires accepted { road_fault road.now ≡ None }
    requires fits { Fits road.now plan.now }
    requires admissible { IsAdmissible road.now plan.now }
    ensures value { result ≡ cost_of road.now plan.now }
    ensures width { unsigned_abs result < 2 ^ 127 }
{
    whole_cost(cost_totals(road, plan))
}

/// Adds the lines of a plan of this cost with its bound.
#[tactic(auto, unfolding(crate::specs::Reports::bounded_lines))]
fn push_priced(
    alloc: Global,
    road: &Road,
    plan: &Plan,
    cost: i128,
    bound: &Frac,
    out: &mut Vec<u8>,
) -> Result<(), AllocError>
    requires den { IsScale plan.now.den }
    requires cost { cost ≡ cost_of road.now plan.now }
    requires width { unsigned_abs cost < 2 ^ 127 }
    ensures { IfOk result (λ _. Adds (bounded_lines road.now (Some plan.now) bound.now) out.old.items out.new.items) }
{
    push_cost(alloc, cost, plan.den, out)?;
    push_bound(alloc, bound, out)?;
    push_gap(cost, plan.den, bound, out)
}

/// Adds the line of a cost.
fn push_cost(alloc: Global, cost: i128, den: i128, out: &mut Vec<u8>) -> Result<(), AllocError>
    requires den { IsScale den }
    requires cost { unsigned_abs cost < 2 ^ 127 }
    ensures { IfOk result (λ _. Adds (alone (ratio (codes "cost ") cost den) ∷ []) out.old.items out.new.items) }
{
    let text = cost_text(alloc, cost, den)?;
    push_line(text.as_str(), out)
}

/// Adds the line of the gap.
fn push_gap(cost: i128, den: i128, bound: &Frac, out: &mut Vec<u8>) -> Result<(), AllocError>
    requires den { IsScale den }
    requires cost { unsigned_abs cost < 2 ^ 127 }
    ensures { IfOk result (λ _. Adds (alone (gap cost den bound.now) ∷ []) out.old.items out.new.items) }
{
    push_line(gap_text(cost, den, bound), out)
}

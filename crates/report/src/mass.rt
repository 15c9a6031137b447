// The mass diagram of a plan.
ghost use Rattle.std.specs.Prelude.{◌≡◌, ◌∷◌, [], ◌+◌, ◌<◌, ◌≤◌, ◌^◌, ◌*◌, ◌*ℤ◌, ◌+ℤ◌, ◌-ℤ◌, pos, IfOk, OnErr, IfSome, None, ℕ, unsigned_abs};
ghost use Rattle.algebra.specs.Sums.{sum_to};
ghost use Rattle.road_types.specs.Faults.{road_fault};
ghost use Rattle.road_types.specs.Numbered.{IsNumber};
ghost use Rattle.road_types.specs.Road.{section, hop_count};
ghost use Rattle.road_types.specs.WellFormed.{IsWellFormed};
ghost use Rattle.plan_rules.specs.Fits.{Fits};
ghost use Rattle.plan_rules.specs.Rules.{IsAdmissible};
ghost use Rattle.report.specs.Lines.{Adds};
ghost use Rattle.report.specs.Mass.{ordinate, surplus, hop_moment, moment, mass_line, moment_line, mass_of_stage, mass_lines, AreZones, zones_of};
ghost use Rattle.report.specs.Reports.{plan_found, bound_found, IsReportable};
ghost use Rattle.report.specs.inside.Hauls.{HasModerateHauls, HasPayableHauls};

use crate::Findings;
use crate::cells::{number, over_den};
use crate::lines::{push_row, push_said};
use crate::tables::push_mass_tables;
use algebra::{minus, plus, times};
use plan_rules::Plan;
use plan_rules::entries::amount_at;
use road_types::Road;
use std::alloc::{AllocError, Global};

/// What is hauled over a hop to the right in a stage, less what is hauled to the left.
pub(crate) fn net_haul(plan: &Plan, stage: usize, hop: usize) -> i128
    requires { HasModerateHauls plan.now }
    ensures value { result ≡ ordinate plan.now stage hop }
    ensures width { unsigned_abs result < 2 ^ 127 }
{
    minus(
        amount_at(&plan.right, stage, hop),
        amount_at(&plan.left, stage, hop),
    )
}

/// The ordinate of the mass diagram over a hop in a stage, both numbered from 1, in litres over the plan's denominator: what is hauled to
/// the right less what is hauled to the left. It is what the sections before the hop give.
pub fn ordinate(road: &Road, plan: &Plan, stage: usize, hop: usize) -> i128
    requires accepted { road_fault road.now ≡ None }
    requires fits { Fits road.now plan.now }
    requires admissible { IsAdmissible road.now plan.now }
    requires stage { IsNumber stage road.now.stages }
    requires hop { IsNumber hop (hop_count road.now) }
    ensures value { result ≡ ordinate plan.now stage hop }
    ensures sections { pos 1000 *ℤ result ≡ sum_to (surplus road.now plan.now stage) hop }
{
    net_haul(plan, stage, hop)
}

/// Adds the row of a hop.
fn push_net(
    alloc: Global,
    plan: &Plan,
    stage: usize,
    hop: usize,
    out: &mut Vec<u8>,
) -> Result<(), AllocError>
    requires fits { HasModerateHauls plan.now }
    requires den { IsScale plan.now.den }
    requires hop { hop < 2 ^ 63 }
    ensures { IfOk result (λ _. Adds (mass_line plan.now stage hop ∷ []) out.old.items out.new.items) }
{
    let net = net_haul(plan, stage, hop);
    let stage = number(alloc, stage)?;
    let from = number(alloc, hop)?;
    let to = number(alloc, hop + 1)?;
    let net = over_den(alloc, plan, net)?;
    push_row(
        alloc,
        &[
            stage.as_bytes(),
            from.as_bytes(),
            from.as_bytes(),
            to.as_bytes(),
            net.as_bytes(),
        ],
        out,
    )
}

ghost use Rattle.algebra.specs.Scale.{IsScale};

/// Adds the rows of a stage's hops.
#[tactic(auto, unfolding(crate::specs::Mass::mass_of_stage))]
pub(crate) fn push_nets(
    alloc: Global,
    road: &Road,
    plan: &Plan,
    stage: usize,
    out: &mut Vec<u8>,
) -> Result<(), AllocError>
    requires accepted { road_fault road.now ≡ None }
    requires fits { Fits road.now plan.now }
    ensures { IfOk result (λ _. Adds (mass_of_stage road.now plan.now stage) out.old.items out.new.items) }
{
    for before in 0..road.hops.len() {
        push_net(alloc, plan, stage, before + 1, out)?;
    }
    Ok(())
}

/// The metres from a section to the next one.
fn hop_metres(road: &Road, hop: usize) -> i128
    requires well_formed { IsWellFormed road.now }
    requires hop { IsNumber hop (hop_count road.now) }
    ensures value { result ≡ road.now.step *ℤ ((section road.now (hop + 1)).station -ℤ (section road.now hop).station) }
    ensures width { unsigned_abs result ≤ 10 ^ 8 }
{
    let steps = minus(
        i128::from(road.section(hop + 1).station),
        i128::from(road.section(hop).station),
    );
    times(i128::from(road.step), steps)
}

/// What is hauled in both directions.
fn in_both(right: i128, left: i128) -> i128
    requires right { unsigned_abs right ≤ 10 ^ 14 * 2 ^ 40 }
    requires left { unsigned_abs left ≤ 10 ^ 14 * 2 ^ 40 }
    ensures { result ≡ right +ℤ left }
{
    plus(right, left)
}

/// The haul moment over a hop in a stage.
fn hop_moment(road: &Road, plan: &Plan, stage: usize, hop: usize) -> i128
    requires well_formed { IsWellFormed road.now }
    requires payable { HasPayableHauls road.now plan.now }
    requires stage { IsNumber stage road.now.stages }
    requires hop { IsNumber hop (hop_count road.now) }
    ensures { result ≡ hop_moment road.now plan.now stage hop }
{
    let both = in_both(
        amount_at(&plan.right, stage, hop),
        amount_at(&plan.left, stage, hop),
    );
    times(both, hop_metres(road, hop))
}

/// The haul moment of a stage.
fn moment(road: &Road, plan: &Plan, stage: usize) -> i128
    requires well_formed { IsWellFormed road.now }
    requires payable { HasPayableHauls road.now plan.now }
    requires stage { IsNumber stage road.now.stages }
    ensures value { result ≡ moment road.now plan.now stage }
    ensures width { unsigned_abs result < 2 ^ 127 }
{
    let mut total = 0;
    for before in 0..road.hops.len() {
        total = plus(total, hop_moment(road, plan, stage, before + 1));
    }
    total
}

/// Adds the row of a stage's moment.
pub(crate) fn push_moment(
    alloc: Global,
    road: &Road,
    plan: &Plan,
    stage: usize,
    out: &mut Vec<u8>,
) -> Result<(), AllocError>
    requires well_formed { IsWellFormed road.now }
    requires payable { HasPayableHauls road.now plan.now }
    requires den { IsScale plan.now.den }
    requires stage { IsNumber stage road.now.stages }
    ensures { IfOk result (λ _. Adds (moment_line road.now plan.now stage ∷ []) out.old.items out.new.items) }
{
    let moment = over_den(alloc, plan, moment(road, plan, stage))?;
    let stage = number(alloc, stage)?;
    push_row(alloc, &[stage.as_bytes(), moment.as_bytes()], out)
}

/// Adds the mass diagram, or the line that says why there is none.
#[tactic(auto, unfolding(crate::specs::Mass::mass_lines))]
fn push_mass(
    alloc: Global,
    road: &Road,
    found: &Findings<'_>,
    out: &mut Vec<u8>,
) -> Result<(), AllocError>
    requires accepted { road_fault road.now ≡ None }
    requires reportable { IsReportable road.now (plan_found found.now) }
    ensures { IfOk result (λ _. Adds (mass_lines road.now (plan_found found.now) (bound_found found.now)) out.old.items out.new.items) }
{
    match found {
        Findings::NoPlan => push_said("no plan", out),
        Findings::Bounded { .. } => push_said("cost none", out),
        Findings::Planned { plan, .. } => push_mass_tables(alloc, road, plan, out),
    }
}

/// Appends the mass diagram of what was found for a road: in each stage the ordinate over each hop, the zones of one direction and the haul
/// moment. Where no plan was found there is one line, `cost none` beside a bound, and else `no plan`.
///
/// The one error is want of memory; nothing is appended then.
pub fn write_mass(
    alloc: Global,
    road: &Road,
    found: &Findings<'_>,
    out: &mut Vec<u8>,
) -> Result<(), AllocError>
    requires accepted { road_fault road.now ≡ None }
    requires reportable { IsReportable road.now (plan_found found.now) }
    ensures mass { IfOk result (λ _. Adds (mass_lines road.now (plan_found found.now) (bound_found found.now)) out.old.items out.new.items) }
    ensures kept { OnErr result (out.new.items ≡ out.old.items) }
    ensures zones { IfSome (plan_found found.now) (λ plan. (t : ℕ) → IsNumber t road.now.stages → AreZones (ordinate plan t) (hop_count road.now) (zones_of (ordinate plan t) (hop_count road.now))) }
{
    let mut text = Vec::new(alloc);
    push_mass(alloc, road, found, &mut text)?;
    out.extend_from_slice(text.as_slice())
}

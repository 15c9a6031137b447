// The zones of one direction of a mass diagram.
ghost use Rattle.std.specs.Prelude.{◌≡◌, ◌∷◌, [], ◌+◌, ◌<◌, ◌^◌, max, map, IfOk, None, Some, if◌then◌else◌, unsigned_abs};
ghost use Rattle.road_types.specs.Faults.{road_fault};
ghost use Rattle.plan_rules.specs.Fits.{Fits};
ghost use Rattle.report.specs.Lines.{Adds};
ghost use Rattle.report.specs.inside.Hauls.{HasModerateHauls};
ghost use Rattle.report.specs.Mass.{ordinate, goes, same_way, direction_of, direction_text, first_of, peak_of, zone_in, zones_at, zone_line, zones_of_stage};

use crate::cells::{number, over_den};
use crate::lines::push_row;
use crate::mass::net_haul;
use plan_rules::Plan;
use road_types::Road;
use std::alloc::{AllocError, Global};

/// Where earth goes over a hop.
#[derive(Clone, Copy)]
pub(crate) enum Direction {
    ToRight,
    ToLeft,
}

/// Hops of one direction up to one, with the greatest magnitude of their net hauls.
#[derive(Clone, Copy)]
struct Run {
    first: usize,
    peak: u128,
}

impl Direction {
    /// Whether a net haul isn't 0 and goes this way.
    fn goes(self, net: i128) -> bool
        ensures { result ≡ goes self net }
    {
        match self {
            Direction::ToRight => net > 0,
            Direction::ToLeft => net < 0,
        }
    }

    fn text(self) -> &'static str
        ensures { result.now ≡ direction_text self }
    {
        match self {
            Direction::ToRight => "right",
            Direction::ToLeft => "left",
        }
    }
}

/// Whether two net hauls go one way.
fn same_way(net: i128, other: i128) -> bool
    ensures { result ≡ same_way net other }
{
    (Direction::ToRight.goes(net) && Direction::ToRight.goes(other))
        || (Direction::ToLeft.goes(net) && Direction::ToLeft.goes(other))
}

/// Where a net haul goes, if it isn't 0.
fn direction_of(net: i128) -> Option<Direction>
    ensures { result ≡ direction_of net }
{
    if Direction::ToRight.goes(net) {
        Some(Direction::ToRight)
    } else if Direction::ToLeft.goes(net) {
        Some(Direction::ToLeft)
    } else {
        None
    }
}

/// The run up to a hop, from the one up to the hop before it.
fn extended(run: Run, before: i128, hop: usize, net: i128) -> Run
    ensures first { result.first ≡ (if same_way before net then run.first else hop) }
    ensures peak { result.peak ≡ (if same_way before net then max run.peak (unsigned_abs net) else unsigned_abs net) }
{
    if same_way(before, net) {
        Run {
            first: run.first,
            peak: run.peak.max(net.unsigned_abs()),
        }
    } else {
        Run {
            first: hop,
            peak: net.unsigned_abs(),
        }
    }
}

/// The run up to the hop behind this one.
fn next_run(plan: &Plan, stage: usize, run: Run, hop: usize) -> Run
    requires fits { HasModerateHauls plan.now }
    requires hop { hop < 2 ^ 62 }
    requires first { run.first ≡ first_of (ordinate plan.now stage) hop }
    requires peak { run.peak ≡ peak_of (ordinate plan.now stage) hop }
    ensures first { result.first ≡ first_of (ordinate plan.now stage) (hop + 1) }
    ensures peak { result.peak ≡ peak_of (ordinate plan.now stage) (hop + 1) }
    ensures small { result.peak < 2 ^ 127 }
{
    let before = net_haul(plan, stage, hop);
    extended(run, before, hop + 1, net_haul(plan, stage, hop + 1))
}

/// Adds the row of a zone.
fn push_zone(
    alloc: Global,
    plan: &Plan,
    stage: usize,
    direction: Direction,
    run: Run,
    last: usize,
    out: &mut Vec<u8>,
) -> Result<(), AllocError>
    requires fits { IsScale plan.now.den }
    requires last { last < 2 ^ 63 }
    requires peak { run.peak < 2 ^ 127 }
    ensures { IfOk result (λ _. Adds (zone_line plan.now stage (record { first = run.first; last = last; direction = direction; peak = run.peak }) ∷ [])
        out.old.items out.new.items) }
{
    let stage = number(alloc, stage)?;
    let from = number(alloc, run.first)?;
    let to = number(alloc, last + 1)?;
    let peak = over_den(alloc, plan, run.peak as i128)?;
    push_row(
        alloc,
        &[
            stage.as_bytes(),
            from.as_bytes(),
            to.as_bytes(),
            direction.text().as_bytes(),
            peak.as_bytes(),
        ],
        out,
    )
}

ghost use Rattle.algebra.specs.Scale.{IsScale};

/// Adds the row of the zone in this direction that ends with a hop.
fn push_zone_in(
    alloc: Global,
    plan: &Plan,
    stage: usize,
    direction: Option<Direction>,
    run: Run,
    last: usize,
    out: &mut Vec<u8>,
) -> Result<(), AllocError>
    requires fits { IsScale plan.now.den }
    requires last { last < 2 ^ 63 }
    requires peak { run.peak < 2 ^ 127 }
    ensures { IfOk result (λ _. Adds (map (zone_line plan.now stage) (zone_in direction run.first last run.peak)) out.old.items out.new.items) }
{
    match direction {
        Some(direction) => push_zone(alloc, plan, stage, direction, run, last, out),
        None => Ok(()),
    }
}

/// Adds the row of the zone that ends with a hop, if one does.
fn push_zone_at(
    alloc: Global,
    plan: &Plan,
    stage: usize,
    run: Run,
    hop: usize,
    out: &mut Vec<u8>,
) -> Result<(), AllocError>
    requires fits { HasModerateHauls plan.now }
    requires den { IsScale plan.now.den }
    requires hop { hop < 2 ^ 63 }
    requires first { run.first ≡ first_of (ordinate plan.now stage) hop }
    requires peak { run.peak ≡ peak_of (ordinate plan.now stage) hop }
    requires small { run.peak < 2 ^ 127 }
    ensures { IfOk result (λ _. Adds (map (zone_line plan.now stage) (zones_at (ordinate plan.now stage) hop)) out.old.items out.new.items) }
{
    let net = net_haul(plan, stage, hop);
    if same_way(net, net_haul(plan, stage, hop + 1)) {
        return Ok(());
    }
    push_zone_in(alloc, plan, stage, direction_of(net), run, hop, out)
}

/// Adds the rows of a stage's zones.
#[tactic(auto, unfolding(crate::specs::Mass::zones_of_stage))]
pub(crate) fn push_zones(
    alloc: Global,
    road: &Road,
    plan: &Plan,
    stage: usize,
    out: &mut Vec<u8>,
) -> Result<(), AllocError>
    requires accepted { road_fault road.now ≡ None }
    requires fits { Fits road.now plan.now }
    ensures { IfOk result (λ _. Adds (zones_of_stage road.now plan.now stage) out.old.items out.new.items) }
{
    let mut run = Run { first: 0, peak: 0 };
    for before in 0..road.hops.len() {
        run = next_run(plan, stage, run, before);
        push_zone_at(alloc, plan, stage, run, before + 1, out)?;
    }
    Ok(())
}

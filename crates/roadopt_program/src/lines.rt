// The lines that are printed.
ghost use Rattle.std.specs.Prelude.{◌≡◌, ◌≢◌, ◌<◌, ◌^◌, ◌++◌, codes, pos, unsigned_abs, IfOk};
ghost use Rattle.numbers.specs.Fractions.{fraction_text};
ghost use Rattle.std.specs.String.{string_bytes};
ghost use Rattle.roadopt_program.specs.Judging.{PrintsFraction};
ghost use Rattle.roadopt_program.specs.Printed.{fault_name, rule_name, road_refused_line, plan_refused_line, broken_line, admissible_line, cert_rule_name, cert_refused_line, cost_text, valid_line, carried_line, gap_word, found_text, trial_line};

use crate::Status;
use branch_bound::Found;
use cert_checker::CertRule;
use numbers::Frac;
use plan_rules::Rule;
use road_types::{Fault, Road};
use std::alloc::{AllocError, Global};

fn fault_name(fault: Fault) -> &'static str
    ensures { result.now ≡ fault_name fault }
{
    match fault {
        Fault::F1 => "F1",
        Fault::F2 => "F2",
        Fault::F3 => "F3",
        Fault::F4 => "F4",
        Fault::F5 => "F5",
        Fault::F6 => "F6",
        Fault::F7 => "F7",
        Fault::F8 => "F8",
        Fault::F9 => "F9",
        Fault::F10 => "F10",
        Fault::F11 => "F11",
        Fault::F12 => "F12",
        Fault::F13 => "F13",
        Fault::F14 => "F14",
        Fault::F15 => "F15",
        Fault::F16 => "F16",
        Fault::F17 => "F17",
        Fault::F18 => "F18",
    }
}

fn rule_name(rule: Rule) -> &'static str
    ensures { result.now ≡ rule_name rule }
{
    match rule {
        Rule::P1 => "P1",
        Rule::P2 => "P2",
        Rule::P3 => "P3",
        Rule::P4 => "P4",
        Rule::P5 => "P5",
        Rule::P6 => "P6",
        Rule::P7 => "P7",
        Rule::P8 => "P8",
        Rule::P9 => "P9",
    }
}

/// The line for a road with a fault.
#[tactic(auto, unfolding(crate::specs::Printed::road_refused_line))]
pub(crate) fn road_refused_line(alloc: Global, fault: Fault) -> Result<String, AllocError>
    ensures { IfOk result (λ line. string_bytes line ≡ road_refused_line fault) }
{
    let name = fault_name(fault);
    format!(in alloc; "road refused: {name}\n")
}

/// The line for bytes that aren't a plan of the road, with the number of the refused line.
#[tactic(auto, unfolding(crate::specs::Printed::plan_refused_line))]
pub(crate) fn plan_refused_line(alloc: Global, line: usize) -> Result<String, AllocError>
    ensures { IfOk result (λ text. string_bytes text ≡ plan_refused_line line) }
{
    format!(in alloc; "plan refused: line {line}\n")
}

/// The line for the first broken rule.
#[tactic(auto, unfolding(crate::specs::Printed::broken_line))]
pub(crate) fn broken_line(
    alloc: Global,
    rule: Rule,
    stage: usize,
    place: usize,
) -> Result<String, AllocError>
    ensures { IfOk result (λ line. string_bytes line ≡ broken_line rule stage place) }
{
    let name = rule_name(rule);
    format!(in alloc; "broken {name} stage {stage} place {place}\n")
}

/// The line for an admissible plan of this cost.
#[tactic(auto, unfolding(crate::specs::Printed::admissible_line))]
pub(crate) fn admissible_line(alloc: Global, cost: &Frac) -> Result<String, AllocError>
    ensures { IfOk result (λ line. string_bytes line ≡ admissible_line cost.now) }
{
    let text = cost.text(alloc)?;
    let text = text.as_str();
    format!(in alloc; "admissible {text}\n")
}

/// The line for an admissible plan of this cost over its denominator.
pub(crate) fn cost_line(alloc: Global, cost: i128, den: i128) -> Result<String, AllocError>
    requires defined { den ≢ pos 0 }
    requires cost_in_range { unsigned_abs cost < 2 ^ 127 }
    requires den_in_range { unsigned_abs den < 2 ^ 127 }
    ensures { IfOk result (λ line. PrintsFraction cost den (string_bytes line)) }
{
    let Some(cost) = Frac::new(cost, den) else {
        unreachable!()
    };
    admissible_line(alloc, &cost)
}

fn cert_rule_name(rule: CertRule) -> &'static str
    ensures { result.now ≡ cert_rule_name rule }
{
    match rule {
        CertRule::C1 => "C1",
        CertRule::C2 => "C2",
        CertRule::C3 => "C3",
        CertRule::C4 => "C4",
        CertRule::C5 => "C5",
        CertRule::C6 => "C6",
        CertRule::C7 => "C7",
        CertRule::C8 => "C8",
        CertRule::C9 => "C9",
    }
}

/// The line for bytes that are no valid certificate of the road: the first broken rule, with its line.
#[tactic(auto, unfolding(crate::specs::Printed::cert_refused_line))]
pub(crate) fn cert_refused_line(
    alloc: Global,
    rule: CertRule,
    line: usize,
) -> Result<String, AllocError>
    ensures { IfOk result (λ text. string_bytes text ≡ cert_refused_line rule line) }
{
    let name = cert_rule_name(rule);
    format!(in alloc; "certificate refused: {name} line {line}\n")
}

/// The text of a cost, or `none`.
#[tactic(auto, unfolding(crate::specs::Printed::cost_text))]
fn cost_text(alloc: Global, cost: &Option<Frac>) -> Result<String, AllocError>
    ensures { IfOk result (λ text. string_bytes text ≡ cost_text cost.now) }
{
    match cost {
        Some(cost) => cost.text(alloc),
        None => format!(in alloc; "none"),
    }
}

/// The line for a valid certificate with a bound.
fn bounded_line(alloc: Global, cost: &Option<Frac>, bound: &Frac) -> Result<String, AllocError>
    ensures { IfOk result (λ line. string_bytes line
        ≡ codes "valid cost " ++ (cost_text cost.now ++ (codes " bound " ++ (fraction_text bound.now ++ codes "\n")))) }
{
    let cost = cost_text(alloc, cost)?;
    let cost = cost.as_str();
    let bound = bound.text(alloc)?;
    let bound = bound.as_str();
    format!(in alloc; "valid cost {cost} bound {bound}\n")
}

/// The line for a valid certificate.
#[tactic(auto, unfolding(crate::specs::Printed::valid_line))]
pub(crate) fn valid_line(
    alloc: Global,
    cost: &Option<Frac>,
    bound: &Option<Frac>,
) -> Result<String, AllocError>
    ensures { IfOk result (λ line. string_bytes line ≡ valid_line cost.now bound.now) }
{
    match bound {
        Some(bound) => bounded_line(alloc, cost, bound),
        None => format!(in alloc; "valid no plan\n"),
    }
}

/// The word for the gap between cost and bound, by the status of the run.
fn gap_word(status: Status) -> &'static str
    ensures { result.now ≡ gap_word status }
{
    match status {
        Status::Done => "none",
        _ => "open",
    }
}

/// The line for a certificate that was carried.
#[tactic(auto, unfolding(crate::specs::Printed::carried_line))]
pub(crate) fn carried_line(
    alloc: Global,
    cost: &Option<Frac>,
    bound: &Option<Frac>,
) -> Result<String, AllocError>
    ensures { IfOk result (λ line. string_bytes line ≡ carried_line cost.now bound.now) }
{
    match bound {
        Some(bound) => carried_bound_line(alloc, cost, bound),
        None => format!(in alloc; "carried no plan\n"),
    }
}

/// The same where a bound stands.
fn carried_bound_line(
    alloc: Global,
    cost: &Option<Frac>,
    bound: &Frac,
) -> Result<String, AllocError>
    ensures { IfOk result (λ line. string_bytes line
        ≡ codes "carried cost " ++ (cost_text cost.now ++ (codes " bound " ++ (fraction_text bound.now ++ codes "\n")))) }
{
    let cost = cost_text(alloc, cost)?;
    let cost = cost.as_str();
    let bound = bound.text(alloc)?;
    let bound = bound.as_str();
    format!(in alloc; "carried cost {cost} bound {bound}\n")
}

/// What a search found beside a bound: cost, bound and gap.
fn bounded_text(
    alloc: Global,
    cost: &Option<Frac>,
    bound: &Frac,
    status: Status,
) -> Result<String, AllocError>
    ensures { IfOk result (λ text. string_bytes text
        ≡ codes " cost " ++ (cost_text cost.now ++ (codes " bound " ++ (fraction_text bound.now ++ (codes " gap " ++ (gap_word status ++ codes "\n")))))) }
{
    let cost = cost_text(alloc, cost)?;
    let cost = cost.as_str();
    let bound = bound.text(alloc)?;
    let bound = bound.as_str();
    let gap = gap_word(status);
    format!(in alloc; " cost {cost} bound {bound} gap {gap}\n")
}

/// What a search found.
#[tactic(auto, unfolding(crate::specs::Printed::found_text))]
fn found_text(
    alloc: Global,
    cost: &Option<Frac>,
    bound: &Option<Frac>,
    status: Status,
) -> Result<String, AllocError>
    ensures { IfOk result (λ text. string_bytes text ≡ found_text cost.now bound.now status) }
{
    match bound {
        Some(bound) => bounded_text(alloc, cost, bound, status),
        None => format!(in alloc; " no plan\n"),
    }
}

/// The line for what the search of a trial road found.
#[tactic(auto, unfolding(crate::specs::Printed::trial_line))]
pub(crate) fn trial_line(
    alloc: Global,
    number: u64,
    road: &Road,
    found: &Found,
    status: Status,
) -> Result<String, AllocError>
    ensures { IfOk result (λ line. string_bytes line ≡ trial_line number road.now found.now.count found.now.cert.cost found.now.cert.bound status) }
{
    let text = found_text(alloc, &found.cert.cost, &found.cert.bound, status)?;
    let text = text.as_str();
    let sections = road.sections.len();
    let stages = road.stages;
    let nodes = found.count;
    format!(in alloc; "trial {number} sections {sections} stages {stages} nodes {nodes}{text}")
}

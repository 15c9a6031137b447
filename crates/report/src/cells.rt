// The texts of cells.
ghost use Rattle.std.specs.Prelude.{◌≡◌, ◌<◌, ◌^◌, [], unsigned_abs, IfOk, ◌&&◌, codes};
ghost use Rattle.algebra.specs.Scale.{IsScale};
ghost use Rattle.std.specs.String.{string_bytes};
ghost use Rattle.std.specs.Fmt.{decimal, signed_decimal};
ghost use Rattle.road_types.specs.Road.{pit};
ghost use Rattle.report.specs.Lines.{ShowsRatio, ShowsGap};
ghost use Rattle.report.specs.Reports.{at_section, at_pit, opening_text, is_nothing, sizes_text, leaves_text, bound_text};

use crate::OpenLeaves;
use numbers::Frac;
use plan_rules::Plan;
use road_types::{Pit, Road};
use std::alloc::{AllocError, Global};

/// A number of an entry, or of a stage.
pub(crate) fn number(alloc: Global, number: usize) -> Result<String, AllocError>
    ensures { IfOk result (λ t. string_bytes t ≡ decimal number) }
{
    format!(in alloc; "{number}")
}

/// A whole number with its sign.
pub(crate) fn whole(alloc: Global, number: i64) -> Result<String, AllocError>
    ensures { IfOk result (λ t. string_bytes t ≡ signed_decimal number) }
{
    format!(in alloc; "{number}")
}

/// The fraction of two numbers.
fn fraction(num: i128, den: i128) -> Frac
    requires num { unsigned_abs num < 2 ^ 127 }
    requires den { IsScale den }
    ensures lowest { IsReduced result }
    ensures same { HasValue result num den }
    ensures one { (other : Fraction) → IsReduced other → HasValue other num den → other ≡ result }
{
    let Some(value) = Frac::new(num, den) else {
        unreachable!()
    };
    value
}

ghost use Rattle.numbers.specs.Fractions.{Fraction, IsReduced, HasValue};

/// A fraction in lowest terms.
#[tactic(auto, using(crate::proofs::CellsLemmas::shows_ratio))]
fn ratio(alloc: Global, num: i128, den: i128) -> Result<String, AllocError>
    requires num { unsigned_abs num < 2 ^ 127 }
    requires den { IsScale den }
    ensures { IfOk result (λ t. ShowsRatio [] num den (string_bytes t)) }
{
    fraction(num, den).text(alloc)
}

/// A number of a plan, over the plan's denominator.
pub(crate) fn over_den(alloc: Global, plan: &Plan, num: i128) -> Result<String, AllocError>
    requires num { unsigned_abs num < 2 ^ 127 }
    requires den { IsScale plan.now.den }
    ensures { IfOk result (λ t. ShowsRatio [] num plan.now.den (string_bytes t)) }
{
    ratio(alloc, num, plan.den)
}

/// The text of a cost.
#[tactic(auto, using(crate::proofs::CellsLemmas::shows_cost))]
pub(crate) fn cost_text(alloc: Global, num: i128, den: i128) -> Result<String, AllocError>
    requires num { unsigned_abs num < 2 ^ 127 }
    requires den { IsScale den }
    ensures { IfOk result (λ t. ShowsRatio (codes "cost ") num den (string_bytes t)) }
{
    let text = fraction(num, den).text(alloc)?;
    let text = text.as_str();
    format!(in alloc; "cost {text}")
}

/// The text of a bound.
pub(crate) fn bound_text(alloc: Global, bound: &Frac) -> Result<String, AllocError>
    ensures { IfOk result (λ t. string_bytes t ≡ bound_text bound.now) }
{
    let text = bound.text(alloc)?;
    let text = text.as_str();
    format!(in alloc; "bound {text}")
}

/// Whether there is a gap between a cost and a bound.
pub(crate) fn gap_text(num: i128, den: i128, bound: &Frac) -> &'static str
    requires num { unsigned_abs num < 2 ^ 127 }
    requires den { IsScale den }
    ensures { ShowsGap num den bound.now result.now }
{
    if bound.is_same(&fraction(num, den)) {
        "gap none"
    } else {
        "gap open"
    }
}

/// The end of a haul at a section.
pub(crate) fn at_section(alloc: Global, section: usize) -> Result<String, AllocError>
    ensures { IfOk result (λ t. string_bytes t ≡ at_section section) }
{
    format!(in alloc; "section {section}")
}

/// The end of a haul at a pit.
pub(crate) fn at_pit(alloc: Global, pit: &Pit) -> Result<String, AllocError>
    ensures { IfOk result (λ t. string_bytes t ≡ codes "pit " ++ pit.now.name) }
{
    let name = pit.name.as_str();
    format!(in alloc; "pit {name}")
}

ghost use Rattle.std.specs.Prelude.{◌++◌};

/// The stage from which a block is open.
pub(crate) fn opening(alloc: Global, road: &Road, stage: usize) -> Result<String, AllocError>
    ensures { IfOk result (λ t. string_bytes t ≡ opening_text road.now stage) }
{
    if stage <= road.stages {
        number(alloc, stage)
    } else {
        String::from_str(alloc, "never")
    }
}

/// Whether nothing is moved.
pub(crate) fn is_nothing(amount: i128) -> bool
    ensures { result ≡ is_nothing amount }
{
    amount == 0
}

/// Whether nothing is cut and nothing filled.
pub(crate) fn are_nothing(cut: i128, fill: i128) -> bool
    ensures { result ≡ (is_nothing cut && is_nothing fill) }
{
    is_nothing(cut) && is_nothing(fill)
}

/// The text of a road's sizes.
#[tactic(auto, unfolding(crate::specs::Reports::sizes_text))]
pub(crate) fn sizes_text(alloc: Global, road: &Road) -> Result<String, AllocError>
    ensures { IfOk result (λ t. string_bytes t ≡ sizes_text road.now) }
{
    let sections = road.sections.len();
    let stages = road.stages;
    let step = road.step;
    format!(in alloc; "road sections {sections} stages {stages} step {step}")
}

/// The text of the leaves that were left open.
#[tactic(auto, unfolding(crate::specs::Reports::leaves_text))]
pub(crate) fn leaves_text(alloc: Global, leaves: OpenLeaves) -> Result<String, AllocError>
    ensures { IfOk result (λ t. string_bytes t ≡ leaves_text leaves) }
{
    let OpenLeaves {
        nodes,
        pivots,
        width,
    } = leaves;
    format!(in alloc; "open nodes {nodes} pivots {pivots} width {width}")
}

// Plans and points.
use crate::counts::fraction_text;
use branch_bound::{Found, NodeNote};
use numbers::Frac;
use plan_rules::Plan;
use road_types::Listed;
use std::alloc::{AllocError, Global};

/// The value of a column, counted from 1, in the root's optimum.
pub(crate) fn value_text(alloc: Global, found: &Found, column: &str) -> Result<String, AllocError> {
    let column = column.parse::<usize>().unwrap_or(0);
    match found.notes.as_slice().first() {
        Some(NodeNote::Fractional { den, point, .. }) | Some(NodeNote::Nodes { den, point, .. }) =>
            { number_text(alloc, point.as_slice(), column, *den) }
        _ => String::from_str(alloc, "no optimum"),
    }
}

/// A number of a list, counted from 1, over a denominator.
fn number_text(
    alloc: Global,
    numbers: &[i128],
    place: usize,
    den: i128,
) -> Result<String, AllocError> {
    match numbers.get(place.wrapping_sub(1)) {
        Some(number) => fraction_text(alloc, &Frac::new(*number, den)),
        None => String::from_str(alloc, "no number"),
    }
}

/// The height at the first segment's start, the openings, and cut and fill of a section in the first stage.
pub(crate) fn plan_text(alloc: Global, found: &Found, section: &str) -> Result<String, AllocError> {
    let section = section.parse::<usize>().unwrap_or(0);
    match &found.cert.plan {
        Some(plan) => parts_text(alloc, plan, section),
        None => String::from_str(alloc, "no plan"),
    }
}

fn parts_text(alloc: Global, plan: &Plan, section: usize) -> Result<String, AllocError> {
    let height = height_text(alloc, plan)?;
    let opens = plan.opens.as_slice();
    let cut = amount_text(alloc, plan.cut.as_slice(), section, plan.den)?;
    let fill = amount_text(alloc, plan.fill.as_slice(), section, plan.den)?;
    format!(in alloc; "height {height} opens {opens:?} cut {cut} fill {fill}")
}

fn height_text(alloc: Global, plan: &Plan) -> Result<String, AllocError> {
    match plan.pieces.as_slice().first() {
        Some(piece) => fraction_text(alloc, &Frac::new(piece.a, plan.den)),
        None => String::from_str(alloc, "no segment"),
    }
}

/// A section's amount in the first stage.
fn amount_text(
    alloc: Global,
    stages: &[Listed<i128>],
    section: usize,
    den: i128,
) -> Result<String, AllocError> {
    match stages.first() {
        Some(amounts) => number_text(alloc, amounts.as_slice(), section, den),
        None => String::from_str(alloc, "no stage"),
    }
}

// Cost, bound, nodes and notes.
use branch_bound::{Found, NodeNote};
use numbers::Frac;
use road_types::Road;
use std::alloc::{AllocError, Global};

/// The kind of a note.
fn kind_of(note: &NodeNote) -> &'static str {
    match note {
        NodeNote::Fractional { .. } => "fractional",
        NodeNote::Closed => "closed",
        NodeNote::Dead => "dead",
        NodeNote::Pivots { .. } => "pivots",
        NodeNote::Wide { .. } => "wide",
        NodeNote::Limit { .. } => "limit",
        NodeNote::Nodes { .. } => "nodes",
    }
}

/// How many notes are of a kind.
fn count_of(found: &Found, kind: &str) -> u32 {
    let mut count: u32 = 0;
    for note in found.notes.as_slice() {
        if kind_of(note) == kind {
            count = count.saturating_add(1);
        }
    }
    count
}

/// The number of nodes, cost, bound and how many notes there are of each kind.
pub(crate) fn brief_text(alloc: Global, found: &Found) -> Result<String, AllocError> {
    let count = found.count;
    let ends = ends_text(alloc, found)?;
    let kinds = kinds_text(alloc, found)?;
    format!(in alloc; "nodes {count} {ends} {kinds}")
}

/// Cost and bound.
fn ends_text(alloc: Global, found: &Found) -> Result<String, AllocError> {
    let cost = fraction_text(alloc, &found.cert.cost)?;
    let bound = fraction_text(alloc, &found.cert.bound)?;
    format!(in alloc; "cost {cost} bound {bound}")
}

pub(crate) fn fraction_text(alloc: Global, fraction: &Option<Frac>) -> Result<String, AllocError> {
    match fraction {
        Some(fraction) => fraction.text(alloc),
        None => String::from_str(alloc, "none"),
    }
}

/// How many notes there are of each kind that stands.
fn kinds_text(alloc: Global, found: &Found) -> Result<String, AllocError> {
    let fractional = count_of(found, "fractional");
    let closed = count_of(found, "closed");
    let dead = count_of(found, "dead");
    let open = open_text(alloc, found)?;
    format!(in alloc; "fractional {fractional} closed {closed} dead {dead} {open}")
}

/// How many leaves were left open for each cause.
fn open_text(alloc: Global, found: &Found) -> Result<String, AllocError> {
    let nodes = count_of(found, "nodes");
    let pivots = count_of(found, "pivots");
    let wide = count_of(found, "wide");
    let limit = count_of(found, "limit");
    format!(in alloc; "nodes {nodes} pivots {pivots} wide {wide} limit {limit}")
}

/// The cost, and how many leaves were left open for each cause.
pub(crate) fn left_open_text(alloc: Global, found: &Found) -> Result<String, AllocError> {
    let cost = fraction_text(alloc, &found.cert.cost)?;
    let open = open_text(alloc, found)?;
    format!(in alloc; "cost {cost} {open}")
}

/// Cost and bound, whether nodes and notes are as many as they may be, whether a leaf was closed, and which were left open.
pub(crate) fn end_text(alloc: Global, road: &Road, found: &Found) -> Result<String, AllocError> {
    let ends = ends_text(alloc, found)?;
    let within = within_word(road, found);
    let closed = if count_of(found, "closed") == 0 {
        "no"
    } else {
        "some"
    };
    let open = open_text(alloc, found)?;
    format!(in alloc; "{ends} {within} closed {closed} {open}")
}

/// Whether nodes and notes are as many as they may be, and the bound is at most the cost.
pub(crate) fn kept_text(alloc: Global, road: &Road, found: &Found) -> Result<String, AllocError> {
    let within = within_word(road, found);
    let order = if is_below(&found.cert.bound, &found.cert.cost) {
        "at most"
    } else {
        "above"
    };
    format!(in alloc; "{within} bound {order} the cost")
}

/// Whether there are no more nodes than the road's budget, and a note for each.
fn within_word(road: &Road, found: &Found) -> &'static str {
    if found.count as i128 > i128::from(road.nodes) {
        "past the budget"
    } else if found.notes.as_slice().len() == found.count {
        "within the budget"
    } else {
        "notes missing"
    }
}

/// Whether a bound is at most a cost; nothing is above no cost.
fn is_below(bound: &Option<Frac>, cost: &Option<Frac>) -> bool {
    match (bound, cost) {
        (_, None) => true,
        (None, Some(_)) => false,
        (Some(bound), Some(cost)) => {
            match (
                bound.num().checked_mul(cost.den()),
                cost.num().checked_mul(bound.den()),
            ) {
                (Some(one), Some(other)) => one <= other,
                _ => false,
            }
        }
    }
}

// What a report is about.
use numbers::Frac;
use plan_rules::Plan;

/// What was found for a road.
#[derive(Clone, Copy)]
pub enum Findings<'a> {
    /// There is no admissible plan.
    NoPlan,
    /// No plan was found, and none costs less than the bound, in cost units.
    Bounded { bound: Frac },
    /// An admissible plan was found, and none costs less than the bound, in cost units.
    Planned { plan: &'a Plan, bound: Frac },
}

/// The leaves of the search that were left open, by their cause.
#[derive(Clone, Copy, Debug)]
pub struct OpenLeaves {
    /// The budget of nodes was spent.
    pub nodes: usize,
    /// The budget of exchanges was spent.
    pub pivots: usize,
    /// A number was too wide.
    pub width: usize,
}

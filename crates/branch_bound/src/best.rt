// The best plan that was found.
use numbers::Frac;
use plan_rules::Plan;

/// A plan with its cost.
#[derive(Drop)]
pub struct Best {
    pub plan: Plan,
    pub cost: Frac,
}

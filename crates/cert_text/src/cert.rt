use cert_tree::Tree;
use numbers::Frac;
use plan_rules::Plan;

/// The greatest length of a certificate's text, in bytes.
pub const LONGEST_TEXT: usize = 67_108_864;

/// A certificate of a road: a plan with its cost, or neither; a bound of all costs, or none; and the tree that proves it.
#[derive(Debug, Drop)]
pub struct Cert {
    /// The plan, if one is stated.
    pub plan: Option<Plan>,
    /// The plan's cost, stated exactly where a plan is.
    pub cost: Option<Frac>,
    /// The bound, if one is stated.
    pub bound: Option<Frac>,
    /// The tree of boxes.
    pub tree: Tree,
}

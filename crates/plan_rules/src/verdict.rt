// What a judge says of a plan.

/// A rule of a plan, by its number.
#[derive(Clone, Copy)]
pub enum Rule {
    /// Each segment's numbers are within the road's limits.
    P1,
    /// Height and grade are continuous at inner knots.
    P2,
    /// The grade at each segment's end is within its limits.
    P3,
    /// The height at each fixed point is within its limits.
    P4,
    /// Each section's offset is within its slabs, and its fill less cut is the volume of that offset.
    P5,
    /// Each amount is within its cap, each pit's total within its capacity.
    P6,
    /// In each stage and section what comes in equals what goes out.
    P7,
    /// Each opening is a stage from 2 on, or never.
    P8,
    /// Earth doesn't pass a standing block, and no earth is moved at an opened one.
    P9,
}

/// A judge's answer.
#[derive(Clone, Copy)]
pub enum Verdict {
    /// No rule is broken; the cost is over the plan's denominator.
    Admissible {
        cost: i128,
    },
    /// The first broken rule, with its stage and place; both are numbered from 1, and stage 0 stands for a rule without stages.
    Broken {
        rule: Rule,
        stage: usize,
        place: usize,
    },
}

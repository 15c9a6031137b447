// Notes of nodes.
use road_types::Listed;
use tableau::{Exchange, Op};

/// What a node of a search shows: how its linear program ended, and so why the node was closed, split or left open.
/// A trail holds the exchanges of the simplex from the start. Points and multipliers are in the order of columns and rows.
#[derive(Debug, Drop)]
pub enum NodeNote {
    /// Split where the optimum asks for it: a removal in part, or a volume other than the section's.
    Fractional {
        trail: Listed<Exchange>,
        den: i128,
        point: Listed<i128>,
        scale: i128,
        mults: Listed<i128>,
    },
    /// Its bound reaches the cost of the best plan.
    Closed,
    /// No plan is inside the box.
    Dead,
    /// The exchanges of one node were spent.
    Pivots {
        trail: Listed<Exchange>,
    },
    /// An operation of the simplex had an exact value past 128 bits.
    Wide {
        trail: Listed<Exchange>,
        op: Op,
    },
    /// A number that a certificate must hold was past 2^40.
    Limit {
        trail: Listed<Exchange>,
        value: i128,
    },
    /// Left open since the nodes were spent, though the optimum asks for a split.
    Nodes {
        trail: Listed<Exchange>,
        den: i128,
        point: Listed<i128>,
        scale: i128,
        mults: Listed<i128>,
    },
}

// Trees of boxes with multipliers at their leaves.

use milp_builder::Split;
use node_box::NodeBox;
use road_types::Listed;

/// Why a leaf was left open.
#[derive(Clone, Copy, Debug, PartialEq, Eq)]
pub enum Why {
    /// The number of nodes was spent.
    Nodes,
    /// The number of exchanges for one node was spent.
    Pivots,
    /// A number was past its width.
    Width,
}

/// A tree of boxes. Multipliers are pairs of a row's number, from 1, and a value that isn't 0, rows rising; rows without one have 0.
#[derive(Debug, Drop)]
pub enum Tree {
    /// The scale and multipliers bound the costs in the box from below; a leaf with a cause was left open.
    Low {
        scale: i128,
        mults: Listed<(u32, i128)>,
        cause: Option<Why>,
    },
    /// The multipliers prove that the box has no plan.
    Dead {
        mults: Listed<(u32, i128)>,
    },
    /// The box is split, and each part has a tree.
    Split {
        split: Split,
        first: NodeBox<Tree>,
        second: NodeBox<Tree>,
    },
}

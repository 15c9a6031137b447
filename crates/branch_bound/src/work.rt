// The tree while it grows.
use crate::notes::NodeNote;
use milp_builder::{BoxRange, Split};
use node_box::NodeBox;
use road_types::Listed;
use tableau::Exchange;

/// What narrowed multipliers prove of a box: no plan inside it costs less than the value over the scale.
#[derive(Drop)]
pub struct Proved {
    /// The value of scale and multipliers on the rows of the box.
    pub value: i128,
    /// The scale, from 1 to 2^40.
    pub scale: i128,
    /// The multipliers: pairs of a row's number, from 1, and a value that isn't 0, rows rising.
    pub mults: Listed<(u32, i128)>,
}

/// An optimum of a box's linear program, and the exchanges that lead to it.
#[derive(Drop)]
pub struct Optimum {
    pub trail: Listed<Exchange>,
    pub den: i128,
    pub point: Listed<i128>,
    pub scale: i128,
    pub mults: Listed<i128>,
}

/// Why a leaf waits to be split.
#[derive(Drop)]
pub enum Reason {
    /// Its optimum asks for the split.
    Asked { optimum: Optimum },
    /// Its simplex stopped without an optimum of use, as the note says.
    Stop { note: NodeNote },
}

/// A leaf that waits to be split: its box, a split of it, why it waits, and what is proved of it.
#[derive(Drop)]
pub struct Waiting {
    pub range: BoxRange,
    pub split: Split,
    pub reason: Reason,
    pub proved: Proved,
}

/// A tree that grows.
#[derive(Drop)]
pub enum Work {
    /// A leaf without a plan.
    Dead {
        mults: Listed<(u32, i128)>,
    },
    /// A leaf whose optimum is a plan, so that its bound reaches the cost of the best plan.
    Whole {
        proved: Proved,
    },
    /// A leaf that stays as it is, though its bound doesn't reach the cost of the best plan: its simplex stopped and its box has no
    /// split, or its optimum is a plan with a number past the limit.
    Stopped {
        proved: Proved,
        note: NodeNote,
    },
    /// A leaf that may be split.
    Waiting {
        leaf: Waiting,
    },
    /// A split, with the note that asks for it and its key.
    Parted {
        split: Split,
        note: NodeNote,
        key: (i128, i128),
        first: NodeBox<Work>,
        second: NodeBox<Work>,
    },
}

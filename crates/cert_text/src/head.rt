use cert_tree::Why;
use milp_builder::Split;

/// What the first line of a node says.
#[derive(Drop)]
pub(crate) enum Head {
    /// A leaf with a scale, the cause for which it was left open, if it was, and so many multipliers.
    Low {
        scale: i128,
        cause: Option<Why>,
        count: usize,
    },
    /// A leaf that proves its box empty by so many multipliers.
    Dead {
        count: usize,
    },
    /// A split.
    Parted {
        split: Split,
    },
}

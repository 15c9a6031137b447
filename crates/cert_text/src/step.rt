use cert_tree::Why;
use milp_builder::Split;

/// The next node of a tree in preorder, or that the tree is whole.
#[derive(Drop)]
pub enum Step {
    /// A leaf with its scale and the cause for which it was left open, if it was.
    Low { scale: i128, cause: Option<Why> },
    /// A leaf that proves its box empty.
    Dead,
    /// A split, whose first part's tree comes next.
    Split { split: Split },
    /// The tree is whole.
    End,
}

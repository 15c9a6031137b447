// Boxes of plans.
use road_types::Listed;

/// The plans whose opening stages and offsets lie in these ranges, both ends included.
#[derive(Debug, Drop)]
pub struct BoxRange {
    /// The least and the greatest opening stage of each block; one more than the number of stages means never.
    pub opens: Listed<(u8, u8)>,
    /// The least and the greatest offset of each section, in mm.
    pub heights: Listed<(i64, i64)>,
}

/// Where a box is split into two.
#[derive(Clone, Copy, Debug)]
pub enum Split {
    /// Between a block's openings up to a stage and those after it; blocks are numbered from 1.
    Removal { block: usize, stage: usize },
    /// At an offset of a section, in mm; sections are numbered from 1.
    Height { section: usize, at: i64 },
}

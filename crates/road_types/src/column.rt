// The columns of a road's program by what they stand for.

/// What a column of a road's program stands for. Segments, sections, hops, stages, access roads and blocks are numbered from 1.
#[derive(Clone, Copy)]
pub enum Column {
    /// Height at the segment's start, in mm.
    A { segment: usize },
    /// Grade at the segment's start, in mm per step.
    B { segment: usize },
    /// Curve of the segment, in mm per step².
    C { segment: usize },
    /// Offset of the section, in mm.
    Offset { section: usize },
    /// Cut of the section in the stage, in litres.
    Cut { section: usize, stage: usize },
    /// Fill of the section in the stage, in litres.
    Fill { section: usize, stage: usize },
    /// Haul to the right over the hop in the stage, in litres.
    Right { hop: usize, stage: usize },
    /// Haul to the left over the hop in the stage, in litres.
    Left { hop: usize, stage: usize },
    /// Amount on the access road in the stage, in litres.
    Access { road: usize, stage: usize },
    /// 1 where the block has its opening at the stage or before, else 0; there is none at stage 1.
    Opened { block: usize, stage: usize },
}

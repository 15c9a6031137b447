// The record of a plan.
use road_types::Listed;

/// One segment's height `a + b*s + c*s^2` at s steps from its start, each times the plan's denominator.
#[derive(Clone, Copy, Debug)]
pub struct Piece {
    /// Height at the segment's start, in mm.
    pub a: i128,
    /// Grade there, in mm per step.
    pub b: i128,
    /// Curve, in mm per step².
    pub c: i128,
}

/// A plan: whole numbers over one denominator. The five lists of lists are by stage.
#[derive(Debug, Drop)]
pub struct Plan {
    /// The common denominator of all numbers but the openings.
    pub den: i128,
    /// The height of each segment.
    pub pieces: Listed<Piece>,
    /// Litres cut in each section.
    pub cut: Listed<Listed<i128>>,
    /// Litres filled in each section.
    pub fill: Listed<Listed<i128>>,
    /// Litres hauled to the right over each hop.
    pub right: Listed<Listed<i128>>,
    /// Litres hauled to the left over each hop.
    pub left: Listed<Listed<i128>>,
    /// Litres on each access road.
    pub roads: Listed<Listed<i128>>,
    /// The opening stage of each block; one more than the number of stages means never.
    pub opens: Listed<u8>,
}

// The record of a road.
use crate::{Listed, Text};

/// One layer of a section's table, from the ground away.
#[derive(Clone, Copy, Debug)]
pub struct Slab {
    /// Thickness in mm.
    pub thick: i64,
    /// Area in m².
    pub area: i64,
}

/// A place along the road where heights, cut and fill are accounted for.
#[derive(Debug, Drop)]
pub struct Section {
    /// Station in whole steps.
    pub station: i64,
    /// Height of the ground in mm.
    pub ground: i64,
    /// Slabs below the ground, from the ground away.
    pub cut: Listed<Slab>,
    /// Slabs above the ground, from the ground away.
    pub fill: Listed<Slab>,
    /// Cost units per litre of cut.
    pub cut_cost: i64,
    /// Cost units per litre of fill.
    pub fill_cost: i64,
    /// Greatest cut of one stage, in litres.
    pub cut_max: i64,
    /// Greatest fill of one stage, in litres.
    pub fill_max: i64,
}

/// The way from one section to the next; hop h joins section h and section h+1.
#[derive(Clone, Copy, Debug)]
pub struct Hop {
    /// Cost units per litre hauled to the right.
    pub right_cost: i64,
    /// Greatest haul to the right of one stage, in litres.
    pub right_max: i64,
    /// Cost units per litre hauled to the left.
    pub left_cost: i64,
    /// Greatest haul to the left of one stage, in litres.
    pub left_max: i64,
}

/// A station at which the height is limited.
#[derive(Clone, Copy, Debug)]
pub struct Fixed {
    /// Station in whole steps.
    pub station: i64,
    /// Least height in mm.
    pub low: i64,
    /// Greatest height in mm.
    pub high: i64,
}

/// Which way earth goes between a pit and the road.
#[derive(Clone, Copy, Debug, PartialEq, Eq)]
pub enum PitKind {
    /// Earth comes from the pit.
    Borrow,
    /// Earth goes to the pit.
    Waste,
}

/// A borrow or waste pit.
#[derive(Debug, Drop)]
pub struct Pit {
    /// Its name: 1 to 32 letters, digits, `_` and `-` of ASCII.
    pub name: Text,
    /// Borrow or waste.
    pub kind: PitKind,
    /// Greatest total over all access roads and stages, in litres.
    pub capacity: i64,
    /// Cost units per litre, on top of the access road's.
    pub cost: i64,
}

/// A road between a pit and a section.
#[derive(Clone, Copy, Debug)]
pub struct Access {
    /// The pit's number, from 1.
    pub pit: usize,
    /// The section's number, from 1.
    pub section: usize,
    /// Cost units per litre.
    pub cost: i64,
    /// Greatest amount of one stage, in litres.
    pub max: i64,
}

/// An obstacle at a section, which can be removed so that earth may be moved there.
#[derive(Clone, Copy, Debug)]
pub struct Block {
    /// The section's number, from 1.
    pub section: usize,
    /// The cost of its removal.
    pub cost: i64,
}

/// A road, its sections and what stands along it.
#[derive(Debug, Drop)]
pub struct Road {
    /// Metres per step.
    pub step: i64,
    /// Number of stages.
    pub stages: usize,
    /// Stations of the knots, rising; segment g ends at the knot that stands at g when counted from 0.
    pub knots: Listed<i64>,
    /// Least height at a segment's start, in mm.
    pub low: i64,
    /// Greatest height at a segment's start, in mm.
    pub high: i64,
    /// Least and greatest grade, in mm per step.
    pub grade: (i64, i64),
    /// Greatest magnitude of a segment's curve, in mm per step².
    pub curve: i64,
    /// The sections, by rising station.
    pub sections: Listed<Section>,
    /// The fixed points.
    pub fixed: Listed<Fixed>,
    /// The pits.
    pub pits: Listed<Pit>,
    /// The access roads.
    pub roads: Listed<Access>,
    /// The blocks.
    pub blocks: Listed<Block>,
    /// The hops, one less than there are sections.
    pub hops: Listed<Hop>,
    /// Greatest number of nodes of a search.
    pub nodes: i64,
    /// Greatest number of exchanges in one node of a search.
    pub pivots: i64,
}

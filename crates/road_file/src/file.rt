// What a road file says, each value of its kind.
ghost use Rattle.std.specs.Prelude.{◌≡◌};
ghost use Rattle.toml.specs.View.{view, table_view};
ghost use Rattle.road_file.specs.Step.{MayAnswer};

use crate::RoadErr;
use crate::kinds::{
    FromValue, list_at, list_or_empty, pair, pair_at, table, text_at, text_or_none, whole_at,
    whole_or,
};
use road_types::{Fixed, Hop, Listed, Section, Slab, Text};
use std::alloc::Global;
use toml::{Table, Value};

/// The greatest number of nodes of a search where the file says none.
const NODES: i64 = 499;

/// The greatest number of exchanges in one node of a search where the file says none.
const PIVOTS: i64 = 5000;

/// A pit, with its kind as the file spells it.
#[derive(Drop)]
pub(crate) struct FilePit {
    pub(crate) name: Text,
    pub(crate) kind: Text,
    pub(crate) capacity: i64,
    pub(crate) cost: i64,
}

/// An access road, with its pit by name.
#[derive(Drop)]
pub(crate) struct FileAccess {
    pub(crate) pit: Text,
    pub(crate) section: i64,
    pub(crate) cost: i64,
    pub(crate) max: i64,
}

/// A block.
#[derive(Clone, Copy)]
pub(crate) struct FileBlock {
    pub(crate) section: i64,
    pub(crate) cost: i64,
}

/// All values of a road file.
#[derive(Drop)]
pub(crate) struct RoadFile {
    pub(crate) version: i64,
    pub(crate) step: i64,
    pub(crate) stages: i64,
    pub(crate) knots: Listed<i64>,
    pub(crate) low: i64,
    pub(crate) high: i64,
    pub(crate) grade: (i64, i64),
    pub(crate) curve: i64,
    pub(crate) nodes: i64,
    pub(crate) pivots: i64,
    /// The name of the section table, where the sections stand in one.
    pub(crate) table: Option<Text>,
    pub(crate) sections: Listed<Section>,
    pub(crate) hops: Listed<Hop>,
    pub(crate) fixed: Listed<Fixed>,
    pub(crate) pits: Listed<FilePit>,
    pub(crate) roads: Listed<FileAccess>,
    pub(crate) blocks: Listed<FileBlock>,
}

impl FromValue for Slab {
    ghost use Rattle.road_file.specs.Records.{slab_of};

    ghost reads = { slab_of };

    #[tactic(auto, unfolding(crate::specs::Records::slab_of))]
    fn from_value(_alloc: Global, value: &Value) -> Result<Self, RoadErr> {
        let (thick, area) = pair(value)?;
        Ok(Slab { thick, area })
    }
}

impl FromValue for Section {
    ghost use Rattle.road_file.specs.Records.{section_of};

    ghost reads = { section_of };

    #[tactic(auto, using(crate::proofs::ReadingLemmas::section_by_parts))]
    fn from_value(alloc: Global, value: &Value) -> Result<Self, RoadErr> {
        read_section(alloc, value)
    }
}

ghost use Rattle.road_file.specs.inside.Reading.{read_section, section_with};

/// Reads a section in the order of its values.
#[tactic(auto, unfolding(crate::specs::inside::Reading::read_section))]
fn read_section(alloc: Global, value: &Value) -> Result<Section, RoadErr>
    ensures { MayAnswer result (read_section (view value.now)) }
{
    let table = table(value)?;
    let station = whole_at(table, "station")?;
    let ground = whole_at(table, "ground")?;
    let cut = list_at(alloc, table, "cut")?;
    let fill = match list_at(alloc, table, "fill") {
        Ok(fill) => fill,
        Err(error) => {
            // Dropped by name, which is one step in the proof.
            drop(cut);
            return Err(error);
        }
    };
    section_with(table, station, ground, cut, fill)
}

/// The section with these tables, once its costs and limits are read.
#[tactic(auto, unfolding(crate::specs::inside::Reading::section_with))]
fn section_with(
    table: &Table,
    station: i64,
    ground: i64,
    cut: Listed<Slab>,
    fill: Listed<Slab>,
) -> Result<Section, RoadErr>
    ensures { MayAnswer result (section_with (table_view table.now) station ground cut fill) }
{
    let cut_cost = match whole_at(table, "cut_cost") {
        Ok(cut_cost) => cut_cost,
        Err(error) => {
            drop(cut);
            drop(fill);
            return Err(error);
        }
    };
    let fill_cost = match whole_at(table, "fill_cost") {
        Ok(fill_cost) => fill_cost,
        Err(error) => {
            drop(cut);
            drop(fill);
            return Err(error);
        }
    };
    let cut_max = match whole_at(table, "cut_max") {
        Ok(cut_max) => cut_max,
        Err(error) => {
            drop(cut);
            drop(fill);
            return Err(error);
        }
    };
    let fill_max = match whole_at(table, "fill_max") {
        Ok(fill_max) => fill_max,
        Err(error) => {
            drop(cut);
            drop(fill);
            return Err(error);
        }
    };
    Ok(Section {
        station,
        ground,
        cut,
        fill,
        cut_cost,
        fill_cost,
        cut_max,
        fill_max,
    })
}

impl FromValue for Hop {
    ghost use Rattle.road_file.specs.Records.{hop_of};

    ghost reads = { hop_of };

    #[tactic(auto, unfolding(crate::specs::Records::hop_of))]
    fn from_value(_alloc: Global, value: &Value) -> Result<Self, RoadErr> {
        let table = table(value)?;
        Ok(Hop {
            right_cost: whole_at(table, "right_cost")?,
            right_max: whole_at(table, "right_max")?,
            left_cost: whole_at(table, "left_cost")?,
            left_max: whole_at(table, "left_max")?,
        })
    }
}

impl FromValue for Fixed {
    ghost use Rattle.road_file.specs.Records.{fixed_of};

    ghost reads = { fixed_of };

    #[tactic(auto, unfolding(crate::specs::Records::fixed_of))]
    fn from_value(_alloc: Global, value: &Value) -> Result<Self, RoadErr> {
        let table = table(value)?;
        Ok(Fixed {
            station: whole_at(table, "station")?,
            low: whole_at(table, "low")?,
            high: whole_at(table, "high")?,
        })
    }
}

impl FromValue for FilePit {
    ghost use Rattle.road_file.specs.Records.{pit_of};

    ghost reads = { pit_of };

    #[tactic(auto, unfolding(crate::specs::Records::pit_of))]
    fn from_value(alloc: Global, value: &Value) -> Result<Self, RoadErr> {
        let table = table(value)?;
        let name = text_at(alloc, table, "name")?;
        let kind = match text_at(alloc, table, "kind") {
            Ok(kind) => kind,
            Err(error) => {
                drop(name);
                return Err(error);
            }
        };
        let capacity = match whole_at(table, "capacity") {
            Ok(capacity) => capacity,
            Err(error) => {
                drop(name);
                drop(kind);
                return Err(error);
            }
        };
        let cost = match whole_at(table, "cost") {
            Ok(cost) => cost,
            Err(error) => {
                drop(name);
                drop(kind);
                return Err(error);
            }
        };
        Ok(FilePit {
            name,
            kind,
            capacity,
            cost,
        })
    }
}

impl FromValue for FileAccess {
    ghost use Rattle.road_file.specs.Records.{access_of};

    ghost reads = { access_of };

    #[tactic(auto, unfolding(crate::specs::Records::access_of))]
    fn from_value(alloc: Global, value: &Value) -> Result<Self, RoadErr> {
        let table = table(value)?;
        let pit = text_at(alloc, table, "pit")?;
        let section = match whole_at(table, "section") {
            Ok(section) => section,
            Err(error) => {
                drop(pit);
                return Err(error);
            }
        };
        let cost = match whole_at(table, "cost") {
            Ok(cost) => cost,
            Err(error) => {
                drop(pit);
                return Err(error);
            }
        };
        let max = match whole_at(table, "max") {
            Ok(max) => max,
            Err(error) => {
                drop(pit);
                return Err(error);
            }
        };
        Ok(FileAccess {
            pit,
            section,
            cost,
            max,
        })
    }
}

impl FromValue for FileBlock {
    ghost use Rattle.road_file.specs.Records.{block_of};

    ghost reads = { block_of };

    #[tactic(auto, unfolding(crate::specs::Records::block_of))]
    fn from_value(_alloc: Global, value: &Value) -> Result<Self, RoadErr> {
        let table = table(value)?;
        Ok(FileBlock {
            section: whole_at(table, "section")?,
            cost: whole_at(table, "cost")?,
        })
    }
}

/// The version, and the scales of the road.
#[derive(Clone, Copy)]
pub(crate) struct FileScales {
    pub(crate) version: i64,
    pub(crate) step: i64,
    pub(crate) stages: i64,
}

/// The limits of heights, grades, curves and of the search.
#[derive(Clone, Copy)]
pub(crate) struct FileLimits {
    pub(crate) low: i64,
    pub(crate) high: i64,
    pub(crate) grade: (i64, i64),
    pub(crate) curve: i64,
    pub(crate) nodes: i64,
    pub(crate) pivots: i64,
}

/// The knots, the name of the section table, and the sections, hops and fixed points.
#[derive(Drop)]
pub(crate) struct FilePlaces {
    pub(crate) knots: Listed<i64>,
    pub(crate) table: Option<Text>,
    pub(crate) sections: Listed<Section>,
    pub(crate) hops: Listed<Hop>,
    pub(crate) fixed: Listed<Fixed>,
}

ghost use Rattle.road_file.specs.inside.Reading.{read_file, read_on, read_places, read_pits, whole_file};

impl RoadFile {
    ghost use Rattle.road_file.specs.Records.{file_of};

    /// Reads the values of a document; refused by the fault of a value that isn't of its kind.
    #[tactic(auto, using(crate::proofs::ReadingLemmas::file_by_parts))]
    pub(crate) fn read(alloc: Global, root: &Table) -> Result<Self, RoadErr>
        ensures { MayAnswer result (file_of (table_view root.now)) }
    {
        read_file(alloc, root)
    }
}

/// Reads a file in the order of its values.
#[tactic(auto, unfolding(crate::specs::inside::Reading::read_file))]
fn read_file(alloc: Global, root: &Table) -> Result<RoadFile, RoadErr>
    ensures { MayAnswer result (read_file (table_view root.now)) }
{
    let version = whole_at(root, "version")?;
    let step = whole_at(root, "step")?;
    let stages = whole_at(root, "stages")?;
    let scales = FileScales {
        version,
        step,
        stages,
    };
    let knots = list_at(alloc, root, "knots")?;
    read_on(alloc, root, scales, knots)
}

/// Reads what stands behind the knots.
#[tactic(auto, unfolding(crate::specs::inside::Reading::read_on))]
fn read_on(
    alloc: Global,
    root: &Table,
    scales: FileScales,
    knots: Listed<i64>,
) -> Result<RoadFile, RoadErr>
    ensures { MayAnswer result (read_on (table_view root.now) scales knots) }
{
    let low = match whole_at(root, "low") {
        Ok(low) => low,
        Err(error) => {
            drop(knots);
            return Err(error);
        }
    };
    let high = match whole_at(root, "high") {
        Ok(high) => high,
        Err(error) => {
            drop(knots);
            return Err(error);
        }
    };
    let grade = match pair_at(root, "grade") {
        Ok(grade) => grade,
        Err(error) => {
            drop(knots);
            return Err(error);
        }
    };
    let curve = match whole_at(root, "curve") {
        Ok(curve) => curve,
        Err(error) => {
            drop(knots);
            return Err(error);
        }
    };
    let nodes = match whole_or(NODES, root, "nodes") {
        Ok(nodes) => nodes,
        Err(error) => {
            drop(knots);
            return Err(error);
        }
    };
    let pivots = match whole_or(PIVOTS, root, "pivots") {
        Ok(pivots) => pivots,
        Err(error) => {
            drop(knots);
            return Err(error);
        }
    };
    let limits = FileLimits {
        low,
        high,
        grade,
        curve,
        nodes,
        pivots,
    };
    read_places(alloc, root, scales, limits, knots)
}

/// Reads what stands behind the limits.
#[tactic(auto, unfolding(crate::specs::inside::Reading::read_places))]
fn read_places(
    alloc: Global,
    root: &Table,
    scales: FileScales,
    limits: FileLimits,
    knots: Listed<i64>,
) -> Result<RoadFile, RoadErr>
    ensures { MayAnswer result (read_places (table_view root.now) scales limits knots) }
{
    let table = match text_or_none(alloc, root, "table") {
        Ok(table) => table,
        Err(error) => {
            drop(knots);
            return Err(error);
        }
    };
    let sections = match list_or_empty(alloc, root, "section") {
        Ok(sections) => sections,
        Err(error) => {
            drop(knots);
            drop(table);
            return Err(error);
        }
    };
    let hops = match list_or_empty(alloc, root, "hop") {
        Ok(hops) => hops,
        Err(error) => {
            drop(knots);
            drop(table);
            drop(sections);
            return Err(error);
        }
    };
    let fixed = match list_or_empty(alloc, root, "fixed") {
        Ok(fixed) => fixed,
        Err(error) => {
            drop(knots);
            drop(table);
            drop(sections);
            drop(hops);
            return Err(error);
        }
    };
    let places = FilePlaces {
        knots,
        table,
        sections,
        hops,
        fixed,
    };
    read_pits(alloc, root, scales, limits, places)
}

/// Reads the pits, access roads and blocks, which are the last.
#[tactic(auto, unfolding(crate::specs::inside::Reading::read_pits))]
fn read_pits(
    alloc: Global,
    root: &Table,
    scales: FileScales,
    limits: FileLimits,
    places: FilePlaces,
) -> Result<RoadFile, RoadErr>
    ensures { MayAnswer result (read_pits (table_view root.now) scales limits places) }
{
    let pits = match list_or_empty(alloc, root, "pit") {
        Ok(pits) => pits,
        Err(error) => {
            drop(places);
            return Err(error);
        }
    };
    let roads = match list_or_empty(alloc, root, "road") {
        Ok(roads) => roads,
        Err(error) => {
            drop(places);
            drop(pits);
            return Err(error);
        }
    };
    let blocks = match list_or_empty(alloc, root, "block") {
        Ok(blocks) => blocks,
        Err(error) => {
            drop(places);
            drop(pits);
            drop(roads);
            return Err(error);
        }
    };
    Ok(whole_file(scales, limits, places, pits, roads, blocks))
}

/// The file of its parts.
#[tactic(auto, unfolding(crate::specs::inside::Reading::whole_file))]
fn whole_file(
    scales: FileScales,
    limits: FileLimits,
    places: FilePlaces,
    pits: Listed<FilePit>,
    roads: Listed<FileAccess>,
    blocks: Listed<FileBlock>,
) -> RoadFile
    ensures { result ≡ whole_file scales limits places pits roads blocks }
{
    let FilePlaces {
        knots,
        table,
        sections,
        hops,
        fixed,
    } = places;
    RoadFile {
        version: scales.version,
        step: scales.step,
        stages: scales.stages,
        knots,
        low: limits.low,
        high: limits.high,
        grade: limits.grade,
        curve: limits.curve,
        nodes: limits.nodes,
        pivots: limits.pivots,
        table,
        sections,
        hops,
        fixed,
        pits,
        roads,
        blocks,
    }
}

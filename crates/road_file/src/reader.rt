// From the bytes of a road file to its road.
ghost use Rattle.std.specs.Prelude.{◌≡◌, IfOk, MatchResult, IsTrue, false, map, unwrap_or, option_map};
ghost use Rattle.std.specs.Str.{bytes_eq};
ghost use Rattle.indexmap.specs.IndexMap.{get_by};
ghost use Rattle.road_types.specs.Faults.{road_fault};
ghost use Rattle.road_file.specs.Step.{MayAnswer, where_kept};
ghost use Rattle.road_file.specs.Ranges.{file_in_range};
ghost use Rattle.toml.specs.View.{table_view};
ghost use Rattle.road_file.specs.RoadOf.{natural_or_zero, kind_of, pit_from, access_to, access_from, block_from, hops_between, road_from, contents_of, table_name_of, of_table, with_sections, completed, of_fault, road_of};
ghost use Rattle.road_file.specs.inside.Numbering.{IsNumbering};
ghost use Rattle.road_file.specs.inside.Reading.{contents_in};

use crate::document::document;
use crate::file::{FileAccess, FileBlock, FilePit, RoadFile};
use crate::ranges::{file_in_range, is_borrow};
use crate::{RoadErr, keys};
use indexmap::IndexMap;
use road_types::{Access, Block, Fault, Hop, Listed, Pit, PitKind, Road, Section, Text};
use section_tables::{TableErr, read_sections};
use std::alloc::{AllocError, Global};
use std::mem;
use toml::Table;

/// A whole number as a count or an entry's number; 0, which is none, below 1.
fn natural_or_zero(x: i64) -> usize
    ensures { result ≡ natural_or_zero x }
{
    if x >= 0 { x as usize } else { 0 }
}

fn kind(kind: &str) -> PitKind
    ensures { result ≡ kind_of kind.now }
{
    if is_borrow(kind) {
        PitKind::Borrow
    } else {
        PitKind::Waste
    }
}

/// The numbers of the pits by their names; a name that stands twice has the first number.
fn numbering<'a>(alloc: Global, pits: &'a [FilePit]) -> Result<IndexMap<&'a str, usize>, AllocError>
    ensures { IfOk result (IsNumbering pits.now) }
{
    let mut numbers = IndexMap::new(alloc);
    for (index, pit) in pits.iter().enumerate() {
        let name = pit.name.as_str();
        if !numbers.contains_key(name) {
            match numbers.insert(name, index + 1) {
                Ok(_) => {}
                Err(error) => {
                    drop(numbers);
                    return Err(AllocError::from(error));
                }
            }
        }
    }
    Ok(numbers)
}

#[tactic(auto, unfolding(crate::specs::RoadOf::pit_from))]
fn pit(pit: FilePit) -> Pit
    ensures { result ≡ pit_from pit }
{
    let FilePit {
        name,
        kind: word,
        capacity,
        cost,
    } = pit;
    Pit {
        name,
        kind: kind(word.as_str()),
        capacity,
        cost,
    }
}

fn pits(alloc: Global, pits: Vec<FilePit>) -> Result<Listed<Pit>, AllocError>
    ensures { IfOk result (λ r. r ≡ map pit_from pits.items) }
{
    let mut built = Vec::new(alloc);
    for file_pit in pits {
        built.push(pit(file_pit))?;
    }
    Ok(Listed::new(built))
}

/// The number of the pit with a name; 0 where no pit has it.
fn pit_number(numbers: &IndexMap<&str, usize>, name: &str) -> usize
    ensures { result ≡ unwrap_or (get_by (λ k. bytes_eq name.now k.now) numbers.now) 0 }
{
    match numbers.get(name) {
        Some(number) => *number,
        None => 0,
    }
}

/// An access road, with its pit by number.
#[tactic(auto, unfolding(crate::specs::RoadOf::access_to))]
fn access(pit: usize, access: &FileAccess) -> Access
    ensures { result ≡ access_to pit access.now }
{
    Access {
        pit,
        section: natural_or_zero(access.section),
        cost: access.cost,
        max: access.max,
    }
}

fn roads(
    alloc: Global,
    pits: &[FilePit],
    roads: &[FileAccess],
) -> Result<Listed<Access>, AllocError>
    ensures { IfOk result (λ r. r ≡ map (access_from pits.now) roads.now) }
{
    let numbers = numbering(alloc, pits)?;
    let mut built = Vec::new(alloc);
    for road in roads {
        let pit = pit_number(&numbers, road.pit.as_str());
        match built.push(access(pit, road)) {
            Ok(()) => {}
            Err(error) => {
                drop(numbers);
                drop(built);
                return Err(AllocError::from(error));
            }
        }
    }
    drop(numbers);
    Ok(Listed::new(built))
}

#[tactic(auto, unfolding(crate::specs::RoadOf::block_from))]
fn block(block: &FileBlock) -> Block
    ensures { result ≡ block_from block.now }
{
    Block {
        section: natural_or_zero(block.section),
        cost: block.cost,
    }
}

fn blocks(alloc: Global, blocks: &[FileBlock]) -> Result<Listed<Block>, AllocError>
    ensures { IfOk result (λ r. r ≡ map block_from blocks.now) }
{
    let mut built = Vec::new(alloc);
    for file_block in blocks {
        built.push(block(file_block))?;
    }
    Ok(Listed::new(built))
}

/// One entry stands for every hop.
#[tactic(auto, unfolding(crate::specs::RoadOf::hops_between))]
fn hops_between(
    alloc: Global,
    sections: usize,
    hops: Listed<Hop>,
) -> Result<Listed<Hop>, AllocError>
    ensures { IfOk result (λ r. r ≡ hops_between sections hops) }
{
    if let [hop] = hops.as_slice() {
        let mut copies = Vec::new(alloc);
        copies.resize(sections.saturating_sub(1), *hop)?;
        Ok(Listed::new(copies))
    } else {
        Ok(hops)
    }
}

/// The road that a file's values stand for.
fn road(alloc: Global, file: RoadFile) -> Result<Road, AllocError>
    ensures { IfOk result (λ r. r ≡ road_from file) }
{
    match roads(alloc, file.pits.as_slice(), file.roads.as_slice()) {
        Ok(roads) => road_by(alloc, file, roads),
        Err(error) => {
            // Dropped by name, which is one step in the proof.
            drop(file);
            Err(error)
        }
    }
}

/// The road of a file, once its access roads are built.
fn road_by(alloc: Global, file: RoadFile, roads: Listed<Access>) -> Result<Road, AllocError>
    requires { roads ≡ map (access_from file.pits) file.roads }
    ensures { IfOk result (λ r. r ≡ road_from file) }
{
    match blocks(alloc, file.blocks.as_slice()) {
        Ok(blocks) => road_on(alloc, file, roads, blocks),
        Err(error) => {
            drop(file);
            drop(roads);
            Err(error)
        }
    }
}

/// The road of a file, once its access roads and blocks are built.
#[tactic(auto, unfolding(crate::specs::RoadOf::road_from))]
fn road_on(
    alloc: Global,
    file: RoadFile,
    roads: Listed<Access>,
    blocks: Listed<Block>,
) -> Result<Road, AllocError>
    requires roads { roads ≡ map (access_from file.pits) file.roads }
    requires blocks { blocks ≡ map block_from file.blocks }
    ensures { IfOk result (λ r. r ≡ road_from file) }
{
    let RoadFile {
        version: _,
        step,
        stages,
        knots,
        low,
        high,
        grade,
        curve,
        nodes,
        pivots,
        table,
        sections,
        hops: file_hops,
        fixed,
        pits: file_pits,
        roads: file_roads,
        blocks: file_blocks,
    } = file;
    drop(table);
    drop(file_roads);
    drop(file_blocks);
    let hops = match hops_between(alloc, sections.len(), file_hops) {
        Ok(hops) => hops,
        Err(error) => {
            drop(file_pits);
            drop(knots);
            drop(sections);
            drop(fixed);
            drop(roads);
            drop(blocks);
            return Err(error);
        }
    };
    let pits = match pits(alloc, file_pits.into_vec()) {
        Ok(pits) => pits,
        Err(error) => {
            drop(hops);
            drop(knots);
            drop(sections);
            drop(fixed);
            drop(roads);
            drop(blocks);
            return Err(error);
        }
    };
    Ok(Road {
        step,
        stages: natural_or_zero(stages),
        knots,
        low,
        high,
        grade,
        curve,
        sections,
        fixed,
        pits,
        roads,
        blocks,
        hops,
        nodes,
        pivots,
    })
}

/// Refused by the fault where a rule isn't kept.
fn keep(rule: bool, fault: Fault) -> Result<(), RoadErr>
    ensures { MatchResult result (λ _. IsTrue rule) (λ e. (e ≡ RoadErr.Refused fault) × (rule ≡ false)) }
{
    if rule {
        Ok(())
    } else {
        Err(RoadErr::Refused(fault))
    }
}

/// What a file says, where its keys, kinds and ranges are right.
#[tactic(auto, unfolding(crate::specs::RoadOf::contents_of, crate::specs::inside::Reading::contents_in))]
fn contents(alloc: Global, bytes: &[u8]) -> Result<RoadFile, RoadErr>
    ensures { MayAnswer result (contents_of bytes.now) }
{
    let root = document(alloc, bytes)?;
    let file = contents_in(alloc, &root);
    drop(root);
    file
}

/// What a document says, where its keys, kinds and ranges are right.
#[tactic(auto, unfolding(crate::specs::inside::Reading::contents_in))]
fn contents_in(alloc: Global, root: &Table) -> Result<RoadFile, RoadErr>
    ensures { MayAnswer result (contents_in (table_view root.now)) }
{
    keep(keys::is_complete(root), Fault::F3)?;
    keep(keys::is_known(root), Fault::F4)?;
    in_range(RoadFile::read(alloc, root)?)
}

/// Refused where a number or a text is out of its range.
fn in_range(file: RoadFile) -> Result<RoadFile, RoadErr>
    ensures { MayAnswer result (where_kept (file_in_range file) Fault.F6 file) }
{
    if file_in_range(&file) {
        Ok(file)
    } else {
        drop(file);
        Err(RoadErr::Refused(Fault::F6))
    }
}

/// The sections of a section table, which has to be given.
fn table_sections(alloc: Global, csv: Option<&[u8]>) -> Result<Listed<Section>, RoadErr>
    ensures { MayAnswer result (of_table (option_map (λ bytes. bytes.now) csv.entry)) }
{
    let Some(bytes) = csv else {
        return Err(RoadErr::Refused(Fault::F16));
    };
    match read_sections(alloc, bytes) {
        Ok(sections) => Ok(sections),
        Err(TableErr::Refused) => Err(RoadErr::Refused(Fault::F16)),
        Err(TableErr::NoMemory) => Err(RoadErr::NoMemory),
    }
}

#[tactic(auto, unfolding(crate::specs::RoadOf::with_sections))]
fn with_sections(file: RoadFile, sections: Listed<Section>) -> RoadFile
    ensures { result ≡ with_sections file sections }
{
    let mut file = file;
    drop(mem::replace(&mut file.sections, sections));
    file
}

/// What a file says, with the sections of its table in their place.
#[tactic(auto, unfolding(crate::specs::RoadOf::completed, crate::specs::RoadOf::with_sections))]
fn completed(alloc: Global, file: RoadFile, csv: Option<&[u8]>) -> Result<RoadFile, RoadErr>
    ensures { MayAnswer result (completed file (option_map (λ bytes. bytes.now) csv.entry)) }
{
    if file.table.is_none() {
        Ok(file)
    } else {
        match table_sections(alloc, csv) {
            Ok(sections) => Ok(with_sections(file, sections)),
            Err(error) => {
                // Dropped by name, which is one step in the proof.
                drop(file);
                Err(error)
            }
        }
    }
}

/// Refused by the first fault of a road's record.
fn accepted(road: Road) -> Result<Road, RoadErr>
    ensures answers { MayAnswer result (of_fault road (road_fault road)) }
    ensures accepted { IfOk result (λ r. road_fault r ≡ None) }
{
    match road.check() {
        None => Ok(road),
        Some(fault) => {
            drop(road);
            Err(RoadErr::Refused(fault))
        }
    }
}

/// The name of the section table of a road file of at most 4 MiB; `None` where the sections stand in the file itself.
///
/// Refused by the first of the faults F1 to F6. `NoMemory` where memory is wanting.
#[tactic(auto, unfolding(crate::specs::RoadOf::table_name_of))]
pub fn table_name(alloc: Global, bytes: &[u8]) -> Result<Option<Text>, RoadErr>
    ensures { MayAnswer result (table_name_of bytes.now) }
{
    let mut file = contents(alloc, bytes)?;
    let table = file.table.take();
    drop(file);
    Ok(table)
}

/// Reads a road file of at most 4 MiB. `csv` is what its section table holds; it isn't looked at where the file names none.
///
/// Refused by the first fault of the file, in the order F1 to F6, F16, F7 to F15, F17, F18; a road that is answered has none of them.
/// `NoMemory` where memory is wanting.
#[tactic(auto, unfolding(crate::specs::RoadOf::road_of))]
pub fn read_road(alloc: Global, bytes: &[u8], csv: Option<&[u8]>) -> Result<Road, RoadErr>
    ensures answers { MayAnswer result (road_of bytes.now (option_map (λ bytes. bytes.now) csv.entry)) }
    ensures accepted { IfOk result (λ road. road_fault road ≡ None) }
{
    let file = contents(alloc, bytes)?;
    let file = completed(alloc, file, csv)?;
    accepted(road(alloc, file)?)
}

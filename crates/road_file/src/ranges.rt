// The ranges of a road file's numbers and the forms of its texts.
ghost use Rattle.std.specs.Prelude.{◌≡◌};
ghost use Rattle.std.specs.List.{list_all};
ghost use Rattle.road_file.specs.Ranges.{is_borrow, is_kind, is_table_name, table_in_range, pit_in_range, access_in_range, block_in_range, lists_in_range, scales_in_range, limits_in_range, file_in_range};

use crate::file::{FileAccess, FileBlock, FilePit, RoadFile};
use road_types::ranges::{
    fixed_points_in_range, grades_in_range, hops_in_range, is_between, is_cap, is_cost, is_curve,
    is_height, is_name, is_step, sections_in_range, stations_in_range,
};

/// Whether a pit's kind is that of a borrow pit.
pub(crate) fn is_borrow(kind: &str) -> bool
    ensures { result ≡ is_borrow kind.now }
{
    kind == "borrow"
}

fn is_kind(kind: &str) -> bool
    ensures { result ≡ is_kind kind.now }
{
    is_borrow(kind) || kind == "waste"
}

fn is_table_name(name: &str) -> bool
    ensures { result ≡ is_table_name name.now }
{
    1 <= name.len() && name.len() <= 255
}

fn pit_in_range(pit: &FilePit) -> bool
    ensures { result ≡ pit_in_range pit.now }
{
    is_name(pit.name.as_str())
        && is_kind(pit.kind.as_str())
        && is_cap(pit.capacity)
        && is_cost(pit.cost)
}

fn access_in_range(access: &FileAccess) -> bool
    ensures { result ≡ access_in_range access.now }
{
    is_cost(access.cost) && is_cap(access.max)
}

fn block_in_range(block: &FileBlock) -> bool
    ensures { result ≡ block_in_range block.now }
{
    is_cost(block.cost)
}

fn pits_in_range(pits: &[FilePit]) -> bool
    ensures { result ≡ list_all pit_in_range pits.now }
{
    pits.iter().all(|pit| pit_in_range(pit))
}

fn roads_in_range(roads: &[FileAccess]) -> bool
    ensures { result ≡ list_all access_in_range roads.now }
{
    roads.iter().all(|access| access_in_range(access))
}

fn blocks_in_range(blocks: &[FileBlock]) -> bool
    ensures { result ≡ list_all block_in_range blocks.now }
{
    blocks.iter().all(|block| block_in_range(block))
}

fn lists_in_range(file: &RoadFile) -> bool
    ensures { result ≡ lists_in_range file.now }
{
    sections_in_range(file.sections.as_slice())
        && hops_in_range(file.hops.as_slice())
        && fixed_points_in_range(file.fixed.as_slice())
        && pits_in_range(file.pits.as_slice())
        && roads_in_range(file.roads.as_slice())
        && blocks_in_range(file.blocks.as_slice())
}

fn table_in_range(file: &RoadFile) -> bool
    ensures { result ≡ table_in_range file.now.table }
{
    match &file.table {
        Some(name) => is_table_name(name.as_str()),
        None => true,
    }
}

fn scales_in_range(file: &RoadFile) -> bool
    ensures { result ≡ scales_in_range file.now }
{
    is_between(1, 1, file.version)
        && is_step(file.step)
        && is_between(1, 4, file.stages)
        && stations_in_range(file.knots.as_slice())
}

fn limits_in_range(file: &RoadFile) -> bool
    ensures { result ≡ limits_in_range file.now }
{
    is_height(file.low)
        && is_height(file.high)
        && grades_in_range(file.grade)
        && is_curve(file.curve)
}

/// Every number is within its range and every text of its form.
#[tactic(auto, unfolding(crate::specs::Ranges::file_in_range))]
pub(crate) fn file_in_range(file: &RoadFile) -> bool
    ensures { result ≡ file_in_range file.now }
{
    scales_in_range(file) && limits_in_range(file) && table_in_range(file) && lists_in_range(file)
}

// Slab tables, names that differ, and numbers of pits and sections that are there.
ghost use Rattle.std.specs.Prelude.{◌≡◌};
ghost use Rattle.std.specs.List.{list_all};
ghost use Rattle.road_types.specs.RecordFaults.{is_solid, is_table, has_tables, differs_from, names_differ, is_number, has_pit, pits_hold, stands_at_section, block_at_section, point_on_knots, places_hold, stands_elsewhere, blocks_differ};

use super::order::is_on_knots;
use crate::{Access, Block, Fixed, Pit, Road, Section, Slab};

fn is_solid(s: &Slab) -> bool
    ensures { result ≡ is_solid s.now }
{
    1 <= s.thick && 1 <= s.area
}

fn are_solid(slabs: &[Slab]) -> bool
    ensures { result ≡ list_all is_solid slabs.now }
{
    slabs.iter().all(is_solid)
}

fn is_table(slabs: &[Slab]) -> bool
    ensures { result ≡ is_table slabs.now }
{
    1 <= slabs.len() && are_solid(slabs)
}

fn has_tables(s: &Section) -> bool
    ensures { result ≡ has_tables s.now }
{
    is_table(s.cut.as_slice()) && is_table(s.fill.as_slice())
}

/// Whether each section has slabs of at least 1 mm and 1 m² on both sides.
pub(super) fn have_tables(sections: &[Section]) -> bool
    ensures { result ≡ list_all has_tables sections.now }
{
    sections.iter().all(has_tables)
}

fn differs_from(p: &Pit, q: &Pit) -> bool
    ensures { result ≡ differs_from p.now q.now }
{
    p.name.as_str() != q.name.as_str()
}

fn all_differ_from(p: &Pit, rest: &[Pit]) -> bool
    ensures { result ≡ list_all (differs_from p.now) rest.now }
{
    rest.iter().all(|q| differs_from(p, q))
}

/// Whether no two pits have one name.
fn names_differ(pits: &[Pit]) -> bool
    ensures { result ≡ names_differ pits.now }
{
    for (i, pit) in pits.iter().enumerate() {
        if !all_differ_from(pit, &pits[i + 1..]) {
            return false;
        }
    }
    true
}

fn is_number(i: usize, count: usize) -> bool
    ensures { result ≡ is_number i count }
{
    1 <= i && i <= count
}

fn roads_have_pits(pits: usize, roads: &[Access]) -> bool
    ensures { result ≡ list_all (has_pit pits) roads.now }
{
    roads.iter().all(|a| is_number(a.pit, pits))
}

/// Whether the pits' names differ and each access road has a pit.
#[tactic(auto, unfolding(crate::specs::RecordFaults::pits_hold))]
pub(super) fn pits_hold(road: &Road) -> bool
    ensures { result ≡ pits_hold road.now }
{
    names_differ(road.pits.as_slice()) && roads_have_pits(road.pits.len(), road.roads.as_slice())
}

fn roads_have_sections(sections: usize, roads: &[Access]) -> bool
    ensures { result ≡ list_all (stands_at_section sections) roads.now }
{
    roads.iter().all(|a| is_number(a.section, sections))
}

fn blocks_have_sections(sections: usize, blocks: &[Block]) -> bool
    ensures { result ≡ list_all (block_at_section sections) blocks.now }
{
    blocks.iter().all(|b| is_number(b.section, sections))
}

fn points_on_knots(knots: &[i64], points: &[Fixed]) -> bool
    ensures { result ≡ list_all (point_on_knots knots.now) points.now }
{
    points.iter().all(|f| is_on_knots(knots, f.station))
}

/// Whether access roads and blocks stand at sections, and fixed points between the first and the last knot.
#[tactic(auto, unfolding(crate::specs::RecordFaults::places_hold))]
pub(super) fn places_hold(road: &Road) -> bool
    ensures { result ≡ places_hold road.now }
{
    roads_have_sections(road.sections.len(), road.roads.as_slice())
        && blocks_have_sections(road.sections.len(), road.blocks.as_slice())
        && points_on_knots(road.knots.as_slice(), road.fixed.as_slice())
}

fn all_stand_elsewhere(b: &Block, rest: &[Block]) -> bool
    ensures { result ≡ list_all (stands_elsewhere b.now) rest.now }
{
    rest.iter().all(|c| b.section != c.section)
}

/// Whether no two blocks stand at one section.
pub(super) fn blocks_differ(blocks: &[Block]) -> bool
    ensures { result ≡ blocks_differ blocks.now }
{
    for (i, block) in blocks.iter().enumerate() {
        if !all_stand_elsewhere(block, &blocks[i + 1..]) {
            return false;
        }
    }
    true
}

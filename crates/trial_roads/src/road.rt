// The trial road of a number.
ghost use Rattle.std.specs.Prelude.{◌≡◌, ◌≤◌, ◌<◌, ◌^◌, ◌+◌, ◌-◌, IfOk, None, replicate};
ghost use Rattle.algebra.specs.Lists.{list_to};
ghost use Rattle.road_types.specs.Faults.{road_fault};
ghost use Rattle.trial_roads.specs.Draws.{state_after};
ghost use Rattle.trial_roads.specs.TrialRoads.{drawn_slab, drawn_section, state_behind, trial_section, trial_hop, trial_pits, trial_access, trial_block, road_of_size, trial_road};

use crate::draws::Draws;
use road_types::{Access, Block, Hop, Listed, Pit, PitKind, Road, Section, Slab, Text};
use std::alloc::{AllocError, Global};

/// The greatest number that has a trial road.
pub const GREATEST_NUMBER: u64 = 999_999_999;

/// The trial road of a number up to `GREATEST_NUMBER`: no rule of roads refuses it.
#[tactic(auto, using(crate::proofs::AcceptedTrials::trial_road_has_no_fault))]
pub fn trial_road(alloc: Global, number: u64) -> Result<Road, AllocError>
    requires { number ≤ 999999999 }
    ensures made { IfOk result (λ road. road ≡ trial_road number) }
    ensures accepted { road_fault (trial_road number) ≡ None }
{
    road_of_size(alloc, 8 + number as usize % 17, number)
}

#[tactic(auto, unfolding(crate::specs::TrialRoads::road_of_size))]
fn road_of_size(alloc: Global, size: usize, number: u64) -> Result<Road, AllocError>
    requires number { number ≤ 999999999 }
    requires from { 8 ≤ size }
    requires to { size ≤ 24 }
    ensures { IfOk result (λ road. road ≡ road_of_size size number) }
{
    let mut draws = Draws::of(number);
    let sections = sections(alloc, &mut draws, size, number)?;
    let block = block(&mut draws, size);
    Ok(Road {
        step: 20,
        stages: 2,
        knots: Listed::new(vec![in alloc; 0, size as i64 / 2, size as i64 - 1]?),
        low: -20_000,
        high: 20_000,
        grade: (-1200, 1200),
        curve: 200,
        sections,
        fixed: Listed::new(Vec::new(alloc)),
        pits: pits(alloc)?,
        roads: Listed::new(vec![in alloc; access(1, 1), access(2, size)]?),
        blocks: Listed::new(vec![in alloc; block]?),
        hops: hops(alloc, size - 1)?,
        nodes: 7,
        pivots: 300,
    })
}

#[tactic(auto, unfolding(crate::specs::TrialRoads::state_behind))]
fn sections(
    alloc: Global,
    draws: &mut Draws,
    size: usize,
    number: u64,
) -> Result<Listed<Section>, AllocError>
    requires first { draws.old.state ≡ number }
    requires number { number ≤ 999999999 }
    requires size { size ≤ 24 }
    ensures value { IfOk result (λ sections. sections ≡ list_to (trial_section number) size) }
    ensures state { IfOk result (λ sections. draws.new.state ≡ state_behind number size) }
    ensures kept { draws.new.state < 2 ^ 31 }
{
    let mut sections = Vec::new(alloc);
    for before in 0..size {
        sections.push(section(alloc, draws, before + 1)?)?;
    }
    Ok(Listed::new(sections))
}

/// Draws the section with this number.
fn section(alloc: Global, draws: &mut Draws, number: usize) -> Result<Section, AllocError>
    requires state { draws.old.state < 2 ^ 31 }
    requires from { 1 ≤ number }
    requires to { number ≤ 24 }
    ensures value { IfOk result (λ section. section ≡ drawn_section draws.old.state number) }
    ensures state { draws.new.state ≡ state_after draws.old.state 5 }
    ensures kept { draws.new.state < 2 ^ 31 }
{
    let ground = draws.draw(2001) as i64 - 1000;
    let cut = [slab(draws, 150), slab(draws, 250)];
    let fill = [slab(draws, 150), slab(draws, 250)];
    Ok(Section {
        station: number as i64 - 1,
        ground,
        cut: Listed::new(Vec::from_array(alloc, cut)?),
        fill: Listed::new(Vec::from_array(alloc, fill)?),
        cut_cost: 3,
        fill_cost: 2,
        cut_max: 1_000_000,
        fill_max: 1_000_000,
    })
}

/// Draws a slab of at least this area.
fn slab(draws: &mut Draws, least: u64) -> Slab
    requires state { draws.old.state < 2 ^ 31 }
    requires least { least ≤ 1000 }
    ensures value { result ≡ drawn_slab least draws.new.state }
    ensures state { draws.new.state ≡ state_after draws.old.state 1 }
    ensures kept { draws.new.state < 2 ^ 31 }
{
    Slab {
        thick: 1500,
        area: (least + draws.draw(100)) as i64,
    }
}

/// Draws the block's section.
fn block(draws: &mut Draws, size: usize) -> Block
    requires state { draws.old.state < 2 ^ 31 }
    requires from { 8 ≤ size }
    requires to { size ≤ 24 }
    ensures { result ≡ trial_block size draws.old.state }
{
    Block {
        section: 2 + draws.draw(size as u64 - 2) as usize,
        cost: 1000,
    }
}

fn pits(alloc: Global) -> Result<Listed<Pit>, AllocError>
    ensures { IfOk result (λ pits. pits ≡ trial_pits) }
{
    let mut pits = Vec::new(alloc);
    pits.push(Pit {
        name: Text::new(String::from_str(alloc, "b")?),
        kind: PitKind::Borrow,
        capacity: 8_000_000,
        cost: 5,
    })?;
    pits.push(Pit {
        name: Text::new(String::from_str(alloc, "w")?),
        kind: PitKind::Waste,
        capacity: 8_000_000,
        cost: 1,
    })?;
    Ok(Listed::new(pits))
}

/// The access road between a pit and a section.
fn access(pit: usize, section: usize) -> Access
    ensures { result ≡ trial_access pit section }
{
    Access {
        pit,
        section,
        cost: 2,
        max: 4_000_000,
    }
}

fn hops(alloc: Global, count: usize) -> Result<Listed<Hop>, AllocError>
    requires { count ≤ 24 }
    ensures { IfOk result (λ hops. hops ≡ replicate count trial_hop) }
{
    let hop = Hop {
        right_cost: 4,
        right_max: 4_000_000,
        left_cost: 4,
        left_max: 4_000_000,
    };
    let mut hops = Vec::new(alloc);
    for _hop in 0..count {
        hops.push(hop)?;
    }
    Ok(Listed::new(hops))
}

// Plans from boxes of single pieces: near an optimum that asks for a split, each section is held to the piece of its slabs in which the
// optimum's offset lies, and each block to one opening. Each optimum of such a box has exact volumes, so that it is a plan. Nothing is
// claimed of where plans are looked for: what comes back is what solving a box gives.
ghost use Rattle.std.specs.Prelude.{◌≡◌, None, OnOk, IfOk};
ghost use Rattle.road_types.specs.Faults.{road_fault};
ghost use Rattle.road_types.specs.Numbered.{IsNumber};
ghost use Rattle.road_types.specs.Road.{section_count};
ghost use Rattle.volume_lines.specs.SlabTables.{HasSlabTables};
ghost use Rattle.milp_builder.specs.Boxes.{IsBoxOf};
ghost use Rattle.branch_bound.specs.inside.Searches.{IsBest};
ghost use Rattle.branch_bound.specs.inside.Pieces.{IsImproved};

use crate::asking::height_range;
use crate::best::Best;
use crate::free_splits::{Rough, number_of};
use crate::settled::offer_near;
use crate::solving::end_of;
use crate::splines::in_grid;
use crate::splitting::inner_breakpoint;
use crate::work::{Optimum, Reason, Waiting};
use milp_builder::{BoxRange, Split, build, is_breakpoint, parts, root_box};
use road_types::{Column, Road, Section};
use simplex::LpEnd;
use std::alloc::{AllocError, Global};

/// The parts of a mm in which an offset is aimed at.
pub(crate) const PARTS: i128 = 1_048_576;

/// The greatest number of programs that one leaf's optimum gives rise to.
const MOST_PROGRAMS: usize = 7;

/// No fewer than the breakpoints of a section.
const MOST_BREAKPOINTS: usize = 16;

/// Where a plan is looked for: an opening for each block, and an offset for each section in parts of a mm.
#[derive(Drop)]
pub struct Aim {
    pub opens: Vec<usize>,
    pub offsets: Vec<i128>,
}

/// Looks for plans near the optimum of a leaf that waits. One that is cheaper is the best one then.
#[tactic(auto, using(crate::proofs::PieceLemmas::improved_same))]
pub(crate) fn look_near(
    alloc: Global,
    road: &Road,
    leaf: &Waiting,
    best: &mut Option<Best>,
) -> Result<(), AllocError>
    requires accepted { road_fault road.now ≡ None }
    requires best { IsBest road.now best.old }
    ensures { OnOk result (IsImproved road.now best.old best.new) }
{
    match &leaf.reason {
        Reason::Asked { optimum } => {
            let aim = aim_at(alloc, road, optimum)?;
            try_pieces(alloc, road, aim, best)
        }
        Reason::Stop { .. } => Ok(()),
    }
}

/// Looks for a plan at an optimum that is one, but over a denominator past those of plans. Where no more than two nodes are allowed, none
/// is looked for.
#[tactic(auto, using(crate::proofs::PieceLemmas::improved_same))]
pub(crate) fn look_at(
    alloc: Global,
    road: &Road,
    optimum: &Optimum,
    best: &mut Option<Best>,
) -> Result<(), AllocError>
    requires accepted { road_fault road.now ≡ None }
    requires best { IsBest road.now best.old }
    ensures { OnOk result (IsImproved road.now best.old best.new) }
{
    if road.nodes <= 2 {
        return Ok(());
    }
    let aim = aim_at(alloc, road, optimum)?;
    let point = Rough {
        unit: optimum.den,
        numbers: optimum.point.as_slice(),
    };
    offer_near(alloc, road, point, aim.opens.as_slice(), best)
}

/// Tries the pieces of an aim, and then of neighbours, while the cost falls.
#[tactic(auto, using(crate::proofs::PieceLemmas::improved_same))]
fn try_pieces(
    alloc: Global,
    road: &Road,
    aim: Aim,
    best: &mut Option<Best>,
) -> Result<(), AllocError>
    requires accepted { road_fault road.now ≡ None }
    requires best { IsBest road.now best.old }
    ensures { OnOk result (IsImproved road.now best.old best.new) }
{
    let mut aim = aim;
    for _turn in 0..MOST_PROGRAMS {
        match try_piece(alloc, road, &aim, best)? {
            Some(next) => aim = next,
            None => return Ok(()),
        }
    }
    Ok(())
}

/// Solves the box of an aim, and offers a plan at its optimum. Where that is cheaper and some offset stands at the end of its piece,
/// gives the aim at the pieces behind these.
#[tactic(auto, using(crate::proofs::PieceLemmas::improved_same))]
fn try_piece(
    alloc: Global,
    road: &Road,
    aim: &Aim,
    best: &mut Option<Best>,
) -> Result<Option<Aim>, AllocError>
    requires accepted { road_fault road.now ≡ None }
    requires best { IsBest road.now best.old }
    ensures { OnOk result (IsImproved road.now best.old best.new) }
{
    let range = piece_box(alloc, road, aim)?;
    let milp = build(alloc, road, &range)?;
    match end_of(alloc, road, &milp)? {
        LpEnd::Best { den, point, .. } => {
            let point = Rough {
                unit: den,
                numbers: point.as_slice(),
            };
            offer_at(alloc, road, aim, point, best)
        }
        LpEnd::Empty { .. } | LpEnd::Pivots { .. } | LpEnd::Wide { .. } => Ok(None),
    }
}

/// Offers a plan at the optimum of an aim's box. Where that is cheaper, gives the next aim, if there is one.
fn offer_at(
    alloc: Global,
    road: &Road,
    aim: &Aim,
    point: Rough<'_>,
    best: &mut Option<Best>,
) -> Result<Option<Aim>, AllocError>
    requires accepted { road_fault road.now ≡ None }
    requires best { IsBest road.now best.old }
    ensures { OnOk result (IsImproved road.now best.old best.new) }
{
    let before = cost_of(best);
    offer_near(alloc, road, point, aim.opens.as_slice(), best)?;
    if cost_of(best) == before {
        return Ok(None);
    }
    aim_behind(alloc, road, aim, point)
}

/// The cost of the best plan.
fn cost_of(best: &Option<Best>) -> Option<(i128, i128)> {
    match best {
        Some(best) => Some((best.cost.num(), best.cost.den())),
        None => None,
    }
}

/// The aim at an optimum: of each block the first stage by which it is opened at least by half, and of each section its offset.
fn aim_at(alloc: Global, road: &Road, optimum: &Optimum) -> Result<Aim, AllocError>
    requires accepted { road_fault road.now ≡ None }
{
    let rough = Rough {
        unit: optimum.den,
        numbers: optimum.point.as_slice(),
    };
    let mut opens = Vec::new(alloc);
    for before in 0..road.blocks.len() {
        opens.push(opening_near(road, rough, before + 1))?;
    }
    let mut offsets = Vec::new(alloc);
    for before in 0..road.sections.len() {
        let offset = number_of(
            road,
            rough,
            Column::Offset {
                section: before + 1,
            },
        );
        offsets.push(in_grid(offset, optimum.den, PARTS))?;
    }
    Ok(Aim { opens, offsets })
}

/// The first stage by which a block is opened at least by half; one more than the number of stages where there is none.
fn opening_near(road: &Road, rough: Rough<'_>, block: usize) -> usize
    requires accepted { road_fault road.now ≡ None }
{
    for stage in 2..road.stages.saturating_add(1) {
        let opened = number_of(road, rough, Column::Opened { block, stage });
        if opened.saturating_mul(2) >= rough.unit {
            return stage;
        }
    }
    road.stages.saturating_add(1)
}

/// The aim at the offsets of a point, each at the end of its piece moved behind it; none where no offset is. The piece is that of the aim
/// before, and so are the openings.
#[tactic(auto, using(crate::proofs::AskingLemmas::next_number))]
fn aim_behind(
    alloc: Global,
    road: &Road,
    aim: &Aim,
    point: Rough<'_>,
) -> Result<Option<Aim>, AllocError>
    requires accepted { road_fault road.now ≡ None }
{
    let mut is_moved = false;
    let mut offsets = Vec::new(alloc);
    for before in 0..road.sections.len() {
        let offset = in_grid(
            number_of(
                road,
                point,
                Column::Offset {
                    section: before + 1,
                },
            ),
            point.unit,
            PARTS,
        );
        let next = behind_at(
            road,
            number_at(aim.offsets.as_slice(), before),
            offset,
            before + 1,
        );
        is_moved = is_moved || next != offset;
        offsets.push(next)?;
    }
    if !is_moved {
        return Ok(None);
    }
    let opens: Vec<usize> = Vec::from_slice(alloc, aim.opens.as_slice())?;
    Ok(Some(Aim { opens, offsets }))
}

/// An offset of a section, or one in the next piece.
fn behind_at(road: &Road, aim: i128, offset: i128, section: usize) -> i128
    requires accepted { road_fault road.now ≡ None }
    requires section { IsNumber section (section_count road.now) }
{
    behind(road.section(section), aim, offset)
}

/// An offset, or one in the next piece, where it is a breakpoint at which the aim's piece ends.
fn behind(section: &Section, aim: i128, offset: i128) -> i128
    requires { HasSlabTables section.now }
{
    if !is_at_breakpoint(section, offset) {
        return offset;
    }
    if aim <= offset {
        offset.saturating_add(1)
    } else {
        offset.saturating_sub(1)
    }
}

/// Whether an offset in parts is a breakpoint of the section.
fn is_at_breakpoint(section: &Section, offset: i128) -> bool
    requires { HasSlabTables section.now }
{
    if offset.rem_euclid(PARTS) != 0 {
        return false;
    }
    match i64::try_from(offset.div_euclid(PARTS)) {
        Ok(at) => is_breakpoint(section, at),
        Err(_) => false,
    }
}

/// A number of a list, 0 where there is none.
fn number_at(numbers: &[i128], place: usize) -> i128 {
    if place < numbers.len() {
        numbers[place]
    } else {
        0
    }
}

/// The box of single pieces and openings nearest to an aim.
pub(crate) fn piece_box(alloc: Global, road: &Road, aim: &Aim) -> Result<BoxRange, AllocError>
    requires accepted { road_fault road.now ≡ None }
    ensures { IfOk result (λ range. IsBoxOf road.now range) }
{
    let mut range = root_box(alloc, road)?;
    match hold_all(alloc, road, aim, &mut range) {
        Ok(()) => Ok(range),
        Err(error) => {
            // Dropped by name, which is one step in the proof.
            drop(range);
            Err(error)
        }
    }
}

/// Holds each block to an opening and each section to a piece.
#[tactic(auto, using(crate::proofs::AskingLemmas::next_number))]
fn hold_all(alloc: Global, road: &Road, aim: &Aim, range: &mut BoxRange) -> Result<(), AllocError>
    requires accepted { road_fault road.now ≡ None }
    requires fits { IsBoxOf road.now range.old }
    ensures { OnOk result (IsBoxOf road.now range.new) }
{
    for before in 0..aim.opens.len() {
        let stage = aim.opens[before];
        hold(alloc, road, range, opening_split(before + 1, stage), true)?;
        hold(
            alloc,
            road,
            range,
            opening_split(before + 1, stage.saturating_sub(1)),
            false,
        )?;
    }
    for before in 0..road.sections.len() {
        hold_section(
            alloc,
            road,
            range,
            before + 1,
            number_at(aim.offsets.as_slice(), before),
        )?;
    }
    Ok(())
}

fn opening_split(block: usize, stage: usize) -> Split {
    Split::Removal { block, stage }
}

/// Holds a section to the piece in which an offset in parts lies, to the lower of two.
fn hold_section(
    alloc: Global,
    road: &Road,
    range: &mut BoxRange,
    section: usize,
    offset: i128,
) -> Result<(), AllocError>
    requires accepted { road_fault road.now ≡ None }
    requires fits { IsBoxOf road.now range.old }
    requires section { IsNumber section (section_count road.now) }
    ensures { OnOk result (IsBoxOf road.now range.new) }
{
    for _turn in 0..MOST_BREAKPOINTS {
        let Some(at) = breakpoint_in(road, range, section) else {
            return Ok(());
        };
        let is_below = offset <= i128::from(at).saturating_mul(PARTS);
        hold(alloc, road, range, Split::Height { section, at }, is_below)?;
    }
    Ok(())
}

/// A breakpoint strictly inside the range of a section.
#[tactic(auto, using(crate::proofs::FreeLemmas::tables_of_section, crate::proofs::FreeLemmas::range_number))]
fn breakpoint_in(road: &Road, range: &BoxRange, section: usize) -> Option<i64>
    requires accepted { road_fault road.now ≡ None }
    requires fits { IsBoxOf road.now range.now }
    requires section { IsNumber section (section_count road.now) }
{
    inner_breakpoint(road.section(section), height_range(range, section))
}

/// Puts a part of a box in its place, where the box has that split.
fn hold(
    alloc: Global,
    road: &Road,
    range: &mut BoxRange,
    split: Split,
    is_first: bool,
) -> Result<(), AllocError>
    requires accepted { road_fault road.now ≡ None }
    requires fits { IsBoxOf road.now range.old }
    ensures { OnOk result (IsBoxOf road.now range.new) }
{
    if let Some((first, second)) = parts(alloc, road, range, split)? {
        *range = if is_first { first } else { second };
    }
    Ok(())
}

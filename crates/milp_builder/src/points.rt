// The point of a plan: its numbers in the order of the road's columns.
ghost use Rattle.std.specs.Prelude.{◌≡◌, ◌++◌, ◌+◌, ◌-◌, [], ◌∷◌, IfOk, OnOk, None, length, map, nat_le, pos, if◌then◌else◌};
ghost use Rattle.algebra.specs.Lists.{list_to, flat_to};
ghost use Rattle.road_types.specs.Numbered.{numbered, IsNumber};
ghost use Rattle.road_types.specs.Faults.{road_fault};
ghost use Rattle.road_types.specs.WellFormed.{IsWellFormed};
ghost use Rattle.road_types.specs.Road.{section_count, segment_count, block_count};
ghost use Rattle.road_types.specs.Columns.{segment_columns, stage_columns, block_columns};
ghost use Rattle.road_types.specs.declared.column.Column.TheVariants.{Offset};
ghost use Rattle.plan_rules.specs.Plans.{piece_of, opening, IsPlanOf};
ghost use Rattle.plan_rules.specs.Fits.{Fits};
ghost use Rattle.plan_rules.specs.Rules.{IsAdmissible, IsLimited, offset_of};
ghost use Rattle.road_points.specs.PlanPoints.{value_in, point_of};
ghost use Rattle.milp_builder.specs.BoxPrograms.{PlansArePoints};

use plan_rules::{Piece, Plan, offset_of};
use road_types::{Listed, Road};
use std::alloc::{AllocError, Global};

/// The numbers of an admissible plan in the order of the road's columns, over the plan's denominator. In every box that an
/// admissible plan is inside, its point meets the rows in the bounds and costs what the plan costs.
pub fn point_of(alloc: Global, road: &Road, plan: &Plan) -> Result<Vec<i128>, AllocError>
    requires accepted { road_fault road.now ≡ None }
    requires fits { Fits road.now plan.now }
    requires admissible { IsAdmissible road.now plan.now }
    ensures value { IfOk result (λ point. point.items ≡ point_of road.now plan.now) }
    ensures plans { PlansArePoints road.now }
{
    numbers_of(alloc, road, plan)
}

fn numbers_of(alloc: Global, road: &Road, plan: &Plan) -> Result<Vec<i128>, AllocError>
    requires accepted { road_fault road.now ≡ None }
    requires well_formed { IsWellFormed road.now }
    requires fits { Fits road.now plan.now }
    requires limited { IsLimited road.now plan.now }
    ensures { IfOk result (λ point. point.items ≡ point_of road.now plan.now) }
{
    let mut point = Vec::new(alloc);
    push_segments(&mut point, road, plan)?;
    push_offsets(&mut point, road, plan)?;
    push_stages(&mut point, road, plan)?;
    push_blocks(&mut point, road, plan)?;
    Ok(point)
}

fn push_segments(point: &mut Vec<i128>, road: &Road, plan: &Plan) -> Result<(), AllocError>
    requires { IsPlanOf road.now plan.now }
    ensures { OnOk result (point.new.items
        ≡ point.old.items ++ map (value_in road.now plan.now) (flat_to segment_columns (segment_count road.now))) }
{
    for before in 0..plan.pieces.len() {
        push_piece(point, piece_of(plan, before + 1))?;
    }
    Ok(())
}

/// The height, the grade and the curve of a segment.
fn push_piece(point: &mut Vec<i128>, piece: Piece) -> Result<(), AllocError>
    ensures { OnOk result (point.new.items ≡ point.old.items ++ (piece.a ∷ piece.b ∷ piece.c ∷ [])) }
{
    point.push(piece.a)?;
    point.push(piece.b)?;
    point.push(piece.c)?;
    Ok(())
}

fn push_offsets(point: &mut Vec<i128>, road: &Road, plan: &Plan) -> Result<(), AllocError>
    requires accepted { road_fault road.now ≡ None }
    requires fits { Fits road.now plan.now }
    requires limited { IsLimited road.now plan.now }
    ensures { OnOk result (point.new.items
        ≡ point.old.items ++ map (value_in road.now plan.now) (list_to (λ i. Offset i) (section_count road.now))) }
{
    for before in 0..road.sections.len() {
        point.push(offset_of(road, plan, before + 1))?;
    }
    Ok(())
}

fn push_stages(point: &mut Vec<i128>, road: &Road, plan: &Plan) -> Result<(), AllocError>
    requires well_formed { IsWellFormed road.now }
    requires plan { IsPlanOf road.now plan.now }
    ensures { OnOk result (point.new.items
        ≡ point.old.items ++ map (value_in road.now plan.now) (flat_to (stage_columns road.now) road.now.stages)) }
{
    for before in 0..road.stages {
        push_stage(point, road, plan, before + 1)?;
    }
    Ok(())
}

/// What is moved in a stage: cut and fill of all sections, hauls to the right and to the left, access roads.
fn push_stage(
    point: &mut Vec<i128>,
    road: &Road,
    plan: &Plan,
    stage: usize,
) -> Result<(), AllocError>
    requires well_formed { IsWellFormed road.now }
    requires plan { IsPlanOf road.now plan.now }
    requires stage { IsNumber stage road.now.stages }
    ensures { OnOk result (point.new.items
        ≡ point.old.items ++ map (value_in road.now plan.now) (stage_columns road.now stage)) }
{
    push_row(point, &plan.cut, stage)?;
    push_row(point, &plan.fill, stage)?;
    push_row(point, &plan.right, stage)?;
    push_row(point, &plan.left, stage)?;
    push_row(point, &plan.roads, stage)?;
    Ok(())
}

fn push_row(
    point: &mut Vec<i128>,
    stages: &Listed<Listed<i128>>,
    stage: usize,
) -> Result<(), AllocError>
    requires { IsNumber stage (length stages.now) }
    ensures { OnOk result (point.new.items ≡ point.old.items ++ numbered [] stages.now stage) }
{
    point.extend_from_slice(stages.as_slice()[stage - 1].as_slice())?;
    Ok(())
}

fn push_blocks(point: &mut Vec<i128>, road: &Road, plan: &Plan) -> Result<(), AllocError>
    requires well_formed { IsWellFormed road.now }
    requires plan { IsPlanOf road.now plan.now }
    ensures { OnOk result (point.new.items
        ≡ point.old.items ++ map (value_in road.now plan.now) (flat_to (block_columns road.now) (block_count road.now))) }
{
    for before in 0..plan.opens.len() {
        push_block(point, road, plan, before + 1)?;
    }
    Ok(())
}

/// For each stage from 2 on the denominator where the block's opening isn't later, and else 0.
fn push_block(
    point: &mut Vec<i128>,
    road: &Road,
    plan: &Plan,
    block: usize,
) -> Result<(), AllocError>
    requires well_formed { IsWellFormed road.now }
    requires block { IsNumber block (length plan.now.opens) }
    ensures { OnOk result (point.new.items
        ≡ point.old.items ++ map (value_in road.now plan.now) (block_columns road.now block)) }
{
    for before in 1..road.stages {
        point.push(opened_value(plan, block, before + 1))?;
    }
    Ok(())
}

fn opened_value(plan: &Plan, block: usize, stage: usize) -> i128
    requires { IsNumber block (length plan.now.opens) }
    ensures { result ≡ (if nat_le (opening plan.now block) stage then plan.now.den else pos 0) }
{
    if opening_of(plan, block) <= stage {
        plan.den
    } else {
        0
    }
}

fn piece_of(plan: &Plan, segment: usize) -> Piece
    requires { IsNumber segment (length plan.now.pieces) }
    ensures { result ≡ piece_of plan.now segment }
{
    plan.pieces.as_slice()[segment - 1]
}

/// The opening stage of a block.
fn opening_of(plan: &Plan, block: usize) -> usize
    requires { IsNumber block (length plan.now.opens) }
    ensures { result ≡ opening plan.now block }
{
    usize::from(plan.opens.as_slice()[block - 1])
}

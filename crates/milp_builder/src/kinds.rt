// The kinds of column that a road has, in the order of their numbers.
ghost use Rattle.std.specs.Prelude.{◌≡◌, ◌++◌, IfOk, OnOk};
ghost use Rattle.algebra.specs.Lists.{list_to, flat_to};
ghost use Rattle.road_types.specs.WellFormed.{IsWellFormed};
ghost use Rattle.road_types.specs.Road.{section_count, segment_count, block_count};
ghost use Rattle.road_types.specs.Columns.{columns_of, segment_columns, stage_columns, block_columns};
ghost use Rattle.road_types.specs.declared.column.Column.TheVariants.{Offset};
ghost use Rattle.milp_builder.specs.inside.Amounts.{column_in};

use crate::amounts::{Amount, column_in};
use road_types::{Column, Road};
use std::alloc::{AllocError, Global};

/// All kinds of column of the road.
pub fn columns_of(alloc: Global, road: &Road) -> Result<Vec<Column>, AllocError>
    requires { IsWellFormed road.now }
    ensures { IfOk result (λ kinds. kinds.items ≡ columns_of road.now) }
{
    let mut kinds = Vec::new(alloc);
    push_segments(&mut kinds, road)?;
    push_offsets(&mut kinds, road)?;
    push_stages(&mut kinds, road)?;
    push_blocks(&mut kinds, road)?;
    Ok(kinds)
}

fn push_segments(kinds: &mut Vec<Column>, road: &Road) -> Result<(), AllocError>
    requires { IsWellFormed road.now }
    ensures { OnOk result (kinds.new.items ≡ kinds.old.items ++ flat_to segment_columns (segment_count road.now)) }
{
    for before in 0..road.knots.len() - 1 {
        push_segment(kinds, before + 1)?;
    }
    Ok(())
}

fn push_segment(kinds: &mut Vec<Column>, segment: usize) -> Result<(), AllocError>
    ensures { OnOk result (kinds.new.items ≡ kinds.old.items ++ segment_columns segment) }
{
    kinds.push(Column::A { segment })?;
    kinds.push(Column::B { segment })?;
    kinds.push(Column::C { segment })?;
    Ok(())
}

fn push_offsets(kinds: &mut Vec<Column>, road: &Road) -> Result<(), AllocError>
    ensures { OnOk result (kinds.new.items ≡ kinds.old.items ++ list_to (λ i. Offset i) (section_count road.now)) }
{
    for before in 0..road.sections.len() {
        kinds.push(Column::Offset {
            section: before + 1,
        })?;
    }
    Ok(())
}

fn push_stages(kinds: &mut Vec<Column>, road: &Road) -> Result<(), AllocError>
    requires { IsWellFormed road.now }
    ensures { OnOk result (kinds.new.items ≡ kinds.old.items ++ flat_to (stage_columns road.now) road.now.stages) }
{
    for before in 0..road.stages {
        push_stage(kinds, road, before + 1)?;
    }
    Ok(())
}

/// What is moved in a stage: cut and fill of all sections, hauls to the right and to the left, access roads.
fn push_stage(kinds: &mut Vec<Column>, road: &Road, stage: usize) -> Result<(), AllocError>
    ensures { OnOk result (kinds.new.items ≡ kinds.old.items ++ stage_columns road.now stage) }
{
    push_amounts(kinds, Amount::Cut, stage, road.sections.len())?;
    push_amounts(kinds, Amount::Fill, stage, road.sections.len())?;
    push_amounts(kinds, Amount::Right, stage, road.hops.len())?;
    push_amounts(kinds, Amount::Left, stage, road.hops.len())?;
    push_amounts(kinds, Amount::Access, stage, road.roads.len())?;
    Ok(())
}

fn push_amounts(
    kinds: &mut Vec<Column>,
    amount: Amount,
    stage: usize,
    entries: usize,
) -> Result<(), AllocError>
    ensures { OnOk result (kinds.new.items ≡ kinds.old.items ++ list_to (λ i. column_in amount i stage) entries) }
{
    for before in 0..entries {
        kinds.push(column_in(amount, before + 1, stage))?;
    }
    Ok(())
}

fn push_blocks(kinds: &mut Vec<Column>, road: &Road) -> Result<(), AllocError>
    requires { IsWellFormed road.now }
    ensures { OnOk result (kinds.new.items ≡ kinds.old.items ++ flat_to (block_columns road.now) (block_count road.now)) }
{
    for before in 0..road.blocks.len() {
        push_block(kinds, road, before + 1)?;
    }
    Ok(())
}

/// A block's columns, for each stage from 2 on.
fn push_block(kinds: &mut Vec<Column>, road: &Road, block: usize) -> Result<(), AllocError>
    requires { IsWellFormed road.now }
    ensures { OnOk result (kinds.new.items ≡ kinds.old.items ++ block_columns road.now block) }
{
    for before in 1..road.stages {
        kinds.push(Column::Opened {
            block,
            stage: before + 1,
        })?;
    }
    Ok(())
}

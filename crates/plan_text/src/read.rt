ghost use Rattle.std.specs.Prelude.{◌-◌, OnOk};
ghost use Rattle.text_parts.specs.Lines.{IsOfSource};
ghost use Rattle.plan_text.specs.LineForms.{short_numbers};
ghost use Rattle.plan_text.specs.inside.LineReading.{Gives, Leaves, numbers_due, repeat_due};
ghost use Rattle.plan_text.specs.inside.PlanReading.{plan_of_text, GivesPlan};
ghost use Rattle.plan_text.specs.inside.PlanReading.{den_due, piece_due, stage_due, tables_due, opens_due, plan_due};
ghost use Rattle.plan_text.specs.inside.PlanReading.{last_row, last_stage, HasOneMore};

use crate::error::TextErr;
use crate::form::Form;
use crate::rows::{Rows, Tables};
use plan_rules::{Piece, Plan};
use road_types::{Listed, Road};
use std::alloc::Global;
use text_parts::Lines;

/// Reads one plan text of the road from the front of the lines and leaves the rest.
#[tactic(auto, unfolding(crate::specs::inside::PlanReading::plan_due))]
pub(crate) fn plan(alloc: Global, road: &Road, lines: &mut Lines) -> Result<Plan, TextErr>
    ensures due { Gives (plan_due road.now lines.old) result lines.new }
    ensures of_source { IsOfSource lines.old }
{
    let den = denominator(alloc, lines)?;
    let pieces = pieces(alloc, road.knots.len().saturating_sub(1), lines)?;
    let tables = match tables(alloc, road, lines) {
        Ok(tables) => tables,
        Err(error) => {
            drop(pieces);
            return Err(error);
        }
    };
    let opens = match openings(alloc, road.blocks.len(), lines) {
        Ok(opens) => opens,
        Err(error) => {
            drop(pieces);
            drop(tables);
            return Err(error);
        }
    };
    match Form::short_numbers(b"end", 0).read(alloc, lines) {
        Ok(nothing) => drop(nothing),
        Err(error) => {
            drop(pieces);
            drop(tables);
            drop(opens);
            return Err(error);
        }
    }
    Ok(Plan {
        den,
        pieces,
        cut: tables.cut,
        fill: tables.fill,
        right: tables.right,
        left: tables.left,
        roads: tables.roads,
        opens,
    })
}

/// Reads the plan whose text the bytes are, to their last byte.
#[tactic(auto, unfolding(crate::specs::inside::PlanReading::plan_of_text))]
pub(crate) fn whole_plan(alloc: Global, road: &Road, bytes: &[u8]) -> Result<Plan, TextErr>
    ensures { GivesPlan (plan_of_text road.now bytes.now) result }
{
    let mut lines = Lines::over(bytes);
    let plan = plan(alloc, road, &mut lines)?;
    if lines.next().is_some() {
        drop(plan);
        return Err(TextErr::Bad {
            line: lines.number(),
        });
    }
    Ok(plan)
}

#[tactic(auto, unfolding(crate::specs::inside::PlanReading::den_due))]
fn denominator(alloc: Global, lines: &mut Lines) -> Result<i128, TextErr>
    ensures due { Gives (den_due lines.old) result lines.new }
    ensures of_source { IsOfSource lines.old }
{
    let numbers = Form::denominator().read(alloc, lines)?;
    let den = numbers.as_slice()[0];
    drop(numbers);
    Ok(den)
}

#[tactic(auto, unfolding(crate::specs::inside::PlanReading::piece_due))]
fn piece(alloc: Global, lines: &mut Lines) -> Result<Piece, TextErr>
    ensures { Gives (piece_due lines.old) result lines.new }
{
    let numbers = Form::short_numbers(b"piece", 3).read(alloc, lines)?;
    let heights = numbers.as_slice();
    let piece = Piece {
        a: heights[0],
        b: heights[1],
        c: heights[2],
    };
    drop(numbers);
    Ok(piece)
}

fn pieces(alloc: Global, count: usize, lines: &mut Lines) -> Result<Listed<Piece>, TextErr>
    ensures { Gives (repeat_due count piece_due lines.old) result lines.new }
{
    let mut pieces = Vec::new(alloc);
    for _turn in 0..count {
        pieces.push(piece(alloc, lines)?)?;
    }
    Ok(Listed::new(pieces))
}

/// Reads a row of so many numbers behind a keyword, and puts it at the end of a table.
fn row(
    alloc: Global,
    keyword: &[u8],
    count: usize,
    table: &mut Vec<Listed<i128>>,
    lines: &mut Lines,
) -> Result<(), TextErr>
    ensures due { Leaves (numbers_due (short_numbers keyword.now count) lines.old) result (last_row table.new.items) lines.new }
    ensures more { OnOk result (HasOneMore table.old.items table.new.items) }
{
    let row = Form::short_numbers(keyword, count).read(alloc, lines)?;
    table.push(row)?;
    Ok(())
}

/// Reads the five rows of a stage, each to the end of its table.
#[tactic(auto, unfolding(crate::specs::inside::PlanReading::stage_due))]
fn stage(alloc: Global, road: &Road, rows: &mut Rows, lines: &mut Lines) -> Result<(), TextErr>
    ensures due { Leaves (stage_due road.now lines.old) result (last_stage rows.new) lines.new }
    ensures cut { OnOk result (HasOneMore rows.old.cut.items rows.new.cut.items) }
    ensures fill { OnOk result (HasOneMore rows.old.fill.items rows.new.fill.items) }
    ensures right { OnOk result (HasOneMore rows.old.right.items rows.new.right.items) }
    ensures left { OnOk result (HasOneMore rows.old.left.items rows.new.left.items) }
    ensures roads { OnOk result (HasOneMore rows.old.roads.items rows.new.roads.items) }
{
    let sections = road.sections.len();
    let hops = sections.saturating_sub(1);
    row(alloc, b"cut", sections, &mut rows.cut, lines)?;
    row(alloc, b"fill", sections, &mut rows.fill, lines)?;
    row(alloc, b"right", hops, &mut rows.right, lines)?;
    row(alloc, b"left", hops, &mut rows.left, lines)?;
    row(alloc, b"roads", road.roads.len(), &mut rows.roads, lines)
}

/// Reads the five tables of amounts, stage by stage.
fn tables(alloc: Global, road: &Road, lines: &mut Lines) -> Result<Tables, TextErr>
    ensures { Gives (tables_due road.now lines.old) result lines.new }
{
    let mut rows = Rows {
        cut: Vec::new(alloc),
        fill: Vec::new(alloc),
        right: Vec::new(alloc),
        left: Vec::new(alloc),
        roads: Vec::new(alloc),
    };
    for _turn in 0..road.stages {
        match stage(alloc, road, &mut rows, lines) {
            Ok(()) => (),
            Err(error) => {
                drop(rows);
                return Err(error);
            }
        }
    }
    Ok(Tables {
        cut: Listed::new(rows.cut),
        fill: Listed::new(rows.fill),
        right: Listed::new(rows.right),
        left: Listed::new(rows.left),
        roads: Listed::new(rows.roads),
    })
}

#[tactic(auto, unfolding(crate::specs::inside::PlanReading::opens_due))]
fn openings(alloc: Global, blocks: usize, lines: &mut Lines) -> Result<Listed<u8>, TextErr>
    ensures { Gives (opens_due blocks lines.old) result lines.new }
{
    let numbers = Form::openings(blocks).read(alloc, lines)?;
    let mut opens = Vec::new(alloc);
    for number in numbers.as_slice() {
        opens.push(*number as u8)?;
    }
    Ok(Listed::new(opens))
}

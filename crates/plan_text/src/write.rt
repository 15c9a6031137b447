ghost use Rattle.std.specs.Prelude.{◌≡◌, ◌<◌, ◌++◌, [], length, map, pos, suc, codes, IfOk, OnOk, OnErr};
ghost use Rattle.std.specs.List.{flat_map};
ghost use Rattle.road_types.specs.Numbered.{numbered};
ghost use Rattle.plan_rules.specs.Fits.{Fits};
ghost use Rattle.plan_text.specs.LineForms.{spelled_line};
ghost use Rattle.plan_text.specs.PlanText.{plan_text, piece_text, stages_text, tables_of, AreBytes, HasText, AreApart};

use plan_rules::{Piece, Plan};
use road_types::{Listed, Road};
use std::alloc::{AllocError, Global};

/// Appends the text of the plan, which `read_plan` takes in again whatever follows it; after want of memory `out` is as before.
pub fn write_plan(
    alloc: Global,
    road: &Road,
    plan: &Plan,
    out: &mut Vec<u8>,
) -> Result<(), AllocError>
    requires { Fits road.now plan.now }
    ensures ok { OnOk result (out.new.items ≡ out.old.items ++ plan_text road.now plan.now) }
    ensures err { OnErr result (out.new.items ≡ out.old.items) }
    ensures has_text { HasText road.now plan.now }
    ensures apart { AreApart road.now }
{
    let text = text_of(alloc, road, plan, plan.opens.as_slice())?;
    out.extend_from_slice(text.as_slice())
}

/// The text of the plan, whose openings are these.
fn text_of(alloc: Global, road: &Road, plan: &Plan, opens: &[u8]) -> Result<Vec<u8>, AllocError>
    requires fits { Fits road.now plan.now }
    requires opens { opens.now ≡ plan.now.opens }
    ensures text { IfOk result (λ text. text.items ≡ plan_text road.now plan.now) }
    ensures bytes { AreBytes plan.now.opens }
{
    let mut text = Vec::new(alloc);
    push_line(alloc, b"plan", &[plan.den], &mut text)?;
    push_pieces(alloc, plan.pieces.as_slice(), &mut text)?;
    push_stages(alloc, road, plan, &mut text)?;
    push_openings(alloc, opens, &mut text)?;
    push_line(alloc, b"end", &[], &mut text)?;
    Ok(text)
}

/// A keyword and its numbers, each behind one space, on a line.
fn push_line(
    alloc: Global,
    keyword: &[u8],
    numbers: &[i128],
    text: &mut Vec<u8>,
) -> Result<(), AllocError>
    ensures { OnOk result (text.new.items ≡ text.old.items ++ spelled_line keyword.now numbers.now) }
{
    text.extend_from_slice(keyword)?;
    for number in numbers {
        let digits = format!(in alloc; "{number}")?;
        text.push(b' ')?;
        text.extend_from_slice(digits.as_bytes())?;
    }
    text.push(b'\n')?;
    Ok(())
}

/// A line for each segment.
fn push_pieces(alloc: Global, pieces: &[Piece], text: &mut Vec<u8>) -> Result<(), AllocError>
    ensures { OnOk result (text.new.items ≡ text.old.items ++ flat_map piece_text pieces.now) }
{
    for piece in pieces {
        push_piece(alloc, piece, text)?;
    }
    Ok(())
}

fn push_piece(alloc: Global, piece: &Piece, text: &mut Vec<u8>) -> Result<(), AllocError>
    ensures { OnOk result (text.new.items ≡ text.old.items ++ piece_text piece.now) }
{
    push_line(alloc, b"piece", &[piece.a, piece.b, piece.c], text)
}

/// Five lines for each stage.
fn push_stages(
    alloc: Global,
    road: &Road,
    plan: &Plan,
    text: &mut Vec<u8>,
) -> Result<(), AllocError>
    requires { Fits road.now plan.now }
    ensures { OnOk result (text.new.items ≡ text.old.items ++ stages_text (tables_of plan.now) 1 road.now.stages) }
{
    for t in 0..road.stages {
        push_row(alloc, b"cut", &plan.cut, t, text)?;
        push_row(alloc, b"fill", &plan.fill, t, text)?;
        push_row(alloc, b"right", &plan.right, t, text)?;
        push_row(alloc, b"left", &plan.left, t, text)?;
        push_row(alloc, b"roads", &plan.roads, t, text)?;
    }
    Ok(())
}

/// The row of a table that stands at this place, counted from 0, on a line.
fn push_row(
    alloc: Global,
    keyword: &[u8],
    table: &Listed<Listed<i128>>,
    t: usize,
    text: &mut Vec<u8>,
) -> Result<(), AllocError>
    requires { t < length table.now }
    ensures { OnOk result (text.new.items ≡ text.old.items ++ spelled_line keyword.now (numbered [] table.now (suc t))) }
{
    push_line(alloc, keyword, table.as_slice()[t].as_slice(), text)
}

/// The openings on a line.
fn push_openings(alloc: Global, opens: &[u8], text: &mut Vec<u8>) -> Result<(), AllocError>
    ensures { OnOk result (text.new.items ≡ text.old.items ++ spelled_line (codes "open") (map pos opens.now)) }
{
    let stages = widened(alloc, opens)?;
    push_line(alloc, b"open", stages.as_slice(), text)
}

fn widened(alloc: Global, opens: &[u8]) -> Result<Vec<i128>, AllocError>
    ensures { IfOk result (λ numbers. numbers.items ≡ map pos opens.now) }
{
    opens.iter().map(|stage| i128::from(*stage)).collect(alloc)
}

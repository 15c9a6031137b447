// The lines of nodes, one after another.
ghost use Rattle.std.specs.Prelude.{◌≡◌, ◌≤◌, vec_capacity, IfSome, IfOk, Result};
ghost use Rattle.text_parts.specs.Lines.{IsOfSource};
ghost use Rattle.cert_text.specs.NodeText.{Root};
ghost use Rattle.cert_text.specs.WordForms.{head_form, mult_form, line_value};
ghost use Rattle.cert_text.specs.inside.NodeReading.{HasCountWithin, line_due, mults_due, root_due, no_form, GivesOrLine, FillsOrLine};
ghost use Rattle.cert_text.specs.inside.StepReading.{ReadsNode};

use crate::forms::{head, mult};
use crate::head::Head;
use crate::step::Step;
use text_parts::{Line, Lines};

/// Reads the next line, which is to be a node's first.
#[tactic(auto, unfolding(crate::specs::inside::NodeReading::line_due))]
fn next_head(rows: usize, lines: &mut Lines) -> Result<Head, usize>
    ensures due { GivesOrLine (line_due (head_form rows) lines.old) result lines.new }
    ensures count { IfOk result (HasCountWithin rows) }
    ensures of_source { IsOfSource lines.old }
{
    let Some(line) = lines.next() else {
        return Err(lines.number() + 1);
    };
    match head_of(rows, &line) {
        Some(head) => Ok(head),
        None => Err(lines.number()),
    }
}

#[tactic(auto, unfolding(crate::specs::WordForms::line_value))]
fn head_of(rows: usize, line: &Line) -> Option<Head>
    ensures value { result ≡ line_value (head_form rows) line.now }
    ensures count { IfSome result (HasCountWithin rows) }
{
    if line.ended() {
        head(rows, line.words())
    } else {
        None
    }
}

/// Reads the next line, which is to be that of a multiplier of a row behind another.
#[tactic(auto, unfolding(crate::specs::inside::NodeReading::line_due))]
fn next_mult(rows: usize, before: usize, lines: &mut Lines) -> Result<(u32, i128), usize>
    requires rows { rows ≤ 600 }
    requires before { before ≤ rows }
    ensures due { GivesOrLine (line_due (mult_form rows before) lines.old) result lines.new }
    ensures within { IfOk result (λ mult. mult.0 ≤ rows) }
{
    let Some(line) = lines.next() else {
        return Err(lines.number() + 1);
    };
    match mult_of(rows, before, &line) {
        Some(mult) => Ok(mult),
        None => Err(lines.number()),
    }
}

#[tactic(auto, unfolding(crate::specs::WordForms::line_value))]
fn mult_of(rows: usize, before: usize, line: &Line) -> Option<(u32, i128)>
    requires rows { rows ≤ 600 }
    requires before { before ≤ rows }
    ensures value { result ≡ line_value (mult_form rows before) line.now }
    ensures within { IfSome result (λ mult. mult.0 ≤ rows) }
{
    if line.ended() {
        mult(rows, before, line.words())
    } else {
        None
    }
}

/// Refuses the next line.
#[tactic(auto, unfolding(crate::specs::inside::NodeReading::line_due, crate::specs::WordForms::line_value))]
pub(crate) fn refused_line(lines: &mut Lines) -> usize
    ensures due { GivesOrLine (line_due (no_form {A = Root}) lines.old) (Err result) lines.new }
    ensures of_source { IsOfSource lines.old }
{
    match lines.next() {
        Some(_line) => lines.number(),
        None => lines.number() + 1,
    }
}

/// Reads so many multipliers.
fn read_mults(
    rows: usize,
    count: usize,
    lines: &mut Lines,
    mults: &mut Vec<(u32, i128)>,
) -> Result<(), usize>
    requires rows { rows ≤ 600 }
    requires count { count ≤ rows }
    requires room { rows ≤ vec_capacity mults.old }
    ensures due { FillsOrLine (mults_due rows 0 count lines.old) result mults.new.items lines.new }
    ensures room { vec_capacity mults.new ≡ vec_capacity mults.old }
{
    mults.clear();
    let mut before = 0;
    for _turn in 0..count {
        let mult = next_mult(rows, before, lines)?;
        before = mult.0 as usize;
        mults.push_reserved(mult);
    }
    Ok(())
}

/// Reads a node alone, a leaf's multipliers into the buffer.
#[tactic(auto, unfolding(crate::specs::inside::NodeReading::root_due))]
pub(crate) fn read_root(
    rows: usize,
    lines: &mut Lines,
    mults: &mut Vec<(u32, i128)>,
) -> Result<Step, usize>
    requires rows { rows ≤ 600 }
    requires room { rows ≤ vec_capacity mults.old }
    ensures due { ReadsNode (root_due rows lines.old) result lines.new mults.old.items mults.new.items }
    ensures room { vec_capacity mults.new ≡ vec_capacity mults.old }
    ensures of_source { IsOfSource lines.old }
{
    match next_head(rows, lines)? {
        Head::Low {
            scale,
            cause,
            count,
        } => {
            read_mults(rows, count, lines, mults)?;
            Ok(Step::Low { scale, cause })
        }
        Head::Dead { count } => {
            read_mults(rows, count, lines, mults)?;
            Ok(Step::Dead)
        }
        Head::Parted { split } => Ok(Step::Split { split }),
    }
}

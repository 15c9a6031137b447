// Plan texts read and written again, and what is measured on a plan.
ghost use Rattle.std.specs.Prelude.{◌≡◌, None};
ghost use Rattle.road_types.specs.Faults.{road_fault};
ghost use Rattle.road_types.specs.Numbered.{IsNumber};
ghost use Rattle.road_types.specs.Road.{section_count};
ghost use Rattle.plan_rules.specs.Fits.{Fits};
ghost use Rattle.plan_rules.specs.Rules.{IsLimited};

use crate::roads::{file, road};
use crate::shown;
use crate::writing::Answer;
use plan_rules::{Plan, Rule, Verdict, height_at, judge, offset_of};
use plan_text::{TextErr, read_plan, read_whole_plan, write_plan};
use road_types::{Road, table_volume};
use std::alloc::Global;
use text_parts::Lines;

/// What is asked of the text of a file, on the road of another:
///
/// - `plan`: the text that is written of its plan behind the bytes `before:`, after its denominator, the numbers of its pieces and
///   stages, and its opening stages;
/// - `behind`: its first line, the denominator of the plan behind that, the number of lines that were given once the plan was read,
///   and the line behind the plan;
/// - `heights`: height, offset and volume of a cut of 10 mm at each section, of a plan that breaks the second rule first.
pub(crate) fn asked(rt: &HostRuntime, out: &mut Answer, what: &str, names: &str) {
    let (road_name, text_name) = names.split_once(' ').unwrap_or((names, ""));
    match road(rt, road_name) {
        Some(road) => {
            let text = file(rt, text_name);
            asked_on(rt.alloc(), out, what, &road, text.as_slice());
            drop(text);
            drop(road);
        }
        None => out.put("no road"),
    }
}

/// What is asked of this text, on a road.
fn asked_on(alloc: Global, out: &mut Answer, what: &str, road: &Road, text: &[u8]) {
    match what {
        "plan" => rewritten(alloc, out, road, text),
        "behind" => behind(alloc, out, road, text),
        _ => heights(alloc, out, road, text),
    }
}

/// The text that is written of the plan of a text.
fn rewritten(alloc: Global, out: &mut Answer, road: &Road, text: &[u8]) {
    match read_whole_plan(alloc, road, text) {
        Ok(plan) => {
            written(alloc, out, road, &plan);
            drop(plan);
        }
        Err(error) => refused(out, &error),
    }
}

/// The line at which a text isn't that of a plan.
fn refused(out: &mut Answer, error: &TextErr) {
    match error {
        TextErr::Bad { line } => out.put(format_args!("line {line}")),
        TextErr::NoMemory => out.fail(),
    }
}

/// What is told of a plan, and its text behind `before:`.
fn written(alloc: Global, out: &mut Answer, road: &Road, plan: &Plan)
    requires { Fits road.now plan.now }
{
    let (den, pieces, stages, opens) = (
        plan.den,
        plan.pieces.len(),
        plan.cut.len(),
        plan.opens.as_slice(),
    );
    out.put(format_args!("{den} {pieces} {stages} {opens:?} "));
    match b"before:".to_vec(alloc) {
        Ok(mut bytes) => {
            out.note(write_plan(alloc, road, plan, &mut bytes));
            shown::bytes(out, Some(bytes.as_slice()));
        }
        Err(_) => out.fail(),
    }
}

/// What stands before and behind the plan in a text.
fn behind(alloc: Global, out: &mut Answer, road: &Road, text: &[u8]) {
    let mut lines = Lines::over(text);
    let first = lines.next().map(|line| line.bytes());
    match read_plan(alloc, road, &mut lines) {
        Ok(plan) => {
            let den = plan.den;
            drop(plan);
            behind_plan(out, first, den, &mut lines);
        }
        Err(error) => refused(out, &error),
    }
}

/// The first line, the denominator of a plan, the number of lines that were given, and the next one.
fn behind_plan(out: &mut Answer, first: Option<&[u8]>, den: i128, lines: &mut Lines) {
    let number = lines.number();
    shown::bytes(out, first);
    out.put(format_args!(" {den} {number} "));
    shown::bytes(out, lines.next().map(|line| line.bytes()));
}

/// What is measured on the plan of a text.
fn heights(alloc: Global, out: &mut Answer, road: &Road, text: &[u8]) {
    match read_whole_plan(alloc, road, text) {
        Ok(plan) => {
            all_measures(out, road, &plan);
            drop(plan);
        }
        Err(_) => out.put("no plan"),
    }
}

fn all_measures(out: &mut Answer, road: &Road, plan: &Plan) {
    for i in 0..road.sections.len() {
        measures_shown(out, measures_at(road, plan, i.saturating_add(1)));
    }
}

fn measures_shown(out: &mut Answer, measures: Option<(i128, i128, i128)>) {
    match measures {
        Some((height, offset, volume)) => {
            out.put(format_args!("{height} {offset} {volume}, "));
        }
        None => out.put("none, "),
    }
}

/// Height, offset and volume at the section with this number, from 1.
fn measures_at(road: &Road, plan: &Plan, number: usize) -> Option<(i128, i128, i128)> {
    if let Some(_) = road.check() {
        return None;
    }
    if !plan.fits(road) {
        return None;
    }
    if number == 0 || number > road.sections.len() {
        return None;
    }
    if let Verdict::Broken { rule: Rule::P2, .. } = judge(road, plan) {
        return Some(measures(road, plan, number));
    }
    None
}

/// The same, where the road is accepted, the plan fits, and the heights and grades are in range.
fn measures(road: &Road, plan: &Plan, number: usize) -> (i128, i128, i128)
    requires accepted { road_fault road.now ≡ None }
    requires fits { Fits road.now plan.now }
    requires limited { IsLimited road.now plan.now }
    requires number { IsNumber number (section_count road.now) }
{
    let section = road.section(number);
    let height = height_at(road, plan, section.station);
    let volume = table_volume(section.cut.as_slice(), 20, 2);
    (height, offset_of(road, plan, number), volume)
}

// What stands before and behind the tree of a certificate.
ghost use Rattle.std.specs.Prelude.{◌≡◌, drop, codes};
ghost use Rattle.std.specs.Option.{is_some};
ghost use Rattle.text_parts.specs.Lines.{lines_of};
ghost use Rattle.plan_text.specs.inside.LineReading.{Gives};
ghost use Rattle.plan_text.specs.inside.PlanReading.{start_of};
ghost use Rattle.cert_text.specs.inside.NodeReading.{line_due};
ghost use Rattle.cert_text.specs.WordForms.{line_value, is_next};
ghost use Rattle.cert_text.specs.inside.CertReading.{priced_due, planned_due, heading_due};
ghost use Rattle.cert_text.specs.StatedForms.{keyword_form, cost_form, bound_form, bound_of, fraction_behind};

use crate::fractions::fraction;
use crate::words::{one_word, two_words};
use numbers::Frac;
use plan_rules::Plan;
use plan_text::{TextErr, read_plan};
use road_types::Road;
use std::alloc::Global;
use text_parts::{Line, Lines, Words};

/// A plan and its stated cost.
#[derive(Drop)]
pub struct PricedPlan {
    pub plan: Plan,
    pub cost: Frac,
}

/// What stands before the tree of a certificate: the plan with its cost and the bound, where they are stated.
#[derive(Drop)]
pub struct Heading {
    pub planned: Option<PricedPlan>,
    pub bound: Option<Frac>,
}

/// Reads what stands before the tree in these bytes, of which no line was taken yet.
#[tactic(auto, unfolding(crate::specs::inside::CertReading::heading_due), using(crate::proofs::CertLemmas::second_line))]
pub fn read_heading(
    alloc: Global,
    road: &Road,
    bytes: &[u8],
    lines: &mut Lines,
) -> Result<Heading, TextErr>
    requires { lines.old ≡ start_of bytes.now }
    ensures { Gives (heading_due road.now lines.old) result lines.new }
{
    next_keyword(b"certificate", lines)?;
    let planned = planned(alloc, road, is_unplanned(bytes), lines)?;
    match next_bound(lines) {
        Ok(bound) => Ok(Heading { planned, bound }),
        Err(error) => {
            drop(planned);
            Err(error)
        }
    }
}

/// Reads the last line.
pub fn read_end(lines: &mut Lines) -> Result<(), TextErr>
    ensures { Gives (line_due (keyword_form (codes "end")) lines.old) result lines.new }
{
    next_keyword(b"end", lines)
}

/// Reads a plan with its cost, or that there is none.
#[tactic(auto, unfolding(crate::specs::inside::CertReading::planned_due))]
fn planned(
    alloc: Global,
    road: &Road,
    unplanned: bool,
    lines: &mut Lines,
) -> Result<Option<PricedPlan>, TextErr>
    requires { unplanned ≡ is_next (keyword_form (codes "unplanned")) lines.old.left }
    ensures { Gives (planned_due road.now lines.old) result lines.new }
{
    if unplanned {
        next_keyword(b"unplanned", lines)?;
        Ok(None)
    } else {
        let priced = priced(alloc, road, lines)?;
        Ok(Some(priced))
    }
}

/// Whether the second line of the bytes says that there is no plan.
fn is_unplanned(bytes: &[u8]) -> bool
    ensures { result ≡ is_next (keyword_form (codes "unplanned")) (drop 1 (lines_of 0 bytes.now)) }
{
    let mut lines = Lines::over(bytes);
    if lines.next().is_none() {
        return false;
    }
    match lines.next() {
        Some(line) => is_alone(b"unplanned", &line),
        None => false,
    }
}

#[tactic(auto, unfolding(crate::specs::inside::CertReading::priced_due))]
fn priced(alloc: Global, road: &Road, lines: &mut Lines) -> Result<PricedPlan, TextErr>
    ensures { Gives (priced_due road.now lines.old) result lines.new }
{
    let plan = read_plan(alloc, road, lines)?;
    match next_cost(lines) {
        Ok(cost) => Ok(PricedPlan { plan, cost }),
        Err(error) => {
            drop(plan);
            Err(error)
        }
    }
}

/// Reads the next line, which is to be a keyword alone.
#[tactic(auto, unfolding(crate::specs::inside::NodeReading::line_due))]
fn next_keyword(keyword: &[u8], lines: &mut Lines) -> Result<(), TextErr>
    ensures { Gives (line_due (keyword_form keyword.now) lines.old) result lines.new }
{
    let Some(line) = lines.next() else {
        return Err(TextErr::Bad {
            line: lines.number() + 1,
        });
    };
    if is_alone(keyword, &line) {
        Ok(())
    } else {
        Err(TextErr::Bad {
            line: lines.number(),
        })
    }
}

/// Whether the line is the keyword alone.
#[tactic(auto, unfolding(crate::specs::WordForms::line_value))]
fn is_alone(keyword: &[u8], line: &Line) -> bool
    ensures { result ≡ is_some (line_value (keyword_form keyword.now) line.now) }
{
    line.ended() && is_only(keyword, line.words())
}

#[tactic(auto, unfolding(crate::specs::StatedForms::keyword_form))]
fn is_only(keyword: &[u8], words: Words) -> bool
    ensures { result ≡ is_some (keyword_form keyword.now words.entry) }
{
    match one_word(words) {
        Some(word) => word == keyword,
        None => false,
    }
}

/// Reads the next line, which is to be a cost.
#[tactic(auto, unfolding(crate::specs::inside::NodeReading::line_due))]
fn next_cost(lines: &mut Lines) -> Result<Frac, TextErr>
    ensures { Gives (line_due cost_form lines.old) result lines.new }
{
    let Some(line) = lines.next() else {
        return Err(TextErr::Bad {
            line: lines.number() + 1,
        });
    };
    match cost_of(&line) {
        Some(cost) => Ok(cost),
        None => Err(TextErr::Bad {
            line: lines.number(),
        }),
    }
}

#[tactic(auto, unfolding(crate::specs::WordForms::line_value, crate::specs::StatedForms::cost_form))]
fn cost_of(line: &Line) -> Option<Frac>
    ensures { result ≡ line_value cost_form line.now }
{
    if !line.ended() {
        return None;
    }
    let (keyword, word) = two_words(line.words())?;
    behind(b"cost", keyword, word)
}

/// The fraction behind the keyword.
fn behind(keyword: &[u8], first: &[u8], word: &[u8]) -> Option<Frac>
    ensures { result ≡ fraction_behind keyword.now (first.now, word.now) }
{
    if first == keyword {
        fraction(word)
    } else {
        None
    }
}

/// Reads the next line, which is to be a bound, or that there is none.
#[tactic(auto, unfolding(crate::specs::inside::NodeReading::line_due))]
fn next_bound(lines: &mut Lines) -> Result<Option<Frac>, TextErr>
    ensures { Gives (line_due bound_form lines.old) result lines.new }
{
    let Some(line) = lines.next() else {
        return Err(TextErr::Bad {
            line: lines.number() + 1,
        });
    };
    match bound_of(&line) {
        Some(bound) => Ok(bound),
        None => Err(TextErr::Bad {
            line: lines.number(),
        }),
    }
}

#[tactic(auto, unfolding(crate::specs::WordForms::line_value, crate::specs::StatedForms::bound_form))]
fn bound_of(line: &Line) -> Option<Option<Frac>>
    ensures { result ≡ line_value bound_form line.now }
{
    if !line.ended() {
        return None;
    }
    let (keyword, word) = two_words(line.words())?;
    stated(keyword, word)
}

fn stated(keyword: &[u8], word: &[u8]) -> Option<Option<Frac>>
    ensures { result ≡ bound_of (keyword.now, word.now) }
{
    if keyword == b"no".as_slice() {
        if word == b"bound".as_slice() {
            Some(None)
        } else {
            None
        }
    } else {
        let bound = behind(b"bound", keyword, word)?;
        Some(Some(bound))
    }
}

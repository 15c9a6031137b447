// Writing the text of a certificate.
ghost use Rattle.std.specs.Prelude.{◌≡◌, ◌++◌, ◌∷◌, [], None, string_bytes, codes, IfOk, OnOk, OnErr};
ghost use Rattle.numbers.specs.Fractions.{fraction_text};
ghost use Rattle.road_types.specs.Faults.{road_fault};
ghost use Rattle.plan_text.specs.PlanText.{plan_text, HasText};
ghost use Rattle.cert_tree.specs.Trees.{box_tree_of};
ghost use Rattle.cert_text.specs.NodeText.{low_leaf, dead_leaf, spelled_words, cause_word, low_words, dead_words, split_words, mult_words, mults_text, root_text, tree_text};
ghost use Rattle.cert_text.specs.CertText.{planned_text, bound_words, cert_text, IsPricedOrNone, AreApart};
ghost use Rattle.cert_text.specs.Certs.{priced_of, certificate_of, IsSpelledCert};

use crate::cert::Cert;
use cert_tree::{Tree, Why};
use milp_builder::Split;
use numbers::Frac;
use plan_rules::Plan;
use plan_text::write_plan;
use road_types::Road;
use std::alloc::{AllocError, Global};

/// Appends the text of a certificate of an accepted road that has one, which `read_cert` takes in again: a cost stands exactly where a
/// plan stands, the numbers are within their widths, and no node is under more than 432 splits. After want of memory `out` is as before.
pub fn write_cert(
    alloc: Global,
    road: &Road,
    cert: &Cert,
    out: &mut Vec<u8>,
) -> Result<(), AllocError>
    requires accepted { road_fault road.now ≡ None }
    requires spelled { IsSpelledCert road.now cert.now }
    ensures ok { OnOk result (out.new.items ≡ out.old.items ++ cert_text road.now (certificate_of cert.now)) }
    ensures err { OnErr result (out.new.items ≡ out.old.items) }
    ensures apart { AreApart road.now }
{
    let text = text_of(alloc, road, cert)?;
    out.extend_from_slice(text.as_slice())
}

/// The text of the certificate.
#[tactic(auto, unfolding(crate::specs::CertText::cert_text))]
fn text_of(alloc: Global, road: &Road, cert: &Cert) -> Result<Vec<u8>, AllocError>
    requires { IsSpelledCert road.now cert.now }
    ensures { IfOk result (λ text. text.items ≡ cert_text road.now (certificate_of cert.now)) }
{
    let mut text = Vec::new(alloc);
    text.extend_from_slice(b"certificate\n")?;
    push_planned(alloc, road, &cert.plan, &cert.cost, &mut text)?;
    push_bound(alloc, &cert.bound, &mut text)?;
    push_tree(alloc, &cert.tree, &mut text)?;
    text.extend_from_slice(b"end\n")?;
    Ok(text)
}

/// The plan with its cost, or that there is none.
fn push_planned(
    alloc: Global,
    road: &Road,
    plan: &Option<Plan>,
    cost: &Option<Frac>,
    text: &mut Vec<u8>,
) -> Result<(), AllocError>
    requires { IsPricedOrNone road.now (priced_of plan.now cost.now) }
    ensures { OnOk result (text.new.items ≡ text.old.items ++ planned_text road.now (priced_of plan.now cost.now)) }
{
    match (plan, cost) {
        (Some(plan), Some(cost)) => push_priced(alloc, road, plan, cost, text),
        _ => text.extend_from_slice(b"unplanned\n"),
    }
}

fn push_priced(
    alloc: Global,
    road: &Road,
    plan: &Plan,
    cost: &Frac,
    text: &mut Vec<u8>,
) -> Result<(), AllocError>
    requires { HasText road.now plan.now }
    ensures { OnOk result (text.new.items ≡ text.old.items ++ (plan_text road.now plan.now ++ spelled_words (codes "cost" ∷ fraction_text cost.now ∷ []))) }
{
    write_plan(alloc, road, plan, text)?;
    let line = cost_line(alloc, cost)?;
    text.extend_from_slice(line.as_bytes())
}

fn cost_line(alloc: Global, cost: &Frac) -> Result<String, AllocError>
    ensures { IfOk result (λ line. string_bytes line ≡ spelled_words (codes "cost" ∷ fraction_text cost.now ∷ [])) }
{
    let fraction = cost.text(alloc)?;
    let fraction = fraction.as_str();
    format!(in alloc; "cost {fraction}\n")
}

/// The bound, or that there is none.
fn push_bound(alloc: Global, bound: &Option<Frac>, text: &mut Vec<u8>) -> Result<(), AllocError>
    ensures { OnOk result (text.new.items ≡ text.old.items ++ spelled_words (bound_words bound.now)) }
{
    match bound {
        Some(bound) => {
            let line = bound_line(alloc, bound)?;
            text.extend_from_slice(line.as_bytes())
        }
        None => text.extend_from_slice(b"no bound\n"),
    }
}

fn bound_line(alloc: Global, bound: &Frac) -> Result<String, AllocError>
    ensures { IfOk result (λ line. string_bytes line ≡ spelled_words (codes "bound" ∷ fraction_text bound.now ∷ [])) }
{
    let fraction = bound.text(alloc)?;
    let fraction = fraction.as_str();
    format!(in alloc; "bound {fraction}\n")
}

/// The lines of a tree, the first part's before the second's.
fn push_tree(alloc: Global, tree: &Tree, text: &mut Vec<u8>) -> Result<(), AllocError>
    ensures { OnOk result (text.new.items ≡ text.old.items ++ tree_text (box_tree_of tree.now)) }
{
    match tree {
        Tree::Low {
            scale,
            mults,
            cause,
        } => push_low(alloc, *scale, mults.as_slice(), *cause, text),
        Tree::Dead { mults } => push_dead(alloc, mults.as_slice(), text),
        Tree::Split {
            split,
            first,
            second,
        } => {
            push_split(alloc, *split, text)?;
            push_tree(alloc, first.get(), text)?;
            push_tree(alloc, second.get(), text)
        }
    }
}

fn push_low(
    alloc: Global,
    scale: i128,
    mults: &[(u32, i128)],
    cause: Option<Why>,
    text: &mut Vec<u8>,
) -> Result<(), AllocError>
    ensures { OnOk result (text.new.items ≡ text.old.items ++ root_text (low_leaf scale mults.now cause)) }
{
    let line = low_line(alloc, scale, cause, mults.len())?;
    text.extend_from_slice(line.as_bytes())?;
    push_mults(alloc, mults, text)
}

fn push_dead(alloc: Global, mults: &[(u32, i128)], text: &mut Vec<u8>) -> Result<(), AllocError>
    ensures { OnOk result (text.new.items ≡ text.old.items ++ root_text (dead_leaf mults.now)) }
{
    let line = dead_line(alloc, mults.len())?;
    text.extend_from_slice(line.as_bytes())?;
    push_mults(alloc, mults, text)
}

fn push_split(alloc: Global, split: Split, text: &mut Vec<u8>) -> Result<(), AllocError>
    ensures { OnOk result (text.new.items ≡ text.old.items ++ spelled_words (split_words split)) }
{
    let line = split_line(alloc, split)?;
    text.extend_from_slice(line.as_bytes())
}

/// The first line of a leaf with a scale and so many multipliers.
fn low_line(
    alloc: Global,
    scale: i128,
    cause: Option<Why>,
    count: usize,
) -> Result<String, AllocError>
    ensures { IfOk result (λ line. string_bytes line ≡ spelled_words (low_words scale cause count)) }
{
    let cause = cause_name(cause);
    format!(in alloc; "low {scale} {cause} {count}\n")
}

/// The first line of a leaf that proves its box empty by so many multipliers.
fn dead_line(alloc: Global, count: usize) -> Result<String, AllocError>
    ensures { IfOk result (λ line. string_bytes line ≡ spelled_words (dead_words count)) }
{
    format!(in alloc; "dead {count}\n")
}

fn split_line(alloc: Global, split: Split) -> Result<String, AllocError>
    ensures { IfOk result (λ line. string_bytes line ≡ spelled_words (split_words split)) }
{
    match split {
        Split::Removal { block, stage } => removal_line(alloc, block, stage),
        Split::Height { section, at } => height_line(alloc, section, at),
    }
}

fn removal_line(alloc: Global, block: usize, stage: usize) -> Result<String, AllocError>
    ensures { IfOk result (λ line. string_bytes line ≡ spelled_words (split_words (Split.Removal block stage))) }
{
    format!(in alloc; "split removal {block} {stage}\n")
}

fn height_line(alloc: Global, section: usize, at: i64) -> Result<String, AllocError>
    ensures { IfOk result (λ line. string_bytes line ≡ spelled_words (split_words (Split.Height section at))) }
{
    format!(in alloc; "split height {section} {at}\n")
}

/// The word for the cause of a leaf; a leaf that wasn't left open is closed.
fn cause_name(cause: Option<Why>) -> &'static str
    ensures { result.now ≡ cause_word cause }
{
    match cause {
        None => "closed",
        Some(Why::Nodes) => "nodes",
        Some(Why::Pivots) => "pivots",
        Some(Why::Width) => "width",
    }
}

/// A line for each multiplier.
fn push_mults(alloc: Global, mults: &[(u32, i128)], text: &mut Vec<u8>) -> Result<(), AllocError>
    ensures { OnOk result (text.new.items ≡ text.old.items ++ mults_text mults.now) }
{
    for mult in mults {
        push_mult(alloc, mult, text)?;
    }
    Ok(())
}

fn push_mult(alloc: Global, mult: &(u32, i128), text: &mut Vec<u8>) -> Result<(), AllocError>
    ensures { OnOk result (text.new.items ≡ text.old.items ++ spelled_words (mult_words mult.now)) }
{
    let line = mult_line(alloc, mult.0, mult.1)?;
    text.extend_from_slice(line.as_bytes())
}

fn mult_line(alloc: Global, row: u32, value: i128) -> Result<String, AllocError>
    ensures { IfOk result (λ line. string_bytes line ≡ spelled_words (mult_words (row, value))) }
{
    format!(in alloc; "m {row} {value}\n")
}

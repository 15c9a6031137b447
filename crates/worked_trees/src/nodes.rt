// Nodes as they are written in a line.
ghost use Rattle.std.specs.Prelude.{◌≡◌, ◌↔◌, ◌&&◌, ◌<◌, IsTrue, IfOk, IfSome, None, unsigned_abs};
ghost use Rattle.algebra.specs.Scale.{IsScale};
ghost use Rattle.road_types.specs.Faults.{road_fault};
ghost use Rattle.road_types.specs.RoadPrograms.{row_count};
ghost use Rattle.cert_tree.specs.Trees.{AreMultipliersBehind, IsMultiplierBehind, box_tree_of, dead, low};
ghost use Rattle.search_trees.specs.RootedTrees.{IsLeafOf};

use algebra::GREATEST_SCALE;
use cert_tree::Tree;
use milp_builder::Split;
use road_types::{Listed, Road};
use std::alloc::{AllocError, Global};

/// The leaf that a text such as `low 2 1 450 2 -450` or `dead 6 100` names; none where it isn't one of the road.
pub(crate) fn leaf_of(alloc: Global, road: &Road, text: &str) -> Result<Option<Tree>, AllocError>
    requires { road_fault road.now ≡ None }
    ensures { IfOk result (λ found. IfSome found (IsLeafOf road.now)) }
{
    let (kind, rest) = text.split_once(' ').unwrap_or((text, ""));
    match kind {
        "low" => {
            let (scale, rest) = rest.split_once(' ').unwrap_or((rest, ""));
            low_of(alloc, road, scale, rest)
        }
        "dead" => dead_of(alloc, road, rest),
        _ => Ok(None),
    }
}

#[tactic(auto, using(crate::proofs::LeafLemmas::low_is_leaf))]
fn low_of(alloc: Global, road: &Road, scale: &str, pairs: &str) -> Result<Option<Tree>, AllocError>
    requires { road_fault road.now ≡ None }
    ensures { IfOk result (λ found. IfSome found (IsLeafOf road.now)) }
{
    let scale = scale.parse::<i128>().unwrap_or(0);
    if !is_scale(scale) {
        return Ok(None);
    }
    let Some(mults) = mults_of(alloc, road, pairs)? else {
        return Ok(None);
    };
    Ok(Some(low_leaf(scale, mults)))
}

fn low_leaf(scale: i128, mults: Vec<(u32, i128)>) -> Tree
    ensures { box_tree_of result ≡ low scale mults.items None }
{
    Tree::Low {
        scale,
        mults: Listed::new(mults),
        cause: None,
    }
}

#[tactic(auto, using(crate::proofs::LeafLemmas::dead_is_leaf))]
fn dead_of(alloc: Global, road: &Road, pairs: &str) -> Result<Option<Tree>, AllocError>
    requires { road_fault road.now ≡ None }
    ensures { IfOk result (λ found. IfSome found (IsLeafOf road.now)) }
{
    let Some(mults) = mults_of(alloc, road, pairs)? else {
        return Ok(None);
    };
    Ok(Some(dead_leaf(mults)))
}

fn dead_leaf(mults: Vec<(u32, i128)>) -> Tree
    ensures { box_tree_of result ≡ dead mults.items }
{
    Tree::Dead {
        mults: Listed::new(mults),
    }
}

fn is_scale(scale: i128) -> bool
    ensures { IsTrue result ↔ IsScale scale }
{
    1 <= scale && scale <= GREATEST_SCALE
}

/// Multipliers of the road; none where the words aren't some.
fn mults_of(alloc: Global, road: &Road, pairs: &str) -> Result<Option<Vec<(u32, i128)>>, AllocError>
    requires { road_fault road.now ≡ None }
    ensures { IfOk result (λ found. IfSome found (λ mults. AreMultipliersBehind (row_count road.now) 0 mults.items)) }
{
    let mults = pairs_of(alloc, pairs)?;
    if are_behind(road.row_count(), 0, mults.as_slice()) {
        Ok(Some(mults))
    } else {
        Ok(None)
    }
}

/// The words of a text as pairs of numbers; a word that is no number is 0.
fn pairs_of(alloc: Global, text: &str) -> Result<Vec<(u32, i128)>, AllocError> {
    let words: Vec<&str> = text.split_whitespace().collect(alloc)?;
    let mut pairs = Vec::new(alloc);
    for pair in words.chunks(2) {
        if let [row, value] = pair {
            pairs.push((row.parse().unwrap_or(0), value.parse().unwrap_or(0)))?;
        }
    }
    Ok(pairs)
}

/// Whether the pairs are multipliers of rows behind one, up to the last one.
fn are_behind(rows: usize, before: usize, mults: &[(u32, i128)]) -> bool
    ensures { IsTrue result ↔ AreMultipliersBehind rows before mults.now }
{
    match mults.split_first() {
        None => true,
        Some((mult, rest)) => {
            is_behind(rows, before, *mult) && are_behind(rows, mult.0 as usize, rest)
        }
    }
}

fn is_behind(rows: usize, before: usize, mult: (u32, i128)) -> bool
    ensures { IsTrue result ↔ IsMultiplierBehind rows before mult }
{
    let row = mult.0 as usize;
    before < row && row <= rows && mult.1 != 0 && mult.1.unsigned_abs() <= GREATEST_SCALE as u128
}

/// The split that a text such as `removal 1 2` or `height 1 0` names.
pub(crate) fn split_of(text: &str) -> Option<Split> {
    let (kind, rest) = text.split_once(' ')?;
    let (number, at) = rest.split_once(' ')?;
    let number = number.parse::<usize>().ok()?;
    match kind {
        "removal" => Some(Split::Removal {
            block: number,
            stage: at.parse::<usize>().ok()?,
        }),
        "height" => Some(Split::Height {
            section: number,
            at: at.parse::<i64>().ok()?,
        }),
        _ => None,
    }
}

// The least bound of a tree's leaves.
ghost use Rattle.std.specs.Prelude.{◌≡◌, None, IfOk, Option, Some};
ghost use Rattle.road_types.specs.Faults.{road_fault};
ghost use Rattle.road_types.specs.RoadPrograms.{row_count};
ghost use Rattle.milp_builder.specs.Boxes.{IsBoxOf};
ghost use Rattle.best_first.specs.Keys.{IsKey};
ghost use Rattle.cert_tree.specs.Trees.{box_tree_of, IsWithinWidths};
ghost use Rattle.cert_tree.specs.Soundness.{Bounds, SplitsFit, SoundTreesBound};
ghost use Rattle.cert_tree.specs.LeastBounds.{IsLeastOfLeaves};
ghost use Rattle.search_trees.specs.RootedTrees.{FitsRoad};
ghost use Rattle.cert_tree.specs.Proving.{HasProvingLeaves};
ghost use Rattle.search_trees.specs.inside.LeastPairs.{IsFractionOf, IsKeyOrNone, IsLeastPair, lesser};

use crate::rooted::SearchTree;
use best_first::is_at_most;
use cert_tree::{Tree, box_value};
use milp_builder::{BoxRange, parts};
use numbers::Frac;
use road_types::Road;
use std::alloc::{AllocError, Global};

/// The least value over scale of the low leaves of a tree that fits the road, each on its own box, in lowest terms; none
/// exactly where every leaf is dead. Where no multiplier of a row that asks for at least its right side is below 0 and the value of each
/// dead leaf is above 0, no admissible plan inside the root costs less, over any denominator, and without a bound there is none.
/// Whatever tree is sound on whichever box that fits the road bounds the plans inside so, as `any_sound` says.
pub fn least_bound(
    alloc: Global,
    road: &Road,
    tree: &SearchTree,
) -> Result<Option<Frac>, AllocError>
    requires accepted { road_fault road.now ≡ None }
    requires fits { FitsRoad road.now tree.now }
    ensures least { IfOk result (λ bound. IsLeastOfLeaves road.now (box_tree_of tree.now.tree) tree.now.root bound) }
    ensures bounds { HasProvingLeaves road.now (box_tree_of tree.now.tree) tree.now.root
        → IfOk result (λ bound. Bounds road.now bound tree.now.root) }
    ensures any_sound { SoundTreesBound road.now }
{
    bound_of(alloc, road, tree.tree(), tree.root())
}

/// The least bound of a tree on a box that fits the road: the least value over scale of its low leaves, each on its own
/// box, in lowest terms; none exactly where every leaf is dead.
pub fn bound_of(
    alloc: Global,
    road: &Road,
    tree: &Tree,
    range: &BoxRange,
) -> Result<Option<Frac>, AllocError>
    requires accepted { road_fault road.now ≡ None }
    requires fits { IsBoxOf road.now range.now }
    requires splits { SplitsFit road.now (box_tree_of tree.now) range.now }
    requires within { IsWithinWidths (row_count road.now) (box_tree_of tree.now) }
    ensures { IfOk result (λ bound. IsLeastOfLeaves road.now (box_tree_of tree.now) range.now bound) }
{
    match least_of(alloc, road, tree, range)? {
        Some(pair) => Ok(fraction_of(pair)),
        None => Ok(None),
    }
}

/// The value over the scale in lowest terms, which are always in range.
#[tactic(auto, using(crate::proofs::LeastLemmas::fraction_found))]
fn fraction_of(pair: (i128, i128)) -> Option<Frac>
    requires { IsKey pair }
    ensures { IsFractionOf pair result }
{
    Frac::new(pair.0, pair.1)
}

/// The least value of the low leaves with its scale.
fn least_of(
    alloc: Global,
    road: &Road,
    tree: &Tree,
    range: &BoxRange,
) -> Result<Option<(i128, i128)>, AllocError>
    requires accepted { road_fault road.now ≡ None }
    requires fits { IsBoxOf road.now range.now }
    requires splits { SplitsFit road.now (box_tree_of tree.now) range.now }
    requires within { IsWithinWidths (row_count road.now) (box_tree_of tree.now) }
    ensures { IfOk result (λ least. IsLeastPair road.now (box_tree_of tree.now) range.now least) }
{
    match tree {
        Tree::Low { scale, mults, .. } => {
            let value = box_value(alloc, road, range, *scale, mults.as_slice())?;
            Ok(Some((value, *scale)))
        }
        Tree::Dead { .. } => Ok(None),
        Tree::Split {
            split,
            first,
            second,
        } => {
            let Some((first_part, second_part)) = parts(alloc, road, range, *split)? else {
                unreachable!()
            };
            let least = least_of(alloc, road, first.get(), &first_part)?;
            let other = least_of(alloc, road, second.get(), &second_part)?;
            Ok(lesser(least, other))
        }
    }
}

/// The lesser of two values over their scales, the first of equal ones.
fn lesser(least: Option<(i128, i128)>, other: Option<(i128, i128)>) -> Option<(i128, i128)>
    requires least { IsKeyOrNone least }
    requires other { IsKeyOrNone other }
    ensures { result ≡ lesser least other }
{
    match (least, other) {
        (None, other) => other,
        (Some(pair), None) => Some(pair),
        (Some(pair), Some(other)) => Some(if is_at_most(pair, other) { pair } else { other }),
    }
}

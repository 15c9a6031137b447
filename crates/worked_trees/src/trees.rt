// Trees of nodes, and what is asked of them.
ghost use Rattle.std.specs.Prelude.{◌≡◌, None, Some, IfOk, IfSome, IsTrue, length};
ghost use Rattle.road_types.specs.Faults.{road_fault};
ghost use Rattle.milp_builder.specs.Boxes.{IsBoxOf};
ghost use Rattle.milp_builder.specs.Parts.{AreParts, IsSplitOf};
ghost use Rattle.cert_tree.specs.Trees.{box_tree_of};
ghost use Rattle.search_trees.specs.RootedTrees.{FitsRoad, is_leaf};

use crate::nodes::{leaf_of, split_of};
use milp_builder::{BoxRange, Split, parts, root_box};
use road_types::Road;
use search_trees::{SearchTree, least_bound};
use std::alloc::{AllocError, Global};

/// The least bound of the tree.
pub(crate) fn least_text(alloc: Global, road: &Road, nodes: &[&str]) -> Result<String, AllocError>
    requires { road_fault road.now ≡ None }
{
    let Some(tree) = tree_of(alloc, road, nodes)? else {
        return String::from_str(alloc, "no tree");
    };
    bound_text(alloc, road, &tree)
}

fn bound_text(alloc: Global, road: &Road, tree: &SearchTree) -> Result<String, AllocError>
    requires accepted { road_fault road.now ≡ None }
    requires fits { FitsRoad road.now tree.now }
{
    match least_bound(alloc, road, tree)? {
        Some(bound) => bound.text(alloc),
        None => String::from_str(alloc, "none"),
    }
}

/// The number of nodes of the tree.
pub(crate) fn joined_text(alloc: Global, road: &Road, nodes: &[&str]) -> Result<String, AllocError>
    requires { road_fault road.now ≡ None }
{
    let Some(tree) = tree_of(alloc, road, nodes)? else {
        return String::from_str(alloc, "no tree");
    };
    count_text(alloc, tree.count())
}

/// The tree of the nodes, where they are one on the box of all plans.
fn tree_of(alloc: Global, road: &Road, nodes: &[&str]) -> Result<Option<SearchTree>, AllocError>
    requires { road_fault road.now ≡ None }
    ensures { IfOk result (λ found. IfSome found (FitsRoad road.now)) }
{
    let root = root_box(alloc, road)?;
    let mut next = 0;
    let tree = part_of(alloc, road, root, nodes, &mut next, nodes.len())?;
    Ok(if next == nodes.len() { tree } else { None })
}

/// The tree on a box that begins at the next node, under at most so many splits.
#[tactic(auto, using(crate::proofs::LeafLemmas::both_parts))]
fn part_of(
    alloc: Global,
    road: &Road,
    range: BoxRange,
    nodes: &[&str],
    next: &mut usize,
    levels: usize,
) -> Result<Option<SearchTree>, AllocError>
    requires accepted { road_fault road.now ≡ None }
    requires fits { IsBoxOf road.now range }
    ensures fits { IfOk result (λ found. IfSome found (FitsRoad road.now)) }
    ensures root { IfOk result (λ found. IfSome found (λ tree. tree.root ≡ range)) }
{
    let Some(node) = nodes.get(*next) else {
        return Ok(None);
    };
    *next += 1;
    if levels == 0 {
        return Ok(None);
    }
    let Some(split) = split_of(node) else {
        return leaf_on(alloc, road, range, node);
    };
    let Some((first, second)) = parts(alloc, road, &range, split)? else {
        return Ok(None);
    };
    let first = part_of(alloc, road, first, nodes, next, levels - 1)?;
    let second = part_of(alloc, road, second, nodes, next, levels - 1)?;
    joined(alloc, road, range, split, first, second)
}

/// The tree of a split over the trees of its parts, where both were made and are small.
fn joined(
    alloc: Global,
    road: &Road,
    range: BoxRange,
    split: Split,
    first: Option<SearchTree>,
    second: Option<SearchTree>,
) -> Result<Option<SearchTree>, AllocError>
    requires accepted { road_fault road.now ≡ None }
    requires fits { IsBoxOf road.now range }
    requires first { IfSome first (FitsRoad road.now) }
    requires second { IfSome second (FitsRoad road.now) }
    requires parts { IfSome first (λ one. IfSome second (λ two. AreParts road.now range split (Some (one.root, two.root)))) }
    ensures fits { IfOk result (λ found. IfSome found (FitsRoad road.now)) }
    ensures root { IfOk result (λ found. IfSome found (λ tree. tree.root ≡ range)) }
{
    match first {
        None => Ok(None),
        Some(first) => match second {
            None => Ok(None),
            Some(second) => small_join(alloc, road, range, split, first, second),
        },
    }
}

/// The tree of a split over two small trees; none where one of them isn't.
fn small_join(
    alloc: Global,
    road: &Road,
    range: BoxRange,
    split: Split,
    first: SearchTree,
    second: SearchTree,
) -> Result<Option<SearchTree>, AllocError>
    requires accepted { road_fault road.now ≡ None }
    requires fits { IsBoxOf road.now range }
    requires first { FitsRoad road.now first }
    requires second { FitsRoad road.now second }
    requires parts { AreParts road.now range split (Some (first.root, second.root)) }
    ensures fits { IfOk result (λ found. IfSome found (FitsRoad road.now)) }
    ensures root { IfOk result (λ found. IfSome found (λ tree. tree.root ≡ range)) }
{
    if first.count() > 1000 || second.count() > 1000 {
        Ok(None)
    } else {
        match SearchTree::join(alloc, road, range, split, first, second) {
            Ok(tree) => Ok(Some(tree)),
            Err(_) => Err(AllocError),
        }
    }
}

/// A tree of one leaf on a box.
fn leaf_on(
    alloc: Global,
    road: &Road,
    range: BoxRange,
    text: &str,
) -> Result<Option<SearchTree>, AllocError>
    requires accepted { road_fault road.now ≡ None }
    requires fits { IsBoxOf road.now range }
    ensures fits { IfOk result (λ found. IfSome found (FitsRoad road.now)) }
    ensures root { IfOk result (λ found. IfSome found (λ tree. tree.root ≡ range)) }
    ensures leaf { IfOk result (λ found. IfSome found (λ tree. IsTrue (is_leaf (box_tree_of tree.tree)))) }
{
    let Some(leaf) = leaf_of(alloc, road, text)? else {
        return Ok(None);
    };
    Ok(Some(SearchTree::leaf(road, range, leaf)))
}

/// The number of nodes of a tree of the first node, after its leaf was split as the second says into the third and the fourth.
pub(crate) fn grown_text(alloc: Global, road: &Road, nodes: &[&str]) -> Result<String, AllocError>
    requires { road_fault road.now ≡ None }
{
    if nodes.len() != 4 {
        return String::from_str(alloc, "no tree");
    }
    let root = root_box(alloc, road)?;
    match leaf_on(alloc, road, root, nodes[0])? {
        Some(tree) => count_grown(alloc, road, tree, nodes),
        None => String::from_str(alloc, "no tree"),
    }
}

fn count_grown(
    alloc: Global,
    road: &Road,
    tree: SearchTree,
    nodes: &[&str],
) -> Result<String, AllocError>
    requires accepted { road_fault road.now ≡ None }
    requires fits { FitsRoad road.now tree }
    requires leaf { IsTrue (is_leaf (box_tree_of tree.tree)) }
    requires nodes { length nodes.now ≡ 4 }
{
    let mut tree = tree;
    match grow(alloc, road, &mut tree, nodes) {
        Ok(true) => count_text(alloc, tree.count()),
        Ok(false) => String::from_str(alloc, "no split"),
        Err(error) => Err(error),
    }
}

fn count_text(alloc: Global, count: usize) -> Result<String, AllocError> {
    format!(in alloc; "count {count}")
}

/// Splits the one leaf of a tree, where that can be done.
#[tactic(auto, using(crate::proofs::LeafLemmas::few_nodes, crate::proofs::LeafLemmas::first_place, crate::proofs::LeafLemmas::splits_first))]
fn grow(
    alloc: Global,
    road: &Road,
    tree: &mut SearchTree,
    nodes: &[&str],
) -> Result<bool, AllocError>
    requires accepted { road_fault road.now ≡ None }
    requires fits { FitsRoad road.now tree.old }
    requires leaf { IsTrue (is_leaf (box_tree_of tree.old.tree)) }
    requires nodes { length nodes.now ≡ 4 }
{
    let Some(split) = split_of(nodes[1]) else {
        return Ok(false);
    };
    if !is_split_of(alloc, road, tree.root(), split)? {
        return Ok(false);
    }
    let Some(first) = leaf_of(alloc, road, nodes[2])? else {
        return Ok(false);
    };
    let Some(second) = leaf_of(alloc, road, nodes[3])? else {
        return Ok(false);
    };
    tree.split_leaf(alloc, road, 0, split, first, second)?;
    Ok(true)
}

/// Whether a split is one of the box.
fn is_split_of(
    alloc: Global,
    road: &Road,
    range: &BoxRange,
    split: Split,
) -> Result<bool, AllocError>
    requires accepted { road_fault road.now ≡ None }
    requires fits { IsBoxOf road.now range.now }
    ensures { IfOk result (λ told. IsTrue told → IsSplitOf road.now range.now split) }
{
    match parts(alloc, road, range, split)? {
        Some(_) => Ok(true),
        None => Ok(false),
    }
}

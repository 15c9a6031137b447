// Nodes of a tree by their places, counted from 0 in preorder.
ghost use Rattle.std.specs.Prelude.{◌≡◌, ◌<◌, ◌^◌};
ghost use Rattle.cert_tree.specs.Trees.{box_tree_of, fork, node_count};
ghost use Rattle.search_trees.specs.Places.{with_tree_at};

use cert_tree::Tree;
use milp_builder::Split;
use node_box::NodeBox;
use road_types::Listed;
use std::alloc::Global;

/// The number of nodes.
pub(crate) fn node_count(tree: &Tree) -> usize
    requires { node_count (box_tree_of tree.now) < 2 ^ 32 }
    ensures { result ≡ node_count (box_tree_of tree.now) }
{
    match tree {
        Tree::Low { .. } | Tree::Dead { .. } => 1,
        Tree::Split { first, second, .. } => 1 + node_count(first.get()) + node_count(second.get()),
    }
}

/// The tree with another one in place of the node at a place and what stands under it. It takes no memory.
pub(crate) fn with_tree_at(alloc: Global, tree: Tree, place: usize, other: Tree) -> Tree
    requires { node_count (box_tree_of tree) < 2 ^ 32 }
    ensures { box_tree_of result ≡ with_tree_at (box_tree_of tree) place (box_tree_of other) }
{
    match tree {
        Tree::Low { .. } | Tree::Dead { .. } => other,
        Tree::Split {
            split,
            mut first,
            mut second,
        } => {
            if place == 0 {
                return other;
            }
            let before = node_count(first.get());
            if place <= before {
                let old = first.replace(nothing(alloc));
                first.replace(with_tree_at(alloc, old, place - 1, other));
            } else {
                let old = second.replace(nothing(alloc));
                second.replace(with_tree_at(alloc, old, place - 1 - before, other));
            }
            Tree::Split {
                split,
                first,
                second,
            }
        }
    }
}

/// The tree with a split and two trees under it in place of the node at a place and what stands under it. It takes no memory.
pub(crate) fn with_split_at(
    alloc: Global,
    tree: Tree,
    place: usize,
    split: Split,
    first: NodeBox<Tree>,
    second: NodeBox<Tree>,
) -> Tree
    requires { node_count (box_tree_of tree) < 2 ^ 32 }
    ensures { box_tree_of result ≡ with_tree_at (box_tree_of tree) place (fork split (box_tree_of first) (box_tree_of second)) }
{
    let part = Tree::Split {
        split,
        first,
        second,
    };
    with_tree_at(alloc, tree, place, part)
}

/// A tree that stands in a place for a moment. It takes no memory.
pub(crate) fn nothing(alloc: Global) -> Tree {
    Tree::Dead {
        mults: Listed::new(Vec::new(alloc)),
    }
}

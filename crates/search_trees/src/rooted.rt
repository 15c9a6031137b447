// Trees with the boxes of their roots.
ghost use Rattle.std.specs.Prelude.{◌≡◌, ◌+◌, ◌≤◌, ◌^◌, None, Some, IfOk, IfErr, OnOk, OnErr, IsTrue};
ghost use Rattle.road_types.specs.Faults.{road_fault};
ghost use Rattle.milp_builder.specs.Boxes.{IsBoxOf};
ghost use Rattle.milp_builder.specs.Parts.{AreParts, IsSplitOf};
ghost use Rattle.cert_tree.specs.Trees.{fork, box_tree_of, node_count};
ghost use Rattle.search_trees.specs.RootedTrees.{IsNarrow, IsLeafOf, FitsRoad};
ghost use Rattle.search_trees.specs.Places.{is_leaf_at, box_at, with_tree_at};

use crate::places::{nothing, with_split_at};
use cert_tree::Tree;
use milp_builder::{BoxRange, Split};
use node_box::NodeBox;
use road_types::Road;
use std::alloc::{AllocError, Global};
use std::marker::Model;
use std::mem;

/// A tree, the box of its root, and the number of its nodes, which is kept. Scales are from 1 to 2^40, and multipliers
/// have a magnitude of at most 2^40.
#[derive(Debug, Drop)]
pub struct SearchTree {
    tree: Tree,
    root: BoxRange,
    count: usize,
}

impl Model for SearchTree {
    ghost use Rattle.std.specs.Prelude.{◌≡◌};
    ghost use Rattle.cert_tree.specs.Trees.{box_tree_of, node_count};
    ghost use Rattle.cert_tree.specs.contracts.tree.Tree as stored;
    ghost use Rattle.search_trees.specs.RootedTrees.{RootedTree, IsNarrow};
    ghost use Rattle.std.specs.Coded.{codes};

    ghost Value = { RootedTree };

    ghost coded = { Prim.hlevel (codes, stored.the_row.coded) };

    ghost view = { λ s. record { tree = s.tree; root = s.root } };

    ghost invariant = { λ s. IsNarrow (box_tree_of s.tree) × (s.count ≡ node_count (box_tree_of s.tree)) };
}

impl SearchTree {
    ghost use Rattle.std.specs.Prelude.{◌≡◌, ◌+◌, ◌≤◌, ◌^◌, None, Some, IfOk, IfErr, OnOk, OnErr, IsTrue};
    ghost use Rattle.road_types.specs.Faults.{road_fault};
    ghost use Rattle.milp_builder.specs.Boxes.{IsBoxOf};
    ghost use Rattle.milp_builder.specs.Parts.{AreParts, IsSplitOf};
    ghost use Rattle.cert_tree.specs.Trees.{fork, box_tree_of, node_count};
    ghost use Rattle.search_trees.specs.RootedTrees.{IsNarrow, IsLeafOf, FitsRoad};
    ghost use Rattle.search_trees.specs.Places.{is_leaf_at, box_at, with_tree_at};

    /// A tree of one leaf on a box. It takes no memory.
    pub fn leaf(road: &Road, root: BoxRange, leaf: Tree) -> SearchTree
        requires accepted { road_fault road.now ≡ None }
        requires root { IsBoxOf road.now root }
        requires leaf { IsLeafOf road.now leaf }
        ensures tree { result.tree ≡ leaf }
        ensures root { result.root ≡ root }
        ensures fits { FitsRoad road.now result }
    {
        SearchTree {
            tree: leaf,
            root,
            count: 1,
        }
    }

    /// The two trees under a split of a box whose parts they stand on. After want of memory, the one refusal, both come
    /// back as they were; the box that was handed in is dropped.
    pub fn join(
        alloc: Global,
        road: &Road,
        root: BoxRange,
        split: Split,
        first: SearchTree,
        second: SearchTree,
    ) -> Result<SearchTree, (SearchTree, SearchTree)>
        requires accepted { road_fault road.now ≡ None }
        requires root { IsBoxOf road.now root }
        requires first { FitsRoad road.now first }
        requires second { FitsRoad road.now second }
        requires count { node_count (box_tree_of first.tree) + node_count (box_tree_of second.tree) ≤ 2 ^ 26 }
        requires parts { AreParts road.now root split (Some (first.root, second.root)) }
        ensures tree { IfOk result (λ joined. box_tree_of joined.tree ≡ fork split (box_tree_of first.tree) (box_tree_of second.tree)) }
        ensures root { IfOk result (λ joined. joined.root ≡ root) }
        ensures fits { IfOk result (λ joined. FitsRoad road.now joined) }
        ensures refused { IfErr result (λ trees. trees ≡ (first, second)) }
    {
        let SearchTree {
            tree: first_tree,
            root: first_root,
            count: first_count,
        } = first;
        let first_box = match NodeBox::new(alloc, first_tree) {
            Ok(first_box) => first_box,
            Err(failed) => {
                let first = SearchTree {
                    tree: failed.value,
                    root: first_root,
                    count: first_count,
                };
                return Err((first, second));
            }
        };
        let SearchTree {
            tree: second_tree,
            root: second_root,
            count: second_count,
        } = second;
        match NodeBox::new(alloc, second_tree) {
            Ok(second_box) => Ok(SearchTree {
                tree: Tree::Split {
                    split,
                    first: first_box,
                    second: second_box,
                },
                root,
                count: first_count + second_count + 1,
            }),
            Err(failed) => {
                let first = SearchTree {
                    tree: first_box.into_inner(),
                    root: first_root,
                    count: first_count,
                };
                let second = SearchTree {
                    tree: failed.value,
                    root: second_root,
                    count: second_count,
                };
                Err((first, second))
            }
        }
    }

    /// Splits the leaf at a place, counted from 0 over the nodes in preorder, into two leaves on the parts of its box.
    /// After want of memory the tree is as before, and the two leaves are dropped.
    pub fn split_leaf(
        &mut self,
        alloc: Global,
        road: &Road,
        place: usize,
        split: Split,
        first: Tree,
        second: Tree,
    ) -> Result<(), AllocError>
        requires accepted { road_fault road.now ≡ None }
        requires fits { FitsRoad road.now self.old }
        requires count { node_count (box_tree_of self.old.tree) ≤ 2 ^ 26 }
        requires leaf { IsTrue (is_leaf_at (box_tree_of self.old.tree) place) }
        requires first { IsLeafOf road.now first }
        requires second { IsLeafOf road.now second }
        requires split { IsSplitOf road.now (box_at (box_tree_of self.old.tree) self.old.root place) split }
        ensures tree { OnOk result (box_tree_of self.new.tree
            ≡ with_tree_at (box_tree_of self.old.tree) place (fork split (box_tree_of first) (box_tree_of second))) }
        ensures root { self.new.root ≡ self.old.root }
        ensures count { OnOk result (node_count (box_tree_of self.new.tree) ≡ node_count (box_tree_of self.old.tree) + 2) }
        ensures fits { FitsRoad road.now self.new }
        ensures unchanged { OnErr result (self.new ≡ self.old) }
    {
        let first = NodeBox::new(alloc, first)?;
        let second = NodeBox::new(alloc, second)?;
        let old = mem::replace(&mut self.tree, nothing(alloc));
        self.tree = with_split_at(alloc, old, place, split, first, second);
        self.count += 2;
        Ok(())
    }

    /// The tree.
    pub fn tree(&self) -> &Tree
        ensures tree { result.now ≡ self.now.tree }
        ensures narrow { IsNarrow (box_tree_of self.now.tree) }
    {
        &self.tree
    }

    /// The number of nodes, splits and leaves.
    pub fn count(&self) -> usize
        ensures { result ≡ node_count (box_tree_of self.now.tree) }
    {
        self.count
    }

    /// The box of the root.
    pub fn root(&self) -> &BoxRange
        ensures { result.now ≡ self.now.root }
    {
        &self.root
    }

    /// Hands the tree out, without taking memory.
    pub fn into_tree(self) -> Tree
        ensures { result ≡ self.tree }
    {
        self.tree
    }
}

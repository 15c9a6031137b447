// The tree of a certificate, carried leaf by leaf.
ghost use Rattle.std.specs.Prelude.{◌≡◌, None, IfOk};
ghost use Rattle.road_types.specs.Faults.{road_fault};
ghost use Rattle.road_types.specs.RoadPrograms.{row_count};
ghost use Rattle.milp_builder.specs.Boxes.{IsBoxOf, root_box};
ghost use Rattle.cert_tree.specs.Trees.{box_tree_of, IsWithinWidths};
ghost use Rattle.cert_tree.specs.Soundness.{SplitsFit};
ghost use Rattle.cert_tree.specs.LeastBounds.{IsLeastOfLeaves};
ghost use Rattle.cert_tree.specs.Proving.{HasProvingLeaves};
ghost use Rattle.carried_bounds.specs.Carried.{IsCarriedTree};
ghost use Rattle.carried_bounds.specs.inside.Risen.{AreBounded};

use crate::leaves::carried_mults;
use cert_tree::Tree;
use milp_builder::{BoxRange, parts, root_box};
use node_box::NodeBox;
use numbers::Frac;
use road_types::{Listed, Road};
use search_trees::bound_of;
use std::alloc::{AllocError, Global};

/// A tree with the least of its leaves' bounds.
#[derive(Drop)]
pub struct Bounded {
    pub tree: Tree,
    pub bound: Option<Frac>,
}

/// A tree on the box of all plans, carried to the road's costs.
pub(crate) fn bounded_tree(alloc: Global, road: &Road, tree: &Tree) -> Result<Bounded, AllocError>
    requires accepted { road_fault road.now ≡ None }
    requires splits { SplitsFit road.now (box_tree_of tree.now) (root_box road.now) }
    requires within { IsWithinWidths (row_count road.now) (box_tree_of tree.now) }
    requires proving { HasProvingLeaves road.now (box_tree_of tree.now) (root_box road.now) }
    ensures { IfOk result (λ bounded. AreBounded road.now (box_tree_of tree.now) (box_tree_of bounded.tree) bounded.bound) }
{
    let root = root_box(alloc, road)?;
    let carried = carried_tree(alloc, road, tree, &root)?;
    with_bound(alloc, road, carried, &root)
}

/// The tree with the least of its leaves' bounds on a box.
fn with_bound(
    alloc: Global,
    road: &Road,
    tree: Tree,
    range: &BoxRange,
) -> Result<Bounded, AllocError>
    requires accepted { road_fault road.now ≡ None }
    requires fits { IsBoxOf road.now range.now }
    requires splits { SplitsFit road.now (box_tree_of tree) range.now }
    requires within { IsWithinWidths (row_count road.now) (box_tree_of tree) }
    ensures tree { IfOk result (λ bounded. bounded.tree ≡ tree) }
    ensures bound { IfOk result (λ bounded. IsLeastOfLeaves road.now (box_tree_of tree) range.now bounded.bound) }
{
    match bound_of(alloc, road, &tree, range) {
        Ok(bound) => Ok(Bounded { tree, bound }),
        Err(error) => {
            // Dropped by name, which is one step in the proof.
            drop(tree);
            Err(error)
        }
    }
}

/// The tree with the multipliers of each low leaf raised on its own box.
fn carried_tree(
    alloc: Global,
    road: &Road,
    tree: &Tree,
    range: &BoxRange,
) -> Result<Tree, AllocError>
    requires accepted { road_fault road.now ≡ None }
    requires fits { IsBoxOf road.now range.now }
    requires splits { SplitsFit road.now (box_tree_of tree.now) range.now }
    requires within { IsWithinWidths (row_count road.now) (box_tree_of tree.now) }
    requires proving { HasProvingLeaves road.now (box_tree_of tree.now) range.now }
    ensures { IfOk result (λ carried. IsCarriedTree road.now (box_tree_of tree.now) range.now (box_tree_of carried)) }
{
    match tree {
        Tree::Low {
            scale,
            mults,
            cause,
        } => {
            let mults = carried_mults(alloc, road, range, *scale, mults.as_slice())?;
            Ok(Tree::Low {
                scale: *scale,
                mults,
                cause: *cause,
            })
        }
        Tree::Dead { mults } => {
            let mults = Vec::from_slice(alloc, mults.as_slice())?;
            Ok(Tree::Dead {
                mults: Listed::new(mults),
            })
        }
        Tree::Split {
            split,
            first,
            second,
        } => {
            let Some((first_part, second_part)) = parts(alloc, road, range, *split)? else {
                unreachable!()
            };
            let first = boxed(alloc, carried_tree(alloc, road, first.get(), &first_part)?)?;
            let second = boxed(
                alloc,
                carried_tree(alloc, road, second.get(), &second_part)?,
            )?;
            Ok(Tree::Split {
                split: *split,
                first,
                second,
            })
        }
    }
}

/// The tree, moved to memory of its own.
fn boxed(alloc: Global, tree: Tree) -> Result<NodeBox<Tree>, AllocError>
    ensures { IfOk result (λ node. node ≡ tree) }
{
    Ok(NodeBox::new(alloc, tree)?)
}

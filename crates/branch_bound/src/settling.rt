// The tree at the end: open leaves are closed where their bound reaches the cost of the best plan.
ghost use Rattle.std.specs.Prelude.{◌≡◌, ◌++◌, [], ◌∷◌, None, Some, IfOk, OnOk};
ghost use Rattle.best_first.specs.Keys.{IsKey};
ghost use Rattle.cert_tree.specs.Trees.{low, fork, box_tree_of};
ghost use Rattle.branch_bound.specs.Noted.{tree_of, notes_of};
ghost use Rattle.branch_bound.specs.inside.Grown.{grown_of, AreKeys, IsCostKey, proved_key, low_keys, reaches, cause_of, left_cause, left_note, closed_or, noted_of};

use crate::notes::NodeNote;
use crate::walks::left_note;
use crate::work::{Proved, Reason, Waiting, Work};
use best_first::is_at_most;
use cert_tree::{Tree, Why};
use milp_builder::Split;
use node_box::NodeBox;
use numbers::Frac;
use std::alloc::{AllocError, Global};

/// The tree with its leaves closed or left open; the notes of its nodes, in preorder, are put behind the others.
pub(crate) fn settle(
    alloc: Global,
    work: Work,
    cost: &Option<Frac>,
    notes: &mut Vec<NodeNote>,
) -> Result<Tree, AllocError>
    requires keys { AreKeys (grown_of work) }
    requires cost { IsCostKey cost.now }
    ensures tree { IfOk result (λ tree. box_tree_of tree ≡ tree_of (noted_of cost.now (grown_of work))) }
    ensures notes { OnOk result (notes.new.items ≡ notes.old.items ++ notes_of (noted_of cost.now (grown_of work))) }
{
    match work {
        Work::Dead { mults } => {
            notes.push(NodeNote::Dead)?;
            Ok(Tree::Dead { mults })
        }
        Work::Whole { proved } => {
            notes.push(NodeNote::Closed)?;
            Ok(low_leaf(proved, None))
        }
        Work::Stopped { proved, note } => settle_stopped(proved, note, cost, notes),
        Work::Waiting { leaf } => settle_waiting(leaf, cost, notes),
        Work::Parted {
            split,
            note,
            first,
            second,
            ..
        } => {
            notes.push(note)?;
            let first = settle(alloc, first.into_inner(), cost, notes)?;
            let second = settle(alloc, second.into_inner(), cost, notes)?;
            join(alloc, split, first, second)
        }
    }
}

/// A leaf whose simplex stopped.
fn settle_stopped(
    proved: Proved,
    note: NodeNote,
    cost: &Option<Frac>,
    notes: &mut Vec<NodeNote>,
) -> Result<Tree, AllocError>
    requires key { IsKey (proved_key proved) }
    requires cost { IsCostKey cost.now }
    ensures tree { IfOk result (λ tree. box_tree_of tree ≡ tree_of (closed_or cost.now proved (cause_of note) note)) }
    ensures notes { OnOk result (notes.new.items ≡ notes.old.items ++ notes_of (closed_or cost.now proved (cause_of note) note)) }
{
    let cause = cause_of(&note);
    close_or_leave(proved, cost, cause, note, notes)
}

/// A leaf that waits.
fn settle_waiting(
    leaf: Waiting,
    cost: &Option<Frac>,
    notes: &mut Vec<NodeNote>,
) -> Result<Tree, AllocError>
    requires key { IsKey (proved_key leaf.proved) }
    requires cost { IsCostKey cost.now }
    ensures tree { IfOk result (λ tree. box_tree_of tree ≡ tree_of (closed_or cost.now leaf.proved (left_cause leaf.reason) (left_note leaf.reason))) }
    ensures notes { OnOk result (notes.new.items ≡ notes.old.items ++ notes_of (closed_or cost.now leaf.proved (left_cause leaf.reason) (left_note leaf.reason))) }
{
    let Waiting { reason, proved, .. } = leaf;
    let cause = left_cause(&reason);
    close_or_leave(proved, cost, cause, left_note(reason), notes)
}

/// A leaf that is closed where its bound reaches the cost, and else left open with its cause.
fn close_or_leave(
    proved: Proved,
    cost: &Option<Frac>,
    cause: Why,
    note: NodeNote,
    notes: &mut Vec<NodeNote>,
) -> Result<Tree, AllocError>
    requires key { IsKey (proved_key proved) }
    requires cost { IsCostKey cost.now }
    ensures tree { IfOk result (λ tree. box_tree_of tree ≡ tree_of (closed_or cost.now proved cause note)) }
    ensures notes { OnOk result (notes.new.items ≡ notes.old.items ++ notes_of (closed_or cost.now proved cause note)) }
{
    if reaches(&proved, cost) {
        drop(note);
        noted_leaf(proved, None, NodeNote::Closed, notes)
    } else {
        noted_leaf(proved, Some(cause), note, notes)
    }
}

/// A leaf whose note is put behind the others.
fn noted_leaf(
    proved: Proved,
    cause: Option<Why>,
    note: NodeNote,
    notes: &mut Vec<NodeNote>,
) -> Result<Tree, AllocError>
    ensures tree { IfOk result (λ tree. box_tree_of tree ≡ low proved.scale proved.mults cause) }
    ensures notes { OnOk result (notes.new.items ≡ notes.old.items ++ (note ∷ [])) }
{
    notes.push(note)?;
    Ok(low_leaf(proved, cause))
}

/// A leaf with what is proved of its box, and the cause for which it was left open, if it was.
fn low_leaf(proved: Proved, cause: Option<Why>) -> Tree
    ensures { box_tree_of result ≡ low proved.scale proved.mults cause }
{
    Tree::Low {
        scale: proved.scale,
        mults: proved.mults,
        cause,
    }
}

/// Two trees under a split.
fn join(alloc: Global, split: Split, first: Tree, second: Tree) -> Result<Tree, AllocError>
    ensures { IfOk result (λ tree. box_tree_of tree ≡ fork split (box_tree_of first) (box_tree_of second)) }
{
    let first = NodeBox::new(alloc, first)?;
    let second = NodeBox::new(alloc, second)?;
    Ok(Tree::Split {
        split,
        first,
        second,
    })
}

/// Whether the bound reaches the cost; without a plan none does.
fn reaches(proved: &Proved, cost: &Option<Frac>) -> bool
    requires key { IsKey (proved_key proved.now) }
    requires cost { IsCostKey cost.now }
    ensures { result ≡ reaches cost.now proved.now }
{
    match cost {
        None => false,
        Some(cost) => is_at_most((cost.num(), cost.den()), (proved.value, proved.scale)),
    }
}

/// The cause of a stop.
fn cause_of(note: &NodeNote) -> Why
    ensures { result ≡ cause_of note.now }
{
    match note {
        NodeNote::Pivots { .. } => Why::Pivots,
        _ => Why::Width,
    }
}

/// The cause of a leaf that is left open, by the reason for which it waits.
fn left_cause(reason: &Reason) -> Why
    ensures { result ≡ left_cause reason.now }
{
    match reason {
        Reason::Asked { .. } => Why::Nodes,
        Reason::Stop { note } => cause_of(note),
    }
}

/// The keys of the leaves that aren't dead, in preorder, are put behind the others.
pub(crate) fn push_low_keys(work: &Work, keys: &mut Vec<(i128, i128)>) -> Result<(), AllocError>
    ensures { OnOk result (keys.new.items ≡ keys.old.items ++ low_keys (grown_of work.now)) }
{
    match work {
        Work::Dead { .. } => Ok(()),
        Work::Whole { proved } | Work::Stopped { proved, .. } => push_key(proved, keys),
        Work::Waiting { leaf } => push_key(&leaf.proved, keys),
        Work::Parted { first, second, .. } => {
            push_low_keys(first.get(), keys)?;
            push_low_keys(second.get(), keys)
        }
    }
}

fn push_key(proved: &Proved, keys: &mut Vec<(i128, i128)>) -> Result<(), AllocError>
    ensures { OnOk result (keys.new.items ≡ keys.old.items ++ (proved_key proved.now ∷ [])) }
{
    keys.push((proved.value, proved.scale))?;
    Ok(())
}

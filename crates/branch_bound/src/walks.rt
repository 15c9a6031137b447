// Walks over the tree while it grows.
ghost use Rattle.std.specs.Prelude.{◌≡◌, ◌+◌, ◌<◌, ◌^◌, ◌++◌, Some, OnOk};
ghost use Rattle.best_first.specs.inside.Covers.{open_keys};
ghost use Rattle.branch_bound.specs.inside.Grown.{grown_of, keys_of, waiting_count, waiting_at, parted_at, proved_key, grown_fork, split_note, left_note, fractional_note, nodes_note};

use crate::notes::NodeNote;
use crate::work::{Optimum, Reason, Waiting, Work};
use node_box::NodeBox;
use road_types::Listed;
use std::alloc::{AllocError, Global};
use std::mem;

/// The keys of the waiting leaves, in preorder, are put behind the others.
pub(crate) fn push_keys(work: &Work, keys: &mut Vec<(i128, i128)>) -> Result<(), AllocError>
    ensures { OnOk result (keys.new.items ≡ keys.old.items ++ open_keys (keys_of (grown_of work.now))) }
{
    match work {
        Work::Dead { .. } | Work::Whole { .. } | Work::Stopped { .. } => Ok(()),
        Work::Waiting { leaf } => {
            keys.push((leaf.proved.value, leaf.proved.scale))?;
            Ok(())
        }
        Work::Parted { first, second, .. } => {
            push_keys(first.get(), keys)?;
            push_keys(second.get(), keys)
        }
    }
}

/// The number of waiting leaves.
pub(crate) fn waiting_count(work: &Work) -> usize
    requires { waiting_count (grown_of work.now) < 2 ^ 32 }
    ensures { result ≡ waiting_count (grown_of work.now) }
{
    match work {
        Work::Dead { .. } | Work::Whole { .. } | Work::Stopped { .. } => 0,
        Work::Waiting { .. } => 1,
        Work::Parted { first, second, .. } => waiting_count(first.get())
            + waiting_count(second.get()),
    }
}

/// The waiting leaf with a number, counted from 0 in preorder.
pub(crate) fn waiting_at(work: &Work, at: usize) -> &Waiting
    requires count { waiting_count (grown_of work.now) < 2 ^ 32 }
    requires at { at < waiting_count (grown_of work.now) }
    ensures { waiting_at (grown_of work.now) at ≡ Some result.now }
{
    match work {
        Work::Waiting { leaf } => leaf,
        Work::Parted { first, second, .. } => {
            let before = waiting_count(first.get());
            if at < before {
                waiting_at(first.get(), at)
            } else {
                waiting_at(second.get(), at - before)
            }
        }
        Work::Dead { .. } | Work::Whole { .. } | Work::Stopped { .. } => unreachable!(),
    }
}

/// The note of a leaf's split, by the reason for which it waits.
fn split_note(reason: Reason) -> NodeNote
    ensures { result ≡ split_note reason }
{
    match reason {
        Reason::Asked { optimum } => fractional_note(optimum),
        Reason::Stop { note } => note,
    }
}

/// The note of a leaf that is left open, by the reason for which it waits.
pub(crate) fn left_note(reason: Reason) -> NodeNote
    ensures { result ≡ left_note reason }
{
    match reason {
        Reason::Asked { optimum } => nodes_note(optimum),
        Reason::Stop { note } => note,
    }
}

/// The note of a split for which an optimum asks.
fn fractional_note(optimum: Optimum) -> NodeNote
    ensures { result ≡ fractional_note optimum }
{
    NodeNote::Fractional {
        trail: optimum.trail,
        den: optimum.den,
        point: optimum.point,
        scale: optimum.scale,
        mults: optimum.mults,
    }
}

/// The note of a leaf that is left open for want of nodes.
fn nodes_note(optimum: Optimum) -> NodeNote
    ensures { result ≡ nodes_note optimum }
{
    NodeNote::Nodes {
        trail: optimum.trail,
        den: optimum.den,
        point: optimum.point,
        scale: optimum.scale,
        mults: optimum.mults,
    }
}

/// Splits the waiting leaf of a number, counted from 0 in preorder, into two others. It takes no memory.
pub(crate) fn part_leaf(
    alloc: Global,
    work: &mut Work,
    at: usize,
    one: NodeBox<Work>,
    two: NodeBox<Work>,
)
    requires count { waiting_count (grown_of work.old) < 2 ^ 32 }
    ensures { grown_of work.new ≡ parted_at (grown_of work.old) at (grown_of one) (grown_of two) }
{
    let old = mem::replace(work, nothing(alloc));
    drop(mem::replace(work, part_at(alloc, old, at, one, two)));
}

/// The tree with the waiting leaf of a number split into two others.
fn part_at(alloc: Global, work: Work, at: usize, one: NodeBox<Work>, two: NodeBox<Work>) -> Work
    requires count { waiting_count (grown_of work) < 2 ^ 32 }
    ensures { grown_of result ≡ parted_at (grown_of work) at (grown_of one) (grown_of two) }
{
    match work {
        Work::Waiting { leaf } => parted(leaf, one, two),
        Work::Parted {
            split,
            note,
            key,
            mut first,
            mut second,
        } => {
            let before = waiting_count(first.get());
            if at < before {
                let old = first.replace(nothing(alloc));
                let first = put_back(first, part_at(alloc, old, at, one, two));
                Work::Parted {
                    split,
                    note,
                    key,
                    first,
                    second,
                }
            } else {
                let old = second.replace(nothing(alloc));
                let second = put_back(second, part_at(alloc, old, at - before, one, two));
                Work::Parted {
                    split,
                    note,
                    key,
                    first,
                    second,
                }
            }
        }
        work => work,
    }
}

/// A waiting leaf, split into two others.
fn parted(leaf: Waiting, one: NodeBox<Work>, two: NodeBox<Work>) -> Work
    ensures { grown_of result ≡ grown_fork leaf.split (split_note leaf.reason) (proved_key leaf.proved) (grown_of one) (grown_of two) }
{
    Work::Parted {
        split: leaf.split,
        key: (leaf.proved.value, leaf.proved.scale),
        note: split_note(leaf.reason),
        first: one,
        second: two,
    }
}

/// A place with another tree in it.
fn put_back(mut place: NodeBox<Work>, work: Work) -> NodeBox<Work>
    ensures { result ≡ work }
{
    drop(place.replace(work));
    place
}

/// A tree that stands in a place for a moment. It takes no memory.
fn nothing(alloc: Global) -> Work {
    Work::Dead {
        mults: Listed::new(Vec::new(alloc)),
    }
}

// Going through the nodes of a tree, one after another.
ghost use Rattle.std.specs.Prelude.{◌≡◌, ◌≢◌, ℕ, ℤ, ◌≤◌, ◌^◌, IfOk, None, List};
ghost use Rattle.algebra.specs.Scale.{IsScale};
ghost use Rattle.road_types.specs.Faults.{road_fault};
ghost use Rattle.road_types.specs.RoadPrograms.{row_count};
ghost use Rattle.milp_builder.specs.Boxes.{IsBoxOf};
ghost use Rattle.milp_builder.specs.BoxPrograms.{box_program};
ghost use Rattle.cert_tree.specs.Trees.{AreMultipliersBehind};
ghost use Rattle.cert_text.specs.NodeText.{IsRoot};
ghost use Rattle.cert_text.specs.CertText.{IsStatedOrNone};
ghost use Rattle.cert_checker.specs.Refusals.{low_refusal, dead_refusal};
ghost use Rattle.cert_checker.specs.inside.Walking.{AtSplit, AtNode, Passes, HasFirstBox, HasBoxes, Turns, Walks, is_low_leaf, root_at};

use crate::leaf::{dead_refusal, low_refusal};
use crate::refusal::{CertRule, Refusal};
use cert_text::{LeafBuf, NodeReader, Step};
use milp_builder::{BoxRange, Split, build, parts, root_box};
use numbers::Frac;
use plan_text::TextErr;
use road_types::Road;
use std::alloc::{AllocError, Global};
use std::collections::VecDeque;
use std::marker::Model;
use text_parts::Lines;

/// What was found in a tree: the first refusal, if there is one, and whether some leaf is low.
#[derive(Clone, Copy)]
pub(crate) struct Walked {
    pub(crate) found: Option<Refusal>,
    pub(crate) has_low: bool,
}

/// Where one is in a tree: the boxes of the trees that are due, the next first; the first refusal so far, once there is one the boxes
/// don't matter; and whether a low leaf was seen.
#[derive(Drop)]
struct Walk {
    boxes: VecDeque<BoxRange>,
    found: Option<Refusal>,
    seen_low: bool,
}

impl Model for Walk {
    ghost use Rattle.cert_checker.specs.inside.Walking.{Place};

    ghost Value = { Place };

    ghost view = { λ w. record { boxes = w.boxes.items; found = w.found; seen_low = w.seen_low } };
}

/// Whether the node is a low leaf.
fn is_low(step: &Step) -> bool
    ensures { (mults : List (ℕ × ℤ)) → result ≡ is_low_leaf (root_at step.now mults) }
{
    match step {
        Step::Low { .. } => true,
        Step::Dead => false,
        Step::Split { .. } => false,
        Step::End => false,
    }
}

fn low_at(
    alloc: Global,
    road: &Road,
    bound: &Option<Frac>,
    range: &BoxRange,
    line: usize,
    scale: i128,
    mults: &[(u32, i128)],
) -> Result<Option<Refusal>, AllocError>
    requires accepted { road_fault road.now ≡ None }
    requires bound { IsStatedOrNone bound.now }
    requires fits { IsBoxOf road.now range.now }
    requires line { line ≤ 2 ^ 63 }
    requires scale { IsScale scale }
    requires mults { AreMultipliersBehind (row_count road.now) 0 mults.now }
    ensures { IfOk result (λ found. found ≡ low_refusal (box_program road.now range.now) bound.now line scale mults.now) }
{
    let milp = build(alloc, road, range)?;
    let found = low_refusal(alloc, &milp, bound, line, scale, mults);
    // Dropped by name, which is one step in the proof.
    drop(milp);
    found
}

fn dead_at(
    alloc: Global,
    road: &Road,
    range: &BoxRange,
    line: usize,
    mults: &[(u32, i128)],
) -> Result<Option<Refusal>, AllocError>
    requires accepted { road_fault road.now ≡ None }
    requires fits { IsBoxOf road.now range.now }
    requires line { line ≤ 2 ^ 63 }
    requires mults { AreMultipliersBehind (row_count road.now) 0 mults.now }
    ensures { IfOk result (λ found. found ≡ dead_refusal (box_program road.now range.now) line mults.now) }
{
    let milp = build(alloc, road, range)?;
    let found = dead_refusal(alloc, &milp, line, mults);
    drop(milp);
    found
}

/// Puts the parts of a box before the other boxes, if it can be split so.
fn split_at(
    alloc: Global,
    road: &Road,
    range: &BoxRange,
    line: usize,
    split: Split,
    boxes: &mut VecDeque<BoxRange>,
) -> Result<Option<Refusal>, AllocError>
    requires accepted { road_fault road.now ≡ None }
    requires fits { IsBoxOf road.now range.now }
    ensures { IfOk result (λ found. AtSplit road.now split range.now boxes.old.items line boxes.new.items found) }
{
    let Some((first, second)) = parts(alloc, road, range, split)? else {
        return Ok(Some(Refusal {
            rule: CertRule::C5,
            line,
        }));
    };
    match boxes.push_front(second) {
        Ok(()) => {}
        Err(error) => {
            drop(first);
            return Err(AllocError::from(error));
        }
    }
    boxes.push_front(first)?;
    Ok(None)
}

/// What is refused at a node of a box; a split puts the box's parts before the other boxes.
fn found_at(
    alloc: Global,
    road: &Road,
    bound: &Option<Frac>,
    range: &BoxRange,
    line: usize,
    step: &Step,
    mults: &[(u32, i128)],
    boxes: &mut VecDeque<BoxRange>,
) -> Result<Option<Refusal>, AllocError>
    requires accepted { road_fault road.now ≡ None }
    requires bound { IsStatedOrNone bound.now }
    requires fits { IsBoxOf road.now range.now }
    requires line { line ≤ 2 ^ 63 }
    requires some { step.now ≢ Step.End }
    requires root { IsRoot (row_count road.now) (root_at step.now mults.now) }
    ensures { IfOk result (λ found. AtNode road.now bound.now (root_at step.now mults.now) range.now boxes.old.items line boxes.new.items found) }
{
    match step {
        Step::Low { scale, cause: _ } => low_at(alloc, road, bound, range, line, *scale, mults),
        Step::Dead => dead_at(alloc, road, range, line, mults),
        Step::Split { split } => split_at(alloc, road, range, line, *split, boxes),
        Step::End => Ok(None),
    }
}

impl Walk {
    /// Passes a node that begins on this line.
    fn pass(
        &mut self,
        alloc: Global,
        road: &Road,
        bound: &Option<Frac>,
        line: usize,
        step: &Step,
        mults: &[(u32, i128)],
    ) -> Result<(), AllocError>
        requires accepted { road_fault road.now ≡ None }
        requires bound { IsStatedOrNone bound.now }
        requires line { line ≤ 2 ^ 63 }
        requires some { step.now ≢ Step.End }
        requires root { IsRoot (row_count road.now) (root_at step.now mults.now) }
        requires boxes { HasFirstBox road.now self.old }
        ensures { IfOk result (λ _. Passes road.now bound.now (root_at step.now mults.now) line self.old self.new) }
    {
        self.seen_low = self.seen_low || is_low(step);
        if self.found.is_some() {
            return Ok(());
        }
        let Some(range) = self.boxes.pop_front() else {
            return Ok(());
        };
        let found = found_at(
            alloc,
            road,
            bound,
            &range,
            line,
            step,
            mults,
            &mut self.boxes,
        );
        drop(range);
        self.found = found?;
        Ok(())
    }

    /// Passes the next node, whose lines alone are taken; false where no tree is due any more.
    fn turn(
        &mut self,
        alloc: Global,
        road: &Road,
        bound: &Option<Frac>,
        reader: &mut NodeReader,
        lines: &mut Lines,
        leaf: &mut LeafBuf,
    ) -> Result<bool, TextErr>
        requires accepted { road_fault road.now ≡ None }
        requires bound { IsStatedOrNone bound.now }
        requires rows { reader.old.rows ≡ row_count road.now }
        requires room { row_count road.now ≤ leaf.old.room }
        requires boxes { HasBoxes road.now reader.old.levels self.old }
        ensures turns { Turns road.now bound.now (row_count road.now) reader.old.levels lines.old self.old result reader.new.levels lines.new self.new }
        ensures rows { reader.new.rows ≡ reader.old.rows }
        ensures room { leaf.new.room ≡ leaf.old.room }
    {
        let line = lines.number() + 1;
        match reader.next(lines, leaf) {
            Ok(Step::End) => Ok(false),
            Ok(step) => {
                self.pass(alloc, road, bound, line, &step, leaf.mults())?;
                Ok(true)
            }
            Err(line) => Err(TextErr::Bad { line }),
        }
    }
}

/// Reads a tree to its end and tells what is first refused in it, on the road's root box.
pub(crate) fn walk_tree(
    alloc: Global,
    road: &Road,
    bound: &Option<Frac>,
    lines: &mut Lines,
) -> Result<Walked, TextErr>
    requires accepted { road_fault road.now ≡ None }
    requires bound { IsStatedOrNone bound.now }
    ensures { Walks road.now bound.now lines.old result lines.new }
{
    let rows = road.row_count();
    let mut leaf = LeafBuf::new(alloc, rows)?;
    let mut reader = NodeReader::over(rows);
    let mut boxes = VecDeque::new(alloc);
    boxes.push_front(root_box(alloc, road)?)?;
    let mut walk = Walk {
        boxes,
        found: None,
        seen_low: false,
    };
    loop {
        if !walk.turn(alloc, road, bound, &mut reader, lines, &mut leaf)? {
            return Ok(Walked {
                found: walk.found,
                has_low: walk.seen_low,
            });
        }
    }
}

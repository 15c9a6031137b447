ghost use Rattle.std.specs.Prelude.{◌≡◌, ◌↔◌, ◌⊎◌, ℕ, ◌≤◌, ◌<◌, ◌+◌, ◌-◌, List, [], ◌∷◌, ◌++◌, drop, length, slice_get, IfOk, IfErr};
ghost use Rattle.std.specs.Result.{IsOkAnd};
ghost use Rattle.cert_text.specs.NodeText.{most_levels};
ghost use Rattle.cert_text.specs.Misfits.{IsMisfitOfTrees};
ghost use Rattle.cert_text.specs.Steps.{levels_after, step_text, NoNodeIsNext, AreDue, forest_text, IsStepAt};
ghost use Rattle.text_parts.specs.Lines.{IsOfSource, text_of};
ghost use Rattle.plan_text.specs.Taken.{Took};
ghost use Rattle.cert_tree.specs.Trees.{BoxTree};
ghost use Rattle.cert_text.specs.inside.StepReading.{Steps};

use crate::leaf::LeafBuf;
use crate::lines::{read_root, refused_line};
use crate::step::Step;
use std::marker::Model;
use text_parts::Lines;

/// As many levels as a tree's nodes may stand on.
const MOST_LEVELS: u16 = 433;

/// One place for each level, and one for none.
const PLACES: usize = 434;

/// A reader of the nodes of a tree, one after another in preorder. It takes no memory.
#[derive(Drop)]
pub struct NodeReader {
    rows: usize,
    levels: [u16; PLACES],
    next: usize,
}

impl Model for NodeReader {
    ghost use Rattle.std.specs.Prelude.{ℕ, ◌≤◌, drop, slice_index};
    ghost use Rattle.cert_text.specs.Steps.{TreesDue};

    ghost Value = { TreesDue };

    ghost view = { λ r. record { rows = r.rows; levels = drop r.next r.levels } };

    ghost invariant = { λ r. (r.next ≤ 434) × ((k : ℕ) → r.next ≤ k → slice_index r.levels k ≤ k) };
}

impl NodeReader {
    /// A reader of the nodes of one tree over a program of so many rows.
    pub fn over(rows: usize) -> NodeReader
        ensures { result ≡ record { rows = rows; levels = most_levels ∷ [] } }
    {
        NodeReader {
            rows,
            levels: [MOST_LEVELS; PLACES],
            next: PLACES - 1,
        }
    }

    /// The next node, whose lines alone are taken, or `End` where the tree is whole. A leaf's multipliers stand in the buffer,
    /// which stays as it is at a split and at the end. `Err` comes exactly where the tree isn't whole yet and the next lines
    /// aren't a node's or the node stands under more than 432 splits, with the number of the first line that isn't of the form due.
    #[tactic(auto, using(crate::proofs::NextLaws::whole, crate::proofs::NextLaws::found, crate::proofs::NextLaws::only, crate::proofs::NextLaws::exact, crate::proofs::NextMisfits::line_refused))]
    pub fn next(&mut self, lines: &mut Lines, leaf: &mut LeafBuf) -> Result<Step, usize>
        requires rows { self.old.rows ≤ 600 }
        requires room { self.old.rows ≤ leaf.old.room }
        ensures due { Steps self.old.rows self.old.levels lines.old result lines.new leaf.old.mults leaf.new.mults self.new.levels }
        ensures rows { self.new.rows ≡ self.old.rows }
        ensures room { leaf.new.room ≡ leaf.old.room }
        ensures whole { IfOk result (λ step. (step ≡ Step.End) ↔ (self.old.levels ≡ [])) }
        ensures found { IfOk result (λ step. Took lines.old lines.new (step_text step leaf.new.mults)) }
        ensures only { IfErr result (λ _. NoNodeIsNext self.old.rows self.old.levels lines.old) }
        ensures line { IfErr result (λ line. IsMisfitOfTrees self.old.rows self.old.levels lines.old line) }
        ensures exact { (trees : List BoxTree) (rest : List ℕ) → AreDue self.old.rows self.old.levels trees
            → text_of lines.old.left ≡ forest_text trees ++ rest
            → IsOkAnd result (λ step. IsStepAt self.old.rows trees rest step leaf.old.mults leaf.new.mults self.new.levels lines.new) }
    {
        self.take(lines, leaf)
    }

    /// Takes the next node.
    #[tactic(auto, using(crate::proofs::StepLemmas::steps_refused, crate::proofs::StepLemmas::steps_failed, crate::proofs::StepLemmas::steps_taken, crate::proofs::StepLemmas::steps_end))]
    fn take(&mut self, lines: &mut Lines, leaf: &mut LeafBuf) -> Result<Step, usize>
        requires rows { self.old.rows ≤ 600 }
        requires room { self.old.rows ≤ leaf.old.room }
        ensures due { Steps self.old.rows self.old.levels lines.old result lines.new leaf.old.mults leaf.new.mults self.new.levels }
        ensures rows { self.new.rows ≡ self.old.rows }
        ensures room { leaf.new.room ≡ leaf.old.room }
        ensures of_source { (self.old.levels ≡ []) ⊎ IsOfSource lines.old }
    {
        let Some(level) = self.level() else {
            return Ok(Step::End);
        };
        if level == 0 {
            return Err(refused_line(lines));
        }
        let step = read_root(self.rows, lines, &mut leaf.mults)?;
        self.pass(level, &step);
        Ok(step)
    }

    /// Goes on behind a node that was read, to which so many levels were left.
    fn pass(&mut self, level: u16, step: &Step)
        requires due { slice_get self.old.levels 0 ≡ Some level }
        requires some { 0 < level }
        ensures { self.new ≡ record { rows = self.old.rows; levels = levels_after step.now (level - 1) (drop 1 self.old.levels) } }
    {
        match step {
            Step::Split { split: _ } => self.descend(level - 1),
            _ => self.ascend(),
        }
    }

    /// The levels that are left to the next tree, if one is due.
    fn level(&self) -> Option<u16>
        ensures { result ≡ slice_get self.now.levels 0 }
    {
        self.levels.get(self.next).copied()
    }

    /// Goes on to the next tree that is due.
    fn ascend(&mut self)
        requires { 0 < length self.old.levels }
        ensures { self.new ≡ record { rows = self.old.rows; levels = drop 1 self.old.levels } }
    {
        self.next += 1;
    }

    /// Goes on to the two trees below the next one's root, which are left so many levels.
    fn descend(&mut self, level: u16)
        requires { slice_get self.old.levels 0 ≡ Some (level + 1) }
        ensures { self.new ≡ record { rows = self.old.rows; levels = level ∷ level ∷ drop 1 self.old.levels } }
    {
        self.levels[self.next] = level;
        self.next -= 1;
        self.levels[self.next] = level;
    }
}

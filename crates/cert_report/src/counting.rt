// The leaves of a certificate's tree that were left open.
ghost use Rattle.std.specs.Prelude.{◌≡◌, ℕ, List, ◌++◌, ◌+◌, ◌<◌, ◌≤◌, ◌^◌, IfOk, true, length};
ghost use Rattle.text_parts.specs.Lines.{text_of};
ghost use Rattle.cert_tree.specs.Trees.{BoxTree};
ghost use Rattle.cert_text.specs.NodeText.{IsSpelledTree, most_levels, tree_text};
ghost use Rattle.cert_report.specs.CertReport.{open_leaves};
ghost use Rattle.cert_report.specs.inside.Counting.{count_of, with_cause, with_step, IsCountedTo, CountsOn, IsWholeCount};

use cert_text::{LeafBuf, NodeReader, Step};
use cert_tree::Why;
use plan_text::TextErr;
use report::OpenLeaves;
use std::alloc::Global;
use text_parts::Lines;

/// Counts a leaf with this cause.
pub(crate) fn count_cause(cause: Option<Why>, leaves: &mut OpenLeaves)
    requires { count_of leaves.old < 2 ^ 63 }
    ensures counted { leaves.new ≡ with_cause leaves.old cause }
    ensures few { count_of leaves.new ≤ count_of leaves.old + 1 }
{
    match cause {
        Some(Why::Nodes) => leaves.nodes += 1,
        Some(Why::Pivots) => leaves.pivots += 1,
        Some(Why::Width) => leaves.width += 1,
        None => {}
    }
}

/// Counts the node of a step, if it is a leaf that was left open.
fn count_step(step: &Step, leaves: &mut OpenLeaves)
    requires { count_of leaves.old < 2 ^ 63 }
    ensures { leaves.new ≡ with_step leaves.old step.now }
{
    match step {
        Step::Low { scale: _, cause } => count_cause(*cause, leaves),
        Step::Dead | Step::Split { .. } | Step::End => {}
    }
}

/// Counts the next node, whose lines alone are taken; false where no tree is due any more.
fn count_next(
    reader: &mut NodeReader,
    lines: &mut Lines,
    leaf: &mut LeafBuf,
    leaves: &mut OpenLeaves,
) -> Result<bool, TextErr>
    requires rows { reader.old.rows ≤ 600 }
    requires room { reader.old.rows ≤ leaf.old.room }
    requires few { count_of leaves.old ≤ lines.old.number }
    ensures rows { reader.new.rows ≡ reader.old.rows }
    ensures room { leaf.new.room ≡ leaf.old.room }
    ensures few { IfOk result (λ _. count_of leaves.new ≤ lines.new.number) }
    ensures fewer { IfOk result (λ more. more ≡ true → length lines.new.left < length lines.old.left) }
    ensures counts { (rest : List ℕ) (whole : OpenLeaves) → IsCountedTo reader.old.rows reader.old.levels lines.old leaves.old rest whole
        → CountsOn reader.old.rows whole result reader.new.levels lines.new leaves.new rest }
{
    // No more leaves were counted than lines were given.
    let given = lines.number();
    prove!(given < usize::MAX);
    match reader.next(lines, leaf) {
        Ok(Step::End) => Ok(false),
        Ok(step) => {
            count_step(&step, leaves);
            Ok(true)
        }
        Err(line) => Err(TextErr::Bad { line }),
    }
}

/// Reads a tree over so many rows to its end and counts the leaves that were left open.
pub(crate) fn count_open(
    alloc: Global,
    rows: usize,
    lines: &mut Lines,
) -> Result<OpenLeaves, TextErr>
    requires { rows ≤ 600 }
    ensures { (tree : BoxTree) (rest : List ℕ) → IsSpelledTree rows most_levels tree
        → text_of lines.old.left ≡ tree_text tree ++ rest → IsWholeCount result (open_leaves tree) }
{
    let mut leaf = LeafBuf::new(alloc, rows)?;
    let mut reader = NodeReader::over(rows);
    let mut leaves = OpenLeaves {
        nodes: 0,
        pivots: 0,
        width: 0,
    };
    loop {
        if !count_next(&mut reader, lines, &mut leaf, &mut leaves)? {
            return Ok(leaves);
        }
    }
}

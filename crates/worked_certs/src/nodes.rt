// Nodes that are read one at a time. In a text `\n` stands for a line feed.
ghost use Rattle.std.specs.Prelude.{◌≤◌};

use crate::shown;
use cert_text::{LeafBuf, NodeReader, Step};
use milp_builder::Split;
use std::alloc::{AllocError, Global};
use text_parts::Lines;

/// The most rows of a program.
const MOST_ROWS: usize = 600;

/// The most nodes that are read here.
const MOST_NODES: usize = 2_000;

/// What was read of a tree: its nodes, how many there are, and the line that isn't a node's, if there is one.
#[derive(Drop)]
struct Told {
    nodes: String,
    count: usize,
    refused: Option<usize>,
}

/// The nodes of the tree of a text over so many rows, one at a time, to the end or the refused line, and the number of lines taken.
pub(crate) fn nodes(alloc: Global, rest: &str) -> Result<String, AllocError> {
    let (rows, text) = rest.split_once(' ').unwrap_or((rest, ""));
    let text = shown::unescaped(alloc, text)?;
    let told = tell(alloc, shown::number(rows).min(MOST_ROWS), text.as_bytes())?;
    let end = end(alloc, told.refused)?;
    let (nodes, end) = (told.nodes.as_str(), end.as_str());
    format!(in alloc; "{nodes}{end}")
}

/// The number of nodes, to the end or the refused line, of a tree of so many splits, each in the `first` or the `second` part of the one
/// above it; all other parts are dead leaves without multipliers.
pub(crate) fn deep(alloc: Global, rest: &str) -> Result<String, AllocError> {
    let (part, splits) = rest.split_once(' ').unwrap_or((rest, ""));
    let text = chain(alloc, part == "first", shown::number(splits).min(MOST_ROWS))?;
    let told = tell(alloc, 0, text.as_bytes())?;
    let end = end(alloc, told.refused)?;
    let (count, end) = (told.count, end.as_str());
    format!(in alloc; "{count} nodes, {end}")
}

fn end(alloc: Global, refused: Option<usize>) -> Result<String, AllocError> {
    match refused {
        Some(line) => format!(in alloc; "refused at line {line}"),
        None => String::from_str(alloc, "end"),
    }
}

/// The text of a tree of so many splits.
fn chain(alloc: Global, in_first: bool, splits: usize) -> Result<String, AllocError> {
    let mut text = String::new(alloc);
    for _ in 0..splits {
        text.push_str("split removal 1 2\n")?;
        if !in_first {
            text.push_str("dead 0\n")?;
        }
    }
    text.push_str("dead 0\n")?;
    if in_first {
        for _ in 0..splits {
            text.push_str("dead 0\n")?;
        }
    }
    Ok(text)
}

/// Reads the nodes of a tree.
fn tell(alloc: Global, rows: usize, text: &[u8]) -> Result<Told, AllocError>
    requires { rows ≤ 600 }
{
    let mut reader = NodeReader::over(rows);
    let mut leaf = LeafBuf::new(alloc, rows)?;
    let mut lines = Lines::over(text);
    let mut nodes = String::new(alloc);
    let mut count = 0;
    for turn in 0..MOST_NODES {
        count = turn;
        match reader.next(&mut lines, &mut leaf) {
            Ok(Step::End) => break,
            Ok(step) => {
                let node = node_shown(alloc, &step, leaf.mults())?;
                nodes.push_str(node.as_str())?;
            }
            Err(line) => {
                return Ok(Told {
                    nodes,
                    count,
                    refused: Some(line),
                });
            }
        }
    }
    Ok(Told {
        nodes,
        count,
        refused: None,
    })
}

/// A node, a leaf with its multipliers.
fn node_shown(alloc: Global, step: &Step, mults: &[(u32, i128)]) -> Result<String, AllocError> {
    match step {
        Step::Low { scale, cause } => format!(in alloc; "low {scale} {cause:?} {mults:?}, "),
        Step::Dead => format!(in alloc; "dead {mults:?}, "),
        Step::Split { split } => split_shown(alloc, split),
        Step::End => String::from_str(alloc, "end"),
    }
}

fn split_shown(alloc: Global, split: &Split) -> Result<String, AllocError> {
    match split {
        Split::Removal { block, stage } => { format!(in alloc; "block {block} at stage {stage}, ") }
        Split::Height { section, at } => format!(in alloc; "section {section} at {at}, "),
    }
}

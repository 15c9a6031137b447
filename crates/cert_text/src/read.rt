// Reading a whole certificate, node by node.
ghost use Rattle.std.specs.Prelude.{◌≡◌, ◌≤◌, ◌<◌, None, Some, drop, slice_get, IfOk, IfErr};
ghost use Rattle.road_types.specs.Faults.{road_fault};
ghost use Rattle.road_types.specs.RoadPrograms.{row_count};
ghost use Rattle.plan_text.specs.declared.error.TextErr.TheVariants.{NoMemory};
ghost use Rattle.plan_text.specs.Misfits.{IfBad};
ghost use Rattle.cert_tree.specs.Trees.{low, dead, fork, box_tree_of};
ghost use Rattle.cert_text.specs.NodeText.{most_levels};
ghost use Rattle.cert_text.specs.CertText.{Certificate, IsCertText, AreApart};
ghost use Rattle.cert_text.specs.Certs.{ArePaired, certificate_of, priced_of, IsTextOf};
ghost use Rattle.cert_text.specs.Misfits.{refused_line};
ghost use Rattle.cert_text.specs.inside.NodeReading.{tree_due};
ghost use Rattle.cert_text.specs.inside.CertReading.{tree_end_due, cert_of_text};
ghost use Rattle.cert_text.specs.inside.WholeReading.{GivesNode, GivesTree, EndsText, GivesCert};

use crate::cert::Cert;
use crate::heading::{Heading, PricedPlan, read_end, read_heading};
use crate::leaf::LeafBuf;
use crate::nodes::NodeReader;
use crate::step::Step;
use cert_tree::{Tree, Why};
use milp_builder::Split;
use node_box::NodeBox;
use numbers::Frac;
use plan_rules::Plan;
use plan_text::TextErr;
use road_types::{Listed, Road};
use std::alloc::{AllocError, Global};
use text_parts::Lines;

/// The certificate of an accepted road whose text the bytes are, to their last byte. `Bad` comes exactly where they are the text of no
/// certificate of the road, with the number, from 1, of the first line that isn't of the form due at its place or stands behind a whole
/// text, or one more than the last line's where they end too early.
pub fn read_cert(alloc: Global, road: &Road, bytes: &[u8]) -> Result<Cert, TextErr>
    requires { road_fault road.now ≡ None }
    ensures found { IfOk result (IsTextOf road.now bytes.now) }
    ensures only { IfBad result (λ _. (cert : Certificate) → ¬ (IsCertText road.now bytes.now cert)) }
    ensures exact { (cert : Certificate) → IsCertText road.now bytes.now cert
        → IfOk result (λ read. certificate_of read ≡ cert) }
    ensures line { IfBad result (λ line. refused_line road.now bytes.now ≡ Some line) }
    ensures apart { AreApart road.now }
{
    whole(alloc, road, bytes)
}

/// Reads a certificate to the last byte.
#[tactic(auto, using(crate::proofs::ReadLaws::heading_stops, crate::proofs::ReadLaws::tree_stops, crate::proofs::ReadLaws::more_stops, crate::proofs::ReadLaws::all_read))]
fn whole(alloc: Global, road: &Road, bytes: &[u8]) -> Result<Cert, TextErr>
    requires { road_fault road.now ≡ None }
    ensures { GivesCert (cert_of_text road.now bytes.now) result }
{
    let mut lines = Lines::over(bytes);
    let heading = read_heading(alloc, road, bytes, &mut lines)?;
    let tree = match tree_end(alloc, road, &mut lines) {
        Ok(tree) => tree,
        Err(error) => {
            drop(heading);
            return Err(error);
        }
    };
    match read_nothing(&mut lines) {
        Ok(()) => Ok(cert_of(heading, tree)),
        Err(error) => {
            drop(heading);
            drop(tree);
            Err(error)
        }
    }
}

/// What stands before the tree, and the tree.
fn cert_of(heading: Heading, tree: Tree) -> Cert
    ensures states { certificate_of result ≡ record { planned = heading.planned; bound = heading.bound; tree = box_tree_of tree } }
    ensures paired { ArePaired result.plan result.cost }
{
    let Heading { planned, bound } = heading;
    let (plan, cost) = parts_of(planned);
    Cert {
        plan,
        cost,
        bound,
        tree,
    }
}

/// A plan and its cost, apart.
fn parts_of(planned: Option<PricedPlan>) -> (Option<Plan>, Option<Frac>)
    ensures both { priced_of result.0 result.1 ≡ planned }
    ensures paired { ArePaired result.0 result.1 }
{
    match planned {
        Some(PricedPlan { plan, cost }) => (Some(plan), Some(cost)),
        None => (None, None),
    }
}

/// Reads the end of the text: no line is left.
fn read_nothing(lines: &mut Lines) -> Result<(), TextErr>
    ensures { EndsText lines.old result }
{
    if lines.next().is_some() {
        return Err(TextErr::Bad {
            line: lines.number(),
        });
    }
    Ok(())
}

/// Reads the tree and the last line.
#[tactic(auto, unfolding(crate::specs::inside::CertReading::tree_end_due))]
fn tree_end(alloc: Global, road: &Road, lines: &mut Lines) -> Result<Tree, TextErr>
    requires { road_fault road.now ≡ None }
    ensures { GivesTree (tree_end_due road.now lines.old) result lines.new }
{
    let tree = whole_tree(alloc, road, lines)?;
    match read_end(lines) {
        Ok(()) => Ok(tree),
        Err(error) => {
            drop(tree);
            Err(error)
        }
    }
}

/// Reads a tree on as many levels as one may have.
fn whole_tree(alloc: Global, road: &Road, lines: &mut Lines) -> Result<Tree, TextErr>
    requires { road_fault road.now ≡ None }
    ensures { GivesTree (tree_due (row_count road.now) most_levels lines.old) result lines.new }
{
    let rows = road.row_count();
    let mut reader = NodeReader::over(rows);
    let mut leaf = LeafBuf::new(alloc, rows)?;
    tree(alloc, greatest_level(), &mut reader, lines, &mut leaf)
}

/// As many levels as a tree's nodes may stand on.
#[tactic(auto, unfolding(crate::specs::NodeText::most_levels))]
fn greatest_level() -> usize
    ensures { result ≡ most_levels }
{
    433
}

/// Reads the next tree that is due, to which so many levels are left.
fn tree(
    alloc: Global,
    level: usize,
    reader: &mut NodeReader,
    lines: &mut Lines,
    leaf: &mut LeafBuf,
) -> Result<Tree, TextErr>
    requires rows { reader.old.rows ≤ 600 }
    requires room { reader.old.rows ≤ leaf.old.room }
    requires due { slice_get reader.old.levels 0 ≡ Some level }
    ensures tree { GivesTree (tree_due reader.old.rows level lines.old) result lines.new }
    ensures levels { IfOk result (λ _. reader.new.levels ≡ drop 1 reader.old.levels) }
    ensures rows { reader.new.rows ≡ reader.old.rows }
    ensures room { leaf.new.room ≡ leaf.old.room }
{
    let step = next_node(level, reader, lines, leaf)?;
    match step {
        Step::Low { scale, cause } => low_leaf(alloc, scale, cause, leaf),
        Step::Dead => dead_leaf(alloc, leaf),
        Step::Split { split } => {
            let first = tree(alloc, level - 1, reader, lines, leaf)?;
            match tree(alloc, level - 1, reader, lines, leaf) {
                Ok(second) => parted(alloc, split, first, second),
                Err(error) => {
                    drop(first);
                    Err(error)
                }
            }
        }
        Step::End => unreachable!(),
    }
}

/// Reads the next node of a tree that is due, to which so many levels are left.
fn next_node(
    level: usize,
    reader: &mut NodeReader,
    lines: &mut Lines,
    leaf: &mut LeafBuf,
) -> Result<Step, TextErr>
    requires rows { reader.old.rows ≤ 600 }
    requires room { reader.old.rows ≤ leaf.old.room }
    requires due { slice_get reader.old.levels 0 ≡ Some level }
    ensures node { GivesNode reader.old.rows level (drop 1 reader.old.levels) lines.old result lines.new leaf.old.mults leaf.new.mults reader.new.levels }
    ensures rows { reader.new.rows ≡ reader.old.rows }
    ensures room { leaf.new.room ≡ leaf.old.room }
{
    match reader.next(lines, leaf) {
        Ok(step) => Ok(step),
        Err(line) => Err(TextErr::Bad { line }),
    }
}

/// A leaf with a scale, the multipliers in the buffer, and the cause for which it was left open, if it was.
fn low_leaf(alloc: Global, scale: i128, cause: Option<Why>, leaf: &LeafBuf) -> Result<Tree, TextErr>
    ensures made { IfOk result (λ tree. box_tree_of tree ≡ low scale leaf.now.mults cause) }
    ensures wanting { IfErr result (λ error. error ≡ NoMemory) }
{
    let mults = copied(alloc, leaf)?;
    Ok(Tree::Low {
        scale,
        mults,
        cause,
    })
}

/// A leaf that proves its box empty by the multipliers in the buffer.
fn dead_leaf(alloc: Global, leaf: &LeafBuf) -> Result<Tree, TextErr>
    ensures made { IfOk result (λ tree. box_tree_of tree ≡ dead leaf.now.mults) }
    ensures wanting { IfErr result (λ error. error ≡ NoMemory) }
{
    let mults = copied(alloc, leaf)?;
    Ok(Tree::Dead { mults })
}

/// A copy of the multipliers in the buffer.
fn copied(alloc: Global, leaf: &LeafBuf) -> Result<Listed<(u32, i128)>, AllocError>
    ensures { IfOk result (λ mults. mults ≡ leaf.now.mults) }
{
    let mut mults = Vec::new(alloc);
    mults.extend_from_slice(leaf.mults())?;
    Ok(Listed::new(mults))
}

/// Two trees under a split.
fn parted(alloc: Global, split: Split, first: Tree, second: Tree) -> Result<Tree, TextErr>
    ensures made { IfOk result (λ tree. box_tree_of tree ≡ fork split (box_tree_of first) (box_tree_of second)) }
    ensures wanting { IfErr result (λ error. error ≡ NoMemory) }
{
    let first = match NodeBox::new(alloc, first) {
        Ok(first) => first,
        Err(error) => {
            drop(second);
            return Err(error.into());
        }
    };
    match NodeBox::new(alloc, second) {
        Ok(second) => Ok(Tree::Split {
            split,
            first,
            second,
        }),
        Err(error) => {
            drop(first);
            Err(error.into())
        }
    }
}

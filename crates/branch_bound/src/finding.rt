// What a search finds.
ghost use Rattle.std.specs.Prelude.{◌≡◌, [], IfOk, MatchOption, None};
ghost use Rattle.std.specs.List.{All};
ghost use Rattle.numbers.specs.Fractions.{HasValue, IsLowest};
ghost use Rattle.road_types.specs.Faults.{road_fault};
ghost use Rattle.best_first.specs.Keys.{IsKey};
ghost use Rattle.branch_bound.specs.Found.{IsFound};
ghost use Rattle.cert_tree.specs.Trees.{box_tree_of};
ghost use Rattle.branch_bound.specs.Noted.{tree_of, notes_of};
ghost use Rattle.branch_bound.specs.inside.Grown.{grown_of, low_keys, noted_of, AreKeys, IsCostKey};
ghost use Rattle.branch_bound.specs.inside.Least.{IsLeastKey, IsLeastFraction};
ghost use Rattle.branch_bound.specs.inside.Searches.{best_cost, best_plan, IsFinishedSearch};

use crate::best::Best;
use crate::growing::{Finished, Search, grow};
use crate::notes::NodeNote;
use crate::settling::{push_low_keys, settle};
use crate::work::Work;
use best_first::pick;
use cert_text::Cert;
use cert_tree::Tree;
use numbers::Frac;
use plan_rules::Plan;
use road_types::{Listed, Road};
use std::alloc::{AllocError, Global};

/// What a search found: a certificate, its number of nodes, and a note for each of them, in preorder.
#[derive(Debug, Drop)]
pub struct Found {
    /// A plan with its cost or none, a bound or none, and the tree that proves it.
    pub cert: Cert,
    /// The number of nodes of the tree.
    pub count: usize,
    /// The notes: a split's, then those of its first part, then those of its second.
    pub notes: Listed<NodeNote>,
}

/// Splits the box of all plans, best bound first, until the bound meets the cost of the best plan or the road's budget of nodes is
/// spent. The one error is want of memory.
#[tactic(auto, using(crate::proofs::FoundLaw::finished_keys))]
pub fn search(alloc: Global, road: &Road) -> Result<Found, AllocError>
    requires { road_fault road.now ≡ None }
    ensures { IfOk result (IsFound road.now) }
{
    let finished = grow(alloc, road)?;
    match least_bound(alloc, &finished.search.work) {
        Ok(bound) => finish(alloc, road, finished, bound),
        Err(error) => {
            // Dropped by name, which is one step in the proof.
            drop(finished);
            Err(error)
        }
    }
}

/// The certificate and the notes of a search that is finished.
#[tactic(auto, using(crate::proofs::FoundLaw::found_is, crate::proofs::FoundLaw::finished_keys, crate::proofs::FoundLaw::finished_cost))]
fn finish(
    alloc: Global,
    road: &Road,
    finished: Finished,
    bound: Option<Frac>,
) -> Result<Found, AllocError>
    requires accepted { road_fault road.now ≡ None }
    requires finished { IsFinishedSearch road.now finished }
    requires bound { IsLeastKey (grown_of finished.search.work) bound }
    ensures { IfOk result (IsFound road.now) }
{
    let Finished { search, count } = finished;
    let Search { work, best } = search;
    let priced = apart(best);
    match settle_whole(alloc, work, &priced.cost) {
        Ok(settled) => Ok(Found {
            cert: Cert {
                plan: priced.plan,
                cost: priced.cost,
                bound,
                tree: settled.tree,
            },
            count,
            notes: settled.notes,
        }),
        Err(error) => {
            drop(priced);
            Err(error)
        }
    }
}

/// A tree whose leaves are closed or left open, and the notes of its nodes.
#[derive(Drop)]
struct Settled {
    tree: Tree,
    notes: Listed<NodeNote>,
}

/// The tree of a search with its leaves closed or left open, and its notes.
fn settle_whole(alloc: Global, work: Work, cost: &Option<Frac>) -> Result<Settled, AllocError>
    requires keys { AreKeys (grown_of work) }
    requires cost { IsCostKey cost.now }
    ensures tree { IfOk result (λ settled. box_tree_of settled.tree ≡ tree_of (noted_of cost.now (grown_of work))) }
    ensures notes { IfOk result (λ settled. settled.notes ≡ notes_of (noted_of cost.now (grown_of work))) }
{
    let mut notes = Vec::new(alloc);
    let tree = settle(alloc, work, cost, &mut notes)?;
    Ok(Settled {
        tree,
        notes: Listed::new(notes),
    })
}

/// A plan and its cost, or neither.
#[derive(Drop)]
struct Priced {
    plan: Option<Plan>,
    cost: Option<Frac>,
}

fn apart(best: Option<Best>) -> Priced
    ensures plan { result.plan ≡ best_plan best }
    ensures cost { result.cost ≡ best_cost best }
{
    match best {
        None => Priced {
            plan: None,
            cost: None,
        },
        Some(best) => Priced {
            plan: Some(best.plan),
            cost: Some(best.cost),
        },
    }
}

/// The least key of the leaves that aren't dead, as a fraction; `None` where every leaf is dead.
#[tactic(auto, using(crate::proofs::LeastLemmas::least_key_of, crate::proofs::LeastLemmas::low_all_of))]
fn least_bound(alloc: Global, work: &Work) -> Result<Option<Frac>, AllocError>
    requires keys { AreKeys (grown_of work.now) }
    ensures { IfOk result (λ bound. IsLeastKey (grown_of work.now) bound) }
{
    let keys = low_keys_of(alloc, work)?;
    Ok(least_of(keys.as_slice()))
}

/// The keys of the leaves that aren't dead, in preorder.
fn low_keys_of(alloc: Global, work: &Work) -> Result<Vec<(i128, i128)>, AllocError>
    ensures { IfOk result (λ keys. keys.items ≡ low_keys (grown_of work.now)) }
{
    let mut keys = Vec::new(alloc);
    push_low_keys(work, &mut keys)?;
    Ok(keys)
}

/// The least of keys as a fraction, none of none.
#[tactic(auto, using(crate::proofs::LeastLemmas::least_fraction, crate::proofs::LeastLemmas::key_there, crate::proofs::LeastLemmas::no_keys))]
fn least_of(keys: &[(i128, i128)]) -> Option<Frac>
    requires { All IsKey keys.now }
    ensures { MatchOption result (keys.now ≡ []) (λ bound. IsLeastFraction keys.now bound) }
{
    if keys.is_empty() {
        return None;
    }
    let least = pick(keys);
    Some(fraction_of(keys[least]))
}

/// A key as a fraction.
fn fraction_of(key: (i128, i128)) -> Frac
    requires { IsKey key }
    ensures value { HasValue result key.0 key.1 }
    ensures lowest { IsLowest result }
{
    match Frac::new(key.0, key.1) {
        Some(bound) => bound,
        None => unreachable!(),
    }
}

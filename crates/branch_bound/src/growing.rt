// The search.
ghost use Rattle.std.specs.Prelude.{◌≡◌, ◌↔◌, ◌+◌, ◌≤◌, None, IfOk, OnOk, IsTrue, MatchOption, pos};
ghost use Rattle.cert_tree.specs.Soundness.{IsAtLeastBound};
ghost use Rattle.road_types.specs.Faults.{road_fault};
ghost use Rattle.milp_builder.specs.Boxes.{IsBoxOf};
ghost use Rattle.best_first.specs.Keys.{IsKey, IsFirstLeast};
ghost use Rattle.best_first.specs.inside.Covers.{open_keys};
ghost use Rattle.std.specs.List.{All};
ghost use Rattle.branch_bound.specs.inside.Grown.{grown_of, keys_of, node_total, AreKeys, IsCostKey};
ghost use Rattle.branch_bound.specs.inside.Searches.{best_cost, IsBest, IsSolvedBox, AreSolved, IsSearch, IsFinishedSearch, IsNext, IsNextOrNone, IsPartsOf, DoReach};

use crate::best::Best;
use crate::piece_boxes::look_near;
use crate::solving::solve_box;
use crate::walks::{part_leaf, push_keys, waiting_at};
use crate::work::Work;
use best_first::{is_at_most, pick};
use milp_builder::{BoxRange, parts, root_box};
use node_box::NodeBox;
use road_types::Road;
use std::alloc::{AllocError, Global};

/// A search under way: the tree so far, and the best plan that was found.
#[derive(Drop)]
pub struct Search {
    pub work: Work,
    pub best: Option<Best>,
}

/// A search that is finished, and its number of nodes.
#[derive(Drop)]
pub struct Finished {
    pub search: Search,
    pub count: usize,
}

/// Solves both parts of a box: their leaves, each in a place of its own.
fn solve_parts(
    alloc: Global,
    road: &Road,
    first: BoxRange,
    second: BoxRange,
    best: &mut Option<Best>,
) -> Result<(NodeBox<Work>, NodeBox<Work>), AllocError>
    requires accepted { road_fault road.now ≡ None }
    requires first { IsBoxOf road.now first }
    requires second { IsBoxOf road.now second }
    requires best { IsBest road.now best.old }
    ensures { IfOk result (λ leaves. AreSolved road.now best.old first second (record { first = leaves.0; second = leaves.1; best = best.new })) }
{
    let one = solve_part(alloc, road, first, best)?;
    let two = solve_part(alloc, road, second, best)?;
    Ok((one, two))
}

/// Solves a part of a box: its leaf, in a place of its own.
fn solve_part(
    alloc: Global,
    road: &Road,
    range: BoxRange,
    best: &mut Option<Best>,
) -> Result<NodeBox<Work>, AllocError>
    requires accepted { road_fault road.now ≡ None }
    requires fits { IsBoxOf road.now range }
    requires best { IsBest road.now best.old }
    ensures { IfOk result (λ leaf. IsSolvedBox road.now best.old range (record { leaf = leaf; best = best.new })) }
{
    let leaf = solve_box(alloc, road, range, best)?;
    Ok(NodeBox::new(alloc, leaf)?)
}

/// The parts of the waiting leaf that is split next.
#[tactic(auto, using(crate::proofs::SearchLemmas::parts_fit))]
fn parts_at(
    alloc: Global,
    road: &Road,
    search: &Search,
    at: usize,
) -> Result<(BoxRange, BoxRange), AllocError>
    requires accepted { road_fault road.now ≡ None }
    requires search { IsSearch road.now search.now }
    requires few { node_total (grown_of search.now.work) ≤ 4999 }
    requires next { IsNext (grown_of search.now.work) at }
    ensures { IfOk result (λ parts. IsPartsOf road.now (grown_of search.now.work) at parts.0 parts.1) }
{
    let leaf = waiting_at(&search.work, at);
    match parts(alloc, road, &leaf.range, leaf.split)? {
        Some(parts) => Ok(parts),
        None => unreachable!(),
    }
}

/// Splits the waiting leaf that is next.
fn expand(alloc: Global, road: &Road, search: &mut Search, at: usize) -> Result<(), AllocError>
    requires accepted { road_fault road.now ≡ None }
    requires search { IsSearch road.now search.old }
    requires few { node_total (grown_of search.old.work) ≤ 4999 }
    requires next { IsNext (grown_of search.old.work) at }
    ensures search { OnOk result (IsSearch road.now search.new) }
    ensures nodes { OnOk result (node_total (grown_of search.new.work) ≡ node_total (grown_of search.old.work) + 2) }
{
    let (first, second) = parts_at(alloc, road, search, at)?;
    let (one, two) = solve_parts(alloc, road, first, second, &mut search.best)?;
    part_leaf(alloc, &mut search.work, at, one, two);
    Ok(())
}

/// A search that has begun: the box of all plans, solved.
fn begin(alloc: Global, road: &Road) -> Result<Search, AllocError>
    requires accepted { road_fault road.now ≡ None }
    ensures search { IfOk result (λ search. IsSearch road.now search) }
    ensures nodes { IfOk result (λ search. node_total (grown_of search.work) ≡ 1) }
{
    let range = root_box(alloc, road)?;
    let mut best = None;
    match solve_box(alloc, road, range, &mut best) {
        Ok(work) => Ok(Search { work, best }),
        Err(error) => {
            drop(best);
            Err(error)
        }
    }
}

/// A search that is finished.
pub(crate) fn grow(alloc: Global, road: &Road) -> Result<Finished, AllocError>
    requires accepted { road_fault road.now ≡ None }
    ensures { IfOk result (λ finished. IsFinishedSearch road.now finished) }
{
    let search = begin(alloc, road)?;
    grow_whole(alloc, road, search)
}

/// A search that has begun, once it is finished.
fn grow_whole(alloc: Global, road: &Road, mut search: Search) -> Result<Finished, AllocError>
    requires accepted { road_fault road.now ≡ None }
    requires search { IsSearch road.now search }
    requires begun { node_total (grown_of search.work) ≡ 1 }
    ensures { IfOk result (λ finished. IsFinishedSearch road.now finished) }
{
    match grow_on(alloc, road, &mut search) {
        Ok(count) => Ok(Finished { search, count }),
        Err(error) => {
            // Dropped by name, which is one step in the proof.
            drop(search);
            Err(error)
        }
    }
}

/// Grows a search that has begun until no two more nodes may be made, or each waiting leaf's bound reaches the cost of the best
/// plan; gives its number of nodes.
#[tactic(auto, using(crate::proofs::SearchLemmas::finished_budget, crate::proofs::SearchLemmas::finished_reach, crate::proofs::SearchLemmas::search_keys, crate::proofs::SearchLemmas::search_cost))]
fn grow_on(alloc: Global, road: &Road, search: &mut Search) -> Result<usize, AllocError>
    requires accepted { road_fault road.now ≡ None }
    requires search { IsSearch road.now search.old }
    requires begun { node_total (grown_of search.old.work) ≡ 1 }
    ensures { IfOk result (λ count. IsFinishedSearch road.now (record { search = search.new; count = count })) }
{
    let mut count = 1;
    let most = node_budget(road);
    while count + 2 <= most {
        look_for_plans(alloc, road, search, count)?;
        let Some(at) = next_leaf(alloc, search)? else {
            return Ok(count);
        };
        expand(alloc, road, search, at)?;
        count += 2;
    }
    Ok(count)
}

/// Looks for plans near the optimum of the leaf that is split next, where the number of nodes says so.
#[tactic(auto, using(crate::proofs::SearchLemmas::search_keys, crate::proofs::SearchLemmas::search_cost))]
fn look_for_plans(
    alloc: Global,
    road: &Road,
    search: &mut Search,
    count: usize,
) -> Result<(), AllocError>
    requires accepted { road_fault road.now ≡ None }
    requires search { IsSearch road.now search.old }
    requires few { node_total (grown_of search.old.work) ≤ 4999 }
    ensures search { OnOk result (IsSearch road.now search.new) }
    ensures work { OnOk result (grown_of search.new.work ≡ grown_of search.old.work) }
{
    if !is_time_for_plans(count) {
        return Ok(());
    }
    match next_leaf(alloc, search)? {
        Some(at) => look_near(alloc, road, waiting_at(&search.work, at), &mut search.best),
        None => Ok(()),
    }
}

/// Whether plans are looked for at a number of nodes: at the root, at 7 nodes, and at every 64th.
fn is_time_for_plans(count: usize) -> bool {
    count == 1 || count == 7 || count % 64 == 1
}

/// The greatest number of nodes.
#[tactic(auto, using(crate::proofs::BudgetLemmas::nodes_value, crate::proofs::BudgetLemmas::nodes_few))]
fn node_budget(road: &Road) -> usize
    requires { road_fault road.now ≡ None }
    ensures value { pos result ≡ road.now.nodes }
    ensures few { result ≤ 4999 }
{
    road.nodes.unsigned_abs() as usize
}

/// The waiting leaf of least key, or none where each waiting leaf's bound reaches the cost of the best plan.
#[tactic(auto, using(crate::proofs::NextLemmas::next_or_none, crate::proofs::NextLemmas::open_all_of))]
fn next_leaf(alloc: Global, search: &Search) -> Result<Option<usize>, AllocError>
    requires keys { AreKeys (grown_of search.now.work) }
    requires cost { IsCostKey (best_cost search.now.best) }
    ensures { IfOk result (λ next. IsNextOrNone (best_cost search.now.best) (grown_of search.now.work) next) }
{
    let keys = waiting_keys(alloc, &search.work)?;
    Ok(next_of(keys.as_slice(), &search.best))
}

/// The keys of the waiting leaves, in preorder.
fn waiting_keys(alloc: Global, work: &Work) -> Result<Vec<(i128, i128)>, AllocError>
    ensures { IfOk result (λ keys. keys.items ≡ open_keys (keys_of (grown_of work.now))) }
{
    let mut keys = Vec::new(alloc);
    push_keys(work, &mut keys)?;
    Ok(keys)
}

/// The first least of keys, or none where each of them reaches the cost of the best plan.
#[tactic(auto, using(crate::proofs::NextLemmas::none_reach, crate::proofs::NextLemmas::least_reach))]
fn next_of(keys: &[(i128, i128)], best: &Option<Best>) -> Option<usize>
    requires keys { All IsKey keys.now }
    requires cost { IsCostKey (best_cost best.now) }
    ensures { MatchOption result (DoReach (best_cost best.now) keys.now) (λ at. IsFirstLeast keys.now at) }
{
    if keys.is_empty() {
        return None;
    }
    let least = pick(keys);
    if is_reached(best, keys[least]) {
        return None;
    }
    Some(least)
}

/// Whether a key reaches the cost of the best plan; without a plan none does.
fn is_reached(best: &Option<Best>, key: (i128, i128)) -> bool
    requires key { IsKey key }
    requires cost { IsCostKey (best_cost best.now) }
    ensures { IsTrue result ↔ IsAtLeastBound key.0 key.1 (best_cost best.now) }
{
    match best {
        None => false,
        Some(best) => is_at_most((best.cost.num(), best.cost.den()), key),
    }
}

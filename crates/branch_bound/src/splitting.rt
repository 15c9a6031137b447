// At which breakpoint a section is split: the one strictly inside its range that scores best.
ghost use Rattle.std.specs.Prelude.{◌≡◌, ◌↔◌, ◌⊎◌, Option, Some, IsTrue, MatchOption, FitsSigned, neg_ℤ, ◌<ℤ◌};
ghost use Rattle.std.specs.Int.{w64, w128};
ghost use Rattle.road_types.specs.WellFormed.{IsSlabTable};
ghost use Rattle.volume_lines.specs.InnerBreakpoints.{HasBreakpointInside};
ghost use Rattle.volume_lines.specs.SlabTables.{HasSlabTables};
ghost use Rattle.branch_bound.specs.inside.Splitting.{IsInnerBreakpoint, IsInnerThickness, HasNoInnerThickness};

use crate::scores::{Place, score};
use milp_builder::is_breakpoint;
use road_types::{Section, Slab};

/// A breakpoint and its score.
#[derive(Clone, Copy)]
pub struct Ranked {
    pub at: i64,
    pub score: i128,
}

/// The split of a section's heights at an offset, and its score.
#[derive(Clone, Copy)]
pub struct Candidate {
    pub section: usize,
    pub at: i64,
    pub score: i128,
}

/// The split that scores higher, the one before where both score alike.
pub(crate) fn better_of(next: Candidate, best: Option<Candidate>) -> Candidate
    ensures { (result ≡ next) ⊎ (Some result ≡ best) }
{
    match best {
        Some(before) => {
            if next.score > before.score {
                next
            } else {
                before
            }
        }
        None => next,
    }
}

/// The breakpoint strictly inside a range of offsets that scores best for a place.
pub(crate) fn best_breakpoint(section: &Section, range: (i64, i64), place: Place) -> Option<Ranked>
    requires { HasSlabTables section.now }
    ensures { MatchOption result (HasBreakpointInside section.now range → ⊥) (λ best. IsInnerBreakpoint section.now range best.at) }
{
    match inner_breakpoint(section, range) {
        Some(at) => Some(best_from(section, range, place, at)),
        None => None,
    }
}

/// The best of a breakpoint inside a range and all others.
fn best_from(section: &Section, range: (i64, i64), place: Place, at: i64) -> Ranked
    requires tables { HasSlabTables section.now }
    requires inside { IsInnerBreakpoint section.now range at }
    ensures { IsInnerBreakpoint section.now range result.at }
{
    let first = Ranked {
        at,
        score: score(section, range, at, place),
    };
    best_fill(
        section,
        range,
        place,
        best_cut(section, range, place, first),
    )
}

/// The best of a breakpoint inside a range and those below the ground.
fn best_cut(section: &Section, range: (i64, i64), place: Place, first: Ranked) -> Ranked
    requires tables { HasSlabTables section.now }
    requires inside { IsInnerBreakpoint section.now range first.at }
    ensures { IsInnerBreakpoint section.now range result.at }
{
    let mut best = first;
    let mut offset = 0i64;
    for slab in section.cut.as_slice() {
        offset = offset.saturating_sub(slab.thick);
        best = better_at(section, range, place, best, offset);
    }
    best
}

/// The best of a breakpoint inside a range and those above the ground.
fn best_fill(section: &Section, range: (i64, i64), place: Place, first: Ranked) -> Ranked
    requires tables { HasSlabTables section.now }
    requires inside { IsInnerBreakpoint section.now range first.at }
    ensures { IsInnerBreakpoint section.now range result.at }
{
    let mut best = first;
    let mut offset = 0i64;
    for slab in section.fill.as_slice() {
        offset = offset.saturating_add(slab.thick);
        best = better_at(section, range, place, best, offset);
    }
    best
}

/// The better of a breakpoint inside a range and an offset, where that is one too.
fn better_at(
    section: &Section,
    range: (i64, i64),
    place: Place,
    best: Ranked,
    offset: i64,
) -> Ranked
    requires tables { HasSlabTables section.now }
    requires inside { IsInnerBreakpoint section.now range best.at }
    ensures { IsInnerBreakpoint section.now range result.at }
{
    if !is_inner_breakpoint(section, range, offset) {
        return best;
    }
    let next = score(section, range, offset, place);
    if next > best.score {
        return Ranked {
            at: offset,
            score: next,
        };
    }
    best
}

/// Whether an offset is a breakpoint of a section strictly inside a range.
fn is_inner_breakpoint(section: &Section, range: (i64, i64), offset: i64) -> bool
    requires { HasSlabTables section.now }
    ensures { IsTrue result ↔ IsInnerBreakpoint section.now range offset }
{
    range.0 < offset && offset < range.1 && is_breakpoint(section, offset)
}

/// A breakpoint of a section strictly inside a range of offsets: 0 where it lies there, else the one nearest to the ground.
pub(crate) fn inner_breakpoint(section: &Section, range: (i64, i64)) -> Option<i64>
    requires { HasSlabTables section.now }
    ensures { MatchOption result (HasBreakpointInside section.now range → ⊥) (λ at. IsInnerBreakpoint section.now range at) }
{
    match inner_offset(section, i128::from(range.0), i128::from(range.1)) {
        Some(at) => Some(narrow(at)),
        None => None,
    }
}

/// A number of 64 bits.
fn narrow(x: i128) -> i64
    requires { FitsSigned w64 x }
    ensures { result ≡ x }
{
    x as i64
}

/// A breakpoint of a section strictly between two offsets: 0 where it lies there, else the one nearest to the ground.
#[tactic(auto, using(crate::proofs::SplittingLemmas::zero_inside, crate::proofs::SplittingLemmas::fill_inside, crate::proofs::SplittingLemmas::cut_inside, crate::proofs::SplittingLemmas::none_inside))]
fn inner_offset(section: &Section, low: i128, high: i128) -> Option<i128>
    requires tables { HasSlabTables section.now }
    requires low { FitsSigned w64 low }
    requires high { FitsSigned w64 high }
    ensures { MatchOption result (HasBreakpointInside section.now (low, high) → ⊥) (λ at. IsInnerBreakpoint section.now (low, high) at) }
{
    if is_between(low, 0, high) {
        return Some(0);
    }
    if let Some(thickness) = inner_thickness(section.fill.as_slice(), low, high) {
        return Some(thickness);
    }
    if let Some(thickness) = inner_thickness(section.cut.as_slice(), turned(high), turned(low)) {
        return Some(turned(thickness));
    }
    None
}

/// The opposite of a number.
fn turned(x: i128) -> i128
    requires { FitsSigned w128 (neg_ℤ x) }
    ensures { result ≡ neg_ℤ x }
{
    -x
}

/// The least thickness of the first slabs, for some number of them, strictly between two numbers.
fn inner_thickness(slabs: &[Slab], low: i128, high: i128) -> Option<i128>
    requires { IsSlabTable slabs.now }
    ensures { MatchOption result (HasNoInnerThickness slabs.now low high) (λ thickness. IsInnerThickness slabs.now low high thickness) }
{
    let mut depth: i128 = 0;
    for slab in slabs {
        if is_between(low, depth, high) {
            return Some(depth);
        }
        depth += i128::from(slab.thick);
    }
    if is_between(low, depth, high) {
        return Some(depth);
    }
    None
}

/// Whether a number lies strictly between two others.
fn is_between(low: i128, x: i128, high: i128) -> bool
    ensures { IsTrue result ↔ ((low <ℤ x) × (x <ℤ high)) }
{
    low < x && x < high
}

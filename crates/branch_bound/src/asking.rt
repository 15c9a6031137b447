// The split for which the optimum of a box's program asks.
ghost use Rattle.std.specs.Prelude.{◌≡◌, ◌↔◌, None, IsTrue, MatchOption, length, ◌+◌, ◌<◌, pos, ◌≤ℤ◌};
ghost use Rattle.programs.specs.Points.{IsPoint};
ghost use Rattle.road_types.specs.Faults.{road_fault};
ghost use Rattle.road_types.specs.Numbered.{IsNumber};
ghost use Rattle.road_types.specs.WellFormed.{IsWellFormed};
ghost use Rattle.road_types.specs.Ranges.{height_range};
ghost use Rattle.road_types.specs.Road.{section, section_count};
ghost use Rattle.road_points.specs.Shown.{HasWholeRemovals, IsExactAt, HasExactVolumes};
ghost use Rattle.volume_lines.specs.InnerBreakpoints.{HasBreakpointInside};
ghost use Rattle.volume_lines.specs.SlabTables.{HasSlabTables};
ghost use Rattle.milp_builder.specs.Boxes.{IsBoxOf};
ghost use Rattle.milp_builder.specs.BoxPrograms.{box_program};
ghost use Rattle.milp_builder.specs.FoundPlans.{IsOtherVolume};
ghost use Rattle.branch_bound.specs.inside.Asking.{IsAsked, AsksForNothing};
ghost use Rattle.branch_bound.specs.inside.Splitting.{IsInnerBreakpoint, IsAskedHeight, IsBestOf};

use crate::scores::{Place, rounded};
use crate::splitting::{Candidate, Ranked, best_breakpoint, better_of};
use milp_builder::{BoxRange, Split, part_removal, shown};
use road_types::{Column, Road};
use wide_volumes::{is_exact_at, moved_volume};

/// The split for which a point asks: that of a removal, and else that of a section's heights. Where there is none, removals are
/// whole and volumes exact.
pub(crate) fn asked_split(road: &Road, range: &BoxRange, den: i128, point: &[i128]) -> Option<Split>
    requires accepted { road_fault road.now ≡ None }
    requires fits { IsBoxOf road.now range.now }
    requires den { pos 1 ≤ℤ den }
    requires point { IsPoint (box_program road.now range.now) den point.now }
    ensures { MatchOption result (AsksForNothing road.now den point.now) (λ split. IsAsked road.now range.now den point.now split) }
{
    if let Some(split) = removal_split(road, range, den, point) {
        return Some(split);
    }
    match height_split(road, range, den, point) {
        Some(split) => Some(split),
        None => None,
    }
}

/// The split of the first removal that is neither done nor undone.
#[tactic(auto, using(crate::proofs::AskingLemmas::well_formed_of, crate::proofs::AskingLemmas::removal_is_asked))]
fn removal_split(road: &Road, range: &BoxRange, den: i128, point: &[i128]) -> Option<Split>
    requires accepted { road_fault road.now ≡ None }
    requires fits { IsBoxOf road.now range.now }
    requires den { pos 1 ≤ℤ den }
    requires point { IsPoint (box_program road.now range.now) den point.now }
    ensures { MatchOption result (HasWholeRemovals road.now den point.now) (λ split. IsAsked road.now range.now den point.now split) }
{
    match part_removal(road, den, point) {
        Some((block, stage)) => Some(Split::Removal { block, stage }),
        None => None,
    }
}

/// The split that scores best of all sections whose volume isn't that of their offset, and all breakpoints strictly inside their
/// ranges.
#[tactic(auto, using(crate::proofs::AskingLemmas::best_is_asked))]
fn height_split(road: &Road, range: &BoxRange, den: i128, point: &[i128]) -> Option<Split>
    requires accepted { road_fault road.now ≡ None }
    requires fits { IsBoxOf road.now range.now }
    requires den { pos 1 ≤ℤ den }
    requires point { IsPoint (box_program road.now range.now) den point.now }
    ensures { MatchOption result (HasExactVolumes road.now den point.now) (λ split. IsAsked road.now range.now den point.now split) }
{
    match best_height(road, range, den, point) {
        Some(best) => Some(Split::Height {
            section: best.section,
            at: best.at,
        }),
        None => None,
    }
}

/// The best of the splits of heights for which a point asks.
#[tactic(auto, using(crate::proofs::AskingLemmas::well_formed_of, crate::proofs::AskingLemmas::none_best, crate::proofs::AskingLemmas::best_of_all))]
fn best_height(road: &Road, range: &BoxRange, den: i128, point: &[i128]) -> Option<Candidate>
    requires accepted { road_fault road.now ≡ None }
    requires fits { IsBoxOf road.now range.now }
    requires den { pos 1 ≤ℤ den }
    requires point { IsPoint (box_program road.now range.now) den point.now }
    ensures { MatchOption result (HasExactVolumes road.now den point.now) (λ best. IsAskedHeight road.now range.now den point.now best) }
{
    let mut best = None;
    for before in 0..road.sections.len() {
        best = best_with(road, range, den, point, best, before);
    }
    best
}

/// The better of the best split so far and that of the next section, if the point asks for one.
#[tactic(auto, using(crate::proofs::AskingLemmas::next_number, crate::proofs::AskingLemmas::other_at, crate::proofs::AskingLemmas::best_kept, crate::proofs::AskingLemmas::best_next))]
fn best_with(
    road: &Road,
    range: &BoxRange,
    den: i128,
    point: &[i128],
    best: Option<Candidate>,
    before: usize,
) -> Option<Candidate>
    requires well_formed { IsWellFormed road.now }
    requires accepted { road_fault road.now ≡ None }
    requires fits { IsBoxOf road.now range.now }
    requires den { pos 1 ≤ℤ den }
    requires point { IsPoint (box_program road.now range.now) den point.now }
    requires before { before < section_count road.now }
    requires best { IsBestOf road.now range.now den point.now before best }
    ensures { IsBestOf road.now range.now den point.now (before + 1) result }
{
    if is_exact(road, range, den, point, before + 1) {
        return best;
    }
    Some(better_of(candidate_at(road, range, den, point, before + 1), best))
}

/// Whether a section is filled and cut as its offset asks.
#[tactic(auto, using(crate::proofs::AskingLemmas::well_formed_of))]
fn is_exact(road: &Road, range: &BoxRange, den: i128, point: &[i128], number: usize) -> bool
    requires accepted { road_fault road.now ≡ None }
    requires fits { IsBoxOf road.now range.now }
    requires den { pos 1 ≤ℤ den }
    requires point { IsPoint (box_program road.now range.now) den point.now }
    requires number { IsNumber number (section_count road.now) }
    ensures { IsTrue result ↔ IsExactAt road.now den point.now number }
{
    is_exact_at(road, den, point, number)
}

/// The best split of a section whose volume isn't that of its offset.
#[tactic(auto, using(crate::proofs::AskingLemmas::tables_at, crate::proofs::AskingLemmas::inside_at, crate::proofs::AskingLemmas::section_number, crate::proofs::AskingLemmas::height_number))]
fn candidate_at(
    road: &Road,
    range: &BoxRange,
    den: i128,
    point: &[i128],
    number: usize,
) -> Candidate
    requires accepted { road_fault road.now ≡ None }
    requires fits { IsBoxOf road.now range.now }
    requires den { pos 1 ≤ℤ den }
    requires point { IsPoint (box_program road.now range.now) den point.now }
    requires other { IsOtherVolume road.now den point.now number }
    ensures { IsAskedHeight road.now range.now den point.now result }
{
    let place = place_at(road, range, den, point, number);
    let best = breakpoint_at(road, range, number, place);
    Candidate {
        section: number,
        at: best.at,
        score: best.score,
    }
}

/// About where a point shows a section: a score alone rests on it.
#[tactic(auto, using(crate::proofs::AskingLemmas::well_formed_of))]
fn place_at(road: &Road, range: &BoxRange, den: i128, point: &[i128], number: usize) -> Place
    requires accepted { road_fault road.now ≡ None }
    requires fits { IsBoxOf road.now range.now }
    requires den { pos 1 ≤ℤ den }
    requires point { IsPoint (box_program road.now range.now) den point.now }
{
    let moved = moved_volume(road, point, number).narrow();
    rounded(
        shown(road, point, Column::Offset { section: number }),
        moved.unwrap_or(i128::MAX),
        den,
    )
}

/// The breakpoint at which a section with one strictly inside its range is split.
fn breakpoint_at(road: &Road, range: &BoxRange, number: usize, place: Place) -> Ranked
    requires number { IsNumber number (section_count road.now) }
    requires ranges { IsNumber number (length range.now.heights) }
    requires tables { HasSlabTables (section road.now number) }
    requires inside { HasBreakpointInside (section road.now number) (height_range range.now.heights number) }
    ensures { IsInnerBreakpoint (section road.now number) (height_range range.now.heights number) result.at }
{
    match best_breakpoint(road.section(number), height_range(range, number), place) {
        Some(best) => best,
        None => unreachable!(),
    }
}

/// The range of offsets of a section.
#[tactic(auto, using(crate::proofs::AskingLemmas::range_at))]
pub(crate) fn height_range(range: &BoxRange, number: usize) -> (i64, i64)
    requires { IsNumber number (length range.now.heights) }
    ensures { result ≡ height_range range.now.heights number }
{
    range.heights.as_slice()[number - 1]
}

// Numbers of entries, and budgets.
ghost use Rattle.std.specs.Prelude.{◌≡◌};
ghost use Rattle.std.specs.List.{list_all};
ghost use Rattle.road_types.specs.RecordFaults.{has_few_slabs, stretch_counts_hold, counts_hold, budgets_hold};

use crate::ranges::is_between;
use crate::{Road, Section};

fn has_few_slabs(s: &Section) -> bool
    ensures { result ≡ has_few_slabs s.now }
{
    s.cut.len() <= 4 && s.fill.len() <= 4
}

fn have_few_slabs(sections: &[Section]) -> bool
    ensures { result ≡ list_all has_few_slabs sections.now }
{
    sections.iter().all(has_few_slabs)
}

fn stretch_counts_hold(road: &Road) -> bool
    ensures { result ≡ stretch_counts_hold road.now }
{
    1 <= road.sections.len()
        && road.sections.len() <= 60
        && road.knots.len() <= 9
        && have_few_slabs(road.sections.as_slice())
        && road.hops.len() == road.sections.len() - 1
}

/// Whether every list has a number of entries within its limit, the hops one less than the sections.
#[tactic(auto, unfolding(crate::specs::RecordFaults::counts_hold))]
pub(super) fn counts_hold(road: &Road) -> bool
    ensures { result ≡ counts_hold road.now }
{
    stretch_counts_hold(road)
        && road.pits.len() <= 8
        && road.roads.len() <= 16
        && road.fixed.len() <= 20
        && road.blocks.len() <= 4
}

/// Whether both budgets are within their ranges.
#[tactic(auto, unfolding(crate::specs::RecordFaults::budgets_hold))]
pub(super) fn budgets_hold(road: &Road) -> bool
    ensures { result ≡ budgets_hold road.now }
{
    is_between(1, 4999, road.nodes) && is_between(1, 20_000, road.pivots)
}

// Numbers that rise, lows below highs, and stations between the first and the last knot.
ghost use Rattle.std.specs.Prelude.{◌≡◌, int_lt};
ghost use Rattle.std.specs.List.{list_all};
ghost use Rattle.road_types.specs.RecordFaults.{rises, comes_before, stations_rise, first_of, last_of, is_on_knots, sections_on_knots, knots_hold, low_holds, lows_hold};

use crate::ranges::is_between;
use crate::{Fixed, Road, Section};

fn is_less(x: &i64, y: &i64) -> bool
    ensures { result ≡ int_lt x.now y.now }
{
    *x < *y
}

fn comes_before(s: &Section, t: &Section) -> bool
    ensures { result ≡ comes_before s.now t.now }
{
    s.station < t.station
}

/// Whether numbers rise strictly.
fn rises(xs: &[i64]) -> bool
    ensures { result ≡ rises xs.now }
{
    for i in 1..xs.len() {
        if !is_less(&xs[i - 1], &xs[i]) {
            return false;
        }
    }
    true
}

/// Whether the stations of sections rise strictly.
pub(super) fn stations_rise(sections: &[Section]) -> bool
    ensures { result ≡ stations_rise sections.now }
{
    for i in 1..sections.len() {
        if !comes_before(&sections[i - 1], &sections[i]) {
            return false;
        }
    }
    true
}

fn first_of(xs: &[i64]) -> i64
    ensures { result ≡ first_of xs.now }
{
    if xs.is_empty() { 0 } else { xs[0] }
}

fn last_of(xs: &[i64]) -> i64
    ensures { result ≡ last_of xs.now }
{
    if xs.is_empty() { 0 } else { xs[xs.len() - 1] }
}

/// Whether a station lies between the first and the last knot.
pub(super) fn is_on_knots(knots: &[i64], x: i64) -> bool
    ensures { result ≡ is_on_knots knots.now x }
{
    is_between(first_of(knots), last_of(knots), x)
}

fn sections_on_knots(knots: &[i64], sections: &[Section]) -> bool
    ensures { result ≡ sections_on_knots knots.now sections.now }
{
    sections.iter().all(|s| is_on_knots(knots, s.station))
}

/// Whether there are two knots or more, which rise, with the sections between the first and the last.
#[tactic(auto, unfolding(crate::specs::RecordFaults::knots_hold))]
pub(super) fn knots_hold(road: &Road) -> bool
    ensures { result ≡ knots_hold road.now }
{
    2 <= road.knots.len()
        && rises(road.knots.as_slice())
        && sections_on_knots(road.knots.as_slice(), road.sections.as_slice())
}

fn low_points_hold(points: &[Fixed]) -> bool
    ensures { result ≡ list_all low_holds points.now }
{
    points.iter().all(|f| f.low <= f.high)
}

/// Whether no low is above its high.
#[tactic(auto, unfolding(crate::specs::RecordFaults::lows_hold))]
pub(super) fn lows_hold(road: &Road) -> bool
    ensures { result ≡ lows_hold road.now }
{
    road.low <= road.high && road.grade.0 <= road.grade.1 && low_points_hold(road.fixed.as_slice())
}

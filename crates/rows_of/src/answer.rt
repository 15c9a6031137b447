// Which calls a line asks for.
ghost use Rattle.std.specs.Prelude.{◌≡◌, None};
ghost use Rattle.road_types.specs.Faults.{road_fault};
ghost use Rattle.milp_builder.specs.Boxes.{IsBoxOf};

use crate::{families, multipliers, plans, printing, repeats};
use milp_builder::BoxRange;
use named_boxes::{box_of, road_of};
use road_types::Road;
use std::alloc::AllocError;

/// What is printed of a line such as `road.toml;rows;height 3 0 second`.
pub(crate) fn answer(rt: &HostRuntime, line: &str) -> Result<String, AllocError> {
    if let Some(numbers) = line.strip_prefix("narrow ") {
        return multipliers::narrow_text(rt.alloc(), numbers);
    }
    let (name, rest) = line.split_once(';').unwrap_or((line, ""));
    match road_of(rt, name)? {
        Some(road) => answer_on(rt, &road, rest),
        None => String::from_str(rt.alloc(), "no road"),
    }
}

/// What is printed of a road: what is asked, and behind it the splits that lead to the box.
fn answer_on(rt: &HostRuntime, road: &Road, rest: &str) -> Result<String, AllocError>
    requires { road_fault road.now ≡ None }
{
    let (asked, splits) = rest.split_once(';').unwrap_or((rest, ""));
    match box_of(rt.alloc(), road, splits)? {
        Some(range) => answer_of(rt, road, &range, asked),
        None => String::from_str(rt.alloc(), "no box"),
    }
}

/// What is printed of a box of a road: the first word names the calls, and what follows is theirs.
fn answer_of(
    rt: &HostRuntime,
    road: &Road,
    range: &BoxRange,
    asked: &str,
) -> Result<String, AllocError>
    requires accepted { road_fault road.now ≡ None }
    requires fits { IsBoxOf road.now range.now }
{
    let alloc = rt.alloc();
    let (word, rest) = asked.split_once(' ').unwrap_or((asked, ""));
    match word {
        "rows" => printing::rows_text(alloc, road, range),
        "counts" => printing::counts_text(alloc, road, range),
        "families" => families::families_text(alloc, road, range),
        "ranges" => printing::ranges_text(alloc, range),
        "point" => plans::point_text(rt, road, range, rest),
        "plan" => plans::plan_text(alloc, road, range, rest),
        "value" => multipliers::value_text(alloc, road, range, rest),
        "ascend" => multipliers::ascend_text(alloc, road, range, rest),
        "builds" => repeats::builds_text(alloc, road, range, rest),
        "values" => repeats::values_text(alloc, road, range, rest),
        _ => String::from_str(alloc, "no such calls"),
    }
}

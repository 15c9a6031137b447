// What a line asks for.
ghost use Rattle.std.specs.Prelude.{◌≡◌, None};
ghost use Rattle.road_types.specs.Faults.{road_fault};
ghost use Rattle.milp_builder.specs.Boxes.{IsBoxOf};

use crate::ends::{end_in, end_in_either};
use crate::thousand::Thousand;
use milp_builder::{BoxRange, build};
use named_boxes::{box_of, road_of};
use numbers::{W64, W128};
use road_types::Road;
use simplex::Lp;
use std::alloc::{AllocError, Global};

/// What is printed of a line such as `road.toml;64/128 300;height 3 0 second`.
pub(crate) fn answer(rt: &HostRuntime, line: &str) -> Result<String, AllocError> {
    let alloc = rt.alloc();
    let (name, rest) = line.split_once(';').unwrap_or((line, ""));
    match road_of(rt, name)? {
        Some(road) => answer_on(alloc, &road, rest),
        None => String::from_str(alloc, "no road"),
    }
}

/// What is printed of a road.
fn answer_on(alloc: Global, road: &Road, rest: &str) -> Result<String, AllocError>
    requires { road_fault road.now ≡ None }
{
    let (asked, splits) = rest.split_once(';').unwrap_or((rest, ""));
    match box_of(alloc, road, splits)? {
        Some(range) => answer_in(alloc, road, &range, asked),
        None => String::from_str(alloc, "no box"),
    }
}

/// What is printed of a box of a road.
fn answer_in(
    alloc: Global,
    road: &Road,
    range: &BoxRange,
    asked: &str,
) -> Result<String, AllocError>
    requires accepted { road_fault road.now ≡ None }
    requires fits { IsBoxOf road.now range.now }
{
    let milp = build(alloc, road, range)?;
    end_text(alloc, &Lp { milp: &milp }, asked)
}

/// How a program ends: a range of numbers, a budget, and how the end is told.
fn end_text(alloc: Global, lp: &Lp, asked: &str) -> Result<String, AllocError> {
    let (width, rest) = asked.split_once(' ').unwrap_or((asked, ""));
    let (budget, how) = rest.split_once(' ').unwrap_or((rest, ""));
    let budget = budget.parse::<u32>().unwrap_or(1).max(1);
    match width {
        "64" => end_in::<W64>(alloc, lp, budget, how),
        "128" => end_in::<W128>(alloc, lp, budget, how),
        "1000" => end_in::<Thousand>(alloc, lp, budget, how),
        "64/128" => end_in_either::<W64, W128>(alloc, lp, budget, how),
        "1000/128" => end_in_either::<Thousand, W128>(alloc, lp, budget, how),
        _ => String::from_str(alloc, "no such range"),
    }
}

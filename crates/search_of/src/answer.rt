// What a line asks for.
ghost use Rattle.std.specs.Prelude.{◌≡◌, None};
ghost use Rattle.road_types.specs.Faults.{road_fault};

use crate::counts::{brief_text, end_text, kept_text, left_open_text};
use crate::plans::{plan_text, value_text};
use branch_bound::{Found, pick, search};
use named_boxes::road_of;
use road_types::Road;
use std::alloc::{AllocError, Global};

/// What is printed of a line such as `road.toml;brief`.
pub(crate) fn answer(rt: &HostRuntime, line: &str) -> Result<String, AllocError> {
    let alloc = rt.alloc();
    if line == "pick" {
        return picked_text(alloc);
    }
    let (name, asked) = line.split_once(';').unwrap_or((line, ""));
    match road_of(rt, name)? {
        Some(road) => answer_of(alloc, &road, asked),
        None => String::from_str(alloc, "no road"),
    }
}

/// What is printed of a road.
fn answer_of(alloc: Global, road: &Road, asked: &str) -> Result<String, AllocError>
    requires accepted { road_fault road.now ≡ None }
{
    for _ in 0..asked.parse::<u32>().unwrap_or(0) {
        drop(search(alloc, road)?);
    }
    let found = search(alloc, road)?;
    let text = found_text(alloc, road, &found, asked);
    drop(found);
    text
}

/// What is printed of what was found.
fn found_text(
    alloc: Global,
    road: &Road,
    found: &Found,
    asked: &str,
) -> Result<String, AllocError> {
    let (word, rest) = asked.split_once(' ').unwrap_or((asked, ""));
    match word {
        "" => format!(in alloc; "{found:?}"),
        "end" => end_text(alloc, road, found),
        "kept" => kept_text(alloc, road, found),
        "open" => left_open_text(alloc, found),
        "value" => value_text(alloc, found, rest),
        "plan" => plan_text(alloc, found, rest),
        _ => brief_text(alloc, found),
    }
}

/// The place of the least of 7/2, 10/3 and 20/6.
fn picked_text(alloc: Global) -> Result<String, AllocError> {
    let place = pick(&[(7, 2), (10, 3), (20, 6)]);
    format!(in alloc; "{place}")
}

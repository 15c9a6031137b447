// Boxes by the splits that lead to them.
ghost use Rattle.std.specs.Prelude.{◌≡◌, None, IfOk, IfSome};
ghost use Rattle.road_types.specs.Faults.{road_fault};
ghost use Rattle.milp_builder.specs.Boxes.{IsBoxOf};

use milp_builder::{BoxRange, Split, parts, root_box};
use road_types::Road;
use std::alloc::{AllocError, Global};

/// The box that is left of that of all plans after these splits, each with the part that is taken, as in
/// `removal 1 2 first;height 3 0 second`; none where one of them isn't of the box before it. `AllocError` where memory is wanting.
pub fn box_of(alloc: Global, road: &Road, splits: &str) -> Result<Option<BoxRange>, AllocError>
    requires { road_fault road.now ≡ None }
    ensures { IfOk result (λ found. IfSome found (IsBoxOf road.now)) }
{
    let mut range = root_box(alloc, road)?;
    if splits.is_empty() {
        return Ok(Some(range));
    }
    for text in splits.split(';') {
        let Some(part) = part_of(alloc, road, &range, text)? else {
            return Ok(None);
        };
        range = part;
    }
    Ok(Some(range))
}

/// The part of a box that a text such as `removal 1 2 first` names.
fn part_of(
    alloc: Global,
    road: &Road,
    range: &BoxRange,
    text: &str,
) -> Result<Option<BoxRange>, AllocError>
    requires accepted { road_fault road.now ≡ None }
    requires fits { IsBoxOf road.now range.now }
    ensures { IfOk result (λ found. IfSome found (IsBoxOf road.now)) }
{
    let Some((split, part)) = split_of(text) else {
        return Ok(None);
    };
    let Some((first, second)) = parts(alloc, road, range, split)? else {
        return Ok(None);
    };
    Ok(Some(if part == Part::First { first } else { second }))
}

/// Which of two parts is taken.
#[derive(Clone, Copy, Debug, PartialEq, Eq)]
enum Part {
    First,
    Second,
}

/// The split that a text names, and the part that is taken.
fn split_of(text: &str) -> Option<(Split, Part)> {
    let (kind, rest) = text.split_once(' ')?;
    let (number, rest) = rest.split_once(' ')?;
    let (at, part) = rest.split_once(' ')?;
    let part = if part == "first" {
        Part::First
    } else {
        Part::Second
    };
    let number = number.parse::<usize>().ok()?;
    match kind {
        "removal" => {
            let stage = at.parse::<usize>().ok()?;
            Some((
                Split::Removal {
                    block: number,
                    stage,
                },
                part,
            ))
        }
        "height" => {
            let at = at.parse::<i64>().ok()?;
            Some((
                Split::Height {
                    section: number,
                    at,
                },
                part,
            ))
        }
        _ => None,
    }
}

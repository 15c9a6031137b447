// What a line asks for.
ghost use Rattle.std.specs.Prelude.{◌≡◌, None};
ghost use Rattle.road_types.specs.Faults.{road_fault};

use crate::trees;
use named_boxes::road_of;
use road_types::Road;
use std::alloc::{AllocError, Global};

/// What is given for a line.
pub(crate) fn answer(rt: &HostRuntime, line: &str) -> Result<String, AllocError> {
    let alloc = rt.alloc();
    let (name, rest) = line.split_once(';').unwrap_or((line, ""));
    let (asked, nodes) = rest.split_once(';').unwrap_or((rest, ""));
    let Some(road) = road_of(rt, name)? else {
        return String::from_str(alloc, "no road");
    };
    answer_of(alloc, &road, asked, nodes)
}

/// What is asked of the nodes on the box of all plans of the road.
fn answer_of(alloc: Global, road: &Road, asked: &str, nodes: &str) -> Result<String, AllocError>
    requires { road_fault road.now ≡ None }
{
    let nodes: Vec<&str> = nodes.split(';').collect(alloc)?;
    match asked {
        "least" => trees::least_text(alloc, road, nodes.as_slice()),
        "joined" => trees::joined_text(alloc, road, nodes.as_slice()),
        "grown" => trees::grown_text(alloc, road, nodes.as_slice()),
        _ => String::from_str(alloc, "nothing of the kind"),
    }
}

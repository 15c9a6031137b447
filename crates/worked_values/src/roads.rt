// Road files, and roads that are checked as records.
use crate::shown;
use crate::writing::Answer;
use outside::{DiskStore, Store};
use road_file::read_road;
use road_types::{Fault, Fixed, Hop, Listed, Pit, PitKind, Road, Text};
use std::alloc::{AllocError, Global};
use std::mem;

/// The most bytes that are read of a file here.
const MOST: usize = 10_000;

/// The bytes of a file, none where it can't be read.
pub(crate) fn file(rt: &HostRuntime, name: &str) -> Vec<u8> {
    let mut store = DiskStore::new(rt);
    match store.read(rt.alloc(), name, MOST) {
        Ok(bytes) => bytes,
        Err(_) => Vec::new(rt.alloc()),
    }
}

/// The road of a file, if it is one.
pub(crate) fn road(rt: &HostRuntime, name: &str) -> Option<Road> {
    let bytes = file(rt, name);
    match read_road(rt.alloc(), bytes.as_slice(), None) {
        Ok(road) => Some(road),
        Err(_) => None,
    }
}

/// All that is read of a road file.
pub(crate) fn read(rt: &HostRuntime, out: &mut Answer, name: &str) {
    match road(rt, name) {
        Some(road) => {
            out.put(format_args!("{road:?}"));
            drop(road);
        }
        None => out.put("no road"),
    }
}

/// The first fault of the road of one section in the file `one.toml`, once a part of its record is another: `kept`, `name`
/// (of its pit, with a space), `fixed` (a point beyond the last knot), `hops` (one, where there is one section).
pub(crate) fn check(rt: &HostRuntime, out: &mut Answer, part: &str) {
    match road(rt, "one.toml") {
        Some(mut road) => {
            out.note(alter(rt.alloc(), &mut road, part));
            let fault = road.check();
            drop(road);
            fault_shown(out, fault);
        }
        None => out.put("no road"),
    }
}

/// Puts another value in the place of the named part of a road.
fn alter(alloc: Global, road: &mut Road, part: &str) -> Result<(), AllocError> {
    match part {
        "name" => drop(mem::replace(&mut road.pits, pits(alloc)?)),
        "fixed" => {
            let fixed = Listed::new(Vec::from_array(alloc, [BEYOND])?);
            drop(mem::replace(&mut road.fixed, fixed));
        }
        "hops" => {
            let hops = Listed::new(Vec::from_array(alloc, [HOP])?);
            drop(mem::replace(&mut road.hops, hops));
        }
        _ => {}
    }
    Ok(())
}

fn fault_shown(out: &mut Answer, fault: Option<Fault>) {
    match fault {
        Some(fault) => out.put(format_args!("{fault:?}")),
        None => out.put("none"),
    }
}

/// A fixed point beyond the last knot.
const BEYOND: Fixed = Fixed {
    station: 2,
    low: 0,
    high: 0,
};

const HOP: Hop = Hop {
    right_cost: 4,
    right_max: 50_000,
    left_cost: 4,
    left_max: 50_000,
};

/// A pit whose name has a space.
fn pits(alloc: Global) -> Result<Listed<Pit>, AllocError> {
    let name = Text::new(String::from_str(alloc, "the tip")?);
    let mut pits = Vec::new(alloc);
    pits.push(Pit {
        name,
        kind: PitKind::Waste,
        capacity: 50_000,
        cost: 1,
    })?;
    Ok(Listed::new(pits))
}

/// The length and the items of a list of 3 and 4, the length of its vector, and a text.
pub(crate) fn lists(alloc: Global, out: &mut Answer) {
    match Vec::from_array(alloc, [3u8, 4]) {
        Ok(items) => list_shown(out, Listed::new(items)),
        Err(_) => out.fail(),
    }
    match String::from_str(alloc, "tip") {
        Ok(name) => text_shown(out, Text::new(name)),
        Err(_) => out.fail(),
    }
}

/// The length and the items of a list, and the length of its vector.
fn list_shown(out: &mut Answer, list: Listed<u8>) {
    let (count, items) = (list.len(), list.as_slice());
    out.put(format_args!("{count} {items:?}"));
    let count = list.into_vec().len();
    out.put(format_args!(" {count} "));
}

/// A text between quotes.
fn text_shown(out: &mut Answer, text: Text) {
    shown::bytes(out, Some(text.as_str().as_bytes()));
}

// Which calls a line asks for.
use crate::writing::Answer;
use crate::{disk, outputs, plans, roads, rows, sinks, stores, texts, whole_numbers};

/// Appends what is given for a line: its first word names the calls, and what follows is theirs.
pub(crate) fn answer(rt: &HostRuntime, out: &mut Answer, line: &str) {
    let alloc = rt.alloc();
    let (name, rest) = line.split_once(' ').unwrap_or((line, ""));
    match name {
        "small" | "w64" | "w128" => whole_numbers::number(out, name, rest),
        "fraction" => whole_numbers::fraction(alloc, out, rest),
        "same" => whole_numbers::same(out, rest),
        "common" => whole_numbers::common(alloc, out, rest),
        "whole" | "lines" | "words" | "cut" => texts::text(alloc, out, name, rest),
        "rows" => rows::rows(alloc, out, rest),
        "store" => stores::store(alloc, out, rest),
        "sink" => sinks::sink(alloc, out, rest),
        "disk" => disk::disk(rt, out),
        "output" => outputs::output(rt, out, rest),
        "reader" => outputs::reader(alloc, out),
        "road" => roads::read(rt, out, rest),
        "check" => roads::check(rt, out, rest),
        "lists" => roads::lists(alloc, out),
        "plan" | "behind" | "heights" => plans::asked(rt, out, name, rest),
        _ => out.put("no such calls"),
    }
}

// A sink in memory.
use crate::shown;
use crate::stores::numbers;
use crate::writing::Answer;
use outside::{MemSink, Sink, SinkFailed};
use std::alloc::{AllocError, Global};

/// Makes a sink of so many bytes of room, whose puts with the numbers of the second word fail, and puts the other words, `-` for
/// no bytes. Appends after each how it ended, what was written, and the faults.
pub(crate) fn sink(alloc: Global, out: &mut Answer, rest: &str) {
    let (room, rest) = rest.split_once(' ').unwrap_or((rest, ""));
    let (fails, puts) = rest.split_once(' ').unwrap_or((rest, ""));
    match made(alloc, room, fails) {
        Ok(mut sink) => put_all(out, &mut sink, puts),
        Err(_) => out.fail(),
    }
}

/// A sink of so many bytes of room, whose puts with these numbers fail.
fn made(alloc: Global, room: &str, fails: &str) -> Result<MemSink, AllocError> {
    let fails = numbers(alloc, fails)?;
    MemSink::new(alloc, room.parse::<usize>().unwrap_or(0), fails.as_slice())
}

/// Puts each of the words.
fn put_all(out: &mut Answer, sink: &mut MemSink, words: &str) {
    for word in words.split_whitespace() {
        put_word(out, sink, if word == "-" { "" } else { word });
    }
}

fn put_word(out: &mut Answer, sink: &mut MemSink, word: &str) {
    let end = put_shown(sink.put(word.as_bytes()));
    out.put(format_args!("{end} "));
    shown::bytes(out, Some(sink.written()));
    let faults = sink.faults();
    out.put(format_args!(" {faults}, "));
}

/// How a put ended.
pub(crate) fn put_shown(end: Result<(), SinkFailed>) -> &'static str {
    match end {
        Ok(()) => "ok",
        Err(SinkFailed) => "failed",
    }
}

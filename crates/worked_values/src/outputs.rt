// The real sink, over the standard output and over one that is slow, and a reader that fails on the way.
use crate::sinks::put_shown;
use crate::stores::read_shown;
use crate::writing::Answer;
use outside::{OutSink, Sink, read_whole};
use std::alloc::Global;
use std::cell::Cell;
use std::fmt::Display;
use std::io;
use std::io::{Print, Read};

/// Puts the text and a line feed, and then no bytes, into the standard output; or words into a slow one.
pub(crate) fn output(rt: &HostRuntime, out: &mut Answer, rest: &str) {
    match rest.split_once(' ') {
        Some(("slow", words)) => slow(out, words),
        _ => {
            match format!(in rt.alloc(); "{rest}\n") {
                Ok(text) => put_twice(rt, out, text.as_bytes()),
                Err(_) => out.fail(),
            }
        }
    }
}

/// Puts the bytes, and then none, into the standard output.
fn put_twice(rt: &HostRuntime, out: &mut Answer, bytes: &[u8]) {
    let mut sink = OutSink::new(rt);
    let first = put_shown(sink.put(bytes));
    let none = put_shown(sink.put(b""));
    out.put(format_args!("{first}, {none}"));
}

// A standard output that takes one byte a call, and after some bytes none.
#[derive(Drop)]
struct SlowOutput {
    taken: Cell<u64>,
    room: Cell<u8>,
}

impl Print for SlowOutput {
    fn print<D: Display + Drop>(&self, _value: D) -> io::Result<()> {
        Err(io::ErrorKind::Unsupported.into())
    }

    fn println<D: Display + Drop>(&self, _value: D) -> io::Result<()> {
        Err(io::ErrorKind::Unsupported.into())
    }

    fn write_all(&self, _bytes: &[u8]) -> io::Result<()> {
        Err(io::ErrorKind::Unsupported.into())
    }

    fn write_some(&self, bytes: &[u8]) -> io::Result<usize> {
        let (Some(first), Some(room)) = (bytes.first(), self.room.get().checked_sub(1)) else {
            return Ok(0);
        };
        self.room.set(room);
        self.taken.set(self.taken.get() << 8 | u64::from(*first));
        Ok(1)
    }
}

/// Puts the words into an output of room for four bytes, and appends after each how it ended and what was taken, as a number in base 16.
fn slow(out: &mut Answer, words: &str) {
    let slow = SlowOutput {
        taken: Cell::new(0),
        room: Cell::new(4),
    };
    let mut sink = OutSink::new(&slow);
    for word in words.split_whitespace() {
        let end = put_shown(sink.put(word.as_bytes()));
        let taken = slow.taken.get();
        out.put(format_args!("{end} {taken:x}, "));
    }
}

// A file that gives one byte a call, and then fails.
#[derive(Drop)]
struct Broken {
    left: u8,
}

impl Read for Broken {
    fn read(&mut self, buf: &mut [u8]) -> io::Result<usize> {
        if self.left == 0 {
            return Err(io::ErrorKind::Other.into());
        }
        if buf.is_empty() {
            return Ok(0);
        }
        self.left -= 1;
        buf[0] = b'0' + self.left.min(9);
        Ok(1)
    }
}

/// Reads two bytes of three, and then two of one.
pub(crate) fn reader(alloc: Global, out: &mut Answer) {
    let mut file = Broken { left: 3 };
    read_shown(out, read_whole(alloc, &mut file, 2));
    out.put(", ");
    read_shown(out, read_whole(alloc, &mut file, 2))
}

// A store in memory.
use crate::shown;
use crate::writing::Answer;
use outside::{MemStore, Store, StoreErr};
use std::alloc::{AllocError, Global};

/// Makes a store whose calls with the numbers of the first word fail, `-` for none, and does in turn what the other words ask:
/// `file:NAME:BYTES`, `room:NAME:BYTES`, `write:NAME:BYTES`, `read:NAME:MOST`. Appends what each call gives, and the faults.
pub(crate) fn store(alloc: Global, out: &mut Answer, rest: &str) {
    let (fails, calls) = rest.split_once(' ').unwrap_or((rest, ""));
    match made(alloc, fails) {
        Ok(mut store) => ask_all(alloc, out, &mut store, calls),
        Err(_) => out.fail(),
    }
}

/// A store whose calls with these numbers fail.
fn made(alloc: Global, fails: &str) -> Result<MemStore, AllocError> {
    let fails = numbers(alloc, fails)?;
    MemStore::new(alloc, fails.as_slice())
}

/// The numbers between commas.
pub(crate) fn numbers(alloc: Global, text: &str) -> Result<Vec<u64>, AllocError> {
    let mut numbers = Vec::new(alloc);
    for word in text.split(',') {
        if let Ok(number) = word.parse::<u64>() {
            numbers.push(number)?;
        }
    }
    Ok(numbers)
}

/// Does what each word asks, and appends the faults.
fn ask_all(alloc: Global, out: &mut Answer, store: &mut MemStore, calls: &str) {
    for call in calls.split_whitespace() {
        ask(alloc, out, store, call);
    }
    let (reads, writes) = (store.read_faults(), store.write_faults());
    out.put(format_args!("{reads} {writes}"));
}

/// Does what a word asks, and appends what that gives.
fn ask(alloc: Global, out: &mut Answer, store: &mut MemStore, call: &str) {
    let (call, rest) = call.split_once(':').unwrap_or((call, ""));
    let (name, what) = rest.split_once(':').unwrap_or((rest, ""));
    match call {
        "file" => out.note(store.file(name, what.as_bytes())),
        "room" => out.note(store.room(name, what.parse::<usize>().unwrap_or(0))),
        "write" => {
            let end = ended(store.write(name, what.as_bytes()));
            out.put(format_args!("{end}, "));
        }
        _ => {
            read_shown(
                out,
                store.read(alloc, name, what.parse::<usize>().unwrap_or(0)),
            );
            out.put(", ")
        }
    }
}

/// Appends the bytes that were read, or why not.
pub(crate) fn read_shown(out: &mut Answer, read: Result<Vec<u8>, StoreErr>) {
    match read {
        Ok(bytes) => shown::bytes(out, Some(bytes.as_slice())),
        Err(error) => out.put(error_shown(&error)),
    }
}

fn error_shown(error: &StoreErr) -> &'static str {
    match error {
        StoreErr::Missing => "missing",
        StoreErr::Failed => "failed",
        StoreErr::NoMemory => "no memory",
    }
}

/// How a write ended.
pub(crate) fn ended(end: Result<(), StoreErr>) -> &'static str {
    match end {
        Ok(()) => "ok",
        Err(error) => error_shown(&error),
    }
}

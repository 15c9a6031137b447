// The real store, on a file in the folder where the program runs.
use crate::stores::{ended, read_shown};
use crate::writing::Answer;
use outside::{DiskStore, Store, StoreErr};
use std::alloc::Global;
use std::fs;

/// The file that is written, and taken away again.
const NAME: &str = "worked_values.tmp";

/// A file that is missing; more bytes than one piece of a read, all, and one fewer; fewer bytes than are there; no bytes; and a folder.
pub(crate) fn disk(rt: &HostRuntime, out: &mut Answer) {
    let alloc = rt.alloc();
    let mut store = DiskStore::new(rt);
    let _ = fs::remove_file(rt, NAME);
    long_file(alloc, out, &mut store);
    short_file(alloc, out, &mut store);
    let _ = fs::remove_file(rt, NAME);
    folder(alloc, out, &mut store)
}

/// A file that is missing, and then all of it and one byte fewer.
fn long_file<S: Store>(alloc: Global, out: &mut Answer, store: &mut S) {
    read_shown(out, store.read(alloc, NAME, 100));
    let written = ended(store.write(NAME, &[b'x'; 10_000]));
    let all = count(store.read(alloc, NAME, 20_000));
    let fewer = count(store.read(alloc, NAME, 9_999));
    out.put(format_args!(", {written}, {all}, {fewer}, "));
}

/// Fewer bytes than are asked for, and none.
fn short_file<S: Store>(alloc: Global, out: &mut Answer, store: &mut S) {
    let again = ended(store.write(NAME, b"short"));
    out.put(format_args!("{again}, "));
    read_shown(out, store.read(alloc, NAME, 100));
    out.put(", ");
    read_shown(out, store.read(alloc, NAME, 0));
    out.put(", ")
}

fn folder<S: Store>(alloc: Global, out: &mut Answer, store: &mut S) {
    read_shown(out, store.read(alloc, ".", 100));
    let onto = ended(store.write(".", b"x"));
    out.put(format_args!(", {onto}"));
}

/// How many bytes were read that are an `x`, where no other was.
fn count(read: Result<Vec<u8>, StoreErr>) -> usize {
    match read {
        Ok(bytes) => {
            if bytes.iter().all(|byte| *byte == b'x') {
                bytes.len()
            } else {
                0
            }
        }
        Err(_) => 0,
    }
}

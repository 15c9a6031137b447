// Runs over a store and a sink in memory.
use outside::{MemSink, MemStore, Store};
use roadopt_program::{Answer, Status, run};
use std::alloc::{AllocError, Global};

/// The calls of the store and of the sink that fail, each counted from 1, and how many bytes the sink takes.
#[derive(Clone, Copy)]
pub(crate) struct Limits<'a> {
    pub(crate) store: &'a [u64],
    pub(crate) sink: &'a [u64],
    pub(crate) room: usize,
}

/// No call fails.
pub(crate) const NO_LIMITS: Limits<'static> = Limits {
    store: &[],
    sink: &[],
    room: 100_000,
};

/// How a run ended.
#[derive(Clone, Copy, Debug, PartialEq, Eq)]
pub(crate) struct Outcome {
    pub(crate) status: Status,
    /// Whether it answered a certificate, and whether it answered notes.
    pub(crate) has_cert: bool,
    pub(crate) has_notes: bool,
    /// How many calls failed.
    pub(crate) read_faults: u64,
    pub(crate) write_faults: u64,
    pub(crate) sink_faults: u64,
    /// Whether `cert` is as before, and whether each other file is.
    pub(crate) cert_kept: bool,
    pub(crate) others_kept: bool,
}

/// How a run ended, what it printed, and the bytes of `cert`, none where there is no such file.
#[derive(Drop)]
pub(crate) struct Ended {
    pub(crate) outcome: Outcome,
    pub(crate) printed: Vec<u8>,
    pub(crate) cert: Vec<u8>,
}

/// A run that ended so and left all as it was.
pub(crate) fn untouched(status: Status) -> Outcome {
    Outcome {
        status,
        has_cert: false,
        has_notes: false,
        read_faults: 0,
        write_faults: 0,
        sink_faults: 0,
        cert_kept: true,
        others_kept: true,
    }
}

fn owned(alloc: Global, words: &[&str]) -> Result<Vec<String>, AllocError> {
    let mut owned = Vec::new(alloc);
    for word in words {
        owned.push(String::from_str(alloc, word)?)?;
    }
    Ok(owned)
}

/// A store of these files that has room for writes of `cert`.
fn stored(alloc: Global, files: &[(&str, &[u8])], fails: &[u64]) -> Result<MemStore, AllocError> {
    let mut store = MemStore::new(alloc, fails)?;
    for (name, bytes) in files {
        store.file(name, bytes)?;
    }
    store.room("cert", 100_000)?;
    Ok(store)
}

/// The bytes of the named file, none where there is no such file.
fn file(alloc: Global, store: &mut MemStore, name: &str) -> Vec<u8> {
    match store.read(alloc, name, 67_108_864) {
        Ok(bytes) => bytes,
        Err(_) => Vec::new(alloc),
    }
}

/// Whether each of the files, those named `cert` or the others, stands in the store.
fn are_kept(alloc: Global, files: &[(&str, &[u8])], certs: bool, store: &mut MemStore) -> bool {
    for (name, bytes) in files {
        if (*name == "cert") == certs && file(alloc, store, name).as_slice() != *bytes {
            return false;
        }
    }
    true
}

/// The run itself, and whether it answered a certificate and notes.
fn answer(
    alloc: Global,
    words: &[String],
    store: &mut MemStore,
    sink: &mut MemSink,
) -> (Status, bool, bool) {
    told(&run(alloc, words, store, sink))
}

fn told(answer: &Answer) -> (Status, bool, bool) {
    let has_notes = answer.notes.len() > 0;
    (answer.status, answer.cert.is_some(), has_notes)
}

/// A run over these files with these words, in which these calls fail.
pub(crate) fn ran(
    alloc: Global,
    words: &[&str],
    files: &[(&str, &[u8])],
    limits: &Limits<'_>,
) -> Result<Ended, AllocError> {
    let mut store = stored(alloc, files, limits.store)?;
    let mut sink = MemSink::new(alloc, limits.room, limits.sink)?;
    let words = owned(alloc, words)?;
    let (status, has_cert, has_notes) = answer(alloc, words.as_slice(), &mut store, &mut sink);
    let read_faults = store.read_faults();
    let write_faults = store.write_faults();
    // The next call may be one that fails.
    let _ = store.read(alloc, "", 0);
    Ok(Ended {
        outcome: Outcome {
            status,
            has_cert,
            has_notes,
            read_faults,
            write_faults,
            sink_faults: sink.faults(),
            cert_kept: are_kept(alloc, files, true, &mut store),
            others_kept: are_kept(alloc, files, false, &mut store),
        },
        printed: Vec::from_slice(alloc, sink.written())?,
        cert: file(alloc, &mut store, "cert"),
    })
}

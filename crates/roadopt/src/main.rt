// The program: it hands the words of the command line, the real files and the real output to `run`.
#![tactic(auto)]

use outside::{DiskStore, OutSink};
use roadopt_program::{Status, run};
use std::alloc::AllocError;
use std::process::ExitCode;
use std::{env, io};

/// The words of the command line without the program's name; none where they aren't texts.
fn words(rt: &HostRuntime) -> Result<Vec<String>, AllocError> {
    match env::args(rt) {
        Ok(args) => args.skip(1).collect(rt.alloc()),
        Err(error) if error.kind() == io::ErrorKind::OutOfMemory => Err(AllocError),
        Err(_) => Ok(Vec::new(rt.alloc())),
    }
}

fn main(rt: HostRuntime) -> ExitCode {
    let Ok(words) = words(&rt) else {
        return ExitCode::from(Status::NoMemory.code());
    };
    let mut store = DiskStore::new(&rt);
    let mut out = OutSink::new(&rt);
    let answer = run(rt.alloc(), words.as_slice(), &mut store, &mut out);
    ExitCode::from(answer.status.code())
}

//! The program: standard input and output, and real threads, around the library's one call.
#![tactic(auto)]

use checker_workers::FreeGate;
use edge_io::{StdSink, StdSource};
use iopmp_program::{Status, top};
use std::alloc::{AllocError, Global};
use std::process::ExitCode;
use std::rt::Env;
use std::thread::Threads;
use std::{env, io};

/// The words after the program's name, or want of memory for them. Words that aren't text are no
/// command, as no words are none.
fn words(rt: &(impl Env + AllocGlobal), alloc: Global) -> Result<Vec<String>, AllocError> {
    match env::args(rt) {
        Ok(args) => args.skip(1).collect(alloc),
        Err(error) if error.kind() == io::ErrorKind::OutOfMemory => Err(AllocError),
        Err(_) => Ok(Vec::new(alloc)),
    }
}

fn main(rt: HostRuntime) -> ExitCode {
    let alloc = rt.alloc();
    let Ok(words) = words(&rt, alloc) else {
        return ExitCode::from(Status::NoMemory.code());
    };
    let mut source = StdSource::new(rt.reader());
    let mut sink = StdSink::new(io::writer(&rt));
    let outcome = top(&rt, alloc, &words, &mut source, &mut sink, &FreeGate);
    ExitCode::from(outcome.status.code())
}

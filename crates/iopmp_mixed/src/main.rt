//! The program with its lanes mixed: a seed draws which of them goes on at each step.
//!
//! The words are the seed and a command. All else is as without a seed, and one line on standard error tells what
//! became of the turns.
#![tactic(auto)]

mod ahead;
mod lane_count;
mod mixed;
mod seed;
#[cfg(test)]
mod tests;

use ahead::AheadSource;
use edge_io::{StdSink, StdSource};
use mixed::mixed;
use seed::seed_in;
use std::alloc::Global;
use std::process::ExitCode;
use std::rt::Env;
use std::{env, io};

/// The words after the program's name.
fn words(rt: &(impl Env + AllocGlobal), alloc: Global) -> io::Result<Vec<String>> {
    Ok(env::args(rt)?.skip(1).collect(alloc)?)
}

fn main(rt: HostRuntime) -> ExitCode {
    let alloc = rt.alloc();
    // Words that can't be had are no seed.
    let words = words(&rt, alloc).unwrap_or(Vec::new(alloc));
    let Some(seed) = seed_in(&words) else {
        let _ = eprintln!(&rt; "iopmp-mixed: usage: iopmp-mixed SEED COMMAND");
        return ExitCode::from(2);
    };
    let mut source = AheadSource::new(alloc, StdSource::new(rt.reader()));
    let mut sink = StdSink::new(io::writer(&rt));
    let ended = mixed(&rt, alloc, seed, &words[1..], &mut source, &mut sink);
    let _ = eprintln!(&rt; "iopmp-mixed: {}", ended.report);
    ExitCode::from(ended.outcome.status.code())
}

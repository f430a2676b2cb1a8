// The program over streams in memory.
mod aims;
mod audits;
mod bad_lines;
mod bad_policies;
mod command_words;
mod each_command;
mod failing_streams;
mod gate_calls;
mod generated_scripts;
mod handed_pieces;
mod images;
mod lanes_beside;
mod later_violations;
mod layers;
mod limits;
mod live_updates;
mod meeting;
mod narrow_updates;
mod plain_rules;
mod plans;
mod rows;
mod statuses;
mod summaries;

use crate::{Outcome, Status, top};
use checker_workers::{FreeGate, Gate};
use edge_io::{MemorySink, MemorySource};
use event_words::Shape;
use std::alloc::Global;
use std::process::Abort;
use std::test::Fail;
use std::thread::Threads;

/// A unit of few requesters and domains.
pub const SMALL_UNIT: Shape = Shape {
    rrids: 4,
    domains: 3,
    entries: 8,
    mdcfg: 0,
    k: 0,
    srcmd: 0,
    sps: false,
    queue: 1,
    transl: None,
};

/// Which call of a stream fails, if one does, and how many bytes a call moves.
#[derive(Clone, Copy)]
pub struct Faults {
    read: Option<u32>,
    write: Option<u32>,
    chunk: usize,
}

/// Streams that never fail, in pieces of any length.
pub const NONE: Faults = Faults {
    read: None,
    write: None,
    chunk: 4096,
};

/// Which calls fail, and how many bytes a call moves.
pub fn failing_at(read: Option<u32>, write: Option<u32>, chunk: usize) -> Faults {
    Faults { read, write, chunk }
}

/// How a call ended, and what the sink took.
#[derive(Drop)]
pub struct Ended {
    pub outcome: Outcome,
    pub taken: Vec<u8>,
}

fn numbers(alloc: Global, number: Option<u32>) -> Result<Vec<u32>, Fail> {
    let mut numbers = Vec::new(alloc);
    if let Some(number) = number {
        numbers.push(number)?;
    }
    Ok(numbers)
}

/// The words of a command line.
pub fn split_words(alloc: Global, words: &str) -> Result<Vec<String>, Fail> {
    let mut strings = Vec::new(alloc);
    for word in words.split_whitespace() {
        strings.push(String::from_str(alloc, word)?)?;
    }
    Ok(strings)
}

/// What `top` answers for these words and this input, with what the sink took.
pub fn called<R: Threads + Sync + AllocGlobal, G: Gate + Sync>(
    rt: &R,
    words: &str,
    input: &[u8],
    faults: Faults,
    gate: &G,
) -> Result<Ended, Fail> {
    let alloc = rt.alloc();
    let chunk = faults.chunk.max(1);
    let words = split_words(alloc, words)?;
    let mut source = MemorySource::new(input.to_vec(alloc)?, numbers(alloc, faults.read)?, chunk);
    let Ok(mut sink) = MemorySink::new(alloc, 33554432, numbers(alloc, faults.write)?, chunk) else {
        return Err(Fail::new("no memory"));
    };
    let outcome = top(rt, alloc, &words, &mut source, &mut sink, gate);
    let taken = sink.taken().to_vec(alloc)?;
    Ok(Ended { outcome, taken })
}

/// Asserts how the program ends on an input over streams that don't fail, and what it writes.
pub fn expect<R: Threads + Sync + AllocGlobal + Abort>(
    rt: &R,
    words: &str,
    input: &[u8],
    status: Status,
    output: &str,
) -> Result<(), Fail> {
    let ended = called(rt, words, input, NONE, &FreeGate)?;
    assert_eq!(rt; ended.outcome.status, status, "{output}");
    assert_eq!(rt; ended.taken.as_slice(), output.as_bytes());
    Ok(())
}

/// Whether a part stands somewhere in the text.
pub fn has(text: &[u8], part: &[u8]) -> bool {
    part.is_empty() || text.windows(part.len().max(1)).any(|window| window == part)
}

/// How often a part that isn't empty stands in the text.
pub fn count_of(text: &[u8], part: &[u8]) -> usize {
    text.windows(part.len().max(1))
        .filter(|window| *window == part)
        .count()
}

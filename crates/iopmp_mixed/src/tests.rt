// Lanes that go on by the turns of a seed, and what comes of inputs and words.
ghost use Rattle.std.specs.Prelude.{IfOk};
ghost use Rattle.script_reader.specs.Scripts.{IsWellFormedScript};

use crate::ahead::AheadSource;
use crate::mixed::mixed;
use crate::seed::seed_in;
use edge_io::{MemorySink, MemorySource};
use iopmp_program::{Outcome, Status, report, top};
use lane_turns::{TurnGate, TurnReport};
use script_reader::{Script, read_script};
use std::alloc::Global;
use std::rt::Clock;
use std::test::Fail;
use std::thread::Threads;

/// How a call ended, what became of its turns, and what the sink took.
#[derive(Drop)]
struct Ended {
    outcome: Outcome,
    report: TurnReport,
    taken: Vec<u8>,
}

fn words_of(alloc: Global, words: &str) -> Result<Vec<String>, Fail> {
    let mut strings = Vec::new(alloc);
    for word in words.split_whitespace() {
        strings.push(String::from_str(alloc, word)?)?;
    }
    Ok(strings)
}

fn empty_sink(alloc: Global) -> Result<MemorySink, Fail> {
    match MemorySink::new(alloc, 1048576, Vec::new(alloc), 4096) {
        Ok(sink) => Ok(sink),
        Err(_) => Err(Fail::new("no memory")),
    }
}

/// A call with this seed on an input that comes in pieces of 64 bytes, of whose reads these fail.
fn called<R: Threads + Clock + Sync + AllocGlobal>(
    rt: &R,
    seed: u64,
    words: &str,
    input: Vec<u8>,
    failing: &[u32],
) -> Result<Ended, Fail> {
    let alloc = rt.alloc();
    let memory = MemorySource::new(input, failing.to_vec(alloc)?, 64);
    let mut source = AheadSource::new(alloc, memory);
    let mut sink = empty_sink(alloc)?;
    let strings = words_of(alloc, words)?;
    let run = mixed(rt, alloc, seed, &strings, &mut source, &mut sink);
    let taken = sink.taken().to_vec(alloc)?;
    Ok(Ended {
        outcome: run.outcome,
        report: run.report,
        taken,
    })
}

/// Three lanes, of which the first stalls and changes an entry while the others use it.
const UPDATE: &str =
    "iopmp 1\nunit rrids 4 domains 3 entries 8 mdcfg 0 k 0 srcmd 0 sps 0 queue 1 transl -\nboot\nw 0 0x800 0x8\nw 0 0x1060 0x2\nw 0 0x8 0x1\nw 0 0x2000 0x200001ff\nw 0 0x2008 0x19\nlane 1\nw 0 0x30 0x1\nuntil 0 0x30 0x1 0x0 max 64\nw 0 0x2008 0x1b\nw 0 0x30 0x0\nlane 2\nt 0 3 r 0x80000000 4 as a\nsettle a max 64\nlane 3\nt 0 3 w 0x80000000 4 as a\nsettle a max 64\nend\n";

fn script_of(alloc: Global, text: &str) -> Result<Script, Fail>
    ensures { IfOk result (λ s. IsWellFormedScript s) }
{
    let bytes = text.as_bytes();
    if bytes.len() > 4194304 {
        return Err(Fail::new("too long"));
    }
    match read_script(alloc, bytes) {
        Ok(script) => Ok(script),
        Err(_) => Err(Fail::new("no script")),
    }
}

/// A run of the three lanes, whose output is the report of the history that is told of.
fn updated<R: Threads + Clock + Sync + AllocGlobal>(rt: &R, seed: u64) -> Result<Ended, Fail> {
    let alloc = rt.alloc();
    let input = UPDATE.as_bytes().to_vec(alloc)?;
    let ended = called(rt, seed, "run", input, &[])?;
    let Some(history) = &ended.outcome.history else {
        return Err(Fail::new("no history"));
    };
    let script = script_of(alloc, UPDATE)?;
    let words = history.words();
    if words.len() > 1048576 {
        return Err(Fail::new("too many events"));
    }
    let Ok(text) = report(alloc, &script, words) else {
        return Err(Fail::new("no memory"));
    };
    if text.as_slice() != ended.taken.as_slice() {
        return Err(Fail::new("another history's report"));
    }
    Ok(ended)
}

/// A run that keeps the seed's order, of at most ten: on a busy machine a lane may lose its turn by the clock.
fn kept<R: Threads + Clock + Sync + AllocGlobal>(rt: &R, seed: u64) -> Result<Ended, Fail> {
    for _ in 0..9u32 {
        let ended = updated(rt, seed)?;
        if ended.report.is_reproducible() {
            return Ok(ended);
        }
    }
    updated(rt, seed)
}

#[test]
fn a_seed_gives_the_same_history_again(rt: HostRuntime) -> Result<(), Fail> {
    let mut runs = 0u32;
    let mut reports = Vec::new(rt.alloc());
    for seed in 0..10u64 {
        let first = kept(&rt, seed)?;
        let second = kept(&rt, seed)?;
        let both = (
            first.report.is_reproducible(),
            second.report.is_reproducible(),
        );
        runs = runs
            .saturating_add(u32::from(both.0))
            .saturating_add(u32::from(both.1));
        if both.0 && both.1 {
            assert_eq!(rt; first.taken.as_slice(), second.taken.as_slice(), "{seed}");
        }
        if !reports.contains(&first.taken) {
            reports.push(first.taken)?;
        }
    }
    // at least nine of ten, of 20
    assert!(rt; runs >= 18, "{runs}");
    assert!(rt; reports.len() >= 5);
    Ok(())
}

/// So many lanes of three reads each.
fn reading_lanes(alloc: Global, lanes: u8) -> Result<String, Fail> {
    let mut text = format!(in alloc;
        "iopmp 1\nunit rrids 4 domains 3 entries 8 mdcfg 0 k 0 srcmd 0 sps 0 queue 1 transl -\nboot\n"
    )?;
    for lane in 0..lanes.min(16) {
        let number = lane + 1;
        write!(text, "lane {number}\nr 0 0x8\nr 0 0x8\nr 0 0x8\n")?;
    }
    text.push_str("end\n")?;
    Ok(text)
}

#[test]
fn sixteen_lanes_end(rt: HostRuntime) -> Result<(), Fail> {
    for words in ["run", "faults"] {
        let text = reading_lanes(rt.alloc(), 16)?;
        let ended = called(&rt, 1, words, text.into_bytes(), &[])?;
        assert_eq!(rt; ended.outcome.status, Status::Done, "{words}");
        assert!(rt; ended.taken.starts_with("events 48\n".as_bytes()));
        // a turn for each of its calls, and for each lane's end
        assert!(rt; ended.report.turns >= 64, "{words}");
    }
    Ok(())
}

/// Whether three lanes kept the order of a gate for this number of lanes. They must end.
fn three_lanes_keep<R: Threads + Clock + Sync + AllocGlobal>(
    rt: &R,
    lanes: u8,
) -> Result<bool, Fail> {
    let alloc = rt.alloc();
    let text = reading_lanes(alloc, 3)?;
    let mut source = MemorySource::new(text.into_bytes(), Vec::new(alloc), 4096);
    let mut sink = empty_sink(alloc)?;
    let strings = words_of(alloc, "run")?;
    let gate = TurnGate::new(3, lanes, rt);
    let outcome = top(rt, alloc, &strings, &mut source, &mut sink, &gate);
    if outcome.status != Status::Done || !sink.taken().starts_with("events 9\n".as_bytes()) {
        return Err(Fail::new("the lanes didn't end"));
    }
    Ok(gate.report().is_reproducible())
}

#[test]
fn a_gate_for_another_number_of_lanes_lets_all_end(rt: HostRuntime) -> Result<(), Fail> {
    // the third lane isn't known to the gate
    assert!(rt; !three_lanes_keep(&rt, 2)?);
    let mut keeps = false;
    for _ in 0..10u32 {
        keeps = keeps || three_lanes_keep(&rt, 4)?;
    }
    assert!(rt; keeps);
    Ok(())
}

/// The words after the seed, the input, which reads fail, how the call ends, and what is written.
const ANSWERS: [(&str, &str, &[u32], Status, &str); 6] = [
    (
        "run",
        "iopmp 2\n",
        &[],
        Status::BadInput,
        "iopmp: line 1 code 2\n",
    ),
    ("run", UPDATE, &[0], Status::ReadFault, ""),
    ("run", UPDATE, &[3], Status::ReadFault, ""),
    ("compile", UPDATE, &[3], Status::ReadFault, ""),
    (
        "live",
        UPDATE,
        &[],
        Status::BadInput,
        "iopmp: line 1 code 2\n",
    ),
    (
        "walk",
        UPDATE,
        &[0],
        Status::Usage,
        "iopmp: usage: iopmp run | compile | plan | live | gen N | soak N | faults | audit | narrow | narrow live\n",
    ),
];

#[test]
fn calls_end_as_without_a_seed(rt: HostRuntime) -> Result<(), Fail> {
    let alloc = rt.alloc();
    for (words, input, failing, status, taken) in ANSWERS {
        let ended = called(&rt, 7, words, input.as_bytes().to_vec(alloc)?, failing)?;
        assert_eq!(rt; ended.outcome.status, status, "{words}");
        assert_eq!(rt; ended.taken.as_slice(), taken.as_bytes());
        assert_eq!(rt; ended.report.turns, 0);
    }
    let long = Vec::from_elem(alloc, b' ', 4194305)?;
    let ended = called(&rt, 7, "run", long, &[])?;
    assert_eq!(rt; ended.outcome.status, Status::TooLong);
    Ok(())
}

#[test]
fn seeds_are_decimal(rt: HostRuntime) -> Result<(), Fail> {
    let alloc = rt.alloc();
    let cases = [
        ("0 run", Some(0)),
        ("007 run", Some(7)),
        ("18446744073709551615", Some(u64::MAX)),
        ("18446744073709551616 run", None),
        ("000000000000000000001 run", None),
        ("+5 run", None),
        ("0x5 run", None),
        ("run 5", None),
        ("", None),
    ];
    for (words, seed) in cases {
        assert_eq!(rt; seed_in(&words_of(alloc, words)?), seed, "{words}");
    }
    Ok(())
}

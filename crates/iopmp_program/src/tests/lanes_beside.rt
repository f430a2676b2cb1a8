// Lanes beside each other.
use crate::tests::meeting::Meeting;
use crate::tests::rows::UNIT;
use crate::tests::{NONE, called, expect, has};
use crate::{Status, play, report};
use checker_workers::FreeGate;
use event_words::{Event, LoggedEvent, Reply};
use history_reports::replay_words;
use script_reader::read_script;
use std::test::Fail;
use std::thread::Threads;

const BEGUN: &str = "w 0 0x800 0x8\nw 0 0x1060 0x2\nw 0 0x8 0x1\n";

/// Lane 1 updates entry 0 while lanes 2 and 3 read it.
const UPDATE: &str =
    "w 0 0x2000 0x200001ff\nw 0 0x2008 0x19\nlane 1\nw 0 0x30 0x1\nuntil 0 0x30 0x1 0x0 max 4096\nw 0 0x2008 0x1b\nw 0 0x30 0x0\nlane 2\nt 0 3 r 0x80000000 4 as a\nsettle a max 4096\nlane 3\nt 0 3 r 0x80000000 4 as a\nsettle a max 4096\n";

/// Whether an event of lane 1 may stand after so many of its writes, and how many there are then.
fn follows_update(event: &Event, writes: u8) -> Option<u8> {
    match (event, writes) {
        (
            Event::RegWrite {
                index: 12,
                value: 1,
                ..
            },
            0,
        ) => Some(1),
        (Event::RegRead { index: 12, .. }, 1) => Some(1),
        (
            Event::RegWrite {
                index: 0x802,
                value: 0x1b,
                ..
            },
            1,
        ) => Some(2),
        (
            Event::RegWrite {
                index: 12,
                value: 0,
                ..
            },
            2,
        ) => Some(3),
        _ => None,
    }
}

/// Whether lane 1's events stand in their order, no verdict falls between its drained read and its
/// release, and every verdict allows.
fn is_update(events: &[LoggedEvent]) -> bool {
    let mut writes = 0;
    let mut drained = false;
    for logged in events {
        if logged.event.caller() == 1 {
            let Some(next) = follows_update(&logged.event, writes) else {
                return false;
            };
            writes = next;
            if let (Event::RegRead { .. }, Reply::Value(value)) = (logged.event, logged.reply) {
                drained = value % 2 == 0;
            }
            if writes == 3 {
                drained = false;
            }
        }
        if matches!(logged.reply, Reply::Verdict(_)) && drained {
            return false;
        }
    }
    writes == 3
}

#[test]
fn an_update_runs_under_traffic(rt: HostRuntime) -> Result<(), Fail> {
    let alloc = rt.alloc();
    let text = format!(in alloc; "iopmp 1\n{UNIT}\nboot\n{BEGUN}{UPDATE}end\n")?;
    let bytes = text.as_bytes();
    assert!(rt; bytes.len() <= 4194304);
    let Ok(script) = read_script(alloc, bytes) else {
        return Err(Fail::new("no script"));
    };
    let ended = called(&rt, "run", bytes, NONE, &FreeGate)?;
    assert_eq!(rt; ended.outcome.status, Status::Done);
    let Some(history) = &ended.outcome.history else {
        return Err(Fail::new("no history"));
    };
    let words = history.words();
    assert!(rt; words.len() <= 1048576);
    let Ok(replay) = replay_words(alloc, &script.shapes, words) else {
        return Err(Fail::new("no memory"));
    };
    assert_eq!(rt; replay.events.len(), words.len());
    assert!(rt; is_update(&replay.events));
    let Ok(report) = report(alloc, &script, words) else {
        return Err(Fail::new("no memory"));
    };
    assert_eq!(rt; ended.taken.as_slice(), report.as_slice());
    let mut audited = bytes.to_vec(alloc)?;
    audited.extend_from_slice(b"== report\n")?;
    audited.extend_from_slice(&report)?;
    expect(&rt, "audit", &audited, Status::Done, "yes\n")
}

/// Each lane waits for what the other writes, so in a run of one after the other the first gives up.
const WAITING: &str =
    "lane 1\nw 0 0x2000 0x1\nuntil 0 0x2010 0x1 0x1 max 4096\nlane 2\nw 0 0x2010 0x1\nuntil 0 0x2000 0x1 0x1 max 4096\n";

#[test]
fn lanes_see_each_other(rt: HostRuntime) -> Result<(), Fail> {
    let alloc = rt.alloc();
    let text = format!(in alloc; "iopmp 1\n{UNIT}\nboot\n{WAITING}end\n")?;
    let mut met = false;
    for _turn in 0..1000u32 {
        if !met {
            let ended = called(&rt, "run", text.as_bytes(), NONE, &FreeGate)?;
            assert_eq!(rt; ended.outcome.status, Status::Done);
            met = has(
                &ended.taken,
                b"section 0 done\nsection 1 done\nsection 2 done\n",
            );
        }
    }
    assert!(rt; met);
    Ok(())
}

#[test]
fn lanes_run_beside_each_other(rt: HostRuntime) -> Result<(), Fail> {
    let alloc = rt.alloc();
    let text = format!(in alloc;
        "iopmp 1\n{UNIT}\nboot\nlane 1\nr 0 0x8\nr 0 0x8\nlane 2\nr 0 0x8\nr 0 0x8\nend\n"
    )?;
    let bytes = text.as_bytes();
    for words in ["run", "faults"] {
        let gate = Meeting::new();
        let ended = called(&rt, words, bytes, NONE, &gate)?;
        assert_eq!(rt; ended.outcome.status, Status::Done, "{words}");
        assert!(rt; gate.took_place(), "{words}");
        assert!(rt;
            has(
                &ended.taken,
                b"section 0 done\nsection 1 done\nsection 2 done\n"
            )
        );
    }
    assert!(rt; bytes.len() <= 4194304);
    let Ok(script) = read_script(alloc, bytes) else {
        return Err(Fail::new("no script"));
    };
    let gate = Meeting::new();
    let Ok(history) = play(&rt, alloc, &script, &gate) else {
        return Err(Fail::new("no history"));
    };
    assert!(rt; gate.took_place());
    assert_eq!(rt; history.words().len(), 4);
    Ok(())
}

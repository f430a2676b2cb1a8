// What lanes tell their gate: the whole list of calls, in their order.
use crate::Status;
use crate::tests::rows::UNIT;
use crate::tests::{NONE, called};
use checker_workers::Gate;
use std::sync::atomic::{AtomicU64, Ordering};
use std::test::Fail;

/// A write, a read, a submission, its judgement, one that makes no event, an access through a unit of
/// two events, a submission of a page, of two events, a stall, a submission that is queued, two judgements
/// that are held, and a release.
const COMMANDS: &str =
    "w 0 0x8 0x1\nr 0 0x8\nt 0 3 r 0x0 4 as a\nj a\nj a\nthrough 0 3 r 0x0 4 max 2\nt 0 3 r 0x0 4096 as c\nw 0 0x30 0x1\nt 0 3 r 0x0 4 as b\nsettle b max 2\nw 0 0x30 0x0\n";

/// Two reads that miss, after which the section is stopped and nothing is read.
const GIVES_UP: &str = "until 0 0x8 0x1 0x0 max 2\nr 0 0x8\n";

/// What sections of these commands tell: the step before each event but the second of the access through
/// a unit and of the page, and their end. The boot section tells it first, to which the reads that miss don't
/// belong: it ends done. Lane 1 ends stopped.
const CALLS: [(u8, u32); 26] = [
    (0, 0),
    (0, 1),
    (0, 2),
    (0, 3),
    (0, 4),
    (0, 6),
    (0, 8),
    (0, 9),
    (0, 10),
    (0, 11),
    (0, 12),
    (0, 13),
    (1, 0),
    (1, 1),
    (1, 2),
    (1, 3),
    (1, 4),
    (1, 6),
    (1, 8),
    (1, 9),
    (1, 10),
    (1, 11),
    (1, 12),
    (1, 13),
    (1, 14),
    (1, 15),
];

/// Compares each call with the next of the list.
#[derive(Drop)]
struct Listener {
    calls: AtomicU64,
    others: AtomicU64,
}

impl Gate for Listener {
    fn at(&self, lane: u8, step: u32) {
        let number = self.calls.fetch_add(1, Ordering::SeqCst);
        if number >= 26 || CALLS[number as usize] != (lane, step) {
            self.others.fetch_add(1, Ordering::SeqCst);
        }
    }
}

#[test]
fn a_gate_hears_each_step(rt: HostRuntime) -> Result<(), Fail> {
    let text = format!(in rt.alloc();
        "iopmp 1\n{UNIT}\nboot\n{COMMANDS}lane 1\n{COMMANDS}{GIVES_UP}end\n"
    )?;
    let gate = Listener {
        calls: AtomicU64::new(0),
        others: AtomicU64::new(0),
    };
    let ended = called(&rt, "run", text.as_bytes(), NONE, &gate)?;
    assert_eq!(rt; ended.outcome.status, Status::Done);
    assert_eq!(rt; gate.calls.load(Ordering::SeqCst), 26);
    assert_eq!(rt; gate.others.load(Ordering::SeqCst), 0);
    Ok(())
}

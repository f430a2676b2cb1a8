// The commands `narrow` and `narrow live`: a plan that stalls one requester of two, and that plan beside a lane.
use crate::Status;
use crate::tests::meeting::Meeting;
use crate::tests::{NONE, called, expect, has};
use checker_workers::FreeGate;
use std::alloc::Global;
use std::test::Fail;

/// The table of a unit of two requesters, but for its entries.
const UNIT: &str = "[unit]\nrrids = 2\ndomains = 2\nqueue = 1\n";

/// The domain of requester 0, up to its rights.
const FIRST: &str =
    "[[domain]]\nname = \"a\"\nrrids = [0]\ngrant = [{from = 0x80000000, size = 0x1000, rights = ";

/// The domain of requester 1.
const SECOND: &str =
    "[[domain]]\nname = \"b\"\nrrids = [1]\ngrant = [{from = 0x90000000, size = 0x1000, rights = \"rw\"}]\n";

/// The plan's first line, which stalls requester 0.
const STALL: &str = "w 0 0x38 0x40000000\n";

/// The plan from the reads on, up to the rights of requester 0, and from there on.
const READS: &str =
    "until 0 0x30 0x1 0x0 max 8\nw 0 0x10 0x0\nw 0 0x800 0x1\nw 0 0x804 0x2\nw 0 0x1000 0x2\nw 0 0x1020 0x4\nw 0 0x2000 0x200001ff\nw 0 0x2004 0x0\nw 0 0x2008 ";

const REST: &str = "w 0 0x2010 0x240001ff\nw 0 0x2014 0x0\nw 0 0x2018 0x1b\nw 0 0x30 0x0\nend\n";

/// The new rights of requester 0, which had "r", the new unit's entries, how `narrow` ends, the plan's stalls, and
/// the last word of the entry's write; or the fault line.
const UPDATES: [(&str, &str, Status, &str, &str); 3] = [
    ("rw", "2", Status::Done, STALL, "0x1b\n"),
    ("r", "2", Status::Done, "", "0x19\n"),
    (
        "rw",
        "3",
        Status::BadInput,
        "",
        "iopmp: the two unit tables differ\n",
    ),
];

#[test]
fn affected_requesters_stall(rt: HostRuntime) -> Result<(), Fail> {
    let alloc = rt.alloc();
    for (rights, entries, status, stall, last) in UPDATES {
        let input = format!(in alloc;
            "== old\n{UNIT}entries = 2\n{FIRST}\"r\"}}]\n{SECOND}== new\n{UNIT}entries = {entries}\n{FIRST}\"{rights}\"}}]\n{SECOND}== polls 8\n"
        )?;
        if status == Status::Done {
            let plan = format!(in alloc; "lane 1\n{stall}{READS}{last}{REST}")?;
            expect(&rt, "narrow", input.as_bytes(), status, plan.as_str())?;
        } else {
            expect(&rt, "narrow", input.as_bytes(), status, last)?;
        }
    }
    Ok(())
}

/// The update's input with this many entries in the new unit, and lane 2 of requester 1.
fn input_beside(alloc: Global, entries: &str) -> Result<String, Fail> {
    Ok(format!(in alloc;
        "== old\n{UNIT}entries = 2\n{FIRST}\"r\"}}]\n{SECOND}== new\n{UNIT}entries = {entries}\n{FIRST}\"rw\"}}]\n{SECOND}== polls 4096\n== lanes\nlane 2\nt 0 1 w 0x90000000 4 as a\nj a\nend\n"
    )?)
}

#[test]
fn an_unaffected_requester_passes(rt: HostRuntime) -> Result<(), Fail> {
    let alloc = rt.alloc();
    let input = input_beside(alloc, "2")?;
    let ended = called(&rt, "narrow live", input.as_bytes(), NONE, &FreeGate)?;
    assert_eq!(rt; ended.outcome.status, Status::Done);
    assert!(rt; ended.outcome.history.is_some());
    assert!(rt; has(&ended.taken, b" passed\n"));
    assert!(rt; has(&ended.taken, b" allowed 1\n"));
    let gate = Meeting::new();
    let ended = called(&rt, "narrow live", input.as_bytes(), NONE, &gate)?;
    assert_eq!(rt; ended.outcome.status, Status::Done);
    assert!(rt; gate.took_place());
    let other = input_beside(alloc, "3")?;
    let line = "iopmp: the two unit tables differ\n";
    expect(&rt, "narrow live", other.as_bytes(), Status::BadInput, line)
}

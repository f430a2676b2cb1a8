// The largest scripts, and lanes that give up.
use crate::Status;
use crate::tests::rows::UNIT;
use crate::tests::{NONE, called, count_of, expect, has};
use checker_workers::FreeGate;
use std::alloc::Global;
use std::test::Fail;

/// A script of 15 lanes whose sections each may make 65536 events, and one command more.
fn largest_script(alloc: Global, more: &str) -> Result<String, Fail> {
    let mut text = format!(in alloc; "iopmp 1\n{UNIT}\nboot\n")?;
    for lane in 0..16u8 {
        if lane > 0 {
            write!(text, "lane {lane}\n")?;
        }
        for _command in 0..16u8 {
            text.push_str("until 0 0x8 0x0 0x1 max 4096\n")?;
        }
        if lane == 1 {
            text.push_str(more)?;
        }
    }
    text.push_str("end\n")?;
    Ok(text)
}

#[test]
fn the_most_events_may_be_needed(rt: HostRuntime) -> Result<(), Fail> {
    let alloc = rt.alloc();
    let text = largest_script(alloc, "")?;
    let ended = called(&rt, "run", text.as_bytes(), NONE, &FreeGate)?;
    assert_eq!(rt; ended.outcome.status, Status::Done);
    assert!(rt; ended.taken.starts_with(b"events 65536\n"));
    assert!(rt;
        ended
            .taken
            .ends_with(b"section 15 stopped\nunit 0 0x0 0x0 0x0 0x0\nend\n")
    );
    let text = largest_script(alloc, "r 0 0x8\n")?;
    expect(
        &rt,
        "run",
        text.as_bytes(),
        Status::BadInput,
        "iopmp: need 1048592 of 1048576 events\n",
    )
}

/// Lane 1's judgement is held, and lane 2's reads miss.
const GIVE_UP: &str =
    "w 0 0x800 0x8\nw 0 0x1060 0x2\nw 0 0x8 0x1\nw 0 0x30 0x1\nlane 1\nt 0 3 r 0x0 4 as a\nj a\nlane 2\nuntil 0 0x30 0x1 0x1 max 2\nr 0 0x8\n";

/// What its report has, in whatever order the lanes came.
const GIVEN_UP: [&str; 5] = [
    "events 8\n",
    " 1 t 0 3 r 0x0 4 = queued\n",
    " 1 j 0 ",
    " = held\n",
    "section 0 done\nsection 1 done\nsection 2 stopped\n",
];

#[test]
fn lanes_give_up(rt: HostRuntime) -> Result<(), Fail> {
    let text = format!(in rt.alloc(); "iopmp 1\n{UNIT}\nboot\n{GIVE_UP}end\n")?;
    let ended = called(&rt, "run", text.as_bytes(), NONE, &FreeGate)?;
    assert_eq!(rt; ended.outcome.status, Status::Done);
    for part in GIVEN_UP {
        assert!(rt; has(&ended.taken, part.as_bytes()), "{part}");
    }
    assert_eq!(rt; count_of(&ended.taken, b" 2 r 0 0x30 = 0x0\n"), 2);
    Ok(())
}

/// A submission that stays queued, and judgements of it.
const HELD: &str = "w 0 0x800 0x8\nw 0 0x1060 0x2\nw 0 0x8 0x1\nw 0 0x30 0x1\nt 0 3 r 0x0 4 as a\n";

#[test]
fn the_longest_section_is_played(rt: HostRuntime) -> Result<(), Fail> {
    let mut text = format!(in rt.alloc(); "iopmp 1\n{UNIT}\nboot\n{HELD}")?;
    for _command in 0..255u8 {
        text.push_str("settle a max 4096\n")?;
    }
    text.push_str("settle a max 4091\nend\n")?;
    let ended = called(&rt, "run", text.as_bytes(), NONE, &FreeGate)?;
    assert_eq!(rt; ended.outcome.status, Status::Done);
    assert!(rt; ended.taken.starts_with(b"events 1048576\n"));
    assert_eq!(rt; count_of(&ended.taken, b" = held\n"), 1048571);
    Ok(())
}

// The command `live`: an update beside a lane, and its refusals.
use crate::tests::meeting::Meeting;
use crate::tests::{NONE, called, expect, has};
use crate::{Outcome, Status};
use checker_workers::FreeGate;
use event_words::{Event, Reply, Verdict};
use history_reports::replay_words;
use script_reader::read_script;
use std::alloc::Global;
use std::test::Fail;
use std::thread::Threads;

/// Two policies that differ in the rights of their one grant, and the polls.
const POLICIES: &str =
    "== old\n[unit]\nrrids = 1\ndomains = 1\nentries = 1\nqueue = 1\n[[domain]]\nname = \"a\"\nrrids = [0]\ngrant = [{from = 0x80000000, size = 0x1000, rights = \"r\"}]\n== new\n[unit]\nrrids = 1\ndomains = 1\nentries = 1\nqueue = 1\n[[domain]]\nname = \"a\"\nrrids = [0]\ngrant = [{from = 0x80000000, size = 0x1000, rights = \"rw\"}]\n== polls 4096\n";

/// The script of the same unit, by which its history is read.
const SCRIPT: &str =
    "iopmp 1\nunit rrids 1 domains 1 entries 1 mdcfg 0 k 0 srcmd 0 sps 0 queue 1 transl -\nboot\nend\n";

/// Whether each verdict is the old policy's before the drained reading and the new one's after the release,
/// which the lane with number 1 makes.
fn follows_policies(alloc: Global, outcome: &Outcome) -> Result<bool, Fail> {
    let Some(history) = &outcome.history else {
        return Ok(false);
    };
    let bytes = SCRIPT.as_bytes();
    let words = history.words();
    if bytes.len() > 4194304 || words.len() > 1048576 {
        return Ok(false);
    }
    let Ok(script) = read_script(alloc, bytes) else {
        return Err(Fail::new("no script"));
    };
    let Ok(replay) = replay_words(alloc, &script.shapes, words) else {
        return Err(Fail::new("no memory"));
    };
    let mut drained = false;
    let mut released = false;
    let mut follows = true;
    for logged in &replay.events {
        match (logged.event, logged.reply) {
            (Event::RegRead { caller: 1, .. }, Reply::Value(value)) => drained = value % 2 == 0,
            (
                Event::RegWrite {
                    caller: 1,
                    index: 12,
                    value: 0,
                    ..
                },
                _,
            ) => released = true,
            (_, Reply::Verdict(Verdict::Allowed { .. })) => follows = follows && released,
            (_, Reply::Verdict(Verdict::Denied(denial))) => {
                follows = follows && !drained && denial.kind == 2
            }
            _ => {}
        }
    }
    Ok(follows && released)
}

#[test]
fn an_update_is_played(rt: HostRuntime) -> Result<(), Fail> {
    let alloc = rt.alloc();
    let lane = "== lanes\nlane 2\nt 0 0 w 0x80000000 4 as a\nsettle a max 4096\nend\n";
    let text = format!(in alloc; "{POLICIES}{lane}")?;
    let ended = called(&rt, "live", text.as_bytes(), NONE, &FreeGate)?;
    assert_eq!(rt; ended.outcome.status, Status::Done);
    assert!(rt;
        has(
            &ended.taken,
            b"section 0 done\nsection 1 done\nsection 2 done\n"
        )
    );
    assert!(rt; follows_policies(alloc, &ended.outcome)?);
    let gate = Meeting::new();
    let ended = called(&rt, "live", text.as_bytes(), NONE, &gate)?;
    assert_eq!(rt; ended.outcome.status, Status::Done);
    assert!(rt; gate.took_place());
    Ok(())
}

/// What follows the number of polls, and the fault line.
const REFUSED: [(&str, &str); 7] = [
    ("", "iopmp: line 22 code 3\n"),
    ("== lanes\n", "iopmp: line 23 code 3\n"),
    ("== lanes\nlane 1\n", "iopmp: line 23 code 3\n"),
    ("== lanes\nr 0 0x8\n", "iopmp: line 23 code 3\n"),
    ("== lanes\nlane 2\nw 0 0x8\n", "iopmp: line 24 code 3\n"),
    ("== lanes\nlane 2\nr 1 0x8\n", "iopmp: line 24 code 11\n"),
    (
        "== lanes\nlane 2\nr 0 0x9\nend\n",
        "iopmp: line 24 code 6\n",
    ),
];

#[test]
fn bad_lanes_have_their_line(rt: HostRuntime) -> Result<(), Fail> {
    let alloc = rt.alloc();
    for (lanes, output) in REFUSED {
        let text = format!(in alloc; "{POLICIES}{lanes}")?;
        expect(&rt, "live", text.as_bytes(), Status::BadInput, output)?;
    }
    let mut text = format!(in alloc; "{POLICIES}== lanes\nlane 2\n")?;
    for _command in 0..128u8 {
        text.push_str("until 0 0x8 0x0 0x1 max 4096\n")?;
    }
    text.push_str("end\n")?;
    expect(
        &rt,
        "live",
        text.as_bytes(),
        Status::BadInput,
        "iopmp: need 1572864 of 1048576 events\n",
    )
}

// The command `faults`: what its readings show, and what they leave.
use crate::Status;
use crate::tests::rows::UNIT;
use crate::tests::{NONE, called};
use checker_workers::FreeGate;
use std::test::Fail;

/// A script of a boot section and the text of its late violations.
#[derive(Clone, Copy)]
struct Readings {
    shows: &'static str,
    units: &'static str,
    commands: &'static str,
    first: &'static str,
    /// From the first unit's line on.
    last: &'static str,
}

/// Requester 3 is in domain 2, which has entries, and checking is on; no entry matches.
const READINGS: [Readings; 6] = [
    Readings {
        shows: "the second violation is shown once",
        units: UNIT,
        commands: "w 0 0x800 0x8\nw 0 0x1060 0x2\nw 0 0x8 0x1\nt 0 3 r 0x10 1 as a\nj a\nt 0 3 w 0x20 1 as b\nj b\nr 0 0x74\nr 0 0x74\n",
        first: "events 9\n",
        last: "unit 0 0x53 0x4 0x0 0xffff0003\n7 0 mfr 0 0 0x8\n8 0 mfr 0 -\nleft 0 0\nend\n",
    },
    Readings {
        shows: "windows are taken in turn, and the first violation isn't shown",
        units: UNIT,
        commands: "w 0 0x800 0x8\nw 0 0x1060 0x2\nw 0 0x8 0x1\nt 0 40 r 0x0 1 as a\nj a\nt 0 40 r 0x0 1 as b\nj b\nt 0 3 r 0x0 1 as c\nj c\nr 0 0x74\nr 0 0x74\nr 0 0x74\n",
        first: "events 12\n",
        last: "unit 0 0x63 0x0 0x0 0xffff0028\n9 0 mfr 0 0 0x8\n10 0 mfr 0 2 0x100\n11 0 mfr 0 -\nleft 0 0\nend\n",
    },
    Readings {
        shows: "a wide access, by its aim and its submission",
        units: UNIT,
        commands: "w 0 0x800 0x8\nw 0 0x1060 0x2\nw 0 0x8 0x1\nt 0 3 r 0x10 1 as a\nj a\nt 0 3 w 0x20 65 as b\nj b\nr 0 0x74\n",
        first: "events 9\n",
        last: "unit 0 0x53 0x4 0x0 0xffff0003\n8 0 mfr 0 0 0x8\nleft 0 0\nend\n",
    },
    Readings {
        shows: "submissions that are refused while all are stalled",
        units: UNIT,
        commands: "w 0 0x800 0x8\nw 0 0x8 0x1\nw 0 0x60 0x8\nw 0 0x30 0x1\nt 0 3 r 0x10 1 as a\nt 0 3 r 0x10 1 as b\nt 0 2 r 0x10 1 as c\nr 0 0x74\n",
        first: "events 8\n",
        last: "unit 0 0x73 0x4 0x0 0xffff0003\n7 0 mfr 0 0 0x4\nleft 0 0\nend\n",
    },
    Readings {
        shows: "after the record is cleared the next violation is a first one",
        units: UNIT,
        commands: "w 0 0x8 0x1\nt 0 3 r 0x10 1 as a\nj a\nw 0 0x64 0x1\nt 0 3 r 0x10 1 as b\nj b\nr 0 0x74\n",
        first: "events 7\n",
        last: "unit 0 0x53 0x4 0x0 0xffff0003\n6 0 mfr 0 -\nleft 0 0\nend\n",
    },
    Readings {
        shows: "each unit by itself, and one that is never read",
        units: "unit rrids 4 domains 3 entries 8 mdcfg 0 k 0 srcmd 0 sps 0 queue 1 transl -\nunit rrids 64 domains 3 entries 8 mdcfg 0 k 0 srcmd 0 sps 0 queue 1 transl -",
        commands: "w 1 0x8 0x1\nt 1 3 r 0x10 1 as a\nj a\nt 1 3 r 0x10 1 as b\nj b\nt 1 63 r 0x10 1 as c\nj c\nr 0 0x74\n",
        first: "events 8\n",
        last: "unit 0 0x0 0x0 0x0 0x0\nunit 1 0x53 0x4 0x0 0xffff0003\n7 0 mfr 0 -\nleft 0 0\nleft 1 2\nend\n",
    },
];

#[test]
fn later_violations_are_shown(rt: HostRuntime) -> Result<(), Fail> {
    let alloc = rt.alloc();
    for row in READINGS {
        let shows = row.shows;
        let units = row.units;
        let commands = row.commands;
        let text = format!(in alloc; "iopmp 1\n{units}\nboot\n{commands}end\n")?;
        let ended = called(&rt, "faults", text.as_bytes(), NONE, &FreeGate)?;
        assert_eq!(rt; ended.outcome.status, Status::Done, "{shows}");
        assert!(rt; ended.taken.starts_with(row.first.as_bytes()), "{shows}");
        assert!(rt; ended.taken.ends_with(row.last.as_bytes()), "{shows}");
    }
    Ok(())
}

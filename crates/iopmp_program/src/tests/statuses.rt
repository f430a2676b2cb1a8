// Scripts with a boot section alone, and each way in which a call ends.
use crate::Status;
use crate::tests::rows::{ROWS, UNIT};
use crate::tests::{NONE, called, expect, failing_at, has};
use checker_workers::FreeGate;
use std::test::Fail;

#[test]
fn scripts_are_run(rt: HostRuntime) -> Result<(), Fail> {
    for row in ROWS {
        let unit = row.unit;
        let commands = row.commands;
        let text = format!(in rt.alloc(); "iopmp 1\n{unit}\nboot\n{commands}end\n")?;
        let ended = called(&rt, "run", text.as_bytes(), NONE, &FreeGate)?;
        assert_eq!(rt; ended.outcome.status, Status::Done, "{}", row.shows);
        assert!(rt; ended.outcome.history.is_some());
        for part in row.parts {
            assert!(rt; has(&ended.taken, part.as_bytes()), "{}", row.shows);
        }
    }
    Ok(())
}

const USAGE: &str =
    "iopmp: usage: iopmp run | compile | plan | live | gen N | soak N | faults | audit | narrow | narrow live\n";

const EMPTY_REPORT: &str = "events 0\nsection 0 done\nunit 0 0x0 0x0 0x0 0x0\nend\n";

const TOO_LONG: &str = "iopmp: input is longer than 4194304 bytes\n";

/// The words, what stands after `iopmp 1`, the unit line and `boot` of the input, how the program
/// ends, and what it writes.
const ANSWERS: [(&str, &str, Status, &str); 6] = [
    ("run", "end\n", Status::Done, EMPTY_REPORT),
    ("run now", "end\n", Status::Usage, USAGE),
    ("", "end\n", Status::Usage, USAGE),
    ("--help", "end\n", Status::Usage, USAGE),
    ("compile 1", "end\n", Status::Usage, USAGE),
    ("run", "", Status::BadInput, "iopmp: line 4 code 3\n"),
];

/// Which call fails, how the program ends on an empty boot section, and what it writes.
const FAILING: [(Option<u32>, Option<u32>, usize, Status, &str); 3] = [
    (None, Some(1), 4, Status::WriteFault, "even"),
    (Some(0), None, 4096, Status::ReadFault, ""),
    (None, Some(0), 4096, Status::WriteFault, ""),
];

#[test]
fn each_status_comes(rt: HostRuntime) -> Result<(), Fail> {
    let alloc = rt.alloc();
    for (words, commands, status, output) in ANSWERS {
        let text = format!(in alloc; "iopmp 1\n{UNIT}\nboot\n{commands}")?;
        expect(&rt, words, text.as_bytes(), status, output)?;
    }
    let text = format!(in alloc; "iopmp 1\n{UNIT}\nboot\nend\n")?;
    for (read, write, chunk, status, output) in FAILING {
        let faults = failing_at(read, write, chunk);
        let ended = called(&rt, "run", text.as_bytes(), faults, &FreeGate)?;
        assert_eq!(rt; ended.outcome.status, status);
        assert_eq!(rt; ended.taken.as_slice(), output.as_bytes());
    }
    expect(&rt, "run", b"", Status::BadInput, "iopmp: line 1 code 2\n")?;
    let long = Vec::from_elem(alloc, b' ', 4194305)?;
    expect(&rt, "run", &long, Status::TooLong, TOO_LONG)
}

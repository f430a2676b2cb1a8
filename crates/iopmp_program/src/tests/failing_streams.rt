// Streams of which one call fails, for each call that a run makes.
use crate::Status;
use crate::tests::{Ended, Faults, called, failing_at};
use checker_workers::FreeGate;
use std::test::Fail;
use std::thread::Threads;

/// Reads of the last byte and past the end of a range.
const SCRIPT: &str =
    "iopmp 1\nunit rrids 4 domains 3 entries 8 mdcfg 0 k 0 srcmd 0 sps 0 queue 1 transl -\nboot\nw 0 0x800 0x8\nw 0 0x1060 0x2\nw 0 0x8 0x1\nw 0 0x2000 0x200001ff\nw 0 0x2008 0x19\nt 0 3 r 0x80000fff 1 as a\nj a\nt 0 3 r 0x80001000 1 as b\nj b\nend\n";

/// How many reads of 7 bytes the script takes, its end included.
const READS: u32 = 35;

/// How many writes of 16 bytes its report takes.
const WRITES: u32 = 21;

/// How the script ends over such streams.
fn run_over<R: Threads + Sync + AllocGlobal>(rt: &R, faults: Faults) -> Result<Ended, Fail> {
    called(rt, "run", SCRIPT.as_bytes(), faults, &FreeGate)
}

#[test]
fn each_read_may_fail(rt: HostRuntime) -> Result<(), Fail> {
    for call in 0..READS {
        let ended = run_over(&rt, failing_at(Some(call), None, 7))?;
        assert_eq!(rt; ended.outcome.status, Status::ReadFault, "{call}");
        assert!(rt; ended.taken.is_empty());
    }
    let late = run_over(&rt, failing_at(Some(READS), None, 7))?;
    assert_eq!(rt; late.outcome.status, Status::Done);
    Ok(())
}

#[test]
fn each_write_may_fail(rt: HostRuntime) -> Result<(), Fail> {
    let whole = run_over(&rt, failing_at(None, None, 1))?;
    assert_eq!(rt; whole.outcome.status, Status::Done);
    for call in 0..WRITES {
        let ended = run_over(&rt, failing_at(None, Some(call), 16))?;
        assert_eq!(rt; ended.outcome.status, Status::WriteFault, "{call}");
        assert_eq!(rt; ended.taken.len(), call as usize * 16);
        assert!(rt; whole.taken.starts_with(&ended.taken));
    }
    let late = run_over(&rt, failing_at(None, Some(WRITES), 16))?;
    assert_eq!(rt; late.taken.as_slice(), whole.taken.as_slice());
    Ok(())
}

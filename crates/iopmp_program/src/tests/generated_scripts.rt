// The command `gen`: the first lines of a generated script, and the last.
use crate::Status;
use crate::tests::{NONE, called};
use checker_workers::FreeGate;
use std::test::Fail;

const BEGINNING: &str =
    "iopmp 1\nunit rrids 3 domains 2 entries 8 mdcfg 0 k 0 srcmd 0 sps 0 queue 4 transl -\nboot\nw 0 0x10 0x1\nw 0 0x800 0x2\nw 0 0x804 0x4\nw 0 0x1000 0x2\nw 0 0x1020 0x4\nw 0 0x1040 0x6\nw 0 0x2000 0x200001ff\nw 0 0x2008 0x19\nw 0 0x2010 0x20000fff\nw 0 0x2018 0x1b\nw 0 0x2020 0x20001000\nw 0 0x2030 0x20003000\nw 0 0x2038 0xd\nw 0 0x8 0x1\nlane 1\nt 0 0 r 0x80006ef3 13 as s0\nj s0\nt 0 1 r 0x80005029 8 as s1\nj s1\nt 0 3 w 0x8000ccf6 2 as s2\n";

#[test]
fn a_generated_script_begins_so(rt: HostRuntime) -> Result<(), Fail> {
    let ended = called(&rt, "gen 0", b"", NONE, &FreeGate)?;
    assert_eq!(rt; ended.outcome.status, Status::Done);
    assert!(rt; ended.taken.starts_with(BEGINNING.as_bytes()));
    assert!(rt; ended.taken.ends_with(b"j s4095\nend\n"));
    Ok(())
}

// The command `soak`: its summary, and lanes beside each other.
use crate::Status;
use crate::tests::meeting::Meeting;
use crate::tests::{NONE, called};
use std::test::Fail;

/// The counts add up to the verdicts.
const SUMMARY: &str =
    "soak 0\nverdicts 32768\nallowed 11063\ndenied 1 0\ndenied 2 1726\ndenied 3 1542\ndenied 4 2\ndenied 5 10193\ndenied 6 8242\ndenied 7 0\nend\n";

#[test]
fn lanes_of_a_generated_script_run_beside_each_other(rt: HostRuntime) -> Result<(), Fail> {
    let gate = Meeting::new();
    let ended = called(&rt, "soak 0", b"", NONE, &gate)?;
    assert_eq!(rt; ended.outcome.status, Status::Done);
    assert!(rt; gate.took_place());
    let Some(history) = &ended.outcome.history else {
        return Err(Fail::new("no history"));
    };
    assert_eq!(rt; history.words().len(), 65550);
    assert_eq!(rt; ended.taken.as_slice(), SUMMARY.as_bytes());
    Ok(())
}

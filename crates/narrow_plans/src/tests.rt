// Narrow plans between policies that are read off texts.
ghost use Rattle.std.specs.Prelude.{IfOk};
ghost use Rattle.policy_compiler.specs.Policies.{IsPolicy};

use crate::narrow;
use event_words::Command;
use policy_compiler::{CompileError, Policy, read_policy};
use std::alloc::Global;
use std::test::Fail;
use update_planner::{PlanError, plan};

/// The write of RRIDSCP that stalls requester 0.
const STALL_FIRST: Command = Command::Write {
    unit: 0,
    index: 0x38 / 4,
    value: 0x4000_0000,
};

/// The poll of MDSTALL that waits until no stalled requester is busy.
const POLL: Command = Command::Until {
    unit: 0,
    index: 0x30 / 4,
    mask: 1,
    value: 0,
    max: 8,
};

/// The write of the configuration of entry 0 that gives requester 0 its new right.
const NEW_RIGHT: Command = Command::Write {
    unit: 0,
    index: 0x2008 / 4,
    value: 0x1b,
};

/// The write of MDSTALL that releases all requesters.
const RELEASE: Command = Command::Write {
    unit: 0,
    index: 0x30 / 4,
    value: 0,
};

const MAY_BE_READ: &str = "size = 0x1000, rights = \"r\"";

const MAY_BE_WRITTEN: &str = "size = 0x1000, rights = \"rw\"";

/// Two entries hold them.
const TWELVE_BYTES: &str = "size = 12, rights = \"r\"";

/// A policy of two requesters on a unit with so many entries: the first has this at 0x80000000, and the
/// second may read and write a page.
fn two_grants(alloc: Global, entries: u8, first: &str) -> Result<Policy, Fail>
    ensures { IfOk result IsPolicy }
{
    let text = format!(in alloc;
        "[unit]\nrrids = 2\ndomains = 2\nentries = {entries}\nqueue = 1\n[[domain]]\nname = \"a\"\nrrids = [0]\ngrant = [{{from = 0x80000000, {first}}}]\n[[domain]]\nname = \"b\"\nrrids = [1]\ngrant = [{{from = 0x90000000, size = 0x1000, rights = \"rw\"}}]\n"
    )?;
    let Ok(policy) = read_policy(alloc, text.as_bytes()) else {
        return Err(Fail::from("the policy is refused"));
    };
    Ok(policy)
}

#[test]
fn the_requester_with_a_new_right_is_stalled(rt: HostRuntime) -> Result<(), Fail> {
    let alloc = rt.alloc();
    let old = two_grants(alloc, 2, MAY_BE_READ)?;
    let new = two_grants(alloc, 2, MAY_BE_WRITTEN)?;
    let Ok(whole) = plan(alloc, &old, &new, 8) else {
        return Err(Fail::from("there is no plan"));
    };
    let Ok(some) = narrow(alloc, &old, &new, 8) else {
        return Err(Fail::from("there is no narrow plan"));
    };
    let Ok(none) = narrow(alloc, &new, &new, 8) else {
        return Err(Fail::from("there is no narrow plan of equal policies"));
    };
    // After the stalls come the same commands: a poll, eleven writes of tables, and the release.
    let rest = whole.section.commands.get(1..);
    assert_eq!(rt; whole.section.commands.len(), 14);
    assert_eq!(rt; some.section.commands.first().copied(), Some(STALL_FIRST));
    assert_eq!(rt; some.section.commands.get(1).copied(), Some(POLL));
    assert_eq!(rt; some.section.commands.get(9).copied(), Some(NEW_RIGHT));
    assert_eq!(rt; some.section.commands.last().copied(), Some(RELEASE));
    assert_eq!(rt; some.section.commands.get(1..), rest);
    assert_eq!(rt; none.section.commands.get(0..), rest);
    Ok(())
}

#[test]
fn there_is_no_plan(rt: HostRuntime) -> Result<(), Fail> {
    let alloc = rt.alloc();
    let fits = two_grants(alloc, 2, MAY_BE_READ)?;
    let larger = two_grants(alloc, 3, MAY_BE_READ)?;
    let unfit = two_grants(alloc, 2, TWELVE_BYTES)?;
    let differ = PlanError::ShapesDiffer { field: 2 };
    assert_eq!(rt; narrow(alloc, &fits, &larger, 1).err(), Some(differ));
    let error = CompileError::TooManyEntries { need: 3, have: 2 };
    let older = PlanError::Compile {
        newer: false,
        error,
    };
    assert_eq!(rt; narrow(alloc, &unfit, &unfit, 1).err(), Some(older));
    let newer = PlanError::Compile { newer: true, error };
    assert_eq!(rt; narrow(alloc, &fits, &unfit, 1).err(), Some(newer));
    Ok(())
}

// Plans between policies that are read off texts.
ghost use Rattle.std.specs.Prelude.{IfOk};
ghost use Rattle.policy_compiler.specs.Policies.{IsPolicy};

use crate::{PlanError, plan};
use event_words::Command;
use policy_compiler::{CompileError, Policy, read_policy};
use std::alloc::Global;
use std::test::Fail;

const MAY_BE_READ: &str = "grant = [{from = 0x80000000, size = 0x1000, rights = \"r\"}]\n";

const MAY_BE_WRITTEN: &str = "grant = [{from = 0x80000000, size = 0x1000, rights = \"rw\"}]\n";

const IS_GUARDED: &str = "guard = [{from = 0, size = 4, rights = \"\"}]\n";

const TWO_WORDS: &str =
    "grant = [{from = 0, size = 4, rights = \"r\"}, {from = 8, size = 4, rights = \"r\"}]\n";

/// The register and the value of each table write.
const TABLE_WRITES: [(u32, u32); 6] = [
    (0x10, 0x0),
    (0x800, 0x1),
    (0x1000, 0x2),
    (0x2000, 0x2000_01ff),
    (0x2004, 0x0),
    (0x2008, 0x1b),
];

/// A policy of one domain on a unit with so many entries.
fn policy(alloc: Global, entries: u8, rules: &str, more: &str) -> Result<Policy, Fail>
    ensures { IfOk result IsPolicy }
{
    let text = format!(in alloc;
        "[unit]\nrrids = 1\ndomains = 1\nentries = {entries}\nqueue = 1\n[[domain]]\nname = \"a\"\nrrids = [0]\n{rules}{more}"
    )?;
    match read_policy(alloc, text.as_bytes()) {
        Ok(policy) => Ok(policy),
        Err(_) => Err(Fail::from("the policy is refused")),
    }
}

fn write(offset: u32, value: u32) -> Command {
    Command::Write {
        unit: 0,
        index: offset / 4,
        value,
    }
}

#[test]
fn a_page_may_be_written_too(rt: HostRuntime) -> Result<(), Fail> {
    let alloc = rt.alloc();
    let old = policy(alloc, 1, MAY_BE_READ, "")?;
    let new = policy(alloc, 1, MAY_BE_WRITTEN, "")?;
    let Ok(plan) = plan(alloc, &old, &new, 8) else {
        return Err(Fail::from("there is no plan"));
    };
    let commands = &plan.section.commands;
    assert_eq!(rt; commands.len(), TABLE_WRITES.len() + 3);
    assert_eq!(rt; plan.section.slots, 0);
    let poll = Command::Until {
        unit: 0,
        index: 0x30 / 4,
        mask: 1,
        value: 0,
        max: 8,
    };
    assert_eq!(rt; commands.first().copied(), Some(write(0x30, 1)));
    assert_eq!(rt; commands.get(1).copied(), Some(poll));
    assert_eq!(rt; commands.last().copied(), Some(write(0x30, 0)));
    for (command, want) in commands.iter().skip(2).zip(TABLE_WRITES.iter()) {
        assert_eq!(rt; *command, write(want.0, want.1));
    }
    Ok(())
}

fn refusal(alloc: Global, old: &Policy, new: &Policy) -> Option<PlanError>
    requires old { IsPolicy old.now }
    requires new { IsPolicy new.now }
{
    match plan(alloc, old, new, 1) {
        Ok(_) => None,
        Err(error) => Some(error),
    }
}

#[test]
fn there_is_no_plan(rt: HostRuntime) -> Result<(), Fail> {
    let alloc = rt.alloc();
    let one_entry = policy(alloc, 1, MAY_BE_READ, "")?;
    let two_entries = policy(alloc, 2, MAY_BE_READ, "")?;
    let two_domains = policy(alloc, 1, MAY_BE_READ, IS_GUARDED)?;
    let two_words = policy(alloc, 1, TWO_WORDS, "")?;
    let differ = PlanError::ShapesDiffer { field: 2 };
    assert_eq!(rt; refusal(alloc, &two_domains, &two_entries), Some(differ));
    let older = PlanError::Compile {
        newer: false,
        error: CompileError::TooManyDomains { need: 2, have: 1 },
    };
    assert_eq!(rt; refusal(alloc, &two_domains, &two_words), Some(older));
    let newer = PlanError::Compile {
        newer: true,
        error: CompileError::TooManyEntries { need: 2, have: 1 },
    };
    assert_eq!(rt; refusal(alloc, &one_entry, &two_words), Some(newer));
    Ok(())
}

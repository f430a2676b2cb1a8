// Which words are a command.
use crate::tests::split_words;
use crate::words::command_in;
use command_answers::Subcommand;
use std::test::Fail;

/// Words, and the command that they are, if they are one.
const WORDS: [(&str, Option<Subcommand>); 33] = [
    ("run", Some(Subcommand::Run)),
    ("compile", Some(Subcommand::Compile)),
    ("plan", Some(Subcommand::Plan)),
    ("live", Some(Subcommand::Live)),
    ("narrow", Some(Subcommand::Narrow)),
    ("narrow live", Some(Subcommand::NarrowLive)),
    ("gen 7", Some(Subcommand::Gen(7))),
    ("gen 0000000007", Some(Subcommand::Gen(7))),
    ("gen 4294967295", Some(Subcommand::Gen(4294967295))),
    ("soak 7", Some(Subcommand::Soak(7))),
    ("soak 0000000007", Some(Subcommand::Soak(7))),
    ("soak 4294967295", Some(Subcommand::Soak(4294967295))),
    ("faults", Some(Subcommand::Faults)),
    ("audit", Some(Subcommand::Audit)),
    ("", None),
    ("Run", None),
    ("fault", None),
    ("faults 7", None),
    ("run run", None),
    ("plan 7", None),
    ("narrow run", None),
    ("plan live", None),
    ("audit 7", None),
    ("audits", None),
    ("live narrow", None),
    ("narrow live live", None),
    ("gen", None),
    ("gen 00000000007", None),
    ("soak 4294967296", None),
    ("gen 0x7", None),
    ("gen +7", None),
    ("gen 7a", None),
    ("soak 7 7", None),
];

#[test]
fn words_are_commands(rt: HostRuntime) -> Result<(), Fail> {
    let alloc = rt.alloc();
    for (words, command) in WORDS {
        let strings = split_words(alloc, words)?;
        assert_eq!(rt; command_in(&strings), command, "{words}");
    }
    let empty = [String::from_str(alloc, "gen")?, String::new(alloc)];
    assert_eq!(rt; command_in(&empty), None);
    Ok(())
}

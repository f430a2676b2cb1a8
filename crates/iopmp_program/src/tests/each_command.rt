// Each command goes the same way: its input is read, answered, and written.
use crate::Status;
use crate::tests::{Faults, NONE, called, failing_at};
use checker_workers::FreeGate;
use std::test::Fail;
use std::thread::Threads;

/// A command with an input that it accepts.
#[derive(Clone, Copy)]
pub struct Accepted {
    pub words: &'static str,
    pub input: &'static str,
    /// Whether it reads the input.
    pub reads: bool,
    /// Whether it plays lanes, and hands out their history.
    pub plays: bool,
}

/// Each command once.
pub const COMMANDS: [Accepted; 10] = [
    Accepted {
        words: "run",
        input: "iopmp 1\nunit rrids 4 domains 3 entries 8 mdcfg 0 k 0 srcmd 0 sps 0 queue 1 transl -\nboot\nr 0 0x8\nlane 1\nr 0 0x8\nend\n",
        reads: true,
        plays: true,
    },
    Accepted {
        words: "compile",
        input: "[unit]\nrrids = 1\ndomains = 1\nentries = 1\nqueue = 1\n[[domain]]\nname = \"a\"\nrrids = [0]\ngrant = [{from = 0x80000000, size = 0x1000, rights = \"r\"}]\n",
        reads: true,
        plays: false,
    },
    Accepted {
        words: "plan",
        input: "== old\n[unit]\nrrids = 1\ndomains = 1\nentries = 1\nqueue = 1\n== new\n[unit]\nrrids = 1\ndomains = 1\nentries = 1\nqueue = 1\n== polls 8\n",
        reads: true,
        plays: false,
    },
    Accepted {
        words: "live",
        input: "== old\n[unit]\nrrids = 1\ndomains = 1\nentries = 1\nqueue = 1\n== new\n[unit]\nrrids = 1\ndomains = 1\nentries = 1\nqueue = 1\n== polls 8\n== lanes\nlane 2\nr 0 0x8\nend\n",
        reads: true,
        plays: true,
    },
    Accepted {
        words: "narrow",
        input: "== old\n[unit]\nrrids = 1\ndomains = 1\nentries = 1\nqueue = 1\n== new\n[unit]\nrrids = 1\ndomains = 1\nentries = 1\nqueue = 1\n== polls 8\n",
        reads: true,
        plays: false,
    },
    Accepted {
        words: "narrow live",
        input: "== old\n[unit]\nrrids = 1\ndomains = 1\nentries = 1\nqueue = 1\n== new\n[unit]\nrrids = 1\ndomains = 1\nentries = 1\nqueue = 1\n== polls 8\n== lanes\nlane 2\nr 0 0x8\nend\n",
        reads: true,
        plays: true,
    },
    Accepted {
        words: "gen 0",
        input: "",
        reads: false,
        plays: false,
    },
    Accepted {
        words: "soak 0",
        input: "",
        reads: false,
        plays: true,
    },
    Accepted {
        words: "faults",
        input: "iopmp 1\nunit rrids 4 domains 3 entries 8 mdcfg 0 k 0 srcmd 0 sps 0 queue 1 transl -\nboot\nr 0 0x74\nlane 1\nr 0 0x74\nend\n",
        reads: true,
        plays: true,
    },
    Accepted {
        words: "audit",
        input: "iopmp 1\nunit rrids 4 domains 3 entries 8 mdcfg 0 k 0 srcmd 0 sps 0 queue 1 transl -\nboot\nend\n== report\nevents 0\nsection 0 done\nunit 0 0x0 0x0 0x0 0x0\nend\n",
        reads: true,
        plays: false,
    },
];

/// How a command ends over such streams, how many bytes the sink took, and whether there is a history.
fn ended<R: Threads + Sync + AllocGlobal>(
    rt: &R,
    words: &str,
    input: &[u8],
    faults: Faults,
) -> Result<(Status, usize, bool), Fail> {
    let ended = called(rt, words, input, faults, &FreeGate)?;
    Ok((
        ended.outcome.status,
        ended.taken.len(),
        ended.outcome.history.is_some(),
    ))
}

/// A fault of the input or of the source, for a command that reads; the others are done.
fn if_read(command: &Accepted, status: Status) -> Status {
    if command.reads { status } else { Status::Done }
}

#[test]
fn each_command_goes_the_same_way(rt: HostRuntime) -> Result<(), Fail> {
    for command in COMMANDS {
        let words = command.words;
        let input = command.input.as_bytes();
        let (status, _bytes, told) = ended(&rt, words, input, NONE)?;
        assert_eq!(rt; (status, told), (Status::Done, command.plays), "{words}");
        let (status, _bytes, _told) = ended(&rt, words, b"", NONE)?;
        assert_eq!(rt; status, if_read(&command, Status::BadInput), "{words}");
        let (status, _bytes, _told) = ended(&rt, words, input, failing_at(Some(0), None, 8))?;
        assert_eq!(rt; status, if_read(&command, Status::ReadFault), "{words}");
        let first = ended(&rt, words, input, failing_at(None, Some(0), 8))?;
        assert_eq!(rt; first, (Status::WriteFault, 0, false), "{words}");
        let second = ended(&rt, words, input, failing_at(None, Some(1), 2))?;
        assert_eq!(rt; second, (Status::WriteFault, 2, false), "{words}");
    }
    Ok(())
}

/// Reads of 8192 bytes give all that an input may have in 512 calls. The read after these is too much,
/// and none is made after that one.
#[test]
fn a_long_input_is_read_to_the_limit(rt: HostRuntime) -> Result<(), Fail> {
    let long = Vec::from_elem(rt.alloc(), b' ', 4210688)?;
    for command in COMMANDS {
        let words = command.words;
        let (status, _bytes, _told) = ended(&rt, words, &long, failing_at(Some(512), None, 8192))?;
        assert_eq!(rt; status, if_read(&command, Status::ReadFault), "{words}");
        let (status, _bytes, _told) = ended(&rt, words, &long, failing_at(Some(513), None, 8192))?;
        assert_eq!(rt; status, if_read(&command, Status::TooLong), "{words}");
    }
    Ok(())
}

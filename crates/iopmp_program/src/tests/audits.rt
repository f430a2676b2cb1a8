// Reports that are audited, and those that are refused before.
use crate::Status;
use crate::tests::expect;
use crate::tests::rows::UNIT;
use std::test::Fail;

/// Reads of the last byte and past the end of a range.
const READS: &str =
    "w 0 0x800 0x8\nw 0 0x1060 0x2\nw 0 0x8 0x1\nw 0 0x2000 0x200001ff\nw 0 0x2008 0x19\nt 0 3 r 0x80000fff 1 as a\nj a\nt 0 3 r 0x80001000 1 as b\nj b\n";

/// A wide access beside a read of another lane.
const LANES: &str =
    "w 0 0x8 0x1\nlane 1\nr 0 0x8\nt 0 3 r 0x80000000 128 as a\nj a\nlane 2\nr 0 0x30\n";

/// What stands between `boot` and `end`, a report, how the call ends, and what it writes.
#[derive(Clone, Copy)]
struct Case {
    commands: &'static str,
    report: &'static str,
    status: Status,
    output: &'static str,
}

const CASES: [Case; 17] = [
    Case {
        commands: "",
        report: "events 0\nsection 0 done\nunit 0 0x0 0x0 0x0 0x0\nend\n",
        status: Status::Done,
        output: "yes\n",
    },
    Case {
        commands: "",
        report: "events 0\nsection 0 stopped\nunit 0 0x0 0x0 0x0 0x0\nend\n",
        status: Status::NotLegal,
        output: "no 7\n",
    },
    Case {
        commands: "",
        report: "events 0\nsection 0 done\nunit 0 0x0 0x0 0x0 0x0\n",
        status: Status::NotLegal,
        output: "no 9\n",
    },
    Case {
        commands: "",
        report: "events 0\nsection 0 done\nunit 0 0x0 0x0 0x0 0x0\nend",
        status: Status::NotLegal,
        output: "no 9\n",
    },
    Case {
        commands: "",
        report: "events 0\nsection 0 done\nunit 0 0x0 0x0 0x0 0x0\nend\n\n",
        status: Status::NotLegal,
        output: "no 10\n",
    },
    Case {
        commands: "",
        report: "events 0\nsection 0 done\nunit 0 0x1 0x0 0x0 0x0\nend\n",
        status: Status::NotLegal,
        output: "no 8\n",
    },
    Case {
        commands: "",
        report: "",
        status: Status::NotLegal,
        output: "no 6\n",
    },
    Case {
        commands: "",
        report: "events 0\r\nsection 0 done\nunit 0 0x0 0x0 0x0 0x0\nend\n",
        status: Status::NotLegal,
        output: "no 6\n",
    },
    Case {
        commands: "",
        report: "events 00\nsection 0 done\nunit 0 0x0 0x0 0x0 0x0\nend\n",
        status: Status::NotLegal,
        output: "no 6\n",
    },
    // the script needs one event, and the one that is told is missing
    Case {
        commands: "",
        report: "events 1\nsection 0 done\nunit 0 0x0 0x0 0x0 0x0\nend\n",
        status: Status::NotLegal,
        output: "no 7\n",
    },
    Case {
        commands: "",
        report: "events 2\nsection 0 done\nunit 0 0x0 0x0 0x0 0x0\nend\n",
        status: Status::NotLegal,
        output: "no 6\n",
    },
    Case {
        commands: READS,
        report: "events 9\n0 0 w 0 0x800 0x8 = 0x8\n1 0 w 0 0x1060 0x2 = 0x2\n2 0 w 0 0x8 0x1 = 0x2007\n3 0 w 0 0x2000 0x200001ff = 0x200001ff\n4 0 w 0 0x2008 0x19 = 0x19\n5 0 t 0 3 r 0x80000fff 1 = passed\n6 0 j 0 5 = allowed 3\n7 0 t 0 3 r 0x80001000 1 = passed\n8 0 j 0 7 = denied 5 - err noirq\nsection 0 done\nunit 0 0x53 0x20000400 0x0 0xffff0003\nend\n",
        status: Status::Done,
        output: "yes\n",
    },
    Case {
        commands: READS,
        report: "events 9\n0 0 w 0 0x800 0x8 = 0x8\n1 0 w 0 0x1060 0x2 = 0x2\n2 0 w 0 0x8 0x1 = 0x2007\n3 0 w 0 0x2000 0x200001ff = 0x200001ff\n4 0 w 0 0x2008 0x19 = 0x19\n5 0 t 0 3 r 0x80000fff 1 = passed\n6 0 j 0 5 = allowed 3\n7 0 t 0 3 r 0x80001000 1 = passed\n8 0 j 0 7 = allowed 3\nsection 0 done\nunit 0 0x53 0x20000400 0x0 0xffff0003\nend\n",
        status: Status::NotLegal,
        output: "no 24\n",
    },
    // another lane's read between an aim and its submission
    Case {
        commands: LANES,
        report: "events 6\n0 0 w 0 0x8 0x1 = 0x2007\n1 1 r 0 0x8 = 0x2007\n2 1 a 0x80000000 = aimed\n3 2 r 0 0x30 = 0x0\n4 1 t 0 3 r @ 128 = passed\n5 1 j 0 4 = denied 5 - err noirq\nsection 0 done\nsection 1 done\nsection 2 done\nunit 0 0x53 0x20000000 0x0 0xffff0003\nend\n",
        status: Status::Done,
        output: "yes\n",
    },
    // a lane before the boot section ended
    Case {
        commands: LANES,
        report: "events 6\n0 2 r 0 0x30 = 0x0\n1 0 w 0 0x8 0x1 = 0x2007\n2 1 r 0 0x8 = 0x2007\n3 1 a 0x80000000 = aimed\n4 1 t 0 3 r @ 128 = passed\n5 1 j 0 4 = denied 5 - err noirq\nsection 0 done\nsection 1 done\nsection 2 done\nunit 0 0x53 0x20000000 0x0 0xffff0003\nend\n",
        status: Status::NotLegal,
        output: "no 14\n",
    },
    // a lane's events in another order
    Case {
        commands: LANES,
        report: "events 6\n0 0 w 0 0x8 0x1 = 0x2007\n1 1 a 0x80000000 = aimed\n2 1 r 0 0x8 = 0x2007\n3 2 r 0 0x30 = 0x0\n4 1 t 0 3 r @ 128 = passed\n5 1 j 0 4 = denied 5 - err noirq\nsection 0 done\nsection 1 done\nsection 2 done\nunit 0 0x53 0x20000000 0x0 0xffff0003\nend\n",
        status: Status::NotLegal,
        output: "no 15\n",
    },
    // a lane that isn't whole
    Case {
        commands: LANES,
        report: "events 5\n0 0 w 0 0x8 0x1 = 0x2007\n1 1 r 0 0x8 = 0x2007\n2 1 a 0x80000000 = aimed\n3 1 t 0 3 r @ 128 = passed\n4 1 j 0 3 = denied 5 - err noirq\nsection 0 done\nsection 1 done\nsection 2 done\nunit 0 0x53 0x20000000 0x0 0xffff0003\nend\n",
        status: Status::NotLegal,
        output: "no 21\n",
    },
];

/// What stands after the unit line of an input, and the one line of its refusal.
const REFUSED: [(&str, &str); 3] = [
    ("boot\nend\n", "iopmp: line 5 code 3\n"),
    ("boot\n== report\n", "iopmp: line 4 code 3\n"),
    (
        "boot\nq\nend\n == \treport\r\n== report",
        "iopmp: line 4 code 3\n",
    ),
];

#[test]
fn reports_are_audited(rt: HostRuntime) -> Result<(), Fail> {
    let alloc = rt.alloc();
    for case in CASES {
        let commands = case.commands;
        let report = case.report;
        let text = format!(in alloc; "iopmp 1\n{UNIT}\nboot\n{commands}end\n== report\n{report}")?;
        expect(&rt, "audit", text.as_bytes(), case.status, case.output)?;
    }
    for (script, output) in REFUSED {
        let text = format!(in alloc; "iopmp 1\n{UNIT}\n{script}")?;
        expect(&rt, "audit", text.as_bytes(), Status::BadInput, output)?;
    }
    expect(
        &rt,
        "audit",
        b"",
        Status::BadInput,
        "iopmp: line 1 code 3\n",
    )
}

// The command `plan`: a plan, the bad lines outside the policies, and refusals.
use crate::Status;
use crate::tests::expect;
use std::test::Fail;

const PLAN: &str =
    "lane 1\nw 0 0x30 0x1\nuntil 0 0x30 0x1 0x0 max 8\nw 0 0x10 0x0\nw 0 0x800 0x1\nw 0 0x1000 0x2\nw 0 0x2000 0x200001ff\nw 0 0x2004 0x0\nw 0 0x2008 0x1b\nw 0 0x30 0x0\nend\n";

/// The last key of the old policy's unit, that of the new one's, the new one's rights, how `plan` ends,
/// and what it writes.
const UPDATES: [(&str, &str, &str, Status, &str); 5] = [
    ("entries = 1\n", "entries = 1\n", "rw", Status::Done, PLAN),
    (
        "entries = 1\n",
        "entries = 2\n",
        "rw",
        Status::BadInput,
        "iopmp: the two unit tables differ\n",
    ),
    (
        "k = 1\n",
        "k = 1\n",
        "rw",
        Status::BadInput,
        "iopmp: old policy key unit.?\n",
    ),
    (
        "entries = 1\n",
        "entries = 1\n",
        "wr",
        Status::BadInput,
        "iopmp: new policy range grant 0 0.rights\n",
    ),
    (
        "entries = 1\n",
        "entries = 0\n",
        "rw",
        Status::BadInput,
        "iopmp: new policy range unit.entries\n",
    ),
];

#[test]
fn updates_are_planned(rt: HostRuntime) -> Result<(), Fail> {
    let unit = "[unit]\nrrids = 1\ndomains = 1\nqueue = 1\n";
    let domain =
        "[[domain]]\nname = \"a\"\nrrids = [0]\ngrant = [{from = 0x80000000, size = 0x1000, rights = ";
    for (old, new, rights, status, output) in UPDATES {
        let input = format!(in rt.alloc();
            "# an update\n== old\n{unit}{old}{domain}\"r\"}}]\n == new \n{unit}{new}{domain}\"{rights}\"}}]\n== polls 8\n"
        )?;
        expect(&rt, "plan", input.as_bytes(), status, output)?;
    }
    Ok(())
}

/// Inputs whose headings are bad, with the bad line and its code, and one whose policies are.
const HEADINGS: [(&str, &str); 10] = [
    ("", "line 1 code 2"),
    ("# none\n", "line 2 code 2"),
    ("== new\n", "line 1 code 2"),
    ("\u{7f}\n", "line 1 code 1"),
    ("== old\n== new\n", "line 3 code 3"),
    ("== old\n", "line 2 code 3"),
    ("== old\n== new\n== polls 0\n", "line 3 code 6"),
    ("== old\n== new\n== polls x\n", "line 3 code 5"),
    (
        "== old\n== new\n== polls 1\n\n# more\n== lanes\n",
        "line 6 code 3",
    ),
    ("== old\n== new\n== polls 1\n", "old policy key unit"),
];

#[test]
fn bad_headings_have_their_line(rt: HostRuntime) -> Result<(), Fail> {
    for (input, fault) in HEADINGS {
        let output = format!(in rt.alloc(); "iopmp: {fault}\n")?;
        expect(
            &rt,
            "plan",
            input.as_bytes(),
            Status::BadInput,
            output.as_str(),
        )?;
    }
    Ok(())
}

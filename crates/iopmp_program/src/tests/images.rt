// The command `compile`: an image, and needs that the unit doesn't meet.
use crate::Status;
use crate::tests::expect;
use std::test::Fail;

const TWO_DOMAINS: &str =
    "[[domain]]\nname = \"a\"\nrrids = [0]\nguard = [{from = 0x1000, size = 0x3000, rights = \"r\"}]\ngrant = [{from = 0, size = 0x8000, rights = \"rw\"}]\n[[domain]]\nname = \"b\"\nrrids = [1]\nguard = [{from = 0, size = 4, rights = \"\"}]\ngrant = [{from = 0x8000, size = 0x1000, rights = \"rwx\"}]\n";

const IMAGE: &str =
    "iopmp 1\nunit rrids 2 domains 4 entries 5 mdcfg 0 k 0 srcmd 0 sps 0 queue 2 transl -\nboot\nw 0 0x10 0x3\nw 0 0x800 0x2\nw 0 0x804 0x3\nw 0 0x808 0x4\nw 0 0x80c 0x5\nw 0 0x1000 0xa\nw 0 0x1020 0x14\nw 0 0x2000 0x400\nw 0 0x2004 0x0\nw 0 0x2008 0x0\nw 0 0x2010 0x1000\nw 0 0x2014 0x0\nw 0 0x2018 0x9\nw 0 0x2020 0x0\nw 0 0x2024 0x0\nw 0 0x2028 0x10\nw 0 0x2030 0xfff\nw 0 0x2034 0x0\nw 0 0x2038 0x1b\nw 0 0x2040 0x21ff\nw 0 0x2044 0x0\nw 0 0x2048 0x1f\nw 0 0x8 0x1\nend\n";

/// The unit's domains and entries, how `compile` ends, and what it writes.
const UNITS: [(u8, u8, Status, &str); 4] = [
    (4, 5, Status::Done, IMAGE),
    (
        4,
        4,
        Status::BadInput,
        "iopmp: policy needs 5 entries of 4\n",
    ),
    (
        3,
        5,
        Status::BadInput,
        "iopmp: policy needs 4 domains of 3\n",
    ),
    (
        3,
        4,
        Status::BadInput,
        "iopmp: policy needs 4 domains of 3\n",
    ),
];

#[test]
fn images_and_needs(rt: HostRuntime) -> Result<(), Fail> {
    for (domains, entries, status, output) in UNITS {
        let text = format!(in rt.alloc();
            "[unit]\nrrids = 2\nqueue = 2\ndomains = {domains}\nentries = {entries}\n{TWO_DOMAINS}"
        )?;
        expect(&rt, "compile", text.as_bytes(), status, output)?;
    }
    Ok(())
}

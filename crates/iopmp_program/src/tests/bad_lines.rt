// Scripts that are refused, with the first bad line and its code.
use crate::Status;
use crate::tests::expect;
use crate::tests::rows::UNIT;
use std::test::Fail;

/// Commands of a boot section, the first bad line and its code.
const BAD_LINES: [(&str, u32, u8); 23] = [
    ("w 0 0x8\n", 4, 4),
    ("w 0 0x9 0x1\n", 4, 6),
    ("w 0 0x8 0x100000000\n", 4, 6),
    ("w 0 0x8 18446744073709551616\n", 4, 6),
    ("w 0 000000000000000000008 1\n", 4, 5),
    ("w 0 0x 0x1\n", 4, 5),
    ("w 1 0x8 0x1\n", 4, 11),
    ("q 0\n", 4, 3),
    ("t 0 64 r 0x0 1 as a\n", 4, 6),
    ("t 0 3 q 0x0 1 as a\n", 4, 7),
    ("t 0 3 r 0x0 4097 as a\n", 4, 6),
    (
        "w 0 0x800 0x8\nw 0 0x1060 0x2\nw 0 0x8 0x1\nw 0 0x2000 0xffffffff\nw 0 0x2004 0xffffffff\nw 0 0x2008 0x19\nt 0 3 r 0xfffffffffffff 2 as a\n",
        10,
        6,
    ),
    ("t 0 3 r 0x0 1 at a\n", 4, 4),
    ("t 0 3 r 0x0 1 as A\n", 4, 8),
    ("t 0 3 r 0x0 1 as a\nt 0 3 r 0x0 1 as a\n", 5, 9),
    ("j a\n", 4, 10),
    ("settle a max 4097\n", 4, 10),
    ("until 0 0x8 0x0 0x1 max 0\n", 4, 6),
    ("through 0 1 3 r 0x0 1 max 1\n", 4, 11),
    ("lane 2\n", 4, 3),
    ("lane x\n", 4, 5),
    ("# \x7f\n", 4, 1),
    ("end\n", 5, 3),
];

/// Unit lines, and their codes.
const BAD_UNITS: [(&str, u8); 3] = [
    (
        "unit rrids 65 domains 3 entries 8 mdcfg 0 k 0 srcmd 0 sps 0 queue 1 transl -",
        6,
    ),
    (
        "unit rrids 4 domains 3 entries 8 mdcfg 0 k 1 srcmd 0 sps 0 queue 1 transl -",
        6,
    ),
    (
        "unit rrids 4 domains 3 entries 8 mdcfg 0 k 0 srcmd 0 sps 0 queue 1 transl x",
        5,
    ),
];

#[test]
fn the_first_bad_line_is_named(rt: HostRuntime) -> Result<(), Fail> {
    let alloc = rt.alloc();
    for (commands, line, code) in BAD_LINES {
        let text = format!(in alloc; "iopmp 1\n{UNIT}\nboot\n{commands}end\n")?;
        let output = format!(in alloc; "iopmp: line {line} code {code}\n")?;
        expect(
            &rt,
            "run",
            text.as_bytes(),
            Status::BadInput,
            output.as_str(),
        )?;
    }
    for (unit, code) in BAD_UNITS {
        let text = format!(in alloc; "iopmp 1\n{unit}\nboot\nend\n")?;
        let output = format!(in alloc; "iopmp: line 2 code {code}\n")?;
        expect(
            &rt,
            "run",
            text.as_bytes(),
            Status::BadInput,
            output.as_str(),
        )?;
    }
    Ok(())
}

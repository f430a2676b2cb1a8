// Scripts with a boot section alone, and parts of their reports.

/// A script and what its report has.
#[derive(Clone, Copy)]
pub struct Row {
    /// What it shows.
    pub shows: &'static str,
    /// Its unit line.
    pub unit: &'static str,
    /// Its commands, one a line.
    pub commands: &'static str,
    /// Parts of the report, each of one or more lines. Those past the last are empty.
    pub parts: [&'static str; 4],
}

/// A unit of four requesters, three domains and eight entries.
pub const UNIT: &str =
    "unit rrids 4 domains 3 entries 8 mdcfg 0 k 0 srcmd 0 sps 0 queue 1 transl -";

/// Each row's script and its report.
pub const ROWS: [Row; 27] = [
    Row {
        shows: "reads of the last byte and past the end of a range",
        unit: UNIT,
        commands: "w 0 0x800 0x8\nw 0 0x1060 0x2\nw 0 0x8 0x1\nw 0 0x2000 0x200001ff\nw 0 0x2008 0x19\nt 0 3 r 0x80000fff 1 as a\nj a\nt 0 3 r 0x80001000 1 as b\nj b\n",
        parts: [
            "events 9\n",
            "5 0 t 0 3 r 0x80000fff 1 = passed\n6 0 j 0 5 = allowed 3\n7 0 t 0 3 r 0x80001000 1 = passed\n8 0 j 0 7 = denied 5 - err noirq\nsection 0 done\nunit 0 0x53 0x20000400 0x0 0xffff0003\nend\n",
            "",
            "",
        ],
    },
    Row {
        shows: "a partial hit counts for priority entries alone",
        unit: UNIT,
        commands: "w 0 0x800 0x8\nw 0 0x1060 0x2\nw 0 0x8 0x1\nw 0 0x2000 0x200001ff\nw 0 0x2008 0x19\nt 0 3 r 0x80000fff 2 as a\nj a\nw 0 0x10 0x1\nt 0 3 r 0x80000fff 2 as b\nj b\n",
        parts: [
            "6 0 j 0 5 = denied 5 - err noirq\n7 0 w 0 0x10 0x1 = 0x1\n",
            "9 0 j 0 8 = denied 4 0 err noirq\nsection 0 done\nunit 0 0x53 0x200003ff 0x0 0xffff0003\n",
            "",
            "",
        ],
    },
    Row {
        shows: "the first priority entry decides",
        unit: UNIT,
        commands: "w 0 0x800 0x8\nw 0 0x1060 0x2\nw 0 0x8 0x1\nw 0 0x10 0x1\nw 0 0x2000 0x200001ff\nw 0 0x2008 0x19\nw 0 0x2010 0x200001ff\nw 0 0x2018 0x1f\nt 0 3 w 0x80000000 4 as a\nj a\n",
        parts: [
            "9 0 j 0 8 = denied 2 0 err noirq\n",
            "unit 0 0x25 0x20000000 0x0 0x3\n",
            "",
            "",
        ],
    },
    Row {
        shows: "a range from the top of the entry before",
        unit: UNIT,
        commands: "w 0 0x800 0x8\nw 0 0x1060 0x2\nw 0 0x8 0x1\nw 0 0x2000 0x400\nw 0 0x2008 0x9\nw 0 0x2010 0x400\nw 0 0x2018 0x9\nt 0 3 r 0x0 1 as a\nj a\nt 0 3 r 0xfff 1 as b\nj b\nt 0 3 r 0x1000 1 as c\nj c\n",
        parts: [
            "8 0 j 0 7 = allowed 3\n9 ",
            "10 0 j 0 9 = allowed 3\n11 ",
            "12 0 j 0 11 = denied 5 - err noirq\nsection 0 done\nunit 0 0x53 0x400 0x0 0xffff0003\n",
            "",
        ],
    },
    Row {
        shows: "a range of all addresses",
        unit: UNIT,
        commands: "w 0 0x800 0x8\nw 0 0x1060 0x2\nw 0 0x8 0x1\nw 0 0x2000 0xffffffff\nw 0 0x2004 0xffffffff\nw 0 0x2008 0x19\nt 0 3 r 0xffffffffff 1 as a\nj a\n",
        parts: [
            "4 0 w 0 0x2004 0xffffffff = 0x3ffff\n",
            "7 0 j 0 6 = allowed 3\n",
            "",
            "",
        ],
    },
    Row {
        shows: "an access past the addresses of narrow ones",
        unit: UNIT,
        commands: "w 0 0x800 0x8\nw 0 0x1060 0x2\nw 0 0x8 0x1\nw 0 0x2000 0xffffffff\nw 0 0x2004 0xffffffff\nw 0 0x2008 0x19\nt 0 3 r 0xffffffffff 2 as a\nj a\n",
        parts: [
            "4 0 w 0 0x2004 0xffffffff = 0x3ffff\n",
            "6 0 a 0xffffffffff = aimed\n7 0 ",
            "\n8 0 j 0 7 = allowed 3\n",
            "",
        ],
    },
    Row {
        shows: "an access of a whole page, and one that begins a byte later",
        unit: UNIT,
        commands: "w 0 0x800 0x8\nw 0 0x1060 0x2\nw 0 0x8 0x1\nw 0 0x2000 0x200001ff\nw 0 0x2008 0x19\nt 0 3 r 0x80000000 4096 as a\nj a\nt 0 3 r 0x80000001 4096 as b\nj b\n",
        parts: [
            "events 11\n",
            "5 0 a 0x80000000 = aimed\n6 0 t 0 3 r @ 4096 = passed\n7 0 j 0 6 = allowed 3\n8 0 a 0x80000001 = aimed\n9 0 t 0 3 r @ 4096 = passed\n10 0 j 0 9 = denied 5 - err noirq\nsection 0 done\nunit 0 0x53 0x20000000 0x0 0xffff0003\n",
            "",
            "",
        ],
    },
    Row {
        shows: "an access to the last byte of all",
        unit: UNIT,
        commands: "w 0 0x800 0x8\nw 0 0x1060 0x2\nw 0 0x8 0x1\nt 0 3 r 0xfffffffffffff 1 as a\nj a\n",
        parts: [
            "section 0 done\nunit 0 0x53 0xffffffff 0x3ffff 0xffff0003\nend\n",
            "",
            "",
            "",
        ],
    },
    Row {
        shows: "entries of domains",
        unit: UNIT,
        commands: "w 0 0x800 0x4\nw 0 0x804 0x2\nw 0 0x808 0x6\nw 0 0x1000 0x2\nw 0 0x1020 0x4\nw 0 0x1040 0x8\nw 0 0x8 0x1\nw 0 0x2030 0x200001ff\nw 0 0x2038 0x19\nw 0 0x2040 0x200005ff\nw 0 0x2048 0x19\nt 0 0 r 0x80000000 4 as a\nj a\nt 0 2 r 0x80001000 4 as b\nj b\nt 0 1 r 0x80000000 4 as c\nj c\nt 0 0 r 0x80001000 4 as d\nj d\n",
        parts: [
            "12 0 j 0 11 = allowed 0\n",
            "14 0 j 0 13 = allowed 2\n",
            "16 0 j 0 15 = denied 5 - err noirq\n",
            "18 0 j 0 17 = denied 5 - err noirq\n",
        ],
    },
    Row {
        shows: "locked entries",
        unit: UNIT,
        commands: "w 0 0x800 0x8\nw 0 0x1060 0x2\nw 0 0x8 0x1\nw 0 0x4c 0x6\nw 0 0x4c 0x2\nw 0 0x2020 0x55\nw 0 0x2030 0x55\n",
        parts: [
            "3 0 w 0 0x4c 0x6 = 0x6\n4 0 w 0 0x4c 0x2 = 0x6\n5 0 w 0 0x2020 0x55 = 0x0\n6 0 w 0 0x2030 0x55 = 0x55\n",
            "",
            "",
            "",
        ],
    },
    Row {
        shows: "enable stays set",
        unit: UNIT,
        commands: "t 0 3 w 0x1000 4 as a\nj a\nw 0 0x8 0x1\nw 0 0x8 0x0\nt 0 3 w 0x1000 4 as b\nj b\n",
        parts: [
            "0 0 t 0 3 w 0x1000 4 = passed\n1 0 j 0 0 = allowed 3\n2 0 w 0 0x8 0x1 = 0x2007\n3 0 w 0 0x8 0x0 = 0x2007\n4 0 t 0 3 w 0x1000 4 = passed\n5 0 j 0 4 = denied 5 - err noirq\n",
            "",
            "",
            "",
        ],
    },
    Row {
        shows: "the first record stays until it is cleared",
        unit: UNIT,
        commands: "w 0 0x800 0x8\nw 0 0x1060 0x2\nw 0 0x8 0x1\nt 0 3 r 0x10 1 as a\nj a\nt 0 3 w 0x20 1 as b\nj b\nr 0 0x64\nr 0 0x68\nw 0 0x64 0x1\nt 0 3 x 0x30 1 as c\nj c\nr 0 0x64\nr 0 0x68\n",
        parts: [
            "7 0 r 0 0x64 = 0x53\n8 0 r 0 0x68 = 0x4\n9 0 w 0 0x64 0x1 = 0x52\n",
            "12 0 r 0 0x64 = 0x57\n13 0 r 0 0x68 = 0xc\n",
            "",
            "",
        ],
    },
    Row {
        shows: "interrupt suppression",
        unit: UNIT,
        commands: "w 0 0x800 0x8\nw 0 0x1060 0x2\nw 0 0x8 0x1\nw 0 0x60 0x2\nw 0 0x2000 0x200001ff\nw 0 0x2008 0x38\nw 0 0x2010 0x200001ff\nw 0 0x2018 0x38\nt 0 3 r 0x80000000 4 as a\nj a\nw 0 0x2018 0x18\nt 0 3 r 0x80000000 4 as b\nj b\n",
        parts: [
            "9 0 j 0 8 = denied 1 0 err noirq\n",
            "12 0 j 0 11 = denied 1 0 err irq\nsection 0 done\nunit 0 0x13 0x20000000 0x0 0x3\n",
            "",
            "",
        ],
    },
    Row {
        shows: "a full stall queue",
        unit: UNIT,
        commands: "w 0 0x800 0x8\nw 0 0x1060 0x2\nw 0 0x8 0x1\nw 0 0x30 0x1\nt 0 3 r 0x0 4 as a\nt 0 3 r 0x0 4 as b\nj a\nj b\nw 0 0x30 0x0\nj a\n",
        parts: [
            "events 9\n",
            "3 0 w 0 0x30 0x1 = 0x0\n4 0 t 0 3 r 0x0 4 = queued\n5 0 t 0 3 r 0x0 4 = busy\n6 0 j 0 4 = held\n7 0 w 0 0x30 0x0 = 0x0\n8 0 j 0 4 = denied 5 - err noirq\n",
            "",
            "",
        ],
    },
    Row {
        shows: "a stall violation",
        unit: UNIT,
        commands: "w 0 0x800 0x8\nw 0 0x1060 0x2\nw 0 0x8 0x1\nw 0 0x60 0x8\nw 0 0x30 0x1\nt 0 3 r 0x0 4 as a\nt 0 3 r 0x40 4 as b\nr 0 0x64\nr 0 0x68\n",
        parts: [
            "3 0 w 0 0x60 0x8 = 0x8\n4 0 w 0 0x30 0x1 = 0x0\n5 0 t 0 3 r 0x0 4 = queued\n6 0 t 0 3 r 0x40 4 = stalled 7 - err noirq\n7 0 r 0 0x64 = 0x73\n8 0 r 0 0x68 = 0x10\n",
            "",
            "",
            "",
        ],
    },
    Row {
        shows: "a stall that isn't drained",
        unit: UNIT,
        commands: "w 0 0x800 0x8\nw 0 0x1060 0x2\nw 0 0x8 0x1\nw 0 0x2000 0x200001ff\nw 0 0x2008 0x19\nt 0 3 r 0x80000000 4 as a\nw 0 0x30 0x1\nr 0 0x30\nw 0 0x2008 0x18\nj a\nr 0 0x30\n",
        parts: [
            "5 0 t 0 3 r 0x80000000 4 = passed\n6 0 w 0 0x30 0x1 = 0x1\n7 0 r 0 0x30 = 0x1\n8 0 w 0 0x2008 0x18 = 0x18\n9 0 j 0 5 = denied 1 0 err noirq\n10 0 r 0 0x30 = 0x0\n",
            "",
            "",
            "",
        ],
    },
    Row {
        shows: "one requester is released",
        unit: UNIT,
        commands: "w 0 0x800 0x8\nw 0 0x1060 0x2\nw 0 0x8 0x1\nw 0 0x2000 0x200001ff\nw 0 0x2008 0x19\nt 0 3 r 0x80000000 4 as a\nw 0 0x30 0x1\nj a\nr 0 0x30\nw 0 0x2008 0x18\nw 0 0x38 0x80000003\nt 0 3 r 0x80000000 4 as b\nj b\nt 0 2 r 0x0 4 as c\n",
        parts: [
            "5 0 t 0 3 r 0x80000000 4 = passed\n6 0 w 0 0x30 0x1 = 0x1\n7 0 j 0 5 = allowed 3\n8 0 r 0 0x30 = 0x0\n9 0 w 0 0x2008 0x18 = 0x18\n10 0 w 0 0x38 0x80000003 = 0x80000003\n11 0 t 0 3 r 0x80000000 4 = passed\n12 0 j 0 11 = denied 1 0 err noirq\n13 0 t 0 2 r 0x0 4 = queued\n",
            "",
            "",
            "",
        ],
    },
    Row {
        shows: "all reads miss",
        unit: UNIT,
        commands: "w 0 0x800 0x8\nw 0 0x1060 0x2\nw 0 0x8 0x1\nuntil 0 0x30 0x1 0x1 max 2\nr 0 0x8\n",
        parts: [
            "events 5\n",
            "3 0 r 0 0x30 = 0x0\n4 0 r 0 0x30 = 0x0\nsection 0 stopped\n",
            "",
            "",
        ],
    },
    Row {
        shows: "the number of entries in the format that has it",
        unit: "unit rrids 4 domains 3 entries 8 mdcfg 2 k 1 srcmd 2 sps 0 queue 1 transl -",
        commands: "w 0 0x1020 0x10\nw 0 0x2020 0x200001ff\nw 0 0x2028 0x1b\nw 0 0x8 0x20001\nw 0 0x8 0x0\nt 0 2 r 0x80000000 4 as a\nj a\nt 0 2 w 0x80000000 4 as b\nj b\n",
        parts: [
            "3 0 w 0 0x8 0x20001 = 0x22507\n4 0 w 0 0x8 0x0 = 0x22507\n",
            "6 0 j 0 5 = allowed 2\n",
            "8 0 j 0 7 = denied 2 2 err noirq\nsection 0 done\nunit 0 0x25 0x20000000 0x0 0x20002\n",
            "",
        ],
    },
    Row {
        shows: "locked requester tables",
        unit: UNIT,
        commands: "w 0 0x40 0x2\nw 0 0x1060 0x6\nw 0 0x1060 0x7\nw 0 0x1060 0x0\nw 0 0x38 0x40000009\n",
        parts: [
            "0 0 w 0 0x40 0x2 = 0x2\n1 0 w 0 0x1060 0x6 = 0x4\n2 0 w 0 0x1060 0x7 = 0x5\n3 0 w 0 0x1060 0x0 = 0x5\n4 0 w 0 0x38 0x40000009 = 0xc0000009\n",
            "",
            "",
            "",
        ],
    },
    Row {
        shows: "secondary permissions",
        unit: "unit rrids 4 domains 3 entries 8 mdcfg 0 k 0 srcmd 0 sps 1 queue 1 transl -",
        commands: "w 0 0x800 0x8\nw 0 0x1060 0x2\nw 0 0x8 0x1\nw 0 0x2000 0x200001ff\nw 0 0x2008 0x1f\nw 0 0x1068 0x2\nt 0 3 r 0x80000000 4 as a\nj a\nt 0 3 x 0x80000000 4 as b\nj b\nt 0 3 w 0x80000000 4 as c\nj c\n",
        parts: [
            "2 0 w 0 0x8 0x1 = 0x2807\n",
            "7 0 j 0 6 = allowed 3\n",
            "9 0 j 0 8 = allowed 3\n",
            "11 0 j 0 10 = denied 2 0 err noirq\n",
        ],
    },
    Row {
        shows: "a translated requester",
        unit: "unit rrids 4 domains 3 entries 8 mdcfg 0 k 0 srcmd 0 sps 0 queue 1 transl 5",
        commands: "r 0 0x8\nr 0 0x10\nt 0 3 r 0x100 4 as a\nj a\n",
        parts: [
            "0 0 r 0 0x8 = 0x3006\n1 0 r 0 0x10 = 0x50000\n2 0 t 0 3 r 0x100 4 = passed\n3 0 j 0 2 = allowed 5\n",
            "",
            "",
            "",
        ],
    },
    Row {
        shows: "no bus error",
        unit: UNIT,
        commands: "w 0 0x800 0x8\nw 0 0x1060 0x2\nw 0 0x8 0x1\nw 0 0x60 0x4\nt 0 3 r 0x10 1 as a\nj a\n",
        parts: [
            "5 0 j 0 4 = denied 5 - quiet noirq\nsection 0 done\nunit 0 0x53 0x4 0x0 0xffff0003\n",
            "",
            "",
            "",
        ],
    },
    Row {
        shows: "a violation that is muted is not recorded",
        unit: UNIT,
        commands: "w 0 0x800 0x8\nw 0 0x1060 0x2\nw 0 0x8 0x1\nw 0 0x2000 0x200001ff\nw 0 0x2008 0x138\nt 0 3 r 0x80000000 4 as a\nj a\n",
        parts: [
            "6 0 j 0 5 = denied 1 0 quiet noirq\nsection 0 done\nunit 0 0x0 0x0 0x0 0x0\n",
            "",
            "",
            "",
        ],
    },
    Row {
        shows: "an entry whose bottom is written",
        unit: UNIT,
        commands: "w 0 0x800 0x8\nw 0 0x1060 0x2\nw 0 0x8 0x1\nw 0 0x2000 0x400\nw 0 0x2010 0x800\nw 0 0x2018 0x9\nt 0 3 r 0x1400 4 as a\nj a\nw 0 0x2000 0x600\nt 0 3 r 0x1400 4 as b\nj b\n",
        parts: [
            "7 0 j 0 6 = allowed 3\n8 0 w 0 0x2000 0x600 = 0x600\n",
            "10 0 j 0 9 = denied 5 - err noirq\nsection 0 done\nunit 0 0x53 0x500 0x0 0xffff0003\n",
            "",
            "",
        ],
    },
    Row {
        shows: "an access through two units",
        unit: "unit rrids 4 domains 3 entries 8 mdcfg 0 k 0 srcmd 0 sps 0 queue 1 transl 5\nunit rrids 8 domains 3 entries 8 mdcfg 1 k 2 srcmd 1 sps 0 queue 1 transl -",
        commands: "w 1 0x8 0x40001\nthrough 0 1 3 r 0x100 4 max 2\n",
        parts: [
            "events 5\n0 0 w 1 0x8 0x40001 = 0x22287\n1 0 t 0 3 r 0x100 4 = passed\n2 0 j 0 1 = allowed 5\n3 0 t 1 5 r 0x100 4 = passed\n4 0 j 1 3 = denied 5 - err noirq\nsection 0 done\nunit 0 0x0 0x0 0x0 0x0\nunit 1 0x53 0x40 0x0 0xffff0005\nend\n",
            "",
            "",
            "",
        ],
    },
    Row {
        shows: "an access that waits, and one that finds the queue full",
        unit: UNIT,
        commands: "w 0 0x800 0x8\nw 0 0x1060 0x2\nw 0 0x8 0x1\nw 0 0x30 0x1\nthrough 0 3 r 0x0 4 max 2\nthrough 0 3 r 0x0 4 max 2\n",
        parts: [
            "events 8\n",
            "3 0 w 0 0x30 0x1 = 0x0\n4 0 t 0 3 r 0x0 4 = queued\n5 0 j 0 4 = held\n6 0 j 0 4 = held\n7 0 t 0 3 r 0x0 4 = busy\nsection 0 done\nunit 0 0x0 0x0 0x0 0x0\n",
            "",
            "",
        ],
    },
];

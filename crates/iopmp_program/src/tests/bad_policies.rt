// Policies that are refused, with their first fault.
use crate::Status;
use crate::tests::expect;
use std::test::Fail;

/// The rule of a policy that is not refused.
const RULE: &str = "from = 0x80000000, size = 0x1000, rights = \"r\"";

/// More keys of the unit, the requesters of the one domain and what follows them, the rule of its one
/// grant, and the fault.
const BAD_POLICIES: [(&str, &str, &str, &str); 12] = [
    ("rrids = 1\nk = 1\n", "[0]", RULE, "key unit.?"),
    ("rrids = \"a\"\n", "[0]", RULE, "key unit.rrids"),
    ("rrids = 65\n", "[0]", RULE, "range unit.rrids"),
    ("srcmd = 2\nrrids = 33\n", "[0]", RULE, "range unit.srcmd"),
    ("rrids = 1\n", "[1]", RULE, "range domain 0.rrids"),
    (
        "rrids = 1\n",
        "[0]",
        "from = 0x80000000, size = 0x1000, rights = \"wr\"",
        "range grant 0 0.rights",
    ),
    (
        "rrids = 1\n",
        "[0]",
        "from = 2, size = 0x1000, rights = \"r\"",
        "range grant 0 0.from",
    ),
    (
        "rrids = 1\n",
        "[0]",
        "from = 4, size = 4503599627370492, rights = \"r\"",
        "range grant 0 0.size",
    ),
    ("", "[0]", RULE, "key unit.rrids"),
    (
        "rrids = 1\n",
        "[0]\nguard = [{from = 0, size = 6, rights = \"r\"}]",
        RULE,
        "range guard 0 0.size",
    ),
    (
        "rrids = 1\n",
        "[0]\n[[domain]]\nname = \"a\"\nrrids = [0]",
        RULE,
        "name domain 1.name",
    ),
    ("rrids = 1\n", "[0", RULE, "toml"),
];

#[test]
fn the_first_fault_is_named(rt: HostRuntime) -> Result<(), Fail> {
    let alloc = rt.alloc();
    for (unit, requesters, rule, fault) in BAD_POLICIES {
        let text = format!(in alloc;
            "[unit]\ndomains = 1\nentries = 1\nqueue = 1\n{unit}[[domain]]\nname = \"a\"\nrrids = {requesters}\ngrant = [{{{rule}}}]\n"
        )?;
        let output = format!(in alloc; "iopmp: policy {fault}\n")?;
        expect(
            &rt,
            "compile",
            text.as_bytes(),
            Status::BadInput,
            output.as_str(),
        )?;
    }
    let text = b"[unit]\nrrids = 1\ndomains = 1\nentries = 1\nqueue = 1\n\xff";
    expect(
        &rt,
        "compile",
        text,
        Status::BadInput,
        "iopmp: policy toml\n",
    )
}

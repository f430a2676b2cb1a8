// Policies as texts: faults, an image, and decisions.
use crate::{Image, Part, Path, PolicyError, compile, policy_kind, read_policy};
use event_words::{Access, Kind};
use std::alloc::Global;
use std::test::Fail;

const UNIT: &str = "[unit]\nrrids = 2\ndomains = 4\nentries = 5\nqueue = 2\n";

const DOMAINS: &str =
    "[[domain]]\nname = \"a\"\nrrids = [0]\nguard = [{from = 0x1000, size = 0x3000, rights = \"r\"}]\ngrant = [{from = 0, size = 0x8000, rights = \"rw\"}]\n[[domain]]\nname = \"b\"\nrrids = [1]\nguard = [{from = 0, size = 4, rights = \"\"}]\ngrant = [{from = 0x8000, size = 0x1000, rights = \"rwx\"}]\n";

/// A block of 2^52 bytes, and bytes that end there and are no block.
const LAST_BYTES: &str =
    "[unit]\nrrids = 2\ndomains = 4\nentries = 5\nqueue = 2\n[[domain]]\nname = \"a\"\nrrids = [0]\ngrant = [{from = 0, size = 4503599627370496, rights = \"r\"}, {from = 4, size = 4503599627370492, rights = \"r\"}]\n";

const WRITES: [(u32, u32); 23] = [
    (0x10, 0x3),
    (0x800, 0x2),
    (0x804, 0x3),
    (0x808, 0x4),
    (0x80c, 0x5),
    (0x1000, 0xa),
    (0x1020, 0x14),
    (0x2000, 0x400),
    (0x2004, 0x0),
    (0x2008, 0x0),
    (0x2010, 0x1000),
    (0x2014, 0x0),
    (0x2018, 0x9),
    (0x2020, 0x0),
    (0x2024, 0x0),
    (0x2028, 0x10),
    (0x2030, 0xfff),
    (0x2034, 0x0),
    (0x2038, 0x1b),
    (0x2040, 0x21ff),
    (0x2044, 0x0),
    (0x2048, 0x1f),
    (0x8, 0x1),
];

#[test]
fn faults_are_found(rt: HostRuntime) -> Result<(), Fail> {
    let alloc = rt.alloc();
    let key = |part, key| PolicyError::Key {
        path: Path { part, key },
    };
    let range = |part, key| PolicyError::Range {
        path: Path { part, key },
    };
    let cases = [
        ("[unit", PolicyError::Toml),
        ("[unit]\ndomains = 64\n", key(Part::Unit, 3)),
        ("[unit]\nrrids = 2\ndomains = 64\n", range(Part::Unit, 4)),
        (
            "[unit]\nrrids = 33\ndomains = 63\nentries = 1\nsrcmd = 2\n",
            range(Part::Unit, 6),
        ),
        (
            "[unit]\nrrids = 32\ndomains = 63\nentries = 1\nsrcmd = 2\n",
            key(Part::Unit, 7),
        ),
        (LAST_BYTES, range(Part::Grant(0, 1), 13)),
        ("[unit]\nother = 1\n", key(Part::Unit, 0)),
        ("unit = 1\ndomain = 2\n", key(Part::Top, 1)),
    ];
    for (text, want) in cases {
        match read_policy(alloc, text.as_bytes()) {
            Ok(_) => return Err(Fail::from("a bad policy")),
            Err(error) => assert_eq!(rt; error, want),
        }
    }
    Ok(())
}

#[test]
fn an_image_and_its_decisions(rt: HostRuntime) -> Result<(), Fail> {
    let alloc = rt.alloc();
    let text = format!(in alloc; "{UNIT}{DOMAINS}")?;
    let Ok(policy) = read_policy(alloc, text.as_bytes()) else {
        return Err(Fail::from("the policy is refused"));
    };
    let Ok(image) = compile(alloc, &policy) else {
        return Err(Fail::from("it doesn't compile"));
    };
    assert_eq!(rt; image.writes.len(), WRITES.len());
    for (write, want) in image.writes.iter().zip(WRITES.iter()) {
        assert_eq!(rt; write.index, want.0 / 4);
        assert_eq!(rt; write.value, want.1);
    }
    let cases = [
        (0, Kind::Read, 0x3fff, 1, 0),
        (0, Kind::Write, 0x3fff, 1, 2),
        (0, Kind::Read, 0x3fff, 2, 4),
        (0, Kind::Write, 0x4000, 1, 0),
        (0, Kind::Read, 0x8000, 1, 5),
        (2, Kind::Read, 0, 1, 6),
    ];
    for (rrid, kind, addr, len, want) in cases {
        let access = Access {
            rrid,
            kind,
            addr,
            len,
        };
        assert_eq!(rt; policy_kind(&policy, &access), want);
    }
    Ok(())
}

/// The image of a policy whose domains have a grant of 4 bytes each.
fn image_of(alloc: Global, unit: &str, rrid: u8, domains: u32) -> Result<Image, Fail> {
    let mut text = format!(in alloc; "[unit]\nqueue = 1\nentries = 64\n{unit}\n")?;
    for d in 0..domains {
        let name = format!(in alloc; "[[domain]]\nname = \"d{d}\"\nrrids = [{rrid}]\ngrant = [")?;
        text.push_str(name.as_str())?;
        text.push_str("{from = 0, size = 4, rights = \"r\"}]\n")?;
    }
    let Ok(policy) = read_policy(alloc, text.as_bytes()) else {
        return Err(Fail::from("the policy is refused"));
    };
    match compile(alloc, &policy) {
        Ok(image) => Ok(image),
        Err(_) => Err(Fail::from("it doesn't compile")),
    }
}

/// The value of the first write at an offset.
fn value_at(image: &Image, offset: u32) -> Option<u32> {
    for write in image.writes.iter() {
        if write.index == offset / 4 {
            return Some(write.value);
        }
    }
    None
}

#[test]
fn a_high_register_is_written_where_the_unit_has_it(rt: HostRuntime) -> Result<(), Fail> {
    let alloc = rt.alloc();
    let cases = [
        ("rrids = 1\ndomains = 31", 0, 31, Some(0xffff_fffe), None),
        ("rrids = 1\ndomains = 32", 0, 31, Some(0xffff_fffe), Some(0)),
        ("rrids = 1\ndomains = 32", 0, 32, Some(0xffff_fffe), Some(1)),
        (
            "rrids = 1\ndomains = 63",
            0,
            63,
            Some(0xffff_fffe),
            Some(0xffff_ffff),
        ),
        (
            "rrids = 16\ndomains = 1\nsrcmd = 2",
            15,
            1,
            Some(0xc000_0000),
            None,
        ),
        (
            "rrids = 17\ndomains = 1\nsrcmd = 2",
            16,
            1,
            Some(0),
            Some(3),
        ),
        (
            "rrids = 32\ndomains = 1\nsrcmd = 2",
            31,
            1,
            Some(0),
            Some(0xc000_0000),
        ),
    ];
    for (unit, rrid, domains, low, high) in cases {
        let image = image_of(alloc, unit, rrid, domains)?;
        assert_eq!(rt; value_at(&image, 0x1000), low);
        assert_eq!(rt; value_at(&image, 0x1004), high);
    }
    Ok(())
}

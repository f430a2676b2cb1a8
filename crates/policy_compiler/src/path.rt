// Places in the text of a policy, and why one is refused.
ghost use Rattle.std.specs.Prelude.{◌≡◌, Some};
ghost use Rattle.policy_compiler.specs.Paths.{key_text, path_text};

use std::fmt;

/// A table of a policy. Domains, and a domain's guards and grants, are numbered from 0.
#[derive(Clone, Copy, Debug, PartialEq, Eq)]
pub enum Part {
    Top,
    Unit,
    Domain(u16),
    /// The domain, and the guard.
    Guard(u16, u16),
    /// The domain, and the grant.
    Grant(u16, u16),
}

/// A key of a table. Keys are numbered: 1 `unit`, 2 `domain`, 3 `rrids`, 4 `domains`, 5 `entries`,
/// 6 `srcmd`, 7 `queue`, 8 `transl`, 9 `name`, 10 `guard`, 11 `grant`, 12 `from`, 13 `size`,
/// 14 `rights`, and 0 for any other.
#[derive(Clone, Copy, Debug, PartialEq, Eq)]
pub struct Path {
    pub part: Part,
    pub key: u8,
}

/// Why bytes are no policy. The first fault counts, by the order that the definitions of reading
/// have.
#[derive(Clone, Copy, Debug, PartialEq, Eq)]
pub enum PolicyError {
    /// The bytes are no TOML document.
    Toml,
    /// A table has a key that it may not have, lacks one that it must have, or has a value of a
    /// wrong type.
    Key { path: Path },
    /// A value isn't one of those that are allowed.
    Range { path: Path },
    /// A domain's name is badly formed, or an earlier domain has it.
    Name { path: Path },
    NoMemory,
}

/// Why a table of a document is no part of a policy.
#[derive(Clone, Copy, Debug, PartialEq, Eq)]
pub enum Fault {
    Key { path: Path },
    Range { path: Path },
    Name { path: Path },
    NoMemory,
}

/// The name of a key.
fn key_name(key: u8) -> &'static str
    ensures { result.now ≡ key_text key }
{
    match key {
        1 => "unit",
        2 => "domain",
        3 => "rrids",
        4 => "domains",
        5 => "entries",
        6 => "srcmd",
        7 => "queue",
        8 => "transl",
        9 => "name",
        10 => "guard",
        11 => "grant",
        12 => "from",
        13 => "size",
        14 => "rights",
        _ => "?",
    }
}

/// The key with the table in front: `KEY`, `unit.KEY`, `domain D.KEY`, `guard D R.KEY` or
/// `grant D R.KEY`.
impl fmt::Display for Path {
    ghost output = { λ p. Some (path_text p) };

    fn fmt<W: fmt::Write>(&self, f: &mut fmt::Formatter<W>) -> fmt::Result {
        let key = key_name(self.key);
        match self.part {
            Part::Top => write!(f, "{key}"),
            Part::Unit => write!(f, "unit.{key}"),
            Part::Domain(domain) => write!(f, "domain {domain}.{key}"),
            Part::Guard(domain, rule) => write!(f, "guard {domain} {rule}.{key}"),
            Part::Grant(domain, rule) => write!(f, "grant {domain} {rule}.{key}"),
        }
    }
}

// One entry and a transaction.
ghost use Rattle.std.specs.Prelude.{◌≡◌, ◌<◌, IsTrue, nat_lt};
ghost use Rattle.event_words.specs.Valid.{IsValidAccess};
ghost use Rattle.event_words.specs.Entries.{touches, covers};
ghost use Rattle.event_words.specs.Decisions.{is_entry_of, entry_grants, prio_count, is_touching, is_covering};

use entry_ranges::range_of;
use event_words::{Access, Register};
use mdcfg_formats::domain_of;
use register_fields::Regs;
use srcmd_formats::{domains_of, entry_grants, has_domain};

/// Whether the entry is a priority entry, one below HWCFG2.prio_entry.
fn is_priority(regs: &Regs, entry: u16) -> bool
    ensures { result ≡ nat_lt entry (prio_count regs.now) }
{
    (entry as u32) < regs.word(Register::Hwcfg2) % 65536
}

/// Whether the entry is one of the requester's.
fn is_entry_of(regs: &Regs, rrid: u8, entry: u16) -> bool
    requires { entry < regs.now.shape.entries }
    ensures { result ≡ is_entry_of regs.now rrid entry }
{
    match domain_of(regs, entry) {
        None => false,
        Some(domain) => has_domain(domains_of(regs, rrid), domain),
    }
}

/// Whether the entry has some byte of the transaction.
fn touches(regs: &Regs, entry: u16, access: &Access) -> bool
    requires entry { entry < regs.now.shape.entries }
    requires access { IsValidAccess access.now }
    ensures { result ≡ touches regs.now entry access.now }
{
    match range_of(regs, entry) {
        None => false,
        Some(range) => range.touches(access),
    }
}

/// Whether it has every byte.
pub fn covers(regs: &Regs, entry: u16, access: &Access) -> bool
    requires entry { entry < regs.now.shape.entries }
    requires access { IsValidAccess access.now }
    ensures { result ≡ covers regs.now entry access.now }
{
    match range_of(regs, entry) {
        None => false,
        Some(range) => range.covers(access),
    }
}

/// Whether it is a priority entry of the requester that has some byte of the transaction.
pub fn is_touching(regs: &Regs, access: &Access, entry: u16) -> bool
    requires entry { entry < regs.now.shape.entries }
    requires access { IsValidAccess access.now }
    ensures value { result ≡ is_touching regs.now access.now entry }
    ensures own { IsTrue result → IsTrue (is_entry_of regs.now access.now.rrid entry) }
{
    if !is_priority(regs, entry) || !is_entry_of(regs, access.rrid, entry) {
        return false;
    }
    touches(regs, entry, access)
}

/// Whether it is another entry of the requester, which has every byte of the transaction.
pub fn is_covering(regs: &Regs, access: &Access, entry: u16) -> bool
    requires entry { entry < regs.now.shape.entries }
    requires access { IsValidAccess access.now }
    ensures value { result ≡ is_covering regs.now access.now entry }
    ensures own { IsTrue result → IsTrue (is_entry_of regs.now access.now.rrid entry) }
{
    if is_priority(regs, entry) || !is_entry_of(regs, access.rrid, entry) {
        return false;
    }
    covers(regs, entry, access)
}

/// Whether an entry of the requester grants it the kind.
pub fn is_granting(regs: &Regs, access: &Access, entry: u16) -> bool
    requires entry { entry < regs.now.shape.entries }
    requires own { IsTrue (is_entry_of regs.now access.now.rrid entry) }
    ensures { result ≡ entry_grants regs.now access.now.rrid access.now.kind entry }
{
    match domain_of(regs, entry) {
        None => false,
        Some(domain) => entry_grants(regs, access, domain, entry),
    }
}

//! Which domains a requester is associated with, and what they grant it, by the format of the SRCMD
//! table.
#![tactic(auto)]

ghost use Rattle.std.specs.Prelude.{◌≡◌, ℕ, Bool, ◌+◌, ◌-◌, ◌*◌, ◌^◌, ◌<◌, ◌≤◌, ◌==◌, ◌&&◌, nat_lt, IsTrue};
ghost use Rattle.event_words.specs.Registers.{has_bit};
ghost use Rattle.event_words.specs.Domains.{is_in_table, is_associated, is_enabled_in, is_readable_in, is_writable_in, has_first_permission, has_second_permission, by_kind, domain_grants};

mod entries;

pub use entries::{entry_grants, has_cfg_bit, refusal, violation};
use event_words::{Kind, Register};
use register_fields::Regs;

/// One bit of a number of 64 bits, as a test.
fn has_bit(number: u64, bit: u32) -> bool
    requires { bit < 64 }
    ensures { result ≡ has_bit number bit }
{
    (number >> bit) % 2 == 1
}

/// SRCMD_EN and SRCMD_ENH of a requester as one number, which has bit m + 1 for domain m.
fn enables(regs: &Regs, rrid: u32) -> u64
    requires { rrid < 64 }
    ensures { (m : ℕ) → has_bit result (m + 1) ≡ is_enabled_in regs.now rrid m }
{
    regs.pair(Register::SrcmdEn(rrid))
}

/// SRCMD_R and SRCMD_RH of a requester as one number.
fn read_permits(regs: &Regs, rrid: u32) -> u64
    requires { rrid < 64 }
    ensures { (m : ℕ) → has_bit result (m + 1) ≡ is_readable_in regs.now rrid m }
{
    regs.pair(Register::SrcmdR(rrid))
}

/// SRCMD_W and SRCMD_WH of a requester as one number.
fn write_permits(regs: &Regs, rrid: u32) -> u64
    requires { rrid < 64 }
    ensures { (m : ℕ) → has_bit result (m + 1) ≡ is_writable_in regs.now rrid m }
{
    regs.pair(Register::SrcmdW(rrid))
}

/// SRCMD_PERM and SRCMD_PERMH of a domain as one number, which has the bits 2 s and 2 s + 1 for
/// requester s.
fn permissions(regs: &Regs, domain: u32) -> u64
    requires { domain < 64 }
    ensures first { (s : ℕ) → has_bit result (2 * s) ≡ has_first_permission regs.now s domain }
    ensures second { (s : ℕ) → has_bit result (2 * s + 1)
        ≡ has_second_permission regs.now s domain }
{
    regs.pair(Register::SrcmdPerm(domain))
}

/// Whether a known requester has one of its two bits in the domain's SRCMD_PERM or SRCMD_PERMH, in
/// format 2.
fn is_permitted(regs: &Regs, rrid: u32, domain: u32) -> bool
    requires format { regs.now.shape.srcmd ≡ 2 }
    requires rrid { rrid < 32 }
    requires domain { domain < 64 }
    ensures { result ≡ is_in_table regs.now rrid domain }
{
    let permissions = permissions(regs, domain);
    has_bit(permissions, 2 * rrid) || has_bit(permissions, 2 * rrid + 1)
}

/// The domains whose SRCMD_PERM permits a known requester, in format 2.
fn by_permissions(regs: &Regs, rrid: u32) -> u64
    requires format { regs.now.shape.srcmd ≡ 2 }
    requires rrid { rrid < regs.now.shape.rrids }
    ensures { (m : ℕ) → has_bit result m ≡ (nat_lt m regs.now.shape.domains && is_in_table regs.now
        rrid m) }
{
    let mut mask = 0u64;
    let shape = regs.shape();
    for domain in 0..shape.domains as u32 {
        if is_permitted(regs, rrid, domain) {
            mask |= 1 << domain;
        }
    }
    mask
}

/// One bit.
fn bit(n: u8) -> u64
    requires { n < 64 }
    ensures { result ≡ 2 ^ n }
{
    1 << n
}

/// The lowest `n` bits.
fn ones(n: u8) -> u64
    requires { n < 64 }
    ensures { result ≡ 2 ^ n - 1 }
{
    (1u64 << n) - 1
}

/// The domains of a number that has bit m + 1 for domain m.
fn by_bits(number: u64, domains: u8) -> u64
    requires { domains < 64 }
    ensures { (m : ℕ) → has_bit result m ≡ (nat_lt m domains && has_bit number (m + 1)) }
{
    (number >> 1) & ones(domains)
}

/// The domain with the requester's number, if there is one.
fn by_number(rrid: u8, domains: u8) -> u64
    requires { domains < 64 }
    ensures { (m : ℕ) → has_bit result m ≡ (nat_lt m domains && rrid == m) }
{
    if rrid < domains { bit(rrid) } else { 0 }
}

/// One domain, 0 to 63, of a mask of domains that has bit m for domain m, as a test.
pub fn has_domain(domains: u64, domain: u8) -> bool
    requires { domain < 64 }
    ensures { result ≡ has_bit domains domain }
{
    has_bit(domains, domain as u32)
}

/// The domains of a requester that is known: bit m is 1 exactly where the requester is associated with
/// domain m of the shape.
pub fn known_domains_of(regs: &Regs, rrid: u8) -> u64
    requires { rrid < regs.now.shape.rrids }
    ensures { (m : ℕ) → has_bit result m ≡ is_associated regs.now rrid m }
{
    let shape = regs.shape();
    match shape.srcmd {
        0 => by_bits(enables(regs, rrid as u32), shape.domains),
        1 => by_number(rrid, shape.domains),
        _ => by_permissions(regs, rrid as u32),
    }
}

/// The domains of a requester: bit m is 1 exactly where it is known and associated with domain m of
/// the shape, in format 0 by the domain's bit of SRCMD_EN or SRCMD_ENH, in format 1 where their numbers
/// are the same, in format 2 by either of the requester's two bits of SRCMD_PERM or SRCMD_PERMH. A
/// requester that isn't known has none.
pub fn domains_of(regs: &Regs, rrid: u8) -> u64
    ensures { (m : ℕ) → has_bit result m ≡ is_associated regs.now rrid m }
{
    if rrid < regs.shape().rrids {
        known_domains_of(regs, rrid)
    } else {
        0
    }
}

/// The one of two permissions that rules a kind: a fetch goes by the permission to read.
fn by_kind(kind: Kind, read: bool, write: bool) -> bool
    ensures { result ≡ by_kind kind read write }
{
    match kind {
        Kind::Read | Kind::Fetch => read,
        Kind::Write => write,
    }
}

/// What the two bits of a requester in a domain's SRCMD_PERM or SRCMD_PERMH grant it.
fn by_permission(regs: &Regs, rrid: u32, domain: u32, kind: Kind) -> bool
    requires rrid { rrid < 32 }
    requires domain { domain < 63 }
    ensures { result ≡ by_kind kind (has_first_permission regs.now rrid domain)
        (has_second_permission regs.now rrid domain) }
{
    let permissions = permissions(regs, domain);
    by_kind(
        kind,
        has_bit(permissions, 2 * rrid),
        has_bit(permissions, 2 * rrid + 1),
    )
}

/// What the two secondary permissions of a domain grant a requester: its bit of SRCMD_R and SRCMD_W or
/// of their high registers.
fn by_secondary(regs: &Regs, rrid: u32, domain: u32, kind: Kind) -> bool
    requires rrid { rrid < 64 }
    requires domain { domain < 63 }
    ensures { result ≡ by_kind kind (is_readable_in regs.now rrid domain)
        (is_writable_in regs.now rrid domain) }
{
    let read = read_permits(regs, rrid);
    let write = write_permits(regs, rrid);
    by_kind(kind, has_bit(read, domain + 1), has_bit(write, domain + 1))
}

/// Whether a domain grants the kind to a requester that is known and associated with it: in format 2
/// by the requester's bits of SRCMD_PERM or SRCMD_PERMH, the lower to read and fetch, the upper to write,
/// in format 0 with secondary permissions by the domain's bit of SRCMD_R and SRCMD_W or of their high
/// registers, else always.
pub fn grants(regs: &Regs, rrid: u8, domain: u8, kind: Kind) -> bool
    requires { IsTrue (is_associated regs.now rrid domain) }
    ensures { result ≡ domain_grants regs.now rrid domain kind }
{
    let shape = regs.shape();
    let rrid = rrid as u32;
    let domain = domain as u32;
    if shape.srcmd == 2 {
        by_permission(regs, rrid, domain, kind)
    } else if shape.sps {
        by_secondary(regs, rrid, domain, kind)
    } else {
        true
    }
}

//! Which domain an entry belongs to, by the table of bounds: each domain has a bound, and an entry
//! belongs to the least domain whose bound is above its number.
#![tactic(auto)]

ghost use Rattle.std.specs.Prelude.{◌≡◌, ℕ, ◌+◌, ◌*◌, ◌^◌, ◌<◌, ◌≤◌, ◌↔◌, IfSome, Some, min, max};
ghost use Rattle.event_words.specs.Domains.{bound_of, owner_of};

use event_words::Register;
use register_fields::Regs;

/// The bound of a domain of the shape, a number of entries: in MDCFG format 0 the field t of
/// MDCFG(domain), 0 to 65535, else `domain + 1` times k, where k is HWCFG0.md_entry_num plus 1.
pub fn bound_of(regs: &Regs, domain: u8) -> u16
    requires { domain < regs.now.shape.domains }
    ensures { result ≡ bound_of regs.now domain }
{
    let shape = regs.shape();
    if shape.mdcfg == 0 {
        (regs.word(Register::Mdcfg(domain as u32)) % 65536) as u16
    } else {
        (domain as u16 + 1) * ((regs.word(Register::Hwcfg0) >> 17) % 128 + 1) as u16
    }
}

/// The domain that an entry of the shape belongs to. `None` exactly where it is below no bound.
pub fn domain_of(regs: &Regs, entry: u16) -> Option<u8>
    requires { entry < regs.now.shape.entries }
    ensures value { result ≡ owner_of regs.now entry }
    ensures small { IfSome result (λ domain. domain < regs.now.shape.domains) }
    ensures below { IfSome result (λ domain. domain < 64) }
{
    let shape = regs.shape();
    for domain in 0..shape.domains {
        if entry < bound_of(regs, domain) {
            return Some(domain);
        }
    }
    None
}

fn greater(a: u16, b: u16) -> u16
    ensures { result ≡ max a b }
{
    if a < b { b } else { a }
}

fn lesser(a: u16, b: u16) -> u16
    ensures { result ≡ min a b }
{
    if a < b { a } else { b }
}

/// Where the entries of a domain end, among those below `limit`, if `from` is where those of the
/// lesser domains end: at the domain's bound, or at `from` where the bound isn't above it. A walk
/// over the domains in ascending order gets all entries so, in ascending order.
pub fn run_end(regs: &Regs, domain: u8, from: u16, limit: u16) -> u16
    requires { domain < regs.now.shape.domains }
    ensures { result ≡ max from (min (bound_of regs.now domain) limit) }
{
    greater(from, lesser(bound_of(regs, domain), limit))
}

/// The entries of a domain of the shape: from the first number up to but not including the second.
/// Both are 0 where it owns none.
pub fn span_of(regs: &Regs, domain: u8) -> (u16, u16)
    requires { domain < regs.now.shape.domains }
    ensures exact { (j : ℕ) → j < regs.now.shape.entries →
        (owner_of regs.now j ≡ Some domain) ↔ ((result.0 ≤ j) × (j < result.1)) }
    ensures inside { result.1 ≤ regs.now.shape.entries }
    ensures none { result.1 ≤ result.0 → (result.0 ≡ 0) × (result.1 ≡ 0) }
{
    let shape = regs.shape();
    let mut from = 0;
    for below in 0..domain {
        from = run_end(regs, below, from, shape.entries);
    }
    let to = run_end(regs, domain, from, shape.entries);
    if from < to { (from, to) } else { (0, 0) }
}

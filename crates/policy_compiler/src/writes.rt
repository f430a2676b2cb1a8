// The writes of an image.
ghost use Rattle.std.specs.Prelude.{◌≡◌, ◌≤◌, ◌<◌, ◌+◌, ◌*◌, ◌^◌, ◌++◌, [], ◌∷◌, IfOk, length};
ghost use Rattle.event_words.specs.Registers.{index_of, has_bit};
ghost use Rattle.policy_compiler.specs.Policies.{IsPolicyShape};
ghost use Rattle.policy_compiler.specs.Images.{pair, pair_writes, mdcfg_writes, enable_bits, enables_of, enable_writes, permission, permissions, permissions_of, permission_writes, member_writes, entry_writes, entry_count, hardware_writes, writes_of};
ghost use Rattle.policy_compiler.specs.Fitting.{IsFitting};

use crate::RegPair;
use crate::hardware::{EntryWords, Hardware};
use event_words::{Register, Shape};
use std::alloc::{AllocError, Global};

fn push(writes: &mut Vec<RegPair>, register: Register, value: u32) -> Result<(), AllocError>
    requires { index_of register < 2 ^ 32 }
    ensures { IfOk result
        (λ _. writes.new.items ≡ writes.old.items ++ pair (index_of register) value ∷ []) }
{
    writes.push(RegPair {
        index: register.index(),
        value,
    })?;
    Ok(())
}

/// The bits of two registers as one number: the low register has those below 32, and the high one,
/// where the unit has it, is written right after it.
fn push_pair(
    writes: &mut Vec<RegPair>,
    low: Register,
    high: Register,
    has_high: bool,
    bits: u64,
) -> Result<(), AllocError>
    requires low { index_of low < 2 ^ 32 }
    requires high { index_of high < 2 ^ 32 }
    ensures { IfOk result
        (λ _. writes.new.items ≡ writes.old.items ++ pair_writes low high has_high bits) }
{
    push(writes, low, (bits & 0xffff_ffff) as u32)?;
    if has_high {
        push(writes, high, (bits >> 32) as u32)
    } else {
        Ok(())
    }
}

/// MDCFG of each hardware domain: the number of entries up to its end.
fn push_mdcfg(writes: &mut Vec<RegPair>, list: &[Hardware]) -> Result<(), AllocError>
    requires { IsFitting list.now }
    ensures { IfOk result (λ _. writes.new.items ≡ writes.old.items ++ mdcfg_writes 0 0 list.now) }
{
    let mut end = 0;
    for (m, hardware) in list.iter().enumerate() {
        end += hardware.entries.len() as u32;
        push(writes, Register::Mdcfg(m as u32), end)?;
    }
    Ok(())
}

/// Whether a bit of a set of requesters is there.
fn is_member(members: u64, rrid: u8) -> bool
    requires { rrid < 64 }
    ensures { result ≡ has_bit members rrid }
{
    (members >> rrid) % 2 == 1
}

/// The bits of SRCMD_EN and SRCMD_ENH as one number: bit m + 1 for each hardware domain m of which
/// the requester is a member.
fn enable_bits(rrid: u8, list: &[Hardware]) -> u64
    requires rrid { rrid < 64 }
    requires domains { length list.now ≤ 63 }
    ensures { result ≡ enable_bits rrid 0 list.now }
{
    let mut bits = 0;
    for (m, hardware) in list.iter().enumerate() {
        if is_member(hardware.members, rrid) {
            bits += 1u64 << (m + 1);
        }
    }
    bits
}

fn two_bits(rrid: u8) -> u64
    requires { rrid < 32 }
    ensures { result ≡ 2 ^ (2 * rrid) }
{
    1u64 << (2 * rrid)
}

/// The number with both bits of a requester, where it is a member.
#[tactic(auto, using(crate::proofs::WriteSteps::four_times, crate::proofs::WriteSteps::four_small))]
fn with_permission(members: u64, rrid: u8, bits: u64) -> u64
    requires rrid { rrid < 32 }
    requires bits { bits < 2 ^ (2 * rrid) }
    ensures value { result ≡ bits + permission members rrid }
    ensures small { result < 2 ^ (2 * (rrid + 1)) }
{
    if is_member(members, rrid) {
        bits + 3 * two_bits(rrid)
    } else {
        bits
    }
}

/// The bits of SRCMD_PERM and SRCMD_PERMH as one number: both bits of each member.
#[tactic(auto, unfolding(crate::specs::Images::permissions), using(crate::proofs::WriteSteps::permissions_step))]
fn permissions(rrids: u8, members: u64) -> u64
    requires { rrids ≤ 32 }
    ensures { result ≡ permissions rrids members }
{
    let mut bits = 0;
    for rrid in 0..rrids {
        bits = with_permission(members, rrid, bits);
    }
    bits
}

/// SRCMD_EN of a requester, followed at once by SRCMD_ENH where the unit has more than 31 domains.
fn push_enable(
    writes: &mut Vec<RegPair>,
    domains: u8,
    rrid: u8,
    list: &[Hardware],
) -> Result<(), AllocError>
    requires rrid { rrid < 64 }
    requires list { length list.now ≤ 63 }
    ensures { IfOk result
        (λ _. writes.new.items ≡ writes.old.items ++ enables_of domains list.now rrid) }
{
    push_pair(
        writes,
        Register::SrcmdEn(rrid as u32),
        Register::SrcmdEnh(rrid as u32),
        31 < domains,
        enable_bits(rrid, list),
    )
}

/// The registers of each requester.
fn push_enables(
    writes: &mut Vec<RegPair>,
    domains: u8,
    rrids: u8,
    list: &[Hardware],
) -> Result<(), AllocError>
    requires rrids { rrids ≤ 64 }
    requires list { length list.now ≤ 63 }
    ensures { IfOk result
        (λ _. writes.new.items ≡ writes.old.items ++ enable_writes domains list.now 0 rrids) }
{
    for rrid in 0..rrids {
        push_enable(writes, domains, rrid, list)?;
    }
    Ok(())
}

/// SRCMD_PERM of a hardware domain, followed at once by SRCMD_PERMH where the unit has more than 16
/// requesters.
fn push_permission(
    writes: &mut Vec<RegPair>,
    rrids: u8,
    domain: u32,
    members: u64,
) -> Result<(), AllocError>
    requires rrids { rrids ≤ 32 }
    requires domain { domain < 63 }
    ensures { IfOk result
        (λ _. writes.new.items ≡ writes.old.items ++ permissions_of rrids domain members) }
{
    push_pair(
        writes,
        Register::SrcmdPerm(domain),
        Register::SrcmdPermh(domain),
        16 < rrids,
        permissions(rrids, members),
    )
}

/// The registers of each hardware domain.
fn push_permissions(
    writes: &mut Vec<RegPair>,
    rrids: u8,
    list: &[Hardware],
) -> Result<(), AllocError>
    requires rrids { rrids ≤ 32 }
    requires list { length list.now ≤ 63 }
    ensures { IfOk result
        (λ _. writes.new.items ≡ writes.old.items ++ permission_writes rrids 0 list.now) }
{
    for (m, hardware) in list.iter().enumerate() {
        push_permission(writes, rrids, m as u32, hardware.members)?;
    }
    Ok(())
}

/// The table of members, by the format of the shape.
#[tactic(auto, unfolding(crate::specs::Images::member_writes))]
fn push_members(
    writes: &mut Vec<RegPair>,
    shape: &Shape,
    list: &[Hardware],
) -> Result<(), AllocError>
    requires shape { IsPolicyShape shape.now }
    requires list { length list.now ≤ 63 }
    ensures { IfOk result
        (λ _. writes.new.items ≡ writes.old.items ++ member_writes shape.now list.now) }
{
    if shape.srcmd == 0 {
        push_enables(writes, shape.domains, shape.rrids, list)
    } else {
        push_permissions(writes, shape.rrids, list)
    }
}

/// The three registers of an entry.
fn push_entry(writes: &mut Vec<RegPair>, i: u32, entry: &EntryWords) -> Result<(), AllocError>
    requires { i < 1024 }
    ensures { IfOk result
        (λ _. writes.new.items ≡ writes.old.items ++ entry_writes i (entry.now ∷ [])) }
{
    push(
        writes,
        Register::EntryAddr(i),
        (entry.word & 0xffff_ffff) as u32,
    )?;
    push(writes, Register::EntryAddrh(i), (entry.word >> 32) as u32)?;
    push(writes, Register::EntryCfg(i), entry.cfg)
}

/// The registers of entry `first` and of those after it.
fn push_entries(
    writes: &mut Vec<RegPair>,
    first: u32,
    entries: &[EntryWords],
) -> Result<(), AllocError>
    requires { first + length entries.now ≤ 1024 }
    ensures { IfOk result
        (λ _. writes.new.items ≡ writes.old.items ++ entry_writes first entries.now) }
{
    let mut i = first;
    for entry in entries {
        push_entry(writes, i, entry)?;
        i += 1;
    }
    Ok(())
}

/// The registers of all entries.
fn push_hardware(writes: &mut Vec<RegPair>, list: &[Hardware]) -> Result<(), AllocError>
    requires { entry_count list.now ≤ 1024 }
    ensures { IfOk result (λ _. writes.new.items ≡ writes.old.items ++ hardware_writes 0 list.now) }
{
    let mut first = 0;
    for hardware in list {
        push_entries(writes, first, &hardware.entries)?;
        first += hardware.entries.len() as u32;
    }
    Ok(())
}

/// The writes of an image, of which `guards` entries are priority entries.
#[tactic(auto, unfolding(crate::specs::Images::writes_of))]
pub fn writes(
    alloc: Global,
    shape: &Shape,
    guards: u32,
    list: &[Hardware],
) -> Result<Vec<RegPair>, AllocError>
    requires shape { IsPolicyShape shape.now }
    requires fits { IsFitting list.now }
    ensures { IfOk result (λ v. v.items ≡ writes_of shape.now guards list.now) }
{
    let mut writes = Vec::new(alloc);
    push(&mut writes, Register::Hwcfg2, guards)?;
    push_mdcfg(&mut writes, list)?;
    push_members(&mut writes, shape, list)?;
    push_hardware(&mut writes, list)?;
    push(&mut writes, Register::Hwcfg0, 1)?;
    Ok(writes)
}

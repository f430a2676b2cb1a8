//! Which bits of a register a write must keep: those of read-only fields, and those that locks,
//! the enabling of the unit and the freezing of priority entries guard.
#![tactic(auto)]

ghost use Rattle.std.specs.Prelude.{◌≡◌, ℕ, ◌<◌, ◌^◌, IsTrue, sum_by};
ghost use Rattle.event_words.specs.Registers.{has_bit, has_register, index_of, fields_of};
ghost use Rattle.event_words.specs.Valid.{IsValidShape};
ghost use Rattle.event_words.specs.Guards.{is_locked_domain, is_guarded, guarded_bits, whole, read_only_bits};
ghost use Rattle.lock_rules.specs.Masks.{where_true, srcmd_guards, perm_guards, mdlck_guards, entry_guards, low_locks, high_locks, locks_of, keep_mask};

use event_words::Register;
use register_fields::{Regs, has_bit, read_only, register_at, whole};

fn where_true(holds: bool, bits: u32) -> u32
    ensures { result ≡ where_true holds bits }
{
    if holds { bits } else { 0 }
}

fn whole_where(regs: &Regs, register: Register, holds: bool) -> u32
    requires { IsTrue (has_register regs.now.shape register) }
    ensures { result ≡ where_true holds (whole regs.now.shape register) }
{
    if holds {
        whole(regs.shape(), register)
    } else {
        0
    }
}

/// The bits of a register's read-only fields. Only HWCFG0, HWCFG1 and HWCFG2 have such fields.
fn read_only_bits(regs: &Regs, register: Register) -> u32
    requires shape { IsValidShape regs.now.shape }
    requires there { IsTrue (has_register regs.now.shape register) }
    ensures { result ≡ sum_by read_only_bits (fields_of regs.now.shape register) }
{
    match register {
        Register::Hwcfg0 | Register::Hwcfg1 | Register::Hwcfg2 => {
            read_only(regs.shape(), register)
        }
        _ => 0,
    }
}

/// The lock bits of domains 0 to 30, where the low registers have the domains' bits.
fn low_locks(regs: &Regs) -> u32
    ensures { result ≡ low_locks regs.now }
{
    regs.word(Register::Mdlck) / 2 * 2
}

fn high_locks(regs: &Regs) -> u32
    ensures { result ≡ high_locks regs.now }
{
    regs.word(Register::Mdlckh)
}

/// Whether the lock bit of a domain is 1.
fn is_locked_domain(regs: &Regs, domain: u32) -> bool
    requires { domain < 63 }
    ensures { result ≡ is_locked_domain regs.now domain }
{
    if domain < 31 {
        has_bit(regs.word(Register::Mdlck), domain + 1)
    } else {
        has_bit(regs.word(Register::Mdlckh), domain - 31)
    }
}

fn srcmd_guards(regs: &Regs, rrid: u32, register: Register, locks: u32) -> u32
    requires rrid { rrid < 64 }
    requires there { IsTrue (has_register regs.now.shape register) }
    ensures { result ≡ srcmd_guards regs.now rrid register locks }
{
    let locked = has_bit(regs.word(Register::SrcmdEn(rrid)), 0);
    whole_where(regs, register, locked) | locks
}

fn perm_guards(regs: &Regs, domain: u32, register: Register) -> u32
    requires domain { domain < 63 }
    requires there { IsTrue (has_register regs.now.shape register) }
    ensures { result ≡ perm_guards regs.now domain register }
{
    whole_where(regs, register, is_locked_domain(regs, domain))
}

fn mdlck_guards(regs: &Regs, register: Register) -> u32
    requires index { index_of register < 2 ^ 32 }
    requires there { IsTrue (has_register regs.now.shape register) }
    ensures { result ≡ mdlck_guards regs.now register }
{
    let locked = has_bit(regs.word(Register::Mdlck), 0);
    regs.word(register) | whole_where(regs, register, locked)
}

fn entry_guards(regs: &Regs, entry: u32, register: Register) -> u32
    requires { IsTrue (has_register regs.now.shape register) }
    ensures { result ≡ entry_guards regs.now entry register }
{
    let locked = entry < regs.word(Register::Entrylck) / 2 % 65536;
    whole_where(regs, register, locked)
}

fn hwcfg0_locks(regs: &Regs) -> u32
    ensures { result ≡ locks_of regs.now Register.Hwcfg0 }
{
    let word = regs.word(Register::Hwcfg0);
    let enabled = has_bit(word, 0);
    let chosen = regs.shape().mdcfg == 2 && enabled;
    where_true(enabled, 1)
        | (where_true(!has_bit(word, 13), 1 << 13) | where_true(chosen, 127 << 17))
}

#[inline(always)]
fn locks_of(regs: &Regs, register: Register) -> u32
    requires shape { IsValidShape regs.now.shape }
    requires there { IsTrue (has_register regs.now.shape register) }
    ensures { result ≡ locks_of regs.now register }
{
    match register {
        Register::Hwcfg0 => hwcfg0_locks(regs),
        Register::Hwcfg2 => where_true(!has_bit(regs.word(Register::Hwcfg0), 13), 0xffff),
        Register::Mdlck | Register::Mdlckh => mdlck_guards(regs, register),
        Register::Mdcfglck | Register::Entrylck | Register::ErrCfg => {
            whole_where(regs, register, has_bit(regs.word(register), 0))
        }
        Register::Mdcfg(domain) => {
            let locked = domain < regs.word(Register::Mdcfglck) / 2 % 128;
            whole_where(regs, register, locked)
        }
        Register::SrcmdEn(rrid) | Register::SrcmdR(rrid) | Register::SrcmdW(rrid) => {
            srcmd_guards(regs, rrid, register, low_locks(regs))
        }
        Register::SrcmdEnh(rrid) | Register::SrcmdRh(rrid) | Register::SrcmdWh(rrid) => {
            srcmd_guards(regs, rrid, register, high_locks(regs))
        }
        Register::SrcmdPerm(domain) | Register::SrcmdPermh(domain) => {
            perm_guards(regs, domain, register)
        }
        Register::EntryAddr(entry) | Register::EntryAddrh(entry) | Register::EntryCfg(entry) => {
            entry_guards(regs, entry, register)
        }
        _ => 0,
    }
}

/// The mask of the register at an index: its read-only fields and what its line of the table guards.
#[inline(always)]
fn mask_of(regs: &Regs, index: u32) -> u32
    ensures { result ≡ keep_mask regs.now index }
{
    match register_at(regs.shape(), index) {
        Some(register) => read_only_bits(regs, register) | locks_of(regs, register),
        None => 0,
    }
}

/// The guarded bits of the register at an index (a byte offset divided by 4), and 0 where there is
/// no register. A write that keeps these bits keeps all that is guarded in this state.
#[inline(always)]
pub fn keep_mask(regs: &Regs, index: u32) -> u32
    ensures value { result ≡ guarded_bits regs.now index }
    ensures bits { (i : ℕ) → i < 32 → has_bit result i ≡ is_guarded regs.now index i }
{
    mask_of(regs, index)
}

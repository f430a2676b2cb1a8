//! Which requesters are stalled, and how many of their transactions are in flight.
//!
//! The flags are computed at a write of MDSTALL or RRIDSCP, and follow no later write of the tables.
#![tactic(auto)]

ghost use Rattle.std.specs.Prelude.{◌≡◌, ◌==◌, ◌&&◌, ℕ, Bool, true, false, not, ◌+◌, ◌-◌, ◌*◌, ◌^◌, ◌<◌, ◌≤◌, List, length, map, replicate, take, slice_index, slice_set};
ghost use Rattle.std.specs.List.{range_with_len, list_any};
ghost use Rattle.event_words.specs.Registers.{has_bit};
ghost use Rattle.event_words.specs.Domains.{is_associated};
ghost use Rattle.event_words.specs.Stalls.{flag_of, is_selected_domain, is_selected, differs, flags_after_mdstall, flags_after_rridscp};
ghost use Rattle.stall_control.specs.Counts.{Stalls, count_in, more_at, less_at, is_busy_at, none_stalled, is_busy_with, busy_count, one};
ghost use Rattle.stall_control.specs.Selections.{is_among};

use event_words::Register;
use register_fields::{Regs, has_bit, joined};
use srcmd_formats::known_domains_of;
use std::marker::Model;

/// Of each requester that the unit knows, whether it is stalled, and the number of its transactions in
/// flight. Contracts see it as these two lists. Beside them it keeps how many requesters are stalled and
/// have something in flight.
#[derive(Drop)]
pub struct StallState {
    rrids: u8,
    flags: [bool; 64],
    counts: [u32; 64],
    draining: u8,
}

impl Model for StallState {
    ghost use Rattle.std.specs.Prelude.{◌≡◌, ◌≤◌, take};
    ghost use Rattle.stall_control.specs.Counts.{Stalls, busy_count};

    ghost Value = { Stalls };

    ghost view = { λ s. record { flags = take s.rrids s.flags; counts = take s.rrids s.counts } };

    ghost invariant = { λ s. (s.rrids ≤ 64) ×
        (s.draining ≡ busy_count (take s.rrids s.flags) (take s.rrids s.counts)) };
}

/// The domains that a write of MDSTALL selects, as a mask that has bit m for domain m: up to 30 by bit
/// m + 1 of the written value, from 31 on by bit m - 31 of MDSTALLH.
fn selection(regs: &Regs, value: u32) -> u64
    ensures { (m : ℕ) → has_bit result m ≡ is_selected_domain regs.now value m }
{
    joined(value, regs.word(Register::Mdstallh)) >> 1
}

/// Whether the requester, which is known, is associated with a domain of a mask.
fn is_among(regs: &Regs, domains: u64, rrid: u8) -> bool
    requires { rrid < regs.now.shape.rrids }
    ensures { result ≡ is_among regs.now domains rrid }
{
    domains & known_domains_of(regs, rrid) != 0
}

/// 1 for a requester that is stalled and has a transaction in flight, else 0.
fn draining_at(stalled: bool, count: u32) -> u8
    ensures value { result ≡ one (stalled && not (count == 0)) }
    ensures small { result ≤ 1 }
{
    (stalled && count != 0) as u8
}

/// Sets the flag of each requester where bit 0 of a write of MDSTALL, exempt, differs from being
/// selected. Answers how many requesters are then stalled and have a transaction in flight.
fn set_flags(regs: &Regs, value: u32, flags: &mut [bool], counts: &[u32]) -> u8
    requires rrids { length flags.old ≡ regs.now.shape.rrids }
    requires len { length counts.now ≡ regs.now.shape.rrids }
    ensures flags { flags.new ≡ flags_after_mdstall regs.now value }
    ensures busy { result ≡ busy_count (flags_after_mdstall regs.now value) counts.now }
{
    let exempt = has_bit(value, 0);
    let domains = selection(regs, value);
    let mut draining = 0;
    for rrid in 0..regs.shape().rrids {
        let stalled = exempt != is_among(regs, domains, rrid);
        flags[rrid as usize] = stalled;
        draining += draining_at(stalled, counts[rrid as usize]);
    }
    draining
}

/// Sets or clears one flag by a write of RRIDSCP, whose bits 31:30 are the operation.
fn set_flag(flags: &mut [bool], value: u32)
    ensures { flags.new ≡ flags_after_rridscp flags.old value }
{
    let rrid = (value % 65536) as usize;
    if rrid < flags.len() {
        match value >> 30 {
            1 => flags[rrid] = true,
            2 => flags[rrid] = false,
            _ => {}
        }
    }
}

/// One more for a known requester, which may be stalled. Answers whether it was so with something in flight, and
/// whether it is.
#[inline(always)]
fn more_at(counts: &mut [u32], rrid: u8, stalled: bool) -> (bool, bool)
    requires known { stalled ≡ true → rrid < length counts.old }
    requires few { count_in counts.old rrid < 1048576 }
    ensures counts { counts.new ≡ more_at counts.old rrid }
    ensures was { result.0 ≡ (stalled && not (count_in counts.old rrid == 0)) }
    ensures now { result.1 ≡ (stalled && not (count_in counts.new rrid == 0)) }
{
    let at = rrid as usize;
    if at >= counts.len() {
        return (false, false);
    }
    let count = counts[at];
    counts[at] = count + 1;
    (stalled && count != 0, stalled)
}

/// One fewer for a known requester, which may be stalled. Answers whether it was so with something in flight, and
/// whether it is.
#[inline(always)]
fn less_at(counts: &mut [u32], rrid: u8, stalled: bool) -> (bool, bool)
    requires known { stalled ≡ true → rrid < length counts.old }
    requires some { rrid < length counts.old → 0 < count_in counts.old rrid }
    ensures counts { counts.new ≡ less_at counts.old rrid }
    ensures was { result.0 ≡ (stalled && not (count_in counts.old rrid == 0)) }
    ensures now { result.1 ≡ (stalled && not (count_in counts.new rrid == 0)) }
{
    let at = rrid as usize;
    if at >= counts.len() {
        return (false, false);
    }
    let count = counts[at];
    counts[at] = count - 1;
    (stalled, stalled && count != 1)
}

/// Whether the requester is stalled and has a transaction in flight.
fn is_busy_at(flags: &[bool], counts: &[u32], rrid: usize) -> bool
    requires { length flags.now ≡ length counts.now }
    ensures { result ≡ is_busy_at flags.now counts.now rrid }
{
    rrid < flags.len() && flags[rrid] && counts[rrid] != 0
}

/// The number where one requester may have changed.
#[inline(always)]
fn changed(draining: u8, was: bool, now: bool) -> u8
    requires few { draining ≤ 64 }
    requires some { one was ≤ draining + one now }
    ensures { result + one was ≡ draining + one now }
{
    match (was, now) {
        (false, true) => draining + 1,
        (true, false) => draining - 1,
        _ => draining,
    }
}

impl StallState {
    /// Of 1 to 64 known requesters none is stalled, and nothing is in flight.
    pub fn new(rrids: u8) -> StallState
        requires { (1 ≤ rrids) × (rrids ≤ 64) }
        ensures { result ≡ none_stalled rrids }
    {
        StallState {
            rrids,
            flags: [false; 64],
            counts: [0; 64],
            draining: 0,
        }
    }

    /// The flags after a write of `value` to MDSTALL, in a unit that knows as many requesters. Bit 0 is
    /// exempt. Bit m + 1 selects domain m for m up to 30, and bit m - 31 of MDSTALLH, as it was written
    /// before, domain m from 31 on. A requester is then stalled exactly where exempt differs from "it is
    /// associated with a selected domain", under the tables of this moment. Counts stay.
    pub fn after_mdstall(&mut self, regs: &Regs, value: u32)
        requires { length self.old.flags ≡ regs.now.shape.rrids }
        ensures flags { self.new.flags ≡ flags_after_mdstall regs.now value }
        ensures counts { self.new.counts ≡ self.old.counts }
    {
        let rrids = self.rrids as usize;
        let counts = self.counts;
        self.draining = set_flags(regs, value, &mut self.flags[..rrids], &counts[..rrids]);
    }

    /// The flags after a write of `value` to RRIDSCP, in a unit that knows as many requesters. Bits
    /// 15:0 name a requester and bits 31:30 are the operation: 1 stalls it and 2 releases it, where it
    /// is known. 0 and 3 change no flag. Other flags stay, and counts do.
    pub fn after_rridscp(&mut self, regs: &Regs, value: u32)
        requires { length self.old.flags ≡ regs.now.shape.rrids }
        ensures flags { self.new.flags ≡ flags_after_rridscp self.old.flags value }
        ensures counts { self.new.counts ≡ self.old.counts }
    {
        let _ = regs;
        let rrids = self.rrids as usize;
        let was = is_busy_at(
            &self.flags[..rrids],
            &self.counts[..rrids],
            (value % 65536) as usize,
        );
        set_flag(&mut self.flags[..rrids], value);
        let now = is_busy_at(
            &self.flags[..rrids],
            &self.counts[..rrids],
            (value % 65536) as usize,
        );
        self.draining = changed(self.draining, was, now);
    }

    /// Whether the requester is stalled. One that isn't known never is.
    #[inline]
    pub fn stalled(&self, rrid: u8) -> bool
        ensures { result ≡ flag_of self.now.flags rrid }
    {
        rrid < self.rrids && self.flags[rrid as usize]
    }

    /// One more transaction of the requester is in flight, of which fewer than 1048576 were. Of a
    /// requester that isn't known nothing is counted. All else stays.
    #[inline]
    pub fn enter(&mut self, rrid: u8)
        requires { count_in self.old.counts rrid < 1048576 }
        ensures flags { self.new.flags ≡ self.old.flags }
        ensures counts { self.new.counts ≡ more_at self.old.counts rrid }
    {
        let rrids = self.rrids as usize;
        let stalled = self.stalled(rrid);
        let (was, now) = more_at(&mut self.counts[..rrids], rrid, stalled);
        self.draining = changed(self.draining, was, now);
    }

    /// One fewer is, of which some were. Of a requester that isn't known nothing is counted. All else
    /// stays.
    #[inline]
    pub fn leave(&mut self, rrid: u8)
        requires { rrid < length self.old.counts → 0 < count_in self.old.counts rrid }
        ensures flags { self.new.flags ≡ self.old.flags }
        ensures counts { self.new.counts ≡ less_at self.old.counts rrid }
    {
        let rrids = self.rrids as usize;
        let stalled = self.stalled(rrid);
        let (was, now) = less_at(&mut self.counts[..rrids], rrid, stalled);
        self.draining = changed(self.draining, was, now);
    }

    /// Whether some stalled requester has a transaction in flight.
    pub fn busy(&self) -> bool
        ensures { result ≡ is_busy_with self.now.flags self.now.counts }
    {
        self.draining != 0
    }
}

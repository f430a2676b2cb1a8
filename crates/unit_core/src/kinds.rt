// One event on the units: a function for each kind of event, which looks for its unit itself.
//
// Where the reply to an event isn't asked for, any is answered, and nothing is done for the reply alone.
ghost use Rattle.std.specs.List.{AllByRecursion};
ghost use Rattle.std.specs.Prelude.{◌≡◌, ℕ, ◌<◌, ◌≤◌, true, IfSome, List, Some, length, option_map};
ghost use Rattle.event_words.specs.declared.event.Event.TheVariants.{RegWrite, RegRead, Submit, Judge};
ghost use Rattle.event_words.specs.Valid.{IsValidAccess, IsValidEvent};
ghost use Rattle.unit_core.specs.Units.{event_step, taken_step, submission_of, wide_access, aims_after};
ghost use Rattle.unit_core.specs.Parts.{CanWrite};
ghost use Rattle.unit_core.specs.Places.{IsKept, AllAgree, IsTaken, MayStep, states_of};
ghost use Rattle.unit_core.specs.KeptWords.{HasRoom, KeepsRoom, IsWordOf, wides_of};
ghost use Rattle.unit_core.specs.declared.kept.Kept.{Kept};

use crate::kept::KeptEvents;
use crate::parts::{IopmpUnit, read, write};
use crate::places::{judge_at, judge_unasked, submit_at};
use event_words::{Access, Event, Kind, Reply};

/// A register write, which is answered with what the register reads then.
#[inline(always)]
pub fn write_on(units: &mut [IopmpUnit], unit: u8, index: u32, value: u32, asked: bool) -> Reply
    requires { AllByRecursion CanWrite units.old }
    ensures taken { (kept : List Kept) (place caller : ℕ) → AllAgree 0 units.old kept →
        IsTaken place (RegWrite unit caller index value) units.old units.new kept kept }
    ensures reply { asked ≡ true → (kept : List Kept) (place caller : ℕ) →
        AllAgree 0 units.old kept → result ≡ (taken_step place
        (states_of 0 units.old kept) (Some (RegWrite unit caller index value))).1 }
{
    let at = unit as usize;
    if at >= units.len() {
        return Reply::NoSuch;
    }
    let here = &mut units[at];
    write(here, index, value);
    if asked {
        Reply::Value(read(here, index))
    } else {
        Reply::NoSuch
    }
}

/// A register read, which changes nothing.
#[inline(always)]
pub fn read_on(units: &[IopmpUnit], unit: u8, index: u32) -> Reply
    ensures reply { (kept : List Kept) (place caller : ℕ) → AllAgree 0 units.now kept →
        result ≡ (taken_step place
        (states_of 0 units.now kept) (Some (RegRead unit caller index))).1 }
{
    let at = unit as usize;
    if at < units.len() {
        Reply::Value(read(&units[at], index))
    } else {
        Reply::NoSuch
    }
}

/// A submission of an access, which is kept by this word of a Submit, or else as a wide one.
#[inline(always)]
pub fn submit_on(
    units: &mut [IopmpUnit],
    kept: &mut KeptEvents,
    place: u32,
    word: Option<u64>,
    unit: u8,
    caller: u8,
    access: &Access,
) -> Reply
    requires ready { MayStep place units.old kept.old.items }
    requires room { HasRoom place kept.old }
    requires access { IsValidAccess access.now }
    requires word { IfSome word (IsWordOf unit caller access.now) }
    ensures keeps { KeepsRoom (wides_of word) kept.old kept.new }
    ensures all_valid { AllByRecursion IsKept kept.new.items }
    ensures taken { IsTaken place
        (Submit unit caller access.now) units.old units.new kept.old.items kept.new.items }
    ensures reply { result ≡ (taken_step place
        (states_of 0 units.old kept.old.items) (Some (Submit unit caller access.now))).1 }
{
    let at = unit as usize;
    if at < units.len() {
        submit_at(&mut units[at], unit, kept, place, word, caller, access)
    } else {
        Reply::NoSuch
    }
}

/// The access of a wide submission, which begins where its caller aims. There is none where it would end past 2^52.
fn wide_access(aims: &[u64], caller: u8, rrid: u8, kind: Kind, len: u16) -> Option<Access>
    requires callers { length aims.now ≡ 32 }
    requires caller { caller < 32 }
    requires rrid { rrid ≤ 63 }
    requires len { (1 ≤ len) × (len ≤ 4096) }
    ensures valid { IfSome result (λ access. IsValidAccess access) }
    ensures value { (unit : ℕ) → option_map (Submit unit caller) result
        ≡ submission_of unit caller (wide_access aims.now caller rrid kind len) }
{
    let addr = aims[caller as usize];
    if addr > (1 << 52) - len as u64 {
        return None;
    }
    Some(Access {
        rrid,
        kind,
        addr,
        len,
    })
}

/// A judgement of the submission at a place.
#[inline(always)]
pub fn judge_on(
    units: &mut [IopmpUnit],
    kept: &mut KeptEvents,
    unit: u8,
    caller: u8,
    judged: u32,
) -> Reply
    requires agrees { AllAgree 0 units.old kept.old.items }
    requires all_valid { AllByRecursion IsKept kept.old.items }
    ensures keeps { KeepsRoom 0 kept.old kept.new }
    ensures all_valid { AllByRecursion IsKept kept.new.items }
    ensures taken { (place : ℕ) → IsTaken place (Judge unit caller judged)
        units.old units.new kept.old.items kept.new.items }
    ensures reply { (place : ℕ) → result ≡ (taken_step place
        (states_of 0 units.old kept.old.items) (Some (Judge unit caller judged))).1 }
{
    let at = unit as usize;
    if at < units.len() {
        judge_at(&mut units[at], unit, kept, caller, judged)
    } else {
        Reply::NoSuch
    }
}

/// The same where no one asks for the reply.
#[inline(always)]
pub fn judge_unasked_on(
    units: &mut [IopmpUnit],
    kept: &mut KeptEvents,
    unit: u8,
    caller: u8,
    judged: u32,
)
    requires agrees { AllAgree 0 units.old kept.old.items }
    requires all_valid { AllByRecursion IsKept kept.old.items }
    ensures keeps { KeepsRoom 0 kept.old kept.new }
    ensures all_valid { AllByRecursion IsKept kept.new.items }
    ensures taken { (place : ℕ) → IsTaken place (Judge unit caller judged)
        units.old units.new kept.old.items kept.new.items }
{
    let at = unit as usize;
    if at < units.len() {
        judge_unasked(&mut units[at], unit, kept, caller, judged);
    }
}

/// One event on the units and the aims.
#[inline(always)]
pub fn step(
    units: &mut [IopmpUnit],
    aims: &mut [u64],
    kept: &mut KeptEvents,
    place: u32,
    event: Event,
) -> Reply
    requires ready { MayStep place units.old kept.old.items }
    requires room { HasRoom place kept.old }
    requires valid { IsValidEvent event }
    requires callers { length aims.old ≡ 32 }
    ensures keeps { KeepsRoom 1 kept.old kept.new }
    ensures agrees { AllAgree 0 units.new kept.new.items }
    ensures all_valid { AllByRecursion IsKept kept.new.items }
    ensures state { states_of 0 units.new kept.new.items
        ≡ (event_step place aims.old (states_of 0 units.old kept.old.items) event).0 }
    ensures reply { result
        ≡ (event_step place aims.old (states_of 0 units.old kept.old.items) event).1 }
    ensures aims { aims.new ≡ aims_after aims.old event }
{
    match event {
        Event::RegWrite {
            unit,
            index,
            value,
            ..
        } => write_on(units, unit, index, value, true),
        Event::RegRead { unit, index, .. } => read_on(units, unit, index),
        Event::Submit {
            unit,
            caller,
            access,
        } => submit_on(units, kept, place, None, unit, caller, &access),
        Event::Judge {
            unit,
            caller,
            place: judged,
        } => judge_on(units, kept, unit, caller, judged),
        Event::Wide {
            unit,
            caller,
            rrid,
            kind,
            len,
        } => match wide_access(aims, caller, rrid, kind, len) {
            Some(access) => submit_on(units, kept, place, None, unit, caller, &access),
            None => Reply::NoSuch,
        },
        Event::Aim { caller, addr } => {
            aims[caller as usize] = addr;
            Reply::Aimed
        }
    }
}

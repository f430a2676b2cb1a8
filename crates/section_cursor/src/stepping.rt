// What comes after an awaited event.
ghost use Rattle.std.specs.Prelude.{◌≡◌, ◌<◌, ◌^◌, ◌≤◌, ◌+◌, ◌∷◌, ℕ, List, Option, Some, true, false, vec_len, vec_capacity};
ghost use Rattle.event_words.specs.declared.event.Event.{Event as Events};
ghost use Rattle.event_words.specs.declared.record.LoggedEvent.{LoggedEvent as Logged};
ghost use Rattle.event_words.specs.declared.section.Command.{Command};
ghost use Rattle.event_words.specs.Records as records;
ghost use Rattle.event_words.specs.Records.{closed_by, opened_slot, hits, until_piece, stage_judged, through_piece, after_piece, end_of_commands};
ghost use Rattle.section_cursor.specs.declared.ahead.Part.TheVariants as parts;
ghost use Rattle.std.specs.List.{AllByRecursion};
ghost use Rattle.event_words.specs.Valid.{IsValidAccess};
ghost use Rattle.section_cursor.specs.ValidEvents.{IsValidAhead, IsValidChain, IsValidSlot};
ghost use Rattle.section_cursor.specs.Cursors.{end_of_rest, end_after, stages_on, is_due, is_due_again, goes_on, submits, AheadHasTries};

use crate::ahead::{Ahead, Chain, OpenSlot, Part};
use crate::pieces::{passing, stage_judging, wide_event};
use crate::replies::{hits, is_aimed, is_taken, is_verdict, next_requester};
use event_words::{Access, Event, LoggedEvent, Reply, SectionEnd};

/// A submission that is taken opens its slot.
fn opened_slot(unit: u8, submitted: &LoggedEvent) -> Option<OpenSlot>
    ensures { result ≡ opened_slot unit submitted.now }
{
    let place = submitted.place;
    if is_taken(&submitted.reply) {
        Some(OpenSlot { unit, place })
    } else {
        None
    }
}

/// A verdict closes the slot.
fn close(reply: &Reply, slot: u32, slots: &mut [Option<OpenSlot>])
    ensures { slots.new ≡ closed_by reply.now slot slots.old }
{
    let slot = slot as usize;
    if is_verdict(reply) && slot < slots.len() {
        slots[slot] = None;
    }
}

/// After the last read of those that are repeated until one hits.
fn after_polls(mask: u32, value: u32, logged: &LoggedEvent) -> Ahead
    ensures rest { (caller : ℕ) (cs : List Command) (slots : List (Option records.OpenSlot))
        (xs : List Logged) →
        end_of_rest caller cs slots result xs
        ≡ after_piece (end_of_commands caller cs)
        (until_piece slots (Some (hits mask value logged.now.reply, xs))) }
    ensures none { submits result ≡ 0 }
    ensures tries { AheadHasTries result }
    ensures valid { (who : ℕ) → IsValidAhead who result }
{
    if hits(mask, value, &logged.reply) {
        return Ahead::Between;
    }
    Ahead::Ended {
        end: SectionEnd::Stopped,
    }
}

/// After the Aim of a submission: its Wide follows, whatever the reply was.
fn after_aim(caller: u8, unit: u8, access: Access) -> Ahead
    ensures rest { (event : Events) (cs : List Command) (slots : List (Option records.OpenSlot))
        (x : Logged) (xs : List Logged) →
        end_of_rest caller cs slots result xs
        ≡ end_after caller cs slots event (parts.Aiming unit access) x xs }
    ensures one { submits result ≡ 1 }
    ensures tries { AheadHasTries result }
    ensures valid { caller < 32 → unit < 4 → IsValidAccess access → IsValidAhead caller result }
{
    Ahead::Awaiting {
        event: wide_event(caller, unit, access),
        part: Part::Submission { unit },
    }
}

/// After the Aim of a stage's submission by this requester: its Wide follows where the Aim is
/// replied so.
fn after_stage_aim(caller: u8, unit: u8, rrid: u8, chain: Chain, logged: &LoggedEvent) -> Ahead
    ensures rest { (event : Events) (cs : List Command) (slots : List (Option records.OpenSlot))
        (xs : List Logged) →
        end_of_rest caller cs slots result xs
        ≡ end_after caller cs slots event (parts.StageAiming unit rrid chain) logged.now xs }
    ensures none { submits result ≡ 0 }
    ensures tries { 1 ≤ chain.max → AheadHasTries result }
    ensures valid { caller < 32 → unit < 4 → rrid ≤ 63 → IsValidChain chain →
        IsValidAhead caller result }
{
    if !is_aimed(&logged.reply) {
        return Ahead::Between;
    }
    let access = Access {
        rrid,
        ..chain.access
    };
    Ahead::Awaiting {
        event: wide_event(caller, unit, access),
        part: Part::Stage { unit, chain },
    }
}

/// After the last event of a stage's submission.
fn after_stage(caller: u8, unit: u8, chain: Chain, logged: &LoggedEvent) -> Ahead
    ensures rest { (event : Events) (cs : List Command) (slots : List (Option records.OpenSlot))
        (xs : List Logged) →
        end_of_rest caller cs slots result xs
        ≡ end_after caller cs slots event (parts.Stage unit chain) logged.now xs }
    ensures none { submits result ≡ 0 }
    ensures tries { 1 ≤ chain.max → AheadHasTries result }
    ensures valid { caller < 32 → unit < 4 → logged.now.place < 2 ^ 24 → IsValidChain chain →
        IsValidAhead caller result }
{
    if !is_taken(&logged.reply) {
        return Ahead::Between;
    }
    let judgement = Event::Judge {
        unit,
        caller,
        place: logged.place,
    };
    stage_judging(judgement, chain.max, chain)
}

/// After the last judgement of a stage's submission.
fn after_stage_judgements(caller: u8, chain: Chain, logged: &LoggedEvent) -> Ahead
    ensures rest { (cs : List Command) (slots : List (Option records.OpenSlot)) (xs : List Logged) →
        end_of_rest caller cs slots result xs
        ≡ after_piece (end_of_commands caller cs)
        (through_piece slots (stage_judged (stages_on caller chain)
        (Some (logged.now.reply, xs)))) }
    ensures none { submits result ≡ 0 }
    ensures tries { 1 ≤ chain.max → AheadHasTries result }
    ensures valid { caller < 32 → IsValidChain chain → IsValidAhead caller result }
{
    match next_requester(&logged.reply) {
        Some(rrid) => passing(caller, chain, rrid),
        None => Ahead::Between,
    }
}

/// What `step` does where the command of the awaited event may go on. It is out of line: in `step`,
/// each command that ends would pay for the words of what it writes.
#[inline(never)]
fn step_within(caller: u8, ahead: &mut Ahead, logged: &LoggedEvent)
    requires due { is_due ahead.old logged.now.event ≡ true }
    requires last { is_due_again ahead.old logged.now.reply ≡ false }
    requires within { goes_on ahead.old ≡ true }
    ensures rest { (cs : List Command) (slots : List (Option records.OpenSlot)) (xs : List Logged) →
        end_of_rest caller cs slots ahead.new xs
        ≡ end_of_rest caller cs slots ahead.old (logged.now ∷ xs) }
    ensures count { submits ahead.new ≡ submits ahead.old }
    ensures tries { AheadHasTries ahead.old → AheadHasTries ahead.new }
    ensures valid { caller < 32 → logged.now.place < 2 ^ 24 → IsValidAhead caller ahead.old →
        IsValidAhead caller ahead.new }
{
    let Ahead::Awaiting { part, .. } = &*ahead else {
        return;
    };
    *ahead = match *part {
        Part::Aiming { unit, access } => after_aim(caller, unit, access),
        Part::Polling { mask, value, .. } => after_polls(mask, value, logged),
        Part::StageAiming { unit, rrid, chain } => {
            after_stage_aim(caller, unit, rrid, chain, logged)
        }
        Part::Stage { unit, chain } => after_stage(caller, unit, chain, logged),
        Part::StageJudging { chain, .. } => after_stage_judgements(caller, chain, logged),
        _ => Ahead::Between,
    };
}

/// What comes after the awaited event, which came as this one and isn't awaited again: `Between`
/// where the next command does. A submission adds its slot, for which there must be room, and a
/// verdict closes the slot of its submission.
#[inline(always)]
pub(crate) fn step(
    caller: u8,
    ahead: &mut Ahead,
    slots: &mut Vec<Option<OpenSlot>>,
    logged: &LoggedEvent,
)
    requires due { is_due ahead.old logged.now.event ≡ true }
    requires last { is_due_again ahead.old logged.now.reply ≡ false }
    requires room { vec_len slots.old + submits ahead.old ≤ vec_capacity slots.old }
    ensures rest { (cs : List Command) (xs : List Logged) →
        end_of_rest caller cs slots.new.items ahead.new xs
        ≡ end_of_rest caller cs slots.old.items ahead.old (logged.now ∷ xs) }
    ensures count { vec_len slots.new + submits ahead.new ≡ vec_len slots.old + submits ahead.old }
    ensures capacity { vec_capacity slots.new ≡ vec_capacity slots.old }
    ensures tries { AheadHasTries ahead.old → AheadHasTries ahead.new }
    ensures slots { logged.now.place < 2 ^ 24 → IsValidAhead caller ahead.old →
        AllByRecursion IsValidSlot slots.old.items → AllByRecursion IsValidSlot slots.new.items }
    ensures valid { caller < 32 → logged.now.place < 2 ^ 24 → IsValidAhead caller ahead.old →
        IsValidAhead caller ahead.new }
{
    let Ahead::Awaiting { part, .. } = &*ahead else {
        return;
    };
    match *part {
        Part::Alone => *ahead = Ahead::Between,
        Part::Submission { unit } => {
            slots.push_reserved(opened_slot(unit, logged));
            *ahead = Ahead::Between;
        }
        Part::Judging { slot, .. } => {
            close(&logged.reply, slot, slots);
            *ahead = Ahead::Between;
        }
        _ => step_within(caller, ahead, logged),
    }
}

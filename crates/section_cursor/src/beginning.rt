// What each command begins with.
ghost use Rattle.std.specs.Prelude.{◌≡◌, ◌<◌, ◌≤◌, ◌∷◌, List, Option, if◌then◌else◌};
ghost use Rattle.event_words.specs.declared.event.Event.TheVariants as events;
ghost use Rattle.event_words.specs.declared.record.LoggedEvent.{LoggedEvent};
ghost use Rattle.event_words.specs.declared.section.Command.{Command as Commands};
ghost use Rattle.event_words.specs.Sections.{stage_units, is_submit, IsUnit};
ghost use Rattle.event_words.specs.Records as records;
ghost use Rattle.event_words.specs.Records.{polls, until_piece, through_piece, after_piece, slot_of, end_of_commands};
ghost use Rattle.std.specs.List.{AllByRecursion};
ghost use Rattle.event_words.specs.Valid.{IsValidAccess, IsValidEvent};
ghost use Rattle.section_cursor.specs.declared.ahead.Ahead.TheVariants as aheads;
ghost use Rattle.section_cursor.specs.declared.ahead.Part.TheVariants as parts;
ghost use Rattle.section_cursor.specs.ValidEvents.{IsValidAhead, IsValidSlot, IsPlayable};
ghost use Rattle.section_cursor.specs.Cursors.{end_of_rest, submits, AheadHasTries, HasTries};

use crate::ahead::{Ahead, Chain, OpenSlot, Part};
use crate::pieces::{aim_event, first_try, passing, submission};
use event_words::{Access, Command, Event, Stages};

/// What the slot with this number holds: nothing where it isn't open.
fn slot_of(slots: &[Option<OpenSlot>], slot: u32) -> Option<OpenSlot>
    ensures { result ≡ slot_of slots.now slot }
{
    match slots.get(slot as usize) {
        Some(open) => *open,
        None => None,
    }
}

/// A judgement of what an open slot holds.
fn judgement(caller: u8, taken: OpenSlot) -> Event
    ensures { result ≡ events.Judge taken.unit caller taken.place }
{
    Event::Judge {
        unit: taken.unit,
        caller,
        place: taken.place,
    }
}

/// A write of a register by this caller.
fn write_event(caller: u8, unit: u8, index: u32, value: u32) -> Event
    ensures { result ≡ events.RegWrite unit caller index value }
{
    Event::RegWrite {
        unit,
        caller,
        index,
        value,
    }
}

/// A read of a register by this caller.
fn read_event(caller: u8, unit: u8, index: u32) -> Event
    ensures { result ≡ events.RegRead unit caller index }
{
    Event::RegRead {
        unit,
        caller,
        index,
    }
}

/// An awaited event that is all of its command.
fn alone(event: Event) -> Ahead
    ensures { result ≡ aheads.Awaiting event parts.Alone }
{
    Ahead::Awaiting {
        event,
        part: Part::Alone,
    }
}

/// Awaits a write.
#[inline(never)]
fn write(caller: u8, ahead: &mut Ahead, unit: u8, index: u32, value: u32)
    ensures { ahead.new ≡ aheads.Awaiting (events.RegWrite unit caller index value) parts.Alone }
{
    *ahead = alone(write_event(caller, unit, index, value));
}

/// Awaits a read.
#[inline(never)]
fn read(caller: u8, ahead: &mut Ahead, unit: u8, index: u32)
    ensures { ahead.new ≡ aheads.Awaiting (events.RegRead unit caller index) parts.Alone }
{
    *ahead = alone(read_event(caller, unit, index));
}

/// Awaits a submission of one event.
#[inline(never)]
fn submit(caller: u8, ahead: &mut Ahead, unit: u8, access: &Access)
    ensures { ahead.new ≡ aheads.Awaiting (events.Submit unit caller access.now)
        (parts.Submission unit) }
{
    *ahead = Ahead::Awaiting {
        event: submission(caller, unit, *access),
        part: Part::Submission { unit },
    };
}

/// Awaits the Aim of a submission, whose Wide follows.
#[inline(never)]
fn aim(caller: u8, ahead: &mut Ahead, unit: u8, access: &Access)
    ensures { ahead.new ≡ aheads.Awaiting (events.Aim caller access.now.addr)
        (parts.Aiming unit access.now) }
{
    *ahead = Ahead::Awaiting {
        event: aim_event(caller, *access),
        part: Part::Aiming {
            unit,
            access: *access,
        },
    };
}

/// Awaits the one judgement of an open slot.
#[inline(never)]
fn judge(caller: u8, ahead: &mut Ahead, slot: u32, taken: OpenSlot)
    ensures { ahead.new ≡ aheads.Awaiting (events.Judge taken.unit caller taken.place)
        (parts.Judging slot 0) }
{
    *ahead = Ahead::Awaiting {
        event: judgement(caller, taken),
        part: Part::Judging { slot, left: 0 },
    };
}

/// Awaits up to `tries` judgements of a slot, and none where it isn't open.
#[inline(never)]
fn settle(caller: u8, ahead: &mut Ahead, slots: &[Option<OpenSlot>], slot: u32, tries: u32)
    ensures rest { (cs : List Commands) (xs : List LoggedEvent) →
        end_of_rest caller cs slots.now ahead.new xs
        ≡ after_piece (end_of_commands caller cs)
        (records.settle_piece caller tries slots.now slot (slot_of slots.now slot) xs) }
    ensures none { submits ahead.new ≡ 0 }
    ensures tries { AheadHasTries ahead.new }
    ensures valid { caller < 32 → AllByRecursion IsValidSlot slots.now →
        IsValidAhead caller ahead.new }
{
    let Some(open) = slot_of(slots, slot) else {
        *ahead = Ahead::Between;
        return;
    };
    let left = tries.saturating_sub(1);
    *ahead = first_try(judgement(caller, open), tries, Part::Judging { slot, left });
}

/// Awaits up to `tries` reads until one hits.
#[inline(never)]
fn until(caller: u8, ahead: &mut Ahead, unit: u8, index: u32, mask: u32, value: u32, tries: u32)
    ensures rest { (cs : List Commands) (slots : List (Option records.OpenSlot))
        (xs : List LoggedEvent) →
        end_of_rest caller cs slots ahead.new xs
        ≡ after_piece (end_of_commands caller cs)
        (until_piece slots (polls tries (events.RegRead unit caller index) mask value xs)) }
    ensures none { submits ahead.new ≡ 0 }
    ensures tries { AheadHasTries ahead.new }
    ensures valid { IsValidEvent (events.RegRead unit caller index) →
        IsValidAhead caller ahead.new }
{
    let left = tries.saturating_sub(1);
    let part = Part::Polling { mask, value, left };
    *ahead = first_try(read_event(caller, unit, index), tries, part);
}

/// Awaits the first of the stages.
#[inline(never)]
fn through(caller: u8, ahead: &mut Ahead, stages: &Stages, access: &Access, max: u32)
    ensures rest { (cs : List Commands) (slots : List (Option records.OpenSlot))
        (xs : List LoggedEvent) →
        end_of_rest caller cs slots ahead.new xs
        ≡ after_piece (end_of_commands caller cs)
        (through_piece slots (records.through_stages caller max access.now
        (stage_units stages.now) access.now.rrid xs)) }
    ensures none { submits ahead.new ≡ 0 }
    ensures tries { 1 ≤ max → AheadHasTries ahead.new }
    ensures valid { caller < 32 → AllByRecursion IsUnit (stage_units stages.now) →
        IsValidAccess access.now → IsValidAhead caller ahead.new }
{
    let chain = Chain {
        stages: *stages,
        stage: 0,
        access: *access,
        max,
    };
    *ahead = passing(caller, chain, access.rrid);
}

/// Writes what a command begins with: `Between` where it makes no event. Each command writes it in
/// a function of its own: in one, each pays for the words of the largest.
#[inline(always)]
pub(crate) fn begin_with(
    caller: u8,
    ahead: &mut Ahead,
    command: &Command,
    slots: &[Option<OpenSlot>],
)
    ensures rest { (cs : List Commands) (xs : List LoggedEvent) →
        end_of_rest caller cs slots.now ahead.new xs
        ≡ end_of_commands caller (command.now ∷ cs) slots.now xs }
    ensures submits { submits ahead.new ≡ (if is_submit command.now then 1 else 0) }
    ensures tries { HasTries command.now → AheadHasTries ahead.new }
    ensures valid { caller < 32 → AllByRecursion IsValidSlot slots.now → IsPlayable command.now →
        IsValidAhead caller ahead.new }
{
    match command {
        Command::Write { unit, index, value } => write(caller, ahead, *unit, *index, *value),
        Command::Read { unit, index } => read(caller, ahead, *unit, *index),
        Command::Submit { unit, access, .. } if access.narrow() => {
            submit(caller, ahead, *unit, access)
        }
        Command::Submit { unit, access, .. } => aim(caller, ahead, *unit, access),
        Command::Judge { slot } => match slot_of(slots, *slot) {
            Some(open) => judge(caller, ahead, *slot, open),
            None => *ahead = Ahead::Between,
        },
        Command::Settle { slot, max } => settle(caller, ahead, slots, *slot, *max),
        Command::Until {
            unit,
            index,
            mask,
            value,
            max,
        } => until(caller, ahead, *unit, *index, *mask, *value, *max),
        Command::Through {
            stages,
            access,
            max,
        } => through(caller, ahead, stages, access, *max),
    }
}

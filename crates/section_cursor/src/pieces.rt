// What a piece awaits: the first of several tries, the events of a submission, and stages.
ghost use Rattle.std.specs.Prelude.{◌≡◌, ◌<◌, ◌≤◌, ℕ, List, Option, length, slice_get, IfSome};
ghost use Rattle.event_words.specs.declared.event.Event.TheVariants as events;
ghost use Rattle.event_words.specs.declared.record.LoggedEvent.{LoggedEvent};
ghost use Rattle.event_words.specs.declared.section.Command.{Command as Commands};
ghost use Rattle.event_words.specs.Sections.{stage_units};
ghost use Rattle.event_words.specs.Records as records;
ghost use Rattle.event_words.specs.Records.{judgements, stage_judged, through_piece, after_piece, end_of_commands};
ghost use Rattle.event_words.specs.Events.{caller_of};
ghost use Rattle.event_words.specs.Valid.{IsValidEvent};
ghost use Rattle.section_cursor.specs.declared.ahead.Ahead.TheVariants as aheads;
ghost use Rattle.section_cursor.specs.declared.ahead.Part.TheVariants as parts;
ghost use Rattle.section_cursor.specs.ValidEvents.{IsValidAhead, IsValidChain, IsValidPart};
ghost use Rattle.section_cursor.specs.Cursors.{end_of_rest, stages_on, part_submits, submits, AheadHasTries, PartHasTries};

use crate::ahead::{Ahead, Chain, Part};
use event_words::{Access, Event, Stages};

/// The first of up to `tries` tries of an event, which is this part: nothing may come where there
/// is none.
#[inline(always)]
pub(crate) fn first_try(event: Event, tries: u32, part: Part) -> Ahead
    ensures none { tries ≡ 0 → result ≡ aheads.Broken }
    ensures first { 1 ≤ tries → result ≡ aheads.Awaiting event part }
    ensures submits { part_submits part ≡ 0 → submits result ≡ 0 }
    ensures tries { PartHasTries part → AheadHasTries result }
    ensures valid { (who : ℕ) → caller_of event ≡ who → IsValidEvent event → IsValidPart part →
        IsValidAhead who result }
{
    if tries == 0 {
        return Ahead::Broken;
    }
    Ahead::Awaiting { event, part }
}

/// Up to `tries` judgements of a stage's submission, and the stages after it.
pub(crate) fn stage_judging(event: Event, tries: u32, chain: Chain) -> Ahead
    ensures rest { (caller : ℕ) (cs : List Commands) (slots : List (Option records.OpenSlot))
        (xs : List LoggedEvent) →
        end_of_rest caller cs slots result xs
        ≡ after_piece (end_of_commands caller cs)
        (through_piece slots (stage_judged (stages_on caller chain)
        (judgements tries event xs))) }
    ensures none { submits result ≡ 0 }
    ensures tries { 1 ≤ chain.max → AheadHasTries result }
    ensures valid { (who : ℕ) → caller_of event ≡ who → IsValidEvent event → IsValidChain chain →
        IsValidAhead who result }
{
    let left = tries.saturating_sub(1);
    first_try(event, tries, Part::StageJudging { left, chain })
}

/// The submission of an access by one event.
pub(crate) fn submission(caller: u8, unit: u8, access: Access) -> Event
    ensures { result ≡ events.Submit unit caller access }
{
    Event::Submit {
        unit,
        caller,
        access,
    }
}

/// The Aim of a submission by two events.
pub(crate) fn aim_event(caller: u8, access: Access) -> Event
    ensures { result ≡ events.Aim caller access.addr }
{
    Event::Aim {
        caller,
        addr: access.addr,
    }
}

/// The Wide that follows the Aim of its address.
pub(crate) fn wide_event(caller: u8, unit: u8, access: Access) -> Event
    ensures { result ≡ records.wide_event unit caller access }
{
    Event::Wide {
        unit,
        caller,
        rrid: access.rrid,
        kind: access.kind,
        len: access.len,
    }
}

/// The units of the stages.
fn stage_units(stages: &Stages) -> &[u8]
    ensures units { result.now ≡ stage_units stages.now }
    ensures few { length result.now ≤ 4 }
{
    let count = stages.count as usize;
    if count < 4 {
        &stages.units[..count]
    } else {
        &stages.units
    }
}

/// The unit of the stage with this number, if there is one.
fn unit_of(stages: &Stages, stage: u8) -> Option<u8>
    ensures unit { result ≡ slice_get (stage_units stages.now) stage }
    ensures few { IfSome result (λ _. stage < 4) }
{
    match stage_units(stages).get(stage as usize) {
        Some(unit) => Some(*unit),
        None => None,
    }
}

/// The submission of a stage whose number is one less than the chain's, and the stages after it.
fn stage(caller: u8, unit: u8, access: Access, chain: Chain) -> Ahead
    requires { access ≡ record chain.access { rrid = access.rrid } }
    ensures rest { (cs : List Commands) (slots : List (Option records.OpenSlot))
        (xs : List LoggedEvent) →
        end_of_rest caller cs slots result xs
        ≡ after_piece (end_of_commands caller cs)
        (through_piece slots (records.one_stage caller chain.max unit access
        (stages_on caller chain) xs)) }
    ensures none { submits result ≡ 0 }
    ensures tries { 1 ≤ chain.max → AheadHasTries result }
    ensures valid { caller < 32 → unit < 4 → access.rrid ≤ 63 → IsValidChain chain →
        IsValidAhead caller result }
{
    if access.narrow() {
        return Ahead::Awaiting {
            event: submission(caller, unit, access),
            part: Part::Stage { unit, chain },
        };
    }
    Ahead::Awaiting {
        event: aim_event(caller, access),
        part: Part::StageAiming {
            unit,
            rrid: access.rrid,
            chain,
        },
    }
}

/// Stages, the first of which bears this requester.
pub(crate) fn passing(caller: u8, chain: Chain, rrid: u8) -> Ahead
    ensures rest { (cs : List Commands) (slots : List (Option records.OpenSlot))
        (xs : List LoggedEvent) →
        end_of_rest caller cs slots result xs
        ≡ after_piece (end_of_commands caller cs)
        (through_piece slots (stages_on caller chain rrid xs)) }
    ensures none { submits result ≡ 0 }
    ensures tries { 1 ≤ chain.max → AheadHasTries result }
    ensures valid { caller < 32 → rrid ≤ 63 → IsValidChain chain → IsValidAhead caller result }
{
    let Some(unit) = unit_of(&chain.stages, chain.stage) else {
        return Ahead::Between;
    };
    let access = Access {
        rrid,
        ..chain.access
    };
    let rest = Chain {
        stage: chain.stage + 1,
        ..chain
    };
    stage(caller, unit, access, rest)
}

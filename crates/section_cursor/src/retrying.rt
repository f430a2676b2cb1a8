// The awaited event tried again, in place.
ghost use Rattle.std.specs.Prelude.{◌≡◌, ◌+◌, ◌∷◌, ℕ, List, Option, true, false, nat_lt};
ghost use Rattle.event_words.specs.declared.event.Event.{Event as Events};
ghost use Rattle.event_words.specs.declared.record.LoggedEvent.{LoggedEvent as Logged};
ghost use Rattle.event_words.specs.declared.section.Command.{Command};
ghost use Rattle.event_words.specs.Records as records;
ghost use Rattle.section_cursor.specs.declared.ahead.Ahead.TheVariants.{Awaiting};
ghost use Rattle.section_cursor.specs.ValidEvents.{IsValidAhead, IsValidPart};
ghost use Rattle.section_cursor.specs.Cursors.{end_of_rest, end_after, is_due, is_due_again, is_tried_again, part_submits, submits, IsSettled, AheadHasTries, PartHasTries};

use crate::ahead::{Ahead, Part};
use crate::replies::{hits, is_held, same_event};
use event_words::{Event, LoggedEvent};

/// One try less, where one is left.
fn count_down(left: &mut u32) -> bool
    ensures counted { result ≡ true → left.new + 1 ≡ left.old }
    ensures none { result ≡ false → left.new ≡ left.old }
    ensures some { result ≡ nat_lt 0 left.old }
{
    if *left == 0 {
        return false;
    }
    *left -= 1;
    true
}

/// Whether this event is the awaited one.
#[inline(always)]
pub(crate) fn is_due(ahead: &Ahead, event: &Event) -> bool
    ensures { result ≡ is_due ahead.now event.now }
{
    match ahead {
        Ahead::Awaiting { event: due, .. } => same_event(due, event),
        _ => false,
    }
}

/// Whether the awaited event, which came as this one, is awaited again: one try less is then left of
/// it. Elsewhere nothing changes.
#[inline(always)]
fn tried_again(part: &mut Part, logged: &LoggedEvent) -> bool
    ensures again { result ≡ is_tried_again part.old logged.now.reply }
    ensures rest { result ≡ true → (caller : ℕ) (cs : List Command)
        (slots : List (Option records.OpenSlot)) (event : Events) (xs : List Logged) →
        end_of_rest caller cs slots (Awaiting event part.new) xs
        ≡ end_after caller cs slots event part.old logged.now xs }
    ensures same { result ≡ false → part.new ≡ part.old }
    ensures submits { part_submits part.new ≡ part_submits part.old }
    ensures tries { PartHasTries part.old → PartHasTries part.new }
    ensures valid { IsValidPart part.old → IsValidPart part.new }
{
    match part {
        Part::Judging { left, .. } if is_held(&logged.reply) => count_down(left),
        Part::Polling { mask, value, left } if !hits(*mask, *value, &logged.reply) => {
            count_down(left)
        }
        Part::StageJudging { left, .. } if is_held(&logged.reply) => count_down(left),
        _ => false,
    }
}

/// The same of what comes next, where the awaited event came as this one.
#[inline(always)]
pub(crate) fn due_again(ahead: &mut Ahead, logged: &LoggedEvent) -> bool
    requires due { is_due ahead.old logged.now.event ≡ true }
    ensures again { result ≡ is_due_again ahead.old logged.now.reply }
    ensures rest { result ≡ true → (caller : ℕ) (cs : List Command)
        (slots : List (Option records.OpenSlot)) (xs : List Logged) →
        end_of_rest caller cs slots ahead.new xs
        ≡ end_of_rest caller cs slots ahead.old (logged.now ∷ xs) }
    ensures same { result ≡ false → ahead.new ≡ ahead.old }
    ensures settled { IsSettled ahead.old → IsSettled ahead.new }
    ensures submits { submits ahead.new ≡ submits ahead.old }
    ensures tries { AheadHasTries ahead.old → AheadHasTries ahead.new }
    ensures valid { (who : ℕ) → IsValidAhead who ahead.old → IsValidAhead who ahead.new }
{
    match ahead {
        Ahead::Awaiting { part, .. } => tried_again(part, logged),
        _ => false,
    }
}

// The audit of a report: one pass over its lines.
ghost use Rattle.std.specs.Prelude.{◌≡◌, ◌+◌, ◌<◌, ◌≤◌, ◌∷◌, [], List, ℕ, true, length, IfOk, IfSome, IfNone};
ghost use Rattle.script_reader.specs.Scripts.{ScriptOf, need_of, IsWellFormedScript};
ghost use Rattle.script_reader.specs.ReportTexts.{fed_lines};
ghost use Rattle.event_words.specs.ReportLines.{count_line};
ghost use Rattle.audit_reader.specs.Audits.{Audits};
ghost use Rattle.audit_reader.specs.Following.{IsSeen, EventAnswer, AreRead, EventsAnswer, LinesAnswer};

use crate::endings::{first_bad_end, first_bad_unit, last_is_next};
use crate::listing::{caller_in, count_in};
use crate::turns::awaited;
use crate::unread::Unread;
use crate::{Audit, NoMemory};
use event_words::{Line, Listed, LoggedEvent, Machine, pack};
use script_reader::Script;
use section_cursor::{Cursor, section_cursors};
use std::alloc::Global;
use unit_core::Fabric;

/// Whether the next line lists an event that may come at this place, with its reply. If so, it is
/// read, and the units and the caller's cursor are those after the event.
fn event_is_right(
    units: &mut Fabric,
    cursors: &mut [Cursor],
    listed: &mut Listed,
    unread: &mut Unread<'_>,
    place: u32,
) -> bool
    requires next { units.old.next ≡ place }
    requires room { place < units.old.places }
    requires most { units.old.places ≤ 1048576 }
    requires few { length cursors.old ≤ 17 }
    requires seen { (script : ScriptOf) × (words : List ℕ)
        × IsSeen script words units.old.state cursors.old }
    ensures answer { (script : ScriptOf) (words : List ℕ)
        → IsSeen script words units.old.state cursors.old → length words ≡ place
        → EventAnswer result script words unread.old unread.new units.new.state cursors.new }
    ensures next { result ≡ true → units.new.next ≡ place + 1 }
    ensures places { units.new.places ≡ units.old.places }
    ensures count { length cursors.new ≡ length cursors.old }
{
    let Some(caller) = caller_in(unread.bytes(), place) else {
        return false;
    };
    let Some(event) = awaited(cursors, caller) else {
        return false;
    };
    let word = pack(&event);
    let reply = units.apply(place, word);
    let logged = LoggedEvent {
        place,
        event,
        reply,
    };
    listed.set(word, &logged);
    if !unread.take(listed.bytes()) {
        return false;
    }
    cursors[caller as usize].note(&logged);
    true
}

/// Reads the lines of `count` events. Where one is bad, or missing, it answers the place of the first.
fn first_bad_event(
    units: &mut Fabric,
    cursors: &mut [Cursor],
    unread: &mut Unread<'_>,
    count: u32,
) -> Option<u32>
    requires next { units.old.next ≡ 0 }
    requires room { count ≤ units.old.places }
    requires most { units.old.places ≤ 1048576 }
    requires few { length cursors.old ≤ 17 }
    requires read { (script : ScriptOf) × (bytes : List ℕ)
        × AreRead script bytes count [] units.old.state cursors.old unread.old }
    ensures answer { (script : ScriptOf) (bytes : List ℕ) → need_of script ≤ 1048576
        → AreRead script bytes count [] units.old.state cursors.old unread.old
        → EventsAnswer result script bytes count units.new.state cursors.new unread.new }
    ensures place { IfSome result (λ place. place < count) }
    ensures count { length cursors.new ≡ length cursors.old }
{
    let mut listed = Listed::new();
    for place in 0..count {
        if !event_is_right(units, cursors, &mut listed, unread, place) {
            return Some(place);
        }
    }
    None
}

/// Reads the lines after the first, which says that there are `count` events.
fn audit_lines(
    units: &mut Fabric,
    cursors: &mut [Cursor],
    line: &mut Line,
    unread: &mut Unread<'_>,
    count: u32,
) -> Audit
    requires next { units.old.next ≡ 0 }
    requires room { count ≤ units.old.places }
    requires most { units.old.places ≤ 1048576 }
    requires few { length cursors.old ≤ 17 }
    requires read { (script : ScriptOf) × (bytes : List ℕ)
        × AreRead script bytes count [] units.old.state cursors.old unread.old }
    ensures { (script : ScriptOf) (bytes : List ℕ) → need_of script ≤ 1048576
        → AreRead script bytes count [] units.old.state cursors.old unread.old
        → LinesAnswer result script bytes }
{
    if let Some(place) = first_bad_event(units, cursors, unread, count) {
        return Audit::BadAt { line: place + 2 };
    }
    if let Some(number) = first_bad_end(unread, line, cursors) {
        return Audit::BadAt {
            line: count + 2 + number,
        };
    }
    let sections = cursors.len() as u32;
    if let Some(number) = first_bad_unit(unread, line, units) {
        return Audit::BadAt {
            line: count + 2 + (sections + number),
        };
    }
    let before_end = sections + units.units() as u32;
    if !last_is_next(unread) {
        return Audit::BadAt {
            line: count + 2 + before_end,
        };
    }
    if !unread.bytes().is_empty() {
        return Audit::BadAt {
            line: count + 2 + (before_end + 1),
        };
    }
    Audit::Legal
}

/// Audits the lines after the first, which says that there are `count` events. It takes its memory
/// here, before the first of them: what the units keep of each event, and the cursors' slots.
fn audit_counted(
    alloc: Global,
    script: &Script,
    line: &mut Line,
    unread: &mut Unread<'_>,
    count: u32,
) -> Result<Audit, NoMemory>
    requires formed { IsWellFormedScript script.now }
    requires most { need_of script.now ≤ 1048576 }
    requires few { count ≤ need_of script.now }
    requires counted { (bytes : List ℕ)
        × (fed_lines bytes ≡ count_line count ∷ fed_lines unread.old) }
    ensures { IfOk result (λ answer. (bytes : List ℕ)
        → fed_lines bytes ≡ count_line count ∷ fed_lines unread.old
        → LinesAnswer answer script.now bytes) }
{
    let Ok(mut units) = Fabric::open(alloc, &script.shapes, count) else {
        return Err(NoMemory);
    };
    let mut cursors = section_cursors(alloc, &script.boot, &script.lanes)?;
    Ok(audit_lines(&mut units, &mut cursors, line, unread, count))
}

/// Reads the first line, which says how many events there are, where it is right.
fn first_count(line: &mut Line, unread: &mut Unread<'_>, most: u32) -> Option<u32>
    requires { most ≤ 1048576 }
    ensures some { IfSome result (λ n. (n ≤ most)
        × (fed_lines unread.old ≡ count_line n ∷ fed_lines unread.new)) }
    ensures none { IfNone result ((n : ℕ) (rest : List (List ℕ)) → n ≤ most
        → fed_lines unread.old ≡ count_line n ∷ rest → ⊥) }
{
    let Some(count) = count_in(unread.bytes(), most) else {
        return None;
    };
    line.make_count(count);
    if !unread.take(line.bytes()) {
        return None;
    }
    Some(count)
}

/// Whether the bytes are the report of a legal history of the script, and if not, the number of the
/// first line that is wrong, from 1 on. A line that is missing counts as the one after the last.
///
/// The script is well-formed and needs at most 1048576 events. Beside the script and the bytes it takes
/// 16 bytes for each event that the first line tells, and a slot for each submission of the script.
pub fn audit(alloc: Global, script: &Script, bytes: &[u8]) -> Result<Audit, NoMemory>
    requires formed { IsWellFormedScript script.now }
    requires most { need_of script.now ≤ 1048576 }
    ensures { IfOk result (Audits script.now bytes.now) }
{
    let mut line = Line::new();
    let mut unread = Unread::of(bytes);
    let Some(count) = first_count(&mut line, &mut unread, script.need() as u32) else {
        return Ok(Audit::BadAt { line: 1 });
    };
    audit_counted(alloc, script, &mut line, &mut unread, count)
}

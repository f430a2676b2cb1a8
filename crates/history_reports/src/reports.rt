// The report of a history.
ghost use Rattle.std.specs.Prelude.{◌≡◌, ◌++◌, ◌+◌, ◌*◌, ◌≤◌, ◌∷◌, [], length, flat_map, codes, IfOk, OnOk};
ghost use Rattle.std.specs.List.{AllByRecursion};
ghost use Rattle.event_words.specs.Valid.{IsValidShape};
ghost use Rattle.event_words.specs.Runs.{IsEventWord};
ghost use Rattle.event_words.specs.ReportLines.{event_line};
ghost use Rattle.unit_core.specs.Reports.{section_lines, report_text};
ghost use Rattle.history_reports.specs.SectionEnds.{cursor_ends, end_lines};
ghost use Rattle.script_player.specs.ToldHistories.{logged_with, IsToldOf};
ghost use Rattle.history_reports.specs.FaultReports.{IsFaultsText};

use crate::cursors::{note, push_ends};
use crate::replay::replay_words;
use crate::windows::push_windows;
use event_words::{Line, Listed, Reply, Section};
use script_player::{NoMemory, Told, replayed};
use script_reader::Script;
use section_cursor::{Cursor, section_cursors};
use std::alloc::{AllocError, Global};

/// Writes the line of each word's event with its reply, and notes the event.
fn push_history(
    out: &mut Vec<u8>,
    cursors: &mut [Cursor],
    words: &[u64],
    replies: &[Reply],
) -> Result<(), AllocError>
    requires few { length words.now ≤ 1048576 }
    requires replies { length replies.now ≡ length words.now }
    ensures text { OnOk result (out.new.items ≡
        out.old.items ++ flat_map event_line (logged_with 0 words.now replies.now)) }
    ensures ends { OnOk result (cursor_ends 0 cursors.new [] ≡
        cursor_ends 0 cursors.old (logged_with 0 words.now replies.now)) }
    ensures count { length cursors.new ≡ length cursors.old }
{
    let mut listed = Listed::new();
    for (place, word) in words.iter().enumerate() {
        if !listed.take(place as u32, *word, replies[place]) {
            continue;
        }
        note(cursors, listed.logged());
        out.extend_from_slice(listed.bytes())?;
    }
    Ok(())
}

/// Writes the lines of the words' events, and then how each section ended by its cursor.
fn push_noted(
    out: &mut Vec<u8>,
    line: &mut Line,
    cursors: &mut [Cursor],
    words: &[u64],
    replies: &[Reply],
) -> Result<(), AllocError>
    requires few { length words.now ≤ 1048576 }
    requires replies { length replies.now ≡ length words.now }
    requires cursors { length cursors.old ≤ 17 }
    ensures { OnOk result (out.new.items ≡ out.old.items
        ++ (flat_map event_line (logged_with 0 words.now replies.now)
        ++ end_lines 0 (cursor_ends 0 cursors.old (logged_with 0 words.now replies.now)))) }
{
    push_history(out, cursors, words, replies)?;
    push_ends(out, line, cursors)?;
    Ok(())
}

/// Writes the lines of the words' events, and then how each section ended.
fn push_events(
    out: &mut Vec<u8>,
    line: &mut Line,
    alloc: Global,
    boot: &Section,
    lanes: &[Section],
    words: &[u64],
    replies: &[Reply],
) -> Result<(), AllocError>
    requires few { length words.now ≤ 1048576 }
    requires replies { length replies.now ≡ length words.now }
    requires lanes { length lanes.now ≤ 16 }
    ensures { OnOk result (out.new.items ≡ out.old.items
        ++ (flat_map event_line (logged_with 0 words.now replies.now)
        ++ section_lines (logged_with 0 words.now replies.now) 0 (boot.now ∷ lanes.now))) }
{
    let mut cursors = section_cursors(alloc, boot, lanes)?;
    push_noted(out, line, cursors.as_mut_slice(), words, replies)?;
    Ok(())
}

/// Room for the report of so many events, asked for once: an event's line has at most 68 bytes, and
/// the other lines have at most 1024.
fn report_room(count: usize) -> usize
    requires { count ≤ 1048576 }
    ensures { result ≡ count * 68 + 1024 }
{
    count * 68 + 1024
}

/// The lines of the report but the last, which is `end`.
fn told_body(
    alloc: Global,
    script: &Script,
    words: &[u64],
    told: &Told,
) -> Result<Vec<u8>, NoMemory>
    requires lanes { length script.now.lanes ≤ 16 }
    requires few { length words.now ≤ 1048576 }
    requires told { IsToldOf told.now script.now.shapes words.now }
    ensures { IfOk result (λ body. body.items ++ codes "end\n" ≡
        report_text script.now.shapes script.now.boot script.now.lanes words.now) }
{
    let count = words.len();
    let mut line = Line::new();
    let mut out = Vec::with_capacity(alloc, report_room(count))?;
    line.make_count(count as u32);
    out.extend_from_slice(line.bytes())?;
    push_events(
        &mut out,
        &mut line,
        alloc,
        &script.boot,
        &script.lanes,
        words,
        &told.replies,
    )?;
    out.extend_from_slice(&told.errors)?;
    Ok(out)
}

/// The report of a history of the script of which this is told.
pub fn told_report(
    alloc: Global,
    script: &Script,
    words: &[u64],
    told: &Told,
) -> Result<Vec<u8>, NoMemory>
    requires lanes { length script.now.lanes ≤ 16 }
    requires few { length words.now ≤ 1048576 }
    requires told { IsToldOf told.now script.now.shapes words.now }
    ensures { IfOk result (λ text. text.items ≡
        report_text script.now.shapes script.now.boot script.now.lanes words.now) }
{
    let mut out = told_body(alloc, script, words, told)?;
    out.extend_from_slice(b"end\n")?;
    Ok(out)
}

/// The report of a history of the script: every event with its reply, how each section ended, and
/// each unit's error registers after the last event.
///
/// The script has 1 to 4 valid shapes and at most 16 lanes. A legal history of a script that needs at
/// most 1048576 events has no more words than that.
pub fn report(alloc: Global, script: &Script, words: &[u64]) -> Result<Vec<u8>, NoMemory>
    requires count { (1 ≤ length script.now.shapes) × (length script.now.shapes ≤ 4) }
    requires shapes { AllByRecursion IsValidShape script.now.shapes }
    requires lanes { length script.now.lanes ≤ 16 }
    requires few { length words.now ≤ 1048576 }
    ensures { IfOk result (λ text. text.items ≡
        report_text script.now.shapes script.now.boot script.now.lanes words.now) }
{
    let told = replayed(alloc, &script.shapes, words)?;
    told_report(alloc, script, words, &told)
}

/// The report without its last line, and after it what each reading of register 0x74 shows, how many requesters
/// of each unit are left pending, and `end`. The conditions are those of `report`, the words are a history's, and
/// this is told of it.
pub fn faults_report(
    alloc: Global,
    script: &Script,
    words: &[u64],
    told: &Told,
) -> Result<Vec<u8>, NoMemory>
    requires count { (1 ≤ length script.now.shapes) × (length script.now.shapes ≤ 4) }
    requires shapes { AllByRecursion IsValidShape script.now.shapes }
    requires lanes { length script.now.lanes ≤ 16 }
    requires few { length words.now ≤ 1048576 }
    requires words { AllByRecursion IsEventWord words.now }
    requires told { IsToldOf told.now script.now.shapes words.now }
    ensures { IfOk result (λ text. IsFaultsText script.now words.now
        (report_text script.now.shapes script.now.boot script.now.lanes words.now) text.items) }
{
    let mut out = told_body(alloc, script, words, told)?;
    let replay = replay_words(alloc, &script.shapes, words)?;
    let mut line = Line::new();
    push_windows(
        &mut out,
        &mut line,
        script.shapes.len() as u8,
        &replay.events,
    )?;
    Ok(out)
}

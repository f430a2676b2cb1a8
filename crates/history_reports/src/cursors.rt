// The cursors of the sections, on the way and at the end.
ghost use Rattle.std.specs.Prelude.{◌≡◌, ◌≤◌, ◌++◌, ◌∷◌, [], List, length, OnOk};
ghost use Rattle.event_words.specs.declared.record.LoggedEvent.{LoggedEvent as Logged};
ghost use Rattle.history_reports.specs.SectionEnds.{cursor_ends, end_lines};
ghost use Rattle.event_words.specs.ReportLines.{section_line};

use event_words::{Line, LoggedEvent, SectionEnd};
use section_cursor::Cursor;
use std::alloc::AllocError;

/// The next event, for the cursor of its caller, if there is one.
pub fn note(cursors: &mut [Cursor], logged: &LoggedEvent)
    ensures ends { (left : List Logged) →
        cursor_ends 0 cursors.new left ≡ cursor_ends 0 cursors.old (logged.now ∷ left) }
    ensures count { length cursors.new ≡ length cursors.old }
{
    let caller = logged.event.caller() as usize;
    if caller < cursors.len() {
        cursors[caller].note(logged);
    }
}

/// The line of a section that ended; none where its events are no record of it.
fn push_end(
    out: &mut Vec<u8>,
    line: &mut Line,
    number: u8,
    end: Option<SectionEnd>,
) -> Result<(), AllocError>
    ensures { OnOk result (out.new.items ≡ out.old.items ++ section_line number end) }
{
    let Some(end) = end else {
        return Ok(());
    };
    line.make_section(number, end);
    out.extend_from_slice(line.bytes())
}

/// The lines of the sections, after the last event.
pub fn push_ends(out: &mut Vec<u8>, line: &mut Line, cursors: &[Cursor]) -> Result<(), AllocError>
    requires { length cursors.now ≤ 17 }
    ensures { OnOk result (out.new.items ≡
        out.old.items ++ end_lines 0 (cursor_ends 0 cursors.now [])) }
{
    for (i, cursor) in cursors.iter().enumerate() {
        push_end(out, line, i as u8, cursor.end())?;
    }
    Ok(())
}

// The lines after those of the events: how each section ended, and each unit's error registers.
ghost use Rattle.std.specs.Prelude.{◌≡◌, ◌∷◌, ◌≤◌, ◌<◌, ℕ, List, true, length, codes, IfSome};
ghost use Rattle.event_words.specs.ReportLines.{section_line, unit_line_of};
ghost use Rattle.script_reader.specs.ReportTexts.{fed_lines};
ghost use Rattle.audit_reader.specs.ReportLines.{error_lines};
ghost use Rattle.audit_reader.specs.LastLines.{Come, cursor_lines};

use crate::unread::Unread;
use event_words::{Line, SectionEnd};
use section_cursor::Cursor;
use unit_core::Fabric;

/// Whether the line of this section's end comes next. None is that of a section that didn't end.
fn end_is_next(
    unread: &mut Unread<'_>,
    line: &mut Line,
    number: u8,
    end: Option<SectionEnd>,
) -> bool
    ensures yes { result ≡ true →
        fed_lines unread.old ≡ section_line number end ∷ fed_lines unread.new }
    ensures no { (rest : List (List ℕ)) →
        fed_lines unread.old ≡ section_line number end ∷ rest → result ≡ true }
{
    let Some(end) = end else {
        return false;
    };
    line.make_section(number, end);
    unread.take(line.bytes())
}

/// Whether the line of this unit's error registers comes next.
fn errors_are_next(unread: &mut Unread<'_>, line: &mut Line, unit: u8, words: [u32; 4]) -> bool
    ensures yes { result ≡ true →
        fed_lines unread.old ≡ unit_line_of unit words ∷ fed_lines unread.new }
    ensures no { (rest : List (List ℕ)) →
        fed_lines unread.old ≡ unit_line_of unit words ∷ rest → result ≡ true }
{
    line.make_unit(unit, words);
    unread.take(line.bytes())
}

/// Whether the last line comes next.
pub fn last_is_next(unread: &mut Unread<'_>) -> bool
    ensures yes { result ≡ true → fed_lines unread.old ≡ codes "end\n" ∷ fed_lines unread.new }
    ensures no { (rest : List (List ℕ)) → fed_lines unread.old ≡ codes "end\n" ∷ rest →
        result ≡ true }
{
    unread.take(b"end\n")
}

/// Reads the lines of the sections' ends. Where one is bad, or missing, it answers the number of the
/// first.
pub fn first_bad_end(unread: &mut Unread<'_>, line: &mut Line, cursors: &[Cursor]) -> Option<u32>
    requires { length cursors.now ≤ 17 }
    ensures come { Come result (cursor_lines 0 cursors.now) unread.old unread.new }
    ensures number { IfSome result (λ number. number < 17) }
{
    for i in 0..cursors.len() {
        if !end_is_next(unread, line, i as u8, cursors[i].end()) {
            return Some(i as u32);
        }
    }
    None
}

/// Reads the lines of the units' error registers. Where one is bad, or missing, it answers the number
/// of the first.
pub fn first_bad_unit(unread: &mut Unread<'_>, line: &mut Line, units: &Fabric) -> Option<u32>
    ensures come { Come result (error_lines 0 units.now.state.units) unread.old unread.new }
    ensures number { IfSome result (λ number. number < 256) }
{
    for unit in 0..units.units() {
        if !errors_are_next(unread, line, unit, units.error_words(unit)) {
            return Some(unit as u32);
        }
    }
    None
}

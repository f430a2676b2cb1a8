// Reads the input of an audit: the lines before its heading, and the bytes after it.
ghost use Rattle.std.specs.Prelude.{◌≡◌, ◌<◌, ◌≤◌, ◌∷◌, length, take, drop, IfOk};
ghost use Rattle.script_reader.specs.Text.{line_end, first_line, without_last_line_feed};
ghost use Rattle.script_reader.specs.Answers.{Reads};
ghost use Rattle.script_reader.specs.UpdateTexts as spec;
ghost use Rattle.script_reader.specs.ReportTexts.{fed_lines, report_text_at};

use crate::script::{ScriptError, bad_line};
use crate::step::MISPLACED;
use crate::update_text::is_heading;
use crate::words::Words;
use std::marker::Model;

/// The parts of an input of a script and a report: the script's text, the number of the heading's line,
/// from 1 on, and the report's bytes.
#[derive(Drop)]
pub struct ReportText<'a> {
    pub script: &'a [u8],
    pub heading: u32,
    pub report: &'a [u8],
}

impl<'a> Model for ReportText<'a> {
    ghost use Rattle.script_reader.specs.ReportTexts.{ReportTextOf};

    ghost Value = { ReportTextOf };

    ghost view = { λ t. record {
      script = t.script.now;
      heading = t.heading;
      report = t.report.now;
    } };
}

/// The length of a first line that ends at a place, with its line feed, which the last one may lack.
fn fed_length(bytes: &[u8], end: usize) -> usize
    requires some { 0 < length bytes.now }
    requires line { end ≡ line_end bytes.now }
    ensures some { 0 < result }
    ensures few { result ≤ length bytes.now }
    ensures line { fed_lines bytes.now ≡ take result bytes.now ∷ fed_lines (drop result bytes.now) }
    ensures bare { without_last_line_feed (take result bytes.now) ≡ first_line bytes.now }
{
    if end < bytes.len() { end + 1 } else { end }
}

/// The parts of an input of at most 4194304 bytes. The first line of the words `== report` ends the script.
/// Where there is none, the line after the last is bad.
pub fn read_report_text<'a>(bytes: &'a [u8]) -> Result<ReportText<'a>, ScriptError>
    requires { length bytes.now ≤ 4194304 }
    ensures read { Reads result (report_text_at bytes.now) }
    ensures script { IfOk result (λ t. length t.script ≤ 4194304) }
    ensures report { IfOk result (λ t. length t.report ≤ 4194304) }
{
    let mut words = Words::new();
    let mut start = 0;
    let mut number = 1u32;
    while start < bytes.len() {
        let rest = &bytes[start..];
        let end = start + fed_length(rest, words.read(rest));
        if is_heading(&words, b"report") {
            return Ok(ReportText {
                script: &bytes[..start],
                heading: number,
                report: &bytes[end..],
            });
        }
        start = end;
        number += 1;
    }
    Err(bad_line(number, MISPLACED))
}

// Reads a whole script.
ghost use Rattle.std.specs.Prelude.{◌≡◌, ◌+◌, ◌≤◌, ◌^◌, max, length, IfOk};
ghost use Rattle.std.specs.List.{AllByRecursion};
ghost use Rattle.event_words.specs.Sections.{IsValidSection};
ghost use Rattle.script_reader.specs.Scripts.{IsWellFormedScript, need_of, most_from, end_of, script_at};
ghost use Rattle.script_reader.specs.Sound.{IsSound};
ghost use Rattle.script_reader.specs.Canonical.{IsReadableScript, IsToldWholly};
ghost use Rattle.script_reader.specs.Answers.{reading_of, refusal_of, Answers, Reads};

use crate::reader::{LinesOf, Reader, ScriptPart};
use crate::step::{MISPLACED, NO_HEAD, StepError};
use crate::text::{self, Lines};
use crate::words::Words;
use event_words::{Section, Shape};
use std::alloc::Global;
use std::marker::Model;

/// The shapes of the units, the boot section, and the sections of the lanes, which are numbered
/// from 1.
#[derive(Debug, Drop)]
pub struct Script {
    pub shapes: Vec<Shape>,
    pub boot: Section,
    pub lanes: Vec<Section>,
}

impl Model for Script {
    ghost use Rattle.script_reader.specs.Scripts.{ScriptOf};

    ghost Value = { ScriptOf };

    ghost view = { λ s. record { shapes = s.shapes.items; boot = s.boot; lanes = s.lanes.items } };
}

/// Why bytes are no script that can be run.
#[derive(Clone, Copy, Debug, PartialEq, Eq)]
pub enum ScriptError {
    /// The first bad line, numbered from 1, and its code, 1 to 11.
    BadLine { line: u32, code: u8 },
    /// A run would need more events than there may be.
    TooManyEvents { need: u64, have: u64 },
    NoMemory,
}

/// The most events that a run may need.
const MOST_NEEDED: u64 = 1048576;

fn greater(a: u64, b: u64) -> u64
    ensures { result ≡ max a b }
{
    if a < b { b } else { a }
}

/// The most events of one of these sections, and at least `least`.
fn most_events(least: u64, sections: &[Section]) -> u64
    requires few { least ≤ 2 ^ 40 }
    requires valid { AllByRecursion IsValidSection sections.now }
    ensures value { result ≡ most_from least sections.now }
    ensures few { result ≤ 2 ^ 40 }
{
    let mut most = least;
    for section in sections {
        most = greater(most, section.events());
    }
    most
}

impl Script {
    /// The most events that a run may make: that of its largest section, at least 1, for the boot
    /// section and for each lane. Every section must be valid, and there are at most 16 lanes.
    pub fn need(&self) -> u64
        requires boot { IsValidSection self.now.boot }
        requires lanes { AllByRecursion IsValidSection self.now.lanes }
        requires few { length self.now.lanes ≤ 16 }
        ensures { result ≡ need_of self.now }
    {
        let boot = greater(1, self.boot.events());
        (self.lanes.len() as u64 + 1) * most_events(boot, &self.lanes)
    }
}

pub(crate) fn bad_line(line: u32, code: u8) -> ScriptError
    ensures { result ≡ ScriptError.BadLine line code }
{
    ScriptError::BadLine { line, code }
}

/// Why a line refuses what is read.
pub(crate) fn refusal(line: u32, error: StepError) -> ScriptError
    ensures { result ≡ refusal_of line error }
{
    match error {
        StepError::Code(code) => bad_line(line, code),
        StepError::NoMemory => ScriptError::NoMemory,
    }
}

// What the lines gave, where they are complete.
fn finish(reader: Reader<'_>, line: u32) -> Result<Script, ScriptError>
    requires { IsSound reader }
    ensures read { Reads result (end_of reader.entry.place reader.entry line) }
    ensures formed { IfOk result (λ s. IsWellFormedScript s) }
    ensures whole { IfOk result (λ s. IsToldWholly s) }
{
    let Reader {
        place,
        shapes,
        boot,
        lanes,
        ..
    } = reader;
    match place {
        ScriptPart::Head => Err(bad_line(line, NO_HEAD)),
        ScriptPart::Units | ScriptPart::Boot | ScriptPart::Lane => Err(bad_line(line, MISPLACED)),
        ScriptPart::Finished => Ok(Script {
            shapes,
            boot,
            lanes,
        }),
    }
}

/// The script of all lines, or the first bad line.
fn read_lines(alloc: Global, bytes: &[u8]) -> Result<Script, ScriptError>
    requires { length bytes.now ≤ 4194304 }
    ensures read { Reads result (script_at bytes.now) }
    ensures formed { IfOk result (λ s. IsWellFormedScript s) }
    ensures whole { IfOk result (λ s. IsToldWholly s) }
{
    let mut reader = Reader::new(alloc);
    let plain = text::is_plain_text(bytes);
    let mut words = Words::new();
    let mut lines = Lines::of(bytes);
    let mut number = 1u32;
    while let Some(line) = lines.next(&mut words) {
        if let Err(error) = reader.line(alloc, LinesOf::Script, &words, line, plain) {
            return Err(refusal(number, error));
        }
        number += 1;
    }
    finish(reader, number)
}

/// The script that the bytes stand for, or the first bad line and its code, or that a run would
/// need too many events. At most 4194304 bytes.
pub fn read_script(alloc: Global, bytes: &[u8]) -> Result<Script, ScriptError>
    requires { length bytes.now ≤ 4194304 }
    ensures answer { Answers result (reading_of bytes.now) }
    ensures formed { IfOk result (λ s. IsWellFormedScript s) }
    ensures few { IfOk result (λ s. need_of s ≤ 1048576) }
    ensures readable { IfOk result (λ s. IsReadableScript s) }
{
    let script = read_lines(alloc, bytes)?;
    let need = script.need();
    if MOST_NEEDED < need {
        return Err(ScriptError::TooManyEvents {
            need,
            have: MOST_NEEDED,
        });
    }
    Ok(script)
}

// Reads the input of a live update: its headings, and the lines between them.
ghost use Rattle.std.specs.Prelude.{◌≡◌, ◌+◌, ◌≤◌, ◌<◌, ℕ, length, not, if◌then◌else◌, IfOk};
ghost use Rattle.std.specs.List.{list_all};
ghost use Rattle.script_reader.specs.Codes.{not_plain};
ghost use Rattle.script_reader.specs.Lines.{is_skipped};
ghost use Rattle.script_reader.specs.Text.{is_plain, words_of};
ghost use Rattle.script_reader.specs.Outcomes.{Gives};
ghost use Rattle.script_reader.specs.Answers.{Reads};
ghost use Rattle.script_reader.specs.UpdateTexts as spec;
ghost use Rattle.script_reader.specs.UpdateSizes.{FitsState, FitsWhole};

use crate::number::number_within;
use crate::reader::is_skipped;
use crate::script::{ScriptError, bad_line, refusal};
use crate::step::{MISPLACED, NO_HEAD, NOT_PLAIN, StepError};
use crate::text::{self, Lines};
use crate::words::Words;
use std::alloc::{AllocError, Global};
use std::marker::Model;

/// Which heading is wanted next.
#[derive(Clone, Copy, Debug, PartialEq, Eq)]
pub enum ExpectedPart {
    /// `== old`. Before it there may be lines that are skipped.
    Old,
    /// `== new`, up to which the lines are the old policy's.
    New,
    /// `== polls N`, up to which the lines are the new policy's.
    Polls,
    /// `== lanes`. Before it there may be lines that are skipped.
    Lanes,
    /// None. There may be more lines that are skipped.
    Nothing,
    /// None. All further lines are the lanes'.
    Rest,
}

/// The parts of an input of two policies: their texts, the number of polls, 1 to 4096, and the text of
/// lanes with the number of its first line. Without lanes this text is empty and that number is 0.
#[derive(Debug, Drop)]
pub struct UpdateText {
    pub old: Vec<u8>,
    pub new: Vec<u8>,
    pub polls: u32,
    pub lanes: Vec<u8>,
    pub first_line: u32,
}

impl Model for UpdateText {
    ghost use Rattle.script_reader.specs.UpdateTexts.{UpdateTextOf};

    ghost Value = { UpdateTextOf };

    ghost view = { λ t. record {
      old = t.old.items;
      new = t.new.items;
      polls = t.polls;
      lanes = t.lanes.items;
      first_line = t.first_line;
    } };
}

/// What the lines so far gave, and which heading is wanted next.
#[derive(Drop)]
struct UpdateReader {
    wanted: ExpectedPart,
    text: UpdateText,
}

impl Model for UpdateReader {
    ghost use Rattle.script_reader.specs.UpdateTexts.{UpdateState};

    ghost Value = { UpdateState };

    ghost view = { λ r. record { wanted = r.wanted; text = r.text } };
}

pub(crate) fn is_heading(words: &Words<'_>, name: &[u8]) -> bool
    ensures { result ≡ spec.is_heading words.now name.now }
{
    words.len() == 2 && words.is_word(0, b"==") && words.is_word(1, name)
}

fn is_polls_heading(words: &Words<'_>) -> bool
    ensures { result ≡ spec.is_polls_heading words.now }
{
    words.len() == 3 && words.is_word(0, b"==") && words.is_word(1, b"polls")
}

/// Adds a line to a part.
fn add_line(part: &mut Vec<u8>, line: &[u8]) -> Result<(), AllocError>
    ensures { IfOk result (λ _. part.new.items ≡ spec.with_line part.old.items line.now) }
{
    part.extend_from_slice(line)?;
    part.push(b'\n')?;
    Ok(())
}

fn wants(wanted: ExpectedPart, text: UpdateText) -> Result<UpdateReader, StepError>
    ensures { result ≡ Ok (record { wanted = wanted; text = text }) }
{
    Ok(UpdateReader { wanted, text })
}

/// Whether a line is skipped. One that isn't plain is refused.
fn is_skipped_line(words: &Words<'_>, line: &[u8]) -> Result<bool, StepError>
    ensures { Gives result
        (if not (list_all is_plain line.now) then Err not_plain else Ok (is_skipped words.now)) }
{
    if !text::is_plain_line(line, false) {
        return Err(StepError::Code(NOT_PLAIN));
    }
    Ok(is_skipped(words))
}

#[tactic(auto, unfolding(crate::specs::UpdateTexts::old_step))]
fn old_line(text: UpdateText, words: &Words<'_>, line: &[u8]) -> Result<UpdateReader, StepError>
    requires { words.now ≡ words_of line.now }
    ensures { Gives result (spec.old_step text line.now) }
{
    if is_skipped_line(words, line)? {
        return wants(ExpectedPart::Old, text);
    }
    if !is_heading(words, b"old") {
        return Err(StepError::Code(NO_HEAD));
    }
    wants(ExpectedPart::New, text)
}

#[tactic(auto, unfolding(crate::specs::UpdateTexts::new_step))]
fn new_line(mut text: UpdateText, words: &Words<'_>, line: &[u8]) -> Result<UpdateReader, StepError>
    requires { words.now ≡ words_of line.now }
    ensures { Gives result (spec.new_step text line.now) }
{
    if is_heading(words, b"new") {
        return wants(ExpectedPart::Polls, text);
    }
    add_line(&mut text.old, line)?;
    wants(ExpectedPart::New, text)
}

#[tactic(auto, unfolding(crate::specs::UpdateTexts::polls_step))]
fn polls_line(
    after: ExpectedPart,
    mut text: UpdateText,
    words: &Words<'_>,
    line: &[u8],
) -> Result<UpdateReader, StepError>
    requires { words.now ≡ words_of line.now }
    ensures { Gives result (spec.polls_step after text line.now) }
{
    if !is_polls_heading(words) {
        add_line(&mut text.new, line)?;
        return wants(ExpectedPart::Polls, text);
    }
    if !text::is_plain_line(line, false) {
        return Err(StepError::Code(NOT_PLAIN));
    }
    text.polls = number_within(words.word(2), 1, 4096)? as u32;
    wants(after, text)
}

#[tactic(auto, unfolding(crate::specs::UpdateTexts::lanes_step))]
fn lanes_line(
    mut text: UpdateText,
    number: u32,
    words: &Words<'_>,
    line: &[u8],
) -> Result<UpdateReader, StepError>
    requires number { number ≤ 4194305 }
    requires words { words.now ≡ words_of line.now }
    ensures { Gives result (spec.lanes_step text number line.now) }
{
    if is_skipped_line(words, line)? {
        return wants(ExpectedPart::Lanes, text);
    }
    if !is_heading(words, b"lanes") {
        return Err(StepError::Code(MISPLACED));
    }
    text.first_line = number + 1;
    wants(ExpectedPart::Rest, text)
}

#[tactic(auto, unfolding(crate::specs::UpdateTexts::nothing_step))]
fn last_line(text: UpdateText, words: &Words<'_>, line: &[u8]) -> Result<UpdateReader, StepError>
    requires { words.now ≡ words_of line.now }
    ensures { Gives result (spec.nothing_step text line.now) }
{
    if !is_skipped_line(words, line)? {
        return Err(StepError::Code(MISPLACED));
    }
    wants(ExpectedPart::Nothing, text)
}

fn rest_line(mut text: UpdateText, line: &[u8]) -> Result<UpdateReader, StepError>
    ensures { Gives result (spec.rest_step text line.now) }
{
    add_line(&mut text.lanes, line)?;
    wants(ExpectedPart::Rest, text)
}

impl UpdateReader {
    /// Before the first line.
    fn new(alloc: Global) -> UpdateReader
        ensures { result ≡ spec.update_start }
    {
        UpdateReader {
            wanted: ExpectedPart::Old,
            text: UpdateText {
                old: Vec::new(alloc),
                new: Vec::new(alloc),
                polls: 0,
                lanes: Vec::new(alloc),
                first_line: 0,
            },
        }
    }

    /// The state after one more line, whose words these are. `after` is wanted after the number of polls.
    fn line(
        self,
        after: ExpectedPart,
        number: u32,
        words: &Words<'_>,
        line: &[u8],
    ) -> Result<UpdateReader, StepError>
        requires number { number ≤ 4194305 }
        requires words { words.now ≡ words_of line.now }
        ensures { Gives result (spec.update_step after self number line.now) }
    {
        let UpdateReader { wanted, text } = self;
        match wanted {
            ExpectedPart::Old => old_line(text, words, line),
            ExpectedPart::New => new_line(text, words, line),
            ExpectedPart::Polls => polls_line(after, text, words, line),
            ExpectedPart::Lanes => lanes_line(text, number, words, line),
            ExpectedPart::Nothing => last_line(text, words, line),
            ExpectedPart::Rest => rest_line(text, line),
        }
    }
}

// What the lines gave, where all headings stood.
fn finish(reader: UpdateReader, line: u32) -> Result<UpdateText, ScriptError>
    ensures parts { Reads result (spec.update_end reader.wanted reader.text line) }
    ensures fits { (size : ℕ) → FitsState reader size line → IfOk result (λ t. FitsWhole t size) }
{
    let UpdateReader { wanted, text } = reader;
    match wanted {
        ExpectedPart::Nothing | ExpectedPart::Rest => Ok(text),
        ExpectedPart::Old => Err(bad_line(line, NO_HEAD)),
        ExpectedPart::New | ExpectedPart::Polls | ExpectedPart::Lanes => Err(bad_line(
            line, MISPLACED,
        )),
    }
}

/// What is wanted after the number of polls.
fn after_polls(with_lanes: bool) -> ExpectedPart
    ensures { result ≡ spec.after_polls with_lanes }
{
    if with_lanes {
        ExpectedPart::Lanes
    } else {
        ExpectedPart::Nothing
    }
}

/// The parts of an input of two policies, with lanes after them or without, or its first bad line outside
/// the policies and the lanes. At most 4194304 bytes.
pub fn read_update(alloc: Global, bytes: &[u8], with_lanes: bool) -> Result<UpdateText, ScriptError>
    requires { length bytes.now ≤ 4194304 }
    ensures parts { Reads result (spec.update_text_at with_lanes bytes.now) }
    ensures polls { IfOk result (λ t. (1 ≤ t.polls) × (t.polls ≤ 4096)) }
    ensures lanes { IfOk result (λ t. (length t.lanes ≤ 4194304) × (t.first_line ≤ 4194304)) }
{
    let after = after_polls(with_lanes);
    let mut reader = UpdateReader::new(alloc);
    let mut words = Words::new();
    let mut lines = Lines::of(bytes);
    let mut number = 1u32;
    while let Some(line) = lines.next(&mut words) {
        match reader.line(after, number, &words, line) {
            Ok(next) => reader = next,
            Err(error) => return Err(refusal(number, error)),
        }
        number += 1;
    }
    finish(reader, number)
}

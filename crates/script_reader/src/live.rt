// Reads the lanes of a live update.
ghost use Rattle.std.specs.Prelude.{◌≡◌, ◌+◌, ◌≤◌, length, IfOk, OnOk};
ghost use Rattle.script_reader.specs.LiveLanes.{IsLiveState, AreLiveLanes, ReadsLanes};
ghost use Rattle.script_reader.specs.LiveLanes as spec;
ghost use Rattle.script_reader.specs.Lines as lines;
ghost use Rattle.script_reader.specs.Sound.{IsSound};

use crate::reader::{LinesOf, Reader, ScriptPart, is_skipped};
use crate::script::{ScriptError, bad_line, refusal};
use crate::section::OpenSection;
use crate::step::{MISPLACED, StepError};
use crate::text::{self, Lines};
use crate::words::Words;
use event_words::{Section, Shape};
use std::alloc::{AllocError, Global};

/// The smallest unit.
const ONE_UNIT: Shape = Shape {
    rrids: 1,
    domains: 1,
    entries: 1,
    mdcfg: 0,
    k: 0,
    srcmd: 0,
    sps: false,
    queue: 1,
    transl: None,
};

impl<'a> Reader<'a> {
    ghost use Rattle.script_reader.specs.Outcomes.{Moves};

    /// Before the first line of a live update's lanes.
    fn at_lanes(alloc: Global) -> Result<Reader<'a>, AllocError>
        ensures state { IfOk result (λ r. r ≡ spec.lanes_start) }
        ensures sound { IfOk result (λ r. IsSound r) }
    {
        let mut shapes = Vec::new(alloc);
        shapes.push(ONE_UNIT)?;
        let boot = Section {
            commands: Vec::new(alloc),
            slots: 0,
        };
        Ok(Reader {
            place: ScriptPart::Lane,
            shapes,
            boot,
            lanes: Vec::new(alloc),
            section: OpenSection::new(alloc),
        })
    }

    /// Whether a line may stand here, which writes no register and adds nothing to lane 1.
    fn may_stand(&self, words: &Words<'_>) -> bool
        ensures { result ≡ lines.may_stand self.now words.now }
    {
        !words.is_word(0, b"w")
            && (0 < self.lanes.len() || words.is_word(0, b"lane") || words.is_word(0, b"end"))
    }

    #[tactic(auto, unfolding(crate::specs::Lines::lanes_words_step))]
    pub(crate) fn lanes_words_line(
        &mut self,
        alloc: Global,
        words: &Words<'a>,
    ) -> Result<(), StepError>
        requires room { length self.old.section.commands ≤ 4194304 }
        requires sound { IsSound self.old }
        ensures value { Moves result self.new (lines.lanes_words_step self.old words.now) }
        ensures sound { OnOk result (IsSound self.new) }
        ensures grown { OnOk result (length self.new.section.commands ≤
            length self.old.section.commands + 1) }
    {
        if is_skipped(words) {
            return Ok(());
        }
        if !self.may_stand(words) {
            return Err(StepError::Code(MISPLACED));
        }
        self.placed_line(alloc, words)
    }
}

// The lanes after lane 1, where `end` stood.
fn finish(reader: Reader<'_>, line: u32) -> Result<Vec<Section>, ScriptError>
    requires { IsSound reader }
    ensures lanes { ReadsLanes result (spec.lanes_end reader.entry.place reader.entry line) }
    ensures formed { IsLiveState reader.entry → IfOk result (λ lanes. AreLiveLanes lanes.items) }
{
    let Reader {
        place,
        mut lanes,
        ..
    } = reader;
    match place {
        ScriptPart::Finished => {
            if !lanes.is_empty() {
                lanes.remove(0);
            }
            Ok(lanes)
        }
        _ => Err(bad_line(line, MISPLACED)),
    }
}

/// The lanes of a live update that the bytes stand for, or their first bad line and its code. The lanes are numbered
/// from 2 to at most 16 and end with `end`. They write no register, and unit 0 alone is there. `first_line` is the
/// number of the first line. At most 4194304 bytes, and `first_line` is at most 4194304.
pub fn read_lanes(alloc: Global, bytes: &[u8], first_line: u32) -> Result<Vec<Section>, ScriptError>
    requires bytes { length bytes.now ≤ 4194304 }
    requires first { first_line ≤ 4194304 }
    ensures lanes { ReadsLanes result (spec.lanes_at first_line bytes.now) }
    ensures formed { IfOk result (λ lanes. AreLiveLanes lanes.items) }
{
    let Ok(mut reader) = Reader::at_lanes(alloc) else {
        return Err(ScriptError::NoMemory);
    };
    let plain = text::is_plain_text(bytes);
    let mut words = Words::new();
    let mut lines = Lines::of(bytes);
    let mut number = first_line;
    while let Some(line) = lines.next(&mut words) {
        if let Err(error) = reader.line(alloc, LinesOf::Lanes, &words, line, plain) {
            return Err(refusal(number, error));
        }
        number += 1;
    }
    finish(reader, number)
}

// Reads a script line by line.
ghost use Rattle.std.specs.Prelude.{◌≡◌, ◌+◌, ◌<◌, ◌≤◌, true, false, length, codes, OnOk};
ghost use Rattle.script_reader.specs.Lines as spec;
ghost use Rattle.script_reader.specs.Numbers.{number_at};
ghost use Rattle.script_reader.specs.Text.{IsPlainLine, words_of};
ghost use Rattle.script_reader.specs.Words.{is_word_at};

use crate::command::{command, judge, submit, write};
use crate::number::number;
use crate::section::OpenSection;
use crate::step::{MISPLACED, MISSHAPEN, NO_HEAD, NOT_PLAIN, OUT_OF_RANGE, StepError};
use crate::text;
use crate::unit_line::unit_shape;
use crate::words::Words;
use event_words::{Section, Shape};
use std::alloc::Global;
use std::marker::Model;
use std::mem;

/// Which lines may come next.
#[derive(Clone, Copy, Debug, PartialEq, Eq)]
pub enum ScriptPart {
    /// `iopmp 1`.
    Head,
    /// Unit lines, and `boot` after the first of them.
    Units,
    /// The commands of the boot section, `lane 1` or `end`.
    Boot,
    /// The commands of a lane, the next lane or `end`.
    Lane,
    /// None.
    Finished,
}

/// What is read line by line.
#[derive(Clone, Copy, Debug, PartialEq, Eq)]
pub enum LinesOf {
    /// A script.
    Script,
    /// The lanes of a live update.
    Lanes,
}

/// What the lines so far gave, and which may come next. After a line that is refused it is of no more use.
#[derive(Drop)]
pub struct Reader<'a> {
    pub place: ScriptPart,
    pub shapes: Vec<Shape>,
    pub boot: Section,
    pub lanes: Vec<Section>,
    pub section: OpenSection<'a>,
}

impl<'a> Model for Reader<'a> {
    ghost use Rattle.script_reader.specs.Lines.{State};

    ghost Value = { State };

    ghost view = { λ r. record {
      place = r.place;
      shapes = r.shapes.items;
      boot = r.boot;
      lanes = r.lanes.items;
      section = r.section;
    } };
}

fn is_head(words: &Words<'_>) -> bool
    ensures { result ≡ spec.is_head words.now }
{
    words.len() == 2 && words.is_word(0, b"iopmp") && words.is_word(1, b"1")
}

/// Whether a word writes a number, but not this one.
fn is_other(n: u64, word: &[u8]) -> bool
    ensures { result ≡ spec.is_other n (number_at word.now) }
{
    match number(word) {
        Ok(m) => m != n,
        Err(code) => code == OUT_OF_RANGE,
    }
}

pub(crate) fn is_skipped(words: &Words<'_>) -> bool
    ensures { result ≡ spec.is_skipped words.now }
{
    words.is_empty() || words.word(0).first() == Some(&b'#')
}

impl<'a> Reader<'a> {
    ghost use Rattle.script_reader.specs.Lines.{State, start};
    ghost use Rattle.script_reader.specs.Outcomes.{Moves};
    ghost use Rattle.script_reader.specs.Sound.{IsSound, IsInSection, MayFollow};

    /// Before the first line.
    pub fn new(alloc: Global) -> Reader<'a>
        ensures state { result ≡ start }
        ensures sound { IsSound result }
    {
        let boot = Section {
            commands: Vec::new(alloc),
            slots: 0,
        };
        Reader {
            place: ScriptPart::Head,
            shapes: Vec::new(alloc),
            boot,
            lanes: Vec::new(alloc),
            section: OpenSection::new(alloc),
        }
    }

    #[tactic(auto, unfolding(crate::specs::Lines::head_step))]
    fn head_line(&mut self, words: &Words<'a>) -> Result<(), StepError>
        requires place { self.old.place ≡ ScriptPart.Head }
        requires sound { IsSound self.old }
        ensures value { Moves result self.new (spec.head_step self.old words.now) }
        ensures sound { OnOk result (IsSound self.new) }
        ensures grown { OnOk result (length self.new.section.commands ≤
            length self.old.section.commands + 1) }
    {
        if !is_head(words) {
            return Err(StepError::Code(NO_HEAD));
        }
        self.place = ScriptPart::Units;
        Ok(())
    }

    #[tactic(auto, unfolding(crate::specs::Lines::unit_step))]
    fn unit_line(&mut self, words: &Words<'a>) -> Result<(), StepError>
        requires place { self.old.place ≡ ScriptPart.Units }
        requires few { length self.old.shapes < 4 }
        requires sound { IsSound self.old }
        ensures value { Moves result self.new (spec.unit_step self.old words.now) }
        ensures sound { OnOk result (IsSound self.new) }
        ensures grown { OnOk result (length self.new.section.commands ≤
            length self.old.section.commands + 1) }
    {
        let shape = unit_shape(words)?;
        self.shapes.push(shape)?;
        Ok(())
    }

    #[tactic(auto, unfolding(crate::specs::Lines::boot_step))]
    fn boot_line(&mut self, words: &Words<'a>) -> Result<(), StepError>
        requires place { self.old.place ≡ ScriptPart.Units }
        requires some { 1 ≤ length self.old.shapes }
        requires sound { IsSound self.old }
        ensures value { Moves result self.new (spec.boot_step self.old words.now) }
        ensures sound { OnOk result (IsSound self.new) }
        ensures grown { OnOk result (length self.new.section.commands ≤
            length self.old.section.commands + 1) }
    {
        if words.len() != 1 {
            return Err(StepError::Code(MISSHAPEN));
        }
        self.place = ScriptPart::Boot;
        Ok(())
    }

    /// The number of the lane that would come next.
    fn next_lane(&self) -> u64
        ensures { result ≡ spec.next_lane self.now.place self.now.lanes }
    {
        match self.place {
            ScriptPart::Lane => self.lanes.len() as u64 + 2,
            _ => 1,
        }
    }

    /// The open section is whole, and another stands in its place.
    fn close(&mut self, alloc: Global, next: ScriptPart) -> Result<(), StepError>
        requires in_section { IsInSection self.old.place }
        requires room { length self.old.section.commands ≤ 4194304 }
        requires next { MayFollow next self.old }
        requires sound { IsSound self.old }
        ensures value { Moves result self.new
            (Ok (record (spec.closed self.old.place self.old) { place = next })) }
        ensures sound { OnOk result (IsSound self.new) }
        ensures grown { OnOk result (length self.new.section.commands ≤
            length self.old.section.commands + 1) }
    {
        let section = mem::replace(&mut self.section, OpenSection::new(alloc));
        let whole = section.close();
        match self.place {
            ScriptPart::Lane => self.lanes.push(whole)?,
            _ => self.boot = whole,
        }
        self.place = next;
        Ok(())
    }

    #[tactic(auto, unfolding(crate::specs::Lines::end_step))]
    fn end_line(&mut self, alloc: Global, words: &Words<'a>) -> Result<(), StepError>
        requires in_section { IsInSection self.old.place }
        requires room { length self.old.section.commands ≤ 4194304 }
        requires sound { IsSound self.old }
        ensures value { Moves result self.new (spec.end_step self.old words.now) }
        ensures sound { OnOk result (IsSound self.new) }
        ensures grown { OnOk result (length self.new.section.commands ≤
            length self.old.section.commands + 1) }
    {
        if words.len() != 1 {
            return Err(StepError::Code(MISSHAPEN));
        }
        self.close(alloc, ScriptPart::Finished)
    }

    #[tactic(auto, unfolding(crate::specs::Lines::lane_step))]
    fn lane_line(&mut self, alloc: Global, words: &Words<'a>) -> Result<(), StepError>
        requires in_section { IsInSection self.old.place }
        requires room { length self.old.section.commands ≤ 4194304 }
        requires sound { IsSound self.old }
        ensures value { Moves result self.new (spec.lane_step self.old words.now) }
        ensures sound { OnOk result (IsSound self.new) }
        ensures grown { OnOk result (length self.new.section.commands ≤
            length self.old.section.commands + 1) }
    {
        let next = self.next_lane();
        if 16 < next || is_other(next, words.word(1)) {
            return Err(StepError::Code(MISPLACED));
        }
        if words.len() != 2 {
            return Err(StepError::Code(MISSHAPEN));
        }
        number(words.word(1))?;
        self.close(alloc, ScriptPart::Lane)
    }

    #[tactic(auto, unfolding(crate::specs::Lines::submit_step))]
    fn submit_line(&mut self, words: &Words<'a>) -> Result<(), StepError>
        requires in_section { IsInSection self.old.place }
        requires room { length self.old.section.commands ≤ 4194304 }
        requires sound { IsSound self.old }
        ensures value { Moves result self.new (spec.submit_step self.old words.now) }
        ensures sound { OnOk result (IsSound self.new) }
        ensures grown { OnOk result (length self.new.section.commands ≤
            length self.old.section.commands + 1) }
    {
        let slot = self.section.names().len() as u32;
        let command = submit(self.shapes.len() as u8, slot, words)?;
        self.section.submit(command, words.word(7))
    }

    /// A write, which is meant most often, adds its command where it is made.
    #[tactic(auto, unfolding(crate::specs::Lines::command_step, crate::specs::Commands::command_at))]
    fn write_line(&mut self, words: &Words<'a>) -> Result<(), StepError>
        requires in_section { IsInSection self.old.place }
        requires sound { IsSound self.old }
        requires write { is_word_at words.now 0 (codes "w") ≡ true }
        ensures value { Moves result self.new (spec.command_step self.old words.now) }
        ensures sound { OnOk result (IsSound self.new) }
        ensures grown { OnOk result (length self.new.section.commands ≤
            length self.old.section.commands + 1) }
    {
        let command = write(self.shapes.len() as u8, words)?;
        self.section.push(command)
    }

    /// A judgement, which is meant as often as a submission.
    #[tactic(auto, unfolding(crate::specs::Lines::command_step, crate::specs::Commands::command_at))]
    fn judge_line(&mut self, words: &Words<'a>) -> Result<(), StepError>
        requires in_section { IsInSection self.old.place }
        requires sound { IsSound self.old }
        requires write { is_word_at words.now 0 (codes "w") ≡ false }
        requires read { is_word_at words.now 0 (codes "r") ≡ false }
        requires judge { is_word_at words.now 0 (codes "j") ≡ true }
        ensures value { Moves result self.new (spec.command_step self.old words.now) }
        ensures sound { OnOk result (IsSound self.new) }
        ensures grown { OnOk result (length self.new.section.commands ≤
            length self.old.section.commands + 1) }
    {
        let command = judge(self.section.names(), words)?;
        self.section.push(command)
    }

    #[tactic(auto, unfolding(crate::specs::Lines::command_step))]
    fn command_line(&mut self, words: &Words<'a>) -> Result<(), StepError>
        requires in_section { IsInSection self.old.place }
        requires sound { IsSound self.old }
        requires other { is_word_at words.now 0 (codes "w") ≡ false }
        ensures value { Moves result self.new (spec.command_step self.old words.now) }
        ensures sound { OnOk result (IsSound self.new) }
        ensures grown { OnOk result (length self.new.section.commands ≤
            length self.old.section.commands + 1) }
    {
        let command = command(self.shapes.len() as u8, self.section.names(), words)?;
        self.section.push(command)
    }

    #[tactic(auto, unfolding(crate::specs::Lines::units_step))]
    fn units_line(&mut self, words: &Words<'a>) -> Result<(), StepError>
        requires place { self.old.place ≡ ScriptPart.Units }
        requires sound { IsSound self.old }
        ensures value { Moves result self.new (spec.units_step self.old words.now) }
        ensures sound { OnOk result (IsSound self.new) }
        ensures grown { OnOk result (length self.new.section.commands ≤
            length self.old.section.commands + 1) }
    {
        if words.is_word(0, b"unit") && self.shapes.len() < 4 {
            self.unit_line(words)
        } else if words.is_word(0, b"boot") && 0 < self.shapes.len() {
            self.boot_line(words)
        } else {
            Err(StepError::Code(MISPLACED))
        }
    }

    #[tactic(auto, unfolding(crate::specs::Lines::section_step))]
    fn section_line(&mut self, alloc: Global, words: &Words<'a>) -> Result<(), StepError>
        requires in_section { IsInSection self.old.place }
        requires room { length self.old.section.commands ≤ 4194304 }
        requires sound { IsSound self.old }
        ensures value { Moves result self.new (spec.section_step self.old words.now) }
        ensures sound { OnOk result (IsSound self.new) }
        ensures grown { OnOk result (length self.new.section.commands ≤
            length self.old.section.commands + 1) }
    {
        if words.is_word(0, b"lane") {
            self.lane_line(alloc, words)
        } else if words.is_word(0, b"end") {
            self.end_line(alloc, words)
        } else if words.is_word(0, b"t") {
            self.submit_line(words)
        } else if words.is_word(0, b"w") {
            self.write_line(words)
        } else if !words.is_word(0, b"r") && words.is_word(0, b"j") {
            self.judge_line(words)
        } else {
            self.command_line(words)
        }
    }

    pub(crate) fn placed_line(&mut self, alloc: Global, words: &Words<'a>) -> Result<(), StepError>
        requires room { length self.old.section.commands ≤ 4194304 }
        requires sound { IsSound self.old }
        ensures value { Moves result self.new (spec.place_step self.old.place self.old words.now) }
        ensures sound { OnOk result (IsSound self.new) }
        ensures grown { OnOk result (length self.new.section.commands ≤
            length self.old.section.commands + 1) }
    {
        match self.place {
            ScriptPart::Head => self.head_line(words),
            ScriptPart::Units => self.units_line(words),
            ScriptPart::Boot | ScriptPart::Lane => self.section_line(alloc, words),
            ScriptPart::Finished => Err(StepError::Code(MISPLACED)),
        }
    }

    #[tactic(auto, unfolding(crate::specs::Lines::words_step))]
    fn words_line(&mut self, alloc: Global, words: &Words<'a>) -> Result<(), StepError>
        requires room { length self.old.section.commands ≤ 4194304 }
        requires sound { IsSound self.old }
        ensures value { Moves result self.new (spec.words_step self.old words.now) }
        ensures sound { OnOk result (IsSound self.new) }
        ensures grown { OnOk result (length self.new.section.commands ≤
            length self.old.section.commands + 1) }
    {
        if is_skipped(words) {
            return Ok(());
        }
        self.placed_line(alloc, words)
    }

    /// Reads one more line, which has these words. `plain` tells that it is known to be plain.
    #[tactic(auto, unfolding(crate::specs::Lines::line_step))]
    pub fn line(
        &mut self,
        alloc: Global,
        of: LinesOf,
        words: &Words<'a>,
        line: &[u8],
        plain: bool,
    ) -> Result<(), StepError>
        requires room { length self.old.section.commands ≤ 4194304 }
        requires sound { IsSound self.old }
        requires words { words.now ≡ words_of line.now }
        requires plain { plain ≡ true → IsPlainLine line.now }
        ensures value { Moves result self.new (spec.line_step of self.old line.now) }
        ensures sound { OnOk result (IsSound self.new) }
        ensures grown { OnOk result (length self.new.section.commands ≤
            length self.old.section.commands + 1) }
    {
        if !text::is_plain_line(line, plain) {
            return Err(StepError::Code(NOT_PLAIN));
        }
        match of {
            LinesOf::Script => self.words_line(alloc, words),
            LinesOf::Lanes => self.lanes_words_line(alloc, words),
        }
    }
}

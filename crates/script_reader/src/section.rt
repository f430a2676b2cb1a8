// A section whose commands are being read.
ghost use Rattle.std.specs.Prelude.{◌≡◌, ◌<◌, ◌^◌, length};
ghost use Rattle.script_reader.specs.Lines.{new_section, section_of, with_submission, with_command};
ghost use Rattle.script_reader.specs.Outcomes.{Moves};

use crate::name::Names;
use crate::step::StepError;
use event_words::{Command, Section};
use std::alloc::Global;
use std::marker::Model;

/// The commands so far, and the names of the submissions among them. After a command that is refused it is of no more use.
#[derive(Drop)]
pub struct OpenSection<'a> {
    commands: Vec<Command>,
    names: Names<'a>,
}

impl<'a> Model for OpenSection<'a> {
    ghost use Rattle.script_reader.specs.Lines as spec;

    ghost Value = { spec.OpenSection };

    ghost view = { λ s. record { commands = s.commands.items; names = s.names } };
}

impl<'a> OpenSection<'a> {
    /// Without commands.
    pub fn new(alloc: Global) -> OpenSection<'a>
        ensures { result ≡ new_section }
    {
        OpenSection {
            commands: Vec::new(alloc),
            names: Names::new(alloc),
        }
    }

    /// The names of the submissions so far.
    pub fn names(&self) -> &Names<'a>
        ensures { result.now ≡ self.now.names }
    {
        &self.names
    }

    /// Adds a submission's name and command.
    pub fn submit(&mut self, command: Command, name: &'a [u8]) -> Result<(), StepError>
        requires { length self.old.names < 2 ^ 32 }
        ensures { Moves result self.new (with_submission self.old command name.entry.now) }
    {
        self.names.add(name)?;
        self.commands.push(command)?;
        Ok(())
    }

    /// Adds another command than a submission.
    pub fn push(&mut self, command: Command) -> Result<(), StepError>
        ensures { Moves result self.new (Ok (with_command self.old command)) }
    {
        self.commands.push(command)?;
        Ok(())
    }

    /// The section as it stands.
    pub fn close(self) -> Section
        requires { length self.names < 2 ^ 32 }
        ensures { result ≡ section_of self.entry }
    {
        let slots = self.names.len() as u32;
        Section {
            commands: self.commands,
            slots,
        }
    }
}

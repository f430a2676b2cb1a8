// A policy's image as a section of commands.
ghost use Rattle.std.specs.Prelude.{◌≡◌, map, IfOk};
ghost use Rattle.policy_compiler.specs.Commands.{write_command, image_section};

use event_words::{Command, Section};
use policy_compiler::{Image, RegPair};
use std::alloc::{AllocError, Global};

fn write_command(pair: &RegPair) -> Command
    ensures { result ≡ write_command pair.now }
{
    Command::Write {
        unit: 0,
        index: pair.index,
        value: pair.value,
    }
}

fn write_commands(alloc: Global, writes: &[RegPair]) -> Result<Vec<Command>, AllocError>
    ensures { IfOk result (λ commands. commands.items ≡ map write_command writes.now) }
{
    writes.iter().map(|pair| write_command(pair)).collect(alloc)
}

/// The section that makes an image's writes on unit 0.
pub fn image_section(alloc: Global, image: &Image) -> Result<Section, AllocError>
    ensures { IfOk result (λ section. section ≡ image_section image.now) }
{
    let commands = write_commands(alloc, &image.writes)?;
    Ok(Section { commands, slots: 0 })
}

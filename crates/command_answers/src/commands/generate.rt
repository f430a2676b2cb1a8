// The command `gen`: a generated script is printed.
ghost use Rattle.std.specs.Prelude.{◌≡◌, IfOk, List, ℕ};
ghost use Rattle.command_answers.specs.GenCommand.{IsGenerated};
ghost use Rattle.command_answers.specs.CommandTables.{Answers};
ghost use Rattle.command_answers.specs.declared.subcommand.Subcommand.TheVariants as commands;

use crate::answers::{Answer, NoAnswer, text_answer};
use script_generator::generated_script;
use script_player::NoMemory;
use script_reader::print_script;
use std::alloc::Global;

/// The printed script of a number.
#[tactic(auto, unfolding(crate::specs::GenCommand::generated_text))]
fn generated_text(alloc: Global, number: u32) -> Result<Vec<u8>, NoMemory>
    ensures { IfOk result (λ text. IsGenerated number text.items) }
{
    let script = generated_script(alloc, number)?;
    match print_script(alloc, &script) {
        Ok(text) => Ok(text),
        Err(_) => Err(NoMemory),
    }
}

/// The printed script of a number, whatever the input is.
pub fn gen_answer(alloc: Global, number: u32) -> Result<Answer, NoAnswer>
    ensures { (bytes : List ℕ) → Answers (commands.Gen number) bytes result }
{
    match generated_text(alloc, number) {
        Ok(text) => Ok(text_answer(text)),
        Err(_) => Err(NoAnswer::NoMemory),
    }
}

// The script that an input is.
ghost use Rattle.std.specs.Prelude.{◌≡◌, ◌≤◌, length, Ok, IfOk};
ghost use Rattle.script_reader.specs.Scripts.{IsWellFormedScript, need_of};
ghost use Rattle.script_reader.specs.Answers.{reading_of};
ghost use Rattle.command_answers.specs.RunCommand.{IsRefusal};
ghost use Rattle.command_answers.specs.AnswerForms.{GivesOr};

use crate::answers::NoAnswer;
use crate::refusals::bad_line;
use script_reader::{Script, read_script};
use std::alloc::Global;

/// The script that bytes write.
pub fn written_script(alloc: Global, bytes: &[u8]) -> Result<Script, NoAnswer>
    requires { length bytes.now ≤ 4194304 }
    ensures script { GivesOr (λ s. reading_of bytes.now ≡ Ok s) (IsRefusal bytes.now) result }
    ensures formed { IfOk result (λ s. IsWellFormedScript s) }
    ensures few { IfOk result (λ s. need_of s ≤ 1048576) }
{
    match read_script(alloc, bytes) {
        Ok(script) => Ok(script),
        Err(error) => Err(bad_line(alloc, &error)),
    }
}

// The one line that is written where a script is refused.
ghost use Rattle.std.specs.Prelude.{◌≡◌, IfOk};
ghost use Rattle.std.specs.String.{string_bytes};
ghost use Rattle.command_answers.specs.ScriptLines.{refusal_line};

use script_player::NoMemory;
use script_reader::ScriptError;
use std::alloc::Global;

/// The line of a script that is refused. Want of memory has no line.
pub fn refusal_line(alloc: Global, error: &ScriptError) -> Result<String, NoMemory>
    ensures { IfOk result (λ line. refusal_line error.now ≡ Some (string_bytes line)) }
{
    let line = match *error {
        ScriptError::BadLine { line, code } => {
            format!(in alloc; "iopmp: line {line} code {code}\n")?
        }
        ScriptError::TooManyEvents { need, have } => {
            format!(in alloc; "iopmp: need {need} of {have} events\n")?
        }
        ScriptError::NoMemory => return Err(NoMemory),
    };
    Ok(line)
}

// Refusals of an input, with their one line.
ghost use Rattle.command_answers.specs.ScriptLines.{refusal_line};
ghost use Rattle.command_answers.specs.PolicyLines.{policy_line, need_line};
ghost use Rattle.command_answers.specs.AnswerForms.{HasLine};

pub mod policy_lines;
pub mod script_line;

use crate::answers::NoAnswer;
use policy_compiler::{CompileError, PolicyError};
use policy_lines::{WhichPolicy, need_line, policy_line};
use script_line::refusal_line;
use script_reader::ScriptError;
use std::alloc::Global;

/// The refusal of a bad line, or of too many events. Want of memory has no line.
pub fn bad_line(alloc: Global, error: &ScriptError) -> NoAnswer
    ensures { HasLine result (refusal_line error.now) }
{
    match refusal_line(alloc, error) {
        Ok(line) => NoAnswer::Refused(line),
        Err(_) => NoAnswer::NoMemory,
    }
}

/// The refusal of a text that is no policy. Want of memory has no line.
pub fn no_policy(alloc: Global, which: WhichPolicy, error: &PolicyError) -> NoAnswer
    ensures { HasLine result (policy_line which error.now) }
{
    match policy_line(alloc, which, error) {
        Ok(line) => NoAnswer::Refused(line),
        Err(_) => NoAnswer::NoMemory,
    }
}

/// The refusal of a policy that needs more than its unit has. Want of memory has no line.
pub fn no_fit(alloc: Global, error: &CompileError) -> NoAnswer
    ensures { HasLine result (need_line WhichPolicy.Only error.now) }
{
    match need_line(alloc, WhichPolicy::Only, error) {
        Ok(line) => NoAnswer::Refused(line),
        Err(_) => NoAnswer::NoMemory,
    }
}

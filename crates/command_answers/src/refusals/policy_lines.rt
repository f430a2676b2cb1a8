// The one line that is written where a text is refused as a policy, or needs more than its unit has.
ghost use Rattle.std.specs.Prelude.{◌≡◌, Some, IfOk};
ghost use Rattle.std.specs.String.{string_bytes};
ghost use Rattle.command_answers.specs.PolicyLines as spec;

use policy_compiler::{CompileError, PolicyError};
use script_player::NoMemory;
use std::alloc::Global;

/// Which policy of an input a line speaks of.
#[derive(Clone, Copy, Debug, PartialEq, Eq)]
pub enum WhichPolicy {
    /// There is one.
    Only,
    Old,
    New,
}

fn which_text(which: WhichPolicy) -> &'static str
    ensures { result.now ≡ spec.which_text which }
{
    match which {
        WhichPolicy::Only => "",
        WhichPolicy::Old => "old ",
        WhichPolicy::New => "new ",
    }
}

/// The line of a text that is no policy. Want of memory has no line.
pub fn policy_line(
    alloc: Global,
    which: WhichPolicy,
    error: &PolicyError,
) -> Result<String, NoMemory>
    ensures { IfOk result (λ line. spec.policy_line which error.now ≡ Some (string_bytes line)) }
{
    let which = which_text(which);
    let line = match *error {
        PolicyError::Toml => format!(in alloc; "iopmp: {which}policy toml\n")?,
        PolicyError::Key { path } => format!(in alloc; "iopmp: {which}policy key {path}\n")?,
        PolicyError::Range { path } => format!(in alloc; "iopmp: {which}policy range {path}\n")?,
        PolicyError::Name { path } => format!(in alloc; "iopmp: {which}policy name {path}\n")?,
        PolicyError::NoMemory => return Err(NoMemory),
    };
    Ok(line)
}

/// The line of a policy that needs more than its unit has. Want of memory has no line.
pub fn need_line(
    alloc: Global,
    which: WhichPolicy,
    error: &CompileError,
) -> Result<String, NoMemory>
    ensures { IfOk result (λ line. spec.need_line which error.now ≡ Some (string_bytes line)) }
{
    let which = which_text(which);
    match *error {
        CompileError::TooManyDomains { need, have } => {
            let line = format!(in alloc; "iopmp: {which}policy needs {need} domains of {have}\n")?;
            Ok(line)
        }
        CompileError::TooManyEntries { need, have } => {
            let line = format!(in alloc; "iopmp: {which}policy needs {need} entries of {have}\n")?;
            Ok(line)
        }
        CompileError::NoMemory => Err(NoMemory),
    }
}

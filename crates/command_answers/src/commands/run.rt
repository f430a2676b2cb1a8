// The commands `run` and `faults`: a script is played, and a report of its history is printed.
ghost use Rattle.std.specs.Prelude.{◌≤◌, length};
ghost use Rattle.command_answers.specs.CommandTables.{Answers, run_command};

use crate::answers::{Answer, NoAnswer};
use crate::inputs::script::written_script;
use crate::playing::reported::played;
use checker_workers::Gate;
use history_reports::WhichReport;
use std::alloc::Global;
use std::thread::Threads;

/// The report that is wanted of a history of the script that the bytes write.
pub fn run_answer<R: Threads + Sync, G: Gate + Sync>(
    rt: &R,
    alloc: Global,
    which: WhichReport,
    bytes: &[u8],
    gate: &G,
) -> Result<Answer, NoAnswer>
    requires { length bytes.now ≤ 4194304 }
    ensures { Answers (run_command which) bytes.now result }
{
    let script = match written_script(alloc, bytes) {
        Ok(script) => script,
        Err(refused) => return Err(refused),
    };
    match played(rt, alloc, which, &script, gate) {
        Ok(answer) => Ok(answer),
        Err(_) => Err(NoAnswer::NoMemory),
    }
}

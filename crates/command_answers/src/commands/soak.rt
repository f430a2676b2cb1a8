// The command `soak`: a generated script is run, and a summary of its history's verdicts is printed.
ghost use Rattle.std.specs.Prelude.{◌≡◌, IfOk, List, ℕ};
ghost use Rattle.command_answers.specs.SoakCommand.{IsSoaked};
ghost use Rattle.command_answers.specs.AnswerForms.{ReportOf};
ghost use Rattle.command_answers.specs.CommandTables.{Answers};
ghost use Rattle.command_answers.specs.declared.subcommand.Subcommand.TheVariants as commands;

use crate::answers::{Answer, NoAnswer, report_answer};
use checker_workers::Gate;
use script_generator::{generated_script, law_soak, summary, verdict_codes};
use script_player::{NoMemory, ToldHistory, play_whole};
use std::alloc::Global;
use std::thread::Threads;

/// Runs the generated script of a number and counts its verdicts.
fn soaked<R: Threads + Sync, G: Gate + Sync>(
    rt: &R,
    alloc: Global,
    number: u32,
    gate: &G,
) -> Result<Answer, NoMemory>
    ensures { IfOk result (λ a. ReportOf (IsSoaked number) a.status a.history a.text.items) }
{
    law_soak();
    let script = generated_script(alloc, number)?;
    let ToldHistory { history, told } = play_whole(rt, alloc, script, gate)?;
    let codes = verdict_codes(alloc, &told.replies)?;
    let text = summary(alloc, number, &codes)?;
    Ok(report_answer(history, text))
}

/// The summary of a history of a generated script, whatever the input is.
pub fn soak_answer<R: Threads + Sync, G: Gate + Sync>(
    rt: &R,
    alloc: Global,
    number: u32,
    gate: &G,
) -> Result<Answer, NoAnswer>
    ensures { (bytes : List ℕ) → Answers (commands.Soak number) bytes result }
{
    match soaked(rt, alloc, number, gate) {
        Ok(answer) => Ok(answer),
        Err(_) => Err(NoAnswer::NoMemory),
    }
}

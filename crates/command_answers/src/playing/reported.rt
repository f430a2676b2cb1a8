// A script that is played, and what is told of its history.
ghost use Rattle.std.specs.Prelude.{◌≤◌, IfOk};
ghost use Rattle.script_reader.specs.Scripts.{IsWellFormedScript, need_of};
ghost use Rattle.history_reports.specs.WantedReports.{IsRunOf};
ghost use Rattle.command_answers.specs.AnswerForms.{ReportOf};

use crate::answers::{Answer, report_answer};
use checker_workers::Gate;
use history_reports::{WhichReport, run_report};
use script_player::{NoMemory, ToldHistory, play_told};
use script_reader::Script;
use std::alloc::Global;
use std::thread::Threads;

/// Plays a script, and writes the report that is wanted of its history.
pub fn played<R: Threads + Sync, G: Gate + Sync>(
    rt: &R,
    alloc: Global,
    which: WhichReport,
    script: &Script,
    gate: &G,
) -> Result<Answer, NoMemory>
    requires formed { IsWellFormedScript script.now }
    requires few { need_of script.now ≤ 1048576 }
    ensures { IfOk result (λ a. ReportOf (IsRunOf which script.now) a.status a.history
        a.text.items) }
{
    let ToldHistory { history, told } = play_told(rt, alloc, script, gate)?;
    let text = run_report(alloc, which, script, history.words(), &told)?;
    Ok(report_answer(history, text))
}

// The commands: what each answers for its input.
ghost use Rattle.std.specs.Prelude.{◌≤◌, length};
ghost use Rattle.command_answers.specs.CommandTables.{Answers};

mod audit;
mod compile;
mod generate;
mod live;
mod plan;
mod run;
mod soak;

use crate::answers::{Answer, NoAnswer};
use crate::inputs::update::WhichPlan;
use crate::subcommand::Subcommand;
use audit::audit_answer;
use checker_workers::Gate;
use compile::compile_answer;
use generate::gen_answer;
use history_reports::WhichReport;
use live::live_answer;
use plan::plan_answer;
use run::run_answer;
use soak::soak_answer;
use std::alloc::Global;
use std::thread::Threads;

/// What a command answers for its input.
pub fn answer<R: Threads + Sync, G: Gate + Sync>(
    rt: &R,
    alloc: Global,
    command: Subcommand,
    bytes: &[u8],
    gate: &G,
) -> Result<Answer, NoAnswer>
    requires { length bytes.now ≤ 4194304 }
    ensures { Answers command bytes.now result }
{
    match command {
        Subcommand::Run => run_answer(rt, alloc, WhichReport::Plain, bytes, gate),
        Subcommand::Compile => compile_answer(alloc, bytes),
        Subcommand::Plan => plan_answer(alloc, WhichPlan::Whole, bytes),
        Subcommand::Live => live_answer(rt, alloc, WhichPlan::Whole, bytes, gate),
        Subcommand::Gen(number) => gen_answer(alloc, number),
        Subcommand::Soak(number) => soak_answer(rt, alloc, number, gate),
        Subcommand::Faults => run_answer(rt, alloc, WhichReport::WithFaults, bytes, gate),
        Subcommand::Audit => audit_answer(alloc, bytes),
        Subcommand::Narrow => plan_answer(alloc, WhichPlan::Narrow, bytes),
        Subcommand::NarrowLive => live_answer(rt, alloc, WhichPlan::Narrow, bytes, gate),
    }
}

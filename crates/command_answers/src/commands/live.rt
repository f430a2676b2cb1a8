// The commands `live` and `narrow live`: a plan of an update is played beside lanes, and the report of the history is
// printed.
ghost use Rattle.std.specs.Prelude.{◌≤◌, length};
ghost use Rattle.command_answers.specs.UpdateInputs.{IsReadable};
ghost use Rattle.command_answers.specs.UpdatePlans.{wanted_section, Keeps};
ghost use Rattle.command_answers.specs.PlansBeside.{IsUpdateReport, IsUpdateLine};
ghost use Rattle.command_answers.specs.AnswerForms.{ReportOf, GivesOr};
ghost use Rattle.command_answers.specs.CommandTables.{Answers, live_command};

use crate::answers::{Answer, NoAnswer};
use crate::inputs::update::{Update, WhichPlan, planned, two_policies};
use crate::playing::beside::played_beside;
use checker_workers::Gate;
use history_laws::law_live;
use narrow_plans::law_narrow;
use std::alloc::Global;
use std::thread::Threads;

/// The report of a history of an update's script.
fn update_answer<R: Threads + Sync, G: Gate + Sync>(
    rt: &R,
    alloc: Global,
    which: WhichPlan,
    update: &Update,
    gate: &G,
) -> Result<Answer, NoAnswer>
    requires { IsReadable update.now }
    ensures { GivesOr
        (λ a. ReportOf (λ history text. IsUpdateReport (Keeps which)
        (wanted_section which update.now) history text update.now)
        a.status a.history a.text.items)
        (IsUpdateLine (wanted_section which update.now) update.now) result }
{
    law_live();
    law_narrow();
    let plan = match planned(alloc, which, update) {
        Ok(plan) => plan,
        Err(refused) => return Err(refused),
    };
    played_beside(rt, alloc, update, plan, gate)
}

/// The report of a history of the script of the input's update.
pub fn live_answer<R: Threads + Sync, G: Gate + Sync>(
    rt: &R,
    alloc: Global,
    which: WhichPlan,
    bytes: &[u8],
    gate: &G,
) -> Result<Answer, NoAnswer>
    requires { length bytes.now ≤ 4194304 }
    ensures { Answers (live_command which) bytes.now result }
{
    let update = match two_policies(alloc, bytes, true) {
        Ok(update) => update,
        Err(refused) => return Err(refused),
    };
    update_answer(rt, alloc, which, &update, gate)
}

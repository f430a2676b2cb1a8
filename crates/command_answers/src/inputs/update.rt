// Two policies of one input, the plan from one to the other, and the lanes after them.
ghost use Rattle.std.specs.Prelude.{◌≡◌, ◌≤◌, length, Some, Ok, IfOk};
ghost use Rattle.std.specs.String.{string_bytes};
ghost use Rattle.script_reader.specs.UpdateTexts.{update_text_at};
ghost use Rattle.command_answers.specs.PlanLines as lines;
ghost use Rattle.command_answers.specs.UpdateInputs.{IsUpdate, IsReadable, IsNoUpdate, IsMisheaded, HasNoPlan};
ghost use Rattle.command_answers.specs.PlanCommand.{Plans};
ghost use Rattle.command_answers.specs.UpdatePlans.{plan_section, narrow_section, wanted_section};
ghost use Rattle.command_answers.specs.AnswerForms.{HasLine, GivesOr};

use super::policies::policy;
use crate::answers::NoAnswer;
use crate::refusals::bad_line;
use crate::refusals::policy_lines::{WhichPolicy, need_line};
use event_words::Section;
use narrow_plans::narrow;
use policy_compiler::Policy;
use script_player::NoMemory;
use script_reader::{UpdateText, read_update};
use std::alloc::Global;
use std::marker::Model;
use update_planner::{Plan, PlanError, plan};

/// Two policies, the most polls of the stall register, 1 to 4096, and the text of lanes with the number of
/// its first line.
#[derive(Drop)]
pub struct Update {
    pub old: Policy,
    pub new: Policy,
    pub polls: u32,
    pub lanes: Vec<u8>,
    pub first_line: u32,
}

impl Model for Update {
    ghost use Rattle.command_answers.specs.UpdateInputs.{UpdateOf};

    ghost Value = { UpdateOf };

    ghost view = { λ u. record {
      old = u.old;
      new = u.new;
      polls = u.polls;
      lanes = u.lanes.items;
      first_line = u.first_line;
    } };
}

/// Which plan takes a unit from one policy to the other.
#[derive(Clone, Copy, Debug, PartialEq, Eq)]
pub enum WhichPlan {
    /// That under which all requesters stall.
    Whole,
    /// The narrow one, under which the affected requesters alone stall.
    Narrow,
}

/// The parts of the input.
fn headed(alloc: Global, bytes: &[u8], with_lanes: bool) -> Result<UpdateText, NoAnswer>
    requires { length bytes.now ≤ 4194304 }
    ensures text { GivesOr (λ t. update_text_at with_lanes bytes.now ≡ Ok t)
        (IsMisheaded with_lanes bytes.now) result }
    ensures within { IfOk result (λ t.
        (1 ≤ t.polls) × (t.polls ≤ 4096) × (length t.lanes ≤ 4194304) × (t.first_line ≤ 4194304)) }
{
    match read_update(alloc, bytes, with_lanes) {
        Ok(text) => Ok(text),
        Err(error) => Err(bad_line(alloc, &error)),
    }
}

/// The update that the input stands for.
#[tactic(auto, using(crate::proofs::UpdateRefusals::old_refused, crate::proofs::UpdateRefusals::new_refused))]
pub fn two_policies(alloc: Global, bytes: &[u8], with_lanes: bool) -> Result<Update, NoAnswer>
    requires { length bytes.now ≤ 4194304 }
    ensures update { GivesOr (IsUpdate with_lanes bytes.now)
        (IsNoUpdate with_lanes bytes.now) result }
    ensures readable { IfOk result IsReadable }
{
    let text = headed(alloc, bytes, with_lanes)?;
    let old = policy(alloc, WhichPolicy::Old, &text.old)?;
    let new = match policy(alloc, WhichPolicy::New, &text.new) {
        Ok(new) => new,
        Err(error) => return Err(error),
    };
    let UpdateText {
        polls,
        lanes,
        first_line,
        ..
    } = text;
    Ok(Update {
        old,
        new,
        polls,
        lanes,
        first_line,
    })
}

fn which_policy(newer: bool) -> WhichPolicy
    ensures { result ≡ lines.which_policy newer }
{
    if newer {
        WhichPolicy::New
    } else {
        WhichPolicy::Old
    }
}

/// The line of policies between which there is no plan. Want of memory has no line.
fn plan_line(alloc: Global, error: &PlanError) -> Result<String, NoMemory>
    ensures { IfOk result (λ line. lines.plan_line error.now ≡ Some (string_bytes line)) }
{
    match *error {
        PlanError::ShapesDiffer { .. } => {
            let line = format!(in alloc; "iopmp: the two unit tables differ\n")?;
            Ok(line)
        }
        PlanError::Compile { newer, error } => need_line(alloc, which_policy(newer), &error),
        PlanError::NoMemory => Err(NoMemory),
    }
}

fn no_plan(alloc: Global, error: &PlanError) -> NoAnswer
    ensures { HasLine result (lines.plan_line error.now) }
{
    match plan_line(alloc, error) {
        Ok(line) => NoAnswer::Refused(line),
        Err(_) => NoAnswer::NoMemory,
    }
}

fn whole_plan(alloc: Global, update: &Update) -> Result<Section, NoAnswer>
    requires { IsReadable update.now }
    ensures { GivesOr (Plans (plan_section update.now) update.now) (HasNoPlan update.now) result }
{
    match plan(alloc, &update.old, &update.new, update.polls) {
        Ok(Plan { section }) => Ok(section),
        Err(error) => Err(no_plan(alloc, &error)),
    }
}

fn narrow_plan(alloc: Global, update: &Update) -> Result<Section, NoAnswer>
    requires { IsReadable update.now }
    ensures { GivesOr (Plans (narrow_section update.now) update.now) (HasNoPlan update.now) result }
{
    match narrow(alloc, &update.old, &update.new, update.polls) {
        Ok(Plan { section }) => Ok(section),
        Err(error) => Err(no_plan(alloc, &error)),
    }
}

/// The plan of an update that is wanted, as a section of commands.
pub fn planned(alloc: Global, which: WhichPlan, update: &Update) -> Result<Section, NoAnswer>
    requires { IsReadable update.now }
    ensures { GivesOr (Plans (wanted_section which update.now) update.now)
        (HasNoPlan update.now) result }
{
    match which {
        WhichPlan::Whole => whole_plan(alloc, update),
        WhichPlan::Narrow => narrow_plan(alloc, update),
    }
}

// The commands `plan` and `narrow`: a plan from one policy to another is printed as a lane.
ghost use Rattle.std.specs.Prelude.{◌≡◌, ◌++◌, ◌≤◌, length, IfOk, codes};
ghost use Rattle.command_answers.specs.UpdateInputs.{IsReadable, HasNoPlan};
ghost use Rattle.script_reader.specs.Printed.{lane_text};
ghost use Rattle.command_answers.specs.PlanCommand.{IsPlanText};
ghost use Rattle.command_answers.specs.UpdatePlans.{wanted_section};
ghost use Rattle.command_answers.specs.AnswerForms.{GivesOr};
ghost use Rattle.command_answers.specs.CommandTables.{Answers, plan_command};

use crate::answers::{Answer, NoAnswer, text_answer};
use crate::inputs::update::{Update, WhichPlan, planned, two_policies};
use event_words::Section;
use script_player::NoMemory;
use script_reader::print_lane;
use std::alloc::{AllocError, Global};

fn with_end(text: Vec<u8>) -> Result<Vec<u8>, AllocError>
    ensures { IfOk result (λ whole. whole.items ≡ text.items ++ codes "end\n") }
{
    let mut text = text;
    text.extend_from_slice(b"end\n")?;
    Ok(text)
}

/// A plan printed as lane 1.
fn lane_one(alloc: Global, plan: &Section) -> Result<Vec<u8>, NoMemory>
    ensures { IfOk result (λ text. text.items ≡ lane_text 1 plan.now ++ codes "end\n") }
{
    let Ok(lane) = print_lane(alloc, 1, plan) else {
        return Err(NoMemory);
    };
    Ok(with_end(lane)?)
}

/// The printed plan of an update.
#[tactic(auto, using(crate::proofs::ReadBack::plan_read_back))]
fn plan_text(alloc: Global, which: WhichPlan, update: &Update) -> Result<Vec<u8>, NoAnswer>
    requires { IsReadable update.now }
    ensures { GivesOr (λ text. IsPlanText (wanted_section which update.now) update.now text.items)
        (HasNoPlan update.now) result }
{
    let section = match planned(alloc, which, update) {
        Ok(section) => section,
        Err(refused) => return Err(refused),
    };
    match lane_one(alloc, &section) {
        Ok(text) => Ok(text),
        Err(_) => Err(NoAnswer::NoMemory),
    }
}

/// The printed plan of the input's two policies.
pub fn plan_answer(alloc: Global, which: WhichPlan, bytes: &[u8]) -> Result<Answer, NoAnswer>
    requires { length bytes.now ≤ 4194304 }
    ensures { Answers (plan_command which) bytes.now result }
{
    let update = match two_policies(alloc, bytes, false) {
        Ok(update) => update,
        Err(refused) => return Err(refused),
    };
    match plan_text(alloc, which, &update) {
        Ok(text) => Ok(text_answer(text)),
        Err(refused) => Err(refused),
    }
}

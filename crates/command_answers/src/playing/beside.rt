// An update's plan, played beside the update's lanes.
ghost use Rattle.std.specs.Prelude.{◌≡◌, ◌∷◌, [], ◌≤◌, None, IfOk};
ghost use Rattle.policy_compiler.specs.Policies.{IsPolicy};
ghost use Rattle.policy_compiler.specs.Needs.{need_refusal};
ghost use Rattle.policy_compiler.specs.Images.{image_of};
ghost use Rattle.policy_compiler.specs.Commands.{image_section};
ghost use Rattle.script_reader.specs.Scripts.{IsWellFormedScript, need_of};
ghost use Rattle.script_reader.specs.LiveLanes.{AreLiveLanes};
ghost use Rattle.script_reader.specs.declared.script.ScriptError.TheVariants.{TooManyEvents};
ghost use Rattle.command_answers.specs.AnswerForms.{HasLine};
ghost use Rattle.command_answers.specs.ScriptLines.{refusal_line};
ghost use Rattle.command_answers.specs.UpdateInputs.{IsReadable};
ghost use Rattle.command_answers.specs.PlansBeside.{script_beside, IsPlayablePlan};
ghost use Rattle.command_answers.specs.UpdateScripts.{IsLanesOr, IsAffordableOr, IsScriptOfUpdateOr, IsPlayedOr};

use super::reported::played;
use crate::answers::{Answer, NoAnswer};
use crate::images::image_section;
use crate::inputs::update::Update;
use crate::refusals::bad_line;
use checker_workers::Gate;
use event_words::{Section, Shape};
use history_reports::WhichReport;
use policy_compiler::{CompileError, Policy, compile};
use script_reader::{Script, ScriptError, read_lanes};
use std::alloc::{AllocError, Global};
use std::thread::Threads;

/// The most events that a run may need.
const MOST_NEEDED: u64 = 1048576;

/// The lanes of an update, or their bad line.
fn lanes(alloc: Global, update: &Update) -> Result<Vec<Section>, NoAnswer>
    requires { IsReadable update.now }
    ensures lanes { IsLanesOr update.now result }
    ensures good { IfOk result (λ lanes. AreLiveLanes lanes.items) }
{
    match read_lanes(alloc, &update.lanes, update.first_line) {
        Ok(lanes) => Ok(lanes),
        Err(error) => Err(bad_line(alloc, &error)),
    }
}

/// The boot section: the writes of the old policy's image.
fn boot(alloc: Global, policy: &Policy) -> Result<Section, AllocError>
    requires policy { IsPolicy policy.now }
    requires fits { need_refusal policy.now ≡ None }
    ensures { IfOk result (λ section. section ≡ image_section (image_of policy.now)) }
{
    match compile(alloc, policy) {
        Ok(image) => image_section(alloc, &image),
        Err(CompileError::NoMemory) => Err(AllocError),
        Err(_) => unreachable!(),
    }
}

/// A script of one unit whose first lane is this plan.
fn assembled(
    alloc: Global,
    shape: Shape,
    boot: Section,
    plan: Section,
    others: Vec<Section>,
) -> Result<Script, AllocError>
    ensures { IfOk result (λ s.
        s ≡ record { shapes = shape ∷ []; boot = boot; lanes = plan ∷ others.items }) }
{
    let mut shapes = Vec::new(alloc);
    shapes.push(shape)?;
    let mut lanes = others;
    lanes.insert(0, plan)?;
    Ok(Script {
        shapes,
        boot,
        lanes,
    })
}

/// The script of an update with a plan and its lanes.
fn update_script(
    alloc: Global,
    update: &Update,
    plan: Section,
    others: Vec<Section>,
) -> Result<Script, AllocError>
    requires readable { IsReadable update.now }
    requires plan { IsPlayablePlan update.now plan }
    ensures { IfOk result (λ s. s ≡ script_beside plan update.now others.items) }
{
    let boot = boot(alloc, &update.old)?;
    assembled(alloc, update.old.shape, boot, plan, others)
}

/// The refusal of a script that needs so many events.
fn too_many(alloc: Global, need: u64) -> NoAnswer
    ensures { HasLine result (refusal_line (TooManyEvents need 1048576)) }
{
    let error = ScriptError::TooManyEvents {
        need,
        have: MOST_NEEDED,
    };
    bad_line(alloc, &error)
}

/// A script whose run needs few enough events.
fn affordable(alloc: Global, script: Script) -> Result<Script, NoAnswer>
    requires { IsWellFormedScript script }
    ensures script { IsAffordableOr script result }
    ensures formed { IfOk result (λ s. IsWellFormedScript s) }
    ensures few { IfOk result (λ s. need_of s ≤ 1048576) }
{
    let need = script.need();
    if MOST_NEEDED < need {
        return Err(too_many(alloc, need));
    }
    Ok(script)
}

/// The script of an update with this plan.
fn script_of_update(alloc: Global, update: &Update, plan: Section) -> Result<Script, NoAnswer>
    requires readable { IsReadable update.now }
    requires plan { IsPlayablePlan update.now plan }
    ensures script { IsScriptOfUpdateOr plan update.now result }
    ensures formed { IfOk result (λ s. IsWellFormedScript s) }
    ensures few { IfOk result (λ s. need_of s ≤ 1048576) }
{
    let others = match lanes(alloc, update) {
        Ok(others) => others,
        Err(error) => return Err(error),
    };
    let Ok(script) = update_script(alloc, update, plan, others) else {
        return Err(NoAnswer::NoMemory);
    };
    affordable(alloc, script)
}

/// Plays a plan of an update beside the update's lanes, and writes the report of the history.
pub fn played_beside<R: Threads + Sync, G: Gate + Sync>(
    rt: &R,
    alloc: Global,
    update: &Update,
    plan: Section,
    gate: &G,
) -> Result<Answer, NoAnswer>
    requires readable { IsReadable update.now }
    requires plan { IsPlayablePlan update.now plan }
    ensures { IsPlayedOr plan update.now result }
{
    let script = match script_of_update(alloc, update, plan) {
        Ok(script) => script,
        Err(refused) => return Err(refused),
    };
    match played(rt, alloc, WhichReport::Plain, &script, gate) {
        Ok(answer) => Ok(answer),
        Err(_) => Err(NoAnswer::NoMemory),
    }
}

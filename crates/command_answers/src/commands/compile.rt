// The command `compile`: the script of a policy's image is printed.
ghost use Rattle.std.specs.Prelude.{◌≡◌, IfOk};
ghost use Rattle.policy_compiler.specs.Policies.{IsPolicy};
ghost use Rattle.command_answers.specs.CompileCommand.{image_script, IsImageText, NeedsMore};
ghost use Rattle.command_answers.specs.AnswerForms.{GivesOr};
ghost use Rattle.command_answers.specs.CommandTables.{Answers};
ghost use Rattle.command_answers.specs.declared.subcommand.Subcommand.TheVariants as commands;

use crate::answers::{Answer, NoAnswer, text_answer};
use crate::images::image_section;
use crate::inputs::policies::policy;
use crate::refusals::no_fit;
use crate::refusals::policy_lines::WhichPolicy;
use policy_compiler::{Image, Policy, compile};
use script_reader::{Script, print_script};
use std::alloc::{AllocError, Global};

/// The script that has the image's shape as its one unit, its writes as the boot section and no lane.
fn image_script(alloc: Global, image: &Image) -> Result<Script, AllocError>
    ensures { IfOk result (λ script. script ≡ image_script image.now) }
{
    let mut shapes = Vec::new(alloc);
    shapes.push(image.shape)?;
    Ok(Script {
        shapes,
        boot: image_section(alloc, image)?,
        lanes: Vec::new(alloc),
    })
}

/// The printed script of a policy's image.
#[tactic(auto, using(crate::proofs::ReadBack::image_read_back))]
fn image_text(alloc: Global, policy: &Policy) -> Result<Vec<u8>, NoAnswer>
    requires { IsPolicy policy.now }
    ensures { GivesOr (λ text. IsImageText policy.now text.items) (NeedsMore policy.now) result }
{
    let image = match compile(alloc, policy) {
        Ok(image) => image,
        Err(error) => return Err(no_fit(alloc, &error)),
    };
    let Ok(script) = image_script(alloc, &image) else {
        return Err(NoAnswer::NoMemory);
    };
    match print_script(alloc, &script) {
        Ok(text) => Ok(text),
        Err(_) => Err(NoAnswer::NoMemory),
    }
}

/// The printed script of the image of a policy's text.
pub fn compile_answer(alloc: Global, bytes: &[u8]) -> Result<Answer, NoAnswer>
    ensures { Answers commands.Compile bytes.now result }
{
    let policy = match policy(alloc, WhichPolicy::Only, bytes) {
        Ok(policy) => policy,
        Err(refused) => return Err(refused),
    };
    match image_text(alloc, &policy) {
        Ok(text) => Ok(text_answer(text)),
        Err(refused) => Err(refused),
    }
}

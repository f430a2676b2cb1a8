// The narrow plan of two policies.
ghost use Rattle.std.specs.Prelude.{◌≡◌, ◌↔◌, ◌++◌, [], ◌∷◌, None, IfOk, IfErr};
ghost use Rattle.event_words.specs.Sections.{IsMax, IsValidSection};
ghost use Rattle.event_words.specs.Valid.{IsValidShape};
ghost use Rattle.policy_compiler.specs.Policies.{IsPolicy};
ghost use Rattle.policy_compiler.specs.Images.{image_of};
ghost use Rattle.policy_compiler.specs.Needs.{need_refusal};
ghost use Rattle.update_planner.specs.Refusals.{plan_refusal};
ghost use Rattle.update_planner.specs.Gives.{Plans, SaysShapesDiffer};
ghost use Rattle.update_planner.specs.Values.{WritesUnit};
ghost use Rattle.narrow_plans.specs.NarrowPlans.{stall_command, narrow_commands};
ghost use Rattle.narrow_plans.specs.Stalls.{stalls};

use crate::states::keeps_view;
use event_words::{Command, Register};
use policy_compiler::{Image, Policy, RegPair};
use std::alloc::{AllocError, Global};
use update_planner::{Plan, PlanError, plan_images, rewrite, rewrites};

/// The command of RRIDSCP that stalls the requester in its low bits.
const STALL: u32 = 1 << 30;

/// Stalls a requester.
fn stall(commands: &mut Vec<Command>, rrid: u8) -> Result<(), AllocError>
    ensures { IfOk result (λ _. commands.new.items ≡ commands.old.items ++ stall_command rrid ∷
        []) }
{
    commands.push(Command::Write {
        unit: 0,
        index: Register::Rridscp.index(),
        value: STALL + rrid as u32,
    })?;
    Ok(())
}

/// Stalls each requester whose view changes in some state on the way, in ascending order.
fn stall_affected(
    alloc: Global,
    commands: &mut Vec<Command>,
    old: &Image,
    writes: &[RegPair],
) -> Result<(), PlanError>
    requires { IsValidShape old.now.shape }
    ensures made { IfOk result (λ _.
        commands.new.items ≡ commands.old.items ++ stalls old.now writes.now old.now.shape.rrids) }
    ensures fault { IfErr result (λ e. e ≡ PlanError.NoMemory) }
{
    for rrid in 0..old.shape.rrids {
        let Ok(same) = keeps_view(alloc, old, writes, rrid) else {
            return Err(PlanError::NoMemory);
        };
        if !same {
            stall(commands, rrid)?;
        }
    }
    Ok(())
}

/// The commands of the narrow plan from one image to another.
#[tactic(auto, using(crate::proofs::Commands::commands_are))]
fn commands(alloc: Global, old: &Image, new: &Image, polls: u32) -> Result<Vec<Command>, PlanError>
    requires shape { IsValidShape old.now.shape }
    requires old { WritesUnit new.now.shape old.now }
    requires new { WritesUnit new.now.shape new.now }
    ensures made { IfOk result (λ v. v.items ≡ narrow_commands old.now new.now polls) }
    ensures fault { IfErr result (λ e. e ≡ PlanError.NoMemory) }
{
    let writes = rewrites(alloc, old, new)?;
    let mut commands = Vec::new(alloc);
    stall_affected(alloc, &mut commands, old, &writes)?;
    rewrite(&mut commands, &writes, polls)?;
    Ok(commands)
}

/// The narrow plan from the old policy to the new one, with the conditions of [`update_planner::plan`].
/// It fails where that fails, with the same error.
pub fn narrow(alloc: Global, old: &Policy, new: &Policy, polls: u32) -> Result<Plan, PlanError>
    requires polls { IsMax polls }
    requires old { IsPolicy old.now }
    requires new { IsPolicy new.now }
    ensures plan { Plans (plan_refusal old.now new.now) result
        (narrow_commands (image_of old.now) (image_of new.now) polls) }
    ensures differ { SaysShapesDiffer result ↔ (old.now.shape ≡ new.now.shape → ⊥) }
    ensures fits { IfOk result (λ _. (old.now.shape ≡ new.now.shape)
        × (need_refusal old.now ≡ None) × (need_refusal new.now ≡ None)) }
    ensures valid { IfOk result (λ p. IsValidSection p.section) }
{
    let (old_image, new_image) = plan_images(alloc, old, new)?;
    let commands = commands(alloc, &old_image, &new_image, polls)?;
    Ok(Plan::of(commands))
}

// The plan of two policies.
ghost use Rattle.std.specs.Prelude.{◌≡◌, ◌↔◌, None, Some, IfOk, IfErr, MatchResult};
ghost use Rattle.event_words.specs.Sections.{IsMax, IsValidSection};
ghost use Rattle.policy_compiler.specs.Policies.{IsPolicy};
ghost use Rattle.policy_compiler.specs.Images.{image_of};
ghost use Rattle.policy_compiler.specs.Needs.{need_refusal};
ghost use Rattle.update_planner.specs.Plans.{plan_commands};
ghost use Rattle.update_planner.specs.Refusals.{plan_refusal, IsShapesDiffer};
ghost use Rattle.update_planner.specs.Gives.{GivesImages, Plans, SaysShapesDiffer};
ghost use Rattle.update_planner.specs.Values.{WritesUnit};

use crate::refusal::plan_refusal;
use crate::{Plan, PlanError, commands};
use policy_compiler::{CompileError, Image, Policy, compile};
use std::alloc::Global;

/// The image of a policy that fits its unit. It fails for want of memory alone.
fn image(alloc: Global, policy: &Policy) -> Result<Image, PlanError>
    requires policy { IsPolicy policy.now }
    requires fits { need_refusal policy.now ≡ None }
    ensures { MatchResult result (λ i. i ≡ image_of policy.now) (λ e. e ≡ PlanError.NoMemory) }
{
    match compile(alloc, policy) {
        Ok(image) => Ok(image),
        Err(CompileError::NoMemory) => Err(PlanError::NoMemory),
        Err(_) => unreachable!(),
    }
}

/// The images of two policies that fit one unit, or why there is no plan from one to the other.
pub fn plan_images(alloc: Global, old: &Policy, new: &Policy) -> Result<(Image, Image), PlanError>
    requires old { IsPolicy old.now }
    requires new { IsPolicy new.now }
    ensures images { GivesImages (plan_refusal old.now new.now) result (image_of old.now) (image_of
        new.now) }
    ensures differ { IfErr result (λ e. IsShapesDiffer (Some e) ↔ (old.now.shape ≡ new.now.shape →
        ⊥)) }
    ensures same { IfOk result (λ _. old.now.shape ≡ new.now.shape) }
    ensures old_fits { IfOk result (λ _. need_refusal old.now ≡ None) }
    ensures new_fits { IfOk result (λ _. need_refusal new.now ≡ None) }
    ensures old_writes { IfOk result (λ p. WritesUnit p.1.shape p.0) }
    ensures new_writes { IfOk result (λ p. WritesUnit p.1.shape p.1) }
{
    if let Some(error) = plan_refusal(old, new) {
        return Err(error);
    }
    let old_image = image(alloc, old)?;
    let new_image = image(alloc, new)?;
    Ok((old_image, new_image))
}

/// The plan that takes unit 0 from the old policy to the new one, with at most `polls` readings, 1
/// to 4096, of its stall register. Both policies must be ones that `read_policy` can give.
///
/// Fails where the units differ, else where the old policy needs more than the unit has, else where
/// the new one does, else where memory runs out.
pub fn plan(alloc: Global, old: &Policy, new: &Policy, polls: u32) -> Result<Plan, PlanError>
    requires polls { IsMax polls }
    requires old { IsPolicy old.now }
    requires new { IsPolicy new.now }
    ensures plan { Plans (plan_refusal old.now new.now) result
        (plan_commands (image_of old.now) (image_of new.now) polls) }
    ensures differ { SaysShapesDiffer result ↔ (old.now.shape ≡ new.now.shape → ⊥) }
    ensures fits { IfOk result (λ p. (old.now.shape ≡ new.now.shape) ×
        (need_refusal old.now ≡ None) × (need_refusal new.now ≡ None)) }
    ensures valid { IfOk result (λ p. IsValidSection p.section) }
{
    let (old_image, new_image) = plan_images(alloc, old, new)?;
    let commands = commands::commands(alloc, &old_image, &new_image, polls)?;
    Ok(Plan::of(commands))
}

// Why there is no plan from one policy to another.
ghost use Rattle.std.specs.Prelude.{◌≡◌, ◌↔◌, None, IsNone};
ghost use Rattle.policy_compiler.specs.Policies.{IsPolicy};
ghost use Rattle.policy_compiler.specs.Needs.{need_refusal};
ghost use Rattle.update_planner.specs.Refusals.{different_field, plan_refusal, IsShapesDiffer};

use crate::PlanError;
use event_words::Shape;
use policy_compiler::{Policy, need_refusal};

/// The number, from 0, of the first field in which two shapes differ.
fn different_field(old: &Shape, new: &Shape) -> Option<u8>
    ensures first { result ≡ different_field old.now new.now }
    ensures same { IsNone result ↔ (old.now ≡ new.now) }
{
    if old.rrids != new.rrids {
        Some(0)
    } else if old.domains != new.domains {
        Some(1)
    } else if old.entries != new.entries {
        Some(2)
    } else if old.mdcfg != new.mdcfg {
        Some(3)
    } else if old.k != new.k {
        Some(4)
    } else if old.srcmd != new.srcmd {
        Some(5)
    } else if old.sps != new.sps {
        Some(6)
    } else if old.queue != new.queue {
        Some(7)
    } else if old.transl != new.transl {
        Some(8)
    } else {
        None
    }
}

/// The refusal, if there is one for another cause than memory.
#[tactic(auto, unfolding(crate::specs::Refusals::plan_refusal))]
pub fn plan_refusal(old: &Policy, new: &Policy) -> Option<PlanError>
    requires old { IsPolicy old.now }
    requires new { IsPolicy new.now }
    ensures refusal { result ≡ plan_refusal old.now new.now }
    ensures differ { IsShapesDiffer result ↔ (old.now.shape ≡ new.now.shape → ⊥) }
    ensures same { IsNone result → old.now.shape ≡ new.now.shape }
    ensures old_fits { IsNone result → need_refusal old.now ≡ None }
    ensures new_fits { IsNone result → need_refusal new.now ≡ None }
{
    if let Some(field) = different_field(&old.shape, &new.shape) {
        return Some(PlanError::ShapesDiffer { field });
    }
    if let Some(error) = need_refusal(old) {
        return Some(PlanError::Compile {
            newer: false,
            error,
        });
    }
    if let Some(error) = need_refusal(new) {
        return Some(PlanError::Compile { newer: true, error });
    }
    None
}

// The register writes that make a unit decide as a policy does.
ghost use Rattle.std.specs.Prelude.{◌≡◌, ◌≤◌, IfOk, IsNone};
ghost use Rattle.policy_compiler.specs.Policies.{IsPolicy};
ghost use Rattle.policy_compiler.specs.Needs.{need_domains, need_entries, need_refusal, Compiles};
ghost use Rattle.policy_compiler.specs.Images.{image_of};
ghost use Rattle.policy_compiler.specs.Laws.{DecidesAs};

use crate::read::RuleKind;
use crate::{Policy, hardware, needs, writes};
use event_words::Shape;
use std::alloc::{AllocError, Global};
use std::marker::Model;

/// A write of a register. An index is a register's byte offset divided by 4.
#[derive(Clone, Copy, Debug, PartialEq, Eq)]
pub struct RegPair {
    pub index: u32,
    pub value: u32,
}

/// The writes that bring a unit of this shape from reset to deciding as a policy does.
#[derive(Debug, Drop)]
pub struct Image {
    pub shape: Shape,
    pub writes: Vec<RegPair>,
}

impl Model for Image {
    ghost use Rattle.policy_compiler.specs.Images.{ImageOf};

    ghost Value = { ImageOf };

    ghost view = { λ i. record { shape = i.shape; writes = i.writes.items } };
}

/// Why a policy can't be compiled.
#[derive(Clone, Copy, Debug, PartialEq, Eq)]
pub enum CompileError {
    /// The policy needs more hardware domains than the unit has.
    TooManyDomains { need: u32, have: u32 },
    /// The policy needs more entries than the unit has.
    TooManyEntries { need: u32, have: u32 },
    NoMemory,
}

#[tactic(auto, unfolding(crate::specs::Needs::need_domains), using(crate::proofs::Fits::domains_have_rules))]
fn need_domains(policy: &Policy) -> u32
    requires { IsPolicy policy.now }
    ensures { result ≡ need_domains policy.now }
{
    needs::domains_with(RuleKind::Guards, &policy.domains)
        + needs::domains_with(RuleKind::Grants, &policy.domains)
}

#[tactic(auto, unfolding(crate::specs::Needs::need_entries), using(crate::proofs::Fits::domains_have_rules))]
fn need_entries(policy: &Policy) -> u32
    requires { IsPolicy policy.now }
    ensures { result ≡ need_entries policy.now }
{
    needs::entries_with(RuleKind::Guards, &policy.domains)
        + needs::entries_with(RuleKind::Grants, &policy.domains)
}

/// Why a policy can't be compiled for its unit, where it needs more than the unit has: too many
/// domains come before too many entries. The policy must be one that `read_policy` can give.
#[tactic(auto, unfolding(crate::specs::Needs::need_refusal))]
pub fn need_refusal(policy: &Policy) -> Option<CompileError>
    requires { IsPolicy policy.now }
    ensures refusal { result ≡ need_refusal policy.now }
    ensures domains { IsNone result → need_domains policy.now ≤ policy.now.shape.domains }
    ensures entries { IsNone result → need_entries policy.now ≤ policy.now.shape.entries }
{
    let need = need_domains(policy);
    let have = policy.shape.domains as u32;
    if have < need {
        return Some(CompileError::TooManyDomains { need, have });
    }
    let need = need_entries(policy);
    let have = policy.shape.entries as u32;
    if have < need {
        return Some(CompileError::TooManyEntries { need, have });
    }
    None
}

/// The image of a policy that fits.
#[tactic(auto, unfolding(crate::specs::Images::image_of), using(crate::proofs::Fits::domains_have_rules, crate::proofs::Fits::fits_in, crate::proofs::Fits::guard_entries))]
fn fitting_image(alloc: Global, policy: &Policy) -> Result<Image, AllocError>
    requires policy { IsPolicy policy.now }
    requires domains { need_domains policy.now ≤ policy.now.shape.domains }
    requires entries { need_entries policy.now ≤ policy.now.shape.entries }
    ensures { IfOk result (λ i. i ≡ image_of policy.now) }
{
    let list = hardware::hardware_list(alloc, &policy.domains)?;
    let guards = needs::entries_with(RuleKind::Guards, &policy.domains);
    let writes = writes::writes(alloc, &policy.shape, guards, &list)?;
    Ok(Image {
        shape: policy.shape,
        writes,
    })
}

/// The same, with what a unit decides after it.
fn lawful_image(alloc: Global, policy: &Policy) -> Result<Image, AllocError>
    requires policy { IsPolicy policy.now }
    requires domains { need_domains policy.now ≤ policy.now.shape.domains }
    requires entries { need_entries policy.now ≤ policy.now.shape.entries }
    ensures image { IfOk result (λ i. i ≡ image_of policy.now) }
    ensures law { IfOk result (DecidesAs policy.now) }
{
    let image = fitting_image(alloc, policy)?;
    Ok(image)
}

/// Compiles a policy, which must be one that `read_policy` can give. It needs a hardware domain for
/// each policy domain that has guards and one for each that has grants, an entry for each rule that
/// one entry can hold and two for each other rule.
///
/// The writes are, in this order, HWCFG2, MDCFG of each hardware domain, the SRCMD registers, the
/// entries, and at last HWCFG0. A high SRCMD register comes right after its low one, where the unit
/// has more than 31 domains, or in format 2 more than 16 requesters.
pub fn compile(alloc: Global, policy: &Policy) -> Result<Image, CompileError>
    requires { IsPolicy policy.now }
    ensures image { Compiles (need_refusal policy.now) result policy.now }

    // After the image's writes from reset, the unit decides every access as the policy does.
    ensures law { IfOk result (DecidesAs policy.now) }
{
    if let Some(error) = need_refusal(policy) {
        return Err(error);
    }
    match lawful_image(alloc, policy) {
        Ok(image) => Ok(image),
        Err(_) => Err(CompileError::NoMemory),
    }
}

// The policy that a text stands for, or its one line.
ghost use Rattle.std.specs.Prelude.{Ok, IfOk};
ghost use Rattle.policy_compiler.specs.Policies.{IsPolicy};
ghost use Rattle.policy_compiler.specs.Gives.{Reads};
ghost use Rattle.command_answers.specs.PolicyLines.{IsNoPolicy};
ghost use Rattle.command_answers.specs.AnswerForms.{GivesOr};

use crate::answers::NoAnswer;
use crate::refusals::no_policy;
use crate::refusals::policy_lines::WhichPolicy;
use policy_compiler::{Policy, read_policy};
use std::alloc::Global;

/// The policy of a text, the only one of an input, or one of two.
pub fn policy(alloc: Global, which: WhichPolicy, bytes: &[u8]) -> Result<Policy, NoAnswer>
    ensures policy { GivesOr (λ p. Reads (Ok p) bytes.now) (IsNoPolicy which bytes.now) result }
    ensures good { IfOk result IsPolicy }
{
    match read_policy(alloc, bytes) {
        Ok(policy) => Ok(policy),
        Err(error) => Err(no_policy(alloc, which, &error)),
    }
}

// What a policy needs of a unit.
ghost use Rattle.std.specs.Prelude.{◌≡◌, ◌≤◌, ◌+◌, ◌*◌, length};
ghost use Rattle.std.specs.List.{AllByRecursion};
ghost use Rattle.policy_compiler.specs.Needs.{rule_need, rules_need, entries_with, domains_with};
ghost use Rattle.policy_compiler.specs.Fitting.{HasRules};

use crate::hardware::rules_of;
use crate::read::{RuleKind, is_single};
use crate::{PolicyDomain, Rule};

/// How many entries a rule takes.
#[tactic(auto, unfolding(crate::specs::Needs::rule_need))]
fn rule_need(rule: &Rule) -> u32
    ensures value { result ≡ rule_need rule.now }
    ensures few { result ≤ 2 }
{
    if is_single(rule.from, rule.size) {
        1
    } else {
        2
    }
}

fn rules_need(rules: &[Rule]) -> u32
    requires { length rules.now ≤ 1024 }
    ensures value { result ≡ rules_need rules.now }
    ensures few { result ≤ 2048 }
{
    let mut need = 0;
    for rule in rules {
        need += rule_need(rule);
    }
    need
}

/// How many entries the rules of a kind take.
pub fn entries_with(kind: RuleKind, domains: &[PolicyDomain]) -> u32
    requires few { length domains.now ≤ 64 }
    requires rules { AllByRecursion HasRules domains.now }
    ensures value { result ≡ entries_with kind domains.now }
    ensures few { result ≤ 131072 }
{
    let mut need = 0;
    for domain in domains {
        need += rules_need(rules_of(kind, domain));
    }
    need
}

/// How many policy domains have rules of a kind.
pub fn domains_with(kind: RuleKind, domains: &[PolicyDomain]) -> u32
    requires { length domains.now ≤ 64 }
    ensures value { result ≡ domains_with kind domains.now }
    ensures few { result ≤ 64 }
{
    let mut need = 0;
    for domain in domains {
        if !rules_of(kind, domain).is_empty() {
            need += 1;
        }
    }
    need
}

// The hardware domains of a policy, each with its members and its entries.
ghost use Rattle.std.specs.Prelude.{◌≡◌, ◌≤◌, ◌<◌, ◌+◌, ◌/◌, ◌++◌, IfOk, List, length};
ghost use Rattle.std.specs.List.{AllByRecursion};
ghost use Rattle.register_fields.specs.Rights.{rights_bits};
ghost use Rattle.policy_compiler.specs.Policies.{IsRule, AreRules};
ghost use Rattle.policy_compiler.specs.Images.{entry_with, single_entry, rule_entries, entries_of, rules_of, hardware_of, hardware};
ghost use Rattle.policy_compiler.specs.Fitting.{HasRules};

use crate::read::{RuleKind, is_single};
use crate::{PolicyDomain, Rule};
use bitflags::Flags;
use std::alloc::{AllocError, Global};
use std::marker::Model;

/// The words of an entry: its word address, 50 bits, and its configuration.
#[derive(Clone, Copy, Debug, PartialEq, Eq)]
pub struct EntryWords {
    pub word: u64,
    pub cfg: u32,
}

/// A hardware domain.
#[derive(Debug, Drop)]
pub struct Hardware {
    /// Bit s for each requester s.
    pub members: u64,
    pub entries: Vec<EntryWords>,
}

impl Model for Hardware {
    ghost use Rattle.policy_compiler.specs.Images.{HardwareOf};

    ghost Value = { HardwareOf };

    ghost view = { λ h. record { members = h.members; entries = h.entries.items } };
}

/// The one entry of a single rule.
fn single_entry(rule: &Rule) -> EntryWords
    requires { IsRule rule.now }
    ensures { result ≡ single_entry rule.now }
{
    let rights = rule.rights.bits() as u32;
    if rule.size == 4 {
        EntryWords {
            word: rule.from / 4,
            cfg: rights + 16,
        }
    } else {
        EntryWords {
            word: rule.from / 4 + rule.size / 8 - 1,
            cfg: rights + 24,
        }
    }
}

fn bottom(rule: &Rule) -> EntryWords
    requires { IsRule rule.now }
    ensures { result ≡ entry_with (rule.now.from / 4) 0 }
{
    EntryWords {
        word: rule.from / 4,
        cfg: 0,
    }
}

fn top(rule: &Rule) -> EntryWords
    requires { IsRule rule.now }
    ensures { result ≡ entry_with ((rule.now.from + rule.now.size) / 4)
        (rights_bits rule.now.rights + 8) }
{
    EntryWords {
        word: (rule.from + rule.size) / 4,
        cfg: rule.rights.bits() as u32 + 8,
    }
}

/// Adds the entries of a rule.
#[tactic(auto, unfolding(crate::specs::Images::rule_entries))]
fn push_rule(entries: &mut Vec<EntryWords>, rule: &Rule) -> Result<(), AllocError>
    requires { IsRule rule.now }
    ensures { IfOk result (λ _. entries.new.items ≡ entries.old.items ++ rule_entries rule.now) }
{
    if is_single(rule.from, rule.size) {
        entries.push(single_entry(rule))?;
        return Ok(());
    }
    entries.push(bottom(rule))?;
    entries.push(top(rule))?;
    Ok(())
}

/// The entries of rules.
fn entries_of(alloc: Global, rules: &[Rule]) -> Result<Vec<EntryWords>, AllocError>
    requires { AreRules rules.now }
    ensures { IfOk result (λ v. v.items ≡ entries_of rules.now) }
{
    let mut entries = Vec::new(alloc);
    for rule in rules {
        push_rule(&mut entries, rule)?;
    }
    Ok(entries)
}

/// The rules of a kind.
pub fn rules_of(kind: RuleKind, domain: &PolicyDomain) -> &[Rule]
    ensures { result.now ≡ rules_of kind domain.now }
{
    match kind {
        RuleKind::Guards => &domain.guards,
        RuleKind::Grants => &domain.grants,
    }
}

/// Adds the hardware domains of the rules of a kind.
fn push_hardware(
    alloc: Global,
    list: &mut Vec<Hardware>,
    kind: RuleKind,
    domains: &[PolicyDomain],
) -> Result<(), AllocError>
    requires { AllByRecursion HasRules domains.now }
    ensures { IfOk result (λ _. list.new.items ≡ list.old.items ++ hardware_of kind domains.now) }
{
    for domain in domains {
        let rules = rules_of(kind, domain);
        if !rules.is_empty() {
            let entries = entries_of(alloc, rules)?;
            list.push(Hardware {
                members: domain.rrids,
                entries,
            })?;
        }
    }
    Ok(())
}

/// The hardware domains of a policy, those of guards before those of grants.
pub fn hardware_list(alloc: Global, domains: &[PolicyDomain]) -> Result<Vec<Hardware>, AllocError>
    requires { AllByRecursion HasRules domains.now }
    ensures { IfOk result (λ v. v.items ≡ hardware domains.now) }
{
    let mut list = Vec::new(alloc);
    push_hardware(alloc, &mut list, RuleKind::Guards, domains)?;
    push_hardware(alloc, &mut list, RuleKind::Grants, domains)?;
    Ok(list)
}

// Rules of a policy.
ghost use Rattle.std.specs.Prelude.{◌≡◌, ◌≤◌, ◌<◌, ◌+◌, ◌^◌, ◌%◌, ◌||◌, nat_lt, IsTrue, IfOk, IfSome, [], codes, length};
ghost use Rattle.std.specs.Option.{option_map};
ghost use Rattle.toml.specs.Data.{get_member};
ghost use Rattle.toml.specs.View.{view, table_view, items_view};
ghost use Rattle.register_fields.specs.Rights.{rights_bits};
ghost use Rattle.policy_compiler.specs.Policies.{is_single, IsRule, AreRules};
ghost use Rattle.policy_compiler.specs.Tables.{required, path_of};
ghost use Rattle.policy_compiler.specs.Rules.{from_in, size_in, bits_of_text, rights_in, rule_at, part_of, key_of, rule_in, rules_from};
ghost use Rattle.policy_compiler.specs.Gives.{Gives, listed};

use super::tables;
use crate::path::Fault;
use crate::{Part, Path, Rule};
use bitflags::Flags;
use register_fields::Rights;
use std::alloc::Global;
use toml::{Table, Value};

/// The two lists of rules of a domain.
#[derive(Clone, Copy, PartialEq, Eq, Debug)]
pub enum RuleKind {
    Guards,
    Grants,
}

/// Whether one entry can hold the bytes: 4 of them, or a power of two that divides where they
/// begin.
#[tactic(auto, unfolding(crate::specs::Policies::is_single))]
pub fn is_single(from: u64, size: u64) -> bool
    ensures { result ≡ is_single from size }
{
    size == 4 || 8 <= size && size.is_power_of_two() && from % size == 0
}

#[tactic(auto, unfolding(crate::specs::Rules::from_in))]
fn from(path: Path, value: &Value) -> Result<u64, Fault>
    ensures value { result ≡ from_in path (view value.now) }
    ensures good { IfOk result (λ n. (n % 4 ≡ 0) × (n ≤ 2 ^ 52)) }
{
    let n = tables::number(path, 0, (1 << 52) - 4, value)?;
    if n % 4 == 0 {
        Ok(n)
    } else {
        Err(Fault::Range { path })
    }
}

#[tactic(auto, unfolding(crate::specs::Rules::size_in))]
fn size(path: Path, from: u64, value: &Value) -> Result<u64, Fault>
    requires { from ≤ 2 ^ 52 }
    ensures value { result ≡ size_in path from (view value.now) }
    ensures good { IfOk result (λ n. (n % 4 ≡ 0) × (4 ≤ n) × (from + n ≤ 2 ^ 52)) }
    ensures top { IfOk result (λ n. IsTrue (is_single from n || nat_lt (from + n) (2 ^ 52))) }
{
    let n = tables::number(path, 4, (1 << 52) - from, value)?;
    if n % 4 != 0 {
        return Err(Fault::Range { path });
    }
    if is_single(from, n) || from + n < 1 << 52 {
        Ok(n)
    } else {
        Err(Fault::Range { path })
    }
}

#[tactic(auto, unfolding(crate::specs::Rules::bits_of_text))]
fn bits_of_text(text: &str) -> Option<u8>
    ensures value { result ≡ bits_of_text text.now }
    ensures small { IfSome result (λ bits. bits < 8) }
{
    if text == "" {
        Some(0)
    } else if text == "r" {
        Some(1)
    } else if text == "w" {
        Some(2)
    } else if text == "rw" {
        Some(3)
    } else if text == "x" {
        Some(4)
    } else if text == "rx" {
        Some(5)
    } else if text == "wx" {
        Some(6)
    } else if text == "rwx" {
        Some(7)
    } else {
        None
    }
}

#[tactic(auto, unfolding(crate::specs::Rules::rights_in))]
fn rights(path: Path, value: &Value) -> Result<Rights, Fault>
    ensures value { result ≡ rights_in path (view value.now) }
    ensures good { IfOk result (λ x. rights_bits x < 8) }
{
    let Some(text) = value.as_str() else {
        return Err(Fault::Key { path });
    };
    match bits_of_text(text) {
        None => Err(Fault::Range { path }),
        Some(bits) => Ok(Rights::from_bits_retain(bits)),
    }
}

fn from_at(part: Part, table: &Table) -> Result<u64, Fault>
    ensures value { result ≡ required (path_of part 12) (from_in (path_of part 12))
        (get_member (codes "from") (table_view table.now)) }
    ensures good { IfOk result (λ n. (n % 4 ≡ 0) × (n ≤ 2 ^ 52)) }
{
    let path = Path { part, key: 12 };
    match tables::value_at(table, "from") {
        None => Err(Fault::Key { path }),
        Some(value) => from(path, value),
    }
}

fn size_at(part: Part, from: u64, table: &Table) -> Result<u64, Fault>
    requires { from ≤ 2 ^ 52 }
    ensures value { result ≡ required (path_of part 13) (size_in (path_of part 13) from)
        (get_member (codes "size") (table_view table.now)) }
    ensures good { IfOk result (λ n. (n % 4 ≡ 0) × (4 ≤ n) × (from + n ≤ 2 ^ 52)) }
    ensures top { IfOk result (λ n. IsTrue (is_single from n || nat_lt (from + n) (2 ^ 52))) }
{
    let path = Path { part, key: 13 };
    match tables::value_at(table, "size") {
        None => Err(Fault::Key { path }),
        Some(value) => size(path, from, value),
    }
}

fn rights_at(part: Part, table: &Table) -> Result<Rights, Fault>
    ensures value { result ≡ required (path_of part 14) (rights_in (path_of part 14))
        (get_member (codes "rights") (table_view table.now)) }
    ensures good { IfOk result (λ x. rights_bits x < 8) }
{
    let path = Path { part, key: 14 };
    match tables::value_at(table, "rights") {
        None => Err(Fault::Key { path }),
        Some(value) => rights(path, value),
    }
}

/// The rule of a table.
#[tactic(auto, unfolding(crate::specs::Rules::rule_at))]
fn rule_at(part: Part, table: &Table) -> Result<Rule, Fault>
    ensures value { result ≡ rule_at part (table_view table.now) }
    ensures good { IfOk result IsRule }
{
    tables::keys(part, table)?;
    let from = from_at(part, table)?;
    let size = size_at(part, from, table)?;
    let rights = rights_at(part, table)?;
    Ok(Rule { from, size, rights })
}

impl RuleKind {
    fn part(self, domain: u16, rule: u16) -> Part
        ensures { result ≡ part_of self domain rule }
    {
        match self {
            RuleKind::Guards => Part::Guard(domain, rule),
            RuleKind::Grants => Part::Grant(domain, rule),
        }
    }

    fn key(self) -> u8
        ensures { result ≡ key_of self }
    {
        match self {
            RuleKind::Guards => 10,
            RuleKind::Grants => 11,
        }
    }
}

#[tactic(auto, unfolding(crate::specs::Rules::rule_in))]
fn rule_in(kind: RuleKind, domain: u16, rule: u16, value: &Value) -> Result<Rule, Fault>
    ensures value { result ≡ rule_in kind domain rule (view value.now) }
    ensures good { IfOk result IsRule }
{
    match value.as_table() {
        None => Err(Fault::Key {
            path: Path {
                part: Part::Domain(domain),
                key: kind.key(),
            },
        }),
        Some(table) => rule_at(kind.part(domain, rule), table),
    }
}

/// The rules of a domain's tables.
pub fn rules(
    alloc: Global,
    kind: RuleKind,
    domain: u16,
    values: &[Value],
) -> Result<Vec<Rule>, Fault>
    requires { length values.now ≤ 1024 }
    ensures value { Gives (listed result) (rules_from kind domain 0 [] (items_view values.now)) }
    ensures good { IfOk result (λ v. AreRules v.items) }
    ensures few { IfOk result (λ v. length v.items ≤ 1024) }
{
    let mut rules = Vec::new(alloc);
    for (place, value) in values.iter().enumerate() {
        let rule = rule_in(kind, domain, place as u16, value)?;
        if rules.push(rule).is_err() {
            return Err(Fault::NoMemory);
        }
    }
    Ok(rules)
}

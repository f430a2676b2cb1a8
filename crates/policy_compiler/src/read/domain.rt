// The domains of a policy.
ghost use Rattle.std.specs.Prelude.{◌≡◌, ℕ, ◌≤◌, ◌<◌, ◌^◌, ◌-◌, bit_or, IfOk, [], codes, length};
ghost use Rattle.std.specs.List.{AllByRecursion, list_any, list_all};
ghost use Rattle.std.specs.Option.{option_map};
ghost use Rattle.toml.specs.Data.{get_member};
ghost use Rattle.toml.specs.View.{view, table_view, items_view};
ghost use Rattle.policy_compiler.specs.Policies.{IsDomain};
ghost use Rattle.policy_compiler.specs.Tables.{path_of, required, number_in};
ghost use Rattle.policy_compiler.specs.Reading.{is_name_byte, is_name, has_name, is_used, name_in, mask_with, mask_from, rrids_in, domain_at, domain_in, domains_from};
ghost use Rattle.policy_compiler.specs.Gives.{Gives, listed};

use super::rules::{self, RuleKind};
use super::tables;
use crate::path::Fault;
use crate::{Part, Path, PolicyDomain};
use std::alloc::Global;
use toml::{Table, Value};

fn is_name_byte(b: u8) -> bool
    ensures { result ≡ is_name_byte b }
{
    97 <= b && b <= 122 || 48 <= b && b <= 57 || b == 95
}

fn are_name_bytes(text: &[u8]) -> bool
    ensures { result ≡ list_all is_name_byte text.now }
{
    text.iter().all(|b| is_name_byte(*b))
}

/// Whether a domain may have this name: 1 to 32 lower-case letters, digits and `_`.
#[tactic(auto, unfolding(crate::specs::Reading::is_name))]
fn is_name(text: &[u8]) -> bool
    ensures { result ≡ is_name text.now }
{
    1 <= text.len() && text.len() <= 32 && are_name_bytes(text)
}

/// Whether a domain has this name already.
fn is_used(text: &[u8], earlier: &[PolicyDomain]) -> bool
    ensures { result ≡ is_used text.now earlier.now }
{
    earlier.iter().any(|domain| domain.name.as_slice() == text)
}

#[tactic(auto, unfolding(crate::specs::Reading::name_in))]
fn name_in(
    alloc: Global,
    path: Path,
    earlier: &[PolicyDomain],
    value: &Value,
) -> Result<Vec<u8>, Fault>
    ensures { Gives (listed result) (name_in path earlier.now (view value.now)) }
{
    let Some(text) = value.as_str() else {
        return Err(Fault::Key { path });
    };
    let bytes = text.as_bytes();
    if !is_name(bytes) || is_used(bytes, earlier) {
        return Err(Fault::Name { path });
    }
    match bytes.to_vec(alloc) {
        Ok(name) => Ok(name),
        Err(_) => Err(Fault::NoMemory),
    }
}

fn name_at(
    alloc: Global,
    domain: u16,
    earlier: &[PolicyDomain],
    table: &Table,
) -> Result<Vec<u8>, Fault>
    ensures { Gives (listed result) (required (path_of (Part.Domain domain) 9)
        (name_in (path_of (Part.Domain domain) 9) earlier.now)
        (get_member (codes "name") (table_view table.now))) }
{
    let path = Path {
        part: Part::Domain(domain),
        key: 9,
    };
    match tables::value_at(table, "name") {
        None => Err(Fault::Key { path }),
        Some(value) => name_in(alloc, path, earlier, value),
    }
}

/// The set with one requester more.
fn with_rrid(mask: u64, rrid: u64) -> u64
    requires { rrid < 64 }
    ensures value { result ≡ bit_or mask (2 ^ rrid) }
    ensures small { (n : ℕ) → mask < 2 ^ n → rrid < n → result < 2 ^ n }
{
    mask | 1u64 << rrid
}

/// The set with the requester of an integer more.
#[tactic(auto, unfolding(crate::specs::Reading::mask_with))]
fn mask_with(path: Path, rrids: u8, mask: u64, value: &Value) -> Result<u64, Fault>
    requires some { 1 ≤ rrids }
    requires few { rrids ≤ 64 }
    requires small { mask < 2 ^ rrids }
    ensures value { result ≡ mask_with path rrids mask (view value.now) }
    ensures small { IfOk result (λ m. m < 2 ^ rrids) }
{
    let rrid = tables::number(path, 0, rrids as u64 - 1, value)?;
    Ok(with_rrid(mask, rrid))
}

/// The requesters of an array of integers.
fn mask(path: Path, rrids: u8, values: &[Value]) -> Result<u64, Fault>
    requires some { 1 ≤ rrids }
    requires few { rrids ≤ 64 }
    ensures value { result ≡ mask_from path rrids 0 (items_view values.now) }
    ensures small { IfOk result (λ m. m < 2 ^ rrids) }
{
    let mut mask = 0;
    for value in values {
        mask = mask_with(path, rrids, mask, value)?;
    }
    Ok(mask)
}

#[tactic(auto, unfolding(crate::specs::Reading::rrids_in))]
fn rrids_in(path: Path, rrids: u8, value: &Value) -> Result<u64, Fault>
    requires some { 1 ≤ rrids }
    requires few { rrids ≤ 64 }
    ensures value { result ≡ rrids_in path rrids (view value.now) }
    ensures small { IfOk result (λ m. m < 2 ^ rrids) }
{
    let Some(values) = value.as_array() else {
        return Err(Fault::Key { path });
    };
    if tables::are_integers(values) {
        mask(path, rrids, values)
    } else {
        Err(Fault::Key { path })
    }
}

fn rrids_at(domain: u16, rrids: u8, table: &Table) -> Result<u64, Fault>
    requires some { 1 ≤ rrids }
    requires few { rrids ≤ 64 }
    ensures value { result ≡ required (path_of (Part.Domain domain) 3)
        (rrids_in (path_of (Part.Domain domain) 3) rrids)
        (get_member (codes "rrids") (table_view table.now)) }
    ensures small { IfOk result (λ m. m < 2 ^ rrids) }
{
    let path = Path {
        part: Part::Domain(domain),
        key: 3,
    };
    match tables::value_at(table, "rrids") {
        None => Err(Fault::Key { path }),
        Some(value) => rrids_in(path, rrids, value),
    }
}

/// The domain of a table.
#[tactic(auto, unfolding(crate::specs::Reading::domain_at))]
fn domain_at(
    alloc: Global,
    rrids: u8,
    domain: u16,
    earlier: &[PolicyDomain],
    table: &Table,
) -> Result<PolicyDomain, Fault>
    requires some { 1 ≤ rrids }
    requires few { rrids ≤ 64 }
    ensures value { Gives result (domain_at rrids domain earlier.now (table_view table.now)) }
    ensures good { IfOk result (IsDomain rrids) }
{
    let part = Part::Domain(domain);
    tables::keys(part, table)?;
    let name = name_at(alloc, domain, earlier, table)?;
    let mask = rrids_at(domain, rrids, table)?;
    let guard = tables::tables(part, 10, 1024, tables::value_at(table, "guard"))?;
    let grant = tables::tables(part, 11, 1024, tables::value_at(table, "grant"))?;
    let guards = rules::rules(alloc, RuleKind::Guards, domain, guard)?;
    let grants = rules::rules(alloc, RuleKind::Grants, domain, grant)?;
    Ok(PolicyDomain {
        name,
        rrids: mask,
        guards,
        grants,
    })
}

#[tactic(auto, unfolding(crate::specs::Reading::domain_in))]
fn domain_in(
    alloc: Global,
    rrids: u8,
    domain: u16,
    earlier: &[PolicyDomain],
    value: &Value,
) -> Result<PolicyDomain, Fault>
    requires some { 1 ≤ rrids }
    requires few { rrids ≤ 64 }
    ensures value { Gives result (domain_in rrids domain earlier.now (view value.now)) }
    ensures good { IfOk result (IsDomain rrids) }
{
    match value.as_table() {
        None => Err(Fault::Key {
            path: Path {
                part: Part::Top,
                key: 2,
            },
        }),
        Some(table) => domain_at(alloc, rrids, domain, earlier, table),
    }
}

/// The domains of tables.
pub fn domains(alloc: Global, rrids: u8, values: &[Value]) -> Result<Vec<PolicyDomain>, Fault>
    requires some { 1 ≤ rrids }
    requires few { rrids ≤ 64 }
    requires domains { length values.now ≤ 64 }
    ensures value { Gives (listed result) (domains_from rrids 0 [] (items_view values.now)) }
    ensures good { IfOk result (λ v. AllByRecursion (IsDomain rrids) v.items) }
    ensures few { IfOk result (λ v. length v.items ≤ 64) }
{
    let mut domains = Vec::new(alloc);
    for (place, value) in values.iter().enumerate() {
        let domain = domain_in(alloc, rrids, place as u16, &domains, value)?;
        if domains.push(domain).is_err() {
            return Err(Fault::NoMemory);
        }
    }
    Ok(domains)
}

// What a policy decides about an access.
ghost use Rattle.std.specs.Prelude.{◌≡◌, ◌<◌, find};
ghost use Rattle.std.specs.List.{list_any};
ghost use Rattle.event_words.specs.Valid.{IsValidAccess};
ghost use Rattle.policy_compiler.specs.Decides.{rule_touches, rule_covers, rule_grants, allows, is_member, first_guard, any_grant, illegal_kind, guard_kind, grants_kind, policy_decision};

use crate::{Policy, PolicyDomain, Rule};
use bitflags::Flags;
use event_words::Access;
use register_fields::has_bit;

/// Whether some byte of the access is the rule's.
#[tactic(auto, using(crate::proofs::Runs::touches_empty, crate::proofs::Runs::touches_before, crate::proofs::Runs::touches_within))]
fn touches(access: &Access, rule: &Rule) -> bool
    requires { IsValidAccess access.now }
    ensures { result ≡ rule_touches access.now rule.now }
{
    if rule.size == 0 {
        return false;
    }
    if access.addr < rule.from {
        return rule.from < access.addr + access.len as u64;
    }
    access.addr - rule.from < rule.size
}

/// Whether each byte of the access is the rule's.
#[tactic(auto, using(crate::proofs::Runs::covers_before, crate::proofs::Runs::covers_within))]
fn covers(access: &Access, rule: &Rule) -> bool
    requires { IsValidAccess access.now }
    ensures { result ≡ rule_covers access.now rule.now }
{
    if access.addr < rule.from {
        return false;
    }
    access.addr - rule.from + access.len as u64 <= rule.size
}

/// Whether the rule has the right that the access needs.
#[tactic(auto, unfolding(crate::specs::Decides::rule_grants))]
fn grants(access: &Access, rule: &Rule) -> bool
    ensures { result ≡ rule_grants access.now rule.now }
{
    has_bit(rule.rights.bits() as u32, access.kind.code() as u32)
}

fn allows(access: &Access, rule: &Rule) -> bool
    requires { IsValidAccess access.now }
    ensures { result ≡ allows access.now rule.now }
{
    covers(access, rule) && grants(access, rule)
}

/// Whether a requester is one of the domain's.
#[tactic(auto, unfolding(crate::specs::Decides::is_member))]
pub fn is_member(rrid: u8, domain: &PolicyDomain) -> bool
    requires { rrid < 64 }
    ensures { result ≡ is_member rrid domain.now }
{
    (domain.rrids >> rrid) % 2 == 1
}

fn first_of(access: &Access, rules: &[Rule]) -> Option<Rule>
    requires { IsValidAccess access.now }
    ensures { result ≡ find (rule_touches access.now) rules.now }
{
    for rule in rules {
        if touches(access, rule) {
            return Some(*rule);
        }
    }
    None
}

/// The first guard of the requester that touches the access.
fn first_guard(access: &Access, domains: &[PolicyDomain]) -> Option<Rule>
    requires { IsValidAccess access.now }
    ensures { result ≡ first_guard (rule_touches access.now) access.now.rrid domains.now }
{
    for domain in domains {
        if is_member(access.rrid, domain) {
            if let Some(rule) = first_of(access, &domain.guards) {
                return Some(rule);
            }
        }
    }
    None
}

fn any_covers(access: &Access, rules: &[Rule]) -> bool
    requires { IsValidAccess access.now }
    ensures { result ≡ list_any (rule_covers access.now) rules.now }
{
    rules.iter().any(|rule| covers(access, rule))
}

fn any_allows(access: &Access, rules: &[Rule]) -> bool
    requires { IsValidAccess access.now }
    ensures { result ≡ list_any (allows access.now) rules.now }
{
    rules.iter().any(|rule| allows(access, rule))
}

fn is_covered(access: &Access, domains: &[PolicyDomain]) -> bool
    requires { IsValidAccess access.now }
    ensures { result ≡ any_grant (rule_covers access.now) access.now.rrid domains.now }
{
    for domain in domains {
        if is_member(access.rrid, domain) && any_covers(access, &domain.grants) {
            return true;
        }
    }
    false
}

fn is_allowed(access: &Access, domains: &[PolicyDomain]) -> bool
    requires { IsValidAccess access.now }
    ensures { result ≡ any_grant (allows access.now) access.now.rrid domains.now }
{
    for domain in domains {
        if is_member(access.rrid, domain) && any_allows(access, &domain.grants) {
            return true;
        }
    }
    false
}

fn illegal_kind(access: &Access) -> u8
    ensures { result ≡ illegal_kind access.now }
{
    1 + access.kind.code()
}

#[tactic(auto, unfolding(crate::specs::Decides::guard_kind))]
fn guard_kind(access: &Access, rule: &Rule) -> u8
    requires { IsValidAccess access.now }
    ensures { result ≡ guard_kind access.now rule.now }
{
    if !covers(access, rule) {
        4
    } else if grants(access, rule) {
        0
    } else {
        illegal_kind(access)
    }
}

#[tactic(auto, unfolding(crate::specs::Decides::grants_kind))]
fn grants_kind(access: &Access, domains: &[PolicyDomain]) -> u8
    requires { IsValidAccess access.now }
    ensures { result ≡ grants_kind access.now domains.now }
{
    if is_allowed(access, domains) {
        0
    } else if is_covered(access, domains) {
        illegal_kind(access)
    } else {
        5
    }
}

/// What the policy decides about an access, which must be valid: 0 where it is allowed, 1, 2 or 3
/// where a read, write or fetch isn't, 4 where the first guard that touches the access doesn't
/// cover it, 5 where no rule decides, 6 where the unit doesn't know the requester.
#[tactic(auto, unfolding(crate::specs::Decides::policy_decision))]
pub fn policy_kind(policy: &Policy, access: &Access) -> u8
    requires { IsValidAccess access.now }
    ensures { result ≡ policy_decision policy.now access.now }
{
    if access.rrid >= policy.shape.rrids {
        return 6;
    }
    match first_guard(access, &policy.domains) {
        Some(rule) => guard_kind(access, &rule),
        None => grants_kind(access, &policy.domains),
    }
}

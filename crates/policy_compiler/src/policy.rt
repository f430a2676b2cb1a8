// What a policy is.
use event_words::Shape;
use register_fields::Rights;
use std::marker::Model;

/// What is allowed on a run of bytes.
#[derive(Clone, Copy, Debug, PartialEq, Eq)]
pub struct Rule {
    /// The address of the first byte, a multiple of 4.
    pub from: u64,
    /// The number of bytes, a multiple of 4 and at least 4. `from + size` is at most 2^52.
    pub size: u64,
    /// What is allowed there.
    pub rights: Rights,
}

/// Requesters, and the rules that hold for them.
#[derive(Debug, Drop)]
pub struct PolicyDomain {
    /// 1 to 32 bytes of lower-case letters, digits and `_`.
    pub name: Vec<u8>,
    /// Bit s for each requester s of the domain.
    pub rrids: u64,
    /// Rules of which the first that touches an access decides it, at most 1024.
    pub guards: Vec<Rule>,
    /// Rules that are asked where no guard touches an access, at most 1024.
    pub grants: Vec<Rule>,
}

impl Model for PolicyDomain {
    ghost use Rattle.policy_compiler.specs.Policies.{DomainOf};

    ghost Value = { DomainOf };

    ghost view = { λ d. record {
      name = d.name.items;
      rrids = d.rrids;
      guards = d.guards.items;
      grants = d.grants.items;
    } };
}

/// What a unit shall decide about each access.
#[derive(Debug, Drop)]
pub struct Policy {
    /// The unit: of MDCFG format 0 and SRCMD format 0 without SPS, or 2.
    pub shape: Shape,
    /// At most 64 domains, each with a name of its own.
    pub domains: Vec<PolicyDomain>,
}

impl Model for Policy {
    ghost use Rattle.policy_compiler.specs.Policies.{PolicyOf};

    ghost Value = { PolicyOf };

    ghost view = { λ p. record { shape = p.shape; domains = p.domains.items } };
}

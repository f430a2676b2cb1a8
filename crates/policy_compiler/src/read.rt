// Reads a policy off a TOML document.
ghost use Rattle.std.specs.Prelude.{◌≡◌, IfOk};
ghost use Rattle.toml.specs.View.{table_view};
ghost use Rattle.policy_compiler.specs.Policies.{IsPolicy};
ghost use Rattle.policy_compiler.specs.Reading.{policy_of};
ghost use Rattle.policy_compiler.specs.Gives.{Gives, Reads, refusal_of};

mod domain;
mod rules;
mod tables;
mod unit;

use crate::path::Fault;
use crate::{Part, Path, Policy, PolicyError};
pub use rules::{RuleKind, is_single};
use std::alloc::Global;
use toml::{Table, Value};

/// The policy of a document's top table.
#[tactic(auto, unfolding(crate::specs::Reading::policy_of))]
fn policy_at(alloc: Global, top: &Table) -> Result<Policy, Fault>
    ensures value { Gives result (policy_of (table_view top.now)) }
    ensures good { IfOk result IsPolicy }
{
    tables::keys(Part::Top, top)?;
    let path = Path {
        part: Part::Top,
        key: 1,
    };
    let unit = tables::table(path, tables::value_at(top, "unit"))?;
    let list = tables::tables(Part::Top, 2, 64, tables::value_at(top, "domain"))?;
    let shape = unit::unit_at(unit)?;
    let domains = domain::domains(alloc, shape.rrids, list)?;
    Ok(Policy { shape, domains })
}

/// The fault of a document as a refusal.
fn refusal(fault: Fault) -> PolicyError
    ensures { result ≡ refusal_of fault }
{
    match fault {
        Fault::Key { path } => PolicyError::Key { path },
        Fault::Range { path } => PolicyError::Range { path },
        Fault::Name { path } => PolicyError::Name { path },
        Fault::NoMemory => PolicyError::NoMemory,
    }
}

/// Reads a policy. The refusals are the first fault of the text: no TOML document, then the tables
/// in the order top, `unit`, and each `domain` with its guards and then its grants. In a table an
/// unknown key comes first, and then the keys in the order of their numbers in `Path`.
///
/// A unit has 1 to 64 requesters, at most 32 of them in SRCMD format 2, 1 to 63 domains and 1 to
/// 1024 entries. A rule's `from` and `size` are multiples of 4, and it ends at 2^52 at most, or
/// below where it takes two entries.
pub fn read_policy(alloc: Global, bytes: &[u8]) -> Result<Policy, PolicyError>
    ensures document { Reads result bytes.now }
    ensures good { IfOk result IsPolicy }
{
    match toml::table_from_slice(alloc, bytes) {
        Ok(top) => match policy_at(alloc, &top) {
            Ok(policy) => Ok(policy),
            Err(fault) => Err(refusal(fault)),
        },
        Err(error) if error.is_memory() => Err(PolicyError::NoMemory),
        Err(_) => Err(PolicyError::Toml),
    }
}

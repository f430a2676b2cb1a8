// The table `unit` of a policy.
ghost use Rattle.std.specs.Prelude.{◌≡◌, ◌≤◌, ◌<◌, ◌||◌, ◌==◌, IsTrue, IfOk, IfSome, None, codes};
ghost use Rattle.std.specs.Option.{option_map};
ghost use Rattle.toml.specs.Data.{get_member};
ghost use Rattle.toml.specs.View.{view, table_view};
ghost use Rattle.policy_compiler.specs.Policies.{IsPolicyShape};
ghost use Rattle.policy_compiler.specs.Tables.{optional};
ghost use Rattle.policy_compiler.specs.Reading.{srcmd_in, transl_in, unit_number, unit_at};

use super::tables;
use crate::path::Fault;
use crate::{Part, Path};
use event_words::Shape;
use toml::{Table, Value};

/// A number that must be there, from 1 on.
fn unit_number(key: u8, most: u64, value: Option<&Value>) -> Result<u64, Fault>
    ensures value { result ≡ unit_number key most (option_map (λ v. view v.now) value.entry) }
    ensures range { IfOk result (λ n. (1 ≤ n) × (n ≤ most)) }
{
    let path = Path {
        part: Part::Unit,
        key,
    };
    match value {
        None => Err(Fault::Key { path }),
        Some(value) => tables::number(path, 1, most, value),
    }
}

/// SRCMD format 0, or 2 where there are at most 32 requesters.
#[tactic(auto, unfolding(crate::specs::Reading::srcmd_in))]
fn srcmd(rrids: u8, value: &Value) -> Result<u8, Fault>
    ensures value { result ≡ srcmd_in rrids (view value.now) }
    ensures formats { IfOk result (λ n. IsTrue ((n == 0) || (n == 2))) }
    ensures room { IfOk result (λ n. n ≡ 2 → rrids ≤ 32) }
{
    let path = Path {
        part: Part::Unit,
        key: 6,
    };
    let n = tables::number(path, 0, 2, value)?;
    if n == 0 || n == 2 && rrids <= 32 {
        Ok(n as u8)
    } else {
        Err(Fault::Range { path })
    }
}

fn srcmd_at(rrids: u8, table: &Table) -> Result<u8, Fault>
    ensures value { result ≡ optional 0 (srcmd_in rrids)
        (get_member (codes "srcmd") (table_view table.now)) }
    ensures formats { IfOk result (λ n. IsTrue ((n == 0) || (n == 2))) }
    ensures room { IfOk result (λ n. n ≡ 2 → rrids ≤ 32) }
{
    match tables::value_at(table, "srcmd") {
        None => Ok(0),
        Some(value) => srcmd(rrids, value),
    }
}

#[tactic(auto, unfolding(crate::specs::Reading::transl_in))]
fn transl_at(table: &Table) -> Result<Option<u8>, Fault>
    ensures value { result ≡ optional None transl_in
        (get_member (codes "transl") (table_view table.now)) }
    ensures small { IfOk result (λ o. IfSome o (λ n. n ≤ 63)) }
{
    let path = Path {
        part: Part::Unit,
        key: 8,
    };
    match tables::value_at(table, "transl") {
        None => Ok(None),
        Some(value) => {
            let rrid = tables::number(path, 0, 63, value)?;
            Ok(Some(rrid as u8))
        }
    }
}

/// The unit of a policy: 1 to 64 requesters, 1 to 63 domains, 1 to 1024 entries.
#[tactic(auto, unfolding(crate::specs::Reading::unit_at))]
pub fn unit_at(table: &Table) -> Result<Shape, Fault>
    ensures value { result ≡ unit_at (table_view table.now) }
    ensures good { IfOk result IsPolicyShape }
{
    tables::keys(Part::Unit, table)?;
    let rrids = unit_number(3, 64, tables::value_at(table, "rrids"))? as u8;
    let domains = unit_number(4, 63, tables::value_at(table, "domains"))? as u8;
    let entries = unit_number(5, 1024, tables::value_at(table, "entries"))? as u16;
    let srcmd = srcmd_at(rrids, table)?;
    let queue = unit_number(7, 64, tables::value_at(table, "queue"))? as u8;
    let transl = transl_at(table)?;
    Ok(Shape {
        rrids,
        domains,
        entries,
        mdcfg: 0,
        k: 0,
        srcmd,
        sps: false,
        queue,
        transl,
    })
}

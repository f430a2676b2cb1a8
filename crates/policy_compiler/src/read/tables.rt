// Keys of tables, and values of the types that they must have.
ghost use Rattle.std.specs.Prelude.{◌≡◌, ◌≤◌, ◌<◌, ◌^◌, nat_le, length, is_some, MatchResult, IfOk, true, false};
ghost use Rattle.std.specs.Option.{option_map};
ghost use Rattle.toml.specs.Data.{get_member, as_table, as_integer, no_items};
ghost use Rattle.toml.specs.View.{view, table_view, items_view};
ghost use Rattle.policy_compiler.specs.Tables.{typed, required, optional, in_range, number_in, is_key, is_rule_key, has_other_key, are_tables, are_integers, item_count, path_of};
ghost use Rattle.policy_compiler.specs.Rules.{tables_in};

use crate::path::Fault;
use crate::{Part, Path};
use toml::{Table, Value};

/// The value at a key.
pub fn value_at<'a>(table: &'a Table, key: &str) -> Option<&'a Value>
    ensures { option_map (λ v. view v.now) result ≡ get_member key.now (table_view table.now) }
{
    table.get(key)
}

fn is_rule_key(key: &str) -> bool
    ensures { result ≡ is_rule_key key.now }
{
    key == "from" || key == "size" || key == "rights"
}

#[tactic(auto, unfolding(crate::specs::Tables::is_key))]
fn is_key(part: Part, key: &str) -> bool
    ensures { result ≡ is_key part key.now }
{
    match part {
        Part::Top => key == "unit" || key == "domain",
        Part::Unit => {
            key == "rrids"
                || key == "domains"
                || key == "entries"
                || key == "srcmd"
                || key == "queue"
                || key == "transl"
        }
        Part::Domain(_) => key == "name" || key == "rrids" || key == "guard" || key == "grant",
        Part::Guard(_, _) => is_rule_key(key),
        Part::Grant(_, _) => is_rule_key(key),
    }
}

fn has_other_key(part: Part, table: &Table) -> bool
    ensures { result ≡ has_other_key part (table_view table.now) }
{
    for (key, _) in table.iter() {
        if !is_key(part, key.as_str()) {
            return true;
        }
    }
    false
}

/// Refuses an unknown key.
pub fn keys(part: Part, table: &Table) -> Result<(), Fault>
    ensures { MatchResult result (λ _. has_other_key part (table_view table.now) ≡ false)
        (λ e. (has_other_key part (table_view table.now) ≡ true)
        × (e ≡ Fault.Key (path_of part 0))) }
{
    if has_other_key(part, table) {
        Err(Fault::Key {
            path: Path { part, key: 0 },
        })
    } else {
        Ok(())
    }
}

fn within(path: Path, low: u64, high: u64, z: i64) -> Result<u64, Fault>
    ensures { result ≡ in_range path low high z }
{
    if z < 0 {
        return Err(Fault::Range { path });
    }
    let n = z as u64;
    if n < low || high < n {
        return Err(Fault::Range { path });
    }
    Ok(n)
}

/// A number in a range.
#[tactic(auto, unfolding(crate::specs::Tables::number_in))]
pub fn number(path: Path, low: u64, high: u64, value: &Value) -> Result<u64, Fault>
    ensures value { result ≡ number_in path low high (view value.now) }
    ensures range { IfOk result (λ n. (low ≤ n) × (n ≤ high)) }
{
    match value.as_integer() {
        None => Err(Fault::Key { path }),
        Some(z) => within(path, low, high, z),
    }
}

/// A table that must be there.
pub fn table(path: Path, value: Option<&Value>) -> Result<&Table, Fault>
    ensures { let read = required path (λ v. typed path (as_table v))
        (option_map (λ v. view v.now) value.entry) in
        MatchResult result (λ t. read ≡ Ok (table_view t.now)) (λ e. read ≡ Err e) }
{
    let Some(value) = value else {
        return Err(Fault::Key { path });
    };
    match value.as_table() {
        None => Err(Fault::Key { path }),
        Some(table) => Ok(table),
    }
}

fn is_table(value: &Value) -> bool
    ensures { result ≡ is_some (as_table (view value.now)) }
{
    match value.as_table() {
        None => false,
        Some(_) => true,
    }
}

fn is_integer(value: &Value) -> bool
    ensures { result ≡ is_some (as_integer (view value.now)) }
{
    match value.as_integer() {
        None => false,
        Some(_) => true,
    }
}

fn are_tables(values: &[Value]) -> bool
    ensures { result ≡ are_tables (items_view values.now) }
{
    for value in values {
        if !is_table(value) {
            return false;
        }
    }
    true
}

/// Whether each element of an array is an integer.
pub fn are_integers(values: &[Value]) -> bool
    ensures { result ≡ are_integers (items_view values.now) }
{
    for value in values {
        if !is_integer(value) {
            return false;
        }
    }
    true
}

fn is_few(values: &[Value], most: usize) -> bool
    ensures value { result ≡ nat_le (item_count (items_view values.now)) most }
    ensures few { result ≡ true → length values.now ≤ most }
{
    values.len() <= most
}

#[tactic(auto, unfolding(crate::specs::Rules::tables_in))]
fn tables_of(path: Path, most: usize, value: &Value) -> Result<&[Value], Fault>
    ensures value { MatchResult result (λ t. tables_in path most (view value.now) ≡ Ok
        (items_view t.now)) (λ e. tables_in path most (view value.now) ≡ Err e) }
    ensures few { IfOk result (λ t. length t.now ≤ most) }
{
    let Some(values) = value.as_array() else {
        return Err(Fault::Key { path });
    };
    let values = values.as_slice();
    if !are_tables(values) {
        return Err(Fault::Key { path });
    }
    if !is_few(values, most) {
        return Err(Fault::Range { path });
    }
    Ok(values)
}

/// The tables of an array, none where it is missing.
pub fn tables(part: Part, key: u8, most: usize, value: Option<&Value>) -> Result<&[Value], Fault>
    ensures value { let read = optional no_items (tables_in (path_of part key) most)
        (option_map (λ v. view v.now) value.entry) in
        MatchResult result (λ t. read ≡ Ok (items_view t.now)) (λ e. read ≡ Err e) }
    ensures few { IfOk result (λ t. length t.now ≤ most) }
{
    match value {
        None => Ok(&[]),
        Some(value) => tables_of(Path { part, key }, most, value),
    }
}

// The slots of keys: numbers that mostly rise.
ghost use Rattle.std.specs.Prelude.{◌≡◌, ◌<◌, ◌≤◌, ◌^◌, ◌++◌, ◌∷◌, [], length, is_none, if◌then◌else◌, IfOk, IfSome, OnErr};
ghost use Rattle.script_reader.specs.KeySlots.{IsRising, is_above, key_slot, rank_of};

use std::alloc::{AllocError, Global};
use std::collections::BTreeMap;
use std::marker::Model;

/// Where a key stands in a map, which is searched from its beginning: the greatest first, since even keys that don't
/// all rise mostly do.
fn rank(key: u64) -> u64
    ensures { result ≡ rank_of key }
{
    u64::MAX - key
}

/// Whether a key is above the last of others, or there are none.
fn is_above(keys: &[u64], key: u64) -> bool
    ensures { result ≡ is_above keys.now key }
{
    let count = keys.len();
    count == 0 || keys[count - 1] < key
}

/// The slot of a key among keys that rise.
fn rising_slot(keys: &[u64], key: u64) -> Option<u32>
    requires few { length keys.now ≤ 2 ^ 32 }
    requires rise { IsRising keys.now }
    ensures { result ≡ key_slot keys.now key }
{
    if is_above(keys, key) {
        return None;
    }
    match keys.binary_search(&key) {
        Ok(slot) => Some(slot as u32),
        Err(_) => None,
    }
}

/// Distinct numbers in the order in which they were added. A number's place among them is its slot.
///
/// Mostly they rise, and as long as they do, one that is above the last is new. From the first on that doesn't rise,
/// all stand in a map too.
#[derive(Drop)]
pub struct KeySlots {
    keys: Vec<u64>,
    rising: usize,
    others: BTreeMap<u64, u32>,
}

impl Model for KeySlots {
    ghost use Rattle.std.specs.Prelude.{ℕ, List};
    ghost use Rattle.script_reader.specs.KeySlots.{AreIndexed};

    ghost Value = { List ℕ };

    ghost view = { λ s. s.keys.items };

    ghost invariant = { λ s. AreIndexed s.keys.items s.rising s.others };
}

impl KeySlots {
    /// No keys.
    pub fn new(alloc: Global) -> KeySlots
        ensures { result ≡ [] }
    {
        KeySlots {
            keys: Vec::new(alloc),
            rising: 0,
            others: BTreeMap::new(alloc),
        }
    }

    /// The slot of a key.
    pub fn slot(&self, key: u64) -> Option<u32>
        ensures value { result ≡ key_slot self.now key }
        ensures below { IfSome result (λ slot. slot < length self.now) }
    {
        match rising_slot(&self.keys[..self.rising], key) {
            Some(slot) => Some(slot),
            None => self.others.get(&rank(key)).copied(),
        }
    }

    /// Adds a key. The answer is whether it is new; one that isn't adds nothing.
    pub fn add(&mut self, key: u64) -> Result<bool, AllocError>
        requires { length self.old < 2 ^ 32 }
        ensures value { IfOk result (λ new. new ≡ is_none (key_slot self.old key)) }
        ensures keys { IfOk result (λ new. self.new ≡
            (if new then self.old ++ key ∷ [] else self.old)) }
        ensures err { OnErr result (self.new ≡ self.old) }
    {
        if self.rising == self.keys.len() && is_above(&self.keys, key) {
            self.keys.push(key)?;
            self.rising += 1;
            return Ok(true);
        }
        if rising_slot(&self.keys[..self.rising], key).is_some() {
            return Ok(false);
        }
        let next = self.keys.len() as u32;
        self.keys.push(key)?;
        let Ok(entry) = self.others.entry(rank(key)) else {
            self.keys.pop();
            return Err(AllocError);
        };
        let slot = *entry.or_insert(next);
        if slot != next {
            self.keys.pop();
            return Ok(false);
        }
        Ok(true)
    }
}

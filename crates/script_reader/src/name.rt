// Names of submissions.
ghost use Rattle.std.specs.Prelude.{◌≡◌, ◌<◌, ◌≤◌, ◌^◌, true, length, Some, IfOk, IfSome};
ghost use Rattle.script_reader.specs.Names.{is_letter, is_letter_or_digit, is_name, name_key, slot_of, slot_at, with_name};
ghost use Rattle.script_reader.specs.Outcomes.{Moves};

use crate::key_slots::KeySlots;
use crate::step::{NOT_A_NAME, StepError, TAKEN_NAME, UNKNOWN_NAME};
use std::alloc::Global;
use std::marker::Model;

fn is_letter(byte: u8) -> bool
    ensures { result ≡ is_letter byte }
{
    matches!(byte, b'a'..=b'z')
}

fn is_letter_or_digit(byte: u8) -> bool
    ensures { result ≡ is_letter_or_digit byte }
{
    is_letter(byte) || matches!(byte, b'0'..=b'9')
}

/// The number that a name's bytes write in base 256, the first byte the highest. None for a word that isn't a name.
#[tactic(auto, unfolding(crate::specs::Names::is_name))]
fn name_key(word: &[u8]) -> Option<u64>
    ensures { result ≡ name_key word.now }
{
    if word.is_empty() || 8 < word.len() || !is_letter(word[0]) {
        return None;
    }
    let mut key = 0u64;
    for byte in word {
        if !is_letter_or_digit(*byte) {
            return None;
        }
        key = key * 256 + u64::from(*byte);
    }
    Some(key)
}

/// The names of a section's submissions in their order. A name's place among them is its slot.
#[derive(Drop)]
pub struct Names<'a> {
    words: Vec<&'a [u8]>,
    slots: KeySlots,
}

impl<'a> Model for Names<'a> {
    ghost use Rattle.std.specs.Prelude.{ℕ, List, map};
    ghost use Rattle.script_reader.specs.Names.{AreKeysOf};

    ghost Value = { List (List ℕ) };

    ghost view = { λ n. map (λ x. x.now) n.words.items };

    ghost invariant = { λ n. AreKeysOf n.slots (map (λ x. x.now) n.words.items) };
}

impl<'a> Names<'a> {
    /// No names, as before a section's first submission.
    pub fn new(alloc: Global) -> Names<'a>
        ensures { length result ≡ 0 }
    {
        Names {
            words: Vec::new(alloc),
            slots: KeySlots::new(alloc),
        }
    }

    /// The number of names.
    pub fn len(&self) -> usize
        ensures { result ≡ length self.now }
    {
        self.words.len()
    }

    /// The slot of the last name, where it is this one. All that are kept are names, so this one is a name then.
    fn last_slot(&self, word: &[u8]) -> Option<u32>
        ensures slot { IfSome result (λ slot. slot_of self.now word.now ≡ Some slot) }
        ensures named { IfSome result (λ slot. is_name word.now ≡ true) }
    {
        let count = self.words.len();
        if count != 0 && self.words[count - 1] == word {
            return Some((count - 1) as u32);
        }
        None
    }

    /// The slot of a name that a submission before has. The last is meant most often.
    #[tactic(auto, unfolding(crate::specs::Names::slot_at))]
    pub fn slot_at(&self, word: &[u8]) -> Result<u32, u8>
        ensures value { result ≡ slot_at self.now word.now }
        ensures below { IfOk result (λ slot. slot < length self.now) }
    {
        if let Some(slot) = self.last_slot(word) {
            return Ok(slot);
        }
        let Some(key) = name_key(word) else {
            return Err(NOT_A_NAME);
        };
        match self.slots.slot(key) {
            Some(slot) => Ok(slot),
            None => Err(UNKNOWN_NAME),
        }
    }

    /// Adds a new name. Its slot is the number of names before it.
    #[tactic(auto, unfolding(crate::specs::Names::with_name))]
    pub fn add(&mut self, word: &'a [u8]) -> Result<(), StepError>
        requires { length self.old < 2 ^ 32 }
        ensures { Moves result self.new (with_name self.old word.entry.now) }
    {
        let Some(key) = name_key(word) else {
            return Err(StepError::Code(NOT_A_NAME));
        };
        self.words.push(word)?;
        match self.slots.add(key) {
            Ok(true) => Ok(()),
            Ok(false) => {
                self.words.pop();
                Err(StepError::Code(TAKEN_NAME))
            }
            Err(error) => {
                self.words.pop();
                Err(StepError::from(error))
            }
        }
    }
}

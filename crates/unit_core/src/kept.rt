// What is kept of the events that came: of each its submission, while that is open.
ghost use Rattle.std.specs.Prelude.{◌≡◌, ℕ, ◌+◌, ◌/◌, ◌%◌, ◌^◌, ◌<◌, ◌≤◌, true, IfOk, IfSome, OnSome, Some, List, [], ◌∷◌, ◌++◌, length, option_map, slice_set};
ghost use Rattle.std.specs.List.{AllByRecursion};
ghost use Rattle.event_words.specs.Valid.{IsValidAccess};
ghost use Rattle.event_words.specs.Word.{event_of_word};
ghost use Rattle.event_words.specs.declared.event.Event.TheVariants.{Submit};
ghost use Rattle.unit_core.specs.Places.{access_of, open_access, submission_in, nothing_kept, IsKept};
ghost use Rattle.unit_core.specs.KeptWords.{kept_of, kept_of_event, wide_at, is_submit_of, is_submit_word, HasRoom, KeepsRoom, IsWordOf, wides_of};

use crate::NoMemory;
use event_words::{Access, Kind, SUBMIT_KIND, SubmitWord, unpack_submit};
use std::alloc::Global;
use std::marker::Model;

/// What is kept of an event: where it is a submission that is open, its unit, its caller and its access, field
/// by field, so that it takes 16 bytes.
#[derive(Clone, Copy, Debug, PartialEq, Eq)]
pub struct Kept {
    pub addr: u64,
    pub len: u16,
    pub rrid: u8,
    pub kind: Kind,
    pub unit: u8,
    pub caller: u8,
    pub is_open: bool,
}

/// What is kept of a submission that is open.
fn kept_of(unit: u8, caller: u8, access: &Access) -> Kept
    ensures { result ≡ kept_of unit caller access.now }
{
    Kept {
        addr: access.addr,
        len: access.len,
        rrid: access.rrid,
        kind: access.kind,
        unit,
        caller,
        is_open: true,
    }
}

/// What the word of a Submit says.
#[inline(always)]
fn said_by(word: u64) -> SubmitWord
    requires kind { word / 2 ^ 61 ≡ 3 }
    requires submit { is_submit_word word ≡ true }
    ensures value { event_of_word word ≡ Some (Submit result.unit result.caller result.access) }
    ensures valid { IsValidAccess result.access }
{
    match unpack_submit(word) {
        Some(said) => said,
        None => unreachable!(),
    }
}

/// Whether it is the word of a Submit to this unit by this caller: its bits 63:61 are the kind, 60:56 the caller and 55:54
/// the unit.
#[inline(always)]
#[tactic(auto, using(crate::proofs::KeptWords::submit_test))]
fn is_submit_of(word: u64, unit: u8, caller: u8) -> bool
    ensures { result ≡ is_submit_of word unit caller }
{
    unit < 4 && caller < 32 && word >> 54 == (SUBMIT_KIND << 7) + caller as u64 * 4 + unit as u64
}

/// The requester of the word of a Submit, its bits 53:48.
#[inline(always)]
fn requester_at(word: u64) -> u8
    ensures { result ≡ word % 2 ^ 54 / 2 ^ 48 }
{
    (word >> 48 & 63) as u8
}

/// The requester of the wide submission of a number, as `wide_access` has it.
#[inline(never)]
fn wide_requester(wide: &[Kept], number: u64, unit: u8, caller: u8) -> Option<u8>
    requires { number ≤ length wide.now }
    ensures { result ≡ option_map (λ access. access.rrid)
        (access_of unit caller (submission_in (wide_at wide.now number))) }
{
    match wide_access(wide, number, unit, caller) {
        Some(access) => Some(access.rrid),
        None => None,
    }
}

/// The access of the wide submission of a number, counted from 1, where it is of this unit and this caller.
#[inline(never)]
fn wide_access(wide: &[Kept], number: u64, unit: u8, caller: u8) -> Option<Access>
    requires { number ≤ length wide.now }
    ensures { result ≡ access_of unit caller (submission_in (wide_at wide.now number)) }
{
    if number == 0 {
        return None;
    }
    let here = wide[number as usize - 1];
    if here.is_open && here.unit == unit && here.caller == caller {
        Some(Access {
            rrid: here.rrid,
            kind: here.kind,
            addr: here.addr,
            len: here.len,
        })
    } else {
        None
    }
}

/// What is kept of each event, in order of place, in 8 bytes each. The word of a submission that is open says all of it,
/// unless it is a wide one, whose access stands beside them.
#[derive(Drop)]
pub struct KeptEvents {
    // of each event 0, or the word of a Submit that is open, or one more than the number in `wide` of a Wide that is
    words: Vec<u64>,
    // the wide submissions that were kept
    wide: Vec<Kept>,
}

impl Model for KeptEvents {
    ghost use Rattle.std.specs.Prelude.{vec_capacity};
    ghost use Rattle.unit_core.specs.KeptWords.{KeptView, AreKept, kept_view};

    ghost Value = { KeptView };

    ghost view = { λ k. kept_view k.words.items k.wide.items (vec_capacity k.words) };

    ghost invariant = { λ k.
        AreKept k.words.items k.wide.items (vec_capacity k.words) (vec_capacity k.wide) };
}

impl KeptEvents {
    /// Of no event, with room for so many. All memory is taken here, and written as the events come.
    pub fn open(alloc: Global, places: u32) -> Result<KeptEvents, NoMemory>
        ensures { IfOk result (λ kept. kept ≡ record { items = []; places = places; wides = 0 }) }
    {
        let Ok(words) = Vec::with_capacity(alloc, places as usize) else {
            return Err(NoMemory);
        };
        let Ok(wide) = Vec::with_capacity(alloc, places as usize) else {
            return Err(NoMemory);
        };
        Ok(KeptEvents { words, wide })
    }

    /// One event more, of which nothing is kept.
    #[inline(always)]
    pub fn add(&mut self)
        requires { length self.old.items < self.old.places }
        ensures items { self.new.items ≡ self.old.items ++ nothing_kept ∷ [] }
        ensures places { self.new.places ≡ self.old.places }
        ensures wides { self.new.wides ≡ self.old.wides }
    {
        self.words.push_reserved(0);
    }

    /// A submission at a place, by this word of a Submit, or else as a wide one.
    #[inline(always)]
    pub fn keep(&mut self, place: u32, word: Option<u64>, unit: u8, caller: u8, access: &Access)
        requires place { place < length self.old.items }
        requires room { HasRoom place self.old }
        requires word { IfSome word (IsWordOf unit caller access.now) }
        ensures items { self.new.items
            ≡ slice_set self.old.items place (kept_of unit caller access.now) }
        ensures room { KeepsRoom (wides_of word) self.old self.new }
    {
        match word {
            Some(word) => self.keep_word(place, word),
            None => self.keep_wide(place, kept_of(unit, caller, access)),
        }
    }

    /// A submission at a place, by its word.
    #[inline(always)]
    fn keep_word(&mut self, place: u32, word: u64)
        requires place { place < length self.old.items }
        requires kind { word / 2 ^ 61 ≡ 3 }
        requires submit { is_submit_word word ≡ true }
        ensures items { self.new.items
            ≡ slice_set self.old.items place (kept_of_event (event_of_word word)) }
        ensures room { KeepsRoom 0 self.old self.new }
    {
        self.words[place as usize] = word;
    }

    /// A submission at a place, beside the words.
    #[inline(never)]
    fn keep_wide(&mut self, place: u32, submission: Kept)
        requires place { place < length self.old.items }
        requires room { HasRoom place self.old }
        ensures items { self.new.items ≡ slice_set self.old.items place submission }
        ensures room { KeepsRoom 1 self.old self.new }
    {
        self.wide.push_reserved(submission);
        self.words[place as usize] = self.wide.len() as u64;
    }

    /// Nothing any more, at a place.
    #[inline(always)]
    pub fn clear(&mut self, place: u32)
        requires { place < length self.old.items }
        ensures items { self.new.items ≡ slice_set self.old.items place nothing_kept }
        ensures room { KeepsRoom 0 self.old self.new }
    {
        self.words[place as usize] = 0;
    }

    /// The requester of the caller's open submission at a place of a unit.
    #[inline(always)]
    pub fn open_requester(&self, unit: u8, caller: u8, place: u32) -> Option<u8>
        ensures value { result ≡ option_map (λ access. access.rrid)
            (open_access self.now.items unit caller place) }
        ensures inside { OnSome result (place < length self.now.items) }
    {
        if place as usize >= self.words.len() {
            return None;
        }
        let word = self.words[place as usize];
        if is_submit_of(word, unit, caller) {
            Some(requester_at(word))
        } else if word >> 61 == SUBMIT_KIND {
            None
        } else {
            wide_requester(self.wide.as_slice(), word, unit, caller)
        }
    }

    /// The same, by the words alone: none is found where the submission is a wide one.
    #[inline(always)]
    pub fn narrow_requester(&self, unit: u8, caller: u8, place: u32) -> Option<u8>
        ensures value { IfSome result (λ rrid. option_map (λ access. access.rrid)
            (open_access self.now.items unit caller place) ≡ Some rrid) }
        ensures all { self.now.wides ≡ 0 → result ≡ option_map (λ access. access.rrid)
            (open_access self.now.items unit caller place) }
        ensures inside { OnSome result (place < length self.now.items) }
    {
        if place as usize >= self.words.len() {
            return None;
        }
        let word = self.words[place as usize];
        if is_submit_of(word, unit, caller) {
            Some(requester_at(word))
        } else {
            None
        }
    }

    /// The access of the caller's open submission at a place of a unit.
    pub fn open_access(&self, unit: u8, caller: u8, place: u32) -> Option<Access>
        requires { AllByRecursion IsKept self.now.items }
        ensures valid { IfSome result (λ access. IsValidAccess access) }
        ensures value { result ≡ open_access self.now.items unit caller place }
        ensures inside { OnSome result (place < length self.now.items) }
    {
        if place as usize >= self.words.len() {
            return None;
        }
        let word = self.words[place as usize];
        if word >> 61 != SUBMIT_KIND {
            return wide_access(self.wide.as_slice(), word, unit, caller);
        }
        let said = said_by(word);
        if said.unit == unit && said.caller == caller {
            Some(said.access)
        } else {
            None
        }
    }
}

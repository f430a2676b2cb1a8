// One word on the units and the aims, which may be no event's. Writes, reads, submissions and judgements, of which most of a
// history is made, have a function each. Where the reply isn't asked for, any is answered.
ghost use Rattle.std.specs.List.{AllByRecursion};
ghost use Rattle.std.specs.Prelude.{◌≡◌, ℕ, ◌/◌, ◌^◌, true, List, length};
ghost use Rattle.unit_core.specs.Units.{word_step};
ghost use Rattle.unit_core.specs.Parts.{CanWrite};
ghost use Rattle.unit_core.specs.Places.{IsKept, AllAgree, IsWordTaken, MayStep, states_of};
ghost use Rattle.unit_core.specs.KeptWords.{HasRoom, KeepsRoom};
ghost use Rattle.unit_core.specs.declared.kept.Kept.{Kept};

use crate::kept::KeptEvents;
use crate::kinds::{judge_on, judge_unasked_on, read_on, step, submit_on, write_on};
use crate::parts::IopmpUnit;
use event_words::{
    Event, JUDGE_KIND, Reply, SUBMIT_KIND, WRITE_KIND, unpack, unpack_judge, unpack_submit,
    unpack_write,
};

/// The kind of the word of a RegRead, its bits 63:61.
const READ_KIND: u64 = 2;

/// A word of the kind of a RegWrite.
#[inline(never)]
fn write_word(units: &mut [IopmpUnit], word: u64, asked: bool) -> Reply
    requires may { AllByRecursion CanWrite units.old }
    requires kind { word / 2 ^ 61 ≡ 1 }
    ensures taken { (place : ℕ) (aims : List ℕ) (kept : List Kept) → AllAgree 0 units.old kept →
        AllByRecursion IsKept kept →
        IsWordTaken place word units.old units.new aims aims kept kept }
    ensures reply { asked ≡ true → (place : ℕ) (aims : List ℕ) (kept : List Kept) →
        AllAgree 0 units.old kept → result ≡ (word_step place
        (record { units = states_of 0 units.old kept; aims = aims }) word).1 }
{
    let said = unpack_write(word);
    write_on(units, said.unit, said.index, said.value, asked)
}

/// A word of the kind of a RegRead, which changes nothing.
#[inline(never)]
fn read_word(units: &[IopmpUnit], word: u64, asked: bool) -> Reply
    requires { word / 2 ^ 61 ≡ 2 }
    ensures { asked ≡ true → (place : ℕ) (aims : List ℕ) (kept : List Kept) →
        AllAgree 0 units.now kept → result ≡ (word_step place
        (record { units = states_of 0 units.now kept; aims = aims }) word).1 }
{
    if !asked {
        return Reply::NoSuch;
    }
    match unpack(word) {
        Some(Event::RegRead { unit, index, .. }) => read_on(units, unit, index),
        _ => Reply::NoSuch,
    }
}

/// A word of the kind of a Submit.
#[inline(never)]
fn submit_word(units: &mut [IopmpUnit], kept: &mut KeptEvents, place: u32, word: u64) -> Reply
    requires ready { MayStep place units.old kept.old.items }
    requires room { HasRoom place kept.old }
    requires kind { word / 2 ^ 61 ≡ 3 }
    ensures keeps { KeepsRoom 0 kept.old kept.new }
    ensures taken { (aims : List ℕ) →
        IsWordTaken place word units.old units.new aims aims kept.old.items kept.new.items }
    ensures reply { (aims : List ℕ) → result ≡ (word_step place
        (record { units = states_of 0 units.old kept.old.items; aims = aims }) word).1 }
{
    match unpack_submit(word) {
        None => Reply::NoSuch,
        Some(said) => {
            submit_on(
                units,
                kept,
                place,
                Some(word),
                said.unit,
                said.caller,
                &said.access,
            )
        }
    }
}

/// A word of the kind of a Judge.
#[inline(never)]
fn judge_word(units: &mut [IopmpUnit], kept: &mut KeptEvents, word: u64) -> Reply
    requires agrees { AllAgree 0 units.old kept.old.items }
    requires all_valid { AllByRecursion IsKept kept.old.items }
    requires kind { word / 2 ^ 61 ≡ 4 }
    ensures keeps { KeepsRoom 0 kept.old kept.new }
    ensures taken { (place : ℕ) (aims : List ℕ) → IsWordTaken place word
        units.old units.new aims aims kept.old.items kept.new.items }
    ensures reply { (place : ℕ) (aims : List ℕ) → result ≡ (word_step place
        (record { units = states_of 0 units.old kept.old.items; aims = aims }) word).1 }
{
    match unpack_judge(word) {
        None => Reply::NoSuch,
        Some(said) => judge_on(units, kept, said.unit, said.caller, said.place),
    }
}

/// A word of the kind of a Judge, to which no one asks for the reply.
#[inline(never)]
fn judge_unasked_word(units: &mut [IopmpUnit], kept: &mut KeptEvents, word: u64)
    requires agrees { AllAgree 0 units.old kept.old.items }
    requires all_valid { AllByRecursion IsKept kept.old.items }
    requires kind { word / 2 ^ 61 ≡ 4 }
    ensures keeps { KeepsRoom 0 kept.old kept.new }
    ensures taken { (place : ℕ) (aims : List ℕ) → IsWordTaken place word
        units.old units.new aims aims kept.old.items kept.new.items }
{
    if let Some(said) = unpack_judge(word) {
        judge_unasked_on(units, kept, said.unit, said.caller, said.place);
    }
}

/// A word of any kind.
#[inline(never)]
fn any_word(
    place: u32,
    word: u64,
    units: &mut [IopmpUnit],
    aims: &mut [u64],
    kept: &mut KeptEvents,
) -> Reply
    requires ready { MayStep place units.old kept.old.items }
    requires room { HasRoom place kept.old }
    requires callers { length aims.old ≡ 32 }
    ensures keeps { KeepsRoom 1 kept.old kept.new }
    ensures taken { IsWordTaken place word
        units.old units.new aims.old aims.new kept.old.items kept.new.items }
    ensures reply { result ≡ (word_step place
        (record { units = states_of 0 units.old kept.old.items; aims = aims.old }) word).1 }
{
    match unpack(word) {
        None => Reply::NoSuch,
        Some(event) => step(units, aims, kept, place, event),
    }
}

/// One word, by its kind.
#[inline(always)]
pub fn step_word(
    units: &mut [IopmpUnit],
    aims: &mut [u64],
    kept: &mut KeptEvents,
    place: u32,
    word: u64,
    asked: bool,
) -> Reply
    requires ready { MayStep place units.old kept.old.items }
    requires room { HasRoom place kept.old }
    requires callers { length aims.old ≡ 32 }
    ensures keeps { KeepsRoom 1 kept.old kept.new }
    ensures taken { IsWordTaken place word
        units.old units.new aims.old aims.new kept.old.items kept.new.items }
    ensures reply { asked ≡ true → result ≡ (word_step place
        (record { units = states_of 0 units.old kept.old.items; aims = aims.old }) word).1 }
{
    match word >> 61 {
        WRITE_KIND => write_word(units, word, asked),
        SUBMIT_KIND => submit_word(units, kept, place, word),
        JUDGE_KIND => {
            if asked {
                return judge_word(units, kept, word);
            }
            judge_unasked_word(units, kept, word);
            Reply::NoSuch
        }
        READ_KIND => read_word(units, word, asked),
        _ => any_word(place, word, units, aims, kept),
    }
}

// The three kinds of word that most of a history is made of, each decoded by itself.
ghost use Rattle.std.specs.Prelude.{◌≡◌, ◌/◌, ◌^◌, IfSome, Some, option_map};
ghost use Rattle.event_words.specs.Valid.{IsValidAccess};
ghost use Rattle.event_words.specs.Word.{event_of_word};
ghost use Rattle.event_words.specs.declared.event.Event.TheVariants.{RegWrite, Submit, Judge};

use crate::Access;
use crate::word::{access_at, caller_at, rest_of, unit_at};

/// The kind of the word of a RegWrite, its bits 63:61.
pub const WRITE_KIND: u64 = 1;

/// The kind of the word of a Submit, its bits 63:61.
pub const SUBMIT_KIND: u64 = 3;

/// The kind of the word of a Judge, its bits 63:61.
pub const JUDGE_KIND: u64 = 4;

/// What the word of a RegWrite says.
#[derive(Clone, Copy, Debug, PartialEq, Eq)]
pub struct WriteWord {
    pub unit: u8,
    pub caller: u8,
    pub index: u32,
    pub value: u32,
}

/// What the word of a Submit says.
#[derive(Clone, Copy, Debug, PartialEq, Eq)]
pub struct SubmitWord {
    pub unit: u8,
    pub caller: u8,
    pub access: Access,
}

/// What the word of a Judge says.
#[derive(Clone, Copy, Debug, PartialEq, Eq)]
pub struct JudgeWord {
    pub unit: u8,
    pub caller: u8,
    pub place: u32,
}

/// What a word of the kind `WRITE_KIND` says. Each is an event's.
#[inline(always)]
pub fn unpack_write(word: u64) -> WriteWord
    requires { word / 2 ^ 61 ≡ 1 }
    ensures { event_of_word word
        ≡ Some (RegWrite result.unit result.caller result.index result.value) }
{
    let rest = rest_of(word);
    WriteWord {
        unit: unit_at(word),
        caller: caller_at(word),
        index: (rest >> 32) as u32,
        value: (rest & 0xffff_ffff) as u32,
    }
}

/// What a word of the kind `SUBMIT_KIND` says. `None` exactly where it is no event's.
#[inline(always)]
pub fn unpack_submit(word: u64) -> Option<SubmitWord>
    requires { word / 2 ^ 61 ≡ 3 }
    ensures value { event_of_word word ≡ option_map (λ s. Submit s.unit s.caller s.access) result }
    ensures valid { IfSome result (λ s. IsValidAccess s.access) }
{
    let access = access_at(rest_of(word))?;
    Some(SubmitWord {
        unit: unit_at(word),
        caller: caller_at(word),
        access,
    })
}

/// What a word of the kind `JUDGE_KIND` says. `None` exactly where it is no event's.
#[inline(always)]
pub fn unpack_judge(word: u64) -> Option<JudgeWord>
    requires { word / 2 ^ 61 ≡ 4 }
    ensures { event_of_word word ≡ option_map (λ j. Judge j.unit j.caller j.place) result }
{
    let place = rest_of(word);
    if place >= 1 << 24 {
        return None;
    }
    Some(JudgeWord {
        unit: unit_at(word),
        caller: caller_at(word),
        place: place as u32,
    })
}

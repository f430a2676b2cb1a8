// The words of one unit's registers.
ghost use Rattle.std.specs.Prelude.{◌≡◌, ◌==◌, ℕ, ◌+◌, ◌*◌, ◌^◌, ◌<◌, IfOk, map, length};
ghost use Rattle.std.specs.List.{range_with_len};
ghost use Rattle.event_words.specs.Valid.{IsValidShape};
ghost use Rattle.event_words.specs.Registers.{has_bit, has_pair_bit, bits_of, index_of, word_at, written, merged, at_reset, reset_word, index_count};
ghost use Rattle.event_words.specs.Guards.{reg, whole};
ghost use Rattle.event_words.specs.Denials.{with_error};
ghost use Rattle.event_words.specs.WellFormed.{IsWellFormed, IsInside};
ghost use Rattle.register_fields.specs.Rights.{rights_bits};

use crate::fields::{FieldValue, sum_of_register};
use crate::layout::{ERR_INFO, ERR_REQADDR, ERR_REQADDRH, ERR_REQID, register_at};
use crate::rights::Rights;
use bitflags::Flags;
use event_words::{Register, Shape};
use std::alloc::{AllocError, Global};
use std::marker::Model;

/// There was no memory.
#[derive(Clone, Copy, Debug, PartialEq, Eq)]
pub struct NoMemory;

/// One bit of a word, 0 to 31, as a test.
pub fn has_bit(word: u32, bit: u32) -> bool
    requires { bit < 32 }
    ensures { result ≡ has_bit word bit }
{
    (word >> bit) % 2 == 1
}

/// Two registers read as one number of 64 bits: the low one has the bits up to 31, the high one those
/// from 32 on.
pub fn joined(low: u32, high: u32) -> u64
    ensures value { result ≡ high * 2 ^ 32 + low }
    ensures bits { (i : ℕ) → has_bit result i ≡ has_pair_bit low high i }
{
    (high as u64) << 32 | low as u64
}

/// The words at reset, by index.
#[inline(always)]
fn reset_word(shape: &Shape, index: u32) -> u32
    requires { IsValidShape shape.now }
    ensures { result ≡ reset_word shape.now index }
{
    match register_at(shape, index) {
        Some(register) => sum_of_register(shape, register, FieldValue::Reset),
        None => 0,
    }
}

fn reset_words(alloc: Global, shape: &Shape) -> Result<Vec<u32>, AllocError>
    requires { IsValidShape shape.now }
    ensures words { IfOk result (λ v. v.items ≡ map (reset_word shape.now)
        (range_with_len 0 (index_count shape.now))) }
    ensures len { IfOk result (λ v. length v.items ≡ index_count shape.now) }
{
    let count = 2048 + 4 * shape.entries as u32;
    let mut words = Vec::with_capacity(alloc, count as usize)?;
    for index in 0..count {
        words.push(reset_word(shape, index))?;
    }
    Ok(words)
}

fn merged(keep: u32, old: u32, new: u32) -> u32
    ensures { result ≡ merged keep old new }
{
    old & keep | new & !keep
}

/// The registers of one unit: its shape, and the word at each index.
#[derive(Drop)]
pub struct Regs {
    shape: Shape,
    words: Vec<u32>,
}

impl Model for Regs {
    ghost use Rattle.event_words.specs.Registers.{Registers};
    ghost use Rattle.event_words.specs.WellFormed.{IsWellFormed};

    ghost Value = { Registers };

    ghost view = { λ a. record { shape = a.shape; words = a.words.items } };

    ghost invariant = { λ a. IsWellFormed (record { shape = a.shape; words = a.words.items }) };
}

impl Regs {
    /// All registers of the shape, which must be valid, at their reset values.
    #[inline(always)]
    pub fn new(alloc: Global, shape: Shape) -> Result<Regs, NoMemory>
        requires { IsValidShape shape }
        ensures { IfOk result (λ regs. regs ≡ at_reset shape) }
    {
        let Ok(words) = reset_words(alloc, &shape) else {
            return Err(NoMemory);
        };
        Ok(Regs { shape, words })
    }

    /// The shape, which no call changes. It is valid, and each word has bits of its register's
    /// fields alone.
    pub fn shape(&self) -> &Shape
        ensures value { result.now ≡ self.now.shape }
        ensures well_formed { IsWellFormed self.now }
    {
        &self.shape
    }

    /// The word at an index (a byte offset divided by 4), and 0 where there is no register. For
    /// MDSTALL it is the selection with bit 0 clear, for RRIDSCP the selected requester alone.
    pub fn read(&self, index: u32) -> u32
        ensures value { result ≡ word_at self.now index }
        ensures well_formed { IsWellFormed self.now }
    {
        match self.words.get(index as usize) {
            Some(word) => *word,
            None => 0,
        }
    }

    /// The word of a register, and 0 where the shape doesn't have it.
    pub fn word(&self, register: Register) -> u32
        requires { index_of register < 2 ^ 32 }
        ensures value { result ≡ reg self.now register }
        ensures well_formed { IsWellFormed self.now }
    {
        self.read(register.index())
    }

    /// A register of the SRCMD table and the one after it, which is its high register, read as one number
    /// of 64 bits: domain m has bit m + 1 of SRCMD_EN, SRCMD_R and SRCMD_W, requester s the bits 2 s and
    /// 2 s + 1 of SRCMD_PERM.
    pub fn pair(&self, low: Register) -> u64
        requires { index_of low + 1 < 2048 }
        ensures { (i : ℕ) → has_bit result i ≡ has_pair_bit (reg self.now low)
            (word_at self.now (index_of low + 1)) i }
    {
        let index = low.index() as usize;
        joined(self.words[index], self.words[index + 1])
    }

    /// The rights of an entry of the shape: the bits r, w and x of its ENTRY_CFG.
    pub fn rights(&self, entry: u16) -> Rights
        requires { entry < self.now.shape.entries }
        ensures { rights_bits result ≡ bits_of 0 3 (reg self.now (Register.EntryCfg entry)) }
    {
        let word = self.word(Register::EntryCfg(entry as u32));
        Rights::from_bits_retain((word % 8) as u8)
    }

    /// Writes the register at an index. The bits of `keep_mask` stay, the others follow their
    /// field's rule, and bits outside the fields stay 0. An index that is no register changes
    /// nothing, and all other registers stay.
    pub fn write(&mut self, index: u32, value: u32, keep_mask: u32)
        ensures { self.new ≡ written self.old index value keep_mask }
    {
        if let Some(register) = register_at(&self.shape, index) {
            let old = self.words[index as usize];
            let new = sum_of_register(&self.shape, register, FieldValue::Ruled(old, value));
            self.words[index as usize] = merged(keep_mask, old, new);
        }
    }

    /// Sets ERR_INFO, ERR_REQADDR, ERR_REQADDRH and ERR_REQID to these words, which have bits of
    /// their registers' fields alone. All other registers stay.
    pub fn put_error(&mut self, info: u32, addr: u32, addrh: u32, id: u32)
        requires info { IsInside (whole self.old.shape Register.ErrInfo) info }
        requires addrh { IsInside (whole self.old.shape Register.ErrReqaddrh) addrh }
        ensures { self.new ≡ with_error self.old info addr addrh id }
    {
        self.words[ERR_INFO as usize] = info;
        self.words[ERR_REQADDR as usize] = addr;
        self.words[ERR_REQADDRH as usize] = addrh;
        self.words[ERR_REQID as usize] = id;
    }
}

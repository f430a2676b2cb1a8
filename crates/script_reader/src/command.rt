// The commands that lines write.
ghost use Rattle.std.specs.Prelude.{◌≡◌, ◌<◌, ◌≤◌, ◌^◌, ℕ, true, false, length, codes, IfOk};
ghost use Rattle.event_words.specs.Valid.{IsValidAccess};
ghost use Rattle.event_words.specs.Sections.{IsMax, is_submit};
ghost use Rattle.script_reader.specs.Sound.{IsGoodStages, IsGoodCommand};
ghost use Rattle.script_reader.specs.Words.{is_word_at};
ghost use Rattle.script_reader.specs.Commands.{unit_at, index_at, value_at, max_at, kind_at, access_at, stage_at, stages_at, write_at, read_at, submit_at, judge_at, settle_at, until_at, through_at, command_at};

use crate::name::Names;
use crate::number::{number, number_within};
use crate::step::{ABSENT_UNIT, MISPLACED, MISSHAPEN, NOT_A_KIND, OUT_OF_RANGE};
use crate::words::Words;
use event_words::{Access, Command, Kind, Stages};

#[inline(always)]
#[tactic(auto, unfolding(crate::specs::Commands::unit_at))]
fn unit(units: u8, word: &[u8]) -> Result<u8, u8>
    ensures value { result ≡ unit_at units word.now }
    ensures there { IfOk result (λ unit. unit < units) }
{
    let n = number(word)?;
    if n >= u64::from(units) {
        return Err(ABSENT_UNIT);
    }
    Ok(n as u8)
}

#[inline(always)]
#[tactic(auto, unfolding(crate::specs::Commands::index_at))]
fn index(word: &[u8]) -> Result<u32, u8>
    ensures value { result ≡ index_at word.now }
    ensures below { IfOk result (λ index. index < 2 ^ 22) }
{
    let offset = number_within(word, 0, 0xffffff)?;
    if offset % 4 != 0 {
        return Err(OUT_OF_RANGE);
    }
    Ok((offset / 4) as u32)
}

#[inline(always)]
fn value(word: &[u8]) -> Result<u32, u8>
    ensures value { result ≡ value_at word.now }
    ensures below { IfOk result (λ n. n < 2 ^ 32) }
{
    let n = number_within(word, 0, 0xffffffff)?;
    Ok(n as u32)
}

#[inline(always)]
fn max(word: &[u8]) -> Result<u32, u8>
    ensures value { result ≡ max_at word.now }
    ensures within { IfOk result (λ max. IsMax max) }
{
    let n = number_within(word, 1, 4096)?;
    Ok(n as u32)
}

#[tactic(auto, unfolding(crate::specs::Commands::kind_at))]
fn kind(word: &[u8]) -> Result<Kind, u8>
    ensures { result ≡ kind_at word.now }
{
    if word == b"r".as_slice() {
        Ok(Kind::Read)
    } else if word == b"w".as_slice() {
        Ok(Kind::Write)
    } else if word == b"x".as_slice() {
        Ok(Kind::Fetch)
    } else {
        Err(NOT_A_KIND)
    }
}

/// The access that four words from word `i` on write.
#[tactic(auto, unfolding(crate::specs::Commands::access_at))]
fn access(words: &Words<'_>, i: usize) -> Result<Access, u8>
    requires { i ≤ 5 }
    ensures value { result ≡ access_at words.now i }
    ensures valid { IfOk result (λ access. IsValidAccess access) }
{
    let rrid = number_within(words.word(i), 0, 63)?;
    let kind = kind(words.word(i + 1))?;
    let addr = number(words.word(i + 2))?;
    let len = number_within(words.word(i + 3), 1, 4096)?;
    if addr > (1 << 52) - len {
        return Err(OUT_OF_RANGE);
    }
    Ok(Access {
        rrid: rrid as u8,
        kind,
        addr,
        len: len as u16,
    })
}

#[tactic(auto, unfolding(crate::specs::Commands::stage_at))]
fn stage(units: u8, words: &Words<'_>, count: usize, i: usize) -> Result<u8, u8>
    requires i { i ≤ 3 }
    requires some { 1 ≤ units }
    ensures value { result ≡ stage_at units words.now count i }
    ensures there { IfOk result (λ unit. unit < units) }
    ensures spare { IfOk result (λ unit. count ≤ i → unit ≡ 0) }
{
    if i < count {
        unit(units, words.word(i + 1))
    } else {
        Ok(0)
    }
}

#[tactic(auto, unfolding(crate::specs::Commands::stages_at))]
fn stages(units: u8, words: &Words<'_>, count: usize) -> Result<Stages, u8>
    requires some { 1 ≤ units }
    requires few { units ≤ 4 }
    requires one { 1 ≤ count }
    requires four { count ≤ 4 }
    ensures value { result ≡ stages_at units words.now count }
    ensures good { IfOk result (λ stages. IsGoodStages units stages) }
{
    let first = stage(units, words, count, 0)?;
    let second = stage(units, words, count, 1)?;
    let third = stage(units, words, count, 2)?;
    let fourth = stage(units, words, count, 3)?;
    Ok(Stages {
        count: count as u8,
        units: [first, second, third, fourth],
    })
}

/// The command of a line `w`.
#[inline(always)]
#[tactic(auto, unfolding(crate::specs::Commands::write_at))]
pub fn write(units: u8, words: &Words<'_>) -> Result<Command, u8>
    requires some { 1 ≤ units }
    requires few { units ≤ 4 }
    ensures value { result ≡ write_at units words.now }
    ensures good { IfOk result (λ command. (slots : ℕ) → IsGoodCommand units slots command) }
    ensures other { IfOk result (λ command. is_submit command ≡ false) }
{
    if words.len() != 4 {
        return Err(MISSHAPEN);
    }
    let unit = unit(units, words.word(1))?;
    let index = index(words.word(2))?;
    let value = value(words.word(3))?;
    Ok(Command::Write { unit, index, value })
}

#[tactic(auto, unfolding(crate::specs::Commands::read_at))]
fn read(units: u8, words: &Words<'_>) -> Result<Command, u8>
    requires some { 1 ≤ units }
    requires few { units ≤ 4 }
    ensures value { result ≡ read_at units words.now }
    ensures good { IfOk result (λ command. (slots : ℕ) → IsGoodCommand units slots command) }
    ensures other { IfOk result (λ command. is_submit command ≡ false) }
{
    if words.len() != 3 {
        return Err(MISSHAPEN);
    }
    let unit = unit(units, words.word(1))?;
    let index = index(words.word(2))?;
    Ok(Command::Read { unit, index })
}

/// The submission of a line `t`, at a slot. Its name isn't read.
#[tactic(auto, unfolding(crate::specs::Commands::submit_at))]
pub fn submit(units: u8, slot: u32, words: &Words<'_>) -> Result<Command, u8>
    requires some { 1 ≤ units }
    requires few { units ≤ 4 }
    ensures value { result ≡ submit_at units slot words.now }
    ensures good { IfOk result (λ command. IsGoodCommand units slot command) }
    ensures submits { IfOk result (λ command. is_submit command ≡ true) }
{
    if words.len() != 8 || !words.is_word(6, b"as") {
        return Err(MISSHAPEN);
    }
    let unit = unit(units, words.word(1))?;
    let access = access(words, 2)?;
    Ok(Command::Submit { unit, access, slot })
}

/// The command of a line `j`.
#[inline(always)]
#[tactic(auto, unfolding(crate::specs::Commands::judge_at))]
pub fn judge(names: &Names<'_>, words: &Words<'_>) -> Result<Command, u8>
    ensures value { result ≡ judge_at names.now words.now }
    ensures good { IfOk result (λ command. (units : ℕ) → IsGoodCommand units
        (length names.now) command) }
    ensures other { IfOk result (λ command. is_submit command ≡ false) }
{
    if words.len() != 2 {
        return Err(MISSHAPEN);
    }
    let slot = names.slot_at(words.word(1))?;
    Ok(Command::Judge { slot })
}

#[tactic(auto, unfolding(crate::specs::Commands::settle_at))]
fn settle(names: &Names<'_>, words: &Words<'_>) -> Result<Command, u8>
    ensures value { result ≡ settle_at names.now words.now }
    ensures good { IfOk result (λ command. (units : ℕ) → IsGoodCommand units
        (length names.now) command) }
    ensures other { IfOk result (λ command. is_submit command ≡ false) }
{
    if words.len() != 4 || !words.is_word(2, b"max") {
        return Err(MISSHAPEN);
    }
    let slot = names.slot_at(words.word(1))?;
    let max = max(words.word(3))?;
    Ok(Command::Settle { slot, max })
}

#[tactic(auto, unfolding(crate::specs::Commands::until_at))]
fn until(units: u8, words: &Words<'_>) -> Result<Command, u8>
    requires some { 1 ≤ units }
    requires few { units ≤ 4 }
    ensures value { result ≡ until_at units words.now }
    ensures good { IfOk result (λ command. (slots : ℕ) → IsGoodCommand units slots command) }
    ensures other { IfOk result (λ command. is_submit command ≡ false) }
{
    if words.len() != 7 || !words.is_word(5, b"max") {
        return Err(MISSHAPEN);
    }
    let unit = unit(units, words.word(1))?;
    let index = index(words.word(2))?;
    let mask = value(words.word(3))?;
    let value = value(words.word(4))?;
    let max = max(words.word(6))?;
    Ok(Command::Until {
        unit,
        index,
        mask,
        value,
        max,
    })
}

#[tactic(auto, unfolding(crate::specs::Commands::through_at))]
fn through(units: u8, words: &Words<'_>) -> Result<Command, u8>
    requires some { 1 ≤ units }
    requires few { units ≤ 4 }
    ensures value { result ≡ through_at units words.now }
    ensures good { IfOk result (λ command. (slots : ℕ) → IsGoodCommand units slots command) }
    ensures other { IfOk result (λ command. is_submit command ≡ false) }
{
    let count = words.len();
    if count < 8 || 11 < count || !words.is_word(count - 2, b"max") {
        return Err(MISSHAPEN);
    }
    let stages = stages(units, words, count - 7)?;
    let access = access(words, count - 6)?;
    let max = max(words.word(count - 1))?;
    Ok(Command::Through {
        stages,
        access,
        max,
    })
}

/// The command of a line other than a submission or a write.
#[tactic(auto, unfolding(crate::specs::Commands::command_at))]
pub fn command(units: u8, names: &Names<'_>, words: &Words<'_>) -> Result<Command, u8>
    requires other { is_word_at words.now 0 (codes "w") ≡ false }
    requires some { 1 ≤ units }
    requires few { units ≤ 4 }
    ensures value { result ≡ command_at units names.now words.now }
    ensures good { IfOk result (λ command. IsGoodCommand units (length names.now) command) }
    ensures other { IfOk result (λ command. is_submit command ≡ false) }
{
    if words.is_word(0, b"r") {
        read(units, words)
    } else if words.is_word(0, b"j") {
        judge(names, words)
    } else if words.is_word(0, b"settle") {
        settle(names, words)
    } else if words.is_word(0, b"until") {
        until(units, words)
    } else if words.is_word(0, b"through") {
        through(units, words)
    } else {
        Err(MISPLACED)
    }
}

// What the units told of a history.
ghost use Rattle.std.specs.Prelude.{◌≡◌, ◌++◌, ◌≤◌, length, IfOk, OnOk};
ghost use Rattle.std.specs.List.{AllByRecursion};
ghost use Rattle.event_words.specs.Runs.{run_from};
ghost use Rattle.event_words.specs.Valid.{IsValidShape};
ghost use Rattle.unit_core.specs.Fabrics.{state_after_word};
ghost use Rattle.unit_core.specs.Reports.{unit_lines};
ghost use Rattle.script_player.specs.MergedReplies.{IsToldBy};
ghost use Rattle.script_player.specs.ToldHistories.{replies_from, IsToldOf};

use crate::memory::NoMemory;
use crate::merged::replies_to_all;
use event_words::{Line, Machine, Reply, Shape};
use std::alloc::{AllocError, Global};
use unit_core::Fabric;

/// The reply to each word of a history, and the lines of the units' error registers after the last.
#[derive(Drop)]
pub struct Told {
    pub replies: Vec<Reply>,
    pub errors: Vec<u8>,
}

/// How many events a caller has seen, and the lines of its units' error registers after them.
#[derive(Drop)]
pub struct Seen {
    pub events: u32,
    pub errors: Vec<u8>,
}

/// Writes the lines of the units' error registers.
fn push_units(out: &mut Vec<u8>, line: &mut Line, units: &Fabric) -> Result<(), AllocError>
    ensures { OnOk result (out.new.items ≡ out.old.items ++ unit_lines 0 units.now.state.units) }
{
    for unit in 0..units.units() {
        line.make_unit(unit, units.error_words(unit));
        out.extend_from_slice(line.bytes())?;
    }
    Ok(())
}

/// The lines of the units' error registers.
pub fn error_lines(alloc: Global, units: &Fabric) -> Result<Vec<u8>, AllocError>
    ensures { IfOk result (λ lines. lines.items ≡ unit_lines 0 units.now.state.units) }
{
    let mut line = Line::new();
    let mut lines = Vec::new(alloc);
    push_units(&mut lines, &mut line, units)?;
    Ok(lines)
}

/// Applies each word at its place, and answers the replies.
fn replies_to(alloc: Global, units: &mut Fabric, words: &[u64]) -> Result<Vec<Reply>, AllocError>
    requires next { units.old.next ≡ 0 }
    requires places { units.old.places ≡ length words.now }
    requires few { length words.now ≤ 1048576 }
    ensures { IfOk result (λ replies.
        (replies.items ≡ replies_from 0 units.old.state words.now)
        × (units.new.state ≡ run_from state_after_word 0 units.old.state words.now)) }
{
    let mut replies = Vec::with_capacity(alloc, words.len())?;
    for (place, word) in words.iter().enumerate() {
        replies.push(units.apply(place as u32, *word))?;
    }
    Ok(replies)
}

/// What 1 to 4 units of these valid shapes tell of these words, at most 1048576, which are replayed.
pub fn replayed(alloc: Global, shapes: &[Shape], words: &[u64]) -> Result<Told, NoMemory>
    requires count { (1 ≤ length shapes.now) × (length shapes.now ≤ 4) }
    requires shapes { AllByRecursion IsValidShape shapes.now }
    requires few { length words.now ≤ 1048576 }
    ensures { IfOk result (λ told. IsToldOf told shapes.now words.now) }
{
    let mut units = Fabric::open(alloc, shapes, words.len() as u32)?;
    let replies = replies_to(alloc, &mut units, words)?;
    let errors = error_lines(alloc, &units)?;
    Ok(Told { replies, errors })
}

/// What is told of these words by what their callers kept and saw; else the words are replayed.
pub fn told_or_replayed(
    alloc: Global,
    shapes: &[Shape],
    words: &[u64],
    kept: Vec<Option<Vec<Reply>>>,
    seen: Seen,
) -> Result<Told, NoMemory>
    requires count { (1 ≤ length shapes.now) × (length shapes.now ≤ 4) }
    requires shapes { AllByRecursion IsValidShape shapes.now }
    requires few { length words.now ≤ 1048576 }
    requires told { IsToldBy shapes.now words.now kept.items seen }
    ensures { IfOk result (λ told. IsToldOf told shapes.now words.now) }
{
    let Seen { events, errors } = seen;
    if events as usize != words.len() {
        return replayed(alloc, shapes, words);
    }
    match replies_to_all(alloc, kept, words)? {
        Some(replies) => Ok(Told { replies, errors }),
        None => replayed(alloc, shapes, words),
    }
}

// The states between two images, and the requesters whose view stays the same in all of them.
ghost use Rattle.std.specs.Prelude.{◌≡◌, false, not, IfOk, IfSome};
ghost use Rattle.event_words.specs.Valid.{IsValidShape};
ghost use Rattle.event_words.specs.WellFormed.{IsWellFormed};
ghost use Rattle.policy_compiler.specs.Laws.{guarded_write, registers_after};
ghost use Rattle.narrow_plans.specs.Views.{view_of};
ghost use Rattle.narrow_plans.specs.Unaffected.{has_view};
ghost use Rattle.narrow_plans.specs.Seen.{is_own, IsEntryPart, LeavesView};
ghost use Rattle.narrow_plans.specs.Stalls.{changes_view};

use crate::views::{EntryView, same_view, view_of};
use event_words::Register;
use lock_rules::keep_mask;
use mdcfg_formats::domain_of;
use policy_compiler::{Image, RegPair};
use register_fields::{NoMemory, Regs, register_at};
use srcmd_formats::{domains_of, has_domain};
use std::alloc::{AllocError, Global};

/// Makes a write that keeps what is guarded.
fn guarded_write(regs: &mut Regs, write: &RegPair)
    ensures { regs.new ≡ guarded_write regs.old write.now }
{
    let keep = keep_mask(regs, write.index);
    regs.write(write.index, write.value, keep);
}

/// The registers after an image's writes from reset.
#[tactic(auto, unfolding(policy_compiler::specs::Laws::registers_after))]
fn registers_after(alloc: Global, image: &Image) -> Result<Regs, NoMemory>
    requires { IsValidShape image.now.shape }
    ensures { IfOk result (λ regs. regs ≡ registers_after image.now) }
{
    let mut regs = Regs::new(alloc, image.shape)?;
    for write in &image.writes {
        guarded_write(&mut regs, write);
    }
    Ok(regs)
}

/// Whether an entry of the unit is the requester's.
fn is_own(regs: &Regs, rrid: u8, entry: u32) -> bool
    ensures value { result ≡ is_own regs.now rrid entry }
    ensures well_formed { IsWellFormed regs.now }
{
    if entry >= regs.shape().entries as u32 {
        return false;
    }
    match domain_of(regs, entry as u16) {
        None => false,
        Some(domain) => has_domain(domains_of(regs, rrid), domain),
    }
}

/// The entry of which the register at an index is a part.
#[tactic(auto, using(crate::proofs::OtherEntries::part_of))]
fn entry_at(regs: &Regs, index: u32) -> Option<u32>
    ensures { IfSome result (λ entry. IsEntryPart entry index) }
{
    match register_at(regs.shape(), index) {
        Some(Register::EntryAddr(entry)) => Some(entry),
        Some(Register::EntryAddrh(entry)) => Some(entry),
        Some(Register::EntryCfg(entry)) => Some(entry),
        _ => None,
    }
}

/// Whether a write that was made of the register at an index may have changed a requester's view. One of
/// an entry can only where that entry or the next, which may begin at its address, is the requester's.
#[tactic(auto, using(crate::proofs::OtherEntries::leaves_same))]
fn can_change(regs: &Regs, rrid: u8, index: u32) -> bool
    ensures { result ≡ false → LeavesView regs.now index rrid }
{
    match entry_at(regs, index) {
        None => true,
        Some(entry) => is_own(regs, rrid, entry) || is_own(regs, rrid, entry + 1),
    }
}

/// Makes a write, and says whether the requester has the same view after it.
#[tactic(auto, using(crate::proofs::Along::view_unwritten, crate::proofs::Along::view_left))]
fn write_keeps_view(
    alloc: Global,
    regs: &mut Regs,
    write: &RegPair,
    rrid: u8,
    view: &[EntryView],
) -> Result<bool, AllocError>
    requires { view.now ≡ view_of regs.old rrid }
    ensures value { IfOk result (λ same. same ≡ has_view rrid view.now regs.new) }
    ensures regs { regs.new ≡ guarded_write regs.old write.now }
{
    let before = regs.read(write.index);
    guarded_write(regs, write);
    if regs.read(write.index) == before {
        return Ok(true);
    }
    if !can_change(regs, rrid, write.index) {
        return Ok(true);
    }
    let after = view_of(alloc, regs, rrid)?;
    Ok(same_view(view, &after))
}

/// Whether a requester has one view after the image's writes and after each write that follows.
pub fn keeps_view(
    alloc: Global,
    image: &Image,
    writes: &[RegPair],
    rrid: u8,
) -> Result<bool, NoMemory>
    requires { IsValidShape image.now.shape }
    ensures { IfOk result (λ same. changes_view image.now writes.now rrid ≡ not same) }
{
    let mut regs = registers_after(alloc, image)?;
    let Ok(view) = view_of(alloc, &regs, rrid) else {
        return Err(NoMemory);
    };
    for write in writes {
        let Ok(same) = write_keeps_view(alloc, &mut regs, write, rrid, &view) else {
            return Err(NoMemory);
        };
        if !same {
            return Ok(false);
        }
    }
    Ok(true)
}

// What the tables say about a requester, entry by entry.
ghost use Rattle.std.specs.Prelude.{◌≡◌, ℕ, ◌<◌, ◌≤◌, Some, IfOk, IsTrue};
ghost use Rattle.event_words.specs.Domains.{owner_of, is_associated};
ghost use Rattle.event_words.specs.Decisions.{entry_grants};
ghost use Rattle.narrow_plans.specs.Views.{seen_entry, view_of, same_entry, same_view};
ghost use Rattle.narrow_plans.specs.Seen.{seen_below};

use entry_ranges::range_of;
use event_words::{Kind, Register};
use mdcfg_formats::run_end;
use register_fields::{Regs, has_bit};
use srcmd_formats::{domains_of, grants, has_domain};
use std::alloc::{AllocError, Global};

/// An entry as a requester sees it: the addresses of its first byte and behind its last, and what it
/// grants the requester.
#[derive(Clone, Copy, Debug, PartialEq, Eq)]
pub struct EntryView {
    pub priority: bool,
    pub from: u64,
    pub to: u64,
    pub read: bool,
    pub write: bool,
    pub fetch: bool,
}

/// Whether an entry of a domain of the requester grants it the kind.
fn granted(regs: &Regs, rrid: u8, domain: u8, entry: u16, kind: Kind) -> bool
    requires entry { entry < regs.now.shape.entries }
    requires own { IsTrue (is_associated regs.now rrid domain) }
    requires owner { owner_of regs.now entry ≡ Some domain }
    ensures { result ≡ entry_grants regs.now rrid kind entry }
{
    let cfg = regs.word(Register::EntryCfg(entry as u32));
    has_bit(cfg, kind.code() as u32) && grants(regs, rrid, domain, kind)
}

/// What a requester sees of an entry of its domain: `None` where the entry has no byte.
fn seen_entry(regs: &Regs, rrid: u8, domain: u8, entry: u16) -> Option<EntryView>
    requires entry { entry < regs.now.shape.entries }
    requires own { IsTrue (is_associated regs.now rrid domain) }
    requires owner { owner_of regs.now entry ≡ Some domain }
    ensures { result ≡ seen_entry regs.now rrid entry }
{
    let range = range_of(regs, entry)?;
    let priority_entries = regs.word(Register::Hwcfg2) % 65536;
    Some(EntryView {
        priority: (entry as u32) < priority_entries,
        from: range.from,
        to: range.to,
        read: granted(regs, rrid, domain, entry, Kind::Read),
        write: granted(regs, rrid, domain, entry, Kind::Write),
        fetch: granted(regs, rrid, domain, entry, Kind::Fetch),
    })
}

/// Adds what a requester sees of the entries from `from` up to but not including `to`, which are all of
/// one domain of the requester.
fn add_run(
    view: &mut Vec<EntryView>,
    regs: &Regs,
    rrid: u8,
    domain: u8,
    from: u16,
    to: u16,
) -> Result<(), AllocError>
    requires order { from ≤ to }
    requires inside { to ≤ regs.now.shape.entries }
    requires own { IsTrue (is_associated regs.now rrid domain) }
    requires run { (j : ℕ) → from ≤ j → j < to → owner_of regs.now j ≡ Some domain }
    requires view { view.old.items ≡ seen_below regs.now rrid from }
    ensures { IfOk result (λ _. view.new.items ≡ seen_below regs.now rrid to) }
{
    for entry in from..to {
        if let Some(seen) = seen_entry(regs, rrid, domain, entry) {
            view.push(seen)?;
        }
    }
    Ok(())
}

/// The view of a requester, by a walk over its domains.
pub fn view_of(alloc: Global, regs: &Regs, rrid: u8) -> Result<Vec<EntryView>, AllocError>
    ensures { IfOk result (λ view. view.items ≡ view_of regs.now rrid) }
{
    let shape = regs.shape();
    let domains = domains_of(regs, rrid);
    let mut view = Vec::new(alloc);
    let mut from = 0;
    for domain in 0..shape.domains {
        let to = run_end(regs, domain, from, shape.entries);
        if has_domain(domains, domain) {
            add_run(&mut view, regs, rrid, domain, from, to)?;
        }
        from = to;
    }
    Ok(view)
}

fn same_entry(entry: EntryView, other: EntryView) -> bool
    ensures { result ≡ same_entry entry other }
{
    entry == other
}

/// Whether two views are equal.
pub fn same_view(view: &[EntryView], other: &[EntryView]) -> bool
    ensures { result ≡ same_view view.now other.now }
{
    if view.len() != other.len() {
        return false;
    }
    for i in 0..view.len() {
        if !same_entry(view[i], other[i]) {
            return false;
        }
    }
    true
}

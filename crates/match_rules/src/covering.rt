// The entries that have every byte of a transaction, where no priority entry decides.
ghost use Rattle.std.specs.Prelude.{◌≡◌, ℕ, ◌<◌, ◌≤◌, ◌++◌, ◌∷◌, [], IsTrue, List, filter};
ghost use Rattle.std.specs.List.{range_with_len};
ghost use Rattle.event_words.specs.Valid.{IsValidAccess};
ghost use Rattle.event_words.specs.Decisions.{covering, is_entry_of, is_covering};
ghost use Rattle.match_rules.specs.Summaries.{IsSummary};

use crate::entries::{is_covering, is_granting};
use event_words::Access;
use register_fields::Regs;
use srcmd_formats::has_cfg_bit;

/// What the decision needs of some entries: the first of them, whether one grants the kind, and
/// whether each mutes the interrupt and the bus error.
#[derive(Clone, Copy)]
pub struct Summary {
    pub first: Option<u16>,
    pub grants: bool,
    pub mute_irq: bool,
    pub mute_err: bool,
}

/// One entry of the requester more.
fn with_entry(regs: &Regs, access: &Access, summary: Summary, entry: u16) -> Summary
    requires entry { entry < regs.now.shape.entries }
    requires own { IsTrue (is_entry_of regs.now access.now.rrid entry) }
    ensures { (before : List ℕ) → IsSummary regs.now access.now before summary
        → IsSummary regs.now access.now (before ++ entry ∷ []) result }
{
    let kind = access.kind.code();
    let grants = is_granting(regs, access, entry);
    let mutes_irq = has_cfg_bit(regs, 5 + kind, entry);
    let mutes_err = has_cfg_bit(regs, 8 + kind, entry);
    Summary {
        first: summary.first.or(Some(entry)),
        grants: summary.grants | grants,
        mute_irq: summary.mute_irq & mutes_irq,
        mute_err: summary.mute_err & mutes_err,
    }
}

/// The summary of those below `end`.
fn covering_below(regs: &Regs, access: &Access, end: u16) -> Summary
    requires inside { end ≤ regs.now.shape.entries }
    requires access { IsValidAccess access.now }
    ensures { IsSummary regs.now access.now (filter (is_covering regs.now access.now)
        (range_with_len 0 end)) result }
{
    let mut summary = Summary {
        first: None,
        grants: false,
        mute_irq: true,
        mute_err: true,
    };
    for entry in 0..end {
        if is_covering(regs, access, entry) {
            summary = with_entry(regs, access, summary, entry);
        }
    }
    summary
}

/// A summary of the entries behind the priority entries that are the requester's and have every byte of the
/// transaction.
pub fn covering(regs: &Regs, access: &Access) -> Summary
    requires access { IsValidAccess access.now }
    ensures { IsSummary regs.now access.now (covering regs.now access.now) result }
{
    covering_below(regs, access, regs.shape().entries)
}

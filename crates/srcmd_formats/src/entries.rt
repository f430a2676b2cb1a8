// What one entry says of a transaction, beside its bytes.
ghost use Rattle.std.specs.Prelude.{◌≡◌, ◌<◌, IsTrue, Some, [], ◌∷◌};
ghost use Rattle.event_words.specs.Domains.{owner_of, is_associated};
ghost use Rattle.event_words.specs.Decisions.{entry_grants, has_cfg_bit, illegal, violation};

use crate::grants;
use event_words::{Access, Decision, Register};
use register_fields::{Regs, has_bit};

/// A violation without deciding entries.
pub fn violation(kind: u8, entry: u16) -> Decision
    ensures { result ≡ violation kind entry }
{
    Decision::Denied {
        kind,
        entry,
        mute_irq: false,
        mute_err: false,
    }
}

/// One bit of the entry's ENTRY_CFG.
pub fn has_cfg_bit(regs: &Regs, bit: u8, entry: u16) -> bool
    requires bit { bit < 32 }
    requires entry { entry < regs.now.shape.entries }
    ensures { result ≡ has_cfg_bit regs.now bit entry }
{
    has_bit(regs.word(Register::EntryCfg(entry as u32)), bit as u32)
}

/// Whether an entry of a domain that the requester is associated with grants it the kind.
pub fn entry_grants(regs: &Regs, access: &Access, domain: u8, entry: u16) -> bool
    requires entry { entry < regs.now.shape.entries }
    requires own { IsTrue (is_associated regs.now access.now.rrid domain) }
    requires owner { owner_of regs.now entry ≡ Some domain }
    ensures { result ≡ entry_grants regs.now access.now.rrid access.now.kind entry }
{
    has_cfg_bit(regs, access.kind.code(), entry) && grants(regs, access.rrid, domain, access.kind)
}

/// The violation where this entry alone decides and doesn't grant the kind, with its mutes.
pub fn refusal(regs: &Regs, access: &Access, entry: u16) -> Decision
    requires entry { entry < regs.now.shape.entries }
    ensures { result ≡ illegal regs.now access.now entry (entry ∷ []) }
{
    let kind = access.kind.code();
    Decision::Denied {
        kind: 1 + kind,
        entry,
        mute_irq: has_cfg_bit(regs, 5 + kind, entry),
        mute_err: has_cfg_bit(regs, 8 + kind, entry),
    }
}

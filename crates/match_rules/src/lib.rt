//! What the tables decide about a transaction: allowed, or a violation with its entry and the mutes
//! of its deciding entries.
#![tactic(auto)]

ghost use Rattle.std.specs.Prelude.{◌≡◌, ℕ, ◌+◌, ◌<◌, IsTrue, IfSome, Some, List};
ghost use Rattle.event_words.specs.Valid.{IsValidAccess};
ghost use Rattle.event_words.specs.Registers.{Registers};
ghost use Rattle.event_words.specs.Decisions.{is_entry_of, decision, decide_by_hit, by_covering};
ghost use Rattle.match_rules.specs.Summaries.{IsSummary};

mod covering;
mod entries;
mod priority;

use covering::{Summary, covering};
use entries::{covers, is_granting};
use event_words::{Access, Decision, Register};
use priority::first_touching;
use register_fields::{Regs, has_bit};
use srcmd_formats::{refusal, violation};

fn by_covering(access: &Access, summary: Summary) -> Decision
    ensures { (r : Registers) (js : List ℕ) → IsSummary r access.now js summary → result
        ≡ by_covering r access.now js }
{
    match summary.first {
        None => violation(5, 0xffff),
        Some(_) if summary.grants => Decision::Allowed,
        Some(entry) => Decision::Denied {
            kind: 1 + access.kind.code(),
            entry,
            mute_irq: summary.mute_irq,
            mute_err: summary.mute_err,
        },
    }
}

fn decide_by_hit(regs: &Regs, access: &Access, entry: u16) -> Decision
    requires entry { entry < regs.now.shape.entries }
    requires access { IsValidAccess access.now }
    requires own { IsTrue (is_entry_of regs.now access.now.rrid entry) }
    ensures { result ≡ decide_by_hit regs.now access.now (Some entry) }
{
    if !covers(regs, entry, access) {
        violation(4, entry)
    } else if is_granting(regs, access, entry) {
        Decision::Allowed
    } else {
        refusal(regs, access, entry)
    }
}

/// What the tables decide about a transaction. The first case that holds decides.
///
/// 1. HWCFG0.enable is 0: allowed.
/// 2. The requester isn't known: violation 6.
/// 3. A priority entry of the requester (one below HWCFG2.prio_entry) has some byte of the
///    transaction. The least such entry decides: violation 4 where it hasn't every byte, allowed
///    where it grants the kind, else violation 1, 2 or 3.
/// 4. Another entry of the requester has every byte. Allowed where one of these grants the kind,
///    else violation 1, 2 or 3 with the least of them.
/// 5. Else violation 5.
///
/// The deciding entries of violations 1, 2 and 3 are the one entry of case 3, or all of case 4. A
/// mute is true where each of them has its suppression bit for the kind. The others have none.
pub fn decide(regs: &Regs, access: &Access) -> Decision
    requires { IsValidAccess access.now }
    ensures { result ≡ decision regs.now access.now }
{
    if !has_bit(regs.word(Register::Hwcfg0), 0) {
        return Decision::Allowed;
    }
    if access.rrid >= regs.shape().rrids {
        return violation(6, 0xffff);
    }
    match first_touching(regs, access) {
        Some(entry) => decide_by_hit(regs, access, entry),
        None => by_covering(access, covering(regs, access)),
    }
}

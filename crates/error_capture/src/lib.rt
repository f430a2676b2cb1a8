//! What a violation is answered, and its record in the four error registers.
#![tactic(auto)]

ghost use Rattle.std.specs.Prelude.{◌≡◌, ◌+◌, ◌*◌, ◌/◌, ◌%◌, ◌^◌, ◌<◌, ◌≤◌};
ghost use Rattle.event_words.specs.Valid.{IsValidAccess};
ghost use Rattle.event_words.specs.Denials.{denial, recorded};

use event_words::{Access, Denial, Register};
use register_fields::{Regs, has_bit};

/// The denial of a violation: `kind` is its code, 1 to 7, `entry` the entry that is reported, 0xFFFF
/// for none, and the mutes tell whether its deciding entries suppress the interrupt and the bus error.
///
/// The requester sees no bus error (`quiet`) where ERR_CFG.rs is 1 or the bus error is muted. An
/// interrupt is raised (`irq`) where ERR_CFG.ie is 1 and the interrupt isn't muted. The violation is
/// kept for the record unless both are muted.
pub fn denial(regs: &Regs, kind: u8, entry: u16, mute_irq: bool, mute_err: bool) -> Denial
    requires { (1 ≤ kind) × (kind ≤ 7) }
    ensures { result ≡ denial regs.now kind entry mute_irq mute_err }
{
    let word = regs.word(Register::ErrCfg);
    Denial {
        kind,
        entry,
        quiet: has_bit(word, 2) || mute_err,
        irq: has_bit(word, 1) && !mute_irq,
        kept: !(mute_irq && mute_err),
    }
}

/// Records a violation of a transaction where it is kept and ERR_INFO.v is 0. Else nothing changes.
///
/// ERR_INFO gets v 1, in ttype 1 for a read, 2 for a write, 3 for a fetch, and in etype the violation's
/// code. ERR_REQADDR gets the bits 33:2 of the first byte's address, ERR_REQADDRH its bits 51:34, and
/// ERR_REQID the requester and the entry. No other register changes.
pub fn capture(regs: &mut Regs, access: &Access, denied: &Denial)
    requires access { IsValidAccess access.now }
    requires kind { (1 ≤ denied.now.kind) × (denied.now.kind ≤ 7) }
    ensures { regs.new ≡ recorded regs.old access.now denied.now }
{
    if denied.kept && !has_bit(regs.word(Register::ErrInfo), 0) {
        let info = 1 + 2 * (1 + access.kind.code() as u32) + 16 * denied.kind as u32;
        let addr = (access.addr / 4 % (1 << 32)) as u32;
        let addrh = (access.addr / (1 << 34)) as u32;
        let id = access.rrid as u32 + 65536 * denied.entry as u32;
        regs.put_error(info, addr, addrh, id);
    }
}

// The priority entry that decides.
ghost use Rattle.std.specs.Prelude.{◌≡◌, ◌-◌, ◌<◌, ◌≤◌, IfSome, IsTrue, find};
ghost use Rattle.std.specs.List.{range_with_len};
ghost use Rattle.event_words.specs.Valid.{IsValidAccess};
ghost use Rattle.event_words.specs.Decisions.{is_entry_of, is_touching, first_touching};

use crate::entries::is_touching;
use event_words::Access;
use register_fields::Regs;

/// The first priority entry of the requester from `from` up to but not including `to` that has a byte of the
/// transaction.
fn first_in(regs: &Regs, access: &Access, from: u16, to: u16) -> Option<u16>
    requires inside { to ≤ regs.now.shape.entries }
    requires access { IsValidAccess access.now }
    ensures value { result ≡ find (is_touching regs.now access.now)
        (range_with_len from (to - from)) }
    ensures inside { IfSome result (λ entry. entry < regs.now.shape.entries) }
    ensures own { IfSome result (λ entry. IsTrue (is_entry_of regs.now access.now.rrid entry)) }
{
    for entry in from..to {
        if is_touching(regs, access, entry) {
            return Some(entry);
        }
    }
    None
}

/// The least priority entry of the requester that has a byte of the transaction.
pub fn first_touching(regs: &Regs, access: &Access) -> Option<u16>
    requires access { IsValidAccess access.now }
    ensures value { result ≡ first_touching regs.now access.now }
    ensures inside { IfSome result (λ entry. entry < regs.now.shape.entries) }
    ensures own { IfSome result (λ entry. IsTrue (is_entry_of regs.now access.now.rrid entry)) }
{
    first_in(regs, access, 0, regs.shape().entries)
}

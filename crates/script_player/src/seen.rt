// What callers saw of the history that they made, before its log is closed.
ghost use Rattle.std.specs.Prelude.{◌≡◌, ◌∷◌, IfOk};
ghost use Rattle.script_player.specs.KeptReplies.{IsOneOf, IsSeenBy};

use crate::told::{Seen, error_lines};
use shared_log::Caller;
use std::alloc::{AllocError, Global};
use unit_core::Fabric;

/// The caller that has seen the most events.
fn furthest<'a>(first: &'a Caller<Fabric>, rest: &'a [Caller<Fabric>]) -> &'a Caller<Fabric>
    ensures { IsOneOf result.now (first.now ∷ rest.now) }
{
    let mut most = first;
    for caller in rest {
        if most.place() < caller.place() {
            most = caller;
        }
    }
    most
}

/// What the caller that has seen the most events saw.
pub fn seen_by(
    alloc: Global,
    first: &Caller<Fabric>,
    rest: &[Caller<Fabric>],
) -> Result<Seen, AllocError>
    ensures { IfOk result (λ seen. IsSeenBy (first.now ∷ rest.now) seen) }
{
    let caller = furthest(first, rest);
    let errors = error_lines(alloc, caller.machine())?;
    Ok(Seen {
        events: caller.place(),
        errors,
    })
}

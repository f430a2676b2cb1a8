// A history replayed by one machine of its own.
ghost use Rattle.std.specs.Prelude.{◌≡◌, ◌<◌, ◌≤◌, ◌+◌, ℕ, [], length, map, IfOk};
ghost use Rattle.std.specs.List.{AllByRecursion};
ghost use Rattle.event_words.specs.Valid.{IsValidShape};
ghost use Rattle.event_words.specs.Runs.{logged_from, run_from};
ghost use Rattle.unit_core.specs.Units.{unit_at_reset};
ghost use Rattle.unit_core.specs.Fabrics.{state_after_word, reply_to_word};
ghost use Rattle.unit_core.specs.Histories.{logged_in, units_after};
ghost use Rattle.history_reports.specs.Replays.{IsReplay};

use event_words::{LoggedEvent, Machine, Shape, unpack};
use script_player::NoMemory;
use std::alloc::{AllocError, Global};
use unit_core::Fabric;

/// A history's events with their replies, and the units after the last of them.
#[derive(Drop)]
pub struct Replay {
    pub events: Vec<LoggedEvent>,
    pub units: Fabric,
}

/// Applies each word at its place, and adds its event with the reply.
fn apply_all(
    units: &mut Fabric,
    words: &[u64],
    events: &mut Vec<LoggedEvent>,
) -> Result<(), AllocError>
    requires next { units.old.next ≡ 0 }
    requires places { units.old.places ≡ length words.now }
    requires few { length words.now ≤ 1048576 }
    requires empty { events.old.items ≡ [] }
    ensures { IfOk result (λ _.
        (events.new.items ≡ logged_from state_after_word reply_to_word 0 units.old.state words.now)
        × (units.new.state ≡ run_from state_after_word 0 units.old.state words.now)) }
{
    for (place, word) in words.iter().enumerate() {
        let place = place as u32;
        let reply = units.apply(place, *word);
        if let Some(event) = unpack(*word) {
            events.push(LoggedEvent {
                place,
                event,
                reply,
            })?;
        }
    }
    Ok(())
}

/// Replays words on 1 to 4 units of these valid shapes, at most 1048576 words.
pub fn replay_words(alloc: Global, shapes: &[Shape], words: &[u64]) -> Result<Replay, NoMemory>
    requires count { (1 ≤ length shapes.now) × (length shapes.now ≤ 4) }
    requires shapes { AllByRecursion IsValidShape shapes.now }
    requires few { length words.now ≤ 1048576 }
    ensures { IfOk result (λ r. IsReplay r shapes.now words.now) }
{
    let mut units = Fabric::open(alloc, shapes, words.len() as u32)?;
    let mut events = Vec::new(alloc);
    apply_all(&mut units, words, &mut events)?;
    Ok(Replay { events, units })
}

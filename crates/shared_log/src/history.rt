// The history that callers made.
ghost use Rattle.std.specs.Prelude.{◌≡◌, ℕ, ◌+◌, ◌<◌, ◌≤◌, [], length, vec_len, slice_index_or};
ghost use Rattle.std.specs.Mem.Slots.{slots_items, slots_len, IsFull};
ghost use Rattle.shared_log.specs.Words.{AllEventWords, words_by, words_before_zero};
ghost use Rattle.shared_log.specs.Callers.{Belongs};
ghost use Rattle.shared_log.specs.Histories.{HoldsCaller};

use crate::caller::Caller;
use crate::rule::JoinCaller;
use crate::shared::Shared;
use atomic_table::Closed;
use event_words::Machine;
use std::alloc::Global;
use std::marker::Model;

/// All events of a closed log, in their order. Only `close` makes one, and it can't be copied.
/// Contracts see the list of its words.
#[derive(Drop)]
pub struct History {
    words: Vec<u64>,
}

impl Model for History {
    ghost use Rattle.std.specs.Prelude.{List, ℕ};

    ghost Value = { List ℕ };

    ghost view = { λ h. h.words.items };
}

impl History {
    /// The words of all events, one a place.
    pub fn words(&self) -> &[u64]
        ensures { result.now ≡ self.now }
    {
        self.words.as_slice()
    }
}

// The words before the first 0, in memory that is there.
fn gather(closed: &Closed<(), Global>, room: &mut Vec<u64>)
    requires full { IsFull closed.now.words }
    requires room { slots_len closed.now.words ≡ vec_len room.old }
    ensures { room.new.items ≡ words_before_zero (slots_items closed.now.words) }
{
    for n in 0..room.len() {
        let word = closed.word(n);
        if word == 0 {
            room.truncate(n);
            return;
        }
        room[n] = word;
    }
}

/// The history, once all callers are handed in: the first, and the others in the order of their
/// numbers. It begins with each caller's log, and holds of each caller exactly its calls.
pub fn close<M: Machine>(shared: Shared, first: Caller<M>, rest: Vec<Caller<M>>) -> History
    requires belongs { Belongs first shared }
    requires number { first.number ≡ 0 }
    requires rest { (k : ℕ) (d : _) → k < vec_len rest →
        Belongs (slice_index_or rest.items k d) shared
        × ((slice_index_or rest.items k d).number ≡ k + 1) }
    requires all { first.made ≡ vec_len rest + 1 }
    ensures events { AllEventWords result }
    ensures first { HoldsCaller result first }
    ensures rest { (k : ℕ) (d : _) → k < vec_len rest →
        HoldsCaller result (slice_index_or rest.items k d) }
    ensures others { (c : ℕ) → vec_len rest < c → words_by c result ≡ [] }
{
    let Caller { mut seat, .. } = first;
    let steps = &shared.table.shared;
    for caller in rest {
        let Caller { seat: other, .. } = caller;
        steps.join_seat::<JoinCaller>(&mut seat, other);
    }
    let Shared {
        table,
        mut room,
        ..
    } = shared;
    let closed = table.close_with(seat);
    gather(&closed, &mut room);
    closed.free();
    History { words: room }
}

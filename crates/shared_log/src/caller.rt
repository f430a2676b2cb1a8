// Callers, who make events.
ghost use Rattle.std.specs.Prelude.{◌≡◌, ℕ, ◌+◌, ◌*◌, ◌<◌, ◌≤◌, length};
ghost use Rattle.event_words.specs.Events.{caller_of};
ghost use Rattle.event_words.specs.Runs.{run};
ghost use Rattle.event_words.specs.Valid.{IsValidEvent};
ghost use Rattle.event_words.specs.Word.{word_of};
ghost use Rattle.shared_log.specs.Callers.{Belongs, KeepsBudget, IsCaller, AfterCall};

use crate::rule::AppendWord;
use crate::seat_view::SeatView;
use crate::shared::Shared;
use atomic_table::Seat;
use event_words::{Event, Machine, Reply, pack};
use std::marker::Model;
use std::snapshot::Snapshot;

/// One who makes events, with a machine of its own. Contracts see its log, its number, what is left
/// of its budget, its machine and the first state of that.
#[derive(Drop)]
pub struct Caller<M: Machine> {
    pub(crate) machine: M,
    pub(crate) number: u8,
    pub(crate) place: u32,
    pub(crate) left: u32,
    pub(crate) budget: u32,
    pub(crate) made: u8,
    pub(crate) seat: Seat<(), SeatView>,
    pub(crate) first: Snapshot<M>,
}

impl<M: Machine> Model for Caller<M> {
    ghost use Rattle.std.specs.Prelude.{◌≡◌, []};
    ghost use Rattle.shared_log.specs.Callers.{CallerView, HasCallerFields, caller_view};

    ghost Value = { CallerView M M.State };

    ghost view = { λ c. caller_view c.seat.table_id c.seat.me.0 c.left c.machine
        (M.state c.first.value) };

    ghost invariant = { λ c. (c.seat.me.1 ≡ [])
        × HasCallerFields M.state M.next_place M.places M.after c.seat.table_id.words c.seat.me.0
        c.number c.place c.left c.budget c.made c.machine (M.state c.first.value) };
}

impl<M: Machine> Caller<M> {
    /// The number of the caller, below the number of callers of its log and so below 32.
    #[inline]
    pub fn number(&self) -> u8
        ensures number { result ≡ self.now.number }
        ensures below { self.now.number < self.now.callers }
        ensures most { self.now.callers ≤ 32 }
    {
        self.number
    }

    /// How many events the caller has seen, its own among them, which is the place of its next event
    /// at the earliest. It says all that holds of a caller.
    #[inline]
    pub fn place(&self) -> u32
        ensures place { result ≡ length self.now.log }
        ensures room { result ≤ self.now.callers * self.now.budget }
        ensures caller { IsCaller M.state M.next_place M.places M.after self.now }
    {
        self.place
    }

    /// How many events the caller may still make. These and the calls that it made are its budget.
    #[inline]
    pub fn left(&self) -> u32
        ensures left { result ≡ self.now.left }
        ensures budget { KeepsBudget self.now }
    {
        self.left
    }

    /// The machine, which took the events that the caller has seen.
    pub fn machine(&self) -> &M
        ensures machine { result.now ≡ self.now.machine }
        ensures state { M.state self.now.machine ≡ run M.after self.now.first self.now.log }
    {
        &self.machine
    }

    /// Makes an event, after all events of others that it had not seen, and answers what the machine
    /// replies to it at its place. It never waits, and while events are left it is never refused.
    #[inline(always)]
    pub fn call(&mut self, shared: &Shared, event: Event) -> Reply
        requires belongs { Belongs self.old shared.now }
        requires left { 1 ≤ self.old.left }
        requires event { IsValidEvent event × (caller_of event ≡ self.old.number) }
        ensures call { AfterCall M.after M.reply self.old (word_of event) result self.new }
        ensures caller { IsCaller M.state M.next_place M.places M.after self.new }
    {
        let word = pack(&event);
        let steps = &shared.table.shared;
        'word: loop {
            let place = self.place;
            let found = steps.compare_exchange::<AppendWord>(
                &mut self.seat,
                place as usize,
                0,
                word,
            );
            self.place = place + 1;
            if found == 0 {
                self.left -= 1;
                return self.machine.apply(place, word);
            }
            self.machine.advance(place, found);
        }
    }
}

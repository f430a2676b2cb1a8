// The log that callers share: opening it, and one caller more.
ghost use Rattle.std.specs.Prelude.{◌≡◌, ℕ, ◌+◌, ◌*◌, ◌<◌, ◌≤◌, [], ◌++◌, length, IfOk, true};
ghost use Rattle.event_words.specs.Runs.{run};
ghost use Rattle.shared_log.specs.Words.{words_by};
ghost use Rattle.shared_log.specs.Callers.{Belongs, IsCaller};

use crate::caller::Caller;
use crate::rule::{AddCaller, LogRule, LogSize, ReadBack};
use crate::seat_view::SeatView;
use atomic_table::{Seat, Table};
use event_words::Machine;
use std::alloc::Global;
use std::marker::Model;
use std::snapshot::Snapshot;

/// There was no memory.
#[derive(Clone, Copy, PartialEq, Eq, Debug)]
pub struct NoMemory;

/// The log that callers share, one word a place. Contracts see the number of its callers and the
/// budget of each.
#[derive(Drop)]
pub struct Shared {
    pub(crate) table: Table<(), SeatView, LogSize, LogRule, Global>,
    // Room for the history, as long as the table.
    pub(crate) room: Vec<u64>,
    pub(crate) callers: u8,
    pub(crate) budget: u32,
}

impl Model for Shared {
    ghost use Rattle.std.specs.Prelude.{◌≡◌, ◌*◌, ◌<◌, ◌≤◌, vec_len};
    ghost use Rattle.shared_log.specs.Callers.{SharedView};

    ghost Value = { SharedView };

    ghost view = { λ s. record {
      table = s.table.shared.table_id;
      callers = s.callers;
      budget = s.budget;
    } };

    ghost invariant = { λ s. (s.table.shared.key.callers ≡ s.callers)
        × (s.table.shared.key.budget ≡ s.budget)
        × (s.table.shared.table_id.words ≡ s.callers * s.budget) × (s.callers * s.budget ≤ 1048576)
        × (vec_len s.room ≡ s.callers * s.budget) × (s.callers ≤ 32)
        × (0 < s.table.shared.table_id.words) × (s.table.shared.table_id.slots ≡ 0) };
}

impl Shared {
    /// An empty log for 1 to 32 callers, each with a budget of at least 1 event and all together with
    /// at most 1048576, and its first caller, which has number 0. All memory is taken here, for the
    /// history of `close` too.
    pub fn open<M: Machine>(
        alloc: Global,
        callers: u8,
        budget: u32,
        first: M,
    ) -> Result<(Shared, Caller<M>), NoMemory>
        requires callers { (1 ≤ callers) × (callers ≤ 32) }
        requires budget { (1 ≤ budget) × (callers * budget ≤ 1048576)
            × (callers * budget ≤ M.places first) }
        requires machine { M.next_place first ≡ 0 }
        ensures shared { IfOk result (λ r. (r.0.callers ≡ callers) × (r.0.budget ≡ budget)) }
        ensures belongs { IfOk result (λ r. Belongs r.1 r.0) }
        ensures first { IfOk result (λ r. (r.1.number ≡ 0) × (r.1.log ≡ []) × (r.1.left ≡ budget) ×
            (r.1.made ≡ 1)) }
        ensures machine { IfOk result (λ r. (r.1.machine ≡ first) × (r.1.first ≡ M.state first)) }
        ensures caller { IfOk result (λ r. IsCaller M.state M.next_place M.places M.after r.1) }
    {
        let total = callers as usize * budget as usize;
        let Ok(room) = Vec::from_elem(alloc, 0, total) else {
            return Err(NoMemory);
        };
        let size = LogSize {
            callers: callers as u64,
            budget: budget as u64,
        };
        let Ok((table, seat)) = Table::of_words(alloc, room.as_slice(), &size) else {
            return Err(NoMemory);
        };
        let origin = Snapshot::of(&first);
        let shared = Shared {
            table,
            room,
            callers,
            budget,
        };
        let caller = Caller {
            machine: first,
            number: 0,
            place: 0,
            left: budget,
            budget,
            made: 1,
            seat,
            first: origin,
        };
        Ok((shared, caller))
    }
}

// The machine, once it took the words of the seat's log, which are loaded again.
fn bring_up<M: Machine>(shared: &Shared, seat: &mut Seat<(), SeatView>, end: u32, fresh: M) -> M
    requires seat { (seat.old.table_id ≡ shared.now.table) × (seat.old.me.0.live ≡ true) }
    requires end { (end ≡ length seat.old.me.0.log)
        × (end ≤ shared.now.callers * shared.now.budget) }
    requires machine { (M.next_place fresh ≡ 0) × (end ≤ M.places fresh) }
    ensures seat { (seat.new.table_id ≡ seat.old.table_id) × (seat.new.me ≡ seat.old.me) }
    ensures state { M.state result ≡ run M.after (M.state fresh) seat.old.me.0.log }
    ensures next { M.next_place result ≡ end }
    ensures places { M.places result ≡ M.places fresh }
{
    let steps = &shared.table.shared;
    let mut machine = fresh;
    for place in 0..end {
        let word = steps.load::<ReadBack>(seat, place as usize);
        machine.advance(place, word);
    }
    machine
}

/// One caller more, with the next number. It knows what the first caller knows, and `fresh` was
/// brought up by that log.
pub fn split<M: Machine>(shared: &Shared, first: &mut Caller<M>, fresh: M) -> Caller<M>
    requires belongs { Belongs first.old shared.now }
    requires number { first.old.number ≡ 0 }
    requires made { first.old.made < shared.now.callers }
    requires state { M.state fresh ≡ first.old.first }
    requires machine { (M.next_place fresh ≡ 0)
        × (shared.now.callers * shared.now.budget ≤ M.places fresh) }
    ensures first { first.new ≡ record first.old { made = first.old.made + 1 } }
    ensures belongs { Belongs result shared.now }
    ensures number { result.number ≡ first.old.made }
    ensures log { result.log ≡ first.old.log }
    ensures left { result.left ≡ shared.now.budget }
    ensures state { result.first ≡ first.old.first }
    ensures caller { IsCaller M.state M.next_place M.places M.after result }
    ensures alone { first.old.made ≡ 1 → words_by 0 result.log ≡ result.log }
{
    let end = first.place;
    let number = first.made;
    let origin = Snapshot::of(&fresh);
    let machine = bring_up(shared, &mut first.seat, end, fresh);
    let seat = shared.table.shared.split_seat::<AddCaller>(&mut first.seat);
    first.made = number + 1;
    Caller {
        machine,
        number,
        place: end,
        left: first.budget,
        budget: first.budget,
        made: 0,
        seat,
        first: origin,
    }
}

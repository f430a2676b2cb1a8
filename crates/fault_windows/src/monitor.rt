// The monitor of late violations.
ghost use Rattle.std.specs.Prelude.{◌≡◌, ℕ, suc, ◌≤◌, ◌<◌, [], length, slice_index_or};
ghost use Rattle.event_words.specs.Valid.{IsValidEvent};
ghost use Rattle.unit_core.specs.Histories.{History};
ghost use Rattle.event_words.specs.Events.{unit_of};
ghost use Rattle.fault_windows.specs.LateViolations.{is_kept_violation};
ghost use Rattle.fault_windows.specs.Windows.{window_bits};
ghost use Rattle.fault_windows.specs.Kept.{requesters_in, violated, answered, rewritten, shown_window, IsShown, IsKept, HasSeenOn};
ghost use Rattle.fault_windows.specs.Monitors.{HasSeen, IsPlace, shown_by};

use crate::Shown;
use event_words::{Event, Register, Reply, Verdict};
use std::marker::Model;

/// The index of the windows, which are no register of a unit: byte offset 0x74.
const WINDOWS: u32 = 29;

/// What is kept of one unit: bit s of `pending` is requester s, `turn` is the window where the turn
/// begins, 0 to 3, and `recorded` says that the error record holds a violation.
#[derive(Clone, Copy, Debug, PartialEq, Eq)]
struct UnitFaults {
    pending: u64,
    turn: u8,
    recorded: bool,
}

impl UnitFaults {
    const NONE: UnitFaults = UnitFaults {
        pending: 0,
        turn: 0,
        recorded: false,
    };

    /// The 16 bits of a window.
    fn window_bits(&self, window: u8) -> u16
        requires { window < 4 }
        ensures { result ≡ window_bits (requesters_in self.now.pending) window }
    {
        (self.pending >> (window * 16) & 0xffff) as u16
    }

    /// How many requesters are pending.
    fn count(&self) -> u8
        ensures { result ≡ length (requesters_in self.now.pending) }
    {
        let pending = self.pending;
        pending.count_ones() as u8
    }

    /// A kept violation of a requester.
    fn violate(&mut self, rrid: u8)
        requires { rrid ≤ 63 }
        ensures { self.new ≡ violated self.old rrid }
    {
        if self.recorded {
            self.pending |= 1 << rrid;
        } else {
            self.recorded = true;
        }
    }

    /// Shows and clears the first window in turn that has a pending requester.
    fn show(&mut self, unit: u8) -> Option<Shown>
        requires { IsKept self.old }
        ensures kept { IsKept self.new }
        ensures shown { IsShown unit (shown_window self.old) self.old self.new result }
    {
        for i in 0..4 {
            let window = (self.turn + i) % 4;
            let bits = self.window_bits(window);
            if bits != 0 {
                self.pending &= !(0xffff << (window * 16));
                self.turn = (window + 1) % 4;
                return Some(Shown { unit, window, bits });
            }
        }
        None
    }

    /// A write of the unit's register at an index. Bit 0 of ERR_INFO says that the error record holds a violation.
    fn rewrite(&mut self, index: u32, reply: &Reply)
        ensures { self.new ≡ rewritten self.old index reply.now }
    {
        if let Reply::Value(word) = *reply {
            if index == Register::ErrInfo.index() {
                self.recorded = word & 1 == 1;
            }
        }
    }

    /// A submission or a judgement of a requester's access.
    fn answer(&mut self, rrid: u8, reply: &Reply)
        requires { rrid ≤ 63 }
        ensures { self.new ≡ answered self.old rrid reply.now }
    {
        if is_kept_violation(reply) {
            self.violate(rrid);
        }
    }

    /// The next event of a history with its reply, where it speaks of this unit.
    fn step(&mut self, event: &Event, rrid: u8, reply: &Reply) -> Option<Shown>
        requires rrid { rrid ≤ 63 }
        requires kept { IsKept self.old }
        ensures kept { IsKept self.new }
        ensures seen { (h : History) (k : ℕ) → HasSeenOn h k (unit_of event.now) self.old
            → IsPlace h k event.now rrid reply.now
            → HasSeenOn h (suc k) (unit_of event.now) self.new }
        ensures shown { (h : History) (k : ℕ) → HasSeenOn h k (unit_of event.now) self.old
            → IsPlace h k event.now rrid reply.now → result ≡ shown_by h k event.now }
    {
        match *event {
            Event::RegRead { unit, index, .. } => {
                if index == WINDOWS {
                    self.show(unit)
                } else {
                    None
                }
            }
            Event::RegWrite { index, .. } => {
                self.rewrite(index, reply);
                None
            }
            Event::Submit { .. } | Event::Judge { .. } | Event::Wide { .. } => {
                self.answer(rrid, reply);
                None
            }
            Event::Aim { .. } => None,
        }
    }
}

fn is_kept_violation(reply: &Reply) -> bool
    ensures { result ≡ is_kept_violation reply.now }
{
    match reply {
        Reply::Stalled(denial) => denial.kept,
        Reply::Verdict(Verdict::Denied(denial)) => denial.kept,
        _ => false,
    }
}

/// The requesters of late violations of four units. It begins with a history's first event.
#[derive(Drop)]
pub struct Monitor {
    units: [UnitFaults; 4],
}

impl Model for Monitor {
    ghost use Rattle.fault_windows.specs.Monitors.{MonitorOf};
    ghost use Rattle.fault_windows.specs.Kept.{monitor_view, AreKept};

    ghost Value = { MonitorOf };

    ghost view = { λ m. monitor_view m.units };

    ghost invariant = { λ m. AreKept m.units };
}

impl Monitor {
    /// Before the first event of a history: nothing is pending, and no error record holds a violation.
    pub fn new() -> Monitor
        ensures { (h : History) → HasSeen h 0 result }
    {
        Monitor {
            units: [UnitFaults::NONE; 4],
        }
    }

    /// The next event of a history with its reply. Where the reply is a violation, `rrid` must be the
    /// requester of the access that is submitted or judged, at most 63; for other events it has no effect. It
    /// answers what a reading shows, and `None` for a reading that shows nothing and for every other event.
    pub fn step(&mut self, event: &Event, rrid: u8, reply: &Reply) -> Option<Shown>
        requires event { IsValidEvent event.now }
        requires rrid { rrid ≤ 63 }
        ensures seen { (h : History) (k : ℕ) → HasSeen h k self.old
            → IsPlace h k event.now rrid reply.now → HasSeen h (suc k) self.new }
        ensures shown { (h : History) (k : ℕ) → HasSeen h k self.old
            → IsPlace h k event.now rrid reply.now → result ≡ shown_by h k event.now }
    {
        let Some(number) = event.unit() else {
            return None;
        };
        let place = number as usize;
        let mut unit = self.units[place];
        let shown = unit.step(event, rrid, reply);
        self.units[place] = unit;
        shown
    }

    /// How many requesters of a unit, 0 to 3, are pending.
    pub fn pending(&self, unit: u8) -> u8
        requires { unit < 4 }
        ensures { result ≡ length (slice_index_or self.now.pending unit []) }
    {
        self.units[unit as usize].count()
    }
}

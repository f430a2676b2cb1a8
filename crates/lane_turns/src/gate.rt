// The gate: lanes that call it go on one at a time.
ghost use Rattle.std.specs.Prelude.{◌<◌};

use crate::lanes::MOST_LANES;
use crate::report::TurnReport;
use crate::turns::Turns;
use crate::word::{pack, unpack};
use checker_workers::Gate;
use std::rt::Clock;
use std::sync::atomic::{AtomicU64, Ordering};
use std::thread;
use std::time::Duration;

/// How long a lane sleeps before it looks again, in microseconds.
const SLEEP: u64 = 30;

/// After so many looks a lane goes on without its turn.
const MOST_LOOKS: u32 = 100_000;

/// A gate that lets lanes 1 to `lanes` go on by turns. One lane has the turn. It hands it on at its next call, to a
/// lane that the seed draws among those that wait, itself included.
///
/// The first turn is given once each lane has called. A lane is not told to be at its end, so one that went on with
/// its turn and does not call again for some milliseconds loses it, and takes no more part unless it calls again.
/// No lane waits for good: after some seconds it goes on without its turn. Lane 0, the boot section, goes on at once.
#[derive(Drop)]
pub struct TurnGate<C> {
    seed: u64,
    lanes: u8,
    clock: C,
    turns: AtomicU64,
    losses: AtomicU64,
    strays: AtomicU64,
}

impl<C: Clock> TurnGate<C> {
    /// A gate for so many lanes, which sleep by this clock.
    pub fn new(seed: u64, lanes: u8, clock: C) -> TurnGate<C> {
        TurnGate {
            seed,
            lanes,
            clock,
            turns: AtomicU64::new(pack(Turns::new())),
            losses: AtomicU64::new(0),
            strays: AtomicU64::new(0),
        }
    }

    /// What became of the turns so far.
    pub fn report(&self) -> TurnReport {
        TurnReport {
            seed: self.seed,
            turns: unpack(self.turns.load(Ordering::SeqCst)).given,
            losses: self.losses.load(Ordering::SeqCst),
            strays: self.strays.load(Ordering::SeqCst),
        }
    }

    /// Puts the turns in place of those of a word, if they still stand so.
    fn put(&self, word: u64, turns: Turns) -> bool {
        self.turns
            .compare_exchange(word, pack(turns), Ordering::SeqCst, Ordering::SeqCst)
            .is_ok()
    }

    /// A lane calls. One that comes after the first turn was given strays.
    fn call(&self, lane: u8)
        requires { lane < 32 }
    {
        for _ in 0..u64::MAX {
            let word = self.turns.load(Ordering::SeqCst);
            let turns = unpack(word);
            if self.put(word, turns.called(self.seed, self.lanes, lane)) {
                if turns.is_late(lane) {
                    self.stray();
                }
                return;
            }
        }
    }

    fn stray(&self) {
        self.strays.fetch_add(1, Ordering::SeqCst);
    }

    /// Does what is to be done where nothing was heard for long.
    fn overtake(&self, word: u64) {
        let turns = unpack(word);
        if let Some(next) = turns.overdue(self.seed) {
            if self.put(word, next) && turns.gone {
                self.losses.fetch_add(1, Ordering::SeqCst);
            }
        }
    }

    /// Waits for the lane's turn. It answers whether it came.
    fn wait(&self, lane: u8) -> bool {
        let mut last = self.turns.load(Ordering::SeqCst);
        let mut looks = 0u32;
        for _ in 0..MOST_LOOKS {
            let word = self.turns.load(Ordering::SeqCst);
            let turns = unpack(word);
            if turns.is_held_by(lane) {
                if self.put(word, turns.gone_on()) {
                    return true;
                }
                continue;
            }
            looks = if word == last {
                looks.saturating_add(1)
            } else {
                0
            };
            last = word;
            if looks >= turns.patience() {
                self.overtake(word);
            }
            thread::sleep(&self.clock, Duration::from_micros(SLEEP));
        }
        false
    }

    /// A lane that did not get its turn goes on without it.
    fn leave(&self, lane: u8)
        requires { lane < 32 }
    {
        for _ in 0..u64::MAX {
            let word = self.turns.load(Ordering::SeqCst);
            if self.put(word, unpack(word).dropped(self.seed, lane)) {
                self.stray();
                return;
            }
        }
    }
}

impl<C: Clock> Gate for TurnGate<C> {
    fn at(&self, lane: u8, _step: u32) {
        if lane == 0 {
            return;
        }
        if lane > self.lanes || lane > MOST_LANES {
            self.stray();
            return;
        }
        self.call(lane);
        if !self.wait(lane) {
            self.leave(lane);
        }
    }
}

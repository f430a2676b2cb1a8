// Where the turns stand, and what becomes of them.
ghost use Rattle.std.specs.Prelude.{◌≡◌, ◌<◌, ◌≤◌};
ghost use Rattle.lane_turns.specs.Turns.{no_turns, is_holder, is_nobody, next_turn, joined, left, called, is_late, gone_on, dropped, overdue};

use crate::lanes::LaneSet;
use crate::word::word_of;
use std::marker::Model;

/// Where the turns stand.
#[derive(Clone, Copy)]
pub struct Turns {
    /// The lanes that take part: those that called and did not lose a turn since.
    pub lanes: LaneSet,
    /// How many turns were given, counted from 0 again after 2^26.
    pub given: u32,
    /// The lane that has the turn.
    pub holder: Option<u8>,
    /// Whether it went on with its turn and was not heard of since.
    pub gone: bool,
}

impl Model for Turns {
    ghost use Rattle.lane_turns.specs.Turns.{TurnsView, AreTurns};

    ghost Value = { TurnsView };

    ghost view = { λ t. record {
      lanes = t.lanes;
      given = t.given;
      holder = t.holder;
      gone = t.gone;
    } };

    ghost inverse = { λ t. record {
      lanes = t.lanes;
      given = t.given;
      holder = t.holder;
      gone = t.gone;
    } };

    ghost invariant = { λ t. AreTurns t.given t.holder };
}

/// After so many looks at a turn whose lane went on and was not heard of since, the lane loses it.
const LOSS_LOOKS: u32 = 80;

/// After so many looks the lanes that called begin without those that did not.
const START_LOOKS: u32 = 10_000;

impl Turns {
    /// How many looks nothing may be heard.
    pub fn patience(self) -> u32 {
        match self.holder {
            Some(_) => LOSS_LOOKS,
            None => START_LOOKS,
        }
    }

    /// Before the first call.
    pub fn new() -> Turns
        ensures { result ≡ no_turns }
    {
        Turns {
            lanes: LaneSet { bits: 0 },
            given: 0,
            holder: None,
            gone: false,
        }
    }

    /// Whether this lane has the turn.
    pub fn is_held_by(self, lane: u8) -> bool
        ensures { result ≡ is_holder self.holder lane }
    {
        match self.holder {
            Some(holder) => holder == lane,
            None => false,
        }
    }

    fn is_nobodys(self) -> bool
        ensures { result ≡ is_nobody self.holder }
    {
        match self.holder {
            Some(_) => false,
            None => true,
        }
    }

    /// The next turn is drawn.
    fn next(self, seed: u64) -> Turns
        ensures { result ≡ next_turn seed self }
    {
        Turns {
            lanes: self.lanes,
            given: (self.given + 1) % 67108864,
            holder: self.lanes.drawn(word_of(seed, self.given)),
            gone: false,
        }
    }

    fn joined_by(self, lane: u8) -> Turns
        requires { lane < 32 }
        ensures { result ≡ joined lane self }
    {
        Turns {
            lanes: self.lanes.with(lane),
            given: self.given,
            holder: self.holder,
            gone: self.gone,
        }
    }

    fn left_by(self, lane: u8) -> Turns
        requires { lane < 32 }
        ensures { result ≡ left lane self }
    {
        Turns {
            lanes: self.lanes.without(lane),
            given: self.given,
            holder: self.holder,
            gone: self.gone,
        }
    }

    /// A lane calls, of so many.
    pub fn called(self, seed: u64, count: u8, lane: u8) -> Turns
        requires { lane < 32 }
        ensures { result ≡ called seed count lane self }
    {
        let joined = self.joined_by(lane);
        if self.is_held_by(lane) {
            return joined.next(seed);
        }
        if self.is_nobodys() && joined.lanes.count() == u32::from(count) {
            return joined.next(seed);
        }
        joined
    }

    /// Whether a call by this lane is out of the order of turns: others were given before it took part.
    pub fn is_late(self, lane: u8) -> bool
        requires { lane < 32 }
        ensures { result ≡ is_late lane self }
    {
        0 < self.given && !self.lanes.has(lane)
    }

    /// The lane that has the turn goes on with it.
    pub fn gone_on(self) -> Turns
        ensures { result ≡ gone_on self }
    {
        Turns {
            lanes: self.lanes,
            given: self.given,
            holder: self.holder,
            gone: true,
        }
    }

    /// A lane takes part no more.
    pub fn dropped(self, seed: u64, lane: u8) -> Turns
        requires { lane < 32 }
        ensures { result ≡ dropped seed lane self }
    {
        let left = self.left_by(lane);
        if self.is_held_by(lane) {
            return left.next(seed);
        }
        left
    }

    /// What is done where nothing was heard for long, if anything is to be done.
    pub fn overdue(self, seed: u64) -> Option<Turns>
        ensures { result ≡ overdue seed self }
    {
        match self.holder {
            None => Some(self.next(seed)),
            Some(lane) if self.gone => Some(self.dropped(seed, lane)),
            Some(_) => None,
        }
    }
}

// What became of the turns of a run.
ghost use Rattle.std.specs.Prelude.{◌≡◌, Some};
ghost use Rattle.lane_turns.specs.Reports.{is_reproducible, report_text};

use std::fmt;

/// What became of the turns of a run.
#[derive(Clone, Copy, Debug, PartialEq, Eq)]
pub struct TurnReport {
    /// The seed that drew the turns.
    pub seed: u64,
    /// How many turns were given.
    pub turns: u32,
    /// How many of them were lost: the lane went on and was not heard of for some milliseconds.
    pub losses: u64,
    /// How often a lane went on out of the order of turns: it came late, came back after a loss, did not wait any
    /// longer, or is none of those that the gate knows.
    pub strays: u64,
}

impl TurnReport {
    /// Whether the order of the turns was the seed's own: no lane lost a turn but by ending.
    pub fn is_reproducible(&self) -> bool
        ensures { result ≡ is_reproducible self.now }
    {
        self.strays == 0
    }
}

/// `seed S turns T losses L`, and ` reproducible` where it is.
impl fmt::Display for TurnReport {
    ghost output = { λ r. Some (report_text r) };

    fn fmt<W: fmt::Write>(&self, f: &mut fmt::Formatter<W>) -> fmt::Result {
        let seed = self.seed;
        let turns = self.turns;
        let losses = self.losses;
        if self.is_reproducible() {
            write!(f, "seed {seed} turns {turns} losses {losses} reproducible")
        } else {
            write!(f, "seed {seed} turns {turns} losses {losses}")
        }
    }
}

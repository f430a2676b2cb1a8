// Sets of lanes, and the lane that a word draws from one.
ghost use Rattle.std.specs.Prelude.{◌≡◌, ◌<◌, ◌≤◌, IfSome, length};
ghost use Rattle.std.specs.Prelude.{slice_get};
ghost use Rattle.lane_turns.specs.Lanes.{has, with_lane, without_lane, members, drawn};

/// The greatest number of a lane.
pub const MOST_LANES: u8 = 16;

/// The number after it.
const END: u8 = 17;

/// A set of lanes: bit i stands for lane i, 1 to 16.
#[derive(Clone, Copy, Debug, PartialEq, Eq)]
pub struct LaneSet {
    pub bits: u32,
}

impl LaneSet {
    /// Whether the lane is one of the set.
    pub fn has(self, lane: u8) -> bool
        requires { lane < 32 }
        ensures { result ≡ has self lane }
    {
        (self.bits >> lane) % 2 == 1
    }

    /// The set and this lane.
    pub fn with(self, lane: u8) -> LaneSet
        requires { lane < 32 }
        ensures { result ≡ with_lane self lane }
    {
        LaneSet {
            bits: self.bits | (1 << lane),
        }
    }

    /// The set but for this lane.
    pub fn without(self, lane: u8) -> LaneSet
        requires { lane < 32 }
        ensures { result ≡ without_lane self lane }
    {
        LaneSet {
            bits: self.bits & !(1 << lane),
        }
    }

    /// How many lanes there are, up to 16.
    pub fn count(self) -> u32
        ensures count { result ≡ length (members self) }
        ensures few { result ≤ 16 }
    {
        let mut count = 0u32;
        for lane in 1..END {
            if self.has(lane) {
                count += 1;
            }
        }
        count
    }

    /// The lane with this number, from 0, in ascending order.
    fn nth(self, number: u32) -> Option<u8>
        ensures lane { result ≡ slice_get (members self) number }
        ensures within { IfSome result (λ lane. (1 ≤ lane) × (lane ≤ 16)) }
    {
        let mut left = number;
        for lane in 1..END {
            if self.has(lane) {
                if left == 0 {
                    return Some(lane);
                }
                left -= 1;
            }
        }
        None
    }

    /// The lane that a word draws, if there is any.
    pub fn drawn(self, word: u32) -> Option<u8>
        ensures lane { result ≡ drawn self word }
        ensures within { IfSome result (λ lane. (1 ≤ lane) × (lane ≤ 16)) }
    {
        let count = self.count();
        if count == 0 {
            return None;
        }
        self.nth(word % count)
    }
}

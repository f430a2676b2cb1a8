//! A machine for trials, which adds up the words that it takes.
ghost use Rattle.std.specs.Prelude.{◌≡◌, ℕ, ◌+◌};

use event_words::{Machine, Reply};
use std::marker::Model;

/// The sum of the words so far, modulo 2^32. It replies the sum.
#[derive(Drop)]
pub struct Adder {
    sum: u32,
    next: u32,
    room: u32,
}

impl Model for Adder {
    ghost use Rattle.shared_log.specs.Adding.{AdderView};

    ghost Value = { AdderView };

    ghost view = { λ a. record { sum = a.sum; next_place = a.next; places = a.room } };
}

impl Machine for Adder {
    type State = u32;

    ghost use Rattle.shared_log.specs.Adding.{sum_after, sum_reply};

    ghost state = { λ m. m.sum };

    ghost next_place = { λ m. m.next_place };

    ghost places = { λ m. m.places };

    ghost after = { sum_after };

    ghost reply = { sum_reply };

    fn apply(&mut self, place: u32, word: u64) -> Reply {
        self.sum = self.sum.wrapping_add((word % (1 << 32)) as u32);
        self.next = place + 1;
        Reply::Value(self.sum)
    }
}

impl Adder {
    /// A machine with the sum 0 that takes this many words.
    pub fn new(places: u32) -> Adder
        ensures sum { result.sum ≡ 0 }
        ensures next { result.next_place ≡ 0 }
        ensures places { result.places ≡ places }
    {
        Adder {
            sum: 0,
            next: 0,
            room: places,
        }
    }
}

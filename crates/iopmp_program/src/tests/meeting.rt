// A gate at which two lanes wait for each other.
use checker_workers::Gate;
use std::sync::atomic::{AtomicU64, Ordering};

/// Each of lanes 1 and 2 waits at its step 1 for the other, for a while.
#[derive(Drop)]
pub struct Meeting {
    one: AtomicU64,
    two: AtomicU64,
    missed: AtomicU64,
}

/// Whether the other came.
fn meet(own: &AtomicU64, other: &AtomicU64) -> bool {
    own.store(1, Ordering::SeqCst);
    for _turn in 0..100_000_000u32 {
        if other.load(Ordering::SeqCst) == 1 {
            return true;
        }
    }
    false
}

impl Gate for Meeting {
    fn at(&self, lane: u8, step: u32) {
        if step != 1 {
            return;
        }
        let met = match lane {
            1 => meet(&self.one, &self.two),
            2 => meet(&self.two, &self.one),
            _ => true,
        };
        if !met {
            self.missed.store(1, Ordering::SeqCst);
        }
    }
}

impl Meeting {
    /// Neither lane came yet.
    pub fn new() -> Meeting {
        Meeting {
            one: AtomicU64::new(0),
            two: AtomicU64::new(0),
            missed: AtomicU64::new(0),
        }
    }

    /// Whether both lanes came, and neither gave up.
    pub fn took_place(&self) -> bool {
        let one = self.one.load(Ordering::SeqCst);
        let two = self.two.load(Ordering::SeqCst);
        one == 1 && two == 1 && self.missed.load(Ordering::SeqCst) == 0
    }
}

// What lanes tell of their steps.

/// What a lane calls before an event, with the number of its caller and the number of the event in the lane,
/// from 0, and once more at its end, with the number of its events. It calls it before each write, read and
/// judgement, but before the first event alone of a submission and of an access that it sends through units:
/// the numbers of their further events are left out.
pub trait Gate {
    fn at(&self, lane: u8, step: u32);
}

/// A gate that does nothing.
pub struct FreeGate;

impl Gate for FreeGate {
    fn at(&self, _lane: u8, _step: u32) {}
}

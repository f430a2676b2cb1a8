//! Workers that make the events of sections on a shared log: ports over one caller, tickets of open
//! submissions, and lanes that run beside each other.
#![tactic(auto)]

mod beside;
mod gate;
mod lane;
mod pieces;
mod port;
#[cfg(test)]
mod tests;
mod ticket;

pub use beside::run_lanes;
pub use gate::{FreeGate, Gate};
pub use lane::{Lane, LaneEnd, NoMemory, play_section};
pub use port::Port;
pub use ticket::{Judged, Submitted, Ticket};

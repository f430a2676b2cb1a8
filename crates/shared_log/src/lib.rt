//! One log of event words that threads share, with no lock: each caller exchanges its event's word
//! into the next empty place, and learns the events of others that it finds there.
//!
//! Each caller has a machine of its own, which has taken exactly the words of the caller's log, so
//! that a reply is the machine's at the event's place in the one history.
#![tactic(auto)]

mod caller;
mod history;
mod rule;
mod seat_view;
mod shared;
#[cfg(test)]
mod tests;
pub mod toy;

pub use caller::Caller;
pub use history::{History, close};
pub use shared::{NoMemory, Shared, split};

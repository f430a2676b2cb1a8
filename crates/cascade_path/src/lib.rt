//! An access that goes through several units in turn: each unit that allows it hands it on to the next
//! with the requester that it gives it.
//!
//! The definitions of what this means stand in `specs/`, one file an idea. Nothing here knows a unit:
//! the caller's machine may be any.
#![tactic(auto)]

mod chain;
#[cfg(test)]
mod tests;

pub use chain::{ChainReply, send_through};

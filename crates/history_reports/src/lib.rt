//! Reports: what is said of a history, which is its events with their replies, how each section ended, the units'
//! error registers and, where it is wanted, the windows of later violations.
//!
//! A report is written from what was told of its history, or else from a replay of it. The definitions stand in
//! `specs/`, one file an idea.
#![tactic(auto)]

mod cursors;
mod replay;
mod reports;
mod runs;
mod windows;

pub use replay::{Replay, replay_words};
pub use reports::report;
pub use runs::{WhichReport, run_report};

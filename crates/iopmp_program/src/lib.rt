//! The program: its words are a command, whose input is read, answered and written.
//!
//! What a command answers is `command_answers`'. The definitions of how a call ends stand in `specs/`, one file an
//! idea.
#![tactic(auto)]

mod edges;
mod fault_lines;
mod outcome;
mod program;
#[cfg(test)]
mod tests;
mod words;

pub use command_answers::Status;
pub use history_reports::report;
pub use outcome::Outcome;
pub use program::top;
pub use script_player::{NoMemory, play};

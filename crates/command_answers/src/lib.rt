//! What the program's commands answer: each for the bytes of its input, which are read before, and in a text that is
//! written after. Nothing here knows a stream.
//!
//! The definitions of what a command answers stand in `specs/`, one file an idea.
#![tactic(auto)]

mod answers;
mod commands;
mod images;
mod inputs;
mod playing;
mod refusals;
mod status;
mod subcommand;

pub use answers::{Answer, NoAnswer};
pub use commands::answer;
pub use status::Status;
pub use subcommand::Subcommand;

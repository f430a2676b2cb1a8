//! Scripts played: a caller of one shared log for each section, the legal history that they make, and
//! what the units told of it, by the replies that the callers kept or else by a replay.
#![tactic(auto)]

mod budgets;
mod memory;
mod merged;
mod players;
mod playing;
mod seen;
mod told;

pub use memory::NoMemory;
pub use playing::{ToldHistory, play, play_told, play_whole};
pub use told::{Told, replayed};

//! A gate that lets lanes go on by turns, which a seed draws: the same seed gives the same order of turns.
//!
//! The definitions of a draw and of what becomes of the turns stand in `specs/`, one file an idea.
#![tactic(auto)]

mod gate;
mod lanes;
mod report;
#[cfg(test)]
mod tests;
mod turns;
mod word;

pub use gate::TurnGate;
pub use report::TurnReport;

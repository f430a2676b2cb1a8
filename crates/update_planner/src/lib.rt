//! Plans: the commands that take a unit from one policy to another while its requesters stall.
//!
//! The definitions of which commands these are, and of why there are none, stand in `specs/`.
#![tactic(auto)]

mod answer;
mod commands;
mod planning;
mod refusal;
mod values;

pub use answer::{Plan, PlanError};
pub use commands::{rewrite, rewrites};
pub use planning::{plan, plan_images};
pub use refusal::plan_refusal;

#[cfg(test)]
mod tests;

//! Audits of reports: whether the bytes are the report of a legal history of a script, and if not, the
//! first line that is wrong.
#![tactic(auto)]

mod answer;
mod auditing;
mod endings;
mod listing;
mod turns;
mod unread;

pub use answer::{Audit, NoMemory};
pub use auditing::audit;

//! The registers of a unit: where they are, the fields that they have, and what a write makes of
//! them under a mask of bits that stay.
#![tactic(auto)]

mod fields;
mod layout;
mod regs;
mod rights;

pub use fields::{read_only, whole};
pub use layout::register_at;
pub use regs::{NoMemory, Regs, has_bit, joined};
pub use rights::Rights;

//! The byte ranges of a unit's entries, kept decoded beside its registers, and what the tables decide
//! about a transaction by them.
//!
//! A [`Decoded`] has one optional range per entry. It stands for the registers that it was made of:
//! item i has exactly the bytes of entry i. After a register write, [`Decoded::refresh`] decodes anew
//! only the entries that the written register can change, and the value stands for the new registers.
//! [`Decoded::decide`] walks the entries that may have a byte of the transaction, and of these looks at the
//! ranges of the requester's alone.
#![tactic(auto)]

mod changes;
mod covering;
mod decoded;
mod entries;
mod marks;
mod priority;
#[cfg(test)]
mod tests;
mod uncounted;

pub use decoded::Decoded;
pub use event_words::Steps;

/// There was no memory.
#[derive(Clone, Copy, Debug, PartialEq, Eq)]
pub struct NoMemory;

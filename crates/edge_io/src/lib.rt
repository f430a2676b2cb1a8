//! Where bytes come from and where they go: sources and sinks that count their faults.
//!
//! A [`Source`] gives bytes and a [`Sink`] takes them, some at each call. Either may fail at any call, and then its
//! count of faults rises, so that whoever reports a fault can be held to it: `read_all` and `write_all` report one
//! only where the count rose.
//! [`MemorySource`] and [`MemorySink`] fail at the calls that they are told to. [`StdSource`] and [`StdSink`] stand
//! over any reader and any writer.
#![tactic(auto)]

mod adapters;
mod memory;
mod stream;
#[cfg(test)]
mod tests;
mod whole;

pub use adapters::{StdSink, StdSource};
pub use memory::{MemorySink, MemorySource, NoMemory};
pub use stream::{Failed, Sink, Source};
pub use whole::{ReadError, WriteFault, read_all, write_all};

//! Policies: what they are, how one is read off a TOML document, what it decides about an access,
//! and the register writes that make a unit decide the same.
#![tactic(auto)]

mod decide;
mod hardware;
mod image;
mod needs;
mod path;
mod policy;
mod read;
mod writes;

pub use decide::policy_kind;
pub use image::{CompileError, Image, RegPair, compile, need_refusal};
pub use path::{Part, Path, PolicyError};
pub use policy::{Policy, PolicyDomain, Rule};
pub use read::read_policy;

#[cfg(test)]
mod tests;

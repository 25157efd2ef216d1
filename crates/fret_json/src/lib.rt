//! Requirement files.
//! In: the bytes of a file. Out: the component's name, its variables and its requirements as the file has them, or the
//! first fault. specs/Requirements.antt says what a value of JSON holds, and which fault is the first; `serde_json` reads
//! the value. Keys that aren't asked for are passed over, and of a key that stands twice the last value counts.
#![tactic(auto)]

mod fault;
mod file;
mod read;

pub use fault::ReqFault;
pub use file::{Req, ReqFile, ReqVar};
pub use read::requirements;

#[cfg(test)]
mod tests;

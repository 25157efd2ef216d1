//! From a well typed specification to a sound one.
//! In: a typed specification. Out: the same one, known to have no cycle of defs and to keep the limits, or its first
//! fault.
//! The faults are defined in specs/Soundness.antt of `stream_core`; the main call is `sound`.
#![tactic(auto)]

mod accepted;
mod edges;
mod fault;
mod judge;
mod roots;
mod sizes;
mod walk;
mod weigh;

pub use accepted::Sound;
pub use fault::SoundFault;
pub use judge::sound;

#[cfg(test)]
mod tests;

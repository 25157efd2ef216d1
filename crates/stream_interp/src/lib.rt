//! A plain specification, run step by step in constant memory.
//! In: a `Plain` of `stream_lib`, and a row of words for each step. Out: the step's events, or its first hazard.
//! specs/Standing.antt says what a monitor stands for, specs/Seen.antt what an evaluation reads of a history, specs/Room.antt
//! how many words it keeps at once.
#![tactic(auto)]

mod buffers;
mod events;
mod layout;
mod monitor;
mod names;
mod parts;
mod reads;
mod rings;
mod rooms;
mod sight;
mod steps;
#[cfg(test)]
mod tests;
mod values;

pub use events::{Events, Who};
pub use monitor::Monitor;

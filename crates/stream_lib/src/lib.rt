//! Library forms as streams.
//! In: a sound specification. Out: one without forms of the library, each form as buffers and a plain expression.
//! The lowering is defined in specs/Lower.antt of `stream_core`, and specs/Buffers.antt of `form_laws` says what the buffers hold;
//! the main call is `lower`.
#![tactic(auto)]

mod assembled;
mod bounded;
mod buffers;
mod builder;
mod copies;
mod forms;
mod items;
mod nodes;
mod numerals;
mod plain;
mod rename;
mod starts;
mod vote_nodes;
mod windows;

pub use plain::{Plain, lower};

#[cfg(test)]
mod tests;

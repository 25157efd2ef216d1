//! Rings of rows in one raw block.
//! In: the shapes of the rings and their first words. Out: a `Bank`, which gives a row's words, and takes a new row in
//! place of a ring's oldest one.
//! specs/RingRows.antt says how a list of words is cut into rings of rows, and what a push leaves. Only `words` and
//! `memory` touch pointers, and each function there is proved by hand.
#![tactic(auto)]

mod bank;
mod block;
mod memory;
mod ring;
mod shape;
mod words;

pub use bank::Bank;
pub use shape::Shape;

#[cfg(test)]
mod tests;

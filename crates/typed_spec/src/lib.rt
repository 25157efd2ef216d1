//! The typed specification that a text stands for.
//! In: a surface without a fault of names and types, and its type list. Out: its specification, by specs/ReadSpec.antt
//! (`spec_of`); the main call is `spec_over`.
#![tactic(auto)]

mod arena;
mod constants;
mod declarations;
mod expressions;
mod forms;
mod members;
mod nodes;
mod operators;
mod places;
mod reading;
mod table;
mod text;
mod types;

pub use reading::spec_over;

#[cfg(test)]
mod tests;

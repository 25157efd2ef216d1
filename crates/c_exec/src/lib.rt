//! Programs of the C subset, carried out step by step.
//! In: a well formed `Unit` of `c99_tree` and a row of words for each call of its `step`. Out: the handlers that the call
//! calls, with the words of their arguments, or the first thing that is undefined.
//! specs/Step.antt of c99_tree says what a call of `step` does, and specs/Machine.antt here what a machine keeps of it; the
//! call is `Machine::call_step`.
#![tactic(auto)]

mod calls;
mod carry;
mod code;
mod eval;
mod laws;
mod layout;
mod lines;
mod machine;
mod numbers;
mod pile;
mod resolve;
mod rooms;
mod runs;

pub use c99_tree::Undefined;
pub use calls::Calls;
pub use laws::{values_have_their_widths, words_give_statics_back};
pub use machine::Machine;

#[cfg(test)]
mod tests;

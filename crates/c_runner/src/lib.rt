//! A unit of the C subset, executed over the rows of an input.
//! In: a well formed unit, and a source of comma-separated values with its externs' columns. Out: the lines of each
//! step's calls, in a sink, and how the session ended.
//! specs/Read.antt says how the unit's types read, specs/Executed.antt what is written (`executed`); the call is `execute`.
#![tactic(auto)]

mod externs;
mod laws;
mod lines;
mod machine;
mod read;
mod session;
mod shapes;

pub use externs::columns;
pub use laws::{sessions_step_over_rows_so_far, steps_follow_their_rows};
pub use session::execute;

#[cfg(test)]
mod tests;

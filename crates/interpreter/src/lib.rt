//! A specification, interpreted over the rows of an input.
//! In: a sound specification, and a source of comma-separated values with its externs' columns. Out: the lines of each
//! step's events, in a sink, and how the session ended.
//! specs/Interpreted.antt says what is written (`interpreted`); the call is `interpret`.
#![tactic(auto)]

mod externs;
mod laws;
mod lines;
mod machine;
mod session;
mod shapes;

pub use externs::columns;
pub use laws::{sessions_step_over_rows_so_far, steps_follow_their_rows};
pub use session::interpret;

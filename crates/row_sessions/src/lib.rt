//! Sessions over the rows of an input.
//! In: a source of comma-separated values, the columns that are wanted, and a machine that is stepped over each row and
//! writes lines or stops. Out: the lines, in a sink, and how the session ended.
//! specs/Session.antt says what a session over a text writes, where it stops and how its run ends (`run_session`),
//! specs/Stepping.antt what a machine's step does (`Stepper`).
#![tactic(auto)]

mod ending;
mod gather;
mod lines;
mod run;
mod stepper;

pub use ending::{Ending, Stop};
pub use run::run_session;
pub use stepper::Stepper;

#[cfg(test)]
mod tests;

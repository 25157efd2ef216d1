//! The tool as one call over a source, a file sink, an output and an error sink.
//! In: the words of a command. Out: an outcome, with the files, the events and the line on the error sink that it tells.
//! Defined by specs/Runs.antt (what each command answers and leaves), specs/Analysis.antt (a text's stages and first
//! fault), specs/Command.antt (the command table) and specs/Lines.antt; the main call is `run_tool`.
#![tactic(auto)]

mod analysis;
mod command;
mod compiling;
mod demonstrating;
mod executing;
mod fetch;
mod interpreting;
mod migrating;
mod outcome;
mod puts;
mod tell;
mod top;
mod unit_files;

pub use outcome::{Outcome, Refusal, RefusalKind, Tool};
pub use top::{outcome_is_one, run_tool};

#[cfg(test)]
mod compiled_tests;
#[cfg(test)]
mod demo_tests;
#[cfg(test)]
mod executed_tests;
#[cfg(test)]
mod interpreted_tests;
#[cfg(test)]
mod migrated_tests;
#[cfg(test)]
mod tests;

//! From a plain specification of streams to a program of the C subset.
//! In: a `Plain` of `stream_lib` and a name. Out: a program that makes the specification's calls at every step.
//! specs/Simulation.antt defines what the program has to do, specs/CTypes.antt its C types, and specs/Translation.antt which
//! program is written; the call is `generate`. The laws say that the translation of every plain specification is well formed
//! and does what the specification means.
#![tactic(auto)]

mod c_types;
mod declarations;
mod expression_laws;
mod expressions;
mod forms;
mod laws;
mod names;
mod operator_laws;
mod operators;
mod program;
mod rings;
mod run_laws;
mod statements;
mod step_laws;
mod unit_laws;

pub use expression_laws::expressions_give_their_values;
pub use laws::{buffers_are_rings, expressions_are_written, translations_are_written};
pub use operator_laws::{operators_give_their_words, operators_have_their_types};
pub use program::generate;
pub use run_laws::{translations_are_laid_out, translations_make_the_calls};
pub use step_laws::steps_make_the_calls;
pub use unit_laws::{
    names_and_numbers_name_rings, translations_are_well_formed, translations_simulate,
};

#[cfg(test)]
mod tests;

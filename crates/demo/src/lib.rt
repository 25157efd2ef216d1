//! A demonstration: a specification of so many streams, stepped so many times without input, and the size of its program.
//! In: the number of streams and of steps. Out: how many calls its triggers made, its storage, and the need of its
//! program, and the line that tells them.
//! Defined by specs/Demonstration.antt (the specification) and specs/Figures.antt; the calls are `demonstrate` and
//! `write_figures`.
#![tactic(auto)]

mod build;
mod line;
mod run;
mod unit;

pub use line::write_figures;
pub use run::{Figures, demonstrate};

#[cfg(test)]
mod tests;

//! The two texts of a program of the C subset, written to a sink.
//! In: a well formed `Unit` of `c99_tree`, and any sink. Out: its header or its source, written in order without memory.
//! The texts are `header_text` and `source_text` of c99_tree's specs/Spelling.antt.
#![tactic(auto)]

mod constants;
mod expr;
mod header;
mod laws;
mod source;
mod statements;
mod types;

pub use header::print_header;
pub use laws::printed_texts_are_spelled;
pub use source::print_source;

#[cfg(test)]
mod tests;

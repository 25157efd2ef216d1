//! The canonical text of a specification's surface, written to a sink.
//! In: a `Surface` of `spec_text`, and any sink. Out: its text, written in order without memory.
//! The text is `canonical` of spec_text's specs/Canonical.antt. That it is read as the same surface is the law
//! `canonical_text_is_read`.
#![tactic(auto)]

mod constants;
mod declarations;
mod expressions;
mod laws;
mod lists;
mod surface;
mod types;

pub use laws::canonical_text_is_read;
pub use surface::write_text;

#[cfg(test)]
mod tests;

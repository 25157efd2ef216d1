//! The reader of the two texts of a program of the C subset, and what the texts tell.
//! In: the bytes of a header and of a source, or of a header or an expression alone. Out: the one well formed program that
//! they spell or why there is none, and the laws `texts_spell_one_unit` and `texts_are_decided`.
//! The texts are `header_text`, `source_text` and `text` of c99_tree's specs/Spelling.antt. The reader of byte lists in
//! specs/ is cited by no public contract: the code follows it, and the laws are proved by it.
#![tactic(auto)]

mod builders;
mod constants;
mod expression;
mod expressions;
mod fault;
mod front;
mod heading;
mod kinds;
mod known;
mod laws;
mod leaves;
mod lines;
mod rings;
mod statements;
mod unit;
mod values;
mod words;

pub use expression::read_expression;
pub use fault::{ReadExpressionFault, ReadHeaderFault, ReadUnitFault};
pub use heading::{Header, read_header};
pub use laws::{texts_are_decided, texts_spell_one_unit};
pub use unit::read_unit;

#[cfg(test)]
mod tests;

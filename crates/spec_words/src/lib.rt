//! The words and the numbers of the texts.
//! In: the bytes of a word or of a number. Out: the version, truth value, scalar, operator or form that it stands for,
//! or its number (`literal`, `head_of`); and back, the word of each.
//! specs/Words.antt says which word each has, specs/Decimals.antt what digits write, specs/Magnitudes.antt which word of
//! a scalar a number has, and specs/Literals.antt which literals there are. Specifications, their canonical texts,
//! samples and commands are read and written by them; formulas and C texts are to be.
#![tactic(auto)]

mod decimals;
mod head;
mod literals;
mod magnitudes;
mod words;

pub use decimals::{are_digits, decimal_between, decimal_of, value_of};
pub use head::{Bounded, ConstHead, DeclHead, Head, Pair, Single, Vote, Window};
pub use literals::{is_numeric, literal};
pub use magnitudes::{Magnitude, word_of};
pub use words::{
    bounded_word, const_head, const_word, decl_head, decl_word, dir_word, head_of, head_word,
    is_array_word, op1_word, op2_word, pair_word, scalar_of, scalar_word, single_word, spec_word,
    truth_of, truth_text, version_of, vote_word, window_word,
};

#[cfg(test)]
mod tests;

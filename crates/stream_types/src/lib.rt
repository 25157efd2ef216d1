//! Types of streams, and the operators on words.
//! In: the types of a specification, and the words that values are kept as. Out: the list of its types, with their
//! widths and members (`Types`), and what an operator answers (`op1`, `op2`, `shift`, `cast`).
//! specs/Types.antt says how wide a type is, specs/TypeList.antt the rules of a list of types, specs/Numbers.antt what
//! each operator answers.
#![tactic(auto)]

mod arithmetic;
mod array_key;
mod bitwise;
mod comparison;
mod int_ty;
mod laws;
mod number;
mod op_table;
mod ops;
mod scalar;
mod shifts;
mod types;

pub use int_ty::IntTy;
pub use laws::{
    leaves_follow_entries, operators_answer_words, parts_are_words, types_stay_in_longer_lists,
    values_have_a_word_for_each_leaf,
};
pub use op_table::{
    BOOL, INTEGERS, OpTable, SCALARS, cast_applies, op1_applies, op2_applies, shift_applies,
    tables_hold_their_scalars,
};
pub use ops::{cast, op1, op2, shift};
pub use scalar::{Dir, Hazard, Op1, Op2, Scalar, Ty};
pub use types::{Field, FieldAt, StructFault, TypeEntry, Types};

#[cfg(test)]
mod tests;

//! Programs of a small subset of C99, as trees.
//! In: nothing. Out: the tree of a program, what a name in it stands for, the type of an expression, and the words of
//! the text.
//! specs/Spelling.antt says what a program spells, specs/Run.antt what it means, and specs/WellFormed.antt when it is
//! well formed, each beside the section of ISO/IEC 9899:1999 that it restates.
#![tactic(auto)]

mod expr;
mod heights;
mod laws;
mod lookup;
mod rows;
mod typed_laws;
mod types;
mod typing;
mod undefined;
mod unit;
mod words;

pub use expr::{CBin, CExpr, CLit, CUn};
pub use heights::{MOST_HEIGHT, is_low};
pub use laws::{
    count_is_within_weight, run_goes_on, run_reads_first_rows, step_reads_statics_and_row,
};
pub use lookup::{
    Named, fields_of, handler_of, has_array, has_struct, is_defined, is_same, ring_of, var_of,
};
pub use rows::{
    conversions_give, each_rule_refuses, objects_give, operators_give, programs_work, rings_take,
    statements_call, these_have_no_type, undefined_is_met,
};
pub use typed_laws::{
    expressions_find_what_they_name, first_statics_have_their_types, run_respects_types,
    statements_find_what_they_name, step_respects_types, value_has_its_type, words_give_value_back,
    words_give_values_of_their_type, words_read_are_those_of_value,
};
pub use types::{CDef, CProto, CScalar, CTy, CVar};
pub use typing::{Kind, fits_in, kind_of, type_of};
pub use undefined::Undefined;
pub use unit::{CRing, CStmt, Unit};
pub use words::{element_scalar, is_element, is_ring_name, operator, scalar_name, sign, suffix};

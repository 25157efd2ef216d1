//! Whether a program of the C subset is well formed, and its totals.
//! In: a `Unit` of `c99_tree`, whose items this crate gives out too. Out: whether it is well formed, how many bytes of
//! static storage it defines, and how many operators one call of its step can meet.
//! specs/WellFormed.antt, Storage.antt and Weight.antt of c99_tree define them; the calls are `well_formed`, `storage`
//! and `unit_weight`.
#![tactic(auto)]

mod constants;
mod definitions;
mod naming;
mod order;
mod parts;
mod rules;
mod statements;
mod statics;
mod totals;
mod weight;

pub use c99_tree::{
    CBin, CDef, CExpr, CLit, CProto, CRing, CScalar, CStmt, CTy, CUn, CVar, Kind, MOST_HEIGHT,
    Named, Undefined, Unit, conversions_give, count_is_within_weight, each_rule_refuses,
    element_scalar, expressions_find_what_they_name, fields_of, first_statics_have_their_types,
    fits_in, handler_of, has_array, has_struct, is_defined, is_element, is_low, is_ring_name,
    is_same, kind_of, objects_give, operator, operators_give, programs_work, ring_of, rings_take,
    run_goes_on, run_reads_first_rows, run_respects_types, scalar_name, sign, statements_call,
    statements_find_what_they_name, step_reads_statics_and_row, step_respects_types, suffix,
    these_have_no_type, type_of, undefined_is_met, value_has_its_type, var_of,
    words_give_value_back, words_give_values_of_their_type, words_read_are_those_of_value,
};
pub use rules::well_formed;
pub use statics::storage;
pub use weight::unit_weight;

#[cfg(test)]
mod tests;

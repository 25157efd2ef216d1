//! Library forms as streams.
//! The laws that each form over its buffers has the value of its sentence over all earlier steps, and that a lowered
//! specification is plain and typed, and has the steps of the specification.
//! specs/Buffers.antt defines what the buffers hold; the lowering is defined in stream_core's specs/Lower.antt, and
//! answered in `stream_lib`.
#![tactic(auto)]

mod bounded_forms;
mod buffer_lists;
mod lowered_meaning;
mod lowering_laws;
mod simple_forms;
mod sizes;
mod votes;
mod window_forms;

pub use bounded_forms::{historically_in_is_kept, once_in_is_kept, since_in_is_kept};
pub use buffer_lists::{entries_stay_as_samples_grow, forms_have_their_buffers};
pub use lowered_meaning::{
    lowered_expressions_keep_their_values, lowered_specs_keep_their_calls,
    lowered_specs_keep_their_steps, lowered_tables_follow_tables,
};
pub use lowering_laws::{
    lowered_expressions_keep_their_types, lowered_specs_are_plain, lowered_specs_have_typed_parts,
    lowered_specs_keep_the_limits, lowered_specs_keep_their_declarations, lowering_keeps_defs_out,
};
pub use simple_forms::{
    clock_is_kept, historically_is_kept, once_is_kept, since_is_kept, weakly_yesterday_is_kept,
    yesterday_is_kept,
};
pub use sizes::{abs_is_kept, sign_is_kept};
pub use votes::{agreed_is_kept, majority_is_kept};
pub use window_forms::{window_max_is_kept, window_min_is_kept, window_sum_is_kept};

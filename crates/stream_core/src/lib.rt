//! The store of a typed specification, and what it means.
//! In: a name, a type list, and then nodes and items, one after another. Out: the typed `Spec` that they make, which
//! lends them again.
//! What a specification means is defined in specs/Meaning.antt and the files that it names; when it is well typed, in
//! specs/WellTyped.antt; its first fault of soundness, in specs/Soundness.antt. docs/MEANING.md says it in words.
#![tactic(auto)]

mod by_parts;
mod form_weights;
mod laws;
mod node;
mod plain_values;
mod spec;
mod step_parts;
mod typed;
mod value_types;
mod weighing;
mod weight_laws;

pub use laws::{
    calls_grow, clean_histories_have_tables, entries_stay, equations_have_one_solution,
    expressions_have_one_type, greatest_words_are_greatest, handlers_are_named_once,
    least_words_are_least, logs_grow, no_cycle_gives_ranks, ranks_leave_no_cycle,
    steps_read_rows_so_far, tables_meet_the_equations, trees_are_built_of_their_parts,
    well_typed_specs_are_bounded, well_typed_specs_have_trees,
};
pub use node::{LibForm, Node, NodeId};
pub use plain_values::{
    lists_from_now_on_move, plain_specs_stay_plain, plain_values_read_from_now_on,
    rings_follow_tables, typed_nodes_read_within_initial_values,
};
pub use spec::{
    DefItem, ExternItem, Item, LibItem, ObserverItem, Root, Spec, StreamItem, TriggerItem,
};
pub use step_parts::{clean_steps_have_values, steps_make_events_and_tables};
pub use typed::{
    expressions_are_made_of_children, signatures_follow_items, sound_specs_keep_limits,
    trees_stay_as_nodes_are_added, types_are_found, types_stay_as_declarations_are_added,
    types_stay_as_defs_are_written_out, values_are_counted, well_typed_specs_have_typed_parts,
};
pub use value_types::{
    events_have_their_types, nodes_are_written_out, tables_have_their_types,
    values_have_their_types,
};
pub use weight_laws::{buffers_weigh_their_plain_trees, nodes_weigh_their_plain_trees};

#[cfg(test)]
mod tests;

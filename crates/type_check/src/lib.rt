//! The names and types of a specification's text.
//! In: a surface that keeps the table of forms. Out: its type list, or the first fault of names and types.
//! specs/Names.antt says which name is declared again, specs/Judged.antt which type each node has, specs/Untyped.antt
//! which node is the first without one, and specs/TypeOrder.antt what the type list is.
#![tactic(auto)]

pub mod checked;
mod constants;
mod declarations;
mod expressions;
pub mod fault;
pub mod known;
mod laws;
pub mod list;
mod names;
pub mod names_in;
pub mod order;
pub mod parts;
pub mod scope;
mod sent;
pub mod structs;
pub mod verdicts;
mod walk;

pub use checked::check_types;
pub use fault::TypeFault;
pub use laws::{faults_depend_on_no_place, memory_is_no_fault_of_a_text};

#[cfg(test)]
mod tests;

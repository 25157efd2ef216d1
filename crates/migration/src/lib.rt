//! From a program of the old layout, in which a ring of one value has an index, to one in which it has none.
//! In: a well formed `Unit` of `c99_tree` and a name. Out: the program of that name without these indices, which runs as
//! the old one does, or the number of the first such ring that is used otherwise than of old.
//! specs/Migration.antt defines which program is made, and how a ring is used as of old; the call is `migrate`.
#![tactic(auto)]

mod copies;
mod fault;
mod forms;
mod misuse;
mod program;
mod renewal;
mod uses;

pub use fault::MigrateFault;
pub use program::migrate;

#[cfg(test)]
mod tests;

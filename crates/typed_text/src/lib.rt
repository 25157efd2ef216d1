//! The typed specification that a text stands for, as a definition, and its law.
//! specs/ReadSpec.antt defines it (`spec_of`): its name, its type list, its items in order with each expression as a
//! tree, and the library forms by their places. A specification whose trees are these is well typed.
#![tactic(auto)]

mod laws;

pub use laws::typed_texts_are_well_typed;

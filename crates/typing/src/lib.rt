//! The typed form of a specification's surface.
//! In: a surface that keeps the table of forms. Out: the typed specification, or the first fault of names and types.
//! Defined by specs/Typing.antt (`Types`), over type_check's first fault and typed_text's `spec_of`; the call is
//! `type_all`.
#![tactic(auto)]

mod typed;

pub use type_check::TypeFault;
pub use typed::type_all;

#[cfg(test)]
mod tests;

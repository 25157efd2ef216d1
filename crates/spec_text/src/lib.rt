//! A specification's forest as its surface: declarations, types, constants and expressions with their places.
//! In: a forest of atoms and lists. Out: the surface that it holds, or the first fault of shape and its place.
//! Defined by specs/Form.antt (`IsSurfaceOf`), specs/Shape.antt (`shape_fault`) and specs/KeepsTable.antt; the
//! main call is `declarations`. Back, specs/Canonical.antt has the text of a surface.
#![tactic(auto)]

mod constants;
mod expressions;
mod fault;
mod forms;
mod laws;
mod names;
mod parts;
mod specification;
mod surface;
mod types;

pub use fault::ShapeFault;
pub use laws::{
    canonical_texts_are_pages, forest_has_one_surface, forms_tell_surfaces, kept_surfaces_fit,
    parts_ascend, parts_stand_at_their_nodes, sound_forest_has_surface, surfaces_have_one_text,
};
pub use spec_forest::{Forest, ScanFault, Tree, trees};
pub use specification::declarations;
pub use surface::{ConstForm, Decl, Expr, FieldForm, NameAt, Surface, TypeForm};

#[cfg(test)]
mod tests;

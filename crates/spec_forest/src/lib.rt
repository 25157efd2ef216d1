//! A specification's text as a forest of atoms and lists.
//! In: bytes. Out: the nodes of the text with their places, or the first fault of scanning and its place.
//! Defined by specs/Tokens.antt (`IsForestOf`) and specs/Scan.antt (`scan_fault`); the main call is `trees`.
#![tactic(auto)]

mod fault;
mod laws;
mod scan;
mod tree;

pub use fault::ScanFault;
pub use laws::{
    layouts_are_read, pages_are_read, pieces_are_read, places_ascend, shapes_have_one_size,
    sound_text_has_forest, text_has_one_forest,
};
pub use scan::trees;
pub use tree::{Forest, Tree};

#[cfg(test)]
mod tests;

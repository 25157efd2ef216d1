// Nodes of a text.

use sm_io::{Seq, Text};
use sqlite_items::Items;

/// A node of a text. A place is an offset in bytes from 0.
#[derive(Drop)]
pub enum Tree {
    /// An atom: the offset of its first byte, and its bytes.
    Atom { at: u64, text: Text },
    /// A list: the offset of its `(`, and its items in order.
    List { at: u64, items: Items<Tree> },
}

/// The nodes at the top of a text, in order.
#[derive(Drop)]
pub struct Forest {
    pub items: Seq<Tree>,
}

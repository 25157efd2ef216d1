//! How large a ring is.
ghost use Rattle.std.specs.Prelude.{◌≤◌};

/// A ring's size. Each of the two is at least 1.
#[derive(Clone, Copy)]
pub struct Shape {
    /// The number of its rows.
    pub len: u32,
    /// The number of words of each row.
    pub width: u32,
    pub ghost holds_a_word: { (1 ≤ len) × (1 ≤ width) },
}

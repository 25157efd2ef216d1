//! The words of the block, behind a raw pointer.
ghost use Rattle.std.specs.Prelude.{◌≡◌, ℕ, ◌<◌, ◌≤◌, List, [], ◌∷◌, ◌++◌, length, slice_index, slice_set};
ghost use Rattle.ring_bank.specs.Ownership.{words_owned, words_lent};

use std::marker::Model;

/// The owner of memory for `room` words from `at` on, of which the first are written.
pub(crate) struct Words {
    pub(crate) at: *mut u64,
    ghost words: { List ℕ },
    ghost room: { ℕ },
    ghost within: { (length words ≤ room) × (room ≤ 262144) },
}

impl Model for Words {
    ghost also_owns = { λ w. words_owned w.at w.words w.room };

    ghost also_shares = { λ w _ κ. words_lent w.at w.words κ };
}

impl Words {
    /// The word at an index.
    pub(crate) fn get(&self, i: usize) -> u64
        requires { i < length self.now.words }
        ensures { result ≡ slice_index self.now.words i }
    {
        unsafe { *self.at.add(i) }
    }

    /// Writes another word at an index.
    pub(crate) fn put(&mut self, i: usize, word: u64)
        requires { i < length self.old.words }
        ensures { (self.new.words ≡ slice_set self.old.words i word) × (self.new.at ≡ self.old.at) × (self.new.room ≡ self.old.room) }
    {
        unsafe { *self.at.add(i) = word };
    }

    /// Writes a word behind the last one, whose number is `i`.
    pub(crate) fn push(&mut self, i: usize, word: u64)
        requires { (i ≡ length self.old.words) × (i < self.old.room) }
        ensures { (self.new.words ≡ self.old.words ++ word ∷ []) × (self.new.at ≡ self.old.at) × (self.new.room ≡ self.old.room) }
    {
        unsafe { *self.at.add(i) = word };
    }
}

//! The one block of words.
ghost use Rattle.std.specs.Prelude.{◌≡◌, ◌+◌, ◌<◌, ◌≤◌, length, slice_index, IfOk};
ghost use Rattle.ring_bank.specs.Layout.{written};

use crate::memory::{Deed, allocate, deallocate};
use crate::words::Words;
use std::alloc::{AllocError, Global};

/// A block of `len` words, with the right to free it.
pub(crate) struct Block {
    words: Words,
    len: usize,
    deed: Deed<Global>,
    alloc: Global,
    ghost full: { (length words.words ≡ len) × (words.room ≡ len) },
    ghost own: { (deed.at ≡ words.at) × (deed.len ≡ len) × (deed.alloc ≡ alloc) },
}

impl Drop for Block {
    fn drop(self) {
        let Block {
            words,
            len,
            deed,
            alloc,
        } = self;
        deallocate(&alloc, words, len, deed);
    }
}

impl Block {
    /// A block that holds these words.
    pub(crate) fn new(alloc: Global, init: &[u64]) -> Result<Block, AllocError>
        requires { length init.now ≤ 262144 }
        ensures { IfOk result (λ block. block.words.words ≡ init.now) }
    {
        let (mut words, deed) = allocate(&alloc, init.len())?;
        for (i, word) in init.iter().enumerate() {
            words.push(i, *word);
        }
        Ok(Block {
            words,
            len: init.len(),
            deed,
            alloc,
        })
    }

    /// The word at an index.
    pub(crate) fn get(&self, at: usize) -> u64
        requires { at < length self.now.words.words }
        ensures { result ≡ slice_index self.now.words.words at }
    {
        self.words.get(at)
    }

    /// Writes a run of words from the index `at` on.
    pub(crate) fn put(&mut self, at: usize, run: &[u64])
        requires { at + length run.now ≤ length self.old.words.words }
        ensures { self.new.words.words ≡ written at run.now self.old.words.words }
    {
        for (i, word) in run.iter().enumerate() {
            self.words.put(at + i, *word);
        }
    }
}

// A pile of words with a fixed room.
ghost use Rattle.std.specs.Prelude.{◌≡◌, ◌++◌, ◌∷◌, [], length, take, IfOk};
ghost use Rattle.c_exec.specs.Piles.{top, below, kept};

use std::alloc::{AllocError, Global};
use std::marker::Model;

/// Words one on another, at most as many as there is room for. What is put on a full pile is gone.
#[derive(Drop)]
pub(crate) struct Pile {
    words: Vec<u64>,
    len: usize,
}

impl Model for Pile {
    ghost use Rattle.std.specs.Prelude.{◌≤◌, length, take};
    ghost use Rattle.c_exec.specs.PileOf.{PileOf};

    ghost Value = { PileOf };

    ghost view = { λ p. record { items = take p.len p.words.items; room = length p.words.items } };

    ghost invariant = { λ p. p.len ≤ length p.words.items };
}

impl Pile {
    /// An empty pile with room for so many words.
    pub(crate) fn new(alloc: Global, room: usize) -> Result<Pile, AllocError>
        ensures { IfOk result (λ p. p ≡ record { items = []; room = room }) }
    {
        Ok(Pile {
            words: vec![in alloc; 0; room]?,
            len: 0,
        })
    }

    /// The words, the lowest first.
    pub(crate) fn words(&self) -> &[u64]
        ensures { result.now ≡ self.now.items }
    {
        let (words, _) = self.words.as_slice().split_at(self.len);
        words
    }

    /// How many words there are.
    pub(crate) fn len(&self) -> usize
        ensures { result ≡ length self.now.items }
    {
        self.len
    }

    /// Takes all words away.
    pub(crate) fn clear(&mut self)
        ensures items { self.new.items ≡ [] }
        ensures room { self.new.room ≡ self.old.room }
    {
        self.len = 0;
    }

    /// Puts a word on top, if there is room.
    pub(crate) fn push(&mut self, word: u64)
        ensures items { self.new.items ≡ take self.old.room (self.old.items ++ word ∷ []) }
        ensures room { self.new.room ≡ self.old.room }
    {
        if self.len < self.words.len() {
            self.words[self.len] = word;
            self.len += 1;
        }
    }

    /// Puts words on top one after another, as far as there is room.
    pub(crate) fn extend(&mut self, run: &[u64])
        ensures items { self.new.items ≡ take self.old.room (self.old.items ++ run.now) }
        ensures room { self.new.room ≡ self.old.room }
    {
        let _ = &self.words;
        for word in run {
            self.push(*word);
        }
    }

    /// The word on top, or 0.
    pub(crate) fn top(&self) -> u64
        ensures { result ≡ top self.now.items }
    {
        if self.len == 0 {
            return 0;
        }
        self.words[self.len - 1]
    }

    /// Takes the word on top away. It is 0 where there is none.
    pub(crate) fn pop(&mut self) -> u64
        ensures word { result ≡ top self.old.items }
        ensures items { self.new.items ≡ below self.old.items }
        ensures room { self.new.room ≡ self.old.room }
    {
        if self.len == 0 {
            return 0;
        }
        self.len -= 1;
        self.words[self.len]
    }

    /// Keeps the lowest `base` words, and on them `n` words of those from `off` on above.
    pub(crate) fn keep(&mut self, base: usize, off: usize, n: usize)
        ensures items { self.new.items ≡ kept base off n self.old.items }
        ensures room { self.new.room ≡ self.old.room }
    {
        if self.len < base {
            return;
        }
        let above = self.len - base;
        if above < off {
            self.len = base;
            return;
        }
        let count = n.min(above - off);
        let from = base + off;
        self.words
            .as_mut_slice()
            .copy_within(from..from + count, base);
        self.len = base + count;
    }
}

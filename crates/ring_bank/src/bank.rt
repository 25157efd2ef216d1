//! The bank: rings of rows over one block.
ghost use Rattle.std.specs.Prelude.{◌≡◌, ◌<◌, ◌≤◌, length, slice_index, slice_set, IfOk};
ghost use Rattle.ring_bank.specs.RingRows.{rings_of, words_of, ring_at, row_at, width_of, pushed};

use crate::block::Block;
use crate::ring::{Ring, lay_out};
use crate::shape::Shape;
use std::alloc::{AllocError, Global};
use std::marker::Model;

/// Rings of rows of words, which contracts see as a list of rings: each is the list of its rows, the oldest first,
/// and each row is the list of its words.
#[derive(Drop)]
pub struct Bank {
    block: Block,
    rings: Vec<Ring>,
}

impl Model for Bank {
    ghost use Rattle.std.specs.Prelude.{ℕ, ◌≤◌, List, length};
    ghost use Rattle.std.specs.Coded.{coded_list, coded_ℕ};

    ghost Value = { List (List (List ℕ)) };

    ghost coded = { coded_list (coded_list (coded_list coded_ℕ)) };

    ghost use Rattle.ring_bank.specs.Layout.{rings_in, Laid};

    ghost view = { λ b. rings_in b.rings.items b.block.words.words };

    ghost invariant = { λ b. Laid 0 b.rings.items (length b.block.words.words) × (length b.block.words.words ≤ 262144) };
}

impl Bank {
    /// Rings of these shapes that hold the words of `init`: the rings in turn, each with its rows from the oldest to
    /// the newest.
    pub fn new(alloc: Global, shapes: &[Shape], init: &[u64]) -> Result<Bank, AllocError>
        requires words { length init.now ≡ words_of shapes.now }
        requires few { length init.now ≤ 262144 }
        ensures { IfOk result (λ bank. bank ≡ rings_of shapes.now init.now) }
    {
        let rings = lay_out(alloc, shapes)?;
        let block = Block::new(alloc, init)?;
        Ok(Bank { block, rings })
    }

    /// Word `word` of the ring's row `k`, counted from the oldest, which is row 0.
    pub fn read(&self, ring: usize, k: usize, word: usize) -> u64
        requires ring { ring < length self.now }
        requires row { k < length (ring_at self.now ring) }
        requires word { word < length (row_at (ring_at self.now ring) k) }
        ensures { result ≡ slice_index (row_at (ring_at self.now ring) k) word }
    {
        let ring = &self.rings[ring];
        self.block.get(ring.row(k) + word)
    }

    /// The ring's oldest row goes, and `row` becomes its newest. The other rings stay. This writes one row and moves
    /// one index, however many rows the ring has.
    pub fn push(&mut self, ring: usize, row: &[u64])
        requires ring { ring < length self.old }
        requires width { length row.now ≡ width_of (ring_at self.old ring) }
        ensures { self.new ≡ slice_set self.old ring (pushed (ring_at self.old ring) row.now) }
    {
        let ring = &mut self.rings[ring];
        let oldest = ring.row(0);
        ring.turn();
        self.block.put(oldest, row);
    }

    /// The number of the ring's rows.
    pub fn rows(&self, ring: usize) -> usize
        requires { ring < length self.now }
        ensures { result ≡ length (ring_at self.now ring) }
    {
        self.rings[ring].len
    }
}

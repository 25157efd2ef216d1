// A source in memory.
ghost use Rattle.std.specs.Prelude.{◌≡◌, ◌≤◌, length, take, drop, ◌++◌, min, OnErr, IfOk, Some, true, false, MatchResult};
ghost use Rattle.std.specs.Io.{ReadsAtMost};
ghost use Rattle.sm_io.specs.Causes.{HasCause, one_more};
ghost use Rattle.sm_io.specs.Known.{Reads, EndsWell};
ghost use Rattle.sm_io.specs.Memory.{is_failing, given, after_read, after_failed_read};

use crate::outside::{Failed, Source};
use std::marker::Model;

/// A source of given bytes, in pieces of a given size, whose reads fail by their numbers, counted from 0.
/// The number of a read, and the count of faults, stand still at `u64::MAX`.
#[derive(Drop)]
pub struct MemSource {
    bytes: Vec<u8>,
    at: usize,
    piece: usize,
    fails: Vec<u64>,
    calls: u64,
    faults: u64,
}

impl Model for MemSource {
    ghost use Rattle.std.specs.Prelude.{◌≤◌, drop, vec_len};
    ghost use Rattle.sm_io.specs.Memory.{Reading};

    ghost Value = { Reading };

    ghost view = { λ a. record { left = drop a.at a.bytes.items; piece = a.piece; fails = a.fails.items; calls = a.calls; faults = a.faults } };

    ghost invariant = { λ a. (a.at ≤ vec_len a.bytes) × (1 ≤ a.piece) };
}

impl MemSource {
    /// The bytes, at most `piece` of them a read. The reads whose numbers are in `fails` fail.
    pub fn new(bytes: Vec<u8>, piece: usize, fails: Vec<u64>) -> MemSource
        requires { 1 ≤ piece }
        ensures { result ≡ record { left = bytes.items; piece = piece; fails = fails.items; calls = 0; faults = 0 } }
    {
        MemSource {
            bytes,
            at: 0,
            piece,
            fails,
            calls: 0,
            faults: 0,
        }
    }
}

// Gives the first of the bytes that are left, as many as the piece and the buffer take.
fn give(left: &[u8], piece: usize, buf: &mut [u8]) -> usize
    ensures count { result ≡ min (min piece (length buf.old)) (length left.now) }
    ensures bytes { left.now ≡ take result buf.new ++ drop result left.now }
{
    let count = piece.min(buf.len()).min(left.len());
    buf[..count].copy_from_slice(&left[..count]);
    count
}

impl Source for MemSource {
    ghost left = { λ s. Some s.left };

    ghost faults = { λ s. s.faults };

    ghost reads = { λ s. Some s.calls };

    fn read(&mut self, buf: &mut [u8]) -> Result<usize, Failed>
        ensures bound { ReadsAtMost result buf.new }
        ensures bytes { Reads (Some self.old.left) (Some self.new.left) result buf.new }
        ensures end { EndsWell (Some self.new.left) result buf.new }
        ensures cause { HasCause self.old.faults self.new.faults result }
        ensures counted { Some self.new.calls ≡ one_more (Some self.old.calls) }
        ensures numbered { MatchResult result (λ _. is_failing self.old.fails self.old.calls ≡ false) (λ _. is_failing self.old.fails self.old.calls ≡ true) }
        ensures ok { IfOk result (λ n. (n ≡ given self.old (length buf.old)) × (self.new ≡ after_read self.old (length buf.old))) }
        ensures err { OnErr result (self.new ≡ after_failed_read self.old) }
    {
        let call = self.calls;
        self.calls = self.calls.saturating_add(1);
        if self.fails.contains(&call) {
            self.faults = self.faults.saturating_add(1);
            return Err(Failed);
        }
        let count = give(&self.bytes[self.at..], self.piece, buf);
        self.at += count;
        Ok(count)
    }
}

// A sink in memory with so much room and no more.
ghost use Rattle.std.specs.Prelude.{◌≡◌, ◌+◌, ◌-◌, ◌<◌, ◌≤◌, ◌++◌, [], length, take, min, OnErr, IfOk, Some, true, false, MatchResult};
ghost use Rattle.std.specs.Io.{WritesAtMost};
ghost use Rattle.sm_io.specs.Causes.{HasCause};
ghost use Rattle.sm_io.specs.Known.{Writes};
ghost use Rattle.sm_io.specs.Memory.{Filling, has_room, is_refused, after_write, after_failed_write};

use crate::outside::{Failed, Sink};
use std::alloc::{AllocError, Global};
use std::marker::Model;

/// A sink with room for a given number of bytes, whose writes fail by their numbers, counted from 0, or where
/// there is no room for any byte of a piece. A write takes as much of its piece as there is room for.
/// The number of a write, and the count of faults, stand still at `u64::MAX`.
#[derive(Drop)]
pub struct MemSink {
    space: Vec<u8>,
    at: usize,
    fails: Vec<u64>,
    calls: u64,
    faults: u64,
}

impl Model for MemSink {
    ghost use Rattle.std.specs.Prelude.{◌≤◌, take, vec_len};
    ghost use Rattle.sm_io.specs.Memory.{Filling};

    ghost Value = { Filling };

    ghost view = { λ a. record { taken = take a.at a.space.items; room = vec_len a.space; fails = a.fails.items; calls = a.calls; faults = a.faults } };

    ghost invariant = { λ a. a.at ≤ vec_len a.space };
}

impl MemSink {
    /// A sink that has taken nothing. The writes whose numbers are in `fails` fail.
    pub fn new(alloc: Global, room: usize, fails: Vec<u64>) -> Result<MemSink, AllocError>
        ensures { IfOk result (λ s. s ≡ record { taken = []; room = room; fails = fails.items; calls = 0; faults = 0 }) }
    {
        Ok(MemSink {
            space: Vec::from_elem(alloc, 0u8, room)?,
            at: 0,
            fails,
            calls: 0,
            faults: 0,
        })
    }

    /// The bytes that it took.
    pub fn taken(&self) -> &[u8]
        ensures { result.now ≡ self.now.taken }
    {
        &self.space[..self.at]
    }
}

// Puts the first of the bytes behind those that are there, as many as there is room for.
fn fill(space: &mut [u8], at: usize, bytes: &[u8]) -> usize
    requires { at ≤ length space.old }
    ensures count { result ≡ min (length space.old - at) (length bytes.now) }
    ensures same { length space.new ≡ length space.old }
    ensures taken { take (at + result) space.new ≡ take at space.old ++ take result bytes.now }
{
    let count = (space.len() - at).min(bytes.len());
    space[at..at + count].copy_from_slice(&bytes[..count]);
    count
}

impl Sink for MemSink {
    ghost taken = { λ s. Some s.taken };

    ghost faults = { λ s. s.faults };

    fn write(&mut self, bytes: &[u8]) -> Result<usize, Failed>
        ensures bound { WritesAtMost result bytes.now }
        ensures some { IfOk result (λ n. 0 < length bytes.now → 0 < n) }
        ensures bytes { Writes (Some self.old.taken) (Some self.new.taken) result bytes.now }
        ensures cause { HasCause self.old.faults self.new.faults result }
        ensures numbered { MatchResult result (λ _. is_refused self.old bytes.now ≡ false) (λ _. is_refused self.old bytes.now ≡ true) }
        ensures ok { IfOk result (λ n. (n ≡ min (has_room self.old) (length bytes.now)) × (self.new ≡ after_write self.old bytes.now)) }
        ensures err { OnErr result (self.new ≡ after_failed_write self.old) }
    {
        let call = self.calls;
        self.calls = self.calls.saturating_add(1);
        if self.fails.contains(&call) {
            self.faults = self.faults.saturating_add(1);
            return Err(Failed);
        }
        if !bytes.is_empty() && self.at == self.space.len() {
            self.faults = self.faults.saturating_add(1);
            return Err(Failed);
        }
        let count = fill(&mut self.space, self.at, bytes);
        self.at += count;
        Ok(count)
    }
}

// A sink in memory that grows.
ghost use Rattle.std.specs.Prelude.{◌≡◌, ◌+◌, ◌<◌, [], length, OnErr, IfOk, Some};
ghost use Rattle.std.specs.Io.{WritesAtMost};
ghost use Rattle.sm_io.specs.Causes.{HasCause};
ghost use Rattle.sm_io.specs.Known.{Writes};
ghost use Rattle.sm_io.specs.Memory.{Growing, next};

use crate::outside::{Failed, Sink};
use std::alloc::Global;
use std::marker::Model;

/// A sink that grows. A write takes its whole piece, or finds no memory and takes nothing.
#[derive(Drop)]
pub struct VecSink {
    bytes: Vec<u8>,
    starved: u64,
}

impl Model for VecSink {
    ghost use Rattle.sm_io.specs.Memory.{Growing};

    ghost Value = { Growing };

    ghost view = { λ a. record { taken = a.bytes.items; starved = a.starved } };
}

impl VecSink {
    /// A sink that has taken nothing.
    pub fn new(alloc: Global) -> VecSink
        ensures { result ≡ record { taken = []; starved = 0 } }
    {
        VecSink {
            bytes: Vec::new(alloc),
            starved: 0,
        }
    }

    /// How many writes found no memory. It stands still at `u64::MAX`.
    pub fn starved(&self) -> u64
        ensures { result ≡ self.now.starved }
    {
        self.starved
    }

    /// The bytes that it took.
    pub fn taken(&self) -> &[u8]
        ensures { result.now ≡ self.now.taken }
    {
        self.bytes.as_slice()
    }
}

impl Sink for VecSink {
    ghost taken = { λ s. Some s.taken };

    ghost faults = { λ s. s.starved };

    fn write(&mut self, bytes: &[u8]) -> Result<usize, Failed>
        ensures bound { WritesAtMost result bytes.now }
        ensures some { IfOk result (λ n. 0 < length bytes.now → 0 < n) }
        ensures bytes { Writes (Some self.old.taken) (Some self.new.taken) result bytes.now }
        ensures cause { HasCause self.old.starved self.new.starved result }
        ensures whole { IfOk result (λ n. (n ≡ length bytes.now) × (self.new.starved ≡ self.old.starved)) }
        ensures starved { OnErr result (self.new.starved ≡ next self.old.starved) }
    {
        match self.bytes.extend_from_slice(bytes) {
            Ok(()) => Ok(bytes.len()),
            Err(_) => {
                self.starved = self.starved.saturating_add(1);
                Err(Failed)
            }
        }
    }
}

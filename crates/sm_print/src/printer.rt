// A sink that stays silent after its first fault.
ghost use Rattle.std.specs.Prelude.{◌≡◌, decimal, is_ok, not};
ghost use Rattle.std.specs.Fmt.{signed_decimal};
ghost use Rattle.sm_print.specs.Prints.{Prints, Starts};

use itoa::Buffer;
use sm_io::{Failed, Sink, write_all};

/// A sink, and whether a write has failed. After a failure nothing is written.
#[derive(Drop)]
pub struct Printer<'a, K: Sink> {
    sink: &'a mut K,
    failed: bool,
}

impl<'a, K: Sink> Printer<'a, K> {
    /// A printer that has printed nothing.
    pub fn new(sink: &'a mut K) -> Printer<'a, K>
        ensures same { result.sink.ghost_name ≡ sink.entry.ghost_name }
        ensures starts { Starts sink.old result }
    {
        Printer {
            sink,
            failed: false,
        }
    }

    /// Prints some bytes.
    pub fn put(&mut self, bytes: &[u8])
        ensures { Prints K.taken K.faults self.old bytes.now self.new }
    {
        if !self.failed {
            self.failed = write_all(self.sink, bytes).is_err();
        }
    }

    /// Prints a number.
    pub fn number(&mut self, n: u64)
        ensures { Prints K.taken K.faults self.old (decimal n) self.new }
    {
        let mut buffer = Buffer::new();
        self.put(buffer.format(n).as_bytes());
    }

    /// Prints a signed number.
    pub fn signed(&mut self, z: i64)
        ensures { Prints K.taken K.faults self.old (signed_decimal z) self.new }
    {
        let mut buffer = Buffer::new();
        self.put(buffer.format(z).as_bytes());
    }

    /// Whether all that was printed was written.
    pub fn outcome(&self) -> Result<(), Failed>
        ensures { is_ok result ≡ not self.now.failed }
    {
        if self.failed { Err(Failed) } else { Ok(()) }
    }
}

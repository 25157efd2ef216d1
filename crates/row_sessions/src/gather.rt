// Lines that wait to be written together.
ghost use Rattle.std.specs.Prelude.{◌≡◌, ◌<◌, [], length, OnOk, OnErr, Some};
ghost use Rattle.row_sessions.specs.Stepping.{output, Flushes, MakesRoom};

use sm_io::{Failed, Sink};
use std::alloc::Global;

/// A sink that holds what it takes until it is flushed into another one. A write takes its whole piece, or finds no
/// memory and takes nothing.
#[derive(Drop)]
pub struct Gather {
    pub bytes: Vec<u8>,
    pub starved: u64,
}

impl Gather {
    /// Holds nothing.
    pub fn new(alloc: Global) -> Gather
        ensures { result.bytes.items ≡ [] }
    {
        Gather {
            bytes: Vec::new(alloc),
            starved: 0,
        }
    }

    /// Writes all that it holds, and holds nothing then. `Failed` comes only where the other sink failed, which hasn't
    /// taken all then; what was held is held still.
    pub fn flush<K: Sink>(&mut self, out: &mut K) -> Result<(), Failed>
        ensures empty { OnOk result (self.new.bytes.items ≡ []) }
        ensures kept { OnErr result (self.new.bytes.items ≡ self.old.bytes.items) }
        ensures writes { Flushes (output (K.taken out.old) (K.faults out.old)) (output (K.taken out.new) (K.faults out.new)) self.old.bytes.items result }
    {
        let mut done = 0;
        while done < self.bytes.len() {
            match out.write(&self.bytes[done..]) {
                Ok(count) => done += count,
                Err(Failed) => return Err(Failed),
            }
        }
        self.bytes.clear();
        Ok(())
    }

    /// Flushes where it holds much.
    pub fn make_room<K: Sink>(&mut self, out: &mut K) -> Result<(), Failed>
        ensures room { OnOk result (length self.new.bytes.items < 4096) }
        ensures writes { MakesRoom (output (K.taken out.old) (K.faults out.old)) (output (K.taken out.new) (K.faults out.new)) self.old.bytes.items self.new.bytes.items result }
    {
        if self.bytes.len() < 4096 {
            return Ok(());
        }
        self.flush(out)
    }
}

impl Sink for Gather {
    ghost taken = { λ s. Some s.bytes.items };

    ghost faults = { λ s. s.starved };

    fn write(&mut self, bytes: &[u8]) -> Result<usize, Failed> {
        match self.bytes.extend_from_slice(bytes) {
            Ok(()) => Ok(bytes.len()),
            Err(_) => {
                self.starved = self.starved.saturating_add(1);
                Err(Failed)
            }
        }
    }
}

// Where bytes come from and go to.
ghost use Rattle.std.specs.Prelude.{◌≡◌, ◌<◌, ◌≤◌, List, ℕ, Option, length, drop, IfOk, OnOk, OnErr, IfSome, IsErrOf, is_ok, vec_len};
ghost use Rattle.std.specs.List.{flat_map};
ghost use Rattle.std.specs.Io.{ReadsAtMost, WritesAtMost};
ghost use Rattle.sm_io.specs.Causes.{HasCause, Rose, one_more};
ghost use Rattle.sm_io.specs.Fetch.{fetch_fault_code};
ghost use Rattle.sm_io.specs.Known.{Reads, EndsWell, Writes};
ghost use Rattle.sm_io.specs.Written.{WritesText};

use std::alloc::Global;
use thiserror::Error;

/// A call on the outside failed.
#[derive(Clone, Copy, Debug, PartialEq, Eq)]
pub struct Failed;

/// Why a fetch has no bytes: the name is absent, its bytes are more than the limit, the call failed, or no memory
/// was found.
#[derive(Debug, PartialEq, Eq, Drop, Error)]
pub enum FetchFault {
    #[error("no such file")]
    Missing,
    #[error("the file is too long")]
    TooLong,
    #[error("the file could not be read")]
    Failed,
    #[error("out of memory")]
    Memory,
}

impl FetchFault {
    /// Its number: 1 for Missing, 2 for TooLong, 3 for Failed, 4 for Memory.
    pub fn code(&self) -> u8
        ensures { result ≡ fetch_fault_code self.now }
    {
        match self {
            FetchFault::Missing => 1,
            FetchFault::TooLong => 2,
            FetchFault::Failed => 3,
            FetchFault::Memory => 4,
        }
    }
}

/// Where bytes come from. Whether it tells the bytes that are left never changes. Its count of faults never falls,
/// and stays where the answer is `Ok`. Each read is counted, where it tells that.
pub trait Source {
    /// The bytes that are left, where it tells them.
    ghost left: { Self → Option (List ℕ) };

    /// How often it has failed.
    ghost faults: { Self → ℕ };

    /// How often it was read, where it tells that.
    ghost reads: { Self → Option ℕ };

    /// Gives the next `n` bytes, as the first `n` of the buffer; none into a buffer with room is the end of input.
    /// `Failed` comes only where the count rose, and takes no byte.
    fn read(&mut self, buf: &mut [u8]) -> Result<usize, Failed>
        ensures bound { ReadsAtMost result buf.new }
        ensures bytes { Reads (left self.old) (left self.new) result buf.new }
        ensures end { EndsWell (left self.new) result buf.new }
        ensures cause { HasCause (faults self.old) (faults self.new) result }
        ensures counted { reads self.new ≡ one_more (reads self.old) };
}

/// Where bytes go to. Whether it tells the bytes that it took never changes, and its count of faults never falls,
/// and stays where the answer is `Ok`.
pub trait Sink {
    /// The bytes that it took, where it tells them.
    ghost taken: { Self → Option (List ℕ) };

    /// How often it has failed.
    ghost faults: { Self → ℕ };

    /// Takes the first `n` bytes, and of a nonempty piece at least one. `Failed` comes only where the count rose,
    /// and takes no byte.
    fn write(&mut self, bytes: &[u8]) -> Result<usize, Failed>
        ensures bound { WritesAtMost result bytes.now }
        ensures some { IfOk result (λ n. 0 < length bytes.now → 0 < n) }
        ensures bytes { Writes (taken self.old) (taken self.new) result bytes.now }
        ensures cause { HasCause (faults self.old) (faults self.new) result };
}

/// A place for files, by their names. Whether it tells them never changes, and its count of faults never falls, and
/// stays on any answer but `Failed`.
pub trait Shelf {
    ghost use Rattle.sm_io.specs.Files.{Files, with_file, SameBut};
    ghost use Rattle.sm_io.specs.FetchAnswers.{Fetches};

    /// The files by their names, where it tells them.
    ghost files: { Self → Option Files };

    /// How often it has failed.
    ghost faults: { Self → ℕ };

    /// The bytes of a file of at most `limit` bytes. No fetch changes a file. `Failed` comes only where the count
    /// rose, and any other answer only where it stayed.
    fn fetch(&mut self, alloc: Global, name: &str, limit: usize) -> Result<Vec<u8>, FetchFault>
        ensures within { IfOk result (λ bytes. vec_len bytes ≤ limit) }
        ensures found { IfSome (files self.old) (λ m. Fetches m name.now limit result) }
        ensures same { files self.new ≡ files self.old }
        ensures later { faults self.old ≤ faults self.new }
        ensures failed { IsErrOf result FetchFault.Failed → Rose (faults self.old) (faults self.new) }
        ensures steady { ¬ IsErrOf result FetchFault.Failed → faults self.new ≡ faults self.old };

    /// Replaces the bytes of a file. `Failed` comes only where the count rose, and the file is then unknown. All
    /// other files are as they were.
    fn put(&mut self, name: &str, bytes: &[u8]) -> Result<(), Failed>
        ensures done { OnOk result (files self.new ≡ with_file (files self.old) name.now bytes.now) }
        ensures others { SameBut name.now (files self.old) (files self.new) }
        ensures cause { HasCause (faults self.old) (faults self.new) result };
}

/// Writes all the bytes, or fails after a prefix of them.
pub fn write_all<K: Sink>(sink: &mut K, bytes: &[u8]) -> Result<(), Failed>
    ensures { WritesText (K.taken sink.old) (K.taken sink.new) (K.faults sink.old) (K.faults sink.new) (is_ok result) bytes.now }
{
    let mut done = 0;
    while done < bytes.len() {
        done += sink.write(&bytes[done..])?;
    }
    Ok(())
}

/// Writes some pieces one after another, or fails after a prefix of them all.
pub fn write_parts<K: Sink>(sink: &mut K, parts: &[&[u8]]) -> Result<(), Failed>
    ensures { WritesText (K.taken sink.old) (K.taken sink.new) (K.faults sink.old) (K.faults sink.new) (is_ok result) (flat_map (λ part. part.now) parts.now) }
{
    for part in parts {
        write_all(sink, part)?;
    }
    Ok(())
}

/// Exactly one read, into a buffer with room.
pub fn read_some<S: Source>(source: &mut S, buf: &mut [u8]) -> Result<usize, Failed>
    requires { 0 < length buf.old }
    ensures bound { ReadsAtMost result buf.new }
    ensures bytes { Reads (S.left source.old) (S.left source.new) result buf.new }
    ensures end { EndsWell (S.left source.new) result buf.new }
    ensures cause { HasCause (S.faults source.old) (S.faults source.new) result }
    ensures one { S.reads source.new ≡ one_more (S.reads source.old) }
{
    source.read(buf)
}

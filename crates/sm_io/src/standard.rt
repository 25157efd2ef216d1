// The real outside: standard streams and the current folder. What their readers and writers tell, the adapters' calls
// keep to; of the real ones std tells no content.
//
// A call of std that was interrupted is made again and counts as no fault, and neither does an absent file. Every
// other error of std raises the count by one.
ghost use Rattle.std.specs.Prelude.{◌≡◌, ◌<◌, ◌≤◌, length, IfOk, None, vec_len};
ghost use Rattle.std.specs.Io.{ReadsAtMost, WritesAtMost};
ghost use Rattle.std.specs.Io.KnownBytes.{ReadConsumes, WriteAppends};
ghost use Rattle.sm_io.specs.Causes.{HasCause, one_more};
ghost use Rattle.sm_io.specs.Known.{Reads, EndsWell, Writes};

use crate::outside::{Failed, FetchFault, Shelf, Sink, Source};
use crate::streams::{opening_fault, read_once, read_whole, write_once, write_whole};
use std::alloc::Global;
use std::fs;
use std::io::{Read, Write};
use std::rt::Files;

/// A reader of std as a source.
#[derive(Drop)]
pub struct StdSource<R: Read> {
    reader: R,
    faults: u64,
}

impl<R: Read> StdSource<R> {
    /// The source over a reader, without a fault so far.
    pub fn new(reader: R) -> StdSource<R>
        ensures faults { result.faults ≡ 0 }
        ensures reader { result.reader ≡ reader }
    {
        StdSource { reader, faults: 0 }
    }
}

impl<R: Read> Source for StdSource<R> {
    ghost left = { λ _. None };

    ghost faults = { λ s. s.faults };

    ghost reads = { λ _. None };

    fn read(&mut self, buf: &mut [u8]) -> Result<usize, Failed>
        ensures bound { ReadsAtMost result buf.new }
        ensures bytes { Reads None None result buf.new }
        ensures end { EndsWell None result buf.new }
        ensures cause { HasCause self.old.faults self.new.faults result }
        ensures counted { one_more None ≡ None }
        ensures inner { ReadConsumes (R.remaining self.old.reader) (R.remaining self.new.reader) result buf.new }
    {
        let result = read_once(&mut self.reader, buf);
        if result.is_err() {
            self.faults = self.faults.saturating_add(1);
        }
        result
    }
}

/// A writer of std as a sink.
#[derive(Drop)]
pub struct StdSink<W: Write> {
    writer: W,
    faults: u64,
}

impl<W: Write> StdSink<W> {
    /// The sink over a writer, without a fault so far.
    pub fn new(writer: W) -> StdSink<W>
        ensures faults { result.faults ≡ 0 }
        ensures writer { result.writer ≡ writer }
    {
        StdSink { writer, faults: 0 }
    }
}

impl<W: Write> Sink for StdSink<W> {
    ghost taken = { λ _. None };

    ghost faults = { λ s. s.faults };

    fn write(&mut self, bytes: &[u8]) -> Result<usize, Failed>
        ensures bound { WritesAtMost result bytes.now }
        ensures some { IfOk result (λ n. 0 < length bytes.now → 0 < n) }
        ensures bytes { Writes None None result bytes.now }
        ensures cause { HasCause self.old.faults self.new.faults result }
        ensures inner { WriteAppends (W.contents self.old.writer) (W.contents self.new.writer) result bytes.now }
    {
        let result = write_once(&mut self.writer, bytes);
        if result.is_err() {
            self.faults = self.faults.saturating_add(1);
        }
        result
    }
}

/// The files of the current folder as a shelf.
#[derive(Drop)]
pub struct DirShelf<R: Files> {
    rt: R,
    faults: u64,
}

impl<R: Files> DirShelf<R> {
    /// The shelf over a runtime's files, without a fault so far.
    pub fn new(rt: R) -> DirShelf<R>
        ensures { result.faults ≡ 0 }
    {
        DirShelf { rt, faults: 0 }
    }
}

// Reads a whole file.
fn read_file<R: Files>(
    alloc: Global,
    rt: &R,
    name: &str,
    limit: usize,
) -> Result<Vec<u8>, FetchFault>
    ensures { IfOk result (λ bytes. vec_len bytes ≤ limit) }
{
    match fs::open(rt, name) {
        Ok(mut file) => read_whole(alloc, &mut file, limit),
        Err(e) => Err(opening_fault(&e)),
    }
}

// Replaces a whole file.
fn write_file<R: Files>(rt: &R, name: &str, bytes: &[u8]) -> Result<(), Failed> {
    let Ok(mut file) = fs::create(rt, name) else {
        return Err(Failed);
    };
    write_whole(&mut file, bytes)
}

impl<R: Files> Shelf for DirShelf<R> {
    ghost files = { λ _. None };

    ghost faults = { λ s. s.faults };

    fn fetch(&mut self, alloc: Global, name: &str, limit: usize) -> Result<Vec<u8>, FetchFault> {
        let result = read_file(alloc, &self.rt, name, limit);
        if matches!(result, Err(FetchFault::Failed)) {
            self.faults = self.faults.saturating_add(1);
        }
        result
    }

    fn put(&mut self, name: &str, bytes: &[u8]) -> Result<(), Failed> {
        let result = write_file(&self.rt, name, bytes);
        if result.is_err() {
            self.faults = self.faults.saturating_add(1);
        }
        result
    }
}

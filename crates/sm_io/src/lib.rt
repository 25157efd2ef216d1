//! The outside of the tool, and the small types that contracts see as lists and numbers.
//! In: bytes, names and files. Out: sources, sinks and shelves by what they hold and how often they failed; `Name`,
//! `Text`, `Seq` and `Steps`.
//! specs/Known.antt says what a source has left and a sink took, specs/Files.antt and specs/Fetch.antt what a shelf
//! holds and fetches, specs/Causes.antt when a fault is answered, specs/Streams.antt what the errors of std mean,
//! specs/Words.antt which bytes are a name.
#![tactic(auto)]

mod mem_shelf;
mod mem_sink;
mod mem_source;
mod names;
mod outside;
mod seq;
mod standard;
mod steps;
mod streams;
mod vec_sink;
mod words;

pub use mem_shelf::MemShelf;
pub use mem_sink::MemSink;
pub use mem_source::MemSource;
pub use names::{Name, Text};
pub use outside::{Failed, FetchFault, Shelf, Sink, Source, read_some, write_all, write_parts};
pub use seq::Seq;
pub use standard::{DirShelf, StdSink, StdSource};
pub use steps::Steps;
pub use streams::{is_interruption, opening_fault, read_once, read_whole, write_once, write_whole};
pub use vec_sink::VecSink;
pub use words::is_name;

#[cfg(test)]
mod tests;

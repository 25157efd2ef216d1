// A shelf in memory.
ghost use Rattle.std.specs.Prelude.{◌≡◌, ◌↔◌, ◌+◌, ◌-◌, ◌^◌, ◌≤◌, [], min, OnOk, OnErr, IfOk, IsErrOf, Some, true, false, vec_len, MatchBool};
ghost use Rattle.std.specs.Option.{option_copied};
ghost use Rattle.std.specs.FinMap as map;
ghost use Rattle.std.specs.Ordering.{nat_cmp};
ghost use Rattle.std.specs.Cmp.Lexicographic.{slice_cmp};
ghost use Rattle.sm_io.specs.Causes.{HasCause, Rose};
ghost use Rattle.sm_io.specs.Memory.{Shelved, is_failing, faults_of, after_call, after_failed_call, after_put, after_starved_put};
ghost use Rattle.sm_io.specs.Files.{with_file, SameBut};
ghost use Rattle.sm_io.specs.FetchAnswers.{Fetches};

use crate::names::Text;
use crate::outside::{Failed, FetchFault, Shelf};
use std::alloc::{AllocError, Global};
use std::collections::VecDeque;
use std::marker::Model;

/// Files in memory, kept as a log of what was put, the newest first. Fetches and puts are numbered together
/// from 0, and fail by their numbers. The counts stand still at `u64::MAX`.
#[derive(Drop)]
pub struct MemShelf {
    alloc: Global,
    log: VecDeque<(Text, Text)>,
    fails: Vec<u64>,
    calls: u64,
    failed: u64,
    starved: u64,
}

impl Model for MemShelf {
    ghost use Rattle.std.specs.FinMap.{from_entries};
    ghost use Rattle.sm_io.specs.Memory.{Shelved, shelved_code};

    ghost Value = { Shelved };

    ghost coded = { shelved_code };

    ghost view = { λ a. record { files = from_entries a.log.items; fails = a.fails.items; calls = a.calls; failed = a.failed; starved = a.starved } };
}

// The newest file under a name.
fn file_of<'a>(log: &'a VecDeque<(Text, Text)>, name: &[u8]) -> Option<&'a [u8]>
    ensures { option_copied result ≡ map.find (slice_cmp nat_cmp) name.now log.now.items }
{
    for file in log {
        if name == file.0.bytes() {
            return Some(file.1.bytes());
        }
    }
    None
}

impl MemShelf {
    /// An empty shelf. The fetches and puts whose numbers are in `fails` fail.
    pub fn new(alloc: Global, fails: Vec<u64>) -> MemShelf
        ensures { result ≡ record { files = map.empty; fails = fails.items; calls = 0; failed = 0; starved = 0 } }
    {
        MemShelf {
            alloc,
            log: VecDeque::new(alloc),
            fails,
            calls: 0,
            failed: 0,
            starved: 0,
        }
    }

    /// How many puts found no memory.
    pub fn starved(&self) -> u64
        ensures { result ≡ self.now.starved }
    {
        self.starved
    }

    /// Lays a file, as a call with no number.
    pub fn add(&mut self, name: &str, bytes: Vec<u8>) -> Result<(), AllocError>
        ensures ok { OnOk result (self.new ≡ record self.old { files = map.insert self.old.files name.now bytes.items }) }
        ensures err { OnErr result (self.new ≡ self.old) }
    {
        let name = Text::new(Vec::from_slice(self.alloc, name.as_bytes())?);
        self.log.push_front((name, Text::new(bytes)))?;
        Ok(())
    }

    fn keep(&mut self, name: &str, bytes: &[u8]) -> Result<(), AllocError>
        ensures ok { OnOk result (self.new ≡ record self.old { files = map.insert self.old.files name.now bytes.now }) }
        ensures err { OnErr result (self.new ≡ self.old) }
    {
        let bytes = Vec::from_slice(self.alloc, bytes)?;
        self.add(name, bytes)
    }

    /// The bytes of a file.
    pub fn get(&self, name: &str) -> Option<&[u8]>
        ensures { option_copied result ≡ map.get self.now.files name.now }
    {
        file_of(&self.log, name.as_bytes())
    }
}

impl MemShelf {
    // Counts a call, and tells whether it is one that fails.
    fn count_call(&mut self) -> bool
        ensures fails { result ≡ is_failing self.old.fails self.old.calls }
        ensures after { MatchBool result (self.new ≡ after_failed_call self.old) (self.new ≡ after_call self.old) }
        ensures counts { MatchBool result (Rose self.old.failed self.new.failed × (self.old.failed ≤ self.new.failed)) (self.new.failed ≡ self.old.failed) }
        ensures same { (self.new.files ≡ self.old.files) × (self.new.starved ≡ self.old.starved) }
    {
        let call = self.calls;
        self.calls = self.calls.saturating_add(1);
        if self.fails.contains(&call) {
            self.failed = self.failed.saturating_add(1);
            return true;
        }
        false
    }
}

impl Shelf for MemShelf {
    ghost files = { λ s. Some s.files };

    ghost faults = { λ s. faults_of s };

    fn fetch(&mut self, alloc: Global, name: &str, limit: usize) -> Result<Vec<u8>, FetchFault>
        ensures within { IfOk result (λ bytes. vec_len bytes ≤ limit) }
        ensures found { Fetches self.old.files name.now limit result }
        ensures same { Some self.new.files ≡ Some self.old.files }
        ensures later { faults_of self.old ≤ faults_of self.new }
        ensures failed { IsErrOf result FetchFault.Failed → Rose (faults_of self.old) (faults_of self.new) }
        ensures steady { ¬ IsErrOf result FetchFault.Failed → faults_of self.new ≡ faults_of self.old }
        ensures numbered { IsErrOf result FetchFault.Failed ↔ (is_failing self.old.fails self.old.calls ≡ true) }
        ensures after { MatchBool (is_failing self.old.fails self.old.calls) (self.new ≡ after_failed_call self.old) (self.new ≡ after_call self.old) }
    {
        if self.count_call() {
            return Err(FetchFault::Failed);
        }
        let Some(bytes) = self.get(name) else {
            return Err(FetchFault::Missing);
        };
        if bytes.len() > limit {
            return Err(FetchFault::TooLong);
        }
        Vec::from_slice(alloc, bytes).map_err(|_| FetchFault::Memory)
    }

    fn put(&mut self, name: &str, bytes: &[u8]) -> Result<(), Failed>
        ensures done { OnOk result (Some self.new.files ≡ with_file (Some self.old.files) name.now bytes.now) }
        ensures others { SameBut name.now (Some self.old.files) (Some self.new.files) }
        ensures cause { HasCause (faults_of self.old) (faults_of self.new) result }
        ensures ok { OnOk result ((is_failing self.old.fails self.old.calls ≡ false) × (self.new ≡ after_put self.old name.now bytes.now)) }
        ensures err { OnErr result (MatchBool (is_failing self.old.fails self.old.calls) (self.new ≡ after_failed_call self.old) (self.new ≡ after_starved_put self.old)) }
    {
        if self.count_call() {
            return Err(Failed);
        }
        match self.keep(name, bytes) {
            Ok(()) => Ok(()),
            Err(_) => {
                self.starved = self.starved.saturating_add(1);
                Err(Failed)
            }
        }
    }
}

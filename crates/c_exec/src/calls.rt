// The handler calls of a step.
ghost use Rattle.std.specs.Prelude.{◌≡◌, ◌<◌, ◌++◌, ◌∷◌, [], length, take, slice_index_or, IfOk};
ghost use Rattle.c_exec.specs.Called.{calls_in, call_at};

use crate::pile::Pile;
use crate::runs::run_of;
use std::alloc::{AllocError, Global};
use std::marker::Model;

/// The calls so far: the handler of each, where the words of its arguments end, and the words of all.
#[derive(Drop)]
pub(crate) struct Log {
    pub(crate) handlers: Pile,
    pub(crate) ends: Pile,
    pub(crate) words: Pile,
}

impl Log {
    /// No calls, with room for so many and for so many words.
    pub(crate) fn new(alloc: Global, calls: usize, words: usize) -> Result<Log, AllocError>
        ensures { IfOk result (λ log. log ≡ record { handlers = record { items = []; room = calls }; ends = record { items = []; room = calls }; words = record { items = []; room = words } }) }
    {
        let handlers = Pile::new(alloc, calls)?;
        let ends = Pile::new(alloc, calls)?;
        let words = Pile::new(alloc, words)?;
        Ok(Log {
            handlers,
            ends,
            words,
        })
    }

    /// Takes all calls away.
    pub(crate) fn clear(&mut self)
        ensures handlers { self.new.handlers ≡ record { items = []; room = self.old.handlers.room } }
        ensures ends { self.new.ends ≡ record { items = []; room = self.old.ends.room } }
        ensures words { self.new.words ≡ record { items = []; room = self.old.words.room } }
    {
        self.handlers.clear();
        self.ends.clear();
        self.words.clear();
    }

    /// Adds a call of this handler with these words.
    pub(crate) fn call(&mut self, handler: u32, words: &[u64])
        ensures handlers { self.new.handlers ≡ record { items = take self.old.handlers.room (self.old.handlers.items ++ handler ∷ []); room = self.old.handlers.room } }
        ensures ends { self.new.ends ≡ record { items = take self.old.ends.room (self.old.ends.items ++ length (take self.old.words.room (self.old.words.items ++ words.now)) ∷ []); room = self.old.ends.room } }
        ensures words { self.new.words ≡ record { items = take self.old.words.room (self.old.words.items ++ words.now); room = self.old.words.room } }
    {
        self.handlers.push(handler as u64);
        self.words.extend(words);
        self.ends.push(self.words.len() as u64);
    }

    /// The calls, lent.
    pub(crate) fn lend(&self) -> Calls<'_>
        ensures { result ≡ calls_in 0 self.now.handlers.items self.now.ends.items self.now.words.items }
    {
        Calls {
            handlers: self.handlers.words(),
            ends: self.ends.words(),
            words: self.words.words(),
        }
    }
}

/// The handler calls of the last step, in order, which contracts see as the list of them: of each the handler's place
/// among the unit's handlers, from 0, and the words of its arguments.
#[derive(Drop)]
pub struct Calls<'a> {
    handlers: &'a [u64],
    ends: &'a [u64],
    words: &'a [u64],
}

impl<'a> Model for Calls<'a> {
    ghost use Rattle.std.specs.Prelude.{List};
    ghost use Rattle.c99_tree.specs.Step.{Called};
    ghost use Rattle.c_exec.specs.Called.{calls_in};

    ghost Value = { List Called };

    ghost view = { λ c. calls_in 0 c.handlers.now c.ends.now c.words.now };
}

// The word at a place, or 0.
fn word_at(words: &[u64], i: usize) -> u64
    ensures { result ≡ slice_index_or words.now i 0 }
{
    match words.get(i) {
        Some(w) => *w,
        None => 0,
    }
}

// Where the words of a call begin: where those of the call before it end.
fn start_of(ends: &[u64], i: usize) -> u64
    ensures { result ≡ slice_index_or (0 ∷ ends.now) i 0 }
{
    match i.checked_sub(1) {
        Some(before) => word_at(ends, before),
        None => 0,
    }
}

impl Calls<'_> {
    /// How many calls there are.
    #[tactic(auto, using(crate::proofs::CallsRead::calls_long))]
    pub fn len(&self) -> usize
        ensures { result ≡ length self.now }
    {
        self.handlers.len().min(self.ends.len())
    }

    /// The place of the call's handler among the unit's handlers, from 0.
    #[tactic(auto, using(crate::proofs::CallsRead::handler_at))]
    pub fn handler(&self, i: usize) -> usize
        requires { i < length self.now }
        ensures { result ≡ (call_at self.now i).handler }
    {
        word_at(self.handlers, i) as usize
    }

    /// The words of the call's arguments.
    #[tactic(auto, using(crate::proofs::CallsRead::words_at))]
    pub fn words(&self, i: usize) -> &[u64]
        requires { i < length self.now }
        ensures { result.now ≡ (call_at self.now i).words }
    {
        let from = start_of(self.ends, i);
        let n = word_at(self.ends, i).saturating_sub(from);
        run_of(self.words, from as usize, n as usize)
    }
}

// A step's events.
ghost use Rattle.std.specs.Prelude.{◌≡◌, ◌+◌, ◌-◌, ◌<◌, ◌≤◌, [], ◌∷◌, ◌++◌, length, take, drop, slice_get, All, Some, Ok, Err, OnOk, OnErr, IfOk, IfErr};
ghost use Rattle.stream_core.specs.Library.{bind};
ghost use Rattle.stream_core.specs.Eval.{Event, concat_values};
ghost use Rattle.stream_core.specs.Weights.{roots_weight};
ghost use Rattle.stream_interp.specs.Reading.{IsLayout};
ghost use Rattle.stream_interp.specs.Roots.{IsReadyRoot, closed_roots, roots_words, or_hazard};
ghost use Rattle.stream_interp.specs.Seen.{IsSeen, now_moment};
ghost use Rattle.stream_interp.specs.EventLog.{who_of, used};

use crate::sight::Sight;
use crate::values::fill;
use sm_io::Steps;
use std::alloc::{AllocError, Global};
use std::marker::Model;
use std::sync::ledger::Ledger;
use stream_core::Root;
use stream_types::Hazard;

/// Whose an event is: the trigger's or the observer's of this number, from 0, in the order of the text.
#[derive(Clone, Copy, Debug, PartialEq, Eq)]
pub enum Who {
    Trigger(u32),
    Observer(u32),
}

// Where an event's words begin and end in a list of words.
#[derive(Clone, Copy)]
struct Mark {
    who: Who,
    first: usize,
    end: usize,
}

/// A step's events: first the triggers that fired, each with its arguments' words, and then the observers, each with
/// its value's words.
#[derive(Drop)]
pub struct Events<'a> {
    marks: &'a [Mark],
    words: &'a [u64],
}

impl<'a> Model for Events<'a> {
    ghost use Rattle.std.specs.Prelude.{List, length};
    ghost use Rattle.stream_core.specs.Eval.{Event};

    ghost Value = { List Event };

    ghost use Rattle.stream_interp.specs.EventLog.{events_in, AreBefore};

    ghost view = { λ e. events_in e.words.now e.marks.now };

    ghost invariant = { λ e. AreBefore (length e.words.now) e.marks.now };
}

impl Events<'_> {
    /// How many events there are.
    pub fn len(&self) -> usize
        ensures { result ≡ length self.now }
    {
        self.marks.len()
    }

    /// Whose event `i` is.
    pub fn who(&self, i: usize) -> Who
        requires { i < length self.now }
        ensures { (e : Event) → slice_get self.now i ≡ Some e → who_of result ≡ e.who }
    {
        let marks = self.marks;
        marks[i].who
    }

    /// The words of event `i`.
    pub fn words(&self, i: usize) -> &[u64]
        requires { i < length self.now }
        ensures { (e : Event) → slice_get self.now i ≡ Some e → result.now ≡ e.words }
    {
        let marks = self.marks;
        let mark = marks[i];
        &self.words[mark.first..mark.end]
    }
}

// Writes the values of these expressions one after another, from the word `at` on, and answers where they end.
fn write_values<L: Ledger>(
    sight: &Sight,
    roots: &[Root],
    words: &mut [u64],
    at: usize,
    scratch: &mut [u64],
    steps: &mut Steps<L>,
) -> Result<usize, Hazard>
    requires seen { IsSeen sight.now.spec.now sight.now.rings.now sight.now.row.now }
    requires layout { IsLayout sight.now.spec.now sight.now.layout.now }
    requires ready { All (IsReadyRoot sight.now.spec.now (length scratch.old)) roots.now }
    requires room { at + roots_words sight.now.spec.now.types roots.now ≤ length words.old }
    ensures end { IfOk result (λ end. end ≡ at + roots_words sight.now.spec.now.types roots.now) }
    ensures ok { let s = sight.now.spec.now in
        IfOk result (λ end. concat_values (now_moment s sight.now.rings.now sight.now.row.now) (closed_roots s roots.now) ≡ Ok (take (end - at) (drop at words.new))) }
    ensures err { let s = sight.now.spec.now in
        IfErr result (λ z. concat_values (now_moment s sight.now.rings.now sight.now.row.now) (closed_roots s roots.now) ≡ Err z) }
    ensures front { take at words.new ≡ take at words.old }
    ensures steps { steps.new ≤ steps.old + roots_weight sight.now.spec.now roots.now }
{
    let mut end = at;
    for root in roots {
        let width = sight.spec.types().words(root.ty) as usize;
        fill(
            sight,
            root.expr,
            &mut words[end..end + width],
            scratch,
            steps,
        )?;
        end += width;
    }
    Ok(end)
}

/// The events of a step while they are found, in memory that is taken at the start.
#[derive(Drop)]
pub(crate) struct Log {
    words: Vec<u64>,
    end: usize,
    marks: Vec<Mark>,
    count: usize,
}

impl Model for Log {
    ghost use Rattle.std.specs.Prelude.{take, vec_len};
    ghost use Rattle.stream_interp.specs.EventLog.{LogValue, IsFilled, events_in};

    ghost Value = { LogValue };

    ghost view = { λ l. record { events = events_in l.words.items (take l.count l.marks.items); words = vec_len l.words; marks = vec_len l.marks } };

    ghost invariant = { λ l. IsFilled l.words.items l.end l.marks.items l.count };
}

impl Log {
    /// No events, and room for so many words and events.
    pub(crate) fn new(alloc: Global, words: usize, marks: usize) -> Result<Log, AllocError>
        ensures { IfOk result (λ log. log ≡ record { events = []; words = words; marks = marks }) }
    {
        let blank = Mark {
            who: Who::Trigger(0),
            first: 0,
            end: 0,
        };
        Ok(Log {
            words: Vec::from_elem(alloc, 0u64, words)?,
            end: 0,
            marks: Vec::from_elem(alloc, blank, marks)?,
            count: 0,
        })
    }

    /// No events are left.
    pub(crate) fn clear(&mut self)
        ensures { self.new ≡ record self.old { events = [] } }
    {
        self.end = 0;
        self.count = 0;
    }

    /// The events.
    pub(crate) fn events(&self) -> Events<'_>
        ensures { result ≡ self.now.events }
    {
        Events {
            marks: &self.marks[..self.count],
            words: &self.words,
        }
    }

    /// Adds an event whose words are the values of these expressions, or answers their first hazard.
    pub(crate) fn add<L: Ledger>(
        &mut self,
        who: Who,
        sight: &Sight,
        roots: &[Root],
        scratch: &mut [u64],
        steps: &mut Steps<L>,
    ) -> Result<(), Hazard>
        requires seen { IsSeen sight.now.spec.now sight.now.rings.now sight.now.row.now }
        requires layout { IsLayout sight.now.spec.now sight.now.layout.now }
        requires ready { All (IsReadyRoot sight.now.spec.now (length scratch.old)) roots.now }
        requires words { used self.old.events + roots_words sight.now.spec.now.types roots.now ≤ self.old.words }
        requires mark { length self.old.events < self.old.marks }
        ensures value { let s = sight.now.spec.now in
            bind (concat_values (now_moment s sight.now.rings.now sight.now.row.now) (closed_roots s roots.now)) (λ ws. Ok (self.old.events ++ record { who = who_of who; words = ws } ∷ []))
            ≡ or_hazard result self.new.events }
        ensures used { OnOk result (used self.new.events ≡ used self.old.events + roots_words sight.now.spec.now.types roots.now) }
        ensures one { OnOk result (length self.new.events ≡ length self.old.events + 1) }
        ensures room { (self.new.words ≡ self.old.words) × (self.new.marks ≡ self.old.marks) }
        ensures steps { steps.new ≤ steps.old + roots_weight sight.now.spec.now roots.now }
    {
        let first = self.end;
        let end = write_values(sight, roots, &mut self.words, first, scratch, steps)?;
        self.marks[self.count] = Mark { who, first, end };
        self.count += 1;
        self.end = end;
        Ok(())
    }
}

// A walk that finds the cycles of a specification's defs.
ghost use Rattle.std.specs.Prelude.{◌≡◌, ◌≢◌, ◌↔◌, ℕ, ◌+◌, ◌-◌, ◌<◌, ◌≤◌, ◌^◌, ◌++◌, ◌∷◌, [], length, map, take, drop, replicate, slice_get, slice_set, Some, None, MatchOption, IfOk, OnOk, IfSome, IfNone, IsTrue, nat_lt, if◌then◌else◌};
ghost use Rattle.std.specs.List.{sum_by};
ghost use Rattle.stream_core.specs.Soundness.{HasNoCycle};
ghost use Rattle.stream_core.specs.Term.{defs_of};
ghost use Rattle.stream_core.specs.WellTyped.{WellTyped};
ghost use Rattle.recursion_check.specs.Graph.{Has, places, IsFirstOnCycle};
ghost use Rattle.recursion_check.specs.Walked.{HasEdge, IsWalking, IsReached, IsCut, Rising, edge_from, StaysOld, fresh, mark_all, least_def, lesser};

use crate::edges::{Edge, push_edges};
use std::alloc::{AllocError, Global};
use stream_core::Spec;

/// What is known of a place: nothing yet, its number on the path, or that all that it reaches is known.
#[derive(Clone, Copy, Debug)]
pub(crate) enum Mark {
    New,
    Open(usize),
    Done,
}

/// The marks of all places, the path of open places, the numbers at which its groups begin, the steps still to be taken
/// from it, and the first def found so far that lies on a cycle.
#[derive(Drop)]
pub(crate) struct Walk {
    marks: Vec<Mark>,
    path: Vec<usize>,
    starts: Vec<usize>,
    todo: Vec<Edge>,
    pub(crate) first: Option<usize>,
}

// The last of these numbers.
fn last(xs: &[usize]) -> Option<usize>
    ensures { result ≡ slice_get xs.now (length xs.now - 1) }
{
    xs.last().copied()
}

// Cuts off the numbers above `place`, which come last.
fn cut(starts: &mut Vec<usize>, place: usize)
    requires { Rising starts.old.items }
    ensures { IsCut starts.old.items starts.new.items place }
{
    while let Some(start) = last(starts.as_slice()) {
        if start <= place {
            return;
        }
        starts.pop();
    }
}

// The places of a path from a number on.
fn group_from(path: &[usize], start: usize) -> &[usize]
    requires { start ≤ length path.now }
    ensures { result.now ≡ drop start path.now }
{
    &path[start..]
}

// The first def that lies on a cycle, with those of a group, whose places lie on cycles where there are two or more.
fn first_with(first: Option<usize>, group: &[usize], defs: usize) -> Option<usize>
    ensures { result ≡ (if nat_lt 1 (length group.now) then least_def defs first group.now else first) }
{
    if group.len() > 1 {
        least_def(first, group, defs)
    } else {
        first
    }
}

// Marks the places of a group as done.
fn mark_done(marks: &mut Vec<Mark>, group: &[usize])
    requires { (i v : ℕ) → slice_get group.now i ≡ Some v → v < length marks.old.items }
    ensures { marks.new.items ≡ mark_all marks.old.items group.now }
{
    for v in group {
        marks[*v] = Mark::Done;
    }
}

// The least def among `first` and a group's places.
fn least_def(first: Option<usize>, group: &[usize], defs: usize) -> Option<usize>
    ensures { result ≡ least_def defs first group.now }
{
    let mut least = first;
    for v in group {
        if *v < defs {
            least = lesser(least, *v);
        }
    }
    least
}

fn lesser(first: Option<usize>, v: usize) -> Option<usize>
    ensures { result ≡ lesser first v }
{
    match first {
        None => Some(v),
        Some(f) => Some(f.min(v)),
    }
}

impl Walk {
    /// A walk over so many places, of which none is entered.
    pub(crate) fn new(alloc: Global, places: usize) -> Result<Walk, AllocError>
        ensures marks { IfOk result (λ w. w.marks.items ≡ replicate places Mark.New) }
        ensures path { IfOk result (λ w. w.path.items ≡ []) }
        ensures starts { IfOk result (λ w. w.starts.items ≡ []) }
        ensures todo { IfOk result (λ w. w.todo.items ≡ []) }
        ensures first { IfOk result (λ w. w.first ≡ None) }
    {
        let mut marks = Vec::new(alloc);
        marks.resize(places, Mark::New)?;
        Ok(Walk {
            marks,
            path: Vec::new(alloc),
            starts: Vec::new(alloc),
            todo: Vec::new(alloc),
            first: None,
        })
    }

    /// Whether a place was not entered yet.
    pub(crate) fn is_new(&self, v: usize) -> bool
        requires { v < length self.now.marks.items }
        ensures { IsTrue result ↔ (slice_get self.now.marks.items v ≡ Some Mark.New) }
    {
        matches!(self.marks[v], Mark::New)
    }

    // Opens a new place that all open ones reach, as a group of its own.
    fn enter(&mut self, spec: &Spec, v: usize) -> Result<(), AllocError>
        requires typed { WellTyped spec.now }
        requires walk { IsWalking spec.now self.old }
        requires is_new { slice_get self.old.marks.items v ≡ Some Mark.New }
        requires reached { IsReached spec.now self.old.path.items v }
        ensures walk { OnOk result (IsWalking spec.now self.new) }
        ensures marks { OnOk result (self.new.marks.items ≡ slice_set self.old.marks.items v (Mark.Open (length self.old.path.items))) }
    {
        let number = self.path.len();
        self.marks[v] = Mark::Open(number);
        self.path.push(v)?;
        self.starts.push(number)?;
        push_edges(&mut self.todo, spec, v, number)
    }

    // The last step still to be taken, where it is one from the last group.
    fn next_edge(&self, start: usize) -> Option<Edge>
        ensures { result ≡ edge_from start (slice_get self.now.todo.items (length self.now.todo.items - 1)) }
    {
        match self.todo.last() {
            Some(edge) if edge.from >= start => Some(*edge),
            _ => None,
        }
    }

    // Closes the last group.
    fn close(&mut self, spec: &Spec, start: usize)
        requires typed { WellTyped spec.now }
        requires walk { IsWalking spec.now self.old }
        requires last { slice_get self.old.starts.items (length self.old.starts.items - 1) ≡ Some start }
        requires taken { (i w : ℕ) → HasEdge self.old.todo.items i w → i < start }
        ensures walk { IsWalking spec.now self.new }
        ensures fresh { sum_by fresh self.new.marks.items ≡ sum_by fresh self.old.marks.items }
        ensures old { StaysOld self.old.marks.items self.new.marks.items }
        ensures todo { self.new.todo.items ≡ self.old.todo.items }
        ensures starts { length self.new.starts.items + 1 ≡ length self.old.starts.items }
    {
        let group = group_from(self.path.as_slice(), start);
        self.first = first_with(self.first, group, spec.defs().len());
        mark_done(&mut self.marks, group);
        self.path.truncate(start);
        self.starts.pop();
    }

    // Takes a step to an open place: its group and those behind it become one.
    fn join(&mut self, spec: &Spec, edge: Edge, number: usize)
        requires walk { IsWalking spec.now self.old }
        requires last { slice_get self.old.todo.items (length self.old.todo.items - 1) ≡ Some edge }
        requires group { (b : ℕ) → Has self.old.starts.items b → b ≤ edge.from }
        requires is_open { slice_get self.old.marks.items edge.to ≡ Some (Mark.Open number) }
        ensures walk { IsWalking spec.now self.new }
        ensures marks { self.new.marks.items ≡ self.old.marks.items }
        ensures todo { length self.new.todo.items + 1 ≡ length self.old.todo.items }
        ensures starts { length self.new.starts.items ≤ length self.old.starts.items }
    {
        self.todo.pop();
        cut(&mut self.starts, number);
    }

    // Takes a step to a place that is done.
    fn skip(&mut self, spec: &Spec, edge: Edge)
        requires walk { IsWalking spec.now self.old }
        requires last { slice_get self.old.todo.items (length self.old.todo.items - 1) ≡ Some edge }
        requires is_done { slice_get self.old.marks.items edge.to ≡ Some Mark.Done }
        ensures walk { IsWalking spec.now self.new }
        ensures marks { self.new.marks.items ≡ self.old.marks.items }
        ensures todo { length self.new.todo.items + 1 ≡ length self.old.todo.items }
        ensures starts { self.new.starts.items ≡ self.old.starts.items }
    {
        self.todo.pop();
    }

    // Takes steps until one leads to a new place, which is then answered, or until no place is open.
    fn advance(&mut self, spec: &Spec) -> Option<usize>
        requires typed { WellTyped spec.now }
        requires walk { IsWalking spec.now self.old }
        ensures walk { IsWalking spec.now self.new }
        ensures fresh { sum_by fresh self.new.marks.items ≡ sum_by fresh self.old.marks.items }
        ensures old { StaysOld self.old.marks.items self.new.marks.items }
        ensures is_new { IfSome result (λ v. slice_get self.new.marks.items v ≡ Some Mark.New) }
        ensures reached { IfSome result (λ v. IsReached spec.now self.new.path.items v) }
        ensures closed { IfNone result (self.new.path.items ≡ []) }
    {
        while let Some(start) = last(self.starts.as_slice()) {
            match self.next_edge(start) {
                None => self.close(spec, start),
                Some(edge) => match self.marks[edge.to] {
                    Mark::New => return Some(edge.to),
                    Mark::Open(number) => self.join(spec, edge, number),
                    Mark::Done => self.skip(spec, edge),
                },
            }
        }
        None
    }

    /// Walks over all that a new place reaches, where no place is open.
    pub(crate) fn walk_from(&mut self, spec: &Spec, v: usize) -> Result<(), AllocError>
        requires typed { WellTyped spec.now }
        requires walk { IsWalking spec.now self.old }
        requires closed { self.old.path.items ≡ [] }
        requires is_new { slice_get self.old.marks.items v ≡ Some Mark.New }
        ensures walk { OnOk result (IsWalking spec.now self.new) }
        ensures closed { OnOk result (self.new.path.items ≡ []) }
        ensures old { OnOk result (StaysOld self.old.marks.items self.new.marks.items) }
        ensures entered { OnOk result (slice_get self.new.marks.items v ≢ Some Mark.New) }
    {
        self.enter(spec, v)?;
        while let Some(w) = self.advance(spec) {
            self.enter(spec, w)?;
        }
        Ok(())
    }
}

/// The first def that lies on a cycle, or none.
pub(crate) fn first_on_cycle(alloc: Global, spec: &Spec) -> Result<Option<usize>, AllocError>
    requires { WellTyped spec.now }
    ensures { IfOk result (λ first. MatchOption first (HasNoCycle (defs_of spec.now)) (λ d. IsFirstOnCycle (defs_of spec.now) d)) }
{
    let defs = spec.defs().len();
    let Some(places) = defs.checked_add(spec.nodes()) else {
        return Err(AllocError);
    };
    let mut walk = Walk::new(alloc, places)?;
    for d in 0..defs {
        if walk.is_new(d) {
            walk.walk_from(spec, d)?;
        }
    }
    Ok(walk.first)
}

// Weighs each node once, after the nodes that its weight is made of.
ghost use Rattle.std.specs.Prelude.{◌≡◌, ℕ, ◌+◌, ◌-◌, ◌<◌, [], length, replicate, slice_get, slice_set, Some, IfOk, OnOk, IfSome, IfNone};
ghost use Rattle.std.specs.List.{sum_by};
ghost use Rattle.stream_core.specs.Soundness.{HasNoCycle};
ghost use Rattle.stream_core.specs.Term.{defs_of};
ghost use Rattle.stream_core.specs.WellTyped.{WellTyped};
ghost use Rattle.stream_core.specs.KnownWeights.{IsKnown};
ghost use Rattle.recursion_check.specs.Graph.{Joins, places};
ghost use Rattle.recursion_check.specs.Weighed.{AreWeights, IsWeighing, all_steps, last_of, node_at, unmet};

use crate::edges::{Edge, push_edges};
use std::alloc::{AllocError, Global};
use stream_core::{NodeId, Spec};

/// What is known of a place of the graph: nothing yet, that it waits for the places to which it leads, or its weight.
#[derive(Clone, Copy, Debug)]
pub(crate) enum Stage {
    New,
    Open,
    Known,
}

/// The stage of each place, the weight of each node once it is known, and the places still to be weighed, the next one last.
#[derive(Drop)]
pub(crate) struct Weighing {
    stages: Vec<Stage>,
    weights: Vec<u64>,
    todo: Vec<Edge>,
}

fn last_place(todo: &[Edge]) -> Option<usize>
    ensures { result ≡ last_of todo.now }
{
    match todo.last() {
        Some(edge) => Some(edge.to),
        None => None,
    }
}

// Weighs the node of a place, where the places to which it leads are weighed. A def's is its expression, which is one of them.
fn weigh_place(weights: &mut Vec<u64>, spec: &Spec, v: usize)
    requires typed { WellTyped spec.now }
    requires no_cycle { HasNoCycle (defs_of spec.now) }
    requires there { v < places spec.now }
    requires count { length weights.old.items ≡ length spec.now.nodes }
    requires next { (w : ℕ) → Joins spec.now v w → IsKnown spec.now weights.old.items (node_at spec.now w) }
    ensures count { length weights.new.items ≡ length spec.now.nodes }
    ensures known { IsKnown spec.now weights.new.items (node_at spec.now v) }
    ensures kept { (i : ℕ) → IsKnown spec.now weights.old.items i → IsKnown spec.now weights.new.items i }
{
    let defs = spec.defs().len();
    if v < defs {
        return;
    }
    let weight = spec.weight_by(NodeId(v - defs), weights.as_slice());
    weights[v - defs] = weight;
}

// A list of so many places, as steps from nowhere.
fn all_places(alloc: Global, count: usize) -> Result<Vec<Edge>, AllocError>
    ensures { IfOk result (λ es. es.items ≡ all_steps count) }
{
    let mut todo = Vec::new(alloc);
    for to in 0..count {
        todo.push(Edge { from: 0, to })?;
    }
    Ok(todo)
}

impl Weighing {
    // All places are new, and still to be weighed.
    fn new(alloc: Global, spec: &Spec, count: usize) -> Result<Weighing, AllocError>
        ensures stages { IfOk result (λ w. w.stages.items ≡ replicate count Stage.New) }
        ensures weights { IfOk result (λ w. w.weights.items ≡ replicate (length spec.now.nodes) 0) }
        ensures todo { IfOk result (λ w. w.todo.items ≡ all_steps count) }
    {
        let mut stages = Vec::new(alloc);
        stages.resize(count, Stage::New)?;
        let mut weights = Vec::new(alloc);
        weights.resize(spec.nodes(), 0)?;
        let todo = all_places(alloc, count)?;
        Ok(Weighing {
            stages,
            weights,
            todo,
        })
    }

    // Opens a new place: the places to which it leads come next.
    fn open(&mut self, spec: &Spec, v: usize) -> Result<(), AllocError>
        requires typed { WellTyped spec.now }
        requires no_cycle { HasNoCycle (defs_of spec.now) }
        requires weighing { IsWeighing spec.now self.old }
        requires last { last_of self.old.todo.items ≡ Some v }
        requires is_new { slice_get self.old.stages.items v ≡ Some Stage.New }
        ensures weighing { OnOk result (IsWeighing spec.now self.new) }
        ensures stages { OnOk result (self.new.stages.items ≡ slice_set self.old.stages.items v Stage.Open) }
    {
        self.stages[v] = Stage::Open;
        push_edges(&mut self.todo, spec, v, 0)
    }

    // Weighs an open place, since all that it waits for is weighed once it is the next one.
    fn weigh(&mut self, spec: &Spec, v: usize)
        requires typed { WellTyped spec.now }
        requires no_cycle { HasNoCycle (defs_of spec.now) }
        requires weighing { IsWeighing spec.now self.old }
        requires last { last_of self.old.todo.items ≡ Some v }
        requires is_open { slice_get self.old.stages.items v ≡ Some Stage.Open }
        ensures weighing { IsWeighing spec.now self.new }
        ensures unmet { sum_by unmet self.new.stages.items ≡ sum_by unmet self.old.stages.items }
        ensures todo { length self.new.todo.items + 1 ≡ length self.old.todo.items }
    {
        weigh_place(&mut self.weights, spec, v);
        self.stages[v] = Stage::Known;
        self.todo.pop();
    }

    // Passes over a place that is weighed.
    fn skip(&mut self, spec: &Spec, v: usize)
        requires weighing { IsWeighing spec.now self.old }
        requires last { last_of self.old.todo.items ≡ Some v }
        requires is_known { slice_get self.old.stages.items v ≡ Some Stage.Known }
        ensures weighing { IsWeighing spec.now self.new }
        ensures stages { self.new.stages.items ≡ self.old.stages.items }
        ensures todo { length self.new.todo.items + 1 ≡ length self.old.todo.items }
    {
        self.todo.pop();
    }

    // Weighs places until a new one is next, which is then answered, or until all are weighed.
    fn advance(&mut self, spec: &Spec) -> Option<usize>
        requires typed { WellTyped spec.now }
        requires no_cycle { HasNoCycle (defs_of spec.now) }
        requires weighing { IsWeighing spec.now self.old }
        ensures weighing { IsWeighing spec.now self.new }
        ensures unmet { sum_by unmet self.new.stages.items ≡ sum_by unmet self.old.stages.items }
        ensures last { IfSome result (λ v. last_of self.new.todo.items ≡ Some v) }
        ensures is_new { IfSome result (λ v. slice_get self.new.stages.items v ≡ Some Stage.New) }
        ensures weighed { IfNone result (self.new.todo.items ≡ []) }
    {
        while let Some(v) = last_place(self.todo.as_slice()) {
            match self.stages[v] {
                Stage::New => return Some(v),
                Stage::Open => self.weigh(spec, v),
                Stage::Known => self.skip(spec, v),
            }
        }
        None
    }
}

/// The weights of all nodes, each up to 262,145.
pub(crate) fn node_weights(alloc: Global, spec: &Spec) -> Result<Vec<u64>, AllocError>
    requires typed { WellTyped spec.now }
    requires no_cycle { HasNoCycle (defs_of spec.now) }
    ensures { IfOk result (λ ws. AreWeights spec.now ws.items) }
{
    let Some(count) = spec.defs().len().checked_add(spec.nodes()) else {
        return Err(AllocError);
    };
    let mut weighing = Weighing::new(alloc, spec, count)?;
    while let Some(v) = weighing.advance(spec) {
        weighing.open(spec, v)?;
    }
    Ok(weighing.weights)
}

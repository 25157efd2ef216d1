// What a specification weighs.
ghost use Rattle.std.specs.Prelude.{◌≡◌, ◌+◌, ◌<◌, ◌≤◌, min, length, map, slice_get, All};
ghost use Rattle.std.specs.List.{AllByRecursion};
ghost use Rattle.stream_core.specs.Acyclic.{WellFounded};
ghost use Rattle.stream_core.specs.Parts.{parts};
ghost use Rattle.stream_core.specs.declared.spec.Root.{Root};
ghost use Rattle.stream_core.specs.declared.spec.ObserverItem.{ObserverItem};
ghost use Rattle.stream_core.specs.declared.spec.StreamItem.{StreamItem};
ghost use Rattle.stream_core.specs.Meaning.{weight};
ghost use Rattle.stream_core.specs.Soundness.{HasNoCycle};
ghost use Rattle.stream_core.specs.Term.{defs_of};
ghost use Rattle.stream_core.specs.WellTyped.{WellTyped};
ghost use Rattle.stream_core.specs.Weights.{IsGoodItem, IsGoodNode, IsTriggerThere, agreed_weight, buffers_weight, form_weight, heavy, heavy_at, libs_weight, majority_weight, node_weight, nodes_weight, observers_weight, roots_weight, streams_weight, triggers_weight};

use crate::form_weights::{
    abs_weight, agreed_weight, buffers_weight, majority_weight, sign_weight, value_weight,
};
use crate::node::{Node, NodeId};
use crate::spec::{LibItem, ObserverItem, Root, Spec, StreamItem, TriggerItem};

// Each call counts up to `most`. What it visits adds 1 at least to the count, but a node that weighs what its operand
// weighs: a mention of a def, a window of one sample, `once-in 0 0` and `historically-in 0 0`.
#[cycle(weighing)]
fn weigh(spec: &Spec, id: NodeId, most: u64) -> u64
    requires founded { WellFounded spec.now }
    requires typed { WellTyped spec.now }
    requires there { id < length spec.now.nodes }
    requires small { most ≤ 262145 }
    ensures { result ≡ min (heavy spec.now id) most }
{
    if most == 0 {
        return 0;
    }
    weigh_node(spec, spec.node(id), most)
}

#[cycle(weighing)]
fn weigh_node(spec: &Spec, node: &Node, most: u64) -> u64
    requires founded { WellFounded spec.now }
    requires typed { WellTyped spec.now }
    requires good { IsGoodNode spec.now node.now }
    requires parts { AllByRecursion (λ j. j < length spec.now.nodes) (parts node.now) }
    requires some { 0 < most }
    requires small { most ≤ 262145 }
    ensures { result ≡ min (node_weight spec.now node.now) most }
{
    match node {
        Node::Lit(_, _) | Node::Extern(_) | Node::Stream(_) | Node::Drop { stream: _, k: _ } => 1,
        Node::Def(d) => weigh(spec, spec.defs()[*d as usize].expr, most),
        Node::Un(_, _, a)
        | Node::Cast { from: _, to: _, a }
        | Node::Field {
            of: _,
            member: _,
            a,
        } => 1 + weigh_all(spec, &[*a], most - 1),
        Node::Shift {
            dir: _,
            ty: _,
            a,
            cty: _,
            count,
        } => 1 + weigh_all(spec, &[*a, *count], most - 1),
        Node::Bin(_, _, a, b)
        | Node::And(a, b)
        | Node::Or(a, b)
        | Node::Implies(a, b)
        | Node::Index(_, a, b) => 1 + weigh_all(spec, &[*a, *b], most - 1),
        Node::If(c, a, b) => 1 + weigh_all(spec, &[*c, *a, *b], most - 1),
        Node::Array(_, es) | Node::Record(_, es) => 1 + weigh_all(spec, es.as_slice(), most - 1),
        Node::Abs(_, a) => abs_weight(weigh(spec, *a, most - 1)).min(most),
        Node::Sign(s, a) => sign_weight(*s, weigh(spec, *a, most - 1)).min(most),
        Node::Majority(_, es) => weigh_majority(spec, es.as_slice(), most),
        Node::Agreed(_, es) => weigh_agreed(spec, es.as_slice(), most),
        Node::Lib(k) => weigh_form(spec, &spec.libs()[*k as usize], most),
    }
}

// All these nodes together.
#[cycle(weighing)]
fn weigh_all(spec: &Spec, ids: &[NodeId], most: u64) -> u64
    requires founded { WellFounded spec.now }
    requires typed { WellTyped spec.now }
    requires there { AllByRecursion (λ j. j < length spec.now.nodes) ids.now }
    requires small { most ≤ 262145 }
    ensures { result ≡ min (nodes_weight spec.now ids.now) most }
{
    let mut total = 0;
    for id in ids {
        if total == most {
            return total;
        }
        total += weigh(spec, *id, most - total);
    }
    total
}

// The node at a place of a list, or nothing past its end.
#[cycle(weighing)]
fn weigh_at(spec: &Spec, ids: &[NodeId], at: usize, most: u64) -> u64
    requires founded { WellFounded spec.now }
    requires typed { WellTyped spec.now }
    requires there { AllByRecursion (λ j. j < length spec.now.nodes) ids.now }
    requires small { most ≤ 262145 }
    ensures { result ≡ min (heavy_at spec.now (slice_get ids.now at)) most }
{
    match ids.get(at) {
        Some(id) => weigh(spec, *id, most),
        None => 0,
    }
}

#[cycle(weighing)]
fn weigh_majority(spec: &Spec, votes: &[NodeId], most: u64) -> u64
    requires founded { WellFounded spec.now }
    requires typed { WellTyped spec.now }
    requires there { AllByRecursion (λ j. j < length spec.now.nodes) votes.now }
    requires few { length votes.now ≤ 9 }
    requires one { 1 ≤ length votes.now }
    requires some { 0 < most }
    requires small { most ≤ 262145 }
    ensures { result ≡ min (majority_weight (map (heavy spec.now) votes.now)) most }
{
    let first = weigh_at(spec, votes, 0, most - 1);
    let others = weigh_all(spec, &votes[1..], most - 1 - first);
    majority_weight(votes.len() as u64, first, first + others).min(most)
}

#[cycle(weighing)]
fn weigh_agreed(spec: &Spec, votes: &[NodeId], most: u64) -> u64
    requires founded { WellFounded spec.now }
    requires typed { WellTyped spec.now }
    requires there { AllByRecursion (λ j. j < length spec.now.nodes) votes.now }
    requires few { length votes.now ≤ 9 }
    requires one { 1 ≤ length votes.now }
    requires some { 0 < most }
    requires small { most ≤ 262145 }
    ensures { result ≡ min (agreed_weight (map (heavy spec.now) votes.now)) most }
{
    let all = weigh_all(spec, votes, most - 1);
    agreed_weight(votes.len() as u64, all).min(most)
}

#[cycle(weighing)]
fn weigh_form(spec: &Spec, item: &LibItem, most: u64) -> u64
    requires founded { WellFounded spec.now }
    requires typed { WellTyped spec.now }
    requires good { IsGoodItem spec.now item.now }
    requires small { most ≤ 262145 }
    ensures { result ≡ min (form_weight item.now.form (map (heavy spec.now) item.now.args)) most }
{
    let first = weigh_at(spec, item.args.as_slice(), 0, most);
    let second = weigh_at(spec, item.args.as_slice(), 1, most - first);
    value_weight(item.form, first, second).min(most)
}

// What the expressions of a form's buffers weigh.
fn weigh_buffers(spec: &Spec, item: &LibItem, most: u64) -> u64
    requires founded { WellFounded spec.now }
    requires typed { WellTyped spec.now }
    requires good { IsGoodItem spec.now item.now }
    requires small { most ≤ 262145 }
    ensures { result ≡ min (buffers_weight item.now.form (map (heavy spec.now) item.now.args)) most }
{
    let first = weigh_at(spec, item.args.as_slice(), 0, most);
    let second = weigh_at(spec, item.args.as_slice(), 1, most - first);
    buffers_weight(item.form, first, second).min(most)
}

fn weigh_roots(spec: &Spec, roots: &[Root], most: u64) -> u64
    requires founded { WellFounded spec.now }
    requires typed { WellTyped spec.now }
    requires there { All (λ (r : Root). r.expr < length spec.now.nodes) roots.now }
    requires small { most ≤ 262145 }
    ensures { result ≡ min (roots_weight spec.now roots.now) most }
{
    let mut total = 0;
    for root in roots {
        if total == most {
            return total;
        }
        total += weigh(spec, root.expr, most - total);
    }
    total
}

fn weigh_triggers(spec: &Spec, triggers: &[TriggerItem], most: u64) -> u64
    requires founded { WellFounded spec.now }
    requires typed { WellTyped spec.now }
    requires there { All (IsTriggerThere spec.now) triggers.now }
    requires small { most ≤ 262145 }
    ensures { result ≡ min (triggers_weight spec.now triggers.now) most }
{
    let mut total = 0;
    for x in triggers {
        if total == most {
            return total;
        }
        total += weigh_trigger(spec, x, most - total);
    }
    total
}

fn weigh_trigger(spec: &Spec, x: &TriggerItem, most: u64) -> u64
    requires founded { WellFounded spec.now }
    requires typed { WellTyped spec.now }
    requires there { IsTriggerThere spec.now x.now }
    requires small { most ≤ 262145 }
    ensures { result ≡ min (heavy spec.now x.now.guard.expr + roots_weight spec.now x.now.args) most }
{
    let guard = weigh(spec, x.guard.expr, most);
    guard + weigh_roots(spec, x.args.as_slice(), most - guard)
}

fn weigh_observers(spec: &Spec, observers: &[ObserverItem], most: u64) -> u64
    requires founded { WellFounded spec.now }
    requires typed { WellTyped spec.now }
    requires there { All (λ (x : ObserverItem). x.root.expr < length spec.now.nodes) observers.now }
    requires small { most ≤ 262145 }
    ensures { result ≡ min (observers_weight spec.now observers.now) most }
{
    let mut total = 0;
    for x in observers {
        if total == most {
            return total;
        }
        total += weigh(spec, x.root.expr, most - total);
    }
    total
}

fn weigh_streams(spec: &Spec, streams: &[StreamItem], most: u64) -> u64
    requires founded { WellFounded spec.now }
    requires typed { WellTyped spec.now }
    requires there { All (λ (x : StreamItem). x.expr < length spec.now.nodes) streams.now }
    requires small { most ≤ 262145 }
    ensures { result ≡ min (streams_weight spec.now streams.now) most }
{
    let mut total = 0;
    for x in streams {
        if total == most {
            return total;
        }
        total += weigh(spec, x.expr, most - total);
    }
    total
}

fn weigh_libs(spec: &Spec, libs: &[LibItem], most: u64) -> u64
    requires founded { WellFounded spec.now }
    requires typed { WellTyped spec.now }
    requires good { All (IsGoodItem spec.now) libs.now }
    requires small { most ≤ 262145 }
    ensures { result ≡ min (libs_weight spec.now libs.now) most }
{
    let mut total = 0;
    for x in libs {
        if total == most {
            return total;
        }
        total += weigh_buffers(spec, x, most - total);
    }
    total
}

// One more than a specification may weigh.
const MOST: u64 = 262_145;

impl Spec {
    /// What it weighs, or 262,145 where it is more: the sum over its roots, which are the triggers' guards and arguments,
    /// the observers, the streams' expressions and those of the library forms' buffers.
    ///
    /// A literal, an extern, a stream and a drop weigh 1; a def weighs what its expression weighs; a library form, `abs`,
    /// `sign` and votes weigh what the plain expression weighs that stands for them; any other form weighs 1 and its
    /// operands. It takes no memory, and stops once it has counted 262,145, however often a node is shared.
    pub fn weight(&self) -> u64
        requires typed { WellTyped self.now }
        requires no_cycle { HasNoCycle (defs_of self.now) }
        ensures { result ≡ min (weight self.now) 262145 }
    {
        let mut total = weigh_triggers(self, self.triggers(), MOST);
        total += weigh_observers(self, self.observers(), MOST - total);
        total += weigh_streams(self, self.streams(), MOST - total);
        total + weigh_libs(self, self.libs(), MOST - total)
    }
}

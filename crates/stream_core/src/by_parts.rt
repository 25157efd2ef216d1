// What nodes and buffers weigh, where the weights of what they are made of are known.
ghost use Rattle.std.specs.Prelude.{◌≡◌, ◌<◌, ◌≤◌, min, length, map, slice_get, IfSome};
ghost use Rattle.stream_core.specs.Ordered.{args_of};
ghost use Rattle.stream_core.specs.Soundness.{HasNoCycle};
ghost use Rattle.stream_core.specs.Term.{defs_of};
ghost use Rattle.stream_core.specs.WellTyped.{WellTyped};
ghost use Rattle.stream_core.specs.Weights.{IsGoodItem, IsGoodNode, agreed_weight, buffers_weight, form_weight, heaviest_buffer, heavy, heavy_at, majority_weight, node_weight, nodes_weight};
ghost use Rattle.stream_core.specs.KnownWeights.{AreKnown, IsKnown, made_at, made_of};

use crate::form_weights::{
    abs_weight, agreed_weight, buffers_weight, heaviest_buffer, majority_weight, sign_weight,
    value_weight,
};
use crate::node::{Node, NodeId};
use crate::spec::{LibItem, Spec};

// The weight at which all counts stop.
const MOST: u64 = 262_145;

fn known(spec: &Spec, weights: &[u64], id: NodeId) -> u64
    requires { IsKnown spec.now weights.now id }
    ensures { result ≡ min (heavy spec.now id) 262145 }
{
    let _ = spec;
    weights[id.0]
}

// The node at a place of a list, or nothing past its end.
fn known_at(spec: &Spec, weights: &[u64], ids: &[NodeId], at: usize) -> u64
    requires { AreKnown spec.now weights.now ids.now }
    ensures { result ≡ min (heavy_at spec.now (slice_get ids.now at)) 262145 }
{
    match ids.get(at) {
        Some(id) => known(spec, weights, *id),
        None => 0,
    }
}

// All these nodes together.
fn known_sum(spec: &Spec, weights: &[u64], ids: &[NodeId]) -> u64
    requires { AreKnown spec.now weights.now ids.now }
    ensures { result ≡ min (nodes_weight spec.now ids.now) 262145 }
{
    let mut total = 0;
    for id in ids {
        let own = known(spec, weights, *id);
        total += own.min(MOST - total);
    }
    total
}

fn majority_of(spec: &Spec, weights: &[u64], votes: &[NodeId]) -> u64
    requires known { AreKnown spec.now weights.now votes.now }
    requires few { length votes.now ≤ 9 }
    requires some { 1 ≤ length votes.now }
    ensures { result ≡ min (majority_weight (map (heavy spec.now) votes.now)) 262145 }
{
    let first = known_at(spec, weights, votes, 0);
    let all = known_sum(spec, weights, votes);
    majority_weight(votes.len() as u64, first, all).min(MOST)
}

fn agreed_of(spec: &Spec, weights: &[u64], votes: &[NodeId]) -> u64
    requires known { AreKnown spec.now weights.now votes.now }
    requires few { length votes.now ≤ 9 }
    requires some { 1 ≤ length votes.now }
    ensures { result ≡ min (agreed_weight (map (heavy spec.now) votes.now)) 262145 }
{
    let all = known_sum(spec, weights, votes);
    agreed_weight(votes.len() as u64, all).min(MOST)
}

fn form_of(spec: &Spec, weights: &[u64], item: &LibItem) -> u64
    requires good { IsGoodItem spec.now item.now }
    requires known { AreKnown spec.now weights.now item.now.args }
    ensures { result ≡ min (form_weight item.now.form (map (heavy spec.now) item.now.args)) 262145 }
{
    let first = known_at(spec, weights, item.args.as_slice(), 0);
    let second = known_at(spec, weights, item.args.as_slice(), 1);
    value_weight(item.form, first, second).min(MOST)
}

fn buffers_of(spec: &Spec, weights: &[u64], item: &LibItem) -> u64
    requires good { IsGoodItem spec.now item.now }
    requires known { AreKnown spec.now weights.now item.now.args }
    ensures { result ≡ min (buffers_weight item.now.form (map (heavy spec.now) item.now.args)) 262145 }
{
    let first = known_at(spec, weights, item.args.as_slice(), 0);
    let second = known_at(spec, weights, item.args.as_slice(), 1);
    buffers_weight(item.form, first, second).min(MOST)
}

fn heaviest_of(spec: &Spec, weights: &[u64], item: &LibItem) -> u64
    requires good { IsGoodItem spec.now item.now }
    requires known { AreKnown spec.now weights.now item.now.args }
    ensures { result ≡ min (heaviest_buffer item.now.form (map (heavy spec.now) item.now.args)) 262145 }
{
    let first = known_at(spec, weights, item.args.as_slice(), 0);
    let second = known_at(spec, weights, item.args.as_slice(), 1);
    heaviest_buffer(item.form, first, second).min(MOST)
}

fn node_of(spec: &Spec, weights: &[u64], node: &Node) -> u64
    requires typed { WellTyped spec.now }
    requires good { IsGoodNode spec.now node.now }
    requires known { AreKnown spec.now weights.now (made_of spec.now node.now) }
    ensures { result ≡ min (node_weight spec.now node.now) 262145 }
{
    match node {
        Node::Lit(_, _) | Node::Extern(_) | Node::Stream(_) | Node::Drop { stream: _, k: _ } => 1,
        Node::Def(d) => known(spec, weights, spec.defs()[*d as usize].expr),
        Node::Un(_, _, a)
        | Node::Cast { from: _, to: _, a }
        | Node::Field {
            of: _,
            member: _,
            a,
        } => (1 + known_sum(spec, weights, &[*a])).min(MOST),
        Node::Shift {
            dir: _,
            ty: _,
            a,
            cty: _,
            count,
        } => (1 + known_sum(spec, weights, &[*a, *count])).min(MOST),
        Node::Bin(_, _, a, b)
        | Node::And(a, b)
        | Node::Or(a, b)
        | Node::Implies(a, b)
        | Node::Index(_, a, b) => (1 + known_sum(spec, weights, &[*a, *b])).min(MOST),
        Node::If(c, a, b) => (1 + known_sum(spec, weights, &[*c, *a, *b])).min(MOST),
        Node::Array(_, es) | Node::Record(_, es) => (1
            + known_sum(spec, weights, es.as_slice())).min(MOST),
        Node::Abs(_, a) => abs_weight(known(spec, weights, *a)).min(MOST),
        Node::Sign(s, a) => sign_weight(*s, known(spec, weights, *a)).min(MOST),
        Node::Majority(_, es) => majority_of(spec, weights, es.as_slice()),
        Node::Agreed(_, es) => agreed_of(spec, weights, es.as_slice()),
        Node::Lib(k) => form_of(spec, weights, &spec.libs()[*k as usize]),
    }
}

impl Spec {
    /// What the expression of a node weighs, or 262,145 where it is more, where the list has the weights of what it is
    /// made of: of the expression of the def that it names, of its parts, or of its form's operands.
    pub fn weight_by(&self, id: NodeId, weights: &[u64]) -> u64
        requires typed { WellTyped self.now }
        requires no_cycle { HasNoCycle (defs_of self.now) }
        requires there { id < length self.now.nodes }
        requires known { AreKnown self.now weights.now (made_at self.now (slice_get self.now.nodes id)) }
        ensures { result ≡ min (heavy self.now id) 262145 }
    {
        node_of(self, weights, self.node(id))
    }

    /// What the expressions of the buffers of library form `k` weigh together, or 262,145 where it is more.
    pub fn buffers_by(&self, k: usize, weights: &[u64]) -> u64
        requires typed { WellTyped self.now }
        requires there { k < length self.now.libs }
        requires known { AreKnown self.now weights.now (args_of (slice_get self.now.libs k)) }
        ensures { IfSome (slice_get self.now.libs k) (λ x. result ≡ min (buffers_weight x.form (map (heavy self.now) x.args)) 262145) }
    {
        buffers_of(self, weights, &self.libs()[k])
    }

    /// What the heaviest expression of the buffers of library form `k` weighs, or 262,145 where it is more.
    pub fn heaviest_buffer_by(&self, k: usize, weights: &[u64]) -> u64
        requires typed { WellTyped self.now }
        requires there { k < length self.now.libs }
        requires known { AreKnown self.now weights.now (args_of (slice_get self.now.libs k)) }
        ensures { IfSome (slice_get self.now.libs k) (λ x. result ≡ min (heaviest_buffer x.form (map (heavy self.now) x.args)) 262145) }
    {
        heaviest_of(self, weights, &self.libs()[k])
    }
}

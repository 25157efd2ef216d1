// The nodes of a specification, one after another.
ghost use Rattle.std.specs.Prelude.{◌≡◌, ◌<◌, ◌≤◌, [], ◌∷◌, length, slice_get, IfOk, OnOk};
ghost use Rattle.std.specs.List.{AllByRecursion};
ghost use Rattle.stream_core.specs.Parts.{parts};
ghost use Rattle.stream_core.specs.Ordered.{Ordered, all_parts, args_of};
ghost use Rattle.stream_core.specs.Term.{lib_of, tree};
ghost use Rattle.stream_core.specs.Lower.{lowered};
ghost use Rattle.stream_lib.specs.Built.{Grows, Makes, tree_at};
ghost use Rattle.stream_lib.specs.Renamed.{AddsLowered, AreLowered, AreStarts, new_of, plain_node, renamed, starts_of};
ghost use Rattle.stream_lib.specs.Room.{HasForms};

use crate::builder::{abs, put, sign};
use crate::forms::form_term;
use crate::rename::{all_new, renamed};
use crate::vote_nodes::{agreed, majority};
use std::alloc::{AllocError, Global};
use stream_core::{Node, NodeId, Spec};

// A node over parts that are there, without abs, sign and votes.
fn put_plain(alloc: Global, spec: &mut Spec, node: Node) -> Result<NodeId, AllocError>
    requires { AllByRecursion (λ j. j < length spec.old.nodes) (parts node) }
    ensures made { IfOk result (λ id. Makes spec.old spec.new id (plain_node (tree_at spec.old) node)) }
    ensures within { IfOk result (λ id. id < length spec.new.nodes) }
    ensures size { length spec.old.nodes ≤ length spec.new.nodes }
{
    match &node {
        Node::Abs(s, e) => abs(spec, *s, *e),
        Node::Sign(s, e) => sign(spec, *s, *e),
        Node::Majority(s, es) => majority(spec, *s, es.as_slice()),
        Node::Agreed(s, es) => agreed(alloc, spec, *s, es.as_slice()),
        _ => put(spec, node),
    }
}

// The plain expression of a form over the new numbers of its operands.
fn lower_form(
    alloc: Global,
    source: &Spec,
    starts: &[u32],
    news: &[NodeId],
    spec: &mut Spec,
    k: u32,
) -> Result<NodeId, AllocError>
    requires lowered { AreLowered source.now spec.old news.now }
    requires starts { AreStarts source.now starts.now }
    requires below { AllByRecursion (λ j. j < length news.now) (args_of (slice_get source.now.libs k)) }
    requires all { length starts.now ≡ length source.now.libs }
    requires form { k < length source.now.libs }
    ensures made { IfOk result (λ id. Makes spec.old spec.new id
        (lowered (starts_of source.now) (lib_of (tree source.now.nodes source.now.libs) k (slice_get source.now.libs k)))) }
    ensures within { IfOk result (λ id. id < length spec.new.nodes) }
    ensures size { length spec.old.nodes ≤ length spec.new.nodes }
{
    let item = &source.libs()[k as usize];
    let start = starts[k as usize];
    let ps = all_new(alloc, news, item.args.as_slice())?;
    let id = form_term(alloc, spec, item.form, start, ps.as_slice())?;
    Ok(id)
}

// A node that names no form, over the new numbers of its parts.
fn lower_plain(
    alloc: Global,
    source: &Spec,
    news: &[NodeId],
    spec: &mut Spec,
    node: &Node,
) -> Result<NodeId, AllocError>
    requires lowered { AreLowered source.now spec.old news.now }
    requires below { AllByRecursion (λ j. j < length news.now) (parts node.now) }
    ensures made { IfOk result (λ id. Makes spec.old spec.new id (plain_node (tree_at spec.old) (renamed (new_of news.now) node.now))) }
    ensures within { IfOk result (λ id. id < length spec.new.nodes) }
    ensures size { length spec.old.nodes ≤ length spec.new.nodes }
{
    let again = renamed(alloc, news, node)?;
    let id = put_plain(alloc, spec, again)?;
    Ok(id)
}

/// The lowered tree of the next node, where those before it are lowered.
fn lower_node(
    alloc: Global,
    source: &Spec,
    starts: &[u32],
    news: &[NodeId],
    spec: &mut Spec,
    i: usize,
) -> Result<NodeId, AllocError>
    requires ordered { Ordered source.now.nodes source.now.libs }
    requires lowered { AreLowered source.now spec.old news.now }
    requires starts { AreStarts source.now starts.now }
    requires next { i ≡ length news.now }
    requires there { i < length source.now.nodes }
    requires all { length starts.now ≡ length source.now.libs }
    requires forms { HasForms source.now }
    ensures made { IfOk result (λ id. Makes spec.old spec.new id (lowered (starts_of source.now) (tree source.now.nodes source.now.libs i))) }
    ensures within { IfOk result (λ id. id < length spec.new.nodes) }
    ensures size { length spec.old.nodes ≤ length spec.new.nodes }
{
    let node = source.node(NodeId(i));
    if let Node::Lib(k) = node {
        let id = lower_form(alloc, source, starts, news, spec, *k)?;
        return Ok(id);
    }
    let id = lower_plain(alloc, source, news, spec, node)?;
    Ok(id)
}

/// Lowers each node once, in ascending order: the new number of each.
pub(crate) fn lower_nodes(
    alloc: Global,
    source: &Spec,
    starts: &[u32],
    spec: &mut Spec,
) -> Result<Vec<NodeId>, AllocError>
    requires ordered { Ordered source.now.nodes source.now.libs }
    requires starts { AreStarts source.now starts.now }
    requires firsts { length starts.now ≡ length source.now.libs }
    requires forms { HasForms source.now }
    ensures all { IfOk result (λ news. length news.items ≡ length source.now.nodes) }
    ensures lowered { IfOk result (λ news. AreLowered source.now spec.new news.items) }
    ensures grows { OnOk result (Grows spec.old spec.new) }
    ensures adds { OnOk result (AddsLowered source.now spec.old spec.new (length source.now.nodes)) }
{
    let mut news = Vec::new(alloc);
    for i in 0..source.nodes() {
        let id = lower_node(alloc, source, starts, news.as_slice(), spec, i)?;
        news.push(id)?;
    }
    Ok(news)
}

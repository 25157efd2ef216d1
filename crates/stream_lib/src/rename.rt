// Nodes over other numbers.
ghost use Rattle.std.specs.Prelude.{◌≡◌, ◌<◌, ◌≤◌, [], ◌∷◌, length, map, IfOk};
ghost use Rattle.std.specs.List.{AllByRecursion};
ghost use Rattle.stream_core.specs.Parts.{parts};
ghost use Rattle.stream_lib.specs.Renamed.{new_of, renamed};

use sm_io::Seq;
use std::alloc::{AllocError, Global};
use stream_core::{Node, NodeId};
use stream_types::{Dir, Scalar, Ty};

// The new number of a node.
pub(crate) fn new_of(news: &[NodeId], id: NodeId) -> NodeId
    requires { id < length news.now }
    ensures { result ≡ new_of news.now id }
{
    news[id.0]
}

// The new numbers of nodes.
pub(crate) fn all_new(
    alloc: Global,
    news: &[NodeId],
    ids: &[NodeId],
) -> Result<Seq<NodeId>, AllocError>
    requires { AllByRecursion (λ i. i < length news.now) ids.now }
    ensures { IfOk result (λ all. all ≡ map (new_of news.now) ids.now) }
{
    let mut all = Vec::new(alloc);
    for id in ids {
        all.push(new_of(news, *id))?;
    }
    Ok(Seq::of(all))
}

fn dropped(stream: u32, k: u32) -> Node
    ensures { result ≡ Node.Drop stream k }
{
    Node::Drop { stream, k }
}

fn cast(from: Scalar, to: Scalar, a: NodeId) -> Node
    ensures { result ≡ Node.Cast from to a }
{
    Node::Cast { from, to, a }
}

fn field(of: Ty, member: u32, a: NodeId) -> Node
    ensures { result ≡ Node.Field of member a }
{
    Node::Field { of, member, a }
}

fn shift(dir: Dir, ty: Scalar, a: NodeId, cty: Scalar, count: NodeId) -> Node
    ensures { result ≡ Node.Shift dir ty a cty count }
{
    Node::Shift {
        dir,
        ty,
        a,
        cty,
        count,
    }
}

/// The node over the new numbers of its parts.
pub(crate) fn renamed(alloc: Global, news: &[NodeId], node: &Node) -> Result<Node, AllocError>
    requires { AllByRecursion (λ i. i < length news.now) (parts node.now) }
    ensures { IfOk result (λ n. n ≡ renamed (new_of news.now) node.now) }
{
    match node {
        Node::Lit(s, w) => Ok(Node::Lit(*s, *w)),
        Node::Extern(x) => Ok(Node::Extern(*x)),
        Node::Stream(s) => Ok(Node::Stream(*s)),
        Node::Def(d) => Ok(Node::Def(*d)),
        Node::Drop { stream, k } => Ok(dropped(*stream, *k)),
        Node::Un(o, s, a) => Ok(Node::Un(*o, *s, new_of(news, *a))),
        Node::Bin(o, s, a, b) => Ok(Node::Bin(*o, *s, new_of(news, *a), new_of(news, *b))),
        Node::Shift {
            dir,
            ty,
            a,
            cty,
            count,
        } => Ok(shift(*dir, *ty, new_of(news, *a), *cty, new_of(news, *count))),
        Node::Cast { from, to, a } => Ok(cast(*from, *to, new_of(news, *a))),
        Node::And(a, b) => Ok(Node::And(new_of(news, *a), new_of(news, *b))),
        Node::Or(a, b) => Ok(Node::Or(new_of(news, *a), new_of(news, *b))),
        Node::Implies(a, b) => Ok(Node::Implies(new_of(news, *a), new_of(news, *b))),
        Node::If(c, a, b) => Ok(Node::If(new_of(news, *c), new_of(news, *a), new_of(news, *b))),
        Node::Index(t, a, i) => Ok(Node::Index(*t, new_of(news, *a), new_of(news, *i))),
        Node::Field { of, member, a } => Ok(field(*of, *member, new_of(news, *a))),
        Node::Array(t, es) => Ok(Node::Array(*t, all_new(alloc, news, es.as_slice())?)),
        Node::Record(t, es) => Ok(Node::Record(*t, all_new(alloc, news, es.as_slice())?)),
        Node::Abs(s, a) => Ok(Node::Abs(*s, new_of(news, *a))),
        Node::Sign(s, a) => Ok(Node::Sign(*s, new_of(news, *a))),
        Node::Majority(s, es) => Ok(Node::Majority(*s, all_new(alloc, news, es.as_slice())?)),
        Node::Agreed(s, es) => Ok(Node::Agreed(*s, all_new(alloc, news, es.as_slice())?)),
        Node::Lib(k) => Ok(Node::Lib(*k)),
    }
}

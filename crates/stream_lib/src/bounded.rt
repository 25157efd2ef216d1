// The forms over bounded distances.
ghost use Rattle.std.specs.Prelude.{◌≡◌, ◌+◌, ◌-◌, ◌<◌, ◌≤◌, [], ◌∷◌, length, IfOk};
ghost use Rattle.stream_core.specs.Term.{and, choose, or};
ghost use Rattle.stream_core.specs.Lower.{no, since_from, since_in_value};
ghost use Rattle.stream_lib.specs.Built.{Makes, since_now, since_step, tree_at};

use crate::builder::put;
use crate::windows::ago;
use std::alloc::AllocError;
use stream_core::{Node, NodeId, Spec};
use stream_types::Scalar;

// What holds from one more than `more` steps ago back, over what holds from the step before on.
fn since_step(
    spec: &mut Spec,
    low: u32,
    p: u32,
    q: u32,
    m: u32,
    more: u32,
    rest: NodeId,
) -> Result<NodeId, AllocError>
    requires rest { rest < length spec.old.nodes }
    requires more { more < 4294967295 }
    ensures made { IfOk result (λ id. Makes spec.old spec.new id (since_step low p q m (1 + more) (tree_at spec.old rest))) }
    ensures within { IfOk result (λ id. id < length spec.new.nodes) }
    ensures size { length spec.old.nodes ≤ length spec.new.nodes }
{
    let held = ago(spec, p, m, 1, more)?;
    let lasts = put(spec, Node::And(held, rest))?;
    if low > 1 + more {
        return Ok(lasts);
    }
    let begins = ago(spec, q, m, 1, more)?;
    let id = put(spec, Node::Or(begins, lasts))?;
    Ok(id)
}

// What holds from one step ago back, n steps at most.
fn since_from(
    spec: &mut Spec,
    low: u32,
    p: u32,
    q: u32,
    m: u32,
    n: u32,
) -> Result<NodeId, AllocError>
    ensures made { IfOk result (λ id. Makes spec.old spec.new id (since_from low p q m 1 n)) }
    ensures within { IfOk result (λ id. id < length spec.new.nodes) }
    ensures size { length spec.old.nodes ≤ length spec.new.nodes }
{
    let mut rest = ago(spec, q, m, 1, n)?;
    for more in (0..n).rev() {
        rest = since_step(spec, low, p, q, m, more, rest)?;
    }
    Ok(rest)
}

// What of the bounded since holds now: nothing, where now is nearer than its bounds.
fn since_now(spec: &mut Spec, low: u32, q: NodeId) -> Result<NodeId, AllocError>
    requires { q < length spec.old.nodes }
    ensures made { IfOk result (λ id. Makes spec.old spec.new id (since_now low (tree_at spec.old q))) }
    ensures within { IfOk result (λ id. id < length spec.new.nodes) }
    ensures size { length spec.old.nodes ≤ length spec.new.nodes }
{
    if low == 0 {
        return Ok(q);
    }
    let no = put(spec, Node::Lit(Scalar::Bool, 0))?;
    let id = put(spec, Node::And(q, no))?;
    Ok(id)
}

// The bounded since with a bound above zero, over its buffers from b on.
fn since_past(
    spec: &mut Spec,
    low: u32,
    high: u32,
    b: u32,
    p: NodeId,
    q: NodeId,
) -> Result<NodeId, AllocError>
    requires p { p < length spec.old.nodes }
    requires q { q < length spec.old.nodes }
    requires high { 0 < high }
    requires next { b < 4294967295 }
    ensures made { IfOk result (λ id. Makes spec.old spec.new id (since_in_value b low high (tree_at spec.old p) (tree_at spec.old q))) }
    ensures within { IfOk result (λ id. id < length spec.new.nodes) }
    ensures size { length spec.old.nodes ≤ length spec.new.nodes }
{
    let past = since_from(spec, low, b, b + 1, high, high - 1)?;
    let now = since_now(spec, low, q)?;
    let some = put(spec, Node::Or(now, past))?;
    let id = put(spec, Node::If(p, some, now))?;
    Ok(id)
}

// The bounded since, over its buffers from b on.
pub(crate) fn since_in(
    spec: &mut Spec,
    low: u32,
    high: u32,
    b: u32,
    p: NodeId,
    q: NodeId,
) -> Result<NodeId, AllocError>
    requires p { p < length spec.old.nodes }
    requires q { q < length spec.old.nodes }
    requires next { b < 4294967295 }
    ensures made { IfOk result (λ id. Makes spec.old spec.new id (since_in_value b low high (tree_at spec.old p) (tree_at spec.old q))) }
    ensures within { IfOk result (λ id. id < length spec.new.nodes) }
    ensures size { length spec.old.nodes ≤ length spec.new.nodes }
{
    if high > 0 {
        return since_past(spec, low, high, b, p, q);
    }
    let id = put(spec, Node::If(p, q, q))?;
    Ok(id)
}

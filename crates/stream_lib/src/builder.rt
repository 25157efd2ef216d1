// Places nodes one after another.
ghost use Rattle.std.specs.Prelude.{◌<◌, ◌≤◌, [], ◌∷◌, length, IfOk, if◌then◌else◌, negsuc};
ghost use Rattle.std.specs.List.{AllByRecursion};
ghost use Rattle.stream_core.specs.Parts.{parts};
ghost use Rattle.stream_core.specs.Term.{bin, build, choose, def, lit};
ghost use Rattle.stream_core.specs.Lower.{abs_term, sign_term};
ghost use Rattle.stream_lib.specs.Built.{AreThere, Makes, both, joined, tree_at, trees_at};
ghost use Rattle.stream_types.specs.declared.scalar.Op2.TheVariants as op2;
ghost use Rattle.stream_types.specs.Numbers.{word};
ghost use Rattle.stream_types.specs.Types.{signed};

use std::alloc::AllocError;
use stream_core::{Node, NodeId, Spec};
use stream_types::{Op2, Scalar};

// A node over parts that are there.
pub(crate) fn put(spec: &mut Spec, node: Node) -> Result<NodeId, AllocError>
    requires { AllByRecursion (λ j. j < length spec.old.nodes) (parts node) }
    ensures made { IfOk result (λ id. Makes spec.old spec.new id (build [] def (tree_at spec.old) node)) }
    ensures within { IfOk result (λ id. id < length spec.new.nodes) }
    ensures size { length spec.old.nodes ≤ length spec.new.nodes }
{
    let _ = spec.nodes();
    let id = spec.place(node)?;
    Ok(id)
}

// `and` of two where all are to hold, else `or`.
pub(crate) fn both(spec: &mut Spec, all: bool, a: NodeId, b: NodeId) -> Result<NodeId, AllocError>
    requires a { a < length spec.old.nodes }
    requires b { b < length spec.old.nodes }
    ensures made { IfOk result (λ id. Makes spec.old spec.new id (both all (tree_at spec.old a) (tree_at spec.old b))) }
    ensures within { IfOk result (λ id. id < length spec.new.nodes) }
    ensures size { length spec.old.nodes ≤ length spec.new.nodes }
{
    if all {
        return put(spec, Node::And(a, b));
    }
    put(spec, Node::Or(a, b))
}

// All of these, or some of them.
pub(crate) fn joined(spec: &mut Spec, all: bool, ids: &[NodeId]) -> Result<NodeId, AllocError>
    requires { AreThere spec.old ids.now }
    ensures made { IfOk result (λ id. Makes spec.old spec.new id (joined all (trees_at spec.old ids.now))) }
    ensures within { IfOk result (λ id. id < length spec.new.nodes) }
    ensures size { length spec.old.nodes ≤ length spec.new.nodes }
{
    let Some(last) = ids.len().checked_sub(1) else {
        return put(spec, Node::Lit(Scalar::Bool, u64::from(all)));
    };
    let mut rest = ids[last];
    for i in (0..last).rev() {
        rest = both(spec, all, ids[i], rest)?;
    }
    Ok(rest)
}

// A number of a scalar against zero.
fn beside_zero(spec: &mut Spec, op: Op2, s: Scalar, e: NodeId) -> Result<NodeId, AllocError>
    requires { e < length spec.old.nodes }
    ensures made { IfOk result (λ id. Makes spec.old spec.new id (bin op s (tree_at spec.old e) (lit s 0))) }
    ensures within { IfOk result (λ id. id < length spec.new.nodes) }
    ensures size { length spec.old.nodes ≤ length spec.new.nodes }
{
    let zero = put(spec, Node::Lit(s, 0))?;
    let id = put(spec, Node::Bin(op, s, e, zero))?;
    Ok(id)
}

// A word of a scalar where a truth holds, else this node.
fn word_or(
    spec: &mut Spec,
    test: NodeId,
    s: Scalar,
    w: u64,
    other: NodeId,
) -> Result<NodeId, AllocError>
    requires test { test < length spec.old.nodes }
    requires other { other < length spec.old.nodes }
    ensures made { IfOk result (λ id. Makes spec.old spec.new id (choose (tree_at spec.old test) (lit s w) (tree_at spec.old other))) }
    ensures within { IfOk result (λ id. id < length spec.new.nodes) }
    ensures size { length spec.old.nodes ≤ length spec.new.nodes }
{
    let word = put(spec, Node::Lit(s, w))?;
    let id = put(spec, Node::If(test, word, other))?;
    Ok(id)
}

// The absolute value, without its form.
pub(crate) fn abs(spec: &mut Spec, s: Scalar, e: NodeId) -> Result<NodeId, AllocError>
    requires { e < length spec.old.nodes }
    ensures made { IfOk result (λ id. Makes spec.old spec.new id (abs_term s (tree_at spec.old e))) }
    ensures within { IfOk result (λ id. id < length spec.new.nodes) }
    ensures size { length spec.old.nodes ≤ length spec.new.nodes }
{
    let below = beside_zero(spec, Op2::Lt, s, e)?;
    let zero = put(spec, Node::Lit(s, 0))?;
    let negated = put(spec, Node::Bin(Op2::Sub, s, zero, e))?;
    let id = put(spec, Node::If(below, negated, e))?;
    Ok(id)
}

// -1 below zero, else 0.
fn negative_sign(spec: &mut Spec, s: Scalar, e: NodeId) -> Result<NodeId, AllocError>
    requires { e < length spec.old.nodes }
    ensures made { IfOk result (λ id. Makes spec.old spec.new id (choose (bin op2.Lt s (tree_at spec.old e) (lit s 0)) (lit s (word (negsuc 0))) (lit s 0))) }
    ensures within { IfOk result (λ id. id < length spec.new.nodes) }
    ensures size { length spec.old.nodes ≤ length spec.new.nodes }
{
    let below = beside_zero(spec, Op2::Lt, s, e)?;
    let zero = put(spec, Node::Lit(s, 0))?;
    let id = word_or(spec, below, s, u64::MAX, zero)?;
    Ok(id)
}

// The sign of what isn't above zero.
fn lower_sign(spec: &mut Spec, s: Scalar, e: NodeId) -> Result<NodeId, AllocError>
    requires { e < length spec.old.nodes }
    ensures made { IfOk result (λ id. Makes spec.old spec.new id
        (if signed s then choose (bin op2.Lt s (tree_at spec.old e) (lit s 0)) (lit s (word (negsuc 0))) (lit s 0) else lit s 0)) }
    ensures within { IfOk result (λ id. id < length spec.new.nodes) }
    ensures size { length spec.old.nodes ≤ length spec.new.nodes }
{
    match s {
        Scalar::Int8 | Scalar::Int16 | Scalar::Int32 | Scalar::Int64 => negative_sign(spec, s, e),
        Scalar::Bool | Scalar::Word8 | Scalar::Word16 | Scalar::Word32 | Scalar::Word64 => {
            put(spec, Node::Lit(s, 0))
        }
    }
}

// The sign, without its form.
pub(crate) fn sign(spec: &mut Spec, s: Scalar, e: NodeId) -> Result<NodeId, AllocError>
    requires { e < length spec.old.nodes }
    ensures made { IfOk result (λ id. Makes spec.old spec.new id (sign_term s (tree_at spec.old e))) }
    ensures within { IfOk result (λ id. id < length spec.new.nodes) }
    ensures size { length spec.old.nodes ≤ length spec.new.nodes }
{
    let above = beside_zero(spec, Op2::Gt, s, e)?;
    let lower = lower_sign(spec, s, e)?;
    let id = word_or(spec, above, s, 1, lower)?;
    Ok(id)
}

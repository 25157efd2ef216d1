// The plain expressions of the forms over their buffers.
ghost use Rattle.std.specs.Prelude.{◌≡◌, ◌+◌, ◌-◌, ◌<◌, ◌≤◌, [], ◌∷◌, length, max, IfOk};
ghost use Rattle.stream_core.specs.declared.node.LibForm.TheVariants as form;
ghost use Rattle.stream_types.specs.declared.scalar.Op2.TheVariants as op2;
ghost use Rattle.stream_types.specs.declared.scalar.Scalar.TheVariants as scalar;
ghost use Rattle.stream_core.specs.Term.{and, bin, choose, lit, or, stream};
ghost use Rattle.stream_core.specs.Lower.{agos, form_term, no, sum_all};
ghost use Rattle.stream_lib.specs.Built.{AreThere, Makes, both, bounded, idle, joined, tree_at, trees_at};

use crate::bounded::since_in;
use crate::builder::{both, joined, put};
use crate::windows::{at_least_one, best, sum_all, window};
use std::alloc::{AllocError, Global};
use stream_core::{LibForm, Node, NodeId, Spec};
use stream_types::{Op2, Scalar};

// `and` of an operand and a buffer where all are to hold, else `or`.
fn with_buffer(spec: &mut Spec, all: bool, p: NodeId, b: u32) -> Result<NodeId, AllocError>
    requires { p < length spec.old.nodes }
    ensures made { IfOk result (λ id. Makes spec.old spec.new id (both all (tree_at spec.old p) (stream b))) }
    ensures within { IfOk result (λ id. id < length spec.new.nodes) }
    ensures size { length spec.old.nodes ≤ length spec.new.nodes }
{
    let buffer = put(spec, Node::Stream(b))?;
    let id = both(spec, all, p, buffer)?;
    Ok(id)
}

// An operand that is evaluated, and then changes nothing: false among some, true among all.
fn idle(spec: &mut Spec, all: bool, p: NodeId) -> Result<NodeId, AllocError>
    requires { p < length spec.old.nodes }
    ensures made { IfOk result (λ id. Makes spec.old spec.new id (idle all (tree_at spec.old p))) }
    ensures within { IfOk result (λ id. id < length spec.new.nodes) }
    ensures size { length spec.old.nodes ≤ length spec.new.nodes }
{
    let constant = put(spec, Node::Lit(Scalar::Bool, u64::from(all)))?;
    let id = both(spec, !all, p, constant)?;
    Ok(id)
}

// The step before.
fn yesterday(spec: &mut Spec, p: NodeId, b: u32) -> Result<NodeId, AllocError>
    requires { p < length spec.old.nodes }
    ensures made { IfOk result (λ id. Makes spec.old spec.new id (or (and (tree_at spec.old p) no) (stream b))) }
    ensures within { IfOk result (λ id. id < length spec.new.nodes) }
    ensures size { length spec.old.nodes ≤ length spec.new.nodes }
{
    let now = idle(spec, false, p)?;
    let id = with_buffer(spec, false, now, b)?;
    Ok(id)
}

// q now, or p now and the buffer.
fn since(spec: &mut Spec, p: NodeId, q: NodeId, b: u32) -> Result<NodeId, AllocError>
    requires p { p < length spec.old.nodes }
    requires q { q < length spec.old.nodes }
    ensures made { IfOk result (λ id. Makes spec.old spec.new id (choose (tree_at spec.old p) (or (tree_at spec.old q) (stream b)) (tree_at spec.old q))) }
    ensures within { IfOk result (λ id. id < length spec.new.nodes) }
    ensures size { length spec.old.nodes ≤ length spec.new.nodes }
{
    let held = with_buffer(spec, false, q, b)?;
    let id = put(spec, Node::If(p, held, q))?;
    Ok(id)
}

// The counter's test.
fn clock(spec: &mut Spec, b: u32, phase: u32) -> Result<NodeId, AllocError>
    ensures made { IfOk result (λ id. Makes spec.old spec.new id (bin op2.Eq scalar.Word32 (stream b) (lit scalar.Word32 phase))) }
    ensures within { IfOk result (λ id. id < length spec.new.nodes) }
    ensures size { length spec.old.nodes ≤ length spec.new.nodes }
{
    let count = put(spec, Node::Stream(b))?;
    let at = put(spec, Node::Lit(Scalar::Word32, u64::from(phase)))?;
    let id = put(spec, Node::Bin(Op2::Eq, Scalar::Word32, count, at))?;
    Ok(id)
}

// A node with values of a buffer, all of them or some.
fn reach(
    alloc: Global,
    spec: &mut Spec,
    all: bool,
    first: NodeId,
    b: u32,
    high: u32,
    from: u32,
    n: u32,
) -> Result<NodeId, AllocError>
    requires { first < length spec.old.nodes }
    ensures made { IfOk result (λ id. Makes spec.old spec.new id (joined all (tree_at spec.old first ∷ agos b (max high 1) from n))) }
    ensures within { IfOk result (λ id. id < length spec.new.nodes) }
    ensures size { length spec.old.nodes ≤ length spec.new.nodes }
{
    let m = at_least_one(high);
    let ids = window(alloc, spec, first, b, m, from, n)?;
    let id = joined(spec, all, ids.as_slice())?;
    Ok(id)
}

// All, or some, of an operand's values within bounds.
fn bounded(
    alloc: Global,
    spec: &mut Spec,
    all: bool,
    low: u32,
    high: u32,
    b: u32,
    p: NodeId,
) -> Result<NodeId, AllocError>
    requires { p < length spec.old.nodes }
    ensures made { IfOk result (λ id. Makes spec.old spec.new id (bounded all low high b (tree_at spec.old p))) }
    ensures within { IfOk result (λ id. id < length spec.new.nodes) }
    ensures size { length spec.old.nodes ≤ length spec.new.nodes }
{
    if low == 0 {
        return reach(alloc, spec, all, p, b, high, 1, high);
    }
    let now = idle(spec, all, p)?;
    let id = reach(
        alloc,
        spec,
        all,
        now,
        b,
        high,
        low,
        high.saturating_sub(low - 1),
    )?;
    Ok(id)
}

// Some value within the bounds.
fn once_in(
    alloc: Global,
    spec: &mut Spec,
    low: u32,
    high: u32,
    b: u32,
    p: NodeId,
) -> Result<NodeId, AllocError>
    requires { p < length spec.old.nodes }
    ensures made { IfOk result (λ id. Makes spec.old spec.new id (form_term (form.OnceIn low high) b (tree_at spec.old p ∷ []))) }
    ensures within { IfOk result (λ id. id < length spec.new.nodes) }
    ensures size { length spec.old.nodes ≤ length spec.new.nodes }
{
    let id = bounded(alloc, spec, false, low, high, b, p)?;
    Ok(id)
}

// Each value within the bounds.
fn historically_in(
    alloc: Global,
    spec: &mut Spec,
    low: u32,
    high: u32,
    b: u32,
    p: NodeId,
) -> Result<NodeId, AllocError>
    requires { p < length spec.old.nodes }
    ensures made { IfOk result (λ id. Makes spec.old spec.new id (form_term (form.HistoricallyIn low high) b (tree_at spec.old p ∷ []))) }
    ensures within { IfOk result (λ id. id < length spec.new.nodes) }
    ensures size { length spec.old.nodes ≤ length spec.new.nodes }
{
    let id = bounded(alloc, spec, true, low, high, b, p)?;
    Ok(id)
}

// What a form without its operands is.
fn nothing(spec: &mut Spec) -> Result<NodeId, AllocError>
    ensures made { IfOk result (λ id. Makes spec.old spec.new id no) }
    ensures within { IfOk result (λ id. id < length spec.new.nodes) }
    ensures size { length spec.old.nodes ≤ length spec.new.nodes }
{
    put(spec, Node::Lit(Scalar::Bool, 0))
}

// A form of one operand.
fn unary(
    alloc: Global,
    spec: &mut Spec,
    form: LibForm,
    b: u32,
    p: NodeId,
) -> Result<NodeId, AllocError>
    requires { p < length spec.old.nodes }
    ensures made { IfOk result (λ id. Makes spec.old spec.new id (form_term form b (tree_at spec.old p ∷ []))) }
    ensures within { IfOk result (λ id. id < length spec.new.nodes) }
    ensures size { length spec.old.nodes ≤ length spec.new.nodes }
{
    match form {
        LibForm::Once => with_buffer(spec, false, p, b),
        LibForm::Historically => with_buffer(spec, true, p, b),
        LibForm::Yesterday => yesterday(spec, p, b),
        LibForm::WeaklyYesterday => yesterday(spec, p, b),
        LibForm::OnceIn(low, high) => once_in(alloc, spec, low, high, b, p),
        LibForm::HistoricallyIn(low, high) => historically_in(alloc, spec, low, high, b, p),
        LibForm::WindowMax(n, s) => best(alloc, spec, Op2::Ge, s, p, b, n),
        LibForm::WindowMin(n, s) => best(alloc, spec, Op2::Le, s, p, b, n),
        LibForm::WindowSum(n, s) => window_sum(spec, n, s, b, p),
        LibForm::Clock(_, phase) => clock(spec, b, phase),
        LibForm::Since => nothing(spec),
        LibForm::SinceIn(_, _) => nothing(spec),
    }
}

// The sum of a window.
fn window_sum(spec: &mut Spec, n: u32, s: Scalar, b: u32, p: NodeId) -> Result<NodeId, AllocError>
    requires { p < length spec.old.nodes }
    ensures made { IfOk result (λ id. Makes spec.old spec.new id (sum_all s (tree_at spec.old p) (agos b (max (n - 1) 1) 1 (n - 1)))) }
    ensures within { IfOk result (λ id. id < length spec.new.nodes) }
    ensures size { length spec.old.nodes ≤ length spec.new.nodes }
{
    let older = n.saturating_sub(1);
    let m = at_least_one(older);
    let id = sum_all(spec, s, p, b, m, older)?;
    Ok(id)
}

// A form of two operands.
fn binary(
    alloc: Global,
    spec: &mut Spec,
    form: LibForm,
    b: u32,
    p: NodeId,
    q: NodeId,
) -> Result<NodeId, AllocError>
    requires p { p < length spec.old.nodes }
    requires q { q < length spec.old.nodes }
    requires next { b < 4294967295 }
    ensures made { IfOk result (λ id. Makes spec.old spec.new id (form_term form b (tree_at spec.old p ∷ tree_at spec.old q ∷ []))) }
    ensures within { IfOk result (λ id. id < length spec.new.nodes) }
    ensures size { length spec.old.nodes ≤ length spec.new.nodes }
{
    match form {
        LibForm::Since => since(spec, p, q, b),
        LibForm::SinceIn(low, high) => since_in(spec, low, high, b, p, q),
        LibForm::Once
        | LibForm::Historically
        | LibForm::Yesterday
        | LibForm::WeaklyYesterday
        | LibForm::OnceIn(_, _)
        | LibForm::HistoricallyIn(_, _)
        | LibForm::WindowMax(_, _)
        | LibForm::WindowMin(_, _)
        | LibForm::WindowSum(_, _)
        | LibForm::Clock(_, _) => unary(alloc, spec, form, b, p),
    }
}

// A form without operands.
fn nullary(spec: &mut Spec, form: LibForm, b: u32) -> Result<NodeId, AllocError>
    ensures made { IfOk result (λ id. Makes spec.old spec.new id (form_term form b [])) }
    ensures within { IfOk result (λ id. id < length spec.new.nodes) }
    ensures size { length spec.old.nodes ≤ length spec.new.nodes }
{
    match form {
        LibForm::Clock(_, phase) => clock(spec, b, phase),
        LibForm::Once
        | LibForm::Historically
        | LibForm::Yesterday
        | LibForm::WeaklyYesterday
        | LibForm::OnceIn(_, _)
        | LibForm::HistoricallyIn(_, _)
        | LibForm::WindowMax(_, _)
        | LibForm::WindowMin(_, _)
        | LibForm::WindowSum(_, _)
        | LibForm::Since
        | LibForm::SinceIn(_, _) => nothing(spec),
    }
}

// A form over its operands, where its first buffer is stream b.
pub(crate) fn form_term(
    alloc: Global,
    spec: &mut Spec,
    form: LibForm,
    b: u32,
    ps: &[NodeId],
) -> Result<NodeId, AllocError>
    requires there { AreThere spec.old ps.now }
    requires next { b < 4294967295 }
    ensures made { IfOk result (λ id. Makes spec.old spec.new id (form_term form b (trees_at spec.old ps.now))) }
    ensures within { IfOk result (λ id. id < length spec.new.nodes) }
    ensures size { length spec.old.nodes ≤ length spec.new.nodes }
{
    match ps {
        [] => nullary(spec, form, b),
        [p] => unary(alloc, spec, form, b, *p),
        [p, q, ..] => {
            let id = binary(alloc, spec, form, b, *p, *q)?;
            Ok(id)
        }
    }
}

// A counter one step on.
fn counted_on(spec: &mut Spec, b: u32) -> Result<NodeId, AllocError>
    ensures made { IfOk result (λ id. Makes spec.old spec.new id (bin op2.Add scalar.Word32 (stream b) (lit scalar.Word32 1))) }
    ensures within { IfOk result (λ id. id < length spec.new.nodes) }
    ensures size { length spec.old.nodes ≤ length spec.new.nodes }
{
    let count = put(spec, Node::Stream(b))?;
    let one = put(spec, Node::Lit(Scalar::Word32, 1))?;
    let id = put(spec, Node::Bin(Op2::Add, Scalar::Word32, count, one))?;
    Ok(id)
}

/// What follows in the buffer of a clock: the next number, or 0 behind the last of its period.
pub(crate) fn tick(spec: &mut Spec, b: u32, period: u32) -> Result<NodeId, AllocError>
    ensures made { IfOk result (λ id. Makes spec.old spec.new id
        (choose (bin op2.Eq scalar.Word32 (stream b) (lit scalar.Word32 (period - 1))) (lit scalar.Word32 0)
        (bin op2.Add scalar.Word32 (stream b) (lit scalar.Word32 1)))) }
    ensures within { IfOk result (λ id. id < length spec.new.nodes) }
    ensures size { length spec.old.nodes ≤ length spec.new.nodes }
{
    let last = clock(spec, b, period.saturating_sub(1))?;
    let zero = put(spec, Node::Lit(Scalar::Word32, 0))?;
    let next = counted_on(spec, b)?;
    let id = put(spec, Node::If(last, zero, next))?;
    Ok(id)
}

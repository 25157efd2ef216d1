// The forms over windows.
ghost use Rattle.std.specs.Prelude.{◌≡◌, ◌+◌, ◌-◌, ◌<◌, ◌≤◌, [], ◌∷◌, ◌++◌, length, map, max, slice_index_or, IfOk, OnOk};
ghost use Rattle.stream_types.specs.declared.scalar.Scalar.TheVariants as scalar;
ghost use Rattle.stream_types.specs.declared.scalar.Op2.TheVariants as op2;
ghost use Rattle.stream_core.specs.Term.{Term, bin, choose, dropped};
ghost use Rattle.stream_core.specs.Lower.{ago, agos, best, sum_all, sample, tests, all_of};
ghost use Rattle.stream_lib.specs.Built.{AreThere, Makes, MakesAll, better, tree_at, trees_at};

use crate::builder::{joined, put};
use std::alloc::{AllocError, Global};
use stream_core::{Node, NodeId, Spec};
use stream_types::{Op2, Scalar};

// How many values a buffer of a reach or a window has.
pub(crate) fn at_least_one(n: u32) -> u32
    ensures { result ≡ max n 1 }
{
    if n == 0 {
        return 1;
    }
    n
}

// A buffer's value from `from` steps ago and `more` steps before that.
pub(crate) fn ago(
    spec: &mut Spec,
    b: u32,
    m: u32,
    from: u32,
    more: u32,
) -> Result<NodeId, AllocError>
    ensures made { IfOk result (λ id. Makes spec.old spec.new id (ago b m (from + more))) }
    ensures within { IfOk result (λ id. id < length spec.new.nodes) }
    ensures size { length spec.old.nodes ≤ length spec.new.nodes }
{
    let k = m.saturating_sub(from).saturating_sub(more);
    let id = put(spec, Node::Drop { stream: b, k })?;
    Ok(id)
}

// A node, and then so many values of a buffer from some steps ago on.
pub(crate) fn window(
    alloc: Global,
    spec: &mut Spec,
    first: NodeId,
    b: u32,
    m: u32,
    from: u32,
    n: u32,
) -> Result<Vec<NodeId>, AllocError>
    requires { first < length spec.old.nodes }
    ensures made { IfOk result (λ ids. MakesAll spec.old spec.new ids.items (tree_at spec.old first ∷ agos b m from n)) }
    ensures size { length spec.old.nodes ≤ length spec.new.nodes }
{
    let mut ids = Vec::new(alloc);
    ids.push(first)?;
    for i in 0..n {
        ids.push(ago(spec, b, m, from, i)?)?;
    }
    Ok(ids)
}

// The sum with one value more.
fn added(
    spec: &mut Spec,
    s: Scalar,
    sum: NodeId,
    b: u32,
    m: u32,
    i: u32,
) -> Result<NodeId, AllocError>
    requires { sum < length spec.old.nodes }
    ensures made { IfOk result (λ id. Makes spec.old spec.new id (bin op2.Add s (tree_at spec.old sum) (ago b m (1 + i)))) }
    ensures within { IfOk result (λ id. id < length spec.new.nodes) }
    ensures size { length spec.old.nodes ≤ length spec.new.nodes }
{
    let value = ago(spec, b, m, 1, i)?;
    let id = put(spec, Node::Bin(Op2::Add, s, sum, value))?;
    Ok(id)
}

// The sum of a node and the last values of a buffer.
pub(crate) fn sum_all(
    spec: &mut Spec,
    s: Scalar,
    first: NodeId,
    b: u32,
    m: u32,
    n: u32,
) -> Result<NodeId, AllocError>
    requires { first < length spec.old.nodes }
    ensures made { IfOk result (λ id. Makes spec.old spec.new id (sum_all s (tree_at spec.old first) (agos b m 1 n))) }
    ensures within { IfOk result (λ id. id < length spec.new.nodes) }
    ensures size { length spec.old.nodes ≤ length spec.new.nodes }
{
    let mut sum = first;
    for i in 0..n {
        sum = added(spec, s, sum, b, m, i)?;
    }
    Ok(sum)
}

// The tests of a sample against each other sample.
fn tests_of(
    alloc: Global,
    spec: &mut Spec,
    op: Op2,
    s: Scalar,
    samples: &[NodeId],
    i: usize,
) -> Result<Vec<NodeId>, AllocError>
    requires there { AreThere spec.old samples.now }
    requires within { i < length samples.now }
    ensures made { IfOk result (λ ids. MakesAll spec.old spec.new ids.items
        (tests (bin op s) (λ k. tree_at spec.old (slice_index_or samples.now k 0)) i 0 (length samples.now))) }
    ensures size { length spec.old.nodes ≤ length spec.new.nodes }
{
    let mut ids = Vec::new(alloc);
    for j in 0..samples.len() {
        if j == i {
            continue;
        }
        ids.push(put(spec, Node::Bin(op, s, samples[i], samples[j]))?)?;
    }
    Ok(ids)
}

// A sample where it passes all its tests, else another node.
fn better(
    alloc: Global,
    spec: &mut Spec,
    op: Op2,
    s: Scalar,
    samples: &[NodeId],
    i: usize,
    rest: NodeId,
) -> Result<NodeId, AllocError>
    requires there { AreThere spec.old samples.now }
    requires within { i < length samples.now }
    requires rest { rest < length spec.old.nodes }
    ensures made { IfOk result (λ id. Makes spec.old spec.new id
        (better (bin op s) (λ k. tree_at spec.old (slice_index_or samples.now k 0)) (length samples.now) i (tree_at spec.old rest))) }
    ensures within { IfOk result (λ id. id < length spec.new.nodes) }
    ensures size { length spec.old.nodes ≤ length spec.new.nodes }
{
    let tests = tests_of(alloc, spec, op, s, samples, i)?;
    let passes = joined(spec, true, tests.as_slice())?;
    let id = put(spec, Node::If(passes, samples[i], rest))?;
    Ok(id)
}

// The first sample that passes its tests, or the last.
fn best_of(
    alloc: Global,
    spec: &mut Spec,
    op: Op2,
    s: Scalar,
    samples: &[NodeId],
    last: usize,
) -> Result<NodeId, AllocError>
    requires there { AreThere spec.old samples.now }
    requires last { last + 1 ≡ length samples.now }
    ensures made { IfOk result (λ id. Makes spec.old spec.new id
        (best (bin op s) (λ k. tree_at spec.old (slice_index_or samples.now k 0)) (length samples.now) 0 last)) }
    ensures within { IfOk result (λ id. id < length spec.new.nodes) }
    ensures size { length spec.old.nodes ≤ length spec.new.nodes }
{
    let mut rest = samples[last];
    for i in (0..last).rev() {
        rest = better(alloc, spec, op, s, samples, i, rest)?;
    }
    Ok(rest)
}

// The best sample of a node and the last values of a buffer.
pub(crate) fn best(
    alloc: Global,
    spec: &mut Spec,
    op: Op2,
    s: Scalar,
    first: NodeId,
    b: u32,
    n: u32,
) -> Result<NodeId, AllocError>
    requires { first < length spec.old.nodes }
    ensures made { IfOk result (λ id. Makes spec.old spec.new id (best (bin op s) (sample b (max (n - 1) 1) (tree_at spec.old first)) n 0 (n - 1))) }
    ensures within { IfOk result (λ id. id < length spec.new.nodes) }
    ensures size { length spec.old.nodes ≤ length spec.new.nodes }
{
    let older = n.saturating_sub(1);
    let m = at_least_one(older);
    let samples = window(alloc, spec, first, b, m, 1, older)?;
    let id = best_of(alloc, spec, op, s, samples.as_slice(), older as usize)?;
    Ok(id)
}

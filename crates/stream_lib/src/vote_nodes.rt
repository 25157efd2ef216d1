// The forms over votes.
ghost use Rattle.std.specs.Prelude.{◌≡◌, ◌<◌, ◌≤◌, ◌/◌, [], ◌∷◌, length, map, IfOk};
ghost use Rattle.stream_types.specs.declared.scalar.Scalar.TheVariants as scalar;
ghost use Rattle.stream_types.specs.declared.scalar.Op2.TheVariants as op2;
ghost use Rattle.stream_core.specs.Term.{bin, choose, lit};
ghost use Rattle.stream_core.specs.Lower.{agreed_term, count_from, count_of, majority_from, majority_term, one_vote, wins};
ghost use Rattle.stream_lib.specs.Built.{AreThere, Makes, MakesAll, tree_at, trees_at};

use crate::builder::{joined, put};
use std::alloc::{AllocError, Global};
use stream_core::{Node, NodeId, Spec};
use stream_types::{Op2, Scalar};

// 1 where two votes are the same, else 0.
fn one_vote(spec: &mut Spec, s: Scalar, a: NodeId, b: NodeId) -> Result<NodeId, AllocError>
    requires a { a < length spec.old.nodes }
    requires b { b < length spec.old.nodes }
    ensures made { IfOk result (λ id. Makes spec.old spec.new id (one_vote s (tree_at spec.old a) (tree_at spec.old b))) }
    ensures within { IfOk result (λ id. id < length spec.new.nodes) }
    ensures size { length spec.old.nodes ≤ length spec.new.nodes }
{
    let same = put(spec, Node::Bin(Op2::Eq, s, a, b))?;
    let one = put(spec, Node::Lit(Scalar::Word8, 1))?;
    let zero = put(spec, Node::Lit(Scalar::Word8, 0))?;
    let id = put(spec, Node::If(same, one, zero))?;
    Ok(id)
}

// One vote more on a sum.
fn counted(
    spec: &mut Spec,
    s: Scalar,
    a: NodeId,
    sum: NodeId,
    b: NodeId,
) -> Result<NodeId, AllocError>
    requires a { a < length spec.old.nodes }
    requires sum { sum < length spec.old.nodes }
    requires b { b < length spec.old.nodes }
    ensures made { IfOk result (λ id. Makes spec.old spec.new id
        (bin op2.Add scalar.Word8 (tree_at spec.old sum) (one_vote s (tree_at spec.old a) (tree_at spec.old b)))) }
    ensures within { IfOk result (λ id. id < length spec.new.nodes) }
    ensures size { length spec.old.nodes ≤ length spec.new.nodes }
{
    let vote = one_vote(spec, s, a, b)?;
    let id = put(spec, Node::Bin(Op2::Add, Scalar::Word8, sum, vote))?;
    Ok(id)
}

// How many votes are the same as this one.
fn count_of(spec: &mut Spec, s: Scalar, votes: &[NodeId], a: NodeId) -> Result<NodeId, AllocError>
    requires votes { AreThere spec.old votes.now }
    requires a { a < length spec.old.nodes }
    ensures made { IfOk result (λ id. Makes spec.old spec.new id (count_of s (trees_at spec.old votes.now) (tree_at spec.old a))) }
    ensures within { IfOk result (λ id. id < length spec.new.nodes) }
    ensures size { length spec.old.nodes ≤ length spec.new.nodes }
{
    let [first, others @ ..] = votes else {
        return put(spec, Node::Lit(Scalar::Word8, 0));
    };
    let mut sum = one_vote(spec, s, a, *first)?;
    for b in others {
        sum = counted(spec, s, a, sum, *b)?;
    }
    Ok(sum)
}

// Whether more than half of the votes are the same as this one.
fn wins(spec: &mut Spec, s: Scalar, votes: &[NodeId], a: NodeId) -> Result<NodeId, AllocError>
    requires votes { AreThere spec.old votes.now }
    requires a { a < length spec.old.nodes }
    ensures made { IfOk result (λ id. Makes spec.old spec.new id (wins s (trees_at spec.old votes.now) (tree_at spec.old a))) }
    ensures within { IfOk result (λ id. id < length spec.new.nodes) }
    ensures size { length spec.old.nodes ≤ length spec.new.nodes }
{
    let count = count_of(spec, s, votes, a)?;
    let half = put(spec, Node::Lit(Scalar::Word8, votes.len() as u64 / 2))?;
    let id = put(spec, Node::Bin(Op2::Gt, Scalar::Word8, count, half))?;
    Ok(id)
}

// A vote where it wins, else another node.
fn winner_or(
    spec: &mut Spec,
    s: Scalar,
    votes: &[NodeId],
    a: NodeId,
    other: NodeId,
) -> Result<NodeId, AllocError>
    requires votes { AreThere spec.old votes.now }
    requires a { a < length spec.old.nodes }
    requires other { other < length spec.old.nodes }
    ensures made { IfOk result (λ id. Makes spec.old spec.new id
        (choose (wins s (trees_at spec.old votes.now) (tree_at spec.old a)) (tree_at spec.old a) (tree_at spec.old other))) }
    ensures within { IfOk result (λ id. id < length spec.new.nodes) }
    ensures size { length spec.old.nodes ≤ length spec.new.nodes }
{
    let test = wins(spec, s, votes, a)?;
    let id = put(spec, Node::If(test, a, other))?;
    Ok(id)
}

// The vote that more than half have, else the first, without its form.
pub(crate) fn majority(spec: &mut Spec, s: Scalar, votes: &[NodeId]) -> Result<NodeId, AllocError>
    requires { AreThere spec.old votes.now }
    ensures made { IfOk result (λ id. Makes spec.old spec.new id (majority_term s (trees_at spec.old votes.now))) }
    ensures within { IfOk result (λ id. id < length spec.new.nodes) }
    ensures size { length spec.old.nodes ≤ length spec.new.nodes }
{
    let [first, ..] = votes else {
        return put(spec, Node::Lit(s, 0));
    };
    let mut rest = *first;
    for i in (0..votes.len()).rev() {
        rest = winner_or(spec, s, votes, votes[i], rest)?;
    }
    Ok(rest)
}

// Whether each of these wins among all votes.
fn all_wins(
    alloc: Global,
    spec: &mut Spec,
    s: Scalar,
    votes: &[NodeId],
) -> Result<Vec<NodeId>, AllocError>
    requires { AreThere spec.old votes.now }
    ensures made { IfOk result (λ ids. MakesAll spec.old spec.new ids.items (map (wins s (trees_at spec.old votes.now)) (trees_at spec.old votes.now))) }
    ensures size { length spec.old.nodes ≤ length spec.new.nodes }
{
    let mut tests = Vec::new(alloc);
    for a in votes {
        tests.push(wins(spec, s, votes, *a)?)?;
    }
    Ok(tests)
}

// Whether some vote has more than half, without its form.
pub(crate) fn agreed(
    alloc: Global,
    spec: &mut Spec,
    s: Scalar,
    votes: &[NodeId],
) -> Result<NodeId, AllocError>
    requires { AreThere spec.old votes.now }
    ensures made { IfOk result (λ id. Makes spec.old spec.new id (agreed_term s (trees_at spec.old votes.now))) }
    ensures within { IfOk result (λ id. id < length spec.new.nodes) }
    ensures size { length spec.old.nodes ≤ length spec.new.nodes }
{
    let tests = all_wins(alloc, spec, s, votes)?;
    let id = joined(spec, false, tests.as_slice())?;
    Ok(id)
}

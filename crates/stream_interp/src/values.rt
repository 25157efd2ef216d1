// The values of expressions.
ghost use Rattle.std.specs.Prelude.{◌≡◌, ◌+◌, ◌<◌, ◌≤◌, length, drop, OnOk, IfErr, Ok, Err};
ghost use Rattle.stream_types.specs.declared.scalar.Scalar.{Scalar as AnyScalar};
ghost use Rattle.stream_types.specs.declared.scalar.Ty.{Ty as AnyType};
ghost use Rattle.stream_types.specs.TypeList.{Stands};
ghost use Rattle.stream_types.specs.Types.{words};
ghost use Rattle.stream_core.specs.Term.{build, closed, closed_def, def, field, index, terms_of, tree, trees};
ghost use Rattle.stream_core.specs.Eval.{all_values, on_test, one, value};
ghost use Rattle.stream_core.specs.Plain.{IsPlain};
ghost use Rattle.stream_core.specs.Signature.{signature_of};
ghost use Rattle.stream_core.specs.WellTyped.{HasType, bool};
ghost use Rattle.stream_core.specs.Weights.{heavy, loaded, nodes_weight};
ghost use Rattle.stream_interp.specs.Reading.{AreReady, IsLayout, IsNoDef, IsReady, IsReadyElement, IsReadyForm, IsReadyMember, part_types, types_words};
ghost use Rattle.stream_interp.specs.Branches.{IsReadyBranch, branch_value, branch_weight};
ghost use Rattle.stream_interp.specs.Room.{room};
ghost use Rattle.stream_interp.specs.Seen.{IsSeen, now_moment};

use crate::names::behind;
use crate::parts::{copy_element, part_words, run_of, words_before};
use crate::reads::{copy_entry, entry_word, extern_part};
use crate::sight::Sight;
use sm_io::Steps;
use std::sync::ledger::Ledger;
use stream_core::{Node, NodeId};
use stream_types::{Hazard, Ty, cast, op1, op2, shift};

/// What a test chooses: the value of a node, or a word.
#[derive(Clone, Copy, Debug)]
pub(crate) enum Branch {
    Node(NodeId),
    Word(u64),
}

/// The word of a node of a scalar type.
#[cycle(evaluating)]
pub(crate) fn word<L: Ledger>(
    sight: &Sight,
    id: NodeId,
    scratch: &mut [u64],
    steps: &mut Steps<L>,
) -> Result<u64, Hazard>
    requires seen { IsSeen sight.now.spec.now sight.now.rings.now sight.now.row.now }
    requires layout { IsLayout sight.now.spec.now sight.now.layout.now }
    requires scalar { (c : AnyScalar)
        × HasType (signature_of (trees sight.now.spec.now)) (tree sight.now.spec.now.nodes sight.now.spec.now.libs id) (Ty.Scalar c) }
    requires there { id < length sight.now.spec.now.nodes }
    requires plain { IsPlain (closed sight.now.spec.now id) }
    requires room { room sight.now.spec.now.types (closed sight.now.spec.now id) ≤ length scratch.old }
    ensures value { value (now_moment sight.now.spec.now sight.now.rings.now sight.now.row.now) (closed sight.now.spec.now id) ≡ one result }
    ensures steps { steps.new ≤ steps.old + heavy sight.now.spec.now id }
{
    let end = behind(sight.spec, id);
    word_of(sight, sight.spec.node(end), scratch, steps)
}

#[cycle(evaluating)]
fn word_of<L: Ledger>(
    sight: &Sight,
    node: &Node,
    scratch: &mut [u64],
    steps: &mut Steps<L>,
) -> Result<u64, Hazard>
    requires seen { IsSeen sight.now.spec.now sight.now.rings.now sight.now.row.now }
    requires layout { IsLayout sight.now.spec.now sight.now.layout.now }
    requires ready { (c : AnyScalar) × IsReadyForm sight.now.spec.now (length scratch.old) node.now (Ty.Scalar c) }
    requires no_def { IsNoDef node.now }
    ensures value { value (now_moment sight.now.spec.now sight.now.rings.now sight.now.row.now)
        (build sight.now.spec.now.libs (closed_def sight.now.spec.now) (closed sight.now.spec.now) node.now) ≡ one result }
    ensures steps { steps.new ≤ steps.old + loaded (build sight.now.spec.now.libs (closed_def sight.now.spec.now) (closed sight.now.spec.now) node.now) }
{
    match node {
        Node::Lit(_, w) => {
            steps.tick();
            Ok(*w)
        }
        Node::Extern(x) => {
            steps.tick();
            Ok(extern_part(sight, *x, 1)[0])
        }
        Node::Stream(x) => {
            steps.tick();
            Ok(entry_word(sight, *x, 0))
        }
        Node::Drop { stream, k } => {
            steps.tick();
            Ok(entry_word(sight, *stream, *k))
        }
        Node::Un(op, s, a) => {
            let x = word(sight, *a, scratch, steps)?;
            Ok(op1(*op, *s, x, steps))
        }
        Node::Bin(op, s, a, b) => {
            let left = word(sight, *a, scratch, steps)?;
            let right = word(sight, *b, scratch, steps)?;
            op2(*op, *s, left, right, steps)
        }
        Node::Shift {
            dir,
            ty,
            a,
            cty,
            count,
        } => {
            let base = word(sight, *a, scratch, steps)?;
            let by = word(sight, *count, scratch, steps)?;
            shift(*dir, *ty, base, *cty, by, steps)
        }
        Node::Cast { from, to, a } => {
            let source = word(sight, *a, scratch, steps)?;
            cast(*from, *to, source, steps)
        }
        Node::And(a, b) => chosen(sight, *a, Branch::Node(*b), Branch::Word(0), scratch, steps),
        Node::Or(a, b) => chosen(sight, *a, Branch::Word(1), Branch::Node(*b), scratch, steps),
        Node::Implies(a, b) => {
            chosen(sight, *a, Branch::Node(*b), Branch::Word(1), scratch, steps)
        }
        Node::If(c, a, b) => {
            chosen(
                sight,
                *c,
                Branch::Node(*a),
                Branch::Node(*b),
                scratch,
                steps,
            )
        }
        Node::Index(of, a, i) => {
            let mut out = [0; 1];
            element_into(sight, *of, *a, *i, &mut out, scratch, steps)?;
            Ok(out[0])
        }
        Node::Field { of, member, a } => {
            let mut out = [0; 1];
            member_into(sight, *of, *member, *a, &mut out, scratch, steps)?;
            Ok(out[0])
        }
        _ => unreachable!(),
    }
}

// The one or the other, by a test.
#[cycle(evaluating)]
fn chosen<L: Ledger>(
    sight: &Sight,
    test: NodeId,
    yes: Branch,
    no: Branch,
    scratch: &mut [u64],
    steps: &mut Steps<L>,
) -> Result<u64, Hazard>
    requires seen { IsSeen sight.now.spec.now sight.now.rings.now sight.now.row.now }
    requires layout { IsLayout sight.now.spec.now sight.now.layout.now }
    requires test { IsReady sight.now.spec.now (length scratch.old) test bool }
    requires yes { (c : AnyScalar) × IsReadyBranch sight.now.spec.now (length scratch.old) yes (Ty.Scalar c) }
    requires no { (c : AnyScalar) × IsReadyBranch sight.now.spec.now (length scratch.old) no (Ty.Scalar c) }
    ensures value { on_test (value (now_moment sight.now.spec.now sight.now.rings.now sight.now.row.now) (closed sight.now.spec.now test))
        (branch_value (now_moment sight.now.spec.now sight.now.rings.now sight.now.row.now) sight.now.spec.now yes)
        (branch_value (now_moment sight.now.spec.now sight.now.rings.now sight.now.row.now) sight.now.spec.now no) ≡ one result }
    ensures steps { steps.new ≤ steps.old + (1 + heavy sight.now.spec.now test + branch_weight sight.now.spec.now yes + branch_weight sight.now.spec.now no) }
{
    steps.tick();
    let by = word(sight, test, scratch, steps)?;
    if by == 0 {
        taken(sight, no, scratch, steps)
    } else {
        taken(sight, yes, scratch, steps)
    }
}

#[cycle(evaluating)]
fn taken<L: Ledger>(
    sight: &Sight,
    of: Branch,
    scratch: &mut [u64],
    steps: &mut Steps<L>,
) -> Result<u64, Hazard>
    requires seen { IsSeen sight.now.spec.now sight.now.rings.now sight.now.row.now }
    requires layout { IsLayout sight.now.spec.now sight.now.layout.now }
    requires ready { (c : AnyScalar) × IsReadyBranch sight.now.spec.now (length scratch.old) of (Ty.Scalar c) }
    ensures value { branch_value (now_moment sight.now.spec.now sight.now.rings.now sight.now.row.now) sight.now.spec.now of ≡ one result }
    ensures steps { steps.new ≤ steps.old + branch_weight sight.now.spec.now of }
{
    match of {
        Branch::Node(id) => word(sight, id, scratch, steps),
        Branch::Word(w) => Ok(w),
    }
}

/// Writes the words of a node.
#[cycle(evaluating)]
pub(crate) fn fill<L: Ledger>(
    sight: &Sight,
    id: NodeId,
    out: &mut [u64],
    scratch: &mut [u64],
    steps: &mut Steps<L>,
) -> Result<(), Hazard>
    requires seen { IsSeen sight.now.spec.now sight.now.rings.now sight.now.row.now }
    requires layout { IsLayout sight.now.spec.now sight.now.layout.now }
    requires typed { (u : AnyType) × HasType (signature_of (trees sight.now.spec.now)) (tree sight.now.spec.now.nodes sight.now.spec.now.libs id) u
        × (words sight.now.spec.now.types u ≡ length out.old) }
    requires there { id < length sight.now.spec.now.nodes }
    requires plain { IsPlain (closed sight.now.spec.now id) }
    requires room { room sight.now.spec.now.types (closed sight.now.spec.now id) ≤ length scratch.old }
    ensures ok { OnOk result (value (now_moment sight.now.spec.now sight.now.rings.now sight.now.row.now) (closed sight.now.spec.now id) ≡ Ok out.new) }
    ensures err { IfErr result (λ z. value (now_moment sight.now.spec.now sight.now.rings.now sight.now.row.now) (closed sight.now.spec.now id) ≡ Err z) }
    ensures steps { steps.new ≤ steps.old + heavy sight.now.spec.now id }
{
    let end = behind(sight.spec, id);
    fill_of(sight, sight.spec.node(end), out, scratch, steps)
}

#[cycle(evaluating)]
fn fill_of<L: Ledger>(
    sight: &Sight,
    node: &Node,
    out: &mut [u64],
    scratch: &mut [u64],
    steps: &mut Steps<L>,
) -> Result<(), Hazard>
    requires seen { IsSeen sight.now.spec.now sight.now.rings.now sight.now.row.now }
    requires layout { IsLayout sight.now.spec.now sight.now.layout.now }
    requires ready { (u : AnyType) × IsReadyForm sight.now.spec.now (length scratch.old) node.now u × (words sight.now.spec.now.types u ≡ length out.old) }
    requires no_def { IsNoDef node.now }
    ensures ok { OnOk result (value (now_moment sight.now.spec.now sight.now.rings.now sight.now.row.now)
        (build sight.now.spec.now.libs (closed_def sight.now.spec.now) (closed sight.now.spec.now) node.now) ≡ Ok out.new) }
    ensures err { IfErr result (λ z. value (now_moment sight.now.spec.now sight.now.rings.now sight.now.row.now)
        (build sight.now.spec.now.libs (closed_def sight.now.spec.now) (closed sight.now.spec.now) node.now) ≡ Err z) }
    ensures steps { steps.new ≤ steps.old + loaded (build sight.now.spec.now.libs (closed_def sight.now.spec.now) (closed sight.now.spec.now) node.now) }
{
    match node {
        Node::Extern(x) => {
            steps.tick();
            out.copy_from_slice(extern_part(sight, *x, out.len()));
            Ok(())
        }
        Node::Stream(x) => {
            steps.tick();
            copy_entry(sight, *x, 0, out);
            Ok(())
        }
        Node::Drop { stream, k } => {
            steps.tick();
            copy_entry(sight, *stream, *k, out);
            Ok(())
        }
        Node::If(c, a, b) => chosen_into(sight, *c, *a, *b, out, scratch, steps),
        Node::Index(of, a, i) => element_into(sight, *of, *a, *i, out, scratch, steps),
        Node::Field { of, member, a } => member_into(sight, *of, *member, *a, out, scratch, steps),
        Node::Array(of, es) | Node::Record(of, es) => {
            steps.tick();
            fill_parts(sight, *of, 0, es.as_slice(), out, scratch, steps)
        }
        _ => {
            out[0] = word_of(sight, node, scratch, steps)?;
            Ok(())
        }
    }
}

// The one or the other node, by a test.
#[cycle(evaluating)]
fn chosen_into<L: Ledger>(
    sight: &Sight,
    test: NodeId,
    yes: NodeId,
    no: NodeId,
    out: &mut [u64],
    scratch: &mut [u64],
    steps: &mut Steps<L>,
) -> Result<(), Hazard>
    requires seen { IsSeen sight.now.spec.now sight.now.rings.now sight.now.row.now }
    requires layout { IsLayout sight.now.spec.now sight.now.layout.now }
    requires test { IsReady sight.now.spec.now (length scratch.old) test bool }
    requires yes { (u : AnyType) × IsReady sight.now.spec.now (length scratch.old) yes u × (words sight.now.spec.now.types u ≡ length out.old) }
    requires no { (u : AnyType) × IsReady sight.now.spec.now (length scratch.old) no u × (words sight.now.spec.now.types u ≡ length out.old) }
    ensures ok { OnOk result (on_test (value (now_moment sight.now.spec.now sight.now.rings.now sight.now.row.now) (closed sight.now.spec.now test))
        (value (now_moment sight.now.spec.now sight.now.rings.now sight.now.row.now) (closed sight.now.spec.now yes))
        (value (now_moment sight.now.spec.now sight.now.rings.now sight.now.row.now) (closed sight.now.spec.now no)) ≡ Ok out.new) }
    ensures err { IfErr result (λ z. on_test (value (now_moment sight.now.spec.now sight.now.rings.now sight.now.row.now) (closed sight.now.spec.now test))
        (value (now_moment sight.now.spec.now sight.now.rings.now sight.now.row.now) (closed sight.now.spec.now yes))
        (value (now_moment sight.now.spec.now sight.now.rings.now sight.now.row.now) (closed sight.now.spec.now no)) ≡ Err z) }
    ensures steps { steps.new ≤ steps.old + (1 + heavy sight.now.spec.now test + heavy sight.now.spec.now yes + heavy sight.now.spec.now no) }
{
    steps.tick();
    let by = word(sight, test, scratch, steps)?;
    if by == 0 {
        fill(sight, no, out, scratch, steps)
    } else {
        fill(sight, yes, out, scratch, steps)
    }
}

// An element of an array, whose words stand at the front of the scratch.
#[cycle(evaluating)]
fn element_into<L: Ledger>(
    sight: &Sight,
    of: Ty,
    a: NodeId,
    i: NodeId,
    out: &mut [u64],
    scratch: &mut [u64],
    steps: &mut Steps<L>,
) -> Result<(), Hazard>
    requires seen { IsSeen sight.now.spec.now sight.now.rings.now sight.now.row.now }
    requires layout { IsLayout sight.now.spec.now sight.now.layout.now }
    requires ready { IsReadyElement sight.now.spec.now (length scratch.old) (length out.old) of a i }
    ensures ok { OnOk result (value (now_moment sight.now.spec.now sight.now.rings.now sight.now.row.now)
        (index of (closed sight.now.spec.now a) (closed sight.now.spec.now i)) ≡ Ok out.new) }
    ensures err { IfErr result (λ z. value (now_moment sight.now.spec.now sight.now.rings.now sight.now.row.now)
        (index of (closed sight.now.spec.now a) (closed sight.now.spec.now i)) ≡ Err z) }
    ensures steps { steps.new ≤ steps.old + (1 + heavy sight.now.spec.now a + heavy sight.now.spec.now i) }
{
    steps.tick();
    let types = sight.spec.types();
    let wide = types.words(of) as usize;
    let (array, rest) = scratch.split_at_mut(wide);
    fill(sight, a, array, rest, steps)?;
    let at = word(sight, i, rest, steps)?;
    copy_element(types, of, array, at, out)
}

// A member of a struct, whose words stand at the front of the scratch.
#[cycle(evaluating)]
fn member_into<L: Ledger>(
    sight: &Sight,
    of: Ty,
    member: u32,
    a: NodeId,
    out: &mut [u64],
    scratch: &mut [u64],
    steps: &mut Steps<L>,
) -> Result<(), Hazard>
    requires seen { IsSeen sight.now.spec.now sight.now.rings.now sight.now.row.now }
    requires layout { IsLayout sight.now.spec.now sight.now.layout.now }
    requires ready { IsReadyMember sight.now.spec.now (length scratch.old) (length out.old) of member a }
    ensures ok { OnOk result (value (now_moment sight.now.spec.now sight.now.rings.now sight.now.row.now)
        (field of member (closed sight.now.spec.now a)) ≡ Ok out.new) }
    ensures err { IfErr result (λ z. value (now_moment sight.now.spec.now sight.now.rings.now sight.now.row.now)
        (field of member (closed sight.now.spec.now a)) ≡ Err z) }
    ensures steps { steps.new ≤ steps.old + (1 + heavy sight.now.spec.now a) }
{
    steps.tick();
    let types = sight.spec.types();
    let wide = types.words(of) as usize;
    let (whole, rest) = scratch.split_at_mut(wide);
    fill(sight, a, whole, rest, steps)?;
    let first = words_before(types, of, member);
    out.copy_from_slice(run_of(whole, first, out.len()));
    Ok(())
}

// The elements of an array or the members of a struct, from one of them on.
#[cycle(evaluating)]
fn fill_parts<L: Ledger>(
    sight: &Sight,
    of: Ty,
    at: usize,
    ids: &[NodeId],
    out: &mut [u64],
    scratch: &mut [u64],
    steps: &mut Steps<L>,
) -> Result<(), Hazard>
    requires seen { IsSeen sight.now.spec.now sight.now.rings.now sight.now.row.now }
    requires layout { IsLayout sight.now.spec.now sight.now.layout.now }
    requires ready { AreReady sight.now.spec.now (length scratch.old) ids.now (drop at (part_types sight.now.spec.now.types of)) }
    requires wide { types_words sight.now.spec.now.types (drop at (part_types sight.now.spec.now.types of)) ≡ length out.old }
    requires stands { Stands sight.now.spec.now.types of }
    requires few { at + length ids.now ≤ 1024 }
    ensures ok { OnOk result (all_values (now_moment sight.now.spec.now sight.now.rings.now sight.now.row.now)
        (terms_of (closed sight.now.spec.now) ids.now) ≡ Ok out.new) }
    ensures err { IfErr result (λ z. all_values (now_moment sight.now.spec.now sight.now.rings.now sight.now.row.now)
        (terms_of (closed sight.now.spec.now) ids.now) ≡ Err z) }
    ensures steps { steps.new ≤ steps.old + nodes_weight sight.now.spec.now ids.now }
{
    match ids {
        [] => Ok(()),
        [first, ..] => {
            let wide = part_words(sight.spec.types(), of, at);
            let (part, others) = out.split_at_mut(wide);
            fill(sight, *first, part, scratch, steps)?;
            fill_parts(sight, of, at + 1, &ids[1..], others, scratch, steps)
        }
    }
}

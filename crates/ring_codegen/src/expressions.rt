// The translation of expressions, node by node. A recursion is no deeper than what a root weighs, since chains of names
// are gone through by a loop.
ghost use Rattle.std.specs.Prelude.{◌≡◌, ◌<◌, length, map, IfOk};
ghost use Rattle.std.specs.List.{AllByRecursion};
ghost use Rattle.stream_types.specs.TypeList.{Stands};
ghost use Rattle.stream_core.specs.Parts.{parts};
ghost use Rattle.stream_lib.specs.PlainSpecs.{IsSoundPlain};
ghost use Rattle.c99_tree.specs.declared.expr.CUn.TheVariants as u;
ghost use Rattle.c99_tree.specs.declared.expr.CBin.TheVariants as o;
ghost use Rattle.ring_codegen.specs.CTypes.{c_type};
ghost use Rattle.ring_codegen.specs.Items.{HasMemberAt, NamesWhatIsThere, expression_of, form_of};
ghost use Rattle.ring_codegen.specs.Translation.{binary, entry_of, member_name, picked, shifted};

use crate::c_types::{c_scalar, c_type, member_name};
use crate::forms::{absent, array_value, bin, cast, choice, field, picked, struct_value, un};
use crate::names::behind;
use crate::operators::{binary, literal, shifted, unary};
use crate::rings::stream_value;
use c99_tree::{CBin, CExpr, CUn};
use sqlite_items::Items;
use std::alloc::{AllocError, Global};
use stream_core::{Node, NodeId, Spec};
use stream_types::{Dir, Op2, Scalar, Ty};

/// The translation of a node.
#[cycle(translating)]
pub(crate) fn expression(alloc: Global, spec: &Spec, id: NodeId) -> Result<CExpr, AllocError>
    requires sound { IsSoundPlain spec.now }
    requires there { id < length spec.now.nodes }
    ensures { IfOk result (λ e. e ≡ expression_of spec.now id) }
{
    let end = behind(spec, id);
    form(alloc, spec, spec.node(end))
}

#[cycle(translating)]
fn form(alloc: Global, spec: &Spec, node: &Node) -> Result<CExpr, AllocError>
    requires sound { IsSoundPlain spec.now }
    requires parts { AllByRecursion (λ j. j < length spec.now.nodes) (parts node.now) }
    requires named { NamesWhatIsThere spec.now node.now }
    ensures { IfOk result (λ e. e ≡ form_of spec.now node.now) }
{
    match node {
        Node::Lit(t, w) => literal(alloc, *t, *w),
        Node::Extern(x) => Ok(CExpr::Copy(spec.externs()[*x as usize].name.copy(alloc)?)),
        Node::Stream(x) => stream_value(alloc, spec, &spec.streams()[*x as usize], 0),
        Node::Drop { stream, k } => {
            stream_value(alloc, spec, &spec.streams()[*stream as usize], *k)
        }
        Node::Un(op, t, a) => unary(alloc, *op, *t, expression(alloc, spec, *a)?),
        Node::Cast { to, a, .. } => cast(alloc, c_scalar(*to), expression(alloc, spec, *a)?),
        Node::Bin(op, t, a, b) => operation(alloc, spec, *op, *t, *a, *b),
        Node::Shift {
            dir,
            ty,
            a,
            count,
            ..
        } => moved(alloc, spec, *dir, *ty, *a, *count),
        Node::And(a, b) => joined(alloc, spec, CBin::And, *a, *b),
        Node::Or(a, b) => joined(alloc, spec, CBin::Or, *a, *b),
        Node::Implies(a, b) => implied(alloc, spec, *a, *b),
        Node::If(p, a, b) => chosen(alloc, spec, *p, *a, *b),
        Node::Index(of, a, i) => element(alloc, spec, *of, *a, *i),
        Node::Field { of, member, a } => part(alloc, spec, *of, *member, *a),
        Node::Array(of, es) => {
            let all = expressions(alloc, spec, es.as_slice())?;
            Ok(array_value(c_type(alloc, spec.types(), *of)?, all))
        }
        Node::Record(of, es) => {
            let all = expressions(alloc, spec, es.as_slice())?;
            Ok(struct_value(c_type(alloc, spec.types(), *of)?, all))
        }
        Node::Def(_)
        | Node::Abs(_, _)
        | Node::Sign(_, _)
        | Node::Majority(_, _)
        | Node::Agreed(_, _)
        | Node::Lib(_) => Ok(absent()),
    }
}

#[cycle(translating)]
fn operation(
    alloc: Global,
    spec: &Spec,
    op: Op2,
    t: Scalar,
    a: NodeId,
    b: NodeId,
) -> Result<CExpr, AllocError>
    requires sound { IsSoundPlain spec.now }
    requires a { a < length spec.now.nodes }
    requires b { b < length spec.now.nodes }
    ensures { IfOk result (λ e. e ≡ binary op t (expression_of spec.now a) (expression_of spec.now b)) }
{
    let left = expression(alloc, spec, a)?;
    let right = expression(alloc, spec, b)?;
    binary(alloc, op, t, left, right)
}

#[cycle(translating)]
fn moved(
    alloc: Global,
    spec: &Spec,
    d: Dir,
    t: Scalar,
    a: NodeId,
    count: NodeId,
) -> Result<CExpr, AllocError>
    requires sound { IsSoundPlain spec.now }
    requires a { a < length spec.now.nodes }
    requires count { count < length spec.now.nodes }
    ensures { IfOk result (λ e. e ≡ shifted d t (expression_of spec.now a) (expression_of spec.now count)) }
{
    let base = expression(alloc, spec, a)?;
    let by = expression(alloc, spec, count)?;
    shifted(alloc, d, t, base, by)
}

#[cycle(translating)]
fn joined(alloc: Global, spec: &Spec, op: CBin, a: NodeId, b: NodeId) -> Result<CExpr, AllocError>
    requires sound { IsSoundPlain spec.now }
    requires a { a < length spec.now.nodes }
    requires b { b < length spec.now.nodes }
    ensures { IfOk result (λ e. e ≡ CExpr.Bin op (expression_of spec.now a) (expression_of spec.now b)) }
{
    let left = expression(alloc, spec, a)?;
    let right = expression(alloc, spec, b)?;
    bin(alloc, op, left, right)
}

// `((!A) || B)`
#[cycle(translating)]
fn implied(alloc: Global, spec: &Spec, a: NodeId, b: NodeId) -> Result<CExpr, AllocError>
    requires sound { IsSoundPlain spec.now }
    requires a { a < length spec.now.nodes }
    requires b { b < length spec.now.nodes }
    ensures { IfOk result (λ e. e ≡ CExpr.Bin o.Or (CExpr.Un u.Not (expression_of spec.now a)) (expression_of spec.now b)) }
{
    let left = expression(alloc, spec, a)?;
    let right = expression(alloc, spec, b)?;
    let no = un(alloc, CUn::Not, left)?;
    bin(alloc, CBin::Or, no, right)
}

#[cycle(translating)]
fn chosen(alloc: Global, spec: &Spec, p: NodeId, a: NodeId, b: NodeId) -> Result<CExpr, AllocError>
    requires sound { IsSoundPlain spec.now }
    requires p { p < length spec.now.nodes }
    requires a { a < length spec.now.nodes }
    requires b { b < length spec.now.nodes }
    ensures { IfOk result (λ e. e ≡ CExpr.Cond (expression_of spec.now p) (expression_of spec.now a) (expression_of spec.now b)) }
{
    let test = expression(alloc, spec, p)?;
    let left = expression(alloc, spec, a)?;
    let right = expression(alloc, spec, b)?;
    choice(alloc, test, left, right)
}

#[cycle(translating)]
fn element(alloc: Global, spec: &Spec, of: Ty, a: NodeId, i: NodeId) -> Result<CExpr, AllocError>
    requires sound { IsSoundPlain spec.now }
    requires of { Stands spec.now.types of }
    requires a { a < length spec.now.nodes }
    requires i { i < length spec.now.nodes }
    ensures { IfOk result (λ e. e ≡ picked (c_type spec.now.types of) (expression_of spec.now a) (expression_of spec.now i)) }
{
    let whole = expression(alloc, spec, a)?;
    let at = expression(alloc, spec, i)?;
    let ty = c_type(alloc, spec.types(), of)?;
    picked(alloc, ty, whole, at)
}

#[cycle(translating)]
fn part(alloc: Global, spec: &Spec, of: Ty, member: u32, a: NodeId) -> Result<CExpr, AllocError>
    requires sound { IsSoundPlain spec.now }
    requires member { HasMemberAt spec.now.types of member }
    requires a { a < length spec.now.nodes }
    ensures { IfOk result (λ e. e ≡ CExpr.Field (expression_of spec.now a) (member_name (entry_of spec.now.types of) member)) }
{
    let whole = expression(alloc, spec, a)?;
    let name = member_name(spec.types(), of, member).copy(alloc)?;
    field(alloc, whole, name)
}

// The elements of an array or the members of a struct.
#[cycle(translating)]
fn expressions(alloc: Global, spec: &Spec, ids: &[NodeId]) -> Result<Items<CExpr>, AllocError>
    requires sound { IsSoundPlain spec.now }
    requires there { AllByRecursion (λ j. j < length spec.now.nodes) ids.now }
    ensures { IfOk result (λ all. all ≡ map (expression_of spec.now) ids.now) }
{
    let mut all = Items::new(alloc);
    for id in ids {
        let e = expression(alloc, spec, *id)?;
        all.push(e)?;
    }
    Ok(all)
}

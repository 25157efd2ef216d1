// Expressions, with the places of what they name and the types of their operands.
ghost use Rattle.std.specs.Prelude.{◌≡◌, map, IfOk};
ghost use Rattle.c99_tree.specs.Tree.{tree, exprs, copy, head, cell, ring_at, un, cast, field, arr, rec};
ghost use Rattle.c99_tree.specs.Kinds.{kind_type, option_type};
ghost use Rattle.c99_tree.specs.Typing.{fields_in};
ghost use Rattle.c99_tree.specs.Words.{elem_type};
ghost use Rattle.c99_tree.specs.declared.types.CVar.{CVar};
ghost use Rattle.c_exec.specs.Codes as codes;
ghost use Rattle.c_exec.specs.Codes.{op_of, conv, met, chain, nothing};
ghost use Rattle.c_exec.specs.Resolving as spec;

use crate::code::Code;
use crate::layout::{element_width, ring_place, var_place};
use c99_tree::{
    CBin, CExpr, CScalar, CTy, CUn, CVar, Kind, Unit, element_scalar, fields_of, kind_of, type_of,
};
use sm_io::Name;
use sqlite_items::Boxed;
use std::alloc::{AllocError, Global};

pub(crate) fn scalar_of(unit: &Unit, e: &CExpr) -> CScalar
    ensures { result ≡ spec.scalar_of unit.now (tree e.now) }
{
    match type_of(unit, e) {
        Some(Kind::Scalar(t)) => t,
        Some(Kind::Struct(_)) => CScalar::I32,
        Some(Kind::Array(_, _)) => CScalar::I32,
        None => CScalar::I32,
    }
}

#[tactic(auto, using(crate::specs::CodeLaws::op_laws))]
fn convert(alloc: Global, from: CScalar, to: CScalar, a: Code) -> Result<Code, AllocError>
    ensures { IfOk result (λ c. op_of c ≡ conv from to (op_of a)) }
{
    Ok(Code::Convert(from, to, Boxed::new(alloc, a)?))
}

#[tactic(auto, using(crate::specs::CodeLaws::op_laws))]
fn behind(alloc: Global, before: Code, a: Code) -> Result<Code, AllocError>
    ensures { IfOk result (λ c. op_of c ≡ chain (op_of before) (op_of a)) }
{
    let first = Boxed::new(alloc, before)?;
    Ok(Code::Then(first, Boxed::new(alloc, a)?))
}

#[tactic(auto, using(crate::specs::CodeLaws::op_laws))]
fn met(alloc: Global, a: Code) -> Result<Code, AllocError>
    ensures { IfOk result (λ c. op_of c ≡ met (op_of a)) }
{
    Ok(Code::Met(Boxed::new(alloc, a)?))
}

// A value of a scalar type as an object of a type gets it.
#[tactic(auto, using(crate::specs::CodeLaws::op_laws))]
fn as_type(alloc: Global, to: Kind<'_>, from: CScalar, a: Code) -> Result<Code, AllocError>
    ensures { IfOk result (λ c. op_of c ≡ spec.as_type (kind_type to.entry) from (op_of a)) }
{
    match to {
        Kind::Scalar(t) => convert(alloc, from, t, a),
        Kind::Struct(_) => Ok(a),
        Kind::Array(_, _) => Ok(a),
    }
}

/// An expression as an object of a type gets it.
#[cycle(resolving)]
#[tactic(auto, using(crate::specs::CodeLaws::op_laws))]
pub(crate) fn code_as(
    alloc: Global,
    unit: &Unit,
    to: Kind<'_>,
    e: &CExpr,
) -> Result<Code, AllocError>
    ensures { IfOk result (λ c. op_of c ≡ spec.as_type (kind_type to.entry) (spec.scalar_of unit.now (tree e.now)) (spec.code_of unit.now (tree e.now))) }
{
    let a = code_of(alloc, unit, e)?;
    as_type(alloc, to, scalar_of(unit, e), a)
}

#[cycle(resolving)]
#[tactic(auto, using(crate::specs::CodeLaws::op_laws))]
fn code_settled(
    alloc: Global,
    unit: &Unit,
    to: Option<Kind<'_>>,
    e: &CExpr,
) -> Result<Code, AllocError>
    ensures { IfOk result (λ c. op_of c ≡ spec.as_settled (option_type to.entry) (spec.scalar_of unit.now (tree e.now)) (spec.code_of unit.now (tree e.now))) }
{
    match to {
        Some(to) => code_as(alloc, unit, to, e),
        None => code_of(alloc, unit, e),
    }
}

#[tactic(auto, using(crate::specs::CodeLaws::op_laws))]
#[inline(never)]
fn copy_code(unit: &Unit, x: &Name) -> Result<Code, AllocError>
    ensures { IfOk result (λ c. op_of c ≡ spec.code_of unit.now (copy x.now)) }
{
    let (at, n) = var_place(unit.types.as_slice(), unit.externs.as_slice(), x)?;
    Ok(Code::Load(at, n))
}

#[tactic(auto, using(crate::specs::CodeLaws::op_laws))]
#[inline(never)]
fn head_code(unit: &Unit, r: &Name) -> Result<Code, AllocError>
    ensures { IfOk result (λ c. op_of c ≡ spec.code_of unit.now (head r.now)) }
{
    let ring = ring_place(unit, r)?;
    Ok(Code::Load(ring.index, 1))
}

#[tactic(auto, using(crate::specs::CodeLaws::op_laws))]
#[inline(never)]
fn cell_code(unit: &Unit, r: &Name) -> Result<Code, AllocError>
    ensures { IfOk result (λ c. op_of c ≡ spec.code_of unit.now (cell r.now)) }
{
    let ring = ring_place(unit, r)?;
    Ok(Code::Load(ring.at, ring.n))
}

#[cycle(resolving)]
#[tactic(auto, using(crate::specs::CodeLaws::op_laws))]
#[inline(never)]
fn ring_at_code(alloc: Global, unit: &Unit, r: &Name, a: &CExpr) -> Result<Code, AllocError>
    ensures { IfOk result (λ c. op_of c ≡ spec.code_of unit.now (ring_at r.now (tree a.now))) }
{
    let ring = ring_place(unit, r)?;
    let t = scalar_of(unit, a);
    let a = Boxed::new(alloc, code_of(alloc, unit, a)?)?;
    Ok(Code::Element(ring.at, ring.n, ring.len, t, a))
}

#[cycle(resolving)]
#[tactic(auto, using(crate::specs::CodeLaws::op_laws))]
#[inline(never)]
fn unary_code(alloc: Global, unit: &Unit, op: CUn, a: &CExpr) -> Result<Code, AllocError>
    ensures { IfOk result (λ c. op_of c ≡ spec.code_of unit.now (un op (tree a.now))) }
{
    let t = scalar_of(unit, a);
    let a = Boxed::new(alloc, code_of(alloc, unit, a)?)?;
    Ok(Code::Un(op, t, a))
}

#[tactic(auto, using(crate::specs::CodeLaws::op_laws))]
#[inline(never)]
fn joined(
    alloc: Global,
    op: CBin,
    s: CScalar,
    t: CScalar,
    a: Code,
    b: Code,
) -> Result<Code, AllocError>
    ensures { IfOk result (λ c. op_of c ≡ codes.bin op s t (op_of a) (op_of b)) }
{
    let a = Boxed::new(alloc, a)?;
    let b = Boxed::new(alloc, b)?;
    Ok(Code::Bin(op, s, t, a, b))
}

#[tactic(auto, using(crate::specs::CodeLaws::op_laws))]
#[inline(never)]
fn chosen(alloc: Global, c: Code, a: Code, b: Code) -> Result<Code, AllocError>
    ensures { IfOk result (λ e. op_of e ≡ codes.choose (op_of c) (op_of a) (op_of b)) }
{
    let c = Boxed::new(alloc, c)?;
    let a = Boxed::new(alloc, a)?;
    let b = Boxed::new(alloc, b)?;
    Ok(Code::Choose(c, a, b))
}

// The members of a struct.
fn fields_in<'a>(unit: &'a Unit, a: Option<Kind<'_>>) -> &'a [CVar]
    ensures { result.now ≡ fields_in unit.now.types (option_type a.entry) }
{
    match a {
        Some(Kind::Struct(x)) => match fields_of(unit.types.as_slice(), x) {
            Some(fields) => fields,
            None => &[],
        },
        Some(Kind::Scalar(_)) => &[],
        Some(Kind::Array(_, _)) => &[],
        None => &[],
    }
}

#[cycle(resolving)]
#[tactic(auto, using(crate::specs::CodeLaws::op_laws))]
#[inline(never)]
fn member_code(alloc: Global, unit: &Unit, a: &CExpr, x: &Name) -> Result<Code, AllocError>
    ensures { IfOk result (λ c. op_of c ≡ spec.code_of unit.now (field (tree a.now) x.now)) }
{
    let fields = fields_in(unit, type_of(unit, a));
    let (off, n) = var_place(unit.types.as_slice(), fields, x)?;
    let a = Boxed::new(alloc, code_of(alloc, unit, a)?)?;
    Ok(Code::Part(off, n, a))
}

#[tactic(auto, using(crate::specs::CodeLaws::op_laws))]
#[inline(never)]
fn picked(alloc: Global, width: u32, n: u32, a: Code, i: Code) -> Result<Code, AllocError>
    ensures { IfOk result (λ c. op_of c ≡ codes.pick width n (op_of a) (op_of i)) }
{
    let a = Boxed::new(alloc, a)?;
    let i = Boxed::new(alloc, i)?;
    Ok(Code::Pick(width, n, a, i))
}

// The type of an array's elements.
fn element_kind(x: &Name) -> Kind<'_>
    ensures { kind_type result ≡ elem_type x.now }
{
    match element_scalar(x) {
        Some(t) => Kind::Scalar(t),
        None => Kind::Struct(x),
    }
}

#[cycle(resolving)]
#[tactic(auto, using(crate::specs::CodeLaws::op_laws))]
#[inline(never)]
fn elements_code(
    alloc: Global,
    unit: &Unit,
    to: Kind<'_>,
    all: &[CExpr],
) -> Result<Code, AllocError>
    ensures { IfOk result (λ c. op_of c ≡ spec.code_of_elements unit.now (kind_type to.entry) nothing (exprs (map tree all.now))) }
{
    let mut code = Code::Nothing;
    for e in all {
        let value = code_as(alloc, unit, to, e)?;
        code = behind(alloc, code, value)?;
    }
    Ok(code)
}

#[cycle(resolving)]
#[tactic(auto, using(crate::specs::CodeLaws::op_laws))]
#[inline(never)]
fn members_code(
    alloc: Global,
    unit: &Unit,
    fields: &[CVar],
    all: &[CExpr],
) -> Result<Code, AllocError>
    ensures { IfOk result (λ c. op_of c ≡ spec.code_of_values unit.now (map (λ (v : CVar). v.ty) fields.now) nothing (exprs (map tree all.now))) }
{
    let mut code = Code::Nothing;
    let mut left = fields;
    for e in all {
        let [v, rest @ ..] = left else {
            return Ok(code);
        };
        let value = code_as(alloc, unit, kind_of(&v.ty), e)?;
        code = behind(alloc, code, value)?;
        left = rest;
    }
    Ok(code)
}

/// The arguments of a call, each as its parameter gets it.
#[tactic(auto, using(crate::specs::CodeLaws::op_laws))]
pub(crate) fn arguments_code(
    alloc: Global,
    unit: &Unit,
    params: &[CTy],
    all: &[CExpr],
) -> Result<Code, AllocError>
    ensures { IfOk result (λ c. op_of c ≡ spec.code_of_values unit.now params.now nothing (exprs (map tree all.now))) }
{
    let mut code = Code::Nothing;
    let mut left = params;
    for e in all {
        let [ty, rest @ ..] = left else {
            return Ok(code);
        };
        let value = code_as(alloc, unit, kind_of(ty), e)?;
        code = behind(alloc, code, value)?;
        left = rest;
    }
    Ok(code)
}

#[cycle(resolving)]
#[tactic(auto, using(crate::specs::CodeLaws::op_laws))]
#[inline(never)]
fn array_code(
    alloc: Global,
    unit: &Unit,
    x: &Name,
    n: u32,
    all: &[CExpr],
) -> Result<Code, AllocError>
    ensures { IfOk result (λ c. op_of c ≡ spec.code_of unit.now (arr x.now n (exprs (map tree all.now)))) }
{
    met(alloc, elements_code(alloc, unit, element_kind(x), all)?)
}

#[cycle(resolving)]
#[tactic(auto, using(crate::specs::CodeLaws::op_laws))]
#[inline(never)]
fn struct_code(alloc: Global, unit: &Unit, x: &Name, all: &[CExpr]) -> Result<Code, AllocError>
    ensures { IfOk result (λ c. op_of c ≡ spec.code_of unit.now (rec x.now (exprs (map tree all.now)))) }
{
    let fields = fields_in(unit, Some(Kind::Struct(x)));
    met(alloc, members_code(alloc, unit, fields, all)?)
}

#[cycle(resolving)]
#[tactic(auto, using(crate::specs::CodeLaws::op_laws))]
#[inline(never)]
fn cast_code(alloc: Global, unit: &Unit, to: CScalar, a: &CExpr) -> Result<Code, AllocError>
    ensures { IfOk result (λ c. op_of c ≡ spec.code_of unit.now (cast to (tree a.now))) }
{
    met(alloc, code_as(alloc, unit, Kind::Scalar(to), a)?)
}

/// The resolved form of an expression.
#[cycle(resolving)]
#[tactic(auto, using(crate::specs::CodeLaws::op_laws, c99_tree::specs::TreeLaws::tree_laws))]
pub(crate) fn code_of(alloc: Global, unit: &Unit, e: &CExpr) -> Result<Code, AllocError>
    ensures { IfOk result (λ c. op_of c ≡ spec.code_of unit.now (tree e.now)) }
{
    match e {
        CExpr::Lit(_, n) => Ok(Code::Word(*n)),
        CExpr::True => Ok(Code::Word(1)),
        CExpr::False => Ok(Code::Word(0)),
        CExpr::Copy(x) => copy_code(unit, x),
        CExpr::Head(r) => head_code(unit, r),
        CExpr::Cell(r) => cell_code(unit, r),
        CExpr::RingAt(r, a) => ring_at_code(alloc, unit, r, a.get()),
        CExpr::Un(op, a) => unary_code(alloc, unit, *op, a.get()),
        CExpr::Bin(op, a, b) => {
            let s = scalar_of(unit, a.get());
            let t = scalar_of(unit, b.get());
            let left = code_of(alloc, unit, a.get())?;
            let right = code_of(alloc, unit, b.get())?;
            joined(alloc, *op, s, t, left, right)
        }
        CExpr::Cond(c, a, b) => {
            let to = type_of(unit, e);
            let test = code_of(alloc, unit, c.get())?;
            let left = code_settled(alloc, unit, to, a.get())?;
            let right = code_settled(alloc, unit, to, b.get())?;
            chosen(alloc, test, left, right)
        }
        CExpr::Cast(to, a) => cast_code(alloc, unit, *to, a.get()),
        CExpr::Field(a, x) => member_code(alloc, unit, a.get(), x),
        CExpr::Pick(x, n, a, i) => {
            let width = element_width(unit.types.as_slice(), x)?;
            let array = code_of(alloc, unit, a.get())?;
            let place = code_as(alloc, unit, Kind::Scalar(CScalar::U32), i.get())?;
            picked(alloc, width, *n, array, place)
        }
        CExpr::Arr(x, n, all) => array_code(alloc, unit, x, *n, all.as_slice()),
        CExpr::Rec(x, all) => struct_code(alloc, unit, x, all.as_slice()),
    }
}

/// The same of one that becomes the value of an object of a type, where there is a type.
pub(crate) fn code_for(
    alloc: Global,
    unit: &Unit,
    to: Option<Kind<'_>>,
    e: &CExpr,
) -> Result<Code, AllocError>
    ensures { IfOk result (λ c. op_of c ≡ spec.as_settled (option_type to.entry) (spec.scalar_of unit.now (tree e.now)) (spec.code_of unit.now (tree e.now))) }
{
    code_settled(alloc, unit, to, e)
}

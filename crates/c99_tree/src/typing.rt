// The type of an expression.
ghost use Rattle.std.specs.Prelude.{◌≡◌, map, length, nat_eq};
ghost use Rattle.std.specs.List.{list_all};
ghost use Rattle.std.specs.Option.{option_map, option_and_then};
ghost use Rattle.c99_tree.specs.CTypes as types;
ghost use Rattle.c99_tree.specs.Words as words;
ghost use Rattle.c99_tree.specs.Tree.{tree, exprs, arr, rec};
ghost use Rattle.c99_tree.specs.Lookup as lookup;
ghost use Rattle.c99_tree.specs.declared.types.CTy.TheVariants as ty;
ghost use Rattle.c99_tree.specs.Typing as spec;
ghost use Rattle.c99_tree.specs.Kinds.{kind_type, option_type, scalar_kind};

use crate::expr::{CBin, CExpr, CLit, CUn};
use crate::lookup::{fields_of, is_same, ring_of, var_of};
use crate::types::{CScalar, CTy, CVar};
use crate::unit::Unit;
use crate::words::element_scalar;
use sm_io::Name;

/// The type of an expression, by names that stand in the unit.
#[derive(Clone, Copy)]
pub enum Kind<'a> {
    Scalar(CScalar),
    Struct(&'a Name),
    Array(&'a Name, u32),
}

fn promoted(t: CScalar) -> CScalar
    ensures { result ≡ types.promoted t }
{
    match t {
        CScalar::I64 | CScalar::U32 | CScalar::U64 => t,
        _ => CScalar::I32,
    }
}

fn bits(t: CScalar) -> u32
    ensures { result ≡ types.bits t }
{
    match t {
        CScalar::Bool => 1,
        CScalar::I8 | CScalar::U8 => 8,
        CScalar::I16 | CScalar::U16 => 16,
        CScalar::I32 | CScalar::U32 => 32,
        CScalar::I64 | CScalar::U64 => 64,
    }
}

fn is_signed(t: CScalar) -> bool
    ensures { result ≡ types.is_signed t }
{
    match t {
        CScalar::I8 | CScalar::I16 | CScalar::I32 | CScalar::I64 => true,
        _ => false,
    }
}

fn common(a: CScalar, b: CScalar) -> CScalar
    ensures { result ≡ types.common a b }
{
    if bits(a) < bits(b) {
        return b;
    }
    if bits(b) < bits(a) {
        return a;
    }
    if is_signed(a) { b } else { a }
}

fn usual(a: CScalar, b: CScalar) -> CScalar
    ensures { result ≡ types.usual a b }
{
    common(promoted(a), promoted(b))
}

fn literal_type(k: CLit) -> CScalar
    ensures { result ≡ spec.literal_type k }
{
    match k {
        CLit::I => CScalar::I32,
        CLit::U => CScalar::U32,
        CLit::LL => CScalar::I64,
        CLit::ULL => CScalar::U64,
    }
}

fn unary_type(op: CUn, t: CScalar) -> CScalar
    ensures { result ≡ spec.unary_type op t }
{
    match op {
        CUn::Not => CScalar::I32,
        CUn::BitNot => promoted(t),
        CUn::Neg => promoted(t),
    }
}

fn binary_type(op: CBin, a: CScalar, b: CScalar) -> CScalar
    ensures { result ≡ spec.binary_type op a b }
{
    match op {
        CBin::Add
        | CBin::Sub
        | CBin::Mul
        | CBin::Div
        | CBin::Rem
        | CBin::BitAnd
        | CBin::BitOr
        | CBin::BitXor => usual(a, b),
        CBin::Shl | CBin::Shr => promoted(a),
        CBin::Eq | CBin::Ne | CBin::Lt | CBin::Le | CBin::Gt | CBin::Ge | CBin::And | CBin::Or =>
            CScalar::I32,
    }
}

/// A type that stands in the unit, lent.
pub fn kind_of(ty: &CTy) -> Kind<'_>
    ensures { kind_type result ≡ ty.now }
{
    match ty {
        CTy::Scalar(t) => Kind::Scalar(*t),
        CTy::Struct(x) => Kind::Struct(x),
        CTy::Array(x, n) => Kind::Array(x, *n),
    }
}

// The type of an array's elements.
fn element_kind(x: &Name) -> Kind<'_>
    ensures { kind_type result ≡ words.elem_type x.now }
{
    match element_scalar(x) {
        Some(t) => Kind::Scalar(t),
        None => Kind::Struct(x),
    }
}

fn is_same_kind(a: Kind<'_>, b: Kind<'_>) -> bool
    ensures { result ≡ spec.is_same_type (kind_type a.entry) (kind_type b.entry) }
{
    match (a, b) {
        (Kind::Scalar(s), Kind::Scalar(t)) => s == t,
        (Kind::Struct(x), Kind::Struct(y)) => is_same(x, y),
        (Kind::Array(x, n), Kind::Array(y, m)) => is_same(x, y) && n == m,
        _ => false,
    }
}

// Whether a value of the first type may be assigned to an object of the second.
fn fits(a: Kind<'_>, b: Kind<'_>) -> bool
    ensures { result ≡ spec.fits (kind_type a.entry) (kind_type b.entry) }
{
    match (a, b) {
        (Kind::Scalar(_), Kind::Scalar(_)) => true,
        _ => is_same_kind(a, b),
    }
}

fn scalar_of(a: Option<Kind<'_>>) -> Option<CScalar>
    ensures { result ≡ scalar_kind a.entry }
{
    match a {
        Some(Kind::Scalar(t)) => Some(t),
        Some(Kind::Struct(_)) => None,
        Some(Kind::Array(_, _)) => None,
        None => None,
    }
}

fn where_scalar<'a>(a: Option<Kind<'_>>, t: Option<Kind<'a>>) -> Option<Kind<'a>>
    ensures { option_type result ≡ spec.where_scalar (option_type a.entry) (option_type t.entry) }
{
    match scalar_of(a) {
        Some(_) => t,
        None => None,
    }
}

fn where_kind<'a>(a: Option<Kind<'_>>, b: Kind<'_>, t: Option<Kind<'a>>) -> Option<Kind<'a>>
    ensures { option_type result ≡ spec.where_type (option_type a.entry) (kind_type b.entry) (option_type t.entry) }
{
    match a {
        Some(a) => { if is_same_kind(a, b) { t } else { None } }
        None => None,
    }
}

fn unary_kind<'a>(op: CUn, a: Option<Kind<'_>>) -> Option<Kind<'a>>
    ensures { option_type result ≡ option_map (λ s. ty.Scalar (spec.unary_type op s)) (scalar_kind a.entry) }
{
    match scalar_of(a) {
        Some(s) => Some(Kind::Scalar(unary_type(op, s))),
        None => None,
    }
}

fn binary_kind<'a>(op: CBin, a: Option<Kind<'_>>, b: Option<Kind<'_>>) -> Option<Kind<'a>>
    ensures { option_type result ≡ option_and_then (λ s. option_map (λ t. ty.Scalar (spec.binary_type op s t)) (scalar_kind b.entry)) (scalar_kind a.entry) }
{
    match (scalar_of(a), scalar_of(b)) {
        (Some(s), Some(t)) => Some(Kind::Scalar(binary_type(op, s, t))),
        (Some(_), None) => None,
        (None, _) => None,
    }
}

// The type that both arms of a choice have.
fn arms_kind<'a>(a: Option<Kind<'a>>, b: Option<Kind<'a>>) -> Option<Kind<'a>>
    ensures { option_type result ≡ spec.arms_type_of (option_type a.entry) (option_type b.entry) }
{
    match (a, b) {
        (Some(Kind::Scalar(s)), Some(Kind::Scalar(t))) => Some(Kind::Scalar(usual(s, t))),
        (Some(s), Some(t)) => { if is_same_kind(s, t) { Some(s) } else { None } }
        (Some(_), None) => None,
        (None, _) => None,
    }
}

fn extern_kind<'a>(unit: &'a Unit, x: &Name) -> Option<Kind<'a>>
    ensures { option_type result ≡ option_map (λ v. v.ty) (lookup.var_of unit.now.externs x.now) }
{
    match var_of(unit.externs.as_slice(), x) {
        Some(v) => Some(kind_of(&v.ty)),
        None => None,
    }
}

fn ring_kind<'a>(unit: &'a Unit, r: &Name) -> Option<Kind<'a>>
    ensures { option_type result ≡ option_map (λ ring. ring.ty) (lookup.ring_of unit.now r.now) }
{
    match ring_of(unit, r) {
        Some(ring) => Some(kind_of(&ring.ty)),
        None => None,
    }
}

// The type of a member of an expression that is a struct.
fn member_kind<'a>(unit: &'a Unit, a: Option<Kind<'_>>, x: &Name) -> Option<Kind<'a>>
    ensures { option_type result ≡ option_map (λ v. v.ty) (lookup.var_of (spec.fields_in unit.now.types (option_type a.entry)) x.now) }
{
    match a {
        Some(Kind::Struct(s)) => match fields_of(unit.types.as_slice(), s) {
            Some(fields) => field_kind(fields, x),
            None => None,
        },
        Some(Kind::Scalar(_)) => None,
        Some(Kind::Array(_, _)) => None,
        None => None,
    }
}

fn field_kind<'a>(fields: &'a [CVar], x: &Name) -> Option<Kind<'a>>
    ensures { option_type result ≡ option_map (λ v. v.ty) (lookup.var_of fields.now x.now) }
{
    match var_of(fields, x) {
        Some(v) => Some(kind_of(&v.ty)),
        None => None,
    }
}

/// Whether there is a type whose values may be assigned to objects of the other.
pub fn fits_in(a: Option<Kind<'_>>, t: Kind<'_>) -> bool
    ensures { result ≡ spec.fits_in (option_type a.entry) (kind_type t.entry) }
{
    match a {
        Some(s) => fits(s, t),
        None => false,
    }
}

/// The type of an expression, where it and each of its parts has one.
#[cycle(typing)]
#[tactic(auto, using(crate::specs::TreeLaws::tree_laws))]
pub fn type_of<'a>(unit: &'a Unit, e: &'a CExpr) -> Option<Kind<'a>>
    ensures { option_type result ≡ spec.type_of unit.now (tree e.now) }
{
    match e {
        CExpr::Lit(k, _) => Some(Kind::Scalar(literal_type(*k))),
        CExpr::True | CExpr::False => Some(Kind::Scalar(CScalar::I32)),
        CExpr::Head(_) => Some(Kind::Scalar(CScalar::U32)),
        CExpr::Copy(x) => extern_kind(unit, x),
        CExpr::Cell(r) => ring_kind(unit, r),
        CExpr::RingAt(r, a) => where_scalar(type_of(unit, a.get()), ring_kind(unit, r)),
        CExpr::Un(op, a) => unary_kind(*op, type_of(unit, a.get())),
        CExpr::Bin(op, a, b) => binary_kind(*op, type_of(unit, a.get()), type_of(unit, b.get())),
        CExpr::Cond(c, a, b) => {
            let arms = arms_kind(type_of(unit, a.get()), type_of(unit, b.get()));
            where_scalar(type_of(unit, c.get()), arms)
        }
        CExpr::Cast(t, a) => where_scalar(type_of(unit, a.get()), Some(Kind::Scalar(*t))),
        CExpr::Field(a, x) => member_kind(unit, type_of(unit, a.get()), x),
        CExpr::Pick(x, n, a, i) => {
            let element = where_scalar(type_of(unit, i.get()), Some(element_kind(x)));
            where_kind(type_of(unit, a.get()), Kind::Array(x, *n), element)
        }
        CExpr::Arr(x, n, all) => array_kind(unit, x, *n, all.as_slice()),
        CExpr::Rec(x, all) => struct_kind(unit, x, all.as_slice()),
    }
}

// The type of an array's compound literal.
#[cycle(typing)]
#[tactic(auto, using(crate::specs::TreeLaws::tree_laws))]
fn array_kind<'a>(unit: &'a Unit, x: &'a Name, n: u32, all: &'a [CExpr]) -> Option<Kind<'a>>
    ensures { option_type result ≡ spec.type_of unit.now (arr x.now n (exprs (map tree all.now))) }
{
    if !is_count(all, n) {
        return None;
    }
    let element = element_kind(x);
    if fit_elements(unit, all, element) {
        return Some(Kind::Array(x, n));
    }
    None
}

// The type of a struct's compound literal.
#[cycle(typing)]
#[tactic(auto, using(crate::specs::TreeLaws::tree_laws))]
fn struct_kind<'a>(unit: &'a Unit, x: &'a Name, all: &'a [CExpr]) -> Option<Kind<'a>>
    ensures { option_type result ≡ spec.type_of unit.now (rec x.now (exprs (map tree all.now))) }
{
    match fields_of(unit.types.as_slice(), x) {
        Some(fields) => {
            if fit_members(unit, all, fields) {
                return Some(Kind::Struct(x));
            }
            None
        }
        None => None,
    }
}

fn is_count(all: &[CExpr], n: u32) -> bool
    ensures { result ≡ nat_eq (length all.now) n }
{
    all.len() as u64 == u64::from(n)
}

#[cycle(typing)]
#[tactic(auto, using(crate::specs::TreeLaws::tree_laws))]
fn fit_elements(unit: &Unit, all: &[CExpr], t: Kind<'_>) -> bool
    ensures { result ≡ list_all (λ a. spec.fits_in a (kind_type t.entry)) (spec.types_of unit.now (exprs (map tree all.now))) }
{
    for e in all {
        if !fits_in(type_of(unit, e), t) {
            return false;
        }
    }
    true
}

#[cycle(typing)]
#[tactic(auto, using(crate::specs::TreeLaws::tree_laws))]
fn fit_members(unit: &Unit, all: &[CExpr], fields: &[CVar]) -> bool
    ensures { result ≡ spec.fit_members (spec.types_of unit.now (exprs (map tree all.now))) fields.now }
{
    let mut left = fields;
    for e in all {
        let [v, rest @ ..] = left else {
            return false;
        };
        if !fits_in(type_of(unit, e), kind_of(&v.ty)) {
            return false;
        }
        left = rest;
    }
    left.is_empty()
}

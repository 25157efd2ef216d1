// Expressions of C from their parts.
ghost use Rattle.std.specs.Prelude.{◌≡◌, IfOk};
ghost use Rattle.ring_codegen.specs.Translation.{absent, array_value, picked, struct_value};

use c99_tree::{CBin, CExpr, CScalar, CTy, CUn};
use sm_io::Name;
use sqlite_items::{Boxed, Items};
use std::alloc::{AllocError, Global};

/// Stands for what no plain and well typed specification has.
pub(crate) fn absent() -> CExpr
    ensures { result ≡ absent }
{
    CExpr::False
}

pub(crate) fn cast(alloc: Global, ty: CScalar, a: CExpr) -> Result<CExpr, AllocError>
    ensures { IfOk result (λ e. e ≡ CExpr.Cast ty a) }
{
    let a = Boxed::new(alloc, a)?;
    Ok(CExpr::Cast(ty, a))
}

pub(crate) fn un(alloc: Global, op: CUn, a: CExpr) -> Result<CExpr, AllocError>
    ensures { IfOk result (λ e. e ≡ CExpr.Un op a) }
{
    let a = Boxed::new(alloc, a)?;
    Ok(CExpr::Un(op, a))
}

pub(crate) fn bin(alloc: Global, op: CBin, a: CExpr, b: CExpr) -> Result<CExpr, AllocError>
    ensures { IfOk result (λ e. e ≡ CExpr.Bin op a b) }
{
    let a = Boxed::new(alloc, a)?;
    let b = Boxed::new(alloc, b)?;
    Ok(CExpr::Bin(op, a, b))
}

pub(crate) fn choice(alloc: Global, p: CExpr, a: CExpr, b: CExpr) -> Result<CExpr, AllocError>
    ensures { IfOk result (λ e. e ≡ CExpr.Cond p a b) }
{
    let p = Boxed::new(alloc, p)?;
    let a = Boxed::new(alloc, a)?;
    let b = Boxed::new(alloc, b)?;
    Ok(CExpr::Cond(p, a, b))
}

pub(crate) fn ring_at(alloc: Global, ring: Name, at: CExpr) -> Result<CExpr, AllocError>
    ensures { IfOk result (λ e. e ≡ CExpr.RingAt ring at) }
{
    let at = Boxed::new(alloc, at)?;
    Ok(CExpr::RingAt(ring, at))
}

pub(crate) fn field(alloc: Global, a: CExpr, member: Name) -> Result<CExpr, AllocError>
    ensures { IfOk result (λ e. e ≡ CExpr.Field a member) }
{
    let a = Boxed::new(alloc, a)?;
    Ok(CExpr::Field(a, member))
}

/// An element of an array of a type.
pub(crate) fn picked(alloc: Global, of: CTy, a: CExpr, i: CExpr) -> Result<CExpr, AllocError>
    ensures { IfOk result (λ e. e ≡ picked of a i) }
{
    let CTy::Array(x, n) = of else {
        return Ok(absent());
    };
    let a = Boxed::new(alloc, a)?;
    let i = Boxed::new(alloc, i)?;
    Ok(CExpr::Pick(x, n, a, i))
}

/// An array of a type with these elements.
pub(crate) fn array_value(of: CTy, all: Items<CExpr>) -> CExpr
    ensures { result ≡ array_value of all }
{
    match of {
        CTy::Array(x, n) => CExpr::Arr(x, n, all),
        _ => absent(),
    }
}

/// A struct of a type with these members.
pub(crate) fn struct_value(of: CTy, all: Items<CExpr>) -> CExpr
    ensures { result ≡ struct_value of all }
{
    match of {
        CTy::Struct(x) => CExpr::Rec(x, all),
        _ => absent(),
    }
}

// Expressions from their parts.
ghost use Rattle.std.specs.Prelude.{◌≡◌, IfOk};
ghost use Rattle.c99_tree.specs.Tree as t;
ghost use Rattle.c99_tree.specs.Tree.{tree};

use c99_tree::{CBin, CExpr, CScalar, CUn};
use sm_io::Name;
use sqlite_items::Boxed;
use std::alloc::{AllocError, Global};

#[tactic(auto, using(c99_tree::specs::TreeLaws::tree_laws))]
pub(crate) fn element(alloc: Global, r: Name, at: CExpr) -> Result<CExpr, AllocError>
    ensures { IfOk result (λ e. tree e ≡ t.ring_at r (tree at)) }
{
    let at = Boxed::new(alloc, at)?;
    Ok(CExpr::RingAt(r, at))
}

#[tactic(auto, using(c99_tree::specs::TreeLaws::tree_laws))]
pub(crate) fn unary(alloc: Global, op: CUn, a: CExpr) -> Result<CExpr, AllocError>
    ensures { IfOk result (λ e. tree e ≡ t.un op (tree a)) }
{
    let a = Boxed::new(alloc, a)?;
    Ok(CExpr::Un(op, a))
}

#[tactic(auto, using(c99_tree::specs::TreeLaws::tree_laws))]
pub(crate) fn binary(alloc: Global, op: CBin, a: CExpr, b: CExpr) -> Result<CExpr, AllocError>
    ensures { IfOk result (λ e. tree e ≡ t.bin op (tree a) (tree b)) }
{
    let a = Boxed::new(alloc, a)?;
    let b = Boxed::new(alloc, b)?;
    Ok(CExpr::Bin(op, a, b))
}

#[tactic(auto, using(c99_tree::specs::TreeLaws::tree_laws))]
pub(crate) fn choice(alloc: Global, c: CExpr, a: CExpr, b: CExpr) -> Result<CExpr, AllocError>
    ensures { IfOk result (λ e. tree e ≡ t.choose (tree c) (tree a) (tree b)) }
{
    let c = Boxed::new(alloc, c)?;
    let a = Boxed::new(alloc, a)?;
    let b = Boxed::new(alloc, b)?;
    Ok(CExpr::Cond(c, a, b))
}

#[tactic(auto, using(c99_tree::specs::TreeLaws::tree_laws))]
pub(crate) fn cast(alloc: Global, ty: CScalar, a: CExpr) -> Result<CExpr, AllocError>
    ensures { IfOk result (λ e. tree e ≡ t.cast ty (tree a)) }
{
    let a = Boxed::new(alloc, a)?;
    Ok(CExpr::Cast(ty, a))
}

#[tactic(auto, using(c99_tree::specs::TreeLaws::tree_laws))]
pub(crate) fn field(alloc: Global, a: CExpr, x: Name) -> Result<CExpr, AllocError>
    ensures { IfOk result (λ e. tree e ≡ t.field (tree a) x) }
{
    let a = Boxed::new(alloc, a)?;
    Ok(CExpr::Field(a, x))
}

#[tactic(auto, using(c99_tree::specs::TreeLaws::tree_laws))]
pub(crate) fn pick(alloc: Global, x: Name, n: u32, a: CExpr, i: CExpr) -> Result<CExpr, AllocError>
    ensures { IfOk result (λ e. tree e ≡ t.pick x n (tree a) (tree i)) }
{
    let a = Boxed::new(alloc, a)?;
    let i = Boxed::new(alloc, i)?;
    Ok(CExpr::Pick(x, n, a, i))
}

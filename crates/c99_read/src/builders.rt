// Expressions from their parts.
ghost use Rattle.std.specs.Prelude.{◌≡◌, Some, map};
ghost use Rattle.c99_tree.specs.Tree as t;
ghost use Rattle.c99_tree.specs.Tree.{tree, exprs};
ghost use Rattle.c99_read.specs.ExprAt as spec;
ghost use Rattle.c99_read.specs.Gives.{Gives};

use crate::fault::ReadFault;
use crate::front::behind;
use c99_tree::{CBin, CExpr, CScalar, CUn};
use sm_io::Name;
use sqlite_items::{Boxed, Items};
use std::alloc::Global;

// The expression, where this stands behind it.
pub fn closed<'a>(end: &[u8], e: CExpr, bytes: &'a [u8]) -> Result<(CExpr, &'a [u8]), ReadFault>
    ensures { Gives (λ p. (tree p.0, p.1.now)) result (spec.closed end.now (tree e) bytes.now) }
{
    let rest = behind(end, bytes)?;
    Ok((e, rest))
}

#[tactic(auto, using(c99_tree::specs::TreeLaws::tree_laws))]
pub fn element(alloc: Global, r: Name, at: CExpr) -> Result<CExpr, ReadFault>
    ensures { Gives tree result (Some (t.ring_at r (tree at))) }
{
    Ok(CExpr::RingAt(r, Boxed::new(alloc, at)?))
}

#[tactic(auto, using(c99_tree::specs::TreeLaws::tree_laws))]
pub fn unary(alloc: Global, op: CUn, a: CExpr) -> Result<CExpr, ReadFault>
    ensures { Gives tree result (Some (t.un op (tree a))) }
{
    Ok(CExpr::Un(op, Boxed::new(alloc, a)?))
}

#[tactic(auto, using(c99_tree::specs::TreeLaws::tree_laws))]
pub fn binary(alloc: Global, op: CBin, a: CExpr, b: CExpr) -> Result<CExpr, ReadFault>
    ensures { Gives tree result (Some (t.bin op (tree a) (tree b))) }
{
    let a = Boxed::new(alloc, a)?;
    Ok(CExpr::Bin(op, a, Boxed::new(alloc, b)?))
}

#[tactic(auto, using(c99_tree::specs::TreeLaws::tree_laws))]
pub fn choice(alloc: Global, c: CExpr, a: CExpr, b: CExpr) -> Result<CExpr, ReadFault>
    ensures { Gives tree result (Some (t.choose (tree c) (tree a) (tree b))) }
{
    let c = Boxed::new(alloc, c)?;
    let a = Boxed::new(alloc, a)?;
    Ok(CExpr::Cond(c, a, Boxed::new(alloc, b)?))
}

#[tactic(auto, using(c99_tree::specs::TreeLaws::tree_laws))]
pub fn cast(alloc: Global, ty: CScalar, a: CExpr) -> Result<CExpr, ReadFault>
    ensures { Gives tree result (Some (t.cast ty (tree a))) }
{
    Ok(CExpr::Cast(ty, Boxed::new(alloc, a)?))
}

#[tactic(auto, using(c99_tree::specs::TreeLaws::tree_laws))]
pub fn field(alloc: Global, a: CExpr, x: Name) -> Result<CExpr, ReadFault>
    ensures { Gives tree result (Some (t.field (tree a) x)) }
{
    Ok(CExpr::Field(Boxed::new(alloc, a)?, x))
}

#[tactic(auto, using(c99_tree::specs::TreeLaws::tree_laws))]
pub fn pick(alloc: Global, x: Name, n: u32, a: CExpr, i: CExpr) -> Result<CExpr, ReadFault>
    ensures { Gives tree result (Some (t.pick x n (tree a) (tree i))) }
{
    let a = Boxed::new(alloc, a)?;
    Ok(CExpr::Pick(x, n, a, Boxed::new(alloc, i)?))
}

#[tactic(auto, using(c99_tree::specs::TreeLaws::tree_laws))]
pub fn array(x: Name, n: u32, all: Items<CExpr>) -> CExpr
    ensures { tree result ≡ t.arr x n (exprs (map tree all)) }
{
    CExpr::Arr(x, n, all)
}

#[tactic(auto, using(c99_tree::specs::TreeLaws::tree_laws))]
pub fn structure(x: Name, all: Items<CExpr>) -> CExpr
    ensures { tree result ≡ t.rec x (exprs (map tree all)) }
{
    CExpr::Rec(x, all)
}

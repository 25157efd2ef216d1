// The rings, expressions and statements of the new program.
ghost use Rattle.std.specs.Prelude.{◌≡◌, ◌++◌, [], map, IfOk};
ghost use Rattle.std.specs.List.{filter_map, cons_option};
ghost use Rattle.c99_tree.specs.Tree as t;
ghost use Rattle.c99_tree.specs.Tree.{tree, exprs, statement};
ghost use Rattle.migration.specs.Migration as spec;

use crate::copies::copied_type;
use crate::forms::{binary, cast, choice, element, field, pick, unary};
use crate::uses::{is_old, names_old};
use c99_tree::{CBin, CExpr, CRing, CScalar, CStmt, CUn, Unit};
use sm_io::{Name, Seq};
use sqlite_items::Items;
use std::alloc::{AllocError, Global};

#[inline(never)]
fn named_copy(alloc: Global, x: &Name) -> Result<CExpr, AllocError>
    ensures { IfOk result (λ e. e ≡ CExpr.Copy x.now) }
{
    Ok(CExpr::Copy(x.copy(alloc)?))
}

#[inline(never)]
fn named_head(alloc: Global, r: &Name) -> Result<CExpr, AllocError>
    ensures { IfOk result (λ e. e ≡ CExpr.Head r.now) }
{
    Ok(CExpr::Head(r.copy(alloc)?))
}

#[inline(never)]
fn named_cell(alloc: Global, r: &Name) -> Result<CExpr, AllocError>
    ensures { IfOk result (λ e. e ≡ CExpr.Cell r.now) }
{
    Ok(CExpr::Cell(r.copy(alloc)?))
}

#[tactic(auto, using(c99_tree::specs::TreeLaws::tree_laws))]
#[inline(never)]
fn picked(alloc: Global, x: &Name, n: u32, a: CExpr, i: CExpr) -> Result<CExpr, AllocError>
    ensures { IfOk result (λ e. tree e ≡ t.pick x.now n (tree a) (tree i)) }
{
    let name = x.copy(alloc)?;
    pick(alloc, name, n, a, i)
}

// A read of a ring with an index: of one value, it is its cell.
#[cycle(renewing)]
#[tactic(auto, using(c99_tree::specs::TreeLaws::tree_laws))]
#[inline(never)]
fn renewed_read(alloc: Global, unit: &Unit, r: &Name, at: &CExpr) -> Result<CExpr, AllocError>
    ensures { IfOk result (λ made. tree made ≡ spec.renewed unit.now (t.ring_at r.now (tree at.now))) }
{
    let name = r.copy(alloc)?;
    if names_old(unit, r) {
        return Ok(CExpr::Cell(name));
    }
    let at = renewed(alloc, unit, at)?;
    element(alloc, name, at)
}

#[cycle(renewing)]
#[tactic(auto, using(c99_tree::specs::TreeLaws::tree_laws))]
#[inline(never)]
fn renewed_unary(alloc: Global, unit: &Unit, op: CUn, a: &CExpr) -> Result<CExpr, AllocError>
    ensures { IfOk result (λ made. tree made ≡ spec.renewed unit.now (t.un op (tree a.now))) }
{
    let of = renewed(alloc, unit, a)?;
    unary(alloc, op, of)
}

#[cycle(renewing)]
#[tactic(auto, using(c99_tree::specs::TreeLaws::tree_laws))]
#[inline(never)]
fn renewed_cast(alloc: Global, unit: &Unit, ty: CScalar, a: &CExpr) -> Result<CExpr, AllocError>
    ensures { IfOk result (λ made. tree made ≡ spec.renewed unit.now (t.cast ty (tree a.now))) }
{
    let of = renewed(alloc, unit, a)?;
    cast(alloc, ty, of)
}

#[cycle(renewing)]
#[tactic(auto, using(c99_tree::specs::TreeLaws::tree_laws))]
#[inline(never)]
fn renewed_field(alloc: Global, unit: &Unit, a: &CExpr, x: &Name) -> Result<CExpr, AllocError>
    ensures { IfOk result (λ made. tree made ≡ spec.renewed unit.now (t.field (tree a.now) x.now)) }
{
    let name = x.copy(alloc)?;
    let of = renewed(alloc, unit, a)?;
    field(alloc, of, name)
}

#[cycle(renewing)]
#[tactic(auto, using(c99_tree::specs::TreeLaws::tree_laws))]
#[inline(never)]
fn renewed_array(
    alloc: Global,
    unit: &Unit,
    x: &Name,
    n: u32,
    all: &[CExpr],
) -> Result<CExpr, AllocError>
    ensures { IfOk result (λ made. tree made ≡ spec.renewed unit.now (t.arr x.now n (exprs (map tree all.now)))) }
{
    let name = x.copy(alloc)?;
    let parts = all_renewed(alloc, unit, all)?;
    Ok(CExpr::Arr(name, n, parts))
}

#[cycle(renewing)]
#[tactic(auto, using(c99_tree::specs::TreeLaws::tree_laws))]
#[inline(never)]
fn renewed_struct(alloc: Global, unit: &Unit, x: &Name, all: &[CExpr]) -> Result<CExpr, AllocError>
    ensures { IfOk result (λ made. tree made ≡ spec.renewed unit.now (t.rec x.now (exprs (map tree all.now)))) }
{
    let name = x.copy(alloc)?;
    let parts = all_renewed(alloc, unit, all)?;
    Ok(CExpr::Rec(name, parts))
}

/// The expression, with the cell for each read of a ring of one value.
#[cycle(renewing)]
#[tactic(auto, using(c99_tree::specs::TreeLaws::tree_laws))]
fn renewed(alloc: Global, unit: &Unit, e: &CExpr) -> Result<CExpr, AllocError>
    ensures { IfOk result (λ made. tree made ≡ spec.renewed unit.now (tree e.now)) }
{
    match e {
        CExpr::Lit(k, n) => Ok(CExpr::Lit(*k, *n)),
        CExpr::True => Ok(CExpr::True),
        CExpr::False => Ok(CExpr::False),
        CExpr::Copy(x) => named_copy(alloc, x),
        CExpr::Head(r) => named_head(alloc, r),
        CExpr::Cell(r) => named_cell(alloc, r),
        CExpr::RingAt(r, a) => renewed_read(alloc, unit, r, a.get()),
        CExpr::Un(op, a) => renewed_unary(alloc, unit, *op, a.get()),
        CExpr::Bin(op, a, b) => {
            let left = renewed(alloc, unit, a.get())?;
            let right = renewed(alloc, unit, b.get())?;
            binary(alloc, *op, left, right)
        }
        CExpr::Cond(c, a, b) => {
            let asked = renewed(alloc, unit, c.get())?;
            let first = renewed(alloc, unit, a.get())?;
            let second = renewed(alloc, unit, b.get())?;
            choice(alloc, asked, first, second)
        }
        CExpr::Cast(ty, a) => renewed_cast(alloc, unit, *ty, a.get()),
        CExpr::Field(a, x) => renewed_field(alloc, unit, a.get(), x),
        CExpr::Pick(x, n, a, i) => {
            let of = renewed(alloc, unit, a.get())?;
            let at = renewed(alloc, unit, i.get())?;
            picked(alloc, x, *n, of, at)
        }
        CExpr::Arr(x, n, all) => renewed_array(alloc, unit, x, *n, all.as_slice()),
        CExpr::Rec(x, all) => renewed_struct(alloc, unit, x, all.as_slice()),
    }
}

#[cycle(renewing)]
#[tactic(auto, using(c99_tree::specs::TreeLaws::tree_laws))]
#[inline(never)]
fn all_renewed(alloc: Global, unit: &Unit, all: &[CExpr]) -> Result<Items<CExpr>, AllocError>
    ensures { IfOk result (λ xs. exprs (map tree xs) ≡ spec.renewed_all unit.now (exprs (map tree all.now))) }
{
    let mut parts = Items::new(alloc);
    for e in all {
        let part = renewed(alloc, unit, e)?;
        parts.push(part)?;
    }
    Ok(parts)
}

fn arguments(alloc: Global, unit: &Unit, all: &[CExpr]) -> Result<Seq<CExpr>, AllocError>
    ensures { IfOk result (λ xs. exprs (map tree xs) ≡ spec.renewed_all unit.now (exprs (map tree all.now))) }
{
    let mut parts = Seq::new(alloc);
    for e in all {
        let part = renewed(alloc, unit, e)?;
        parts.push(part)?;
    }
    Ok(parts)
}

// The statement, if it stays: a Put for a Store of a ring of one value, and nothing for its Move.
fn renewed_statement(alloc: Global, unit: &Unit, s: &CStmt) -> Result<Option<CStmt>, AllocError>
    ensures { IfOk result (λ o. spec.tree_of o ≡ spec.renewed_statement unit.now (statement s.now)) }
{
    match s {
        CStmt::Copy { name } => Ok(Some(CStmt::Copy {
            name: name.copy(alloc)?,
        })),
        CStmt::Call {
            handler,
            guard,
            args,
        } => {
            let asked = renewed(alloc, unit, guard)?;
            let given = arguments(alloc, unit, args.as_slice())?;
            Ok(Some(CStmt::Call {
                handler: handler.copy(alloc)?,
                guard: asked,
                args: given,
            }))
        }
        CStmt::Next { ring, value } => {
            let next = renewed(alloc, unit, value)?;
            Ok(Some(CStmt::Next {
                ring: ring.copy(alloc)?,
                value: next,
            }))
        }
        CStmt::Store { ring, at } => {
            let name = ring.copy(alloc)?;
            if names_old(unit, ring) {
                return Ok(Some(CStmt::Put { ring: name }));
            }
            let place = renewed(alloc, unit, at)?;
            Ok(Some(CStmt::Store {
                ring: name,
                at: place,
            }))
        }
        CStmt::Move { ring, value } => {
            if names_old(unit, ring) {
                return Ok(None);
            }
            let next = renewed(alloc, unit, value)?;
            Ok(Some(CStmt::Move {
                ring: ring.copy(alloc)?,
                value: next,
            }))
        }
        CStmt::Put { ring } => Ok(Some(CStmt::Put {
            ring: ring.copy(alloc)?,
        })),
    }
}

// The statements with that one behind them, if it stays.
fn with_renewed(
    alloc: Global,
    unit: &Unit,
    s: &CStmt,
    mut step: Seq<CStmt>,
) -> Result<Seq<CStmt>, AllocError>
    ensures { IfOk result (λ all. map statement all ≡ map statement step ++ cons_option (spec.renewed_statement unit.now (statement s.now)) []) }
{
    match renewed_statement(alloc, unit, s)? {
        Some(new) => {
            step.push(new)?;
            Ok(step)
        }
        None => Ok(step),
    }
}

/// The statements of the new program.
pub(crate) fn renewed_step(alloc: Global, unit: &Unit) -> Result<Seq<CStmt>, AllocError>
    ensures { IfOk result (λ step. map statement step ≡ filter_map (spec.renewed_statement unit.now) (map statement unit.now.step)) }
{
    let mut step = Seq::new(alloc);
    for s in unit.step.as_slice() {
        let next = with_renewed(alloc, unit, s, step)?;
        step = next;
    }
    Ok(step)
}

fn renewed_ring(alloc: Global, r: &CRing) -> Result<CRing, AllocError>
    ensures { IfOk result (λ ring. ring ≡ spec.renewed_ring r.now) }
{
    let name = r.name.copy(alloc)?;
    let ty = copied_type(alloc, &r.ty)?;
    let init = Vec::from_slice(alloc, r.init.as_slice())?;
    Ok(CRing {
        name,
        ty,
        len: r.len,
        indexed: r.indexed && !is_old(r),
        init: Seq::of(init),
    })
}

/// The rings of the new program.
pub(crate) fn renewed_rings(alloc: Global, rings: &[CRing]) -> Result<Seq<CRing>, AllocError>
    ensures { IfOk result (λ all. all ≡ map spec.renewed_ring rings.now) }
{
    let mut all = Seq::new(alloc);
    for r in rings {
        let ring = renewed_ring(alloc, r)?;
        all.push(ring)?;
    }
    Ok(all)
}

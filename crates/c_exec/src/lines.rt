// The statements of a program, with the places of what they name.
ghost use Rattle.std.specs.Prelude.{◌≡◌, map, IfOk, Some};
ghost use Rattle.c99_tree.specs.Tree.{statement};
ghost use Rattle.c99_tree.specs.Kinds.{option_type};
ghost use Rattle.std.specs.Option.{option_map};
ghost use Rattle.std.specs.List.{position_or_len};
ghost use Rattle.c99_tree.specs.Words.{is_same};
ghost use Rattle.c99_tree.specs.declared.types.CProto.{CProto};
ghost use Rattle.c99_tree.specs.Tree.{tree, exprs, calls, stores};
ghost use Rattle.c99_tree.specs.Lookup as lookup;
ghost use Rattle.c99_tree.specs.declared.unit.CRing.{CRing};
ghost use Rattle.c_exec.specs.Codes.{act_of};
ghost use Rattle.c_exec.specs.Resolving as spec;
ghost use Rattle.c99_tree.specs.Step.{params_of};

use crate::code::Line;
use crate::layout::{ring_place, var_place};
use crate::resolve::{arguments_code, code_as, code_for, code_of, scalar_of};
use c99_tree::{
    CExpr, CProto, CScalar, CStmt, CTy, Kind, Unit, handler_of, is_same, kind_of, ring_of,
};
use sm_io::Name;
use std::alloc::{AllocError, Global};

// The place of the first handler of this name, or the number of handlers.
fn handler_place(handlers: &[CProto], h: &Name) -> Result<u32, AllocError>
    ensures { IfOk result (λ k. k ≡ position_or_len (λ (p : CProto). is_same h.now p.name) handlers.now) }
{
    let mut k: u32 = 0;
    for proto in handlers {
        if is_same(h, &proto.name) {
            return Ok(k);
        }
        k = k.checked_add(1).ok_or(AllocError)?;
    }
    Ok(k)
}

fn ring_kind<'a>(unit: &'a Unit, r: &Name) -> Option<Kind<'a>>
    ensures { option_type result ≡ option_map (λ (ring : CRing). ring.ty) (lookup.ring_of unit.now r.now) }
{
    match ring_of(unit, r) {
        Some(ring) => Some(kind_of(&ring.ty)),
        None => None,
    }
}

fn params_of<'a>(unit: &'a Unit, h: &Name) -> &'a [CTy]
    ensures { result.now ≡ params_of unit.now h.now }
{
    match handler_of(unit, h) {
        Some(proto) => proto.params.as_slice(),
        None => &[],
    }
}

fn call_line(
    alloc: Global,
    unit: &Unit,
    h: &Name,
    guard: &CExpr,
    args: &[CExpr],
) -> Result<Line, AllocError>
    ensures { IfOk result (λ l. act_of l ≡ spec.act_for unit.now (calls h.now (tree guard.now) (exprs (map tree args.now)))) }
{
    let place = handler_place(unit.handlers.as_slice(), h)?;
    let guard = code_of(alloc, unit, guard)?;
    let args = arguments_code(alloc, unit, params_of(unit, h), args)?;
    Ok(Line::Call(place, guard, args))
}

fn store_line(alloc: Global, unit: &Unit, r: &Name, at: &CExpr) -> Result<Line, AllocError>
    ensures { IfOk result (λ l. act_of l ≡ spec.act_for unit.now (stores r.now (tree at.now))) }
{
    let ring = ring_place(unit, r)?;
    let place = code_of(alloc, unit, at)?;
    Ok(Line::Store(
        ring.at,
        ring.n,
        ring.len,
        scalar_of(unit, at),
        place,
        ring.local,
    ))
}

/// The resolved form of a statement.
pub(crate) fn line_of(alloc: Global, unit: &Unit, s: &CStmt) -> Result<Line, AllocError>
    ensures { IfOk result (λ l. act_of l ≡ spec.act_for unit.now (statement s.now)) }
{
    match s {
        CStmt::Copy { name } => {
            let (at, n) = var_place(unit.types.as_slice(), unit.externs.as_slice(), name)?;
            Ok(Line::Copy(at, n))
        }
        CStmt::Call {
            handler,
            guard,
            args,
        } => call_line(alloc, unit, handler, guard, args.as_slice()),
        CStmt::Next { ring, value } => {
            let place = ring_place(unit, ring)?;
            let code = code_for(alloc, unit, ring_kind(unit, ring), value)?;
            Ok(Line::Next(place.local, code))
        }
        CStmt::Store { ring, at } => store_line(alloc, unit, ring, at),
        CStmt::Move { ring, value } => {
            let place = ring_place(unit, ring)?;
            let code = code_as(alloc, unit, Kind::Scalar(CScalar::U32), value)?;
            Ok(Line::Move(place.index, code))
        }
        CStmt::Put { ring } => {
            let place = ring_place(unit, ring)?;
            Ok(Line::Put(place.at, place.n, place.local))
        }
    }
}

/// The resolved statements of `step`.
pub(crate) fn lines_of(alloc: Global, unit: &Unit) -> Result<Vec<Line>, AllocError>
    ensures { IfOk result (λ all. map act_of all.items ≡ spec.acts_for unit.now) }
{
    let mut lines = Vec::new(alloc);
    for s in unit.step.as_slice() {
        lines.push(line_of(alloc, unit, s)?)?;
    }
    Ok(lines)
}

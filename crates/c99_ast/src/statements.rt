// What is asked of a statement by itself.
ghost use Rattle.std.specs.Prelude.{◌≡◌, map, length, nat_eq};
ghost use Rattle.std.specs.List.{list_all};
ghost use Rattle.c99_tree.specs.Tree.{tree, exprs, statement, copies, calls, nexts, stores, moves, puts};
ghost use Rattle.c99_tree.specs.Typing.{type_of, types_of};
ghost use Rattle.c99_tree.specs.Checks as checks;
ghost use Rattle.c99_tree.specs.WellFormed as spec;

use crate::parts::{are_sound_parts, has_index, has_no_index};
use c99_tree::{
    CExpr, CScalar, CStmt, CTy, Kind, MOST_HEIGHT, Unit, fits_in, handler_of, is_low, is_ring_name,
    kind_of, ring_of, type_of, var_of,
};
use sm_io::{Name, is_name};

fn is_sound_expression(unit: &Unit, e: &CExpr) -> bool
    ensures { result ≡ checks.is_sound_expression unit.now (tree e.now) }
{
    is_low(e, MOST_HEIGHT) && type_of(unit, e).is_some() && are_sound_parts(unit, e)
}

fn are_sound_expressions(unit: &Unit, all: &[CExpr]) -> bool
    ensures { result ≡ list_all (checks.is_sound_expression unit.now) (spec.list_of (exprs (map tree all.now))) }
{
    for e in all {
        if !is_sound_expression(unit, e) {
            return false;
        }
    }
    true
}

fn is_scalar(unit: &Unit, e: &CExpr) -> bool
    ensures { result ≡ spec.is_scalar_expr unit.now (tree e.now) }
{
    match type_of(unit, e) {
        Some(Kind::Scalar(_)) => true,
        Some(Kind::Struct(_)) => false,
        Some(Kind::Array(_, _)) => false,
        None => false,
    }
}

// Each argument fits its parameter.
fn fit_params(unit: &Unit, args: &[CExpr], params: &[CTy]) -> bool
    ensures { result ≡ spec.fit_params (types_of unit.now (exprs (map tree args.now))) params.now }
{
    let mut left = params;
    for e in args {
        let [t, rest @ ..] = left else {
            return true;
        };
        if !fits_in(type_of(unit, e), kind_of(t)) {
            return false;
        }
        left = rest;
    }
    true
}

fn is_sound_call(unit: &Unit, handler: &Name, guard: &CExpr, args: &[CExpr]) -> bool
    ensures { result ≡ checks.is_sound_statement unit.now (calls handler.now (tree guard.now) (exprs (map tree args.now))) }
{
    if !is_name(handler.bytes()) {
        return false;
    }
    let Some(h) = handler_of(unit, handler) else {
        return false;
    };
    if !is_sound_expression(unit, guard) || !are_sound_expressions(unit, args) {
        return false;
    }
    let params = h.params.as_slice();
    if !are_as_many(args, params) || !is_scalar(unit, guard) {
        return false;
    }
    fit_params(unit, args, params)
}

fn are_as_many(args: &[CExpr], params: &[CTy]) -> bool
    ensures { result ≡ nat_eq (length (spec.list_of (exprs (map tree args.now)))) (length params.now) }
{
    args.len() == params.len()
}

fn is_sound_next(unit: &Unit, ring: &Name, value: &CExpr) -> bool
    ensures { result ≡ checks.is_sound_statement unit.now (nexts ring.now (tree value.now)) }
{
    if !is_ring_name(ring) {
        return false;
    }
    let Some(r) = ring_of(unit, ring) else {
        return false;
    };
    is_sound_expression(unit, value) && fits_in(type_of(unit, value), kind_of(&r.ty))
}

fn is_sound_store(unit: &Unit, ring: &Name, at: &CExpr) -> bool
    ensures { result ≡ checks.is_sound_statement unit.now (stores ring.now (tree at.now)) }
{
    if !is_ring_name(ring) {
        return false;
    }
    let Some(r) = ring_of(unit, ring) else {
        return false;
    };
    is_sound_expression(unit, at) && is_scalar(unit, at) && r.indexed
}

fn is_sound_move(unit: &Unit, ring: &Name, value: &CExpr) -> bool
    ensures { result ≡ checks.is_sound_statement unit.now (moves ring.now (tree value.now)) }
{
    if !is_ring_name(ring) {
        return false;
    }
    let Some(r) = ring_of(unit, ring) else {
        return false;
    };
    let index = Kind::Scalar(CScalar::U32);
    is_sound_expression(unit, value) && fits_in(type_of(unit, value), index) && r.indexed
}

fn is_sound_put(unit: &Unit, ring: &Name) -> bool
    ensures { result ≡ checks.is_sound_statement unit.now (puts ring.now) }
{
    if !is_ring_name(ring) {
        return false;
    }
    let Some(r) = ring_of(unit, ring) else {
        return false;
    };
    !r.indexed
}

fn is_sound_copy(unit: &Unit, x: &Name) -> bool
    ensures { result ≡ checks.is_sound_statement unit.now (copies x.now) }
{
    is_name(x.bytes()) && var_of(unit.externs.as_slice(), x).is_some()
}

/// A statement by itself: it is named well, what it names is there, its expressions are sound and fit their places, and
/// it writes as its ring is written.
pub fn is_sound_statement(unit: &Unit, s: &CStmt) -> bool
    ensures { result ≡ checks.is_sound_statement unit.now (statement s.now) }
{
    match s {
        CStmt::Copy { name } => is_sound_copy(unit, name),
        CStmt::Call {
            handler,
            guard,
            args,
        } => is_sound_call(unit, handler, guard, args.as_slice()),
        CStmt::Next { ring, value } => is_sound_next(unit, ring, value),
        CStmt::Store { ring, at } => is_sound_store(unit, ring, at),
        CStmt::Move { ring, value } => is_sound_move(unit, ring, value),
        CStmt::Put { ring } => is_sound_put(unit, ring),
    }
}

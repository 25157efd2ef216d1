// The statements of `step`.
ghost use Rattle.std.specs.Prelude.{◌≡◌, ◌++◌, ◌∷◌, [], None, Some, List, ℕ, codes, map};
ghost use Rattle.std.specs.List.{find};
ghost use Rattle.sm_io.specs.Names.{IsNameBytes};
ghost use Rattle.c99_tree.specs.Lookup.{Lends};
ghost use Rattle.c99_tree.specs.Tree.{tree, exprs, statement};
ghost use Rattle.c99_tree.specs.Words as words;
ghost use Rattle.c99_tree.specs.declared.types.CTy.TheVariants as ty;
ghost use Rattle.c99_read.specs.ExprAt.{expr_at, list_at, onto, others_at};
ghost use Rattle.c99_read.specs.Front as parts;
ghost use Rattle.c99_read.specs.Front.{all_at, begins};
ghost use Rattle.c99_read.specs.Gives.{Gives};
ghost use Rattle.c99_read.specs.LineAt as spec;

use crate::expressions::{ends_list, expr_of};
use crate::fault::ReadFault;
use crate::front;
use crate::front::{
    behind, behind_three, is_same, name_at, name_of, ring_name_at, split_word, strip,
};
use crate::kinds::type_at;
use crate::words::is_ring_name;
use c99_tree::{CExpr, CRing, CScalar, CStmt, CTy, MOST_HEIGHT, is_same as are_same, scalar_name};
use sm_io::{Name, Seq, is_name};
use std::alloc::Global;

// ` = E;`
#[tactic(auto, unfolding(crate::specs::LineAt::given_at))]
fn given_at(alloc: Global, bytes: &[u8]) -> Result<(CExpr, &[u8]), ReadFault>
    ensures { Gives (λ p. (tree p.0, p.1.now)) result (spec.given_at bytes.now) }
{
    let rest = behind(b" = ", bytes)?;
    let (e, rest) = expr_of(alloc, MOST_HEIGHT, rest)?;
    let rest = behind(b";\n", rest)?;
    Ok((e, rest))
}

#[tactic(auto, using(crate::proofs::Bytes::name_bytes))]
fn copy_at<'a>(alloc: Global, x: &[u8], bytes: &'a [u8]) -> Result<(CStmt, &'a [u8]), ReadFault>
    ensures { Gives (λ p. (statement p.0, p.1.now)) result (spec.copy_at x.now bytes.now) }
{
    if !is_name(x) {
        return Err(ReadFault::NotRead);
    }
    let rest = behind_three(b" = ", x, b";\n", bytes)?;
    let name = name_of(alloc, x)?;
    Ok((CStmt::Copy { name }, rest))
}

#[tactic(auto, using(crate::proofs::Bytes::ring_name_bytes))]
fn move_at<'a>(alloc: Global, r: &[u8], bytes: &'a [u8]) -> Result<(CStmt, &'a [u8]), ReadFault>
    ensures { Gives (λ p. (statement p.0, p.1.now)) result (spec.move_at r.now bytes.now) }
{
    if !is_ring_name(r) {
        return Err(ReadFault::NotRead);
    }
    let (value, rest) = given_at(alloc, bytes)?;
    let ring = name_of(alloc, r)?;
    Ok((CStmt::Move { ring, value }, rest))
}

// ---- what is written to a ring

fn put_at<'a>(alloc: Global, r: &[u8], bytes: &'a [u8]) -> Result<(CStmt, &'a [u8]), ReadFault>
    requires { IsNameBytes r.now }
    ensures { Gives (λ p. (statement p.0, p.1.now)) result (spec.store_by r.now bytes.now None) }
{
    let rest = behind_three(b" = cp_n_", r, b";\n", bytes)?;
    let ring = name_of(alloc, r)?;
    Ok((CStmt::Put { ring }, rest))
}

fn stored_at<'a>(alloc: Global, r: &[u8], bytes: &'a [u8]) -> Result<(CStmt, &'a [u8]), ReadFault>
    requires { IsNameBytes r.now }
    ensures { Gives (λ p. (statement p.0, p.1.now)) result (spec.store_by r.now bytes.now (Some bytes.now)) }
{
    let (at, rest) = expr_of(alloc, MOST_HEIGHT, bytes)?;
    let rest = behind_three(b"] = cp_n_", r, b";\n", rest)?;
    let ring = name_of(alloc, r)?;
    Ok((CStmt::Store { ring, at }, rest))
}

#[tactic(auto, using(crate::proofs::Bytes::ring_name_bytes))]
fn store_at<'a>(alloc: Global, r: &[u8], bytes: &'a [u8]) -> Result<(CStmt, &'a [u8]), ReadFault>
    ensures { Gives (λ p. (statement p.0, p.1.now)) result (spec.store_at r.now bytes.now) }
{
    if !is_ring_name(r) {
        return Err(ReadFault::NotRead);
    }
    match strip(b"[", bytes) {
        Some(at) => stored_at(alloc, r, at),
        None => put_at(alloc, r, bytes),
    }
}

// ---- calls

// Further arguments, each behind a comma, after those that were read.
fn more_args(
    alloc: Global,
    items: Seq<CExpr>,
    fuel: usize,
    bytes: &[u8],
) -> Result<(Seq<CExpr>, &[u8]), ReadFault>
    ensures { Gives (λ p. (exprs (map tree p.0), p.1.now)) result (onto (exprs (map tree items)) (others_at (expr_at 8192) fuel bytes.now)) }
{
    let mut all = items;
    let mut rest = bytes;
    for i in 0..fuel {
        let Some(next) = strip(b", ", rest) else {
            return Ok((all, rest));
        };
        let (e, after) = expr_of(alloc, MOST_HEIGHT, next)?;
        all.push(e)?;
        rest = after;
    }
    Err(ReadFault::NotRead)
}

#[tactic(auto, unfolding(crate::specs::ExprAt::list_at))]
fn args_at(alloc: Global, bytes: &[u8]) -> Result<(Seq<CExpr>, &[u8]), ReadFault>
    ensures { Gives (λ p. (exprs (map tree p.0), p.1.now)) result (list_at (expr_at 8192) bytes.now) }
{
    let mut all = Seq::new(alloc);
    if ends_list(bytes) {
        return Ok((all, bytes));
    }
    let (first, rest) = expr_of(alloc, MOST_HEIGHT, bytes)?;
    all.push(first)?;
    more_args(alloc, all, bytes.len(), rest)
}

// The rest of a call, behind the brace.
fn called_at(alloc: Global, guard: CExpr, bytes: &[u8]) -> Result<(CStmt, &[u8]), ReadFault>
    ensures { Gives (λ p. (statement p.0, p.1.now)) result (spec.called_at (tree guard) bytes.now) }
{
    let (handler, rest) = name_at(alloc, bytes)?;
    let rest = behind(b"(", rest)?;
    let (args, rest) = args_at(alloc, rest)?;
    let rest = behind(b"); }\n", rest)?;
    let call = CStmt::Call {
        handler,
        guard,
        args,
    };
    Ok((call, rest))
}

fn call_at(alloc: Global, bytes: &[u8]) -> Result<(CStmt, &[u8]), ReadFault>
    ensures { Gives (λ p. (statement p.0, p.1.now)) result (spec.call_at bytes.now) }
{
    let rest = behind(b" (", bytes)?;
    let (guard, rest) = expr_of(alloc, MOST_HEIGHT, rest)?;
    let rest = behind(b") { ", rest)?;
    called_at(alloc, guard, rest)
}

// ---- a ring's next value

fn is_scalar(s: CScalar, b: &CTy) -> bool
    ensures { result ≡ spec.is_type (ty.Scalar s) b.now }
{
    match b {
        CTy::Scalar(t) => is_same(scalar_name(s), scalar_name(*t)),
        CTy::Struct(_) => false,
        CTy::Array(_, _) => false,
    }
}

fn is_struct(x: &Name, b: &CTy) -> bool
    ensures { result ≡ spec.is_type (ty.Struct x.now) b.now }
{
    match b {
        CTy::Scalar(_) => false,
        CTy::Struct(y) => are_same(x, y),
        CTy::Array(_, _) => false,
    }
}

fn is_array(x: &Name, n: u32, b: &CTy) -> bool
    ensures { result ≡ spec.is_type (ty.Array x.now n) b.now }
{
    match b {
        CTy::Scalar(_) => false,
        CTy::Struct(_) => false,
        CTy::Array(y, m) => are_same(x, y) && n == *m,
    }
}

// Whether two types are the same.
fn is_type(a: &CTy, b: &CTy) -> bool
    ensures { result ≡ spec.is_type a.now b.now }
{
    match a {
        CTy::Scalar(s) => is_scalar(*s, b),
        CTy::Struct(x) => is_struct(x, b),
        CTy::Array(x, n) => is_array(x, *n, b),
    }
}

// The first ring of this name.
fn first_ring<'a>(rings: &'a [CRing], r: &Name) -> Option<&'a CRing>
    ensures { Lends result (find (λ x. words.is_same r.now x.name) rings.now) }
{
    for x in rings {
        if are_same(r, &x.name) {
            return Some(x);
        }
    }
    None
}

// That the first ring of this name has this type.
fn next_of(rings: &[CRing], t: &CTy, r: &Name) -> Result<(), ReadFault>
    ensures { Gives (λ x. r.now) result (spec.next_of rings.now t.now r.now) }
{
    let Some(ring) = first_ring(rings, r) else {
        return Err(ReadFault::NotRead);
    };
    if !is_type(t, &ring.ty) {
        return Err(ReadFault::NotRead);
    }
    Ok(())
}

// A Next of this type, from the ring's name on.
fn next_named<'a>(
    alloc: Global,
    rings: &[CRing],
    t: &CTy,
    bytes: &'a [u8],
) -> Result<(CStmt, &'a [u8]), ReadFault>
    ensures { Gives (λ p. (statement p.0, p.1.now)) result (spec.next_named rings.now t.now bytes.now) }
{
    let (ring, rest) = ring_name_at(alloc, bytes)?;
    next_of(rings, t, &ring)?;
    let (value, rest) = given_at(alloc, rest)?;
    Ok((CStmt::Next { ring, value }, rest))
}

fn next_at<'a>(
    alloc: Global,
    rings: &[CRing],
    bytes: &'a [u8],
) -> Result<(CStmt, &'a [u8]), ReadFault>
    ensures { Gives (λ p. (statement p.0, p.1.now)) result (spec.next_at rings.now bytes.now) }
{
    let (t, rest) = type_at(alloc, bytes)?;
    let rest = behind(b" cp_n_", rest)?;
    next_named(alloc, rings, &t, rest)
}

// ---- all

fn by_index<'a>(
    alloc: Global,
    rings: &[CRing],
    line: &'a [u8],
    word: &[u8],
    rest: &'a [u8],
) -> Result<(CStmt, &'a [u8]), ReadFault>
    ensures { Gives (λ p. (statement p.0, p.1.now)) result (spec.by_index rings.now (parts.behind (codes "cp_i_") word.now) line.now rest.now) }
{
    match strip(b"cp_i_", word) {
        Some(r) => move_at(alloc, r, rest),
        None => next_at(alloc, rings, line),
    }
}

fn by_buffer<'a>(
    alloc: Global,
    rings: &[CRing],
    line: &'a [u8],
    word: &[u8],
    rest: &'a [u8],
) -> Result<(CStmt, &'a [u8]), ReadFault>
    ensures { Gives (λ p. (statement p.0, p.1.now)) result (spec.by_buffer rings.now (parts.behind (codes "cp_b_") word.now) line.now word.now rest.now) }
{
    match strip(b"cp_b_", word) {
        Some(r) => store_at(alloc, r, rest),
        None => by_index(alloc, rings, line, word, rest),
    }
}

fn by_copy<'a>(
    alloc: Global,
    rings: &[CRing],
    line: &'a [u8],
    word: &[u8],
    rest: &'a [u8],
) -> Result<(CStmt, &'a [u8]), ReadFault>
    ensures { Gives (λ p. (statement p.0, p.1.now)) result (spec.by_copy rings.now (parts.behind (codes "cp_c_") word.now) line.now word.now rest.now) }
{
    match strip(b"cp_c_", word) {
        Some(x) => copy_at(alloc, x, rest),
        None => by_buffer(alloc, rings, line, word, rest),
    }
}

// A statement, where these are the rings.
#[tactic(auto, unfolding(crate::specs::LineAt::statement_at))]
fn statement_at<'a>(
    alloc: Global,
    rings: &[CRing],
    bytes: &'a [u8],
) -> Result<(CStmt, &'a [u8]), ReadFault>
    ensures { Gives (λ p. (statement p.0, p.1.now)) result (spec.statement_at rings.now bytes.now) }
{
    let line = behind(b"  ", bytes)?;
    let (word, rest) = split_word(line);
    if is_same(word, b"if") {
        return call_at(alloc, rest);
    }
    by_copy(alloc, rings, line, word, rest)
}

// All statements.
pub fn statements_at<'a>(
    alloc: Global,
    rings: &[CRing],
    bytes: &'a [u8],
) -> Result<(Seq<CStmt>, &'a [u8]), ReadFault>
    ensures { Gives (λ p. (map statement p.0, p.1.now)) result (all_at (begins (codes " ")) (spec.statement_at rings.now) bytes.now) }
{
    let mut all = Seq::new(alloc);
    let mut rest = bytes;
    for i in 0..bytes.len() {
        if !front::begins(b" ", rest) {
            return Ok((all, rest));
        }
        let (x, after) = statement_at(alloc, rings, rest)?;
        all.push(x)?;
        rest = after;
    }
    Err(ReadFault::NotRead)
}

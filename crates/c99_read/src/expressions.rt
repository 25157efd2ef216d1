// Expressions. Each function reads one form; `depth` is how high the parts may be, and less by 1 than the expression.
ghost use Rattle.std.specs.Prelude.{◌≡◌, List, ℕ, Some, None, map, nat_eq, ◌&&◌, codes};
ghost use Rattle.c99_read.specs.Front.{begins as spec_begins};
ghost use Rattle.c99_tree.specs.Tree.{tree, exprs};
ghost use Rattle.sm_io.specs.Names.{IsNameBytes};
ghost use Rattle.c99_read.specs.Gives.{Gives};
ghost use Rattle.c99_read.specs.Front.{word, after_word, token, after_token};
ghost use Rattle.c99_read.specs.ExprAt as spec;
ghost use Rattle.c99_read.specs.ExprAt.{part_at, expr_at};

use crate::builders;
use crate::builders::closed;
use crate::fault::ReadFault;
use crate::front::{
    array_of, begins, behind, is_digit, is_same, name_at, name_of, split_token, split_word, strip,
};
use crate::leaves::{cell_of, literal_of, named_of};
use crate::words::{is_ring_name, operator_of, scalar_of, sign_of};
use c99_tree::{CBin, CExpr, CUn};
use sm_io::is_name;
use sqlite_items::Items;
use std::alloc::Global;

#[cycle(reading)]
#[tactic(auto, unfolding(crate::specs::ExprAt::part_at))]
fn part(alloc: Global, depth: u32, bytes: &[u8]) -> Result<(CExpr, &[u8]), ReadFault>
    ensures { Gives (λ p. (tree p.0, p.1.now)) result (part_at depth bytes.now) }
{
    if depth == 0 {
        return Err(ReadFault::NotRead);
    }
    expr_of(alloc, depth - 1, bytes)
}

// ---- lists

pub fn ends_list(bytes: &[u8]) -> bool
    ensures { result ≡ spec.ends_list bytes.now }
{
    match bytes {
        [] => true,
        [first, ..] => *first == 32 || *first == 41,
    }
}

// Further items, each behind a comma, after those that were read.
#[cycle(reading)]
#[inline(never)]
fn others_at(
    alloc: Global,
    depth: u32,
    items: Items<CExpr>,
    fuel: usize,
    bytes: &[u8],
) -> Result<(Items<CExpr>, &[u8]), ReadFault>
    ensures { Gives (λ p. (exprs (map tree p.0), p.1.now)) result (spec.onto (exprs (map tree items)) (spec.others_at (part_at depth) fuel bytes.now)) }
{
    let mut all = items;
    let mut rest = bytes;
    for i in 0..fuel {
        let Some(next) = strip(b", ", rest) else {
            return Ok((all, rest));
        };
        let (e, after) = part(alloc, depth, next)?;
        all.push(e)?;
        rest = after;
    }
    Err(ReadFault::NotRead)
}

#[cycle(reading)]
#[tactic(auto, unfolding(crate::specs::ExprAt::list_at))]
#[inline(never)]
fn list_of(alloc: Global, depth: u32, bytes: &[u8]) -> Result<(Items<CExpr>, &[u8]), ReadFault>
    ensures { Gives (λ p. (exprs (map tree p.0), p.1.now)) result (spec.list_at (part_at depth) bytes.now) }
{
    let mut all = Items::new(alloc);
    if ends_list(bytes) {
        return Ok((all, bytes));
    }
    let (first, rest) = part(alloc, depth, bytes)?;
    all.push(first)?;
    others_at(alloc, depth, all, bytes.len(), rest)
}

// ---- forms

#[cycle(reading)]
#[inline(never)]
fn unary(alloc: Global, depth: u32, op: CUn, bytes: &[u8]) -> Result<(CExpr, &[u8]), ReadFault>
    ensures { Gives (λ p. (tree p.0, p.1.now)) result (spec.unary (part_at depth) op bytes.now) }
{
    let (a, rest) = part(alloc, depth, bytes)?;
    let e = builders::unary(alloc, op, a)?;
    closed(b")", e, rest)
}

#[cycle(reading)]
#[inline(never)]
fn casting(alloc: Global, depth: u32, bytes: &[u8]) -> Result<(CExpr, &[u8]), ReadFault>
    ensures { Gives (λ p. (tree p.0, p.1.now)) result (spec.casting (part_at depth) bytes.now) }
{
    let (word, rest) = split_word(bytes);
    let ty = scalar_of(word)?;
    let rest = behind(b")", rest)?;
    let (a, rest) = part(alloc, depth, rest)?;
    let e = builders::cast(alloc, ty, a)?;
    closed(b")", e, rest)
}

#[inline(never)]
fn member(alloc: Global, a: CExpr, bytes: &[u8]) -> Result<(CExpr, &[u8]), ReadFault>
    ensures { Gives (λ p. (tree p.0, p.1.now)) result (spec.member (tree a) bytes.now) }
{
    let (x, rest) = name_at(alloc, bytes)?;
    let e = builders::field(alloc, a, x)?;
    closed(b")", e, rest)
}

#[cycle(reading)]
#[inline(never)]
fn conditional(
    alloc: Global,
    depth: u32,
    c: CExpr,
    bytes: &[u8],
) -> Result<(CExpr, &[u8]), ReadFault>
    ensures { Gives (λ p. (tree p.0, p.1.now)) result (spec.conditional (part_at depth) (tree c) bytes.now) }
{
    let (a, rest) = part(alloc, depth, bytes)?;
    let rest = behind(b" : ", rest)?;
    let (b, rest) = part(alloc, depth, rest)?;
    let e = builders::choice(alloc, c, a, b)?;
    closed(b")", e, rest)
}

#[cycle(reading)]
#[inline(never)]
fn binary(
    alloc: Global,
    depth: u32,
    a: CExpr,
    op: CBin,
    bytes: &[u8],
) -> Result<(CExpr, &[u8]), ReadFault>
    ensures { Gives (λ p. (tree p.0, p.1.now)) result (spec.binary (part_at depth) (tree a) op bytes.now) }
{
    let (b, rest) = part(alloc, depth, bytes)?;
    let e = builders::binary(alloc, op, a, b)?;
    closed(b")", e, rest)
}

#[cycle(reading)]
#[inline(never)]
fn operated(alloc: Global, depth: u32, a: CExpr, bytes: &[u8]) -> Result<(CExpr, &[u8]), ReadFault>
    ensures { Gives (λ p. (tree p.0, p.1.now)) result (spec.operated (part_at depth) (tree a) (token bytes.now) (after_token bytes.now)) }
{
    let (token, rest) = split_token(bytes);
    let rest = behind(b" ", rest)?;
    if is_same(token, b"?") {
        return conditional(alloc, depth, a, rest);
    }
    let op = operator_of(token)?;
    binary(alloc, depth, a, op, rest)
}

#[cycle(reading)]
fn tail(alloc: Global, depth: u32, a: CExpr, bytes: &[u8]) -> Result<(CExpr, &[u8]), ReadFault>
    ensures { Gives (λ p. (tree p.0, p.1.now)) result (spec.tail (part_at depth) (tree a) bytes.now) }
{
    match bytes {
        [b'.', rest @ ..] => member(alloc, a, rest),
        [b' ', rest @ ..] => operated(alloc, depth, a, rest),
        _ => Err(ReadFault::NotRead),
    }
}

// ---- compound literals

#[cycle(reading)]
#[inline(never)]
fn array_parts<'a>(
    alloc: Global,
    depth: u32,
    word: &[u8],
    bytes: &'a [u8],
) -> Result<(CExpr, &'a [u8]), ReadFault>
    ensures { Gives (λ p. (tree p.0, p.1.now)) result (spec.array_parts (part_at depth) word.now bytes.now) }
{
    let (x, n) = array_of(alloc, word)?;
    let rest = behind(b"){ { ", bytes)?;
    let (all, rest) = list_of(alloc, depth, rest)?;
    closed(b" } })", builders::array(x, n, all), rest)
}

#[cycle(reading)]
#[tactic(auto, using(crate::proofs::Bytes::name_bytes))]
#[inline(never)]
fn struct_parts<'a>(
    alloc: Global,
    depth: u32,
    word: &[u8],
    bytes: &'a [u8],
) -> Result<(CExpr, &'a [u8]), ReadFault>
    ensures { Gives (λ p. (tree p.0, p.1.now)) result (spec.struct_parts (part_at depth) word.now bytes.now) }
{
    if !is_name(word) {
        return Err(ReadFault::NotRead);
    }
    let rest = behind(b"){ ", bytes)?;
    let (all, rest) = list_of(alloc, depth, rest)?;
    let x = name_of(alloc, word)?;
    closed(b" })", builders::structure(x, all), rest)
}

#[cycle(reading)]
#[inline(never)]
fn compound(alloc: Global, depth: u32, bytes: &[u8]) -> Result<(CExpr, &[u8]), ReadFault>
    ensures { Gives (λ p. (tree p.0, p.1.now)) result (spec.compound (part_at depth) bytes.now) }
{
    let rest = behind(b"struct ", bytes)?;
    let (word, rest) = split_word(rest);
    match strip(b"cp_arr_", word) {
        Some(name) => array_parts(alloc, depth, name, rest),
        None => struct_parts(alloc, depth, word, rest),
    }
}

// ---- behind a bracket

fn at_type(first: u8, rest: &[u8]) -> bool
    ensures { result ≡ spec.at_type first rest.now }
{
    match rest {
        [] => false,
        [second, ..] => first == b'(' && (*second == b'b' || *second == b'i' || *second == b'u'),
    }
}

fn at_struct(first: u8, rest: &[u8]) -> bool
    ensures { result ≡ spec.at_struct first rest.now }
{
    match rest {
        [] => false,
        [second, ..] => first == b'(' && *second == b's',
    }
}

#[cycle(reading)]
fn inside(alloc: Global, depth: u32, bytes: &[u8]) -> Result<(CExpr, &[u8]), ReadFault>
    ensures { Gives (λ p. (tree p.0, p.1.now)) result (spec.inside (part_at depth) bytes.now) }
{
    match bytes {
        [] => Err(ReadFault::NotRead),
        [first, rest @ ..] => match sign_of(*first) {
            Some(op) => unary(alloc, depth, op, rest),
            None => {
                if at_type(*first, rest) {
                    return casting(alloc, depth, rest);
                }
                if at_struct(*first, rest) {
                    return compound(alloc, depth, rest);
                }
                let (a, rest) = part(alloc, depth, bytes)?;
                tail(alloc, depth, a, rest)
            }
        },
    }
}

// ---- words

#[cycle(reading)]
#[tactic(auto, using(crate::proofs::Bytes::ring_name_bytes))]
#[inline(never)]
fn ring<'a>(
    alloc: Global,
    depth: u32,
    name: &[u8],
    bytes: &'a [u8],
) -> Result<(CExpr, &'a [u8]), ReadFault>
    ensures { Gives (λ p. (tree p.0, p.1.now)) result (spec.ring (part_at depth) name.now bytes.now) }
{
    if !is_ring_name(name) {
        return Err(ReadFault::NotRead);
    }
    let Some(at) = strip(b"[", bytes) else {
        let e = cell_of(alloc, name)?;
        return Ok((e, bytes));
    };
    let (a, rest) = part(alloc, depth, at)?;
    let e = builders::element(alloc, name_of(alloc, name)?, a)?;
    closed(b"]", e, rest)
}

#[cycle(reading)]
#[inline(never)]
fn picking<'a>(
    alloc: Global,
    depth: u32,
    word: &[u8],
    bytes: &'a [u8],
) -> Result<(CExpr, &'a [u8]), ReadFault>
    ensures { Gives (λ p. (tree p.0, p.1.now)) result (spec.picking (part_at depth) word.now bytes.now) }
{
    let (x, n) = array_of(alloc, word)?;
    let rest = behind(b"(", bytes)?;
    let (a, rest) = part(alloc, depth, rest)?;
    let rest = behind(b", ", rest)?;
    let (i, rest) = part(alloc, depth, rest)?;
    let e = builders::pick(alloc, x, n, a, i)?;
    closed(b")", e, rest)
}

#[cycle(reading)]
#[inline(never)]
fn not_cell<'a>(
    alloc: Global,
    depth: u32,
    word: &[u8],
    bytes: &'a [u8],
) -> Result<(CExpr, &'a [u8]), ReadFault>
    ensures { Gives (λ p. (tree p.0, p.1.now)) result (spec.by_word (part_at depth) None word.now bytes.now) }
{
    if let Some(name) = strip(b"cp_ix_", word) {
        return picking(alloc, depth, name, bytes);
    }
    let e = named_of(alloc, word)?;
    Ok((e, bytes))
}

#[cycle(reading)]
fn at_word<'a>(
    alloc: Global,
    depth: u32,
    word: &[u8],
    bytes: &'a [u8],
) -> Result<(CExpr, &'a [u8]), ReadFault>
    ensures { Gives (λ p. (tree p.0, p.1.now)) result (spec.at_word (part_at depth) word.now bytes.now) }
{
    match word {
        [] => {
            let rest = behind(b"(", bytes)?;
            inside(alloc, depth, rest)
        }
        [first, ..] => {
            if is_digit(*first) {
                let e = literal_of(word)?;
                return Ok((e, bytes));
            }
            match strip(b"cp_b_", word) {
                Some(name) => ring(alloc, depth, name, bytes),
                None => not_cell(alloc, depth, word, bytes),
            }
        }
    }
}

// Whether a bracket stands where only a word may.
fn is_too_low(depth: u32, bytes: &[u8]) -> bool
    ensures { result ≡ (nat_eq depth 0 && spec_begins (codes "(") bytes.now) }
{
    depth == 0 && begins(b"(", bytes)
}

// The expression of at most this height at the front, and the bytes behind it.
#[cycle(reading)]
#[tactic(auto, using(crate::proofs::Levels::level_laws))]
pub fn expr_of(alloc: Global, depth: u32, bytes: &[u8]) -> Result<(CExpr, &[u8]), ReadFault>
    ensures { Gives (λ p. (tree p.0, p.1.now)) result (expr_at depth bytes.now) }
{
    if is_too_low(depth, bytes) {
        return Err(ReadFault::NotRead);
    }
    let (word, rest) = split_word(bytes);
    at_word(alloc, depth, word, rest)
}

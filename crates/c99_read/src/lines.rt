// The lines of a header.
ghost use Rattle.std.specs.Prelude.{◌≡◌, ◌++◌, ◌∷◌, [], Some, None, codes, decimal, not};
ghost use Rattle.c99_tree.specs.Words.{elem_type};
ghost use Rattle.c99_tree.specs.Spelling.{type_text};
ghost use Rattle.c99_read.specs.Front as front;
ghost use Rattle.c99_read.specs.Front.{all_at, after_all, begins, behind};
ghost use Rattle.c99_read.specs.Gives.{Gives};
ghost use Rattle.c99_read.specs.LineAt as spec;

use crate::fault::ReadFault;
use crate::front;
use crate::front::{is_same, name_at, split_word, strip};
use crate::kinds::type_at;
use crate::words::element_scalar;
use c99_tree::{CDef, CProto, CTy, CVar, scalar_name};
use itoa::Buffer;
use sm_io::{Name, Seq, is_name};
use std::alloc::Global;

// A type, a space and a name.
#[tactic(auto, unfolding(crate::specs::LineAt::var_at))]
fn var_at(alloc: Global, bytes: &[u8]) -> Result<(CVar, &[u8]), ReadFault>
    ensures { Gives (λ p. (p.0, p.1.now)) result (spec.var_at bytes.now) }
{
    let (ty, rest) = type_at(alloc, bytes)?;
    let rest = front::behind(b" ", rest)?;
    let (name, rest) = name_at(alloc, rest)?;
    Ok((CVar { name, ty }, rest))
}

// ---- structs

#[tactic(auto, unfolding(crate::specs::LineAt::field_at))]
fn field_at(alloc: Global, bytes: &[u8]) -> Result<(CVar, &[u8]), ReadFault>
    ensures { Gives (λ p. (p.0, p.1.now)) result (spec.field_at bytes.now) }
{
    let rest = front::behind(b" ", bytes)?;
    let (x, rest) = var_at(alloc, rest)?;
    let rest = front::behind(b";", rest)?;
    Ok((x, rest))
}

fn is_field(bytes: &[u8]) -> bool
    ensures { result ≡ spec.is_field bytes.now }
{
    !front::begins(b" }", bytes)
}

fn fields_at(alloc: Global, bytes: &[u8]) -> Result<(Seq<CVar>, &[u8]), ReadFault>
    ensures { Gives (λ p. (p.0, p.1.now)) result (all_at spec.is_field spec.field_at bytes.now) }
{
    let mut all = Seq::new(alloc);
    let mut rest = bytes;
    for i in 0..bytes.len() {
        if !is_field(rest) {
            return Ok((all, rest));
        }
        let (x, after) = field_at(alloc, rest)?;
        all.push(x)?;
        rest = after;
    }
    Err(ReadFault::NotRead)
}

#[tactic(auto, using(crate::proofs::Bytes::name_bytes))]
fn struct_def_at<'a>(
    alloc: Global,
    word: &[u8],
    bytes: &'a [u8],
) -> Result<(CDef, &'a [u8]), ReadFault>
    ensures { Gives (λ p. (p.0, p.1.now)) result (spec.struct_def_at word.now bytes.now) }
{
    if !is_name(word) {
        return Err(ReadFault::NotRead);
    }
    let rest = front::behind(b" {", bytes)?;
    let (fields, rest) = fields_at(alloc, rest)?;
    let rest = front::behind(b" };\n", rest)?;
    let name = front::name_of(alloc, word)?;
    Ok((CDef::Struct { name, fields }, rest))
}

// The type of an array's elements.
pub fn behind_element<'a>(elem: &Name, bytes: &'a [u8]) -> Result<&'a [u8], ReadFault>
    ensures { Gives (λ r. r.now) result (behind (type_text (elem_type elem.now)) bytes.now) }
{
    match element_scalar(elem.bytes()) {
        Some(t) => front::behind(scalar_name(t), bytes),
        None => behind_struct(elem, bytes),
    }
}

pub fn behind_struct<'a>(name: &Name, bytes: &'a [u8]) -> Result<&'a [u8], ReadFault>
    ensures { Gives (λ r. r.now) result (behind (codes "struct " ++ name.now) bytes.now) }
{
    let rest = front::behind(b"struct ", bytes)?;
    front::behind(name.bytes(), rest)
}

pub fn behind_number(n: u32, bytes: &[u8]) -> Result<&[u8], ReadFault>
    ensures { Gives (λ r. r.now) result (behind (decimal n) bytes.now) }
{
    let mut buffer = Buffer::new();
    front::behind(buffer.format(n).as_bytes(), bytes)
}

fn array_def_at<'a>(
    alloc: Global,
    word: &[u8],
    bytes: &'a [u8],
) -> Result<(CDef, &'a [u8]), ReadFault>
    ensures { Gives (λ p. (p.0, p.1.now)) result (spec.array_def_at word.now bytes.now) }
{
    let (elem, n) = front::array_of(alloc, word)?;
    let rest = front::behind(b" { ", bytes)?;
    let rest = behind_element(&elem, rest)?;
    let rest = front::behind(b" e[", rest)?;
    let rest = behind_number(n, rest)?;
    let rest = front::behind(b"]; };\n", rest)?;
    Ok((CDef::Array { elem, n }, rest))
}

#[tactic(auto, unfolding(crate::specs::LineAt::def_at))]
fn def_at(alloc: Global, bytes: &[u8]) -> Result<(CDef, &[u8]), ReadFault>
    ensures { Gives (λ p. (p.0, p.1.now)) result (spec.def_at bytes.now) }
{
    let rest = front::behind(b"struct ", bytes)?;
    let (word, rest) = split_word(rest);
    match strip(b"cp_arr_", word) {
        Some(name) => array_def_at(alloc, name, rest),
        None => struct_def_at(alloc, word, rest),
    }
}

pub fn defs_at(alloc: Global, bytes: &[u8]) -> Result<(Seq<CDef>, &[u8]), ReadFault>
    ensures { Gives (λ p. (p.0, p.1.now)) result (all_at (begins (codes "struct ")) spec.def_at bytes.now) }
{
    let mut all = Seq::new(alloc);
    let mut rest = bytes;
    for i in 0..bytes.len() {
        if !front::begins(b"struct ", rest) {
            return Ok((all, rest));
        }
        let (x, after) = def_at(alloc, rest)?;
        all.push(x)?;
        rest = after;
    }
    Err(ReadFault::NotRead)
}

// ---- externs

#[tactic(auto, unfolding(crate::specs::LineAt::extern_at))]
fn extern_at(alloc: Global, bytes: &[u8]) -> Result<(CVar, &[u8]), ReadFault>
    ensures { Gives (λ p. (p.0, p.1.now)) result (spec.extern_at bytes.now) }
{
    let rest = front::behind(b"extern ", bytes)?;
    let (x, rest) = var_at(alloc, rest)?;
    let rest = front::behind(b";\n", rest)?;
    Ok((x, rest))
}

pub fn externs_at(alloc: Global, bytes: &[u8]) -> Result<(Seq<CVar>, &[u8]), ReadFault>
    ensures { Gives (λ p. (p.0, p.1.now)) result (all_at (begins (codes "extern ")) spec.extern_at bytes.now) }
{
    let mut all = Seq::new(alloc);
    let mut rest = bytes;
    for i in 0..bytes.len() {
        if !front::begins(b"extern ", rest) {
            return Ok((all, rest));
        }
        let (x, after) = extern_at(alloc, rest)?;
        all.push(x)?;
        rest = after;
    }
    Err(ReadFault::NotRead)
}

// ---- handlers

#[tactic(auto, unfolding(crate::specs::LineAt::param_at))]
fn param_at(alloc: Global, bytes: &[u8]) -> Result<(CTy, &[u8]), ReadFault>
    ensures { Gives (λ p. (p.0, p.1.now)) result (spec.param_at bytes.now) }
{
    let rest = front::behind(b", ", bytes)?;
    type_at(alloc, rest)
}

// Further parameters, after those that were read.
fn more_params_at(alloc: Global, first: CTy, bytes: &[u8]) -> Result<(Seq<CTy>, &[u8]), ReadFault>
    ensures { Gives (λ p. (p.0, p.1.now)) result (after_all (first ∷ []) (all_at (begins (codes ", ")) spec.param_at bytes.now)) }
{
    let mut all = Seq::new(alloc);
    all.push(first)?;
    let mut rest = bytes;
    for i in 0..bytes.len() {
        if !front::begins(b", ", rest) {
            return Ok((all, rest));
        }
        let (x, after) = param_at(alloc, rest)?;
        all.push(x)?;
        rest = after;
    }
    Err(ReadFault::NotRead)
}

#[tactic(auto, unfolding(crate::specs::LineAt::params_at))]
fn params_at(alloc: Global, bytes: &[u8]) -> Result<(Seq<CTy>, &[u8]), ReadFault>
    ensures { Gives (λ p. (p.0, p.1.now)) result (spec.params_at bytes.now) }
{
    if let Some(rest) = strip(b"void", bytes) {
        return Ok((Seq::new(alloc), rest));
    }
    let (first, rest) = type_at(alloc, bytes)?;
    more_params_at(alloc, first, rest)
}

#[tactic(auto, unfolding(crate::specs::LineAt::handler_at))]
fn handler_at(alloc: Global, bytes: &[u8]) -> Result<(CProto, &[u8]), ReadFault>
    ensures { Gives (λ p. (p.0, p.1.now)) result (spec.handler_at bytes.now) }
{
    let rest = front::behind(b"void ", bytes)?;
    let (name, rest) = name_at(alloc, rest)?;
    let rest = front::behind(b"(", rest)?;
    let (params, rest) = params_at(alloc, rest)?;
    let rest = front::behind(b");\n", rest)?;
    Ok((CProto { name, params }, rest))
}

// Whether a line of a function stands here that isn't `step`.
fn is_handler(bytes: &[u8]) -> bool
    ensures { result ≡ spec.is_handler bytes.now }
{
    match strip(b"void ", bytes) {
        None => false,
        Some(rest) => {
            let (word, after) = split_word(rest);
            !is_same(word, b"step")
        }
    }
}

pub fn handlers_at(alloc: Global, bytes: &[u8]) -> Result<(Seq<CProto>, &[u8]), ReadFault>
    ensures { Gives (λ p. (p.0, p.1.now)) result (all_at spec.is_handler spec.handler_at bytes.now) }
{
    let mut all = Seq::new(alloc);
    let mut rest = bytes;
    for i in 0..bytes.len() {
        if !is_handler(rest) {
            return Ok((all, rest));
        }
        let (x, after) = handler_at(alloc, rest)?;
        all.push(x)?;
        rest = after;
    }
    Err(ReadFault::NotRead)
}

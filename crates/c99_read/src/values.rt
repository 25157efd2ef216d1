// The words of values by their types, behind words that were read.
ghost use Rattle.std.specs.Prelude.{◌≡◌, [], Some, is_some};
ghost use Rattle.c99_tree.specs.Values.{shape_within, shapes_of_fields, shape_of};
ghost use Rattle.c99_tree.specs.Words.{elem_type};
ghost use Rattle.c99_tree.specs.declared.types.CTy.TheVariants as ty;
ghost use Rattle.c99_read.specs.Front.{after_all};
ghost use Rattle.c99_read.specs.Gives.{Gives};
ghost use Rattle.c99_read.specs.LineAt.{init_at};
ghost use Rattle.c99_read.specs.WordsAt.{all_shaped, braced_at, shaped_at, times_shaped};

use crate::constants::scalar_at;
use crate::fault::ReadFault;
use crate::front::behind;
use c99_tree::{CDef, CScalar, CTy, CVar, MOST_HEIGHT, element_scalar, fields_of};
use sm_io::{Name, Seq};
use std::alloc::Global;

// ---- whether a type has a shape

#[cycle(shapes)]
fn has_shape(depth: usize, types: &[CDef], t: &CTy) -> bool
    ensures { result ≡ is_some (shape_within depth types.now t.now) }
{
    match t {
        CTy::Scalar(_) => depth > 0,
        CTy::Struct(x) => has_struct_shape(depth, types, x),
        CTy::Array(x, _) => has_element_shape(depth, types, x),
    }
}

#[cycle(shapes)]
fn has_element_shape(depth: usize, types: &[CDef], x: &Name) -> bool
    ensures { result ≡ is_some (shape_within depth types.now (elem_type x.now)) }
{
    match element_scalar(x) {
        Some(_) => depth > 0,
        None => has_struct_shape(depth, types, x),
    }
}

#[cycle(shapes)]
fn has_struct_shape(depth: usize, types: &[CDef], x: &Name) -> bool
    ensures { result ≡ is_some (shape_within depth types.now (ty.Struct x.now)) }
{
    let Some(inner) = depth.checked_sub(1) else {
        return false;
    };
    match fields_of(types, x) {
        Some(fields) => have_shapes(inner, types, fields),
        None => false,
    }
}

#[cycle(shapes)]
fn have_shapes(depth: usize, types: &[CDef], fields: &[CVar]) -> bool
    ensures { result ≡ is_some (shapes_of_fields (shape_within depth types.now) fields.now) }
{
    for field in fields {
        if !has_shape(depth, types, &field.ty) {
            return false;
        }
    }
    true
}

// ---- values

fn scalar_words<'a>(
    depth: usize,
    types: &[CDef],
    t: CScalar,
    most: u32,
    given: Seq<u64>,
    bytes: &'a [u8],
) -> Result<(Seq<u64>, &'a [u8]), ReadFault>
    ensures { Gives (λ p. (p.0, p.1.now)) result (after_all given (shaped_at most (shape_within depth types.now (ty.Scalar t)) bytes.now)) }
{
    if depth == 0 {
        return Err(ReadFault::NotRead);
    }
    let mut all = given;
    let (w, rest) = scalar_at(most, t, bytes)?;
    all.push(w)?;
    Ok((all, rest))
}

#[cycle(reading_values)]
fn value_words<'a>(
    depth: usize,
    types: &[CDef],
    t: &CTy,
    most: u32,
    given: Seq<u64>,
    bytes: &'a [u8],
) -> Result<(Seq<u64>, &'a [u8]), ReadFault>
    ensures { Gives (λ p. (p.0, p.1.now)) result (after_all given (shaped_at most (shape_within depth types.now t.now) bytes.now)) }
{
    match t {
        CTy::Scalar(s) => scalar_words(depth, types, *s, most, given, bytes),
        CTy::Struct(x) => struct_words(depth, types, x, most, given, bytes),
        CTy::Array(x, n) => array_words(depth, types, x, *n, most, given, bytes),
    }
}

#[cycle(reading_values)]
fn element_words<'a>(
    depth: usize,
    types: &[CDef],
    x: &Name,
    most: u32,
    given: Seq<u64>,
    bytes: &'a [u8],
) -> Result<(Seq<u64>, &'a [u8]), ReadFault>
    ensures { Gives (λ p. (p.0, p.1.now)) result (after_all given (shaped_at most (shape_within depth types.now (elem_type x.now)) bytes.now)) }
{
    match element_scalar(x) {
        Some(s) => scalar_words(depth, types, s, most, given, bytes),
        None => struct_words(depth, types, x, most, given, bytes),
    }
}

#[cycle(reading_values)]
fn struct_words<'a>(
    depth: usize,
    types: &[CDef],
    x: &Name,
    most: u32,
    given: Seq<u64>,
    bytes: &'a [u8],
) -> Result<(Seq<u64>, &'a [u8]), ReadFault>
    ensures { Gives (λ p. (p.0, p.1.now)) result (after_all given (shaped_at most (shape_within depth types.now (ty.Struct x.now)) bytes.now)) }
{
    let Some(inner) = depth.checked_sub(1) else {
        return Err(ReadFault::NotRead);
    };
    let Some(less) = most.checked_sub(1) else {
        return Err(ReadFault::NotRead);
    };
    match fields_of(types, x) {
        Some(fields) => braced_words(inner, types, fields, less, given, bytes),
        None => Err(ReadFault::NotRead),
    }
}

#[cycle(reading_values)]
fn braced_words<'a>(
    depth: usize,
    types: &[CDef],
    fields: &[CVar],
    most: u32,
    given: Seq<u64>,
    bytes: &'a [u8],
) -> Result<(Seq<u64>, &'a [u8]), ReadFault>
    ensures { Gives (λ p. (p.0, p.1.now)) result (after_all given (braced_at most (shapes_of_fields (shape_within depth types.now) fields.now) bytes.now)) }
{
    let rest = behind(b"{ ", bytes)?;
    let (all, rest) = fields_words(depth, types, fields, most, given, rest)?;
    let rest = behind(b" }", rest)?;
    Ok((all, rest))
}

#[cycle(reading_values)]
fn fields_words<'a>(
    depth: usize,
    types: &[CDef],
    fields: &[CVar],
    most: u32,
    given: Seq<u64>,
    bytes: &'a [u8],
) -> Result<(Seq<u64>, &'a [u8]), ReadFault>
    ensures { Gives (λ p. (p.0, p.1.now)) result (after_all given (all_shaped most (shapes_of_fields (shape_within depth types.now) fields.now) [] bytes.now)) }
{
    let mut all = given;
    let mut rest = bytes;
    let mut before: &[u8] = b"";
    for field in fields {
        let start = behind(before, rest)?;
        let (more, after) = value_words(depth, types, &field.ty, most, all, start)?;
        all = more;
        rest = after;
        before = b", ";
    }
    Ok((all, rest))
}

#[cycle(reading_values)]
fn array_words<'a>(
    depth: usize,
    types: &[CDef],
    x: &Name,
    n: u32,
    most: u32,
    given: Seq<u64>,
    bytes: &'a [u8],
) -> Result<(Seq<u64>, &'a [u8]), ReadFault>
    ensures { Gives (λ p. (p.0, p.1.now)) result (after_all given (shaped_at most (shape_within depth types.now (ty.Array x.now n)) bytes.now)) }
{
    let Some(less) = most.checked_sub(2) else {
        return Err(ReadFault::NotRead);
    };
    let rest = behind(b"{ { ", bytes)?;
    let (all, rest) = elements_words(depth, types, x, n, less, given, rest)?;
    let rest = behind(b" } }", rest)?;
    Ok((all, rest))
}

#[cycle(reading_values)]
fn elements_words<'a>(
    depth: usize,
    types: &[CDef],
    x: &Name,
    n: u32,
    most: u32,
    given: Seq<u64>,
    bytes: &'a [u8],
) -> Result<(Seq<u64>, &'a [u8]), ReadFault>
    ensures { Gives (λ p. (p.0, p.1.now)) result (after_all given (times_shaped most n (shape_within depth types.now (elem_type x.now)) [] bytes.now)) }
{
    if n == 0 {
        if !has_element_shape(depth, types, x) {
            return Err(ReadFault::NotRead);
        }
        return Ok((given, bytes));
    }
    let mut all = given;
    let mut rest = bytes;
    let mut before: &[u8] = b"";
    for i in 0..n {
        let start = behind(before, rest)?;
        let (more, after) = element_words(depth, types, x, most, all, start)?;
        all = more;
        rest = after;
        before = b", ";
    }
    Ok((all, rest))
}

// The words of so many constants of a type.
#[tactic(auto, unfolding(crate::specs::LineAt::init_at))]
pub fn init_at<'a>(
    alloc: Global,
    types: &[CDef],
    t: &CTy,
    n: u32,
    bytes: &'a [u8],
) -> Result<(Seq<u64>, &'a [u8]), ReadFault>
    ensures { Gives (λ p. (p.0, p.1.now)) result (init_at types.now t.now n bytes.now) }
{
    let depth = types.len() + 1;
    if n == 0 {
        if !has_shape(depth, types, t) {
            return Err(ReadFault::NotRead);
        }
        return Ok((Seq::new(alloc), bytes));
    }
    let mut all = Seq::new(alloc);
    let mut rest = bytes;
    let mut before: &[u8] = b"";
    for i in 0..n {
        let start = behind(before, rest)?;
        let (more, after) = value_words(depth, types, t, MOST_HEIGHT, all, start)?;
        all = more;
        rest = after;
        before = b", ";
    }
    Ok((all, rest))
}

// Whether a ring has its constants.
ghost use Rattle.std.specs.Prelude.{◌≡◌, IsSome, nat_le, Some};
ghost use Rattle.c99_tree.specs.Lookup.{Lends};
ghost use Rattle.c99_tree.specs.Values as values;
ghost use Rattle.c99_tree.specs.Spelling as spelling;
ghost use Rattle.c99_tree.specs.Rules as rules;
ghost use Rattle.c99_tree.specs.Words as words;
ghost use Rattle.c99_tree.specs.Values.{is_word, scalar, shape_within, shape_of, shapes_of_fields};
ghost use Rattle.c99_tree.specs.Filling.{left_of, left_of_all, left_of_times};
ghost use Rattle.c99_tree.specs.declared.types.CTy.TheVariants as ty;

use c99_tree::{CDef, CRing, CScalar, CTy, CVar, MOST_HEIGHT, element_scalar, fields_of};
use sm_io::Name;

// Whether the word is one of the type.
fn is_word(t: CScalar, w: u64) -> bool
    ensures { result ≡ is_word t w }
{
    match t {
        CScalar::Bool => w < 2,
        CScalar::I8 => w < 0x80 || 0xffff_ffff_ffff_ff80 <= w,
        CScalar::I16 => w < 0x8000 || 0xffff_ffff_ffff_8000 <= w,
        CScalar::I32 => w < 0x8000_0000 || 0xffff_ffff_8000_0000 <= w,
        CScalar::I64 => true,
        CScalar::U8 => w < 0x100,
        CScalar::U16 => w < 0x1_0000,
        CScalar::U32 => w < 0x1_0000_0000,
        CScalar::U64 => true,
    }
}

// The height of a number's constant: a negative one is an expression of height 2.
fn is_low_number(t: CScalar, w: u64, most: u32) -> bool
    ensures { result ≡ nat_le (spelling.number_height (values.number_of_word t w).n) most }
{
    match t {
        CScalar::I8 | CScalar::I16 | CScalar::I32 | CScalar::I64 => {
            w < 0x8000_0000_0000_0000 || 2 <= most
        }
        CScalar::Bool | CScalar::U8 | CScalar::U16 | CScalar::U32 | CScalar::U64 => true,
    }
}

fn left_of_scalar<'a>(t: CScalar, most: u32, given: &'a [u64]) -> Option<&'a [u64]>
    ensures { Lends result (left_of most (Some (scalar t)) given.now) }
{
    let [w, rest @ ..] = given else {
        return None;
    };
    if !is_word(t, *w) {
        return None;
    }
    if !is_low_number(t, *w, most) {
        return None;
    }
    Some(rest)
}

// The words that one value of a type leaves, where it is filled and no higher than this.
#[cycle(filling)]
fn left_of<'a>(
    depth: usize,
    types: &[CDef],
    ty: &CTy,
    most: u32,
    given: &'a [u64],
) -> Option<&'a [u64]>
    requires { IsSome (shape_within depth types.now ty.now) }
    ensures { Lends result (left_of most (shape_within depth types.now ty.now) given.now) }
{
    match ty {
        CTy::Scalar(t) => left_of_scalar(*t, most, given),
        CTy::Struct(x) => left_of_struct(depth, types, x, most, given),
        CTy::Array(x, n) => left_of_array(depth, types, x, *n, most, given),
    }
}

// The words that one element of an array leaves.
#[cycle(filling)]
fn left_of_element<'a>(
    depth: usize,
    types: &[CDef],
    x: &Name,
    most: u32,
    given: &'a [u64],
) -> Option<&'a [u64]>
    requires { IsSome (shape_within depth types.now (words.elem_type x.now)) }
    ensures { Lends result (left_of most (shape_within depth types.now (words.elem_type x.now)) given.now) }
{
    match element_scalar(x) {
        Some(t) => left_of_scalar(t, most, given),
        None => left_of_struct(depth, types, x, most, given),
    }
}

// The words that a struct leaves; its braces are one level.
#[cycle(filling)]
fn left_of_struct<'a>(
    depth: usize,
    types: &[CDef],
    x: &Name,
    most: u32,
    given: &'a [u64],
) -> Option<&'a [u64]>
    requires { IsSome (shape_within depth types.now (ty.Struct x.now)) }
    ensures { Lends result (left_of most (shape_within depth types.now (ty.Struct x.now)) given.now) }
{
    let Some(inner) = depth.checked_sub(1) else {
        return None;
    };
    let Some(less) = most.checked_sub(1) else {
        return None;
    };
    match fields_of(types, x) {
        Some(fields) => left_of_fields(inner, types, fields, less, given),
        None => None,
    }
}

// The words that the members of a struct leave.
#[cycle(filling)]
fn left_of_fields<'a>(
    depth: usize,
    types: &[CDef],
    fields: &[CVar],
    most: u32,
    given: &'a [u64],
) -> Option<&'a [u64]>
    requires { IsSome (shapes_of_fields (shape_within depth types.now) fields.now) }
    ensures { Lends result (left_of_all most (shapes_of_fields (shape_within depth types.now) fields.now) given.now) }
{
    let mut left = given;
    for field in fields {
        match left_of(depth, types, &field.ty, most, left) {
            Some(rest) => {
                left = rest;
            }
            None => {
                return None;
            }
        }
    }
    Some(left)
}

// The words that an array leaves; its braces are two levels.
#[cycle(filling)]
fn left_of_array<'a>(
    depth: usize,
    types: &[CDef],
    x: &Name,
    n: u32,
    most: u32,
    given: &'a [u64],
) -> Option<&'a [u64]>
    requires { IsSome (shape_within depth types.now (ty.Array x.now n)) }
    ensures { Lends result (left_of most (shape_within depth types.now (ty.Array x.now n)) given.now) }
{
    let Some(less) = most.checked_sub(2) else {
        return None;
    };
    left_of_elements(depth, types, x, n, less, given)
}

// The words that n elements of an array leave.
#[cycle(filling)]
fn left_of_elements<'a>(
    depth: usize,
    types: &[CDef],
    x: &Name,
    n: u32,
    most: u32,
    given: &'a [u64],
) -> Option<&'a [u64]>
    requires { IsSome (shape_within depth types.now (words.elem_type x.now)) }
    ensures { Lends result (left_of_times most n (shape_within depth types.now (words.elem_type x.now)) given.now) }
{
    let mut left = given;
    for i in 0..n {
        match left_of_element(depth, types, x, most, left) {
            Some(rest) => {
                left = rest;
            }
            None => {
                return None;
            }
        }
    }
    Some(left)
}

// Whether a ring has its constants, none of them higher than this.
pub fn is_filled(types: &[CDef], r: &CRing) -> bool
    requires { IsSome (shape_of types.now r.now.ty) }
    ensures { result ≡ rules.is_nothing_left (left_of_times 8192 r.now.len (shape_of types.now r.now.ty) r.now.init) }
{
    match left_of_values(types, &r.ty, r.len, r.init.as_slice()) {
        Some(rest) => rest.is_empty(),
        None => false,
    }
}

// The words that the values of a ring leave.
fn left_of_values<'a>(types: &[CDef], ty: &CTy, len: u32, given: &'a [u64]) -> Option<&'a [u64]>
    requires { IsSome (shape_of types.now ty.now) }
    ensures { Lends result (left_of_times 8192 len (shape_of types.now ty.now) given.now) }
{
    let mut left = given;
    for i in 0..len {
        match left_of(types.len() + 1, types, ty, MOST_HEIGHT, left) {
            Some(rest) => {
                left = rest;
            }
            None => {
                return None;
            }
        }
    }
    Some(left)
}

// The initialisers of rings.
ghost use Rattle.std.specs.Prelude.{◌≡◌, ◌++◌, [], List, Some, map, decimal, pos};
ghost use Rattle.c99_tree.specs.Words.{elem_type};
ghost use Rattle.c99_tree.specs.Values.{Value, values, scalar, filled, number_of_word, first_values};
ghost use Rattle.c99_tree.specs.Spelling as spelling;
ghost use Rattle.c99_tree.specs.declared.types.CTy.TheVariants as ty;
ghost use Rattle.c99_print.specs.Given.{value_in, members_in, values_in, PrintsGiven};
ghost use Rattle.sm_print.specs.Prints.{Prints};

use c99_tree::{CDef, CRing, CScalar, CTy, CVar, element_scalar, fields_of};
use sm_io::{Name, Sink};
use sm_print::Printer;

// A signed number. The least one has no literal, so a negative one is -w less 1, whose word is that of w turned over.
fn signed<K: Sink>(out: &mut Printer<'_, K>, tail: &[u8], w: u64)
    ensures { Prints K.taken K.faults out.old (spelling.signed_constant tail.now (number_of_word CScalar.I64 w).n) out.new }
{
    if w < 0x8000_0000_0000_0000 {
        out.number(w);
        out.put(tail);
    } else {
        out.put(b"((-");
        out.number(u64::MAX - w);
        out.put(tail);
        out.put(b") - 1");
        out.put(tail);
        out.put(b")");
    }
}

fn unsigned<K: Sink>(out: &mut Printer<'_, K>, tail: &[u8], w: u64)
    ensures { Prints K.taken K.faults out.old (decimal w ++ tail.now) out.new }
{
    out.number(w);
    out.put(tail);
}

fn truth<K: Sink>(out: &mut Printer<'_, K>, w: u64)
    ensures { Prints K.taken K.faults out.old (spelling.bool_constant (pos w)) out.new }
{
    if w == 0 {
        out.put(b"false");
    } else {
        out.put(b"true");
    }
}

// The number that a word of a type stands for.
fn number_constant<K: Sink>(out: &mut Printer<'_, K>, t: CScalar, w: u64)
    ensures { Prints K.taken K.faults out.old (spelling.number_constant t (number_of_word t w).n) out.new }
{
    match t {
        CScalar::Bool => truth(out, w),
        CScalar::I8 | CScalar::I16 | CScalar::I32 => signed(out, b"", w),
        CScalar::I64 => signed(out, b"LL", w),
        CScalar::U8 | CScalar::U16 | CScalar::U32 => unsigned(out, b"U", w),
        CScalar::U64 => unsigned(out, b"ULL", w),
    }
}

// The constant of a scalar, where the first word is one of its type. The words behind it are left.
fn scalar<'a, K: Sink>(out: &mut Printer<'_, K>, t: CScalar, given: &'a [u64]) -> &'a [u64]
    ensures { PrintsGiven K.taken K.faults out.old (filled (scalar t) given.now) spelling.constant out.new result.now }
{
    let [w, rest @ ..] = given else {
        return given;
    };
    number_constant(out, t, *w);
    rest
}

// The constant of the value that the first words give. The words behind them are left.
#[cycle(filling)]
fn constant<'a, K: Sink>(
    out: &mut Printer<'_, K>,
    depth: usize,
    types: &[CDef],
    ty: &CTy,
    given: &'a [u64],
) -> &'a [u64]
    ensures { PrintsGiven K.taken K.faults out.old (value_in depth types.now ty.now given.now) spelling.constant out.new result.now }
{
    match ty {
        CTy::Scalar(t) => scalar(out, *t, given),
        CTy::Struct(x) => structure(out, depth, types, x, given),
        CTy::Array(x, n) => array(out, depth, types, x, *n, given),
    }
}

// An element of an array.
#[cycle(filling)]
fn element<'a, K: Sink>(
    out: &mut Printer<'_, K>,
    depth: usize,
    types: &[CDef],
    x: &Name,
    given: &'a [u64],
) -> &'a [u64]
    ensures { PrintsGiven K.taken K.faults out.old (value_in depth types.now (elem_type x.now) given.now) spelling.constant out.new result.now }
{
    match element_scalar(x) {
        Some(t) => scalar(out, t, given),
        None => structure(out, depth, types, x, given),
    }
}

// A struct in its braces.
#[cycle(filling)]
fn structure<'a, K: Sink>(
    out: &mut Printer<'_, K>,
    depth: usize,
    types: &[CDef],
    x: &Name,
    given: &'a [u64],
) -> &'a [u64]
    ensures { PrintsGiven K.taken K.faults out.old (value_in depth types.now (ty.Struct x.now) given.now) spelling.constant out.new result.now }
{
    let Some(inner) = depth.checked_sub(1) else {
        return given;
    };
    match fields_of(types, x) {
        Some(fields) => {
            out.put(b"{ ");
            let rest = members(out, inner, types, fields, given);
            out.put(b" }");
            rest
        }
        None => given,
    }
}

// The members of a struct.
#[cycle(filling)]
fn members<'a, K: Sink>(
    out: &mut Printer<'_, K>,
    depth: usize,
    types: &[CDef],
    fields: &[CVar],
    given: &'a [u64],
) -> &'a [u64]
    ensures { PrintsGiven K.taken K.faults out.old (members_in depth types.now fields.now given.now) (spelling.constants []) out.new result.now }
{
    let mut before: &[u8] = b"";
    let mut left = given;
    for field in fields {
        out.put(before);
        let rest = constant(out, depth, types, &field.ty, left);
        left = rest;
        before = b", ";
    }
    left
}

// An array in the two pairs of braces of its struct.
#[cycle(filling)]
fn array<'a, K: Sink>(
    out: &mut Printer<'_, K>,
    depth: usize,
    types: &[CDef],
    x: &Name,
    n: u32,
    given: &'a [u64],
) -> &'a [u64]
    ensures { PrintsGiven K.taken K.faults out.old (value_in depth types.now (ty.Array x.now n) given.now) spelling.constant out.new result.now }
{
    out.put(b"{ { ");
    let rest = elements(out, depth, types, x, n, given);
    out.put(b" } }");
    rest
}

// The elements of an array.
#[cycle(filling)]
fn elements<'a, K: Sink>(
    out: &mut Printer<'_, K>,
    depth: usize,
    types: &[CDef],
    x: &Name,
    n: u32,
    given: &'a [u64],
) -> &'a [u64]
    ensures { let text = λ (vs : List Value). spelling.constants [] (values vs) in
        PrintsGiven K.taken K.faults out.old (values_in n depth types.now (elem_type x.now) given.now) text out.new result.now }
{
    let mut before: &[u8] = b"";
    let mut left = given;
    for i in 0..n {
        out.put(before);
        let rest = element(out, depth, types, x, left);
        left = rest;
        before = b", ";
    }
    left
}

// The first values of a ring.
pub fn first_values<K: Sink>(out: &mut Printer<'_, K>, types: &[CDef], r: &CRing)
    ensures { (vs : List Value) → first_values types.now r.now ≡ Some vs →
        Prints K.taken K.faults out.old (spelling.with_commas (map spelling.constant vs)) out.new }
{
    let mut before: &[u8] = b"";
    let mut left = r.init.as_slice();
    for i in 0..r.len {
        out.put(before);
        let rest = constant(out, types.len() + 1, types, &r.ty, left);
        left = rest;
        before = b", ";
    }
}

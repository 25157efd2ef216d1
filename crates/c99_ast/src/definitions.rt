// What is asked of type definitions, and of names together.
ghost use Rattle.std.specs.Prelude.{◌≡◌, map, nat_eq, ◌&&◌, ◌++◌, [], ◌∷◌};
ghost use Rattle.std.specs.List.{list_any, list_all};
ghost use Rattle.c99_tree.specs.Words as words;
ghost use Rattle.c99_tree.specs.Lookup as lookup;
ghost use Rattle.c99_tree.specs.Lookup.{structs_in, arrays_in};
ghost use Rattle.c99_tree.specs.WellFormed as spec;

use c99_tree::{
    CDef, CProto, CVar, Named, element_scalar, has_array, has_struct, is_defined, is_same,
};
use sm_io::Name;

fn has_struct_name(types: &[CDef], x: &Name) -> bool
    ensures { result ≡ list_any (words.is_same x.now) (map (λ s. s.0) (structs_in types.now)) }
{
    has_struct(types, x)
}

// No two structs of one name.
pub fn are_distinct_structs(types: &[CDef]) -> bool
    ensures { result ≡ spec.are_distinct words.is_same (map (λ s. s.0) (structs_in types.now)) }
{
    let mut left = types;
    while let [def, rest @ ..] = left {
        if let CDef::Struct { name, fields: _ } = def {
            if has_struct_name(rest, name) {
                return false;
            }
        }
        left = rest;
    }
    true
}

// No two array types of one word and length.
pub fn are_distinct_arrays(types: &[CDef]) -> bool
    ensures { result ≡ spec.are_distinct (λ a b. words.is_same a.0 b.0 && nat_eq a.1 b.1) (arrays_in types.now) }
{
    let mut left = types;
    while let [def, rest @ ..] = left {
        if let CDef::Array { elem, n } = def {
            if has_array(rest, elem, *n) {
                return false;
            }
        }
        left = rest;
    }
    true
}

// Whether something of this name stands here.
fn has_name<T: Named>(all: &[T], x: &Name) -> bool
    ensures { result ≡ list_any (words.is_same x.now) (map T.named all.now) }
{
    for y in all {
        if is_same(x, y.name()) {
            return true;
        }
    }
    false
}

// No two of one name.
pub fn are_distinct_names<T: Named>(all: &[T]) -> bool
    ensures { result ≡ spec.are_distinct words.is_same (map T.named all.now) }
{
    let mut left = all;
    while let [y, rest @ ..] = left {
        if has_name(rest, y.name()) {
            return false;
        }
        left = rest;
    }
    true
}

// The externs and the handlers have one space of names.
pub fn are_distinct_outside(externs: &[CVar], handlers: &[CProto]) -> bool
    ensures { result ≡ spec.are_distinct words.is_same (map (λ x. x.name) externs.now ++ map (λ h. h.name) handlers.now) }
{
    let mut left = externs;
    while let [x, rest @ ..] = left {
        if has_name(rest, &x.name) {
            return false;
        }
        if has_name(handlers, &x.name) {
            return false;
        }
        left = rest;
    }
    are_distinct_names(handlers)
}

pub fn are_distinct_fields(def: &CDef) -> bool
    ensures { result ≡ spec.are_distinct_fields def.now }
{
    match def {
        CDef::Struct { name: _, fields } => are_distinct_names(fields.as_slice()),
        CDef::Array { elem: _, n: _ } => true,
    }
}

pub fn has_few_fields(def: &CDef) -> bool
    ensures { result ≡ spec.has_few_fields def.now }
{
    match def {
        CDef::Struct { name: _, fields } => {
            let n = fields.as_slice().len();
            1 <= n && n <= 64
        }
        CDef::Array { elem: _, n: _ } => true,
    }
}

pub fn has_length(def: &CDef) -> bool
    ensures { result ≡ list_all spec.has_array_length (arrays_in (def.now ∷ [])) }
{
    match def {
        CDef::Struct { name: _, fields: _ } => true,
        CDef::Array { elem: _, n } => 1 <= *n && *n <= 1024,
    }
}

fn is_built_from(before: &[CDef], def: &CDef) -> bool
    ensures { result ≡ spec.is_built_from before.now def.now }
{
    match def {
        CDef::Struct { name: _, fields } => are_defined(before, fields.as_slice()),
        CDef::Array { elem, n: _ } => match element_scalar(elem) {
            Some(_) => true,
            None => has_struct(before, elem),
        },
    }
}

pub fn are_defined(types: &[CDef], vars: &[CVar]) -> bool
    ensures { result ≡ list_all (λ v. lookup.is_defined types.now v.ty) vars.now }
{
    for v in vars {
        if !is_defined(types, &v.ty) {
            return false;
        }
    }
    true
}

// Each type is defined before its use.
pub fn are_built_in_order(types: &[CDef]) -> bool
    ensures { result ≡ spec.types_are_built_in_order types.now }
{
    for (i, def) in types.iter().enumerate() {
        if !is_built_from(&types[..i], def) {
            return false;
        }
    }
    true
}

// The bytes of a program's static objects.
ghost use Rattle.std.specs.Prelude.{◌≡◌, ◌+◌, ◌≤◌, IsTrue, IsSome, is_some, length};
ghost use Rattle.std.specs.List.{list_all, sum_by};
ghost use Rattle.c99_ast.specs.Bound.{up_to_bound};
ghost use Rattle.c99_tree.specs.Words as words;
ghost use Rattle.c99_tree.specs.Values.{shape_within, shape_of, shapes_of_fields};
ghost use Rattle.c99_tree.specs.Storage as spec;
ghost use Rattle.c99_tree.specs.WellFormed.{types_come_first};
ghost use Rattle.c99_tree.specs.declared.types.CTy.TheVariants as ty;

use crate::totals::{BOUND, sum, times};
use c99_tree::{CDef, CRing, CScalar, CTy, CVar, Unit, element_scalar, fields_of};
use sm_io::Name;

/// The bytes of the unit's static objects, without padding: the values of each ring with an index and four bytes for the
/// index, one value for a ring without, and a copy of each extern. 4,294,967,296 where it is more. Each type of the unit
/// stands among the definitions before its use.
pub fn storage(unit: &Unit) -> u64
    requires { IsTrue (types_come_first unit.now) }
    ensures { result ≡ up_to_bound (spec.storage_of unit.now) }
{
    let types = unit.types.as_slice();
    sum(
        rings_storage(types, unit.rings.as_slice()),
        copies_storage(types, unit.externs.as_slice()),
    )
}

fn rings_storage(types: &[CDef], rings: &[CRing]) -> u64
    requires { IsTrue (list_all (λ r. is_some (shape_of types.now r.ty)) rings.now) }
    ensures { result ≡ up_to_bound (sum_by (spec.ring_storage types.now) rings.now) }
{
    let mut total = 0;
    for r in rings {
        if total == BOUND {
            return total;
        }
        total = sum(total, ring_storage(types, r));
    }
    total
}

fn copies_storage(types: &[CDef], externs: &[CVar]) -> u64
    requires { IsTrue (list_all (λ x. is_some (shape_of types.now x.ty)) externs.now) }
    ensures { result ≡ up_to_bound (sum_by (spec.copy_storage types.now) externs.now) }
{
    let mut total = 0;
    for x in externs {
        if total == BOUND {
            return total;
        }
        total = sum(total, size_of(types.len() + 1, types, &x.ty));
    }
    total
}

fn ring_storage(types: &[CDef], r: &CRing) -> u64
    requires { IsSome (shape_of types.now r.now.ty) }
    ensures { result ≡ up_to_bound (spec.ring_storage types.now r.now) }
{
    let one = size_of(types.len() + 1, types, &r.ty);
    if !r.indexed {
        return one;
    }
    sum(times(r.len, one), 4)
}

fn scalar_size(t: CScalar) -> u64
    ensures { result ≡ spec.scalar_size t }
{
    match t {
        CScalar::Bool | CScalar::I8 | CScalar::U8 => 1,
        CScalar::I16 | CScalar::U16 => 2,
        CScalar::I32 | CScalar::U32 => 4,
        CScalar::I64 | CScalar::U64 => 8,
    }
}

// The bytes of a type in which at most `depth` types stand one in another.
#[cycle(sizing)]
#[tactic(auto, using(c99_tree::proofs::Shapes::shapes_step))]
fn size_of(depth: usize, types: &[CDef], ty: &CTy) -> u64
    requires { IsSome (shape_within depth types.now ty.now) }
    ensures { result ≡ up_to_bound (spec.size_or_none (shape_within depth types.now ty.now)) }
{
    match ty {
        CTy::Scalar(t) => scalar_size(*t),
        CTy::Struct(x) => size_of_struct(depth, types, x),
        CTy::Array(x, n) => times(*n, size_of_element(depth, types, x)),
    }
}

#[cycle(sizing)]
#[tactic(auto, using(c99_tree::proofs::Shapes::shapes_step))]
fn size_of_element(depth: usize, types: &[CDef], x: &Name) -> u64
    requires { IsSome (shape_within depth types.now (words.elem_type x.now)) }
    ensures { result ≡ up_to_bound (spec.size_or_none (shape_within depth types.now (words.elem_type x.now))) }
{
    match element_scalar(x) {
        Some(t) => scalar_size(t),
        None => size_of_struct(depth, types, x),
    }
}

#[cycle(sizing)]
#[tactic(auto, using(c99_tree::proofs::Shapes::shapes_step))]
fn size_of_struct(depth: usize, types: &[CDef], x: &Name) -> u64
    requires { IsSome (shape_within depth types.now (ty.Struct x.now)) }
    ensures { result ≡ up_to_bound (spec.size_or_none (shape_within depth types.now (ty.Struct x.now))) }
{
    let Some(inner) = depth.checked_sub(1) else {
        return 0;
    };
    match fields_of(types, x) {
        Some(fields) => size_of_fields(inner, types, fields),
        None => 0,
    }
}

#[cycle(sizing)]
#[tactic(auto, using(c99_tree::proofs::Shapes::shapes_step))]
fn size_of_fields(depth: usize, types: &[CDef], fields: &[CVar]) -> u64
    requires { IsSome (shapes_of_fields (shape_within depth types.now) fields.now) }
    ensures { result ≡ up_to_bound (spec.sizes_or_none (shapes_of_fields (shape_within depth types.now) fields.now)) }
{
    let mut total = 0;
    for field in fields {
        if total == BOUND {
            return total;
        }
        total = sum(total, size_of(depth, types, &field.ty));
    }
    total
}

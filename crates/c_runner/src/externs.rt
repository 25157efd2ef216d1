// The columns that a unit's externs want.
ghost use Rattle.std.specs.Prelude.{◌≡◌, ◌++◌, ◌∷◌, [], ◌<◌, length, map, IfOk, OnOk, slice_get, unwrap_or};
ghost use Rattle.c99_tree.specs.Words.{elem_type};
ghost use Rattle.c99_tree.specs.WellFormed.{IsWellFormed};
ghost use Rattle.extern_rows.specs.Leaves.{all_tails, index_text, member_text, of_elements, of_entry, of_members, tails_at, under};
ghost use Rattle.c_runner.specs.Executed.{unit_columns};
ghost use Rattle.c_runner.specs.Read.{read_entry, read_type, read_types};
ghost use Rattle.c_runner.specs.Read as spec;

use crate::read::{array_place, entry_at, scalar_of, struct_place};
use c99_tree::{CDef, CScalar, CTy, CVar, Unit, element_scalar};
use extern_rows::Leaf;
use itoa::Buffer;
use sm_io::{Name, Seq, Text};
use std::alloc::{AllocError, Global};

fn push_leaf(
    alloc: Global,
    front: &[u8],
    scalar: CScalar,
    out: &mut Vec<Leaf>,
) -> Result<(), AllocError>
    ensures { OnOk result (out.new.items ≡ out.old.items ++ record { name = front.now; scalar = spec.scalar_of scalar } ∷ []) }
{
    let name = Text::new(Vec::from_slice(alloc, front)?);
    out.push(Leaf {
        name,
        scalar: scalar_of(scalar),
    })?;
    Ok(())
}

// Adds the leaves of one entry of a table, with a text before each name; none where there is no such entry.
fn push_entry(
    alloc: Global,
    front: &[u8],
    table: &[Seq<Leaf>],
    place: usize,
    out: &mut Vec<Leaf>,
) -> Result<(), AllocError>
    ensures { OnOk result (out.new.items ≡ out.old.items ++ under front.now (unwrap_or (slice_get table.now place) [])) }
{
    for leaf in entry_at(table, place) {
        let mut name = Vec::from_slice(alloc, front)?;
        name.extend_from_slice(leaf.name.bytes())?;
        out.push(Leaf {
            name: Text::new(name),
            scalar: leaf.scalar,
        })?;
    }
    Ok(())
}

// Adds the leaves of a value of this type, given those of the definitions.
fn push_type(
    alloc: Global,
    types: &[CDef],
    table: &[Seq<Leaf>],
    front: &[u8],
    ty: &CTy,
    out: &mut Vec<Leaf>,
) -> Result<(), AllocError>
    ensures { OnOk result (out.new.items ≡ out.old.items ++ under front.now (tails_at table.now (read_type types.now ty.now))) }
{
    match ty {
        CTy::Scalar(scalar) => push_leaf(alloc, front, *scalar, out),
        CTy::Struct(x) => push_entry(alloc, front, table, struct_place(types, x), out),
        CTy::Array(x, n) => push_entry(alloc, front, table, array_place(types, x, *n), out),
    }
}

// The same of an array's element, by its word.
fn push_element(
    alloc: Global,
    types: &[CDef],
    table: &[Seq<Leaf>],
    front: &[u8],
    x: &Name,
    out: &mut Vec<Leaf>,
) -> Result<(), AllocError>
    ensures { OnOk result (out.new.items ≡ out.old.items ++ under front.now (tails_at table.now (read_type types.now (elem_type x.now)))) }
{
    match element_scalar(x) {
        Some(scalar) => push_leaf(alloc, front, scalar, out),
        None => push_entry(alloc, front, table, struct_place(types, x), out),
    }
}

fn index(alloc: Global, k: u32) -> Result<Vec<u8>, AllocError>
    ensures { IfOk result (λ name. name.items ≡ index_text k) }
{
    let mut buffer = Buffer::new();
    let mut name = Vec::new(alloc);
    name.push(b'[')?;
    name.extend_from_slice(buffer.format(k).as_bytes())?;
    name.push(b']')?;
    Ok(name)
}

fn member(alloc: Global, name: &Name) -> Result<Vec<u8>, AllocError>
    ensures { IfOk result (λ text. text.items ≡ member_text name.now) }
{
    let mut text = Vec::new(alloc);
    text.push(b'.')?;
    text.extend_from_slice(name.bytes())?;
    Ok(text)
}

// The leaves of some members, each behind its name.
fn member_leaves(
    alloc: Global,
    types: &[CDef],
    table: &[Seq<Leaf>],
    fields: &[CVar],
) -> Result<Seq<Leaf>, AllocError>
    ensures { IfOk result (λ leaves. leaves ≡ of_members table.now (map (spec.read_field types.now) fields.now)) }
{
    let mut out = Vec::new(alloc);
    for field in fields {
        let front = member(alloc, &field.name)?;
        push_type(alloc, types, table, front.as_slice(), &field.ty, &mut out)?;
    }
    Ok(Seq::of(out))
}

// The leaves of so many elements, each behind its index.
fn element_leaves(
    alloc: Global,
    types: &[CDef],
    table: &[Seq<Leaf>],
    elem: &Name,
    n: u32,
) -> Result<Seq<Leaf>, AllocError>
    ensures { IfOk result (λ leaves. leaves ≡ of_elements 0 n (tails_at table.now (read_type types.now (elem_type elem.now)))) }
{
    let mut out = Vec::new(alloc);
    for k in 0..n {
        let front = index(alloc, k)?;
        push_element(alloc, types, table, front.as_slice(), elem, &mut out)?;
    }
    Ok(Seq::of(out))
}

// The leaves of a definition, given those of the ones before it.
fn def_leaves(
    alloc: Global,
    types: &[CDef],
    table: &[Seq<Leaf>],
    def: &CDef,
) -> Result<Seq<Leaf>, AllocError>
    ensures { IfOk result (λ leaves. leaves ≡ of_entry table.now (read_entry types.now def.now)) }
{
    match def {
        CDef::Struct { name: _, fields } => member_leaves(alloc, types, table, fields.as_slice()),
        CDef::Array { elem, n } => element_leaves(alloc, types, table, elem, *n),
    }
}

// The leaves of each definition, in order.
fn all_leaves(alloc: Global, types: &[CDef]) -> Result<Seq<Seq<Leaf>>, AllocError>
    ensures { IfOk result (λ table. table ≡ all_tails [] (read_types types.now)) }
{
    let mut table = Seq::new(alloc);
    for def in types {
        let leaves = def_leaves(alloc, types, table.as_slice(), def)?;
        table.push(leaves)?;
    }
    Ok(table)
}

/// The columns of all externs, in order: `x` for a scalar, `x[k]` for each element of an array, `x.f` for each member of a
/// struct, nested at will.
pub fn columns(alloc: Global, unit: &Unit) -> Result<Vec<Leaf>, AllocError>
    ensures { IfOk result (λ leaves. leaves.items ≡ unit_columns unit.now) }
{
    let types = unit.types.as_slice();
    let table = all_leaves(alloc, types)?;
    let mut leaves = Vec::new(alloc);
    for x in unit.externs.as_slice() {
        push_type(
            alloc,
            types,
            table.as_slice(),
            x.name.bytes(),
            &x.ty,
            &mut leaves,
        )?;
    }
    Ok(leaves)
}

/// The columns of a well formed unit are few.
pub(crate) fn columns_are_few(unit: &Unit)
    requires { IsWellFormed unit.now }
    ensures { length (unit_columns unit.now) < 4294967296 }
{}

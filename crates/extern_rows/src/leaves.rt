// The leaves of a value, named from its type.
ghost use Rattle.std.specs.Prelude.{◌≡◌, ◌++◌, ◌∷◌, [], OnOk, slice_get};
ghost use Rattle.stream_types.specs.Types.{leaves};
ghost use Rattle.stream_types.specs.TypeList.{IsArrayEntry, IsStructEntry, Stands};
ghost use Rattle.extern_rows.specs.Leaves.{index_text, member_text, leaf_columns, scalars_of};

use crate::header::Leaf;
use itoa::Buffer;
use sm_io::Text;
use std::alloc::{AllocError, Global};
use stream_types::{Scalar, Ty, TypeEntry, Types};

// Puts `[k]` behind a name.
fn push_index(name: &mut Vec<u8>, k: u32) -> Result<(), AllocError>
    ensures { OnOk result (name.new.items ≡ name.old.items ++ index_text k) }
{
    let mut buffer = Buffer::new();
    name.push(b'[')?;
    name.extend_from_slice(buffer.format(k).as_bytes())?;
    name.push(b']')?;
    Ok(())
}

// Puts `.member` behind a name.
fn push_member(name: &mut Vec<u8>, member: &[u8]) -> Result<(), AllocError>
    ensures { OnOk result (name.new.items ≡ name.old.items ++ member_text member.now) }
{
    name.push(b'.')?;
    name.extend_from_slice(member)
}

fn push_leaf(
    alloc: Global,
    name: &[u8],
    scalar: Scalar,
    out: &mut Vec<Leaf>,
) -> Result<(), AllocError>
    ensures { OnOk result (out.new.items ≡ out.old.items ++ record { name = name.now; scalar = scalar } ∷ []) }
{
    let name = Text::new(Vec::from_slice(alloc, name)?);
    out.push(Leaf { name, scalar })?;
    Ok(())
}

// Adds the leaves of a value of this name and type; the name stays.
#[cycle(leaves)]
fn push_value(
    alloc: Global,
    types: &Types,
    ty: Ty,
    name: &mut Vec<u8>,
    out: &mut Vec<Leaf>,
) -> Result<(), AllocError>
    requires { Stands types.now ty }
    ensures name { OnOk result (name.new.items ≡ name.old.items) }
    ensures columns { OnOk result (out.new.items ≡ out.old.items ++ leaf_columns types.now name.old.items ty) }
{
    match ty {
        Ty::Scalar(scalar) => push_leaf(alloc, name.as_slice(), scalar, out),
        Ty::Array(place) => push_elements(alloc, types, place, name, out),
        Ty::Struct(place) => push_members(alloc, types, place, name, out),
    }
}

// Adds the leaves of each element of an array type's value.
#[cycle(leaves)]
fn push_elements(
    alloc: Global,
    types: &Types,
    place: u32,
    name: &mut Vec<u8>,
    out: &mut Vec<Leaf>,
) -> Result<(), AllocError>
    requires { IsArrayEntry (slice_get types.now place) }
    ensures name { OnOk result (name.new.items ≡ name.old.items) }
    ensures columns { OnOk result (out.new.items ≡ out.old.items ++ leaf_columns types.now name.old.items (Ty.Array place)) }
{
    let TypeEntry::Array { elem, n } = types.entry(place) else {
        return Ok(());
    };
    let length = name.len();
    for k in 0..*n {
        push_index(name, k)?;
        push_value(alloc, types, *elem, name, out)?;
        name.truncate(length);
    }
    Ok(())
}

// Adds the leaves of each member of a struct type's value.
#[cycle(leaves)]
fn push_members(
    alloc: Global,
    types: &Types,
    place: u32,
    name: &mut Vec<u8>,
    out: &mut Vec<Leaf>,
) -> Result<(), AllocError>
    requires { IsStructEntry (slice_get types.now place) }
    ensures name { OnOk result (name.new.items ≡ name.old.items) }
    ensures columns { OnOk result (out.new.items ≡ out.old.items ++ leaf_columns types.now name.old.items (Ty.Struct place)) }
{
    let TypeEntry::Struct { fields, .. } = types.entry(place) else {
        return Ok(());
    };
    let length = name.len();
    for field in fields.as_slice() {
        push_member(name, field.name.bytes())?;
        push_value(alloc, types, field.ty, name, out)?;
        name.truncate(length);
    }
    Ok(())
}

/// Adds the leaves of a value of this name and type behind those of `out`: `x` for a scalar, `x[k]` for each element
/// of an array, from 0, and `x.f` for each member of a struct, nested at will. After a refusal `out` may hold some of
/// them more.
pub fn push_leaves(
    alloc: Global,
    types: &Types,
    name: &[u8],
    ty: Ty,
    out: &mut Vec<Leaf>,
) -> Result<(), AllocError>
    requires { Stands types.now ty }
    ensures columns { OnOk result (out.new.items ≡ out.old.items ++ leaf_columns types.now name.now ty) }
    ensures scalars { scalars_of (leaf_columns types.now name.now ty) ≡ leaves types.now ty }
{
    let mut path = Vec::from_slice(alloc, name)?;
    push_value(alloc, types, ty, &mut path, out)
}

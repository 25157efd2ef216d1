// How a unit's types read as the types of a text.
ghost use Rattle.std.specs.Prelude.{◌≡◌, [], slice_get, unwrap_or};
ghost use Rattle.std.specs.List.{position_or_len};
ghost use Rattle.c_runner.specs.Read as spec;

use c99_tree::{CDef, CScalar, is_same};
use sm_io::{Name, Seq};
use stream_types::Scalar;

/// The scalar of the same width and sign.
pub(crate) fn scalar_of(scalar: CScalar) -> Scalar
    ensures { result ≡ spec.scalar_of scalar }
{
    match scalar {
        CScalar::Bool => Scalar::Bool,
        CScalar::I8 => Scalar::Int8,
        CScalar::I16 => Scalar::Int16,
        CScalar::I32 => Scalar::Int32,
        CScalar::I64 => Scalar::Int64,
        CScalar::U8 => Scalar::Word8,
        CScalar::U16 => Scalar::Word16,
        CScalar::U32 => Scalar::Word32,
        CScalar::U64 => Scalar::Word64,
    }
}

fn defines_struct(x: &Name, def: &CDef) -> bool
    ensures { result ≡ spec.defines_struct x.now def.now }
{
    match def {
        CDef::Struct { name, fields: _ } => is_same(x, name),
        CDef::Array { elem: _, n: _ } => false,
    }
}

fn defines_array(x: &Name, n: u32, def: &CDef) -> bool
    ensures { result ≡ spec.defines_array x.now n def.now }
{
    match def {
        CDef::Struct { name: _, fields: _ } => false,
        CDef::Array { elem, n: m } => is_same(x, elem) && n == *m,
    }
}

/// The place of the first struct of this name; the number of all definitions where there is none.
pub(crate) fn struct_place(types: &[CDef], x: &Name) -> usize
    ensures { result ≡ position_or_len (spec.defines_struct x.now) types.now }
{
    let mut i = 0;
    while i < types.len() {
        if defines_struct(x, &types[i]) {
            return i;
        }
        i += 1;
    }
    i
}

/// The same of an array type, by the word of its elements and its length.
pub(crate) fn array_place(types: &[CDef], x: &Name, n: u32) -> usize
    ensures { result ≡ position_or_len (spec.defines_array x.now n) types.now }
{
    let mut i = 0;
    while i < types.len() {
        if defines_array(x, n, &types[i]) {
            return i;
        }
        i += 1;
    }
    i
}

/// The entry of a table at a place; nothing behind its end.
pub(crate) fn entry_at<T>(table: &[Seq<T>], place: usize) -> &[T]
    ensures { result.now ≡ unwrap_or (slice_get table.now place) [] }
{
    match table.get(place) {
        Some(entry) => entry.as_slice(),
        None => &[],
    }
}

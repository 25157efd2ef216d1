// The C types of a specification's types.
ghost use Rattle.std.specs.Prelude.{◌≡◌, ◌<◌, length, slice_get, map, All, IfOk, IfSome};
ghost use Rattle.sm_io.specs.Names.{IsNameBytes};
ghost use Rattle.stream_types.specs.declared.types.Field.{Field as AnyField};
ghost use Rattle.stream_types.specs.TypeList.{IsArrayEntry, IsElement, IsStructEntry, IsTypeList, Stands};
ghost use Rattle.c99_tree.specs.Words.{word_of};
ghost use Rattle.ring_codegen.specs.CTypes.{array_type, c_def, c_field, c_scalar, c_type, element_word, struct_name};
ghost use Rattle.ring_codegen.specs.Translation.{entry_of, member_name, wide};
ghost use Rattle.ring_codegen.specs.Items.{HasMemberAt};

use c99_tree::{CDef, CScalar, CTy, CVar};
use sm_io::{Name, Seq};
use std::alloc::{AllocError, Global};
use stream_types::{Field, Scalar, Ty, TypeEntry, Types};

/// The C type of a scalar.
pub(crate) fn c_scalar(s: Scalar) -> CScalar
    ensures { result ≡ c_scalar s }
{
    match s {
        Scalar::Bool => CScalar::Bool,
        Scalar::Int8 => CScalar::I8,
        Scalar::Int16 => CScalar::I16,
        Scalar::Int32 => CScalar::I32,
        Scalar::Int64 => CScalar::I64,
        Scalar::Word8 => CScalar::U8,
        Scalar::Word16 => CScalar::U16,
        Scalar::Word32 => CScalar::U32,
        Scalar::Word64 => CScalar::U64,
    }
}

/// The type that a scalar's arithmetic is done in.
pub(crate) fn wide(s: Scalar) -> CScalar
    ensures { result ≡ wide s }
{
    match s {
        Scalar::Bool | Scalar::Int8 | Scalar::Int16 | Scalar::Int32 => CScalar::I32,
        Scalar::Int64 => CScalar::I64,
        Scalar::Word8 | Scalar::Word16 | Scalar::Word32 => CScalar::U32,
        Scalar::Word64 => CScalar::U64,
    }
}

// The word of a scalar in the names of array types.
fn word_of(s: Scalar) -> &'static [u8]
    ensures word { result.now ≡ word_of (c_scalar s) }
    ensures name { IsNameBytes result.now }
{
    match s {
        Scalar::Bool => b"Bool",
        Scalar::Int8 => b"Int8",
        Scalar::Int16 => b"Int16",
        Scalar::Int32 => b"Int32",
        Scalar::Int64 => b"Int64",
        Scalar::Word8 => b"Word8",
        Scalar::Word16 => b"Word16",
        Scalar::Word32 => b"Word32",
        Scalar::Word64 => b"Word64",
    }
}

fn scalar_word(alloc: Global, s: Scalar) -> Result<Name, AllocError>
    ensures { IfOk result (λ x. x ≡ word_of (c_scalar s)) }
{
    let bytes = Vec::from_slice(alloc, word_of(s))?;
    Ok(Name::new(bytes))
}

fn struct_name(alloc: Global, types: &Types, i: u32) -> Result<Name, AllocError>
    requires { IsStructEntry (slice_get types.now i) }
    ensures { IfOk result (λ x. x ≡ struct_name (slice_get types.now i)) }
{
    match types.entry(i) {
        TypeEntry::Struct { name, .. } => name.copy(alloc),
        TypeEntry::Array { .. } => unreachable!(),
    }
}

// The word of an array's element.
fn element_word(alloc: Global, types: &Types, elem: Ty) -> Result<Name, AllocError>
    requires { IsElement types.now elem }
    ensures { IfOk result (λ x. x ≡ element_word types.now elem) }
{
    match elem {
        Ty::Scalar(s) => scalar_word(alloc, s),
        Ty::Struct(i) => struct_name(alloc, types, i),
        Ty::Array(_) => unreachable!(),
    }
}

fn array_type(alloc: Global, types: &Types, i: u32) -> Result<CTy, AllocError>
    requires { IsArrayEntry (slice_get types.now i) }
    ensures { IfOk result (λ t. t ≡ array_type types.now (slice_get types.now i)) }
{
    match types.entry(i) {
        TypeEntry::Array { elem, n } => Ok(CTy::Array(element_word(alloc, types, *elem)?, *n)),
        TypeEntry::Struct { .. } => unreachable!(),
    }
}

/// The C type of a type.
pub(crate) fn c_type(alloc: Global, types: &Types, ty: Ty) -> Result<CTy, AllocError>
    requires { Stands types.now ty }
    ensures { IfOk result (λ t. t ≡ c_type types.now ty) }
{
    match ty {
        Ty::Scalar(s) => Ok(CTy::Scalar(c_scalar(s))),
        Ty::Array(i) => array_type(alloc, types, i),
        Ty::Struct(i) => Ok(CTy::Struct(struct_name(alloc, types, i)?)),
    }
}

// The members of a struct.
fn c_fields(alloc: Global, types: &Types, fields: &[Field]) -> Result<Seq<CVar>, AllocError>
    requires { All (λ (f : AnyField). Stands types.now f.ty) fields.now }
    ensures { IfOk result (λ vars. vars ≡ map (c_field types.now) fields.now) }
{
    let mut vars = Seq::new(alloc);
    for field in fields {
        vars.push(CVar {
            name: field.name.copy(alloc)?,
            ty: c_type(alloc, types, field.ty)?,
        })?;
    }
    Ok(vars)
}

/// The definition of the type at a place of the list.
pub(crate) fn c_def(alloc: Global, types: &Types, i: u32) -> Result<CDef, AllocError>
    requires { i < length types.now }
    ensures { IfOk result (λ def. IfSome (slice_get types.now i) (λ e. def ≡ c_def types.now e)) }
{
    match types.entry(i) {
        TypeEntry::Array { elem, n } => Ok(CDef::Array {
            elem: element_word(alloc, types, *elem)?,
            n: *n,
        }),
        TypeEntry::Struct { name, fields } => Ok(CDef::Struct {
            name: name.copy(alloc)?,
            fields: c_fields(alloc, types, fields.as_slice())?,
        }),
    }
}

/// The name of a struct's member.
pub(crate) fn member_name<'a>(types: &'a Types, of: Ty, member: u32) -> &'a Name
    requires { HasMemberAt types.now of member }
    ensures { result.now ≡ member_name (entry_of types.now of) member }
{
    match of {
        Ty::Struct(i) => match types.entry(i) {
            TypeEntry::Struct { fields, .. } => &fields.as_slice()[member as usize].name,
            TypeEntry::Array { .. } => unreachable!(),
        },
        _ => unreachable!(),
    }
}

// The parts of arrays and structs.
ghost use Rattle.std.specs.Prelude.{◌≡◌, ◌+◌, ◌<◌, ◌≤◌, ℕ, length, drop, take, slice_get, All, IfErr, IfNone, IfSome, OnOk};
ghost use Rattle.stream_types.specs.declared.scalar.Ty.{Ty as AnyType};
ghost use Rattle.stream_types.specs.declared.types.Field.{Field as AnyField};
ghost use Rattle.stream_types.specs.TypeList.{IsTypeList, Stands};
ghost use Rattle.stream_types.specs.Types.{elem_count, elem_words, entry_of, field_first, fields_of, fields_words, words};
ghost use Rattle.stream_core.specs.Eval.{element};
ghost use Rattle.stream_interp.specs.Reading.{part_types};

use stream_types::{Field, Hazard, Ty, TypeEntry, Types};

/// At most `n` words from `at` on.
pub(crate) fn run_of(words: &[u64], at: usize, n: usize) -> &[u64]
    ensures { result.now ≡ take n (drop at words.now) }
{
    let (_, rest) = words.split_at(at.min(words.len()));
    let (run, _) = rest.split_at(n.min(rest.len()));
    run
}

// The entry of an array or a struct.
fn entry_at(types: &Types, of: Ty) -> Option<&TypeEntry>
    requires { Stands types.now of }
    ensures none { IfNone result (entry_of types.now of ≡ None) }
    ensures some { IfSome result (λ e. entry_of types.now of ≡ Some e.now) }
    ensures list { IfSome result (λ _. IsTypeList types.now) }
{
    match of {
        Ty::Scalar(_) => None,
        Ty::Array(i) | Ty::Struct(i) => Some(types.entry(i)),
    }
}

// How many elements an array has.
fn count_of(types: &Types, of: Ty) -> u64
    requires { Stands types.now of }
    ensures { result ≡ elem_count (entry_of types.now of) }
{
    let Some(entry) = entry_at(types, of) else {
        return 0;
    };
    match entry {
        TypeEntry::Array { elem: _, n } => u64::from(*n),
        TypeEntry::Struct { name: _, fields: _ } => 0,
    }
}

// The members of a struct.
fn members_of(types: &Types, of: Ty) -> &[Field]
    requires { Stands types.now of }
    ensures { result.now ≡ fields_of (entry_of types.now of) }
{
    let Some(entry) = entry_at(types, of) else {
        return &[];
    };
    match entry {
        TypeEntry::Array { elem: _, n: _ } => &[],
        TypeEntry::Struct { name: _, fields } => fields.as_slice(),
    }
}

/// An array's element of this number.
pub(crate) fn copy_element(
    types: &Types,
    of: Ty,
    array: &[u64],
    k: u64,
    out: &mut [u64],
) -> Result<(), Hazard>
    requires types { IsTypeList types.now }
    requires stands { Stands types.now of }
    requires array { length array.now ≡ words types.now of }
    requires element { elem_words types.now (entry_of types.now of) ≡ length out.old }
    ensures ok { OnOk result (element types.now (entry_of types.now of) array.now k ≡ Ok out.new) }
    ensures err { IfErr result (λ z. element types.now (entry_of types.now of) array.now k ≡ Err z) }
{
    if k >= count_of(types, of) {
        return Err(Hazard::BadIndex);
    }
    let from = k as usize * out.len();
    out.copy_from_slice(run_of(array, from, out.len()));
    Ok(())
}

// The words of some members together.
fn members_words(types: &Types, fields: &[Field]) -> usize
    requires stand { All (λ (f : AnyField). Stands types.now f.ty) fields.now }
    requires few { length fields.now ≤ 64 }
    ensures { result ≡ fields_words types.now fields.now }
{
    let mut total = 0;
    for field in fields {
        total += types.words(field.ty) as usize;
    }
    total
}

/// How many words of a struct lie before a member.
pub(crate) fn words_before(types: &Types, of: Ty, member: u32) -> usize
    requires types { IsTypeList types.now }
    requires stands { Stands types.now of }
    requires there { member < length (fields_of (entry_of types.now of)) }
    ensures { result ≡ field_first types.now (fields_of (entry_of types.now of)) member }
{
    let members = members_of(types, of);
    members_words(types, &members[..member as usize])
}

/// How many words an element of an array or a member of a struct has, by its number.
pub(crate) fn part_words(types: &Types, of: Ty, at: usize) -> usize
    requires types { IsTypeList types.now }
    requires stands { Stands types.now of }
    requires there { at < length (part_types types.now of) }
    ensures { (t : AnyType) → slice_get (part_types types.now of) at ≡ Some t → result ≡ words types.now t }
{
    let Some(entry) = entry_at(types, of) else {
        return 0;
    };
    match entry {
        TypeEntry::Array { elem, n: _ } => types.words(*elem) as usize,
        TypeEntry::Struct { name: _, fields } => types.words(fields.as_slice()[at].ty) as usize,
    }
}

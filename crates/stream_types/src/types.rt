// The list of a specification's types.
ghost use Rattle.std.specs.Prelude.{◌≡◌, ◌≢◌, ◌↔◌, List, ℕ, ◌+◌, ◌*◌, ◌<◌, ◌≤◌, [], ◌∷◌, ◌++◌, length, slice_get, sum_by, All, IfOk, IfNone, IfSome, OnOk, OnErr, OnSome, IsTrue, Some, Ok, Err};
ghost use Rattle.stream_types.specs.Types.{words, words_of, size, leaves, fields_words, entry_words, entry_bytes, at_fields, at_entry, one_word, scalar_bytes, entry_of, fields_of};
ghost use Rattle.stream_types.specs.TypeList.{IsTypeList, IsGoodEntry, IsNewEntry, Stands, IsElement, IsNewName, HasTwins, IsNamedAt, IsMember, HasNoMember, IsArrayPlaced};
ghost use Rattle.stream_types.specs.ArrayPlaces.{ArePlaces};
ghost use Rattle.stream_types.specs.declared.types.TypeEntry.{TypeEntry as Entry};

use crate::array_key::ArrayKey;
use crate::scalar::{Scalar, Ty};
use indexmap::IndexMap;
use sm_io::{Name, Seq};
use std::alloc::{AllocError, Global};
use std::marker::Model;
use thiserror::Error;

/// A struct's member.
#[derive(Debug, Drop)]
pub struct Field {
    pub name: Name,
    pub ty: Ty,
}

/// Where a member lies in a value: how many words before it, and its type.
#[derive(Clone, Copy, Debug, PartialEq, Eq, Hash)]
pub struct FieldAt {
    pub first: u32,
    pub ty: Ty,
}

/// A type that is no scalar.
#[derive(Debug, Drop)]
pub enum TypeEntry {
    /// 1 to 1,024 elements of a type that is no array.
    Array { elem: Ty, n: u32 },
    /// 1 to 64 members of different names, in order.
    Struct { name: Name, fields: Seq<Field> },
}

/// Why a type is not added.
#[derive(Debug, Drop, Error)]
pub enum StructFault {
    #[error("two fields have one name")]
    DoubleField,
    #[error("the type has more than 1,024 words")]
    TooWide,
    #[error("out of memory")]
    Memory,
}

impl Field {
    fn copy(&self, alloc: Global) -> Result<Field, AllocError>
        ensures { IfOk result (λ field. field ≡ self.now) }
    {
        Ok(Field {
            name: self.name.copy(alloc)?,
            ty: self.ty,
        })
    }
}

fn copy_of_fields(alloc: Global, fields: &[Field]) -> Result<Vec<Field>, AllocError>
    ensures { IfOk result (λ copy. copy.items ≡ fields.now) }
{
    let mut copy = Vec::new(alloc);
    for field in fields {
        copy.push(field.copy(alloc)?)?;
    }
    Ok(copy)
}

impl TypeEntry {
    fn copy(&self, alloc: Global) -> Result<TypeEntry, AllocError>
        ensures { IfOk result (λ entry. entry ≡ self.now) }
    {
        match self {
            TypeEntry::Array { elem, n } => Ok(TypeEntry::Array { elem: *elem, n: *n }),
            TypeEntry::Struct { name, fields } => Ok(TypeEntry::Struct {
                name: name.copy(alloc)?,
                fields: Seq::of(copy_of_fields(alloc, fields.as_slice())?),
            }),
        }
    }
}

// The first field of a name.
fn place_of(fields: &[Field], name: &[u8]) -> Option<usize>
    ensures found { IfSome result (λ i. IsNamedAt fields.now name.now i) }
    ensures none { IfNone result (HasNoMember fields.now name.now) }
{
    for (i, field) in fields.iter().enumerate() {
        if field.name.bytes() == name {
            return Some(i);
        }
    }
    None
}

// Whether two fields have one name.
fn has_twins(fields: &[Field]) -> bool
    ensures { IsTrue result ↔ HasTwins fields.now }
{
    for (i, field) in fields.iter().enumerate() {
        if place_of(&fields[..i], field.name.bytes()).is_some() {
            return true;
        }
    }
    false
}

// The size of a scalar in bytes.
fn bytes_of(s: Scalar) -> u64
    ensures { result ≡ scalar_bytes s }
{
    match s {
        Scalar::Bool | Scalar::Int8 | Scalar::Word8 => 1,
        Scalar::Int16 | Scalar::Word16 => 2,
        Scalar::Int32 | Scalar::Word32 => 4,
        Scalar::Int64 | Scalar::Word64 => 8,
    }
}

// How many words and bytes a value has.
#[derive(Clone, Copy, Debug)]
struct Extent {
    words: u32,
    bytes: u64,
}

// An entry with the extent of its type.
#[derive(Debug, Drop)]
struct Measured {
    entry: TypeEntry,
    extent: Extent,
}

impl Measured {
    fn copy(&self, alloc: Global) -> Result<Measured, AllocError>
        ensures { IfOk result (λ copy. copy ≡ self.now) }
    {
        Ok(Measured {
            entry: self.entry.copy(alloc)?,
            extent: self.extent,
        })
    }
}

// Notes the place of an entry that is put at the end of a list, if it is an array.
fn note_place(
    places: &mut IndexMap<ArrayKey, u32>,
    entry: &TypeEntry,
    place: u32,
) -> Result<(), AllocError>
    ensures ok { (types : List Entry) → ArePlaces places.old.entries types → IsNewEntry types entry.now → place ≡ length types → OnOk result (ArePlaces places.new.entries (types ++ entry.now ∷ [])) }
    ensures err { OnErr result (places.new.entries ≡ places.old.entries) }
{
    if let TypeEntry::Array { elem, n } = entry {
        let key = ArrayKey { elem: *elem, n: *n };
        places.insert(key, place)?;
    }
    Ok(())
}

/// The list of a specification's types, each made of those before it.
#[derive(Debug, Drop)]
pub struct Types {
    entries: Vec<Measured>,
    // the place of each array type among the entries
    places: IndexMap<ArrayKey, u32>,
}

impl Model for Types {
    ghost use Rattle.std.specs.Prelude.{List};
    ghost use Rattle.stream_types.specs.declared.types.TypeEntry.{TypeEntry};

    ghost Value = { List TypeEntry };

    ghost use Rattle.stream_types.specs.Measures.{IsKept, entries_of};
    ghost use Rattle.stream_types.specs.ArrayPlaces.{ArePlaces};

    ghost view = { λ t. entries_of t.entries.items };

    ghost invariant = { λ t. IsKept t.entries.items × ArePlaces t.places.entries (entries_of t.entries.items) };
}

impl Types {
    /// No types.
    pub fn new(alloc: Global) -> Types
        ensures { result ≡ [] }
    {
        Types {
            entries: Vec::new(alloc),
            places: IndexMap::new(alloc),
        }
    }

    /// How many types the list has.
    pub fn len(&self) -> u32
        ensures value { result ≡ length self.now }
        ensures list { IsTypeList self.now }
    {
        self.entries.len() as u32
    }

    /// The type at a place.
    pub fn entry(&self, i: u32) -> &TypeEntry
        requires { i < length self.now }
        ensures value { slice_get self.now i ≡ Some result.now }
        ensures list { IsTypeList self.now }
    {
        &self.entries[i as usize].entry
    }

    // How wide a type is.
    fn extent(&self, ty: Ty) -> Extent
        requires { Stands self.now ty }
        ensures words { result.words ≡ words self.now ty }
        ensures bytes { result.bytes ≡ size self.now ty }
        ensures most_words { result.words ≤ 1024 }
        ensures most_bytes { result.bytes ≤ 8192 }
        ensures list { IsTypeList self.now }
    {
        match ty {
            Ty::Scalar(s) => Extent {
                words: 1,
                bytes: bytes_of(s),
            },
            Ty::Array(i) | Ty::Struct(i) => self.entries[i as usize].extent,
        }
    }

    /// How many words a value of the type has.
    pub fn words(&self, ty: Ty) -> u32
        requires { Stands self.now ty }
        ensures value { result ≡ words self.now ty }
        ensures by_entry { result ≡ words_of self.now (entry_of self.now ty) }
        ensures scalars { result ≡ length (leaves self.now ty) }
        ensures most { result ≤ 1024 }
    {
        self.extent(ty).words
    }

    /// The sum of the sizes in bytes of a value's scalars, 1 for a truth value.
    pub fn bytes(&self, ty: Ty) -> u64
        requires { Stands self.now ty }
        ensures value { result ≡ size self.now ty }
        ensures scalars { result ≡ sum_by scalar_bytes (leaves self.now ty) }
        ensures most { result ≤ 8192 }
    {
        self.extent(ty).bytes
    }

    // The extent of some fields together.
    fn extent_of(&self, fields: &[Field]) -> Extent
        requires stand { All (λ f. Stands self.now f.ty) fields.now }
        requires few { length fields.now ≤ 64 }
        ensures words { result.words ≡ fields_words self.now fields.now }
        ensures bytes { result.bytes ≡ at_fields scalar_bytes (entry_bytes self.now) fields.now }
    {
        let mut words = 0;
        let mut bytes = 0;
        for field in fields {
            let extent = self.extent(field.ty);
            words += extent.words;
            bytes += extent.bytes;
        }
        Extent { words, bytes }
    }

    // The members of a struct type.
    fn fields(&self, ty: Ty) -> Option<&[Field]>
        requires { Stands self.now ty }
        ensures value { IfSome result (λ fields. fields.now ≡ fields_of (entry_of self.now ty)) }
        ensures few { IfSome result (λ fields. length fields.now ≤ 64) }
        ensures stand { IfSome result (λ fields. All (λ f. Stands self.now f.ty) fields.now) }
        ensures list { OnSome result (IsTypeList self.now) }
        ensures none { IfNone result (fields_of (entry_of self.now ty) ≡ []) }
    {
        let Ty::Struct(i) = ty else {
            return None;
        };
        match self.entry(i) {
            TypeEntry::Struct { fields, .. } => Some(fields.as_slice()),
            TypeEntry::Array { .. } => None,
        }
    }

    /// The member of this name, if the type has it. Scalars and arrays have no members.
    pub fn field(&self, s: Ty, name: &[u8]) -> Option<FieldAt>
        requires { Stands self.now s }
        ensures found { IfSome result (λ at. IsMember self.now (fields_of (entry_of self.now s)) name.now at) }
        ensures none { IfNone result (HasNoMember (fields_of (entry_of self.now s)) name.now) }
        ensures stands { IfSome result (λ at. Stands self.now at.ty) }
        ensures within { IfSome result (λ at. at.first + words self.now at.ty ≤ words self.now s) }
    {
        let fields = self.fields(s)?;
        let place = place_of(fields, name)?;
        Some(FieldAt {
            first: self.extent_of(&fields[..place]).words,
            ty: fields[place].ty,
        })
    }

    // The place of an array type.
    fn place_of_array(&self, elem: Ty, n: u32) -> Option<u32>
        ensures found { IfSome result (λ i. slice_get self.now i ≡ Some (TypeEntry.Array elem n)) }
        ensures none { IfNone result (IsNewEntry self.now (TypeEntry.Array elem n)) }
        ensures list { IsTypeList self.now }
    {
        self.places.get(&ArrayKey { elem, n }).copied()
    }

    // Adds an entry of which it is known that it may stand at the end.
    fn push(&mut self, entry: TypeEntry, extent: Extent) -> Result<(), AllocError>
        requires good { IsGoodEntry self.old entry }
        requires new { IsNewEntry self.old entry }
        requires words { extent.words ≡ at_entry one_word (entry_words self.old) entry }
        requires bytes { extent.bytes ≡ at_entry scalar_bytes (entry_bytes self.old) entry }
        requires narrow { extent.words ≤ 1024 }
        requires room { length self.old < 4294967295 }
        ensures ok { OnOk result (self.new ≡ self.old ++ entry ∷ []) }
        ensures err { OnErr result (self.new ≡ self.old) }
    {
        let place = self.len();
        self.entries.reserve(1)?;
        note_place(&mut self.places, &entry, place)?;
        self.entries.push(Measured { entry, extent })?;
        Ok(())
    }

    /// The array type of an element and a length: it is found, or else added at the end.
    ///
    /// `TooWide` exactly where it would have more than 1,024 words. After a refusal the list is as before.
    pub fn add_array(&mut self, elem: Ty, n: u32) -> Result<Ty, StructFault>
        requires elem { IsElement self.old elem }
        requires some { 1 ≤ n }
        requires most { n ≤ 1024 }
        requires room { length self.old < 4294967295 }
        ensures placed { IfOk result (λ t. IsArrayPlaced self.old self.new elem n t) }
        ensures stands { IfOk result (λ t. Stands self.new t) }
        ensures found { (i : ℕ) → slice_get self.old i ≡ Some (TypeEntry.Array elem n) → (result ≡ Ok (Ty.Array i)) × (self.new ≡ self.old) }
        ensures too_wide { (result ≡ Err StructFault.TooWide) ↔ (1024 < n * words self.old elem) }
        ensures never_double { result ≢ Err StructFault.DoubleField }
        ensures err { OnErr result (self.new ≡ self.old) }
    {
        if let Some(i) = self.place_of_array(elem, n) {
            return Ok(Ty::Array(i));
        }
        let one = self.extent(elem);
        let extent = Extent {
            words: n * one.words,
            bytes: n as u64 * one.bytes,
        };
        if extent.words > 1024 {
            return Err(StructFault::TooWide);
        }
        let place = self.len();
        match self.push(TypeEntry::Array { elem, n }, extent) {
            Ok(()) => Ok(Ty::Array(place)),
            Err(_) => Err(StructFault::Memory),
        }
    }

    /// Adds a struct type at the end.
    ///
    /// `DoubleField` exactly where two fields have one name; else `TooWide` exactly where it would have more
    /// than 1,024 words. After a refusal the list is as before.
    pub fn add_struct(&mut self, name: Name, fields: Vec<Field>) -> Result<Ty, StructFault>
        requires new { IsNewName self.old name }
        requires some { 1 ≤ length fields.items }
        requires most { length fields.items ≤ 64 }
        requires stand { All (λ f. Stands self.old f.ty) fields.items }
        requires room { length self.old < 4294967295 }
        ensures ok { IfOk result (λ t. (t ≡ Ty.Struct (length self.old)) × (self.new ≡ self.old ++ TypeEntry.Struct name fields.items ∷ [])) }
        ensures stands { IfOk result (λ t. Stands self.new t) }
        ensures double { (result ≡ Err StructFault.DoubleField) ↔ HasTwins fields.items }
        ensures too_wide { (result ≡ Err StructFault.TooWide) ↔ (¬ HasTwins fields.items × (1024 < fields_words self.old fields.items)) }
        ensures err { OnErr result (self.new ≡ self.old) }
    {
        if has_twins(fields.as_slice()) {
            return Err(StructFault::DoubleField);
        }
        let extent = self.extent_of(fields.as_slice());
        if extent.words > 1024 {
            return Err(StructFault::TooWide);
        }
        let place = self.len();
        let fields = Seq::of(fields);
        match self.push(TypeEntry::Struct { name, fields }, extent) {
            Ok(()) => Ok(Ty::Struct(place)),
            Err(_) => Err(StructFault::Memory),
        }
    }

    /// An equal list.
    pub fn copy(&self, alloc: Global) -> Result<Types, AllocError>
        ensures { IfOk result (λ types. types ≡ self.now) }
    {
        let mut entries = Vec::new(alloc);
        let mut places = IndexMap::new(alloc);
        for (i, kept) in self.entries.iter().enumerate() {
            note_place(&mut places, &kept.entry, i as u32)?;
            entries.push(kept.copy(alloc)?)?;
        }
        Ok(Types { entries, places })
    }
}

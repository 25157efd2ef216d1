// The type list of a text, from the order of its types.

ghost use Rattle.std.specs.Prelude.{◌≡◌, ◌<◌, ℕ, List, [], ◌∷◌, ◌++◌, length, map, IfOk, IfErr, OnOk};
ghost use Rattle.std.specs.List.{position_or_len};
ghost use Rattle.spec_text.specs.declared.surface.FieldForm.{FieldForm};
ghost use Rattle.spec_text.specs.declared.surface.Surface.{Surface};
ghost use Rattle.type_check.specs.declared.known.Known.TheVariants as the_known;
ghost use Rattle.type_check.specs.NamedType.{NamedType, Declarations};
ghost use Rattle.type_check.specs.TypeOrder.{ty_of, field_of, entry_of, types_of_text};
ghost use Rattle.type_check.specs.Standing.{IsDistinct, Means, AllMean, AreMembers};
ghost use Rattle.type_check.specs.Listed.{AreNumbers, AreStructs, struct_list, MayFollow, IsOrderOf, IsSomeOrder};

use crate::fault::TypeFault;
use crate::known::{BOOL, Element, Known};
use crate::structs::{Member, Structs};
use indexmap::IndexMap;
use sm_io::Name;
use std::alloc::Global;
use stream_types::{Field, StructFault, Ty, TypeEntry, Types};

/// The number of each type in an order of so many, and their count for a type that isn't there.
#[derive(Drop)]
pub struct Numbers {
    pub by_type: IndexMap<Known, u32>,
    pub count: u32,
}

/// The number of each type in the order.
pub fn numbered(alloc: Global, placed: &[Known]) -> Result<Numbers, TypeFault>
    requires few { length placed.now < 4294967295 }
    ensures ok { IfOk result (λ numbers. AreNumbers placed.now numbers.by_type.entries numbers.count) }
    ensures err { IfErr result (λ e. e ≡ TypeFault.Memory) }
{
    let mut by_type = IndexMap::new(alloc);
    let Ok(count) = u32::try_from(placed.len()) else {
        unreachable!();
    };
    for i in 0..count {
        let ty = placed[i as usize];
        if !by_type.contains_key(&ty) {
            by_type.insert(ty, i)?;
        }
    }
    Ok(Numbers { by_type, count })
}

impl Numbers {
    // The number of a type.
    fn of(&self, ty: Known) -> u32
        ensures { (placed : List Known) → AreNumbers placed self.now.by_type.entries self.now.count
            → result ≡ position_or_len (⟦<Known as PartialEq>⟧.eq ty) placed }
    {
        match self.by_type.get(&ty) {
            Some(number) => *number,
            None => self.count,
        }
    }

    fn element_ty(&self, elem: Element) -> Ty
        ensures { (names : List (List ℕ)) (placed : List Known) (order : List NamedType) (t : NamedType) → IsDistinct names
            → AreNumbers placed self.now.by_type.entries self.now.count → AllMean names placed order
            → Means names (the_known.Element elem) t → result ≡ ty_of order t }
    {
        match elem {
            Element::Scalar(s) => Ty::Scalar(s),
            Element::Struct(_) => Ty::Struct(self.of(Known::Element(elem))),
        }
    }

    /// A type by its number.
    pub fn ty(&self, ty: Known) -> Ty
        ensures { (names : List (List ℕ)) (placed : List Known) (order : List NamedType) (t : NamedType) → IsDistinct names
            → AreNumbers placed self.now.by_type.entries self.now.count → AllMean names placed order → Means names ty t
            → result ≡ ty_of order t }
    {
        match ty {
            Known::Element(elem) => self.element_ty(elem),
            Known::Array(..) => Ty::Array(self.of(ty)),
        }
    }
}

// The fields of a struct's members.
fn fields_of(alloc: Global, numbers: &Numbers, members: &[Member]) -> Result<Vec<Field>, TypeFault>
    ensures ok { (names : List (List ℕ)) (placed : List Known) (order : List NamedType) (before : Declarations) (forms : List FieldForm)
        → IsDistinct names → AreNumbers placed numbers.now.by_type.entries numbers.now.count → AllMean names placed order
        → AreMembers names before forms members.now → IfOk result (λ v. v.items ≡ map (field_of order before) forms) }
    ensures err { IfErr result (λ e. e ≡ TypeFault.Memory) }
{
    let mut fields = Vec::new(alloc);
    for member in members {
        let name = member.name.copy(alloc)?;
        let ty = numbers.ty(member.ty.unwrap_or(BOOL));
        fields.push(Field { name, ty })?;
    }
    Ok(fields)
}

// What the entry of a struct is made of.
#[derive(Drop)]
struct StructParts {
    name: Name,
    fields: Vec<Field>,
}

// What the entry of an element is made of, if it is a struct.
fn struct_entry(
    alloc: Global,
    structs: &Structs,
    numbers: &Numbers,
    elem: Element,
) -> Result<Option<StructParts>, TypeFault>
    ensures ok { (names : List (List ℕ)) (placed : List Known) (order : List NamedType) (all : Declarations) (t : NamedType)
        → IsDistinct names → AreNumbers placed numbers.now.by_type.entries numbers.now.count → AllMean names placed order
        → AreStructs names all structs.now.all.items → Means names (the_known.Element elem) t
        → IfOk result (λ e. struct_list e ≡ entry_of all order t) }
    ensures err { IfErr result (λ e. e ≡ TypeFault.Memory) }
{
    let Element::Struct(number) = elem else {
        return Ok(None);
    };
    let Some(found) = structs.numbered(number) else {
        return Ok(None);
    };
    let fields = fields_of(alloc, numbers, found.members.as_slice())?;
    let name = found.name.copy(alloc)?;
    Ok(Some(StructParts { name, fields }))
}

// Adds an array type that may be added, so that only memory can want.
fn add_array(types: &mut Types, elem: Ty, n: u32) -> Result<(), TypeFault>
    requires { MayFollow types.old (TypeEntry.Array elem n) }
    ensures ok { OnOk result (types.new ≡ types.old ++ TypeEntry.Array elem n ∷ []) }
    ensures err { IfErr result (λ e. e ≡ TypeFault.Memory) }
{
    match types.add_array(elem, n) {
        Ok(_) => Ok(()),
        Err(StructFault::Memory) => Err(TypeFault::Memory),
        Err(StructFault::DoubleField | StructFault::TooWide) => unreachable!(),
    }
}

// Adds a struct type that may be added, so that only memory can want.
fn add_struct(types: &mut Types, parts: StructParts) -> Result<(), TypeFault>
    requires { MayFollow types.old (TypeEntry.Struct parts.name parts.fields.items) }
    ensures ok { OnOk result (types.new ≡ types.old ++ TypeEntry.Struct parts.name parts.fields.items ∷ []) }
    ensures err { IfErr result (λ e. e ≡ TypeFault.Memory) }
{
    match types.add_struct(parts.name, parts.fields) {
        Ok(_) => Ok(()),
        Err(StructFault::Memory) => Err(TypeFault::Memory),
        Err(StructFault::DoubleField | StructFault::TooWide) => unreachable!(),
    }
}

/// The type list of a text, from its structs and the order of its types.
pub fn list(alloc: Global, structs: &Structs, placed: &[Known]) -> Result<Types, TypeFault>
    requires { IsSomeOrder structs.now.all.items placed.now }
    ensures ok { (s : Surface) → IsOrderOf s structs.now.all.items placed.now → IfOk result (λ types. types ≡ types_of_text s) }
    ensures err { IfErr result (λ e. e ≡ TypeFault.Memory) }
{
    let numbers = numbered(alloc, placed)?;
    let mut types = Types::new(alloc);
    for ty in placed {
        match *ty {
            Known::Array(elem, n) => {
                add_array(&mut types, numbers.element_ty(elem), n as u32)?;
            }
            Known::Element(elem) => {
                if let Some(parts) = struct_entry(alloc, structs, &numbers, elem)? {
                    add_struct(&mut types, parts)?;
                }
            }
        }
    }
    Ok(types)
}

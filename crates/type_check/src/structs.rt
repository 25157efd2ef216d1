// The structs of a text, and the types that are written with them.
ghost use Rattle.std.specs.Prelude.{◌≡◌, ℕ, List, ◌∷◌, length, Some, IfOk, IfErr, OnOk, option_copied, slice_get, bytes_eq};
ghost use Rattle.std.specs.Map.{lookup};
ghost use Rattle.type_check.specs.NamedType.{NamedType, Declarations, struct_in, struct_words, form_words};
ghost use Rattle.type_check.specs.Judged.{on_elements, on_record, judge_form, are_fields};
ghost use Rattle.type_check.specs.Standing.{Means, MeansOption, AllMean, IsDistinct, HasWords, IsVerdict, GivesForm, AreFirst, AreMembers, among_first, struct_words_at, element_words, capped};
ghost use Rattle.type_check.specs.Untyped.{struct_width};
ghost use Rattle.type_check.specs.Table.{IsTable};
ghost use Rattle.spec_text.specs.declared.surface.FieldForm.{FieldForm};
ghost use Rattle.spec_text.specs.declared.surface.Decl.TheVariants as decl;

use crate::fault::TypeFault;
use crate::known::{BOOL, Element, Known, if_so, is_same};
use indexmap::IndexMap;
use sm_io::{Name, Seq};
use spec_text::{FieldForm, NameAt, TypeForm};
use std::alloc::Global;

/// The most words of a type.
pub const MOST_WORDS: usize = 1024;

/// A member of a struct, and its type if it has one.
#[derive(Drop)]
pub struct Member {
    pub name: Name,
    pub ty: Option<Known>,
}

/// A struct, its members in order and its words, or 1,025 where it has more than 1,024.
#[derive(Drop)]
pub struct Struct {
    pub name: Name,
    pub members: Seq<Member>,
    pub words: usize,
}

/// The structs of a text in text order, and the number of each by its name.
#[derive(Drop)]
pub struct Structs {
    pub numbers: IndexMap<Name, usize>,
    pub all: Vec<Struct>,
}

// So many words, or 1,025 where there are more than 1,024.
fn capped(words: usize) -> usize
    ensures { result ≡ capped words }
{
    words.min(MOST_WORDS + 1)
}

impl Structs {
    /// The number of a struct that is one of the first.
    pub fn number(&self, closed: usize, name: &Name) -> Option<usize>
        ensures { result ≡ among_first closed (lookup (bytes_eq name.now) self.now.numbers.entries) }
    {
        let number = self.numbers.get(name).copied()?;
        if number < closed { Some(number) } else { None }
    }

    /// A struct by its number.
    pub fn numbered(&self, number: usize) -> Option<&Struct>
        ensures { option_copied result ≡ slice_get self.now.all.items number }
    {
        self.all.as_slice().get(number)
    }

    /// The words of a struct by its number, and none where there is no such struct.
    pub fn words_of(&self, number: usize) -> usize
        ensures { result ≡ struct_words_at self.now.all.items number }
    {
        match self.numbered(number) {
            Some(found) => found.words,
            None => 0,
        }
    }

    // The words of a struct by its name.
    fn words_named(&self, name: &Name) -> usize
        ensures { (names : List (List ℕ)) (ds : Declarations) → IsTable names ds self.now → result ≡ capped (struct_words ds name.now) }
    {
        match self.numbers.get(name) {
            Some(number) => self.words_of(*number),
            None => 0,
        }
    }

    // The words of a type that an array may be made of.
    fn words(&self, elem: Element) -> usize
        ensures { result ≡ element_words self.now.all.items elem }
    {
        match elem {
            Element::Scalar(_) => 1,
            Element::Struct(number) => self.words_of(number),
        }
    }

    /// The array of so many elements of a type.
    pub fn array(&self, at: u64, n: usize, elem: Known) -> Result<Known, TypeFault>
        ensures { (names : List (List ℕ)) (ds : Declarations) (t : NamedType) → Means names elem t → HasWords self.now.all.items elem ds t
            → IsVerdict names (on_elements ds at n t) result }
    {
        match elem {
            Known::Array(..) => Err(TypeFault::NestedArray(at)),
            Known::Element(elem) => {
                if n.saturating_mul(self.words(elem)) > MOST_WORDS {
                    return Err(TypeFault::TypeTooWide(at));
                }
                Ok(Known::Array(elem, n))
            }
        }
    }

    /// A written type, where the first structs are closed.
    pub fn form(&self, closed: usize, ty: &TypeForm) -> Result<Known, TypeFault>
        ensures { (names : List (List ℕ)) (before : Declarations) → AreFirst names before self.now closed
            → GivesForm names self.now.all.items before (judge_form before ty.now) result }
    {
        match ty {
            TypeForm::Scalar { scalar, .. } => Ok(Known::Element(Element::Scalar(*scalar))),
            TypeForm::Named(x) => match self.number(closed, &x.name) {
                Some(number) => Ok(Known::Element(Element::Struct(number))),
                None => Err(TypeFault::Unknown(x.at)),
            },
            TypeForm::Array { at, elem, n } => {
                match self.form(closed, elem.get()) {
                    Ok(elem) => self.array(*at, *n as usize, elem),
                    Err(e) => Err(e),
                }
            }
        }
    }

    /// A written type behind all of the structs, if it is one.
    pub fn latest(&self, ty: &TypeForm) -> Option<Known>
        ensures { (names : List (List ℕ)) (ds : Declarations) → IsTable names ds self.now → MeansOption names result (judge_form ds ty.now).ty }
    {
        match self.form(self.all.len(), ty) {
            Ok(ty) => Some(ty),
            Err(_) => None,
        }
    }

    // The words of a written type, faults aside.
    fn form_words(&self, ty: &TypeForm) -> usize
        ensures { (names : List (List ℕ)) (ds : Declarations) → IsTable names ds self.now → result ≡ capped (form_words (struct_words ds) ty.now) }
    {
        match ty {
            TypeForm::Scalar { .. } => 1,
            TypeForm::Named(x) => self.words_named(&x.name),
            TypeForm::Array { elem, n, .. } => {
                capped((*n as usize).saturating_mul(self.form_words(elem.get())))
            }
        }
    }

    // The words of all fields together.
    fn fields_words(&self, fields: &[FieldForm]) -> usize
        ensures { (names : List (List ℕ)) (ds : Declarations) → IsTable names ds self.now → result ≡ capped (struct_width ds fields.now) }
    {
        let mut words: usize = 0;
        for field in fields {
            words = capped(words.saturating_add(self.form_words(&field.ty)));
        }
        capped(words)
    }

    // The members of a struct behind these.
    fn members(&self, alloc: Global, fields: &[FieldForm]) -> Result<Vec<Member>, TypeFault>
        ensures ok { (names : List (List ℕ)) (ds : Declarations) → IsTable names ds self.now → IfOk result (λ v. AreMembers names ds fields.now v.items) }
        ensures err { IfErr result (λ e. e ≡ TypeFault.Memory) }
    {
        let mut members = Vec::new(alloc);
        for field in fields {
            let name = field.name.name.copy(alloc)?;
            let ty = self.latest(&field.ty);
            members.push(Member { name, ty })?;
        }
        Ok(members)
    }

    /// Takes in a struct.
    pub fn declare(
        &mut self,
        alloc: Global,
        name: &NameAt,
        fields: &[FieldForm],
    ) -> Result<(), TypeFault>
        ensures ok { (names : List (List ℕ)) (ds : Declarations) (at : ℕ) → IsTable names ds self.old
            → slice_get names (length self.old.all.items) ≡ Some name.now.name
            → OnOk result (IsTable names (decl.Struct at name.now fields.now ∷ ds) self.new) }
        ensures err { IfErr result (λ e. e ≡ TypeFault.Memory) }
    {
        let members = Seq::of(self.members(alloc, fields)?);
        let words = self.fields_words(fields);
        self.numbers.insert(name.name.copy(alloc)?, self.all.len())?;
        let name = name.name.copy(alloc)?;
        self.all.push(Struct {
            name,
            members,
            words,
        })?;
        Ok(())
    }
}

/// The record of a struct, of items of these types.
pub fn record_of(
    structs: &Structs,
    closed: usize,
    at: u64,
    name: &NameAt,
    items: &[Known],
) -> Result<Known, TypeFault>
    ensures { (names : List (List ℕ)) (before : Declarations) (ts : List NamedType) → IsDistinct names
        → AreFirst names before structs.now closed → AllMean names items.now ts
        → IsVerdict names (on_record (struct_in before name.now.name) at name.now ts) result }
{
    let Some(number) = structs.number(closed, &name.name) else {
        return Err(TypeFault::Unknown(name.at));
    };
    let fits = match structs.numbered(number) {
        Some(found) => are_members(found.members.as_slice(), items),
        None => false,
    };
    if_so(fits, Known::Element(Element::Struct(number)), at)
}

// Whether items are of the types of the members, in order. A member without a type counts as a truth value.
fn are_members(members: &[Member], items: &[Known]) -> bool
    ensures { (names : List (List ℕ)) (before : Declarations) (fields : List FieldForm) (ts : List NamedType) → IsDistinct names
        → AreMembers names before fields members.now → AllMean names items.now ts → result ≡ are_fields before fields ts }
{
    match (members.split_first(), items.split_first()) {
        (Some((member, members)), Some((item, items))) => {
            if !is_same(member.ty.unwrap_or(BOOL), *item) {
                return false;
            }
            are_members(members, items)
        }
        (None, None) => true,
        _ => false,
    }
}

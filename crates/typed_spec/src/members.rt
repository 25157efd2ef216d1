// The members of structs by their names.
ghost use Rattle.std.specs.Prelude.{◌≡◌, ◌≤◌, ℕ, List, [], Option, None, length, option_copied, bytes_eq};
ghost use Rattle.std.specs.List.{position_or_len};
ghost use Rattle.spec_text.specs.declared.surface.NameAt.{NameAt};
ghost use Rattle.type_check.specs.declared.structs.Member.{Member as MemberValue};
ghost use Rattle.type_check.specs.NamedType.{Struct as Declared, struct_in};
ghost use Rattle.type_check.specs.Judged.{Scope as Names, Judged, type_of, over_part};
ghost use Rattle.type_check.specs.Standing.{MeansOption};
ghost use Rattle.typed_text.specs.ReadSpec.{Numbers as Order, member_number, struct_name};
ghost use Rattle.typed_spec.specs.Texts.{StandsFor, IsKept};

use crate::arena::short;
use crate::text::Text;
use sm_io::Name;
use type_check::known::{Element, Known};
use type_check::structs::{Member, Struct};

/// The struct that a type is, if it is one.
pub fn struct_of(text: &Text, ty: Option<Known>) -> Option<&Struct>
    ensures { (names : List (List ℕ)) (s : Names) (n : Order) (j : Judged) → StandsFor names s n text.now → MeansOption names ty j.ty
        → IsKept names (struct_in s.all (struct_name (type_of j))) (option_copied result) }
{
    match ty {
        Some(Known::Element(Element::Struct(number))) => text.scope.structs.numbered(number),
        _ => None,
    }
}

// The place of the first member of this name, and the count of the members where none has it.
fn position(members: &[Member], name: &Name) -> usize
    ensures value { result ≡ position_or_len (λ (m : MemberValue). bytes_eq m.name name.now) members.now }
    ensures within { result ≤ length members.now }
{
    for i in 0..members.len() {
        if members[i].name == *name {
            return i;
        }
    }
    members.len()
}

/// The number of a struct's member.
pub fn member_number(found: Option<&Struct>, name: &Name) -> u32
    ensures { (names : List (List ℕ)) (o : Option Declared) → IsKept names o (option_copied found.entry) → result ≡ member_number o name.now }
{
    match found {
        Some(found) => short(position(found.members.as_slice(), name)),
        None => 0,
    }
}

/// The type of a struct's member, if it has one.
pub fn member_type(found: Option<&Struct>, name: &Name) -> Option<Known>
    ensures { (names : List (List ℕ)) (s : Names) (j : Judged) (at : ℕ) (x : NameAt) → struct_in s.all [] ≡ None → x.name ≡ name.now
        → IsKept names (struct_in s.all (struct_name (type_of j))) (option_copied found.entry)
        → MeansOption names result (over_part s.all at j x).ty }
{
    let members = found?.members.as_slice();
    members.get(position(members, name))?.ty
}

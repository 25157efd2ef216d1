// Types by the numbers of a text's structs.
ghost use Rattle.std.specs.Prelude.{◌≡◌, ℕ, List, [], ◌∷◌, ◌&&◌, not, true};
ghost use Rattle.std.specs.Option.{option_map_or};
ghost use Rattle.std.specs.List.{list_all, list_any};
ghost use Rattle.type_check.specs.NamedType.{NamedType};
ghost use Rattle.type_check.specs.Judged.{if_so};
ghost use Rattle.type_check.specs.Standing.{Means, IsVerdict, scalar_in, is_array_known, agree_known};

use crate::fault::TypeFault;
use stream_types::Scalar;

/// What an array may be made of: a scalar, or a struct by its number among the structs of the text.
#[derive(Clone, Copy, Debug, PartialEq, Eq, Hash)]
pub enum Element {
    Scalar(Scalar),
    Struct(usize),
}

/// A type: an element, or an array of so many of them.
#[derive(Clone, Copy, Debug, PartialEq, Eq, Hash)]
pub enum Known {
    Element(Element),
    Array(Element, usize),
}

/// The type of truth values.
pub const BOOL: Known = Known::Element(Element::Scalar(Scalar::Bool));

/// The type of an index.
pub const WORD32: Known = Known::Element(Element::Scalar(Scalar::Word32));

/// Whether two types are one.
pub fn is_same(a: Known, b: Known) -> bool
    ensures { result ≡ ⟦<Known as PartialEq>⟧.eq a b }
{
    a == b
}

/// Whether all of some types are this one.
pub fn are_all(ty: Known, others: &[Known]) -> bool
    ensures { result ≡ list_all (λ other. ⟦<Known as PartialEq>⟧.eq ty other) others.now }
{
    others.iter().all(|other| ty == *other)
}

/// Whether a type is an array.
fn is_array(ty: Known) -> bool
    ensures { result ≡ is_array_known ty }
{
    matches!(ty, Known::Array(..))
}

/// Whether one of some types is an array.
pub fn has_array(types: &[Known]) -> bool
    ensures { result ≡ list_any is_array_known types.now }
{
    types.iter().any(|ty| is_array(*ty))
}

/// The scalar that a type is.
pub fn scalar_of(ty: Known) -> Option<Scalar>
    ensures { result ≡ scalar_in ty }
{
    match ty {
        Known::Element(Element::Scalar(s)) => Some(s),
        _ => None,
    }
}

/// Whether two facts hold.
pub fn both(a: bool, b: bool) -> bool
    ensures { result ≡ (a && b) }
{
    a && b
}

// Whether a type differs from this one. A missing type differs from none.
fn differs(part: Option<Known>, ty: Known) -> bool
    ensures { result ≡ not (option_map_or (λ k. ⟦<Known as PartialEq>⟧.eq k ty) part true) }
{
    match part {
        Some(other) => !is_same(other, ty),
        None => false,
    }
}

/// Whether there are as many types in both rows, and none differs from its other one. A missing type differs from none.
pub fn agree(some: &[Option<Known>], others: &[Known]) -> bool
    ensures { result ≡ agree_known some.now others.now }
{
    if some.len() != others.len() {
        return false;
    }
    for i in 0..some.len() {
        if differs(some[i], others[i]) {
            return false;
        }
    }
    true
}

/// This type where a form's parts fit it, and else that they clash.
pub fn if_so(fits: bool, ty: Known, at: u64) -> Result<Known, TypeFault>
    ensures { (names : List (List ℕ)) (t : NamedType) → Means names ty t → IsVerdict names (if_so fits t (TypeFault.TypeClash at)) result }
{
    if fits {
        Ok(ty)
    } else {
        Err(TypeFault::TypeClash(at))
    }
}

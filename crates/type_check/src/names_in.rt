// Names, drops and members in expressions.
ghost use Rattle.std.specs.Prelude.{◌≡◌, ℕ, List};
ghost use Rattle.spec_text.specs.declared.surface.FieldForm.{FieldForm};
ghost use Rattle.type_check.specs.declared.order.Order.{Order as OrderValue};
ghost use Rattle.type_check.specs.NamedType.{NamedType, Declarations};
ghost use Rattle.type_check.specs.Judged.{Scope as Names, Judged, Named, named_in, member_in, on_drop, over_name, over_drop, over_part};
ghost use Rattle.type_check.specs.Standing.{Means, IsVerdict, AreMembers, IsMemberIn, IsScope, IsTyped, Gives, kind_of};

use crate::fault::TypeFault;
use crate::known::{Element, Known};
use crate::order::Order;
use crate::scope::{Kind, Scope};
use crate::structs::Member;
use sm_io::Name;
use spec_text::NameAt;

/// A stream keeps as many values as it begins with.
pub fn on_drop(at: u64, k: u32, kind: Kind, ty: Known) -> Result<Known, TypeFault>
    ensures { (names : List (List ℕ)) (n : Named) (t : NamedType) → kind ≡ kind_of n → Means names ty t → IsVerdict names (on_drop at k n t) result }
{
    match kind {
        Kind::Kept(n) => {
            if (k as usize) < n {
                Ok(ty)
            } else {
                Err(TypeFault::DropTooFar(at))
            }
        }
        Kind::Unkept => Err(TypeFault::DropOfNoBuffer(at)),
    }
}

/// The name of an item.
pub fn name(scope: &Scope, order: &mut Order, x: &NameAt) -> Result<Option<Known>, TypeFault>
    ensures { (names : List (List ℕ)) (s : Names) → IsScope names s scope.now
        → Gives names scope.now.closed order.old order.new (over_name x.now (named_in s.all x.now.name)) result }
{
    let Some(item) = scope.find(&x.name) else {
        return Err(TypeFault::Unknown(x.at));
    };
    match item.ty {
        Some(ty) => scope.node(order, Ok(ty)),
        None => Ok(None),
    }
}

/// A drop of so many values.
pub fn drop_of(
    scope: &Scope,
    order: &mut Order,
    at: u64,
    k: u32,
    x: &NameAt,
) -> Result<Option<Known>, TypeFault>
    ensures { (names : List (List ℕ)) (s : Names) → IsScope names s scope.now
        → Gives names scope.now.closed order.old order.new (over_drop at k x.now (named_in s.all x.now.name)) result }
{
    let Some(item) = scope.find(&x.name) else {
        return Err(TypeFault::Unknown(x.at));
    };
    match item.ty {
        Some(ty) => scope.node(order, on_drop(at, k, item.kind, ty)),
        None => Ok(None),
    }
}

// The type of a member of this name, which has one or not.
fn member_in(members: &[Member], name: &Name) -> Option<Option<Known>>
    ensures { (names : List (List ℕ)) (before : Declarations) (fields : List FieldForm) → AreMembers names before fields members.now
        → IsMemberIn names before (member_in fields name.now) result }
{
    let (member, members) = members.split_first()?;
    if member.name == *name {
        return Some(member.ty);
    }
    member_in(members, name)
}

/// A member of a value of this type.
pub fn member(
    scope: &Scope,
    order: &mut Order,
    at: u64,
    a: Known,
    x: &NameAt,
) -> Result<Option<Known>, TypeFault>
    ensures { (names : List (List ℕ)) (s : Names) (start : OrderValue) (j : Judged) → IsScope names s scope.now
        → IsTyped names scope.now.closed start order.old j (Some a)
        → Gives names scope.now.closed start order.new (over_part s.all at j x.now) result }
{
    let Known::Element(elem) = a else {
        return Err(TypeFault::TypeClash(at));
    };
    let Element::Struct(number) = elem else {
        return Err(TypeFault::TypeClash(at));
    };
    let Some(found) = scope.structs.numbered(number) else {
        return Err(TypeFault::Unknown(x.at));
    };
    let Some(ty) = member_in(found.members.as_slice(), &x.name) else {
        return Err(TypeFault::Unknown(x.at));
    };
    match ty {
        Some(ty) => scope.node(order, Ok(ty)),
        None => Ok(None),
    }
}

// The type of a node by those of its parts, or why it has none.
ghost use Rattle.std.specs.Prelude.{◌≡◌, ℕ, List, [], ◌∷◌};
ghost use Rattle.stream_types.specs.Scalars.{is_integer, op2_gives};
ghost use Rattle.type_check.specs.NamedType.{NamedType, Declarations, bool};
ghost use Rattle.type_check.specs.Judged.{on_one, on_two, on_shift, on_cast, on_index, on_integer, on_choice, on_truths, on_votes, on_items};
ghost use Rattle.type_check.specs.Standing.{Means, AllMean, IsDistinct, IsVerdict, ItemsHaveWords};

use crate::fault::TypeFault;
use crate::known::{
    BOOL, Element, Known, WORD32, are_all, both, has_array, if_so, is_same, scalar_of,
};
use crate::structs::Structs;
use stream_types::{Op1, Op2, Scalar, cast_applies, op1_applies, op2_applies, shift_applies};

fn is_integer(s: Scalar) -> bool
    ensures { result ≡ is_integer s }
{
    !matches!(s, Scalar::Bool)
}

// The scalar of an operator's answer.
fn answer_of(op: Op2, s: Scalar) -> Scalar
    ensures { result ≡ op2_gives op s }
{
    match op {
        Op2::Eq | Op2::Ne | Op2::Lt | Op2::Le | Op2::Gt | Op2::Ge => Scalar::Bool,
        _ => s,
    }
}

pub fn on_one(at: u64, op: Op1, a: Known) -> Result<Known, TypeFault>
    ensures { (names : List (List ℕ)) (t : NamedType) → Means names a t → IsVerdict names (on_one at op t) result }
{
    let Some(s) = scalar_of(a) else {
        return Err(TypeFault::TypeClash(at));
    };
    if_so(op1_applies(op, s), a, at)
}

pub fn on_two(at: u64, op: Op2, a: Known, b: Known) -> Result<Known, TypeFault>
    ensures { (names : List (List ℕ)) (t u : NamedType) → IsDistinct names → Means names a t → Means names b u → IsVerdict names (on_two at op t u) result }
{
    let Some(s) = scalar_of(a) else {
        return Err(TypeFault::TypeClash(at));
    };
    let answer = Known::Element(Element::Scalar(answer_of(op, s)));
    if_so(both(op2_applies(op, s), is_same(a, b)), answer, at)
}

pub fn on_shift(at: u64, a: Known, count: Known) -> Result<Known, TypeFault>
    ensures { (names : List (List ℕ)) (t u : NamedType) → Means names a t → Means names count u → IsVerdict names (on_shift at t u) result }
{
    let Some(s) = scalar_of(a) else {
        return Err(TypeFault::TypeClash(at));
    };
    let Some(c) = scalar_of(count) else {
        return Err(TypeFault::TypeClash(at));
    };
    if_so(shift_applies(s, c), a, at)
}

pub fn on_cast(at: u64, to: Known, from: Known) -> Result<Known, TypeFault>
    ensures { (names : List (List ℕ)) (t u : NamedType) → Means names to t → Means names from u → IsVerdict names (on_cast at t u) result }
{
    let Some(s) = scalar_of(to) else {
        return Err(TypeFault::TypeClash(at));
    };
    let Some(c) = scalar_of(from) else {
        return Err(TypeFault::TypeClash(at));
    };
    if_so(cast_applies(c, s), to, at)
}

pub fn on_index(at: u64, a: Known, i: Known) -> Result<Known, TypeFault>
    ensures { (names : List (List ℕ)) (t u : NamedType) → IsDistinct names → Means names a t → Means names i u → IsVerdict names (on_index at t u) result }
{
    match a {
        Known::Array(elem, _) => if_so(is_same(i, WORD32), Known::Element(elem), at),
        Known::Element(_) => Err(TypeFault::TypeClash(at)),
    }
}

pub fn on_integer(at: u64, a: Known) -> Result<Known, TypeFault>
    ensures { (names : List (List ℕ)) (t : NamedType) → Means names a t → IsVerdict names (on_integer at t) result }
{
    let Some(s) = scalar_of(a) else {
        return Err(TypeFault::TypeClash(at));
    };
    if_so(is_integer(s), a, at)
}

pub fn on_choice(at: u64, c: Known, a: Known, b: Known) -> Result<Known, TypeFault>
    ensures { (names : List (List ℕ)) (s t u : NamedType) → IsDistinct names → Means names c s → Means names a t → Means names b u
        → IsVerdict names (on_choice at s t u) result }
{
    if_so(both(is_same(c, BOOL), is_same(a, b)), a, at)
}

pub fn on_truth(at: u64, p: Known) -> Result<Known, TypeFault>
    ensures { (names : List (List ℕ)) (t : NamedType) → IsDistinct names → Means names p t → IsVerdict names (on_truths at (t ∷ [])) result }
{
    if_so(is_same(p, BOOL), BOOL, at)
}

pub fn on_truths(at: u64, p: Known, q: Known) -> Result<Known, TypeFault>
    ensures { (names : List (List ℕ)) (t u : NamedType) → IsDistinct names → Means names p t → Means names q u
        → IsVerdict names (on_truths at (t ∷ u ∷ [])) result }
{
    if_so(both(is_same(p, BOOL), is_same(q, BOOL)), BOOL, at)
}

/// Votes of one scalar type: that type.
pub fn on_votes(at: u64, votes: &[Known]) -> Result<Known, TypeFault>
    ensures { (names : List (List ℕ)) (ts : List NamedType) → IsDistinct names → AllMean names votes.now ts
        → IsVerdict names (on_votes at (λ t. t) ts) result }
{
    let Some((first, others)) = votes.split_first() else {
        return Err(TypeFault::TypeClash(at));
    };
    let is_scalar = scalar_of(*first).is_some();
    if_so(both(is_scalar, are_all(*first, others)), *first, at)
}

/// Votes of one scalar type: whether they agree.
pub fn on_agreed(at: u64, votes: &[Known]) -> Result<Known, TypeFault>
    ensures { (names : List (List ℕ)) (ts : List NamedType) → IsDistinct names → AllMean names votes.now ts
        → IsVerdict names (on_votes at (λ t. bool) ts) result }
{
    let Some((first, others)) = votes.split_first() else {
        return Err(TypeFault::TypeClash(at));
    };
    let is_scalar = scalar_of(*first).is_some();
    if_so(both(is_scalar, are_all(*first, others)), BOOL, at)
}

/// Elements that are written one by one.
pub fn on_items(structs: &Structs, at: u64, items: &[Known]) -> Result<Known, TypeFault>
    ensures { (names : List (List ℕ)) (ds : Declarations) (ts : List NamedType) → IsDistinct names → AllMean names items.now ts
        → ItemsHaveWords structs.now.all.items ds items.now ts → IsVerdict names (on_items ds at ts) result }
{
    let Some((first, others)) = items.split_first() else {
        return Err(TypeFault::TypeClash(at));
    };
    if has_array(items) {
        return Err(TypeFault::NestedArray(at));
    }
    if !are_all(*first, others) {
        return Err(TypeFault::TypeClash(at));
    }
    structs.array(at, items.len(), *first)
}

// The type of a node by those of its parts, if it has one.
ghost use Rattle.std.specs.Prelude.{◌≡◌, ℕ, List, [], ◌∷◌, map, true, IfOk};
ghost use Rattle.std.specs.Option.{option_map};
ghost use Rattle.std.specs.Global.{Vec as VecValue};
ghost use Rattle.type_check.specs.NamedType.{bool, struct_in};
ghost use Rattle.type_check.specs.Judged.{Scope as Names, Judged, Verdict, judged, type_of, types_of, have_types, named_in, over_name, over_drop, on_one, on_two, on_shift, on_truths, on_choice, on_integer, on_cast, on_index, on_items, on_record, on_votes};
ghost use Rattle.type_check.specs.Standing.{MeansOption, AllMeanOption, IsDistinct, IsScope, IsVerdict, all_known, ty_of_part};
ghost use Rattle.typed_text.specs.ReadSpec.{scalar_in};

use spec_text::NameAt;
use std::alloc::{AllocError, Global};
use stream_types::{Op1, Op2, Scalar};
use type_check::fault::TypeFault;
use type_check::known::{Element, Known};
use type_check::names_in::on_drop;
use type_check::parts::all_typed;
use type_check::scope::Scope;
use type_check::structs::record_of;
use type_check::verdicts::{
    on_agreed, on_cast, on_choice, on_index, on_integer, on_items, on_one, on_shift, on_truth,
    on_truths, on_two, on_votes,
};

/// The scalar that a type is, and Bool for a type that is none.
pub fn scalar_of(ty: Option<Known>) -> Scalar
    ensures { (names : List (List ℕ)) (j : Judged) → MeansOption names ty j.ty → result ≡ scalar_in (type_of j) }
{
    match ty {
        Some(Known::Element(Element::Scalar(s))) => s,
        _ => Scalar::Bool,
    }
}

// The type that a verdict tells.
fn told(verdict: Result<Known, TypeFault>) -> Option<Known>
    ensures { (names : List (List ℕ)) (ps : List Judged) (v : Verdict) → have_types ps ≡ true → IsVerdict names v verdict
        → MeansOption names result (judged ps v).ty }
{
    match verdict {
        Ok(ty) => Some(ty),
        Err(_) => None,
    }
}

pub fn one(at: u64, op: Op1, a: Option<Known>) -> Option<Known>
    ensures { (names : List (List ℕ)) (p : Judged) → MeansOption names a p.ty → MeansOption names result (judged (p ∷ []) (on_one at op (type_of p))).ty }
{
    told(on_one(at, op, a?))
}

pub fn two(at: u64, op: Op2, a: Option<Known>, b: Option<Known>) -> Option<Known>
    ensures { (names : List (List ℕ)) (p q : Judged) → IsDistinct names → MeansOption names a p.ty → MeansOption names b q.ty
        → MeansOption names result (judged (p ∷ q ∷ []) (on_two at op (type_of p) (type_of q))).ty }
{
    told(on_two(at, op, a?, b?))
}

pub fn shifted(at: u64, a: Option<Known>, count: Option<Known>) -> Option<Known>
    ensures { (names : List (List ℕ)) (p q : Judged) → MeansOption names a p.ty → MeansOption names count q.ty
        → MeansOption names result (judged (p ∷ q ∷ []) (on_shift at (type_of p) (type_of q))).ty }
{
    told(on_shift(at, a?, count?))
}

pub fn truth(at: u64, p: Option<Known>) -> Option<Known>
    ensures { (names : List (List ℕ)) (j : Judged) → IsDistinct names → MeansOption names p j.ty
        → MeansOption names result (judged (j ∷ []) (on_truths at (type_of j ∷ []))).ty }
{
    told(on_truth(at, p?))
}

pub fn truths(at: u64, p: Option<Known>, q: Option<Known>) -> Option<Known>
    ensures { (names : List (List ℕ)) (j l : Judged) → IsDistinct names → MeansOption names p j.ty → MeansOption names q l.ty
        → MeansOption names result (judged (j ∷ l ∷ []) (on_truths at (type_of j ∷ type_of l ∷ []))).ty }
{
    told(on_truths(at, p?, q?))
}

pub fn choice(at: u64, c: Option<Known>, a: Option<Known>, b: Option<Known>) -> Option<Known>
    ensures { (names : List (List ℕ)) (j p q : Judged) → IsDistinct names → MeansOption names c j.ty → MeansOption names a p.ty
        → MeansOption names b q.ty → MeansOption names result (judged (j ∷ p ∷ q ∷ []) (on_choice at (type_of j) (type_of p) (type_of q))).ty }
{
    told(on_choice(at, c?, a?, b?))
}

pub fn integer(at: u64, a: Option<Known>) -> Option<Known>
    ensures { (names : List (List ℕ)) (p : Judged) → MeansOption names a p.ty → MeansOption names result (judged (p ∷ []) (on_integer at (type_of p))).ty }
{
    told(on_integer(at, a?))
}

pub fn cast(at: u64, to: Option<Known>, a: Option<Known>) -> Option<Known>
    ensures { (names : List (List ℕ)) (p q : Judged) → MeansOption names to p.ty → MeansOption names a q.ty
        → MeansOption names result (judged (p ∷ q ∷ []) (on_cast at (type_of p) (type_of q))).ty }
{
    told(on_cast(at, to?, a?))
}

pub fn index(at: u64, a: Option<Known>, i: Option<Known>) -> Option<Known>
    ensures { (names : List (List ℕ)) (p q : Judged) → IsDistinct names → MeansOption names a p.ty → MeansOption names i q.ty
        → MeansOption names result (judged (p ∷ q ∷ []) (on_index at (type_of p) (type_of q))).ty }
{
    told(on_index(at, a?, i?))
}

/// The type that a name is declared with.
pub fn declared(scope: &Scope, x: &NameAt) -> Option<Known>
    ensures { (names : List (List ℕ)) (s : Names) → IsScope names s scope.now → MeansOption names result (over_name x.now (named_in s.all x.now.name)).ty }
{
    scope.find(&x.name)?.ty
}

/// The type of a drop of so many values.
pub fn dropped(scope: &Scope, at: u64, k: u32, x: &NameAt) -> Option<Known>
    ensures { (names : List (List ℕ)) (s : Names) → IsScope names s scope.now → MeansOption names result (over_drop at k x.now (named_in s.all x.now.name)).ty }
{
    let item = scope.find(&x.name)?;
    told(on_drop(at, k, item.kind, item.ty?))
}

pub fn items_type(
    scope: &Scope,
    at: u64,
    items: &[Option<Known>],
) -> Result<Option<Known>, AllocError>
    ensures { (names : List (List ℕ)) (s : Names) (ps : List Judged) → IsScope names s scope.now → AllMeanOption names items.now (map ty_of_part ps)
        → IfOk result (λ ty. MeansOption names ty (judged ps (on_items s.all at (types_of ps))).ty) }
{
    match typed(scope.alloc, items)? {
        Some(items) => Ok(told(on_items(&scope.structs, at, items.as_slice()))),
        None => Ok(None),
    }
}

pub fn record_type(
    scope: &Scope,
    at: u64,
    name: &NameAt,
    items: &[Option<Known>],
) -> Result<Option<Known>, AllocError>
    ensures { (names : List (List ℕ)) (s : Names) (ps : List Judged) → IsScope names s scope.now → AllMeanOption names items.now (map ty_of_part ps)
        → IfOk result (λ ty. MeansOption names ty (judged ps (on_record (struct_in s.before name.now.name) at name.now (types_of ps))).ty) }
{
    match typed(scope.alloc, items)? {
        Some(items) => Ok(told(record_of(
            &scope.structs,
            scope.closed,
            at,
            name,
            items.as_slice(),
        ))),
        None => Ok(None),
    }
}

pub fn majority_of(
    alloc: Global,
    at: u64,
    votes: &[Option<Known>],
) -> Result<Option<Known>, AllocError>
    ensures { (names : List (List ℕ)) (ps : List Judged) → IsDistinct names → AllMeanOption names votes.now (map ty_of_part ps)
        → IfOk result (λ ty. MeansOption names ty (judged ps (on_votes at (λ t. t) (types_of ps))).ty) }
{
    match typed(alloc, votes)? {
        Some(votes) => Ok(told(on_votes(at, votes.as_slice()))),
        None => Ok(None),
    }
}

pub fn agreement(
    alloc: Global,
    at: u64,
    votes: &[Option<Known>],
) -> Result<Option<Known>, AllocError>
    ensures { (names : List (List ℕ)) (ps : List Judged) → IsDistinct names → AllMeanOption names votes.now (map ty_of_part ps)
        → IfOk result (λ ty. MeansOption names ty (judged ps (on_votes at (λ t. bool) (types_of ps))).ty) }
{
    match typed(alloc, votes)? {
        Some(votes) => Ok(told(on_agreed(at, votes.as_slice()))),
        None => Ok(None),
    }
}

// The types of some parts, if each has one.
fn typed(alloc: Global, parts: &[Option<Known>]) -> Result<Option<Vec<Known>>, AllocError>
    ensures { IfOk result (λ types. option_map (λ (v : VecValue Known). v.items) types ≡ all_known parts.now) }
{
    match all_typed(alloc, parts) {
        Ok(types) => Ok(types),
        Err(_) => Err(AllocError),
    }
}

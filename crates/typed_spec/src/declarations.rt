// The items of declarations.
ghost use Rattle.std.specs.Prelude.{◌≡◌, ◌<◌, ◌≤◌, ◌+◌, ℕ, List, [], ◌∷◌, IfOk, OnOk};
ghost use Rattle.spec_text.specs.declared.surface.Decl.TheVariants as decl;
ghost use Rattle.type_check.specs.Judged.{Scope as Names};
ghost use Rattle.typed_text.specs.ReadSpec.{Numbers as Order};
ghost use Rattle.typed_spec.specs.Added.{MakesRoots, Adds, next_of, item_total};
ghost use Rattle.typed_spec.specs.Texts.{StandsFor};

use crate::arena::Arena;
use crate::constants::constants;
use crate::expressions::expr;
use crate::places::place;
use crate::text::Text;
use sm_io::Seq;
use spec_text::{ConstForm, Expr, NameAt, TypeForm};
use std::alloc::AllocError;
use stream_core::{DefItem, ExternItem, Item, ObserverItem, Root, StreamItem, TriggerItem};

// An expression with its type and its place.
fn root(text: &Text, arena: &mut Arena, e: &Expr) -> Result<Root, AllocError>
    ensures others { arena.new.spec ≡ record arena.old.spec { nodes = arena.new.spec.nodes } }
    ensures made { (names : List (List ℕ)) (s : Names) (n : Order) → StandsFor names s n text.now
        → IfOk result (λ r. MakesRoots n s arena.old arena.new (r ∷ []) (e.now ∷ [])) }
{
    let value = expr(text, arena, e)?;
    Ok(Root {
        expr: value.id,
        ty: text.ty(value.ty),
        at: place(e),
    })
}

// Expressions one after another.
fn roots(text: &Text, arena: &mut Arena, all: &[Expr]) -> Result<Vec<Root>, AllocError>
    ensures others { arena.new.spec ≡ record arena.old.spec { nodes = arena.new.spec.nodes } }
    ensures made { (names : List (List ℕ)) (s : Names) (n : Order) → StandsFor names s n text.now
        → IfOk result (λ rs. MakesRoots n s arena.old arena.new rs.items all.now) }
{
    let mut roots = Vec::new(text.scope.alloc);
    for e in all {
        let next = root(text, arena, e)?;
        roots.push(next)?;
    }
    Ok(roots)
}

pub fn extern_item(
    text: &Text,
    arena: &mut Arena,
    name: &NameAt,
    ty: &TypeForm,
) -> Result<(), AllocError>
    requires room { item_total arena.old.spec < 4294967295 }
    ensures adds { (names : List (List ℕ)) (s : Names) (n : Order) (at : ℕ) → StandsFor names s n text.now
        → OnOk result (Adds n s.all arena.old arena.new (next_of s arena.old (decl.Extern at name.now ty.now) ∷ [])) }
    ensures total { OnOk result (item_total arena.new.spec ≡ item_total arena.old.spec + 1) }
{
    let name = name.name.copy(text.scope.alloc)?;
    let ty = text.ty(text.written(ty));
    arena.spec.add(Item::Extern(ExternItem { name, ty }))
}

pub fn stream_item(
    text: &Text,
    arena: &mut Arena,
    name: &NameAt,
    ty: &TypeForm,
    init: &[ConstForm],
    e: &Expr,
) -> Result<(), AllocError>
    requires room { item_total arena.old.spec < 4294967295 }
    ensures adds { (names : List (List ℕ)) (s : Names) (n : Order) (at : ℕ) → StandsFor names s n text.now
        → OnOk result (Adds n s.all arena.old arena.new (next_of s arena.old (decl.Stream at name.now ty.now init.now e.now) ∷ [])) }
    ensures total { OnOk result (item_total arena.new.spec ≡ item_total arena.old.spec + 1) }
{
    let name = name.name.copy(text.scope.alloc)?;
    let ty = text.ty(text.written(ty));
    let mut words = Vec::new(text.scope.alloc);
    constants(&mut words, init)?;
    let next = root(text, arena, e)?;
    arena.spec.add(Item::Stream(StreamItem {
        name,
        ty,
        init: Seq::of(words),
        expr: next.expr,
        at: next.at,
    }))
}

pub fn def_item(
    text: &Text,
    arena: &mut Arena,
    at: u64,
    name: &NameAt,
    ty: &TypeForm,
    e: &Expr,
) -> Result<(), AllocError>
    requires room { item_total arena.old.spec < 4294967295 }
    ensures adds { (names : List (List ℕ)) (s : Names) (n : Order) → StandsFor names s n text.now
        → OnOk result (Adds n s.all arena.old arena.new (next_of s arena.old (decl.Def at name.now ty.now e.now) ∷ [])) }
    ensures total { OnOk result (item_total arena.new.spec ≡ item_total arena.old.spec + 1) }
{
    let name = name.name.copy(text.scope.alloc)?;
    let ty = text.ty(text.written(ty));
    let value = root(text, arena, e)?;
    arena.spec.add(Item::Def(DefItem {
        name,
        ty,
        expr: value.expr,
        at,
    }))
}

pub fn trigger_item(
    text: &Text,
    arena: &mut Arena,
    name: &NameAt,
    guard: &Expr,
    args: &[Expr],
) -> Result<(), AllocError>
    requires room { item_total arena.old.spec < 4294967295 }
    ensures adds { (names : List (List ℕ)) (s : Names) (n : Order) (at : ℕ) → StandsFor names s n text.now
        → OnOk result (Adds n s.all arena.old arena.new (next_of s arena.old (decl.Trigger at name.now guard.now args.now) ∷ [])) }
    ensures total { OnOk result (item_total arena.new.spec ≡ item_total arena.old.spec + 1) }
{
    let name = name.name.copy(text.scope.alloc)?;
    let guard = root(text, arena, guard)?;
    let args = Seq::of(roots(text, arena, args)?);
    arena
        .spec
        .add(Item::Trigger(TriggerItem { name, guard, args }))
}

pub fn observer_item(
    text: &Text,
    arena: &mut Arena,
    name: &NameAt,
    e: &Expr,
) -> Result<(), AllocError>
    requires room { item_total arena.old.spec < 4294967295 }
    ensures adds { (names : List (List ℕ)) (s : Names) (n : Order) (at : ℕ) → StandsFor names s n text.now
        → OnOk result (Adds n s.all arena.old arena.new (next_of s arena.old (decl.Observer at name.now e.now) ∷ [])) }
    ensures total { OnOk result (item_total arena.new.spec ≡ item_total arena.old.spec + 1) }
{
    let name = name.name.copy(text.scope.alloc)?;
    let root = root(text, arena, e)?;
    arena.spec.add(Item::Observer(ObserverItem { name, root }))
}

// A surface as its typed specification.
ghost use Rattle.std.specs.Prelude.{◌≡◌, ◌≤◌, ◌<◌, ◌+◌, ℕ, List, [], ◌∷◌, ◌++◌, length, None, IfOk, OnOk};
ghost use Rattle.spec_text.specs.declared.surface.Decl.{Decl as DeclValue};
ghost use Rattle.spec_text.specs.Extent.{item_count, list_count, nesting};
ghost use Rattle.spec_text.specs.Form.{form_of};
ghost use Rattle.spec_text.specs.KeepsTable.{KeepsTable};
ghost use Rattle.stream_core.specs.Ordered.{Ordered};
ghost use Rattle.stream_core.specs.Term.{trees};
ghost use Rattle.type_check.specs.Checked.{type_fault};
ghost use Rattle.type_check.specs.Table.{struct_names};
ghost use Rattle.type_check.specs.TypeOrder.{types_of_text};
ghost use Rattle.type_check.specs.Untyped.{reversed, scope_of, all_of};
ghost use Rattle.type_check.specs.NamedType.{Declarations};
ghost use Rattle.typed_spec.specs.Added.{Adds, IsTextAt, next_of, item_total};
ghost use Rattle.typed_text.specs.ReadSpec.{Numbers as Order, numbers_of, placed, spec_of};
ghost use Rattle.typed_text.specs.InExpressions.{AreParts};

use crate::arena::Arena;
use crate::declarations::{def_item, extern_item, observer_item, stream_item, trigger_item};
use crate::text::Text;
use spec_text::{Decl, Surface};
use std::alloc::{AllocError, Global};
use stream_core::{Item, LibItem, Spec};
use stream_types::Types;
use type_check::checked::in_order;
use type_check::list::numbered;

// The next declaration.
fn decl(text: &mut Text, arena: &mut Arena, decl: &Decl) -> Result<(), AllocError>
    requires room { item_total arena.old.spec < 4294967295 }
    requires few { text.old.scope.closed < 4294967295 }
    ensures adds { (names : List (List ℕ)) (n : Order) (before : Declarations) (rest : List DeclValue)
        → IsTextAt names before (decl.now ∷ rest) n text.old
        → OnOk result (Adds n (reversed before (decl.now ∷ rest)) arena.old arena.new (next_of (scope_of before (reversed before (decl.now ∷ rest))) arena.old decl.now ∷ [])) }
    ensures text { (names : List (List ℕ)) (n : Order) (before : Declarations) (rest : List DeclValue)
        → IsTextAt names before (decl.now ∷ rest) n text.old → OnOk result (IsTextAt names (decl.now ∷ before) rest n text.new) }
    ensures total { OnOk result (item_total arena.new.spec ≤ item_total arena.old.spec + 1) }
    ensures closed { OnOk result (text.new.scope.closed ≤ text.old.scope.closed + 1) }
{
    match decl {
        Decl::Struct { .. } => {
            text.scope.closed += 1;
            Ok(())
        }
        Decl::Extern { name, ty, .. } => extern_item(text, arena, name, ty),
        Decl::Stream {
            name,
            ty,
            init,
            expr,
            ..
        } => stream_item(text, arena, name, ty, init.as_slice(), expr),
        Decl::Def { at, name, ty, expr } => def_item(text, arena, *at, name, ty, expr),
        Decl::Trigger {
            name,
            guard,
            args,
            ..
        } => trigger_item(text, arena, name, guard, args.as_slice()),
        Decl::Observer { name, expr, .. } => observer_item(text, arena, name, expr),
    }
}

// All declarations of a text.
fn decls(text: &mut Text, arena: &mut Arena, all: &[Decl]) -> Result<(), AllocError>
    requires room { item_total arena.old.spec + length all.now < 4294967295 }
    requires few { text.old.scope.closed + length all.now < 4294967295 }
    ensures adds { (names : List (List ℕ)) (n : Order) → IsTextAt names [] all.now n text.old → arena.old.forms.items ≡ []
        → OnOk result (Adds n (reversed [] all.now) arena.old arena.new (placed n (reversed [] all.now) [] 0 all.now)) }
{
    for next in all {
        decl(text, arena, next)?;
    }
    Ok(())
}

// The specification with its library forms.
fn with_forms(spec: &mut Spec, forms: Vec<LibItem>) -> Result<(), AllocError>
    requires { length spec.old.libs + length forms.items < 4294967296 }
    ensures { OnOk result (spec.new ≡ record spec.old { libs = spec.old.libs ++ forms.items }) }
{
    for form in forms {
        spec.add(Item::Lib(form))?;
    }
    Ok(())
}

// What the names and types of a text without faults stand for, before its first declaration. The only fault that is
// left is want of memory.
fn text_of(alloc: Global, surface: &Surface) -> Result<Text, AllocError>
    requires kept { KeepsTable surface.now }
    requires lists { list_count (form_of surface.now) ≤ 524288 }
    requires items { item_count (form_of surface.now) ≤ 1048576 }
    requires faultless { type_fault surface.now ≡ None }
    ensures { IfOk result (λ text. IsTextAt (struct_names (all_of surface.now)) [] surface.now.decls (numbers_of surface.now) text) }
{
    let Ok(text) = in_order(alloc, surface) else {
        return Err(AllocError);
    };
    let Ok(types) = numbered(alloc, text.order.placed.as_slice()) else {
        return Err(AllocError);
    };
    let mut scope = text.scope;
    scope.closed = 0;
    Text::of(alloc, scope, types, surface.decls.as_slice())
}

/// The typed specification of a text without faults, whose types these are.
///
/// The surface keeps the table of forms, and its canonical text nests at most 64 lists and has at most 524,288 lists
/// and 1,048,576 items.
pub fn spec_over(alloc: Global, surface: &Surface, types: Types) -> Result<Spec, AllocError>
    requires kept { KeepsTable surface.now }
    requires nested { nesting (form_of surface.now) ≤ 64 }
    requires lists { list_count (form_of surface.now) ≤ 524288 }
    requires items { item_count (form_of surface.now) ≤ 1048576 }
    requires faultless { type_fault surface.now ≡ None }
    requires types { types ≡ types_of_text surface.now }
    ensures trees { IfOk result (λ spec. trees spec ≡ spec_of surface.now) }
    ensures ordered { IfOk result (λ spec. Ordered spec.nodes spec.libs) }
    ensures parts { IfOk result (λ spec. AreParts spec) }
{
    let mut text = text_of(alloc, surface)?;
    let name = surface.name.copy(alloc)?;
    let mut arena = Arena {
        spec: Spec::new(alloc, name, types),
        forms: Vec::new(alloc),
    };
    decls(&mut text, &mut arena, surface.decls.as_slice())?;
    let mut spec = arena.spec;
    with_forms(&mut spec, arena.forms)?;
    // Each part of a node has a smaller number, as in any specification.
    let _ = spec.nodes();
    Ok(spec)
}

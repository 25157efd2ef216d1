// The first fault of types in a text, over its declarations in order.
ghost use Rattle.std.specs.Prelude.{◌≡◌, ◌+◌, ℕ, List, [], ◌∷◌, Some, OnOk, IfOk};
ghost use Rattle.spec_text.specs.declared.surface.NameAt.{NameAt};
ghost use Rattle.spec_text.specs.declared.surface.Decl.{Decl};
ghost use Rattle.spec_text.specs.declared.surface.Decl.TheVariants as decl;
ghost use Rattle.type_check.specs.NamedType.{Declarations};
ghost use Rattle.type_check.specs.Judged.{Scope as Names};
ghost use Rattle.type_check.specs.Untyped.{judge_decl, reversed, sent_types};
ghost use Rattle.type_check.specs.Standing.{IsScope, GivesDone, AllMeanOption};
ghost use Rattle.type_check.specs.Table.{HasSent};
ghost use Rattle.type_check.specs.Walked.{IsBetween, GivesPassed, GivesOrder};

use crate::declarations::{def, fields, fits, stream};
use crate::expressions::{expr, exprs};
use crate::fault::TypeFault;
use crate::known::{BOOL, Known, both, is_same};
use crate::order::Order;
use crate::parts::all_typed;
use crate::scope::Scope;
use crate::sent::{agrees, send};
use indexmap::IndexMap;
use sm_io::{Name, Seq};
use spec_text::{Decl, Expr, FieldForm, NameAt};

// The next struct, whose number has room in memory.
fn next_struct(
    scope: &mut Scope,
    order: &mut Order,
    at: u64,
    members: &[FieldForm],
) -> Result<(), TypeFault>
    ensures structs { scope.new.structs ≡ scope.old.structs }
    ensures items { scope.new.items ≡ scope.old.items }
    ensures closed { OnOk result (scope.new.closed ≡ scope.old.closed + 1) }
    ensures gives { (names : List (List ℕ)) (all before : Declarations) (rest : List Decl) (x : NameAt)
        → IsBetween names before (decl.Struct at x members.now ∷ rest) scope.old
        → GivesPassed names scope.old.closed scope.new.closed order.old order.new (judge_decl all before (decl.Struct at x members.now)) (decl.Struct at x members.now) result }
{
    fields(scope, order, members)?;
    let number = scope.closed;
    if scope.is_too_wide(number) {
        return Err(TypeFault::TypeTooWide(at));
    }
    let Some(next) = number.checked_add(1) else {
        return Err(TypeFault::Memory);
    };
    order.close(number)?;
    scope.closed = next;
    Ok(())
}

// The types of what a trigger sends, which keeps to the first of its name.
fn sends(
    scope: &Scope,
    order: &mut Order,
    sent: &IndexMap<Name, Seq<Option<Known>>>,
    at: u64,
    name: &NameAt,
    guard: &Expr,
    args: &[Expr],
) -> Result<Vec<Option<Known>>, TypeFault>
    ensures gives { (names : List (List ℕ)) (s : Names) → IsScope names s scope.now → HasSent names s.all s.before sent.now.entries
        → GivesDone names scope.now.closed order.old order.new (judge_decl s.all s.before (decl.Trigger at name.now guard.now args.now)) result }
    ensures types { (names : List (List ℕ)) (s : Names) → IsScope names s scope.now
        → IfOk result (λ v. AllMeanOption names v.items (sent_types s.all (Some (record { before = s.before; args = args.now })))) }
{
    let guard = expr(scope, order, guard)?;
    let parts = exprs(scope, order, args)?;
    let types = all_typed(scope.alloc, parts.as_slice())?;
    let Some(types) = types else {
        return Ok(parts);
    };
    let Some(guard) = guard else {
        return Ok(parts);
    };
    let fitting = both(
        is_same(guard, BOOL),
        agrees(sent, &name.name, types.as_slice()),
    );
    fits(fitting, at)?;
    Ok(parts)
}

// A trigger's declaration.
fn trigger(
    scope: &Scope,
    order: &mut Order,
    sent: &mut IndexMap<Name, Seq<Option<Known>>>,
    at: u64,
    name: &NameAt,
    guard: &Expr,
    args: &[Expr],
) -> Result<(), TypeFault>
    ensures gives { (names : List (List ℕ)) (s : Names) → IsScope names s scope.now → HasSent names s.all s.before sent.old.entries
        → GivesDone names scope.now.closed order.old order.new (judge_decl s.all s.before (decl.Trigger at name.now guard.now args.now)) result }
    ensures sent { (names : List (List ℕ)) (s : Names) → IsScope names s scope.now → HasSent names s.all s.before sent.old.entries
        → OnOk result (HasSent names s.all (decl.Trigger at name.now guard.now args.now ∷ s.before) sent.new.entries) }
{
    let parts = sends(scope, order, sent, at, name, guard, args)?;
    send(scope.alloc, sent, name, parts)
}

// The next declaration.
fn decl(
    scope: &mut Scope,
    order: &mut Order,
    sent: &mut IndexMap<Name, Seq<Option<Known>>>,
    decl: &Decl,
) -> Result<(), TypeFault>
    ensures gives { (names : List (List ℕ)) (before : Declarations) (rest : List Decl) → IsBetween names before (decl.now ∷ rest) scope.old
        → HasSent names (reversed before (decl.now ∷ rest)) before sent.old.entries
        → GivesPassed names scope.old.closed scope.new.closed order.old order.new (judge_decl (reversed before (decl.now ∷ rest)) before decl.now) decl.now result }
    ensures keeps { (names : List (List ℕ)) (before : Declarations) (rest : List Decl) → IsBetween names before (decl.now ∷ rest) scope.old
        → OnOk result (IsBetween names (decl.now ∷ before) rest scope.new) }
    ensures sent { (names : List (List ℕ)) (before : Declarations) (rest : List Decl) → IsBetween names before (decl.now ∷ rest) scope.old
        → HasSent names (reversed before (decl.now ∷ rest)) before sent.old.entries
        → OnOk result (HasSent names (reversed before (decl.now ∷ rest)) (decl.now ∷ before) sent.new.entries) }
{
    match decl {
        Decl::Struct { at, fields, .. } => next_struct(scope, order, *at, fields.as_slice()),
        Decl::Extern { ty, .. } => {
            scope.written(order, ty)?;
            Ok(())
        }
        Decl::Stream {
            at,
            ty,
            init,
            expr,
            ..
        } => stream(scope, order, *at, ty, init.as_slice(), expr),
        Decl::Def { at, ty, expr, .. } => def(scope, order, *at, ty, expr),
        Decl::Trigger {
            at,
            name,
            guard,
            args,
        } => trigger(scope, order, sent, *at, name, guard, args.as_slice()),
        Decl::Observer { expr: value, .. } => {
            expr(scope, order, value)?;
            Ok(())
        }
    }
}

/// Goes over all declarations of a text, and tells the order of its types.
pub fn walked(scope: &mut Scope, decls: &[Decl]) -> Result<Order, TypeFault>
    ensures gives { (names : List (List ℕ)) → IsBetween names [] decls.now scope.old → GivesOrder names decls.now result }
    ensures keeps { (names : List (List ℕ)) → IsBetween names [] decls.now scope.old → OnOk result (IsBetween names (reversed [] decls.now) [] scope.new) }
{
    let mut order = Order::new(scope.alloc);
    let mut sent = IndexMap::new(scope.alloc);
    for next in decls {
        decl(scope, &mut order, &mut sent, next)?;
    }
    Ok(order)
}

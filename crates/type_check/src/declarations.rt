// The parts of declarations, and those that keep nothing.
ghost use Rattle.std.specs.Prelude.{◌≡◌, ℕ, List, true, is_some, IfOk};
ghost use Rattle.std.specs.List.{list_all};
ghost use Rattle.spec_text.specs.declared.surface.NameAt.{NameAt};
ghost use Rattle.spec_text.specs.declared.surface.Decl.TheVariants as decl;
ghost use Rattle.type_check.specs.declared.order.Order.{Order as OrderValue};
ghost use Rattle.type_check.specs.NamedType.{Declarations, bool};
ghost use Rattle.type_check.specs.Judged.{Scope as Names, Judged, judged, if_so};
ghost use Rattle.type_check.specs.Untyped.{judge_fields, judge_decl};
ghost use Rattle.type_check.specs.Standing.{IsDistinct, AreFirst, IsScope, AreTypedParts, GivesParts, GivesDone, items_of};

use crate::constants::constants;
use crate::expressions::expr;
use crate::fault::TypeFault;
use crate::known::{Known, are_all, both, is_same};
use crate::order::Order;
use crate::parts::all_typed;
use crate::scope::Scope;
use spec_text::{ConstForm, Expr, FieldForm, TypeForm};

/// That a declaration's parts, which have types, fit, or else its fault.
pub fn fits(fits: bool, at: u64) -> Result<(), TypeFault>
    ensures { (names : List (List ℕ)) (n : ℕ) (old new : OrderValue) (ps : List Judged) → AreTypedParts names n old new ps
        → GivesDone names n old new (judged ps (if_so fits bool (TypeFault.TypeClash at))) result }
{
    if fits {
        Ok(())
    } else {
        Err(TypeFault::TypeClash(at))
    }
}

/// The types of fields, each of which is written behind the structs that have ended.
pub fn fields(
    scope: &Scope,
    order: &mut Order,
    fields: &[FieldForm],
) -> Result<Vec<Option<Known>>, TypeFault>
    ensures gives { (names : List (List ℕ)) (before : Declarations) → IsDistinct names
        → AreFirst names before scope.now.structs scope.now.closed
        → GivesParts names scope.now.closed order.old order.new (judge_fields before fields.now) (items_of result) }
    ensures all { IfOk result (λ v. list_all is_some v.items ≡ true) }
{
    let mut parts = Vec::new(scope.alloc);
    for field in fields {
        let ty = scope.written(order, &field.ty)?;
        parts.push(Some(ty))?;
    }
    Ok(parts)
}

/// A stream's declaration.
pub fn stream(
    scope: &Scope,
    order: &mut Order,
    at: u64,
    ty: &TypeForm,
    init: &[ConstForm],
    e: &Expr,
) -> Result<(), TypeFault>
    ensures { (names : List (List ℕ)) (s : Names) (x : NameAt) → IsScope names s scope.now
        → GivesDone names scope.now.closed order.old order.new (judge_decl s.all s.before (decl.Stream at x ty.now init.now e.now)) result }
{
    let ty = scope.written(order, ty)?;
    let parts = constants(scope, order, init)?;
    let value = expr(scope, order, e)?;
    let values = all_typed(scope.alloc, parts.as_slice())?;
    let Some(values) = values else {
        return Ok(());
    };
    let Some(value) = value else {
        return Ok(());
    };
    fits(both(are_all(ty, values.as_slice()), is_same(ty, value)), at)
}

/// A def's declaration.
pub fn def(
    scope: &Scope,
    order: &mut Order,
    at: u64,
    ty: &TypeForm,
    e: &Expr,
) -> Result<(), TypeFault>
    ensures { (names : List (List ℕ)) (s : Names) (x : NameAt) → IsScope names s scope.now
        → GivesDone names scope.now.closed order.old order.new (judge_decl s.all s.before (decl.Def at x ty.now e.now)) result }
{
    let ty = scope.written(order, ty)?;
    match expr(scope, order, e)? {
        Some(value) => fits(is_same(ty, value), at),
        None => Ok(()),
    }
}

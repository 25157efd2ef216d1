// The types of constants.
ghost use Rattle.std.specs.Prelude.{◌≡◌, ℕ, List, map};
ghost use Rattle.spec_text.specs.declared.surface.ConstForm.TheOpen.{ConstForm-F};
ghost use Rattle.type_check.specs.Judged.{Scope as Names, judge_const, const_step};
ghost use Rattle.type_check.specs.Standing.{IsScope, Gives, GivesParts, items_of};

use crate::fault::TypeFault;
use crate::known::{Element, Known};
use crate::order::Order;
use crate::parts::all_typed;
use crate::scope::Scope;
use crate::structs::record_of;
use crate::verdicts::on_items;
use spec_text::{ConstForm, NameAt};

/// The type of a constant, if all of its parts have types.
#[cycle(constants)]
pub fn constant(
    scope: &Scope,
    order: &mut Order,
    form: &ConstForm,
) -> Result<Option<Known>, TypeFault>
    ensures { (names : List (List ℕ)) (s : Names) → IsScope names s scope.now
        → Gives names scope.now.closed order.old order.new (judge_const s form.now) result }
{
    match form {
        ConstForm::Lit { scalar, .. } => scope.node(
            order,
            Ok(Known::Element(Element::Scalar(*scalar))),
        ),
        ConstForm::Array { at, items } => array_constant(scope, order, *at, items.as_slice()),
        ConstForm::Record { at, name, items } => {
            record_constant(scope, order, *at, items.as_slice(), name)
        }
    }
}

#[cycle(constants)]
fn array_constant(
    scope: &Scope,
    order: &mut Order,
    at: u64,
    items: &[ConstForm],
) -> Result<Option<Known>, TypeFault>
    ensures { (names : List (List ℕ)) (s : Names) → IsScope names s scope.now
        → Gives names scope.now.closed order.old order.new (const_step s (ConstForm-F.Array at (map (judge_const s) items.now))) result }
{
    let parts = constants(scope, order, items)?;
    match all_typed(scope.alloc, parts.as_slice())? {
        Some(types) => scope.node(order, on_items(&scope.structs, at, types.as_slice())),
        None => Ok(None),
    }
}

#[cycle(constants)]
fn record_constant(
    scope: &Scope,
    order: &mut Order,
    at: u64,
    items: &[ConstForm],
    name: &NameAt,
) -> Result<Option<Known>, TypeFault>
    ensures { (names : List (List ℕ)) (s : Names) → IsScope names s scope.now
        → Gives names scope.now.closed order.old order.new (const_step s (ConstForm-F.Record at name.now (map (judge_const s) items.now))) result }
{
    let parts = constants(scope, order, items)?;
    match all_typed(scope.alloc, parts.as_slice())? {
        Some(types) => scope.node(
            order,
            record_of(&scope.structs, scope.closed, at, name, types.as_slice()),
        ),
        None => Ok(None),
    }
}

/// The types of constants one after another.
#[cycle(constants)]
pub fn constants(
    scope: &Scope,
    order: &mut Order,
    forms: &[ConstForm],
) -> Result<Vec<Option<Known>>, TypeFault>
    ensures { (names : List (List ℕ)) (s : Names) → IsScope names s scope.now
        → GivesParts names scope.now.closed order.old order.new (map (judge_const s) forms.now) (items_of result) }
{
    let mut parts = Vec::new(scope.alloc);
    for form in forms {
        let ty = constant(scope, order, form)?;
        parts.push(ty)?;
    }
    Ok(parts)
}

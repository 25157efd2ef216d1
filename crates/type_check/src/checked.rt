// A surface's types.
ghost use Rattle.std.specs.Prelude.{◌≤◌};
ghost use Rattle.type_check.specs.Checked.{Checks, GivesOrdered};
ghost use Rattle.spec_text.specs.KeepsTable.{KeepsTable};
ghost use Rattle.spec_text.specs.Form.{form_of};
ghost use Rattle.spec_text.specs.Extent.{item_count};

use crate::fault::TypeFault;
use crate::list::list;
use crate::names::name_fault;
use crate::order::Order;
use crate::scope::Scope;
use crate::walk::walked;
use spec_text::Surface;
use std::alloc::Global;
use stream_types::Types;

/// A text without a fault: its names, and its types in order.
#[derive(Drop)]
pub struct Ordered {
    pub scope: Scope,
    pub order: Order,
}

/// The types of a surface in order, or the first fault of its names and types.
pub fn in_order(alloc: Global, surface: &Surface) -> Result<Ordered, TypeFault>
    ensures { GivesOrdered surface.now result }
{
    if let Some(at) = name_fault(alloc, surface)? {
        return Err(TypeFault::Redeclared(at));
    }
    let decls = surface.decls.as_slice();
    let mut scope = Scope::of(alloc, decls)?;
    let order = walked(&mut scope, decls)?;
    Ok(Ordered { scope, order })
}

/// The type list of a surface, or the first fault of its names and types.
///
/// The surface keeps the table of forms, and its canonical text has at most 1,048,576 items.
pub fn check_types(alloc: Global, surface: &Surface) -> Result<Types, TypeFault>
    requires kept { KeepsTable surface.now }
    requires items { item_count (form_of surface.now) ≤ 1048576 }
    ensures { Checks surface.now result }
{
    let text = in_order(alloc, surface)?;
    list(alloc, &text.scope.structs, text.order.placed.as_slice())
}

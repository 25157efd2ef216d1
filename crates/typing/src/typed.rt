// A surface's typed specification.
ghost use Rattle.std.specs.Prelude.{◌≤◌};
ghost use Rattle.typing.specs.Typing.{Types};
ghost use Rattle.spec_text.specs.KeepsTable.{KeepsTable};
ghost use Rattle.spec_text.specs.Form.{form_of};
ghost use Rattle.spec_text.specs.Extent.{list_count, item_count, nesting};

use spec_text::Surface;
use std::alloc::Global;
use stream_core::Spec;
use type_check::{TypeFault, check_types};
use typed_spec::spec_over;

/// The typed specification of a surface, or the first fault: of names, then of types.
///
/// The surface keeps the table of forms, and its canonical text nests at most 64 lists and has at most 524,288 lists
/// and 1,048,576 items.
pub fn type_all(alloc: Global, surface: &Surface) -> Result<Spec, TypeFault>
    requires kept { KeepsTable surface.now }
    requires nested { nesting (form_of surface.now) ≤ 64 }
    requires lists { list_count (form_of surface.now) ≤ 524288 }
    requires items { item_count (form_of surface.now) ≤ 1048576 }
    ensures { Types surface.now result }
{
    let types = check_types(alloc, surface)?;
    Ok(spec_over(alloc, surface, types)?)
}

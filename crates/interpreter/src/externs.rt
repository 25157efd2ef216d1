// The columns that a specification's externs want.
ghost use Rattle.std.specs.Prelude.{◌≡◌, ◌<◌, ◌≤◌, length, None, IfOk};
ghost use Rattle.stream_core.specs.Eval.{row_leaves};
ghost use Rattle.stream_core.specs.Meaning.{IsFirstFault, closed_spec};
ghost use Rattle.stream_core.specs.WellTyped.{WellTyped};
ghost use Rattle.extern_rows.specs.Leaves.{scalars_of};
ghost use Rattle.interpreter.specs.Interpreted.{extern_columns};

use extern_rows::{Leaf, push_leaves};
use recursion_check::Sound;
use std::alloc::{AllocError, Global};
use stream_core::Spec;

/// The columns of all externs, in order: `x` for a scalar, `x[k]` for each element of an array, `x.f` for each member of a
/// struct, nested at will.
pub fn columns(alloc: Global, spec: &Spec) -> Result<Vec<Leaf>, AllocError>
    requires { WellTyped spec.now }
    ensures { IfOk result (λ leaves. leaves.items ≡ extern_columns spec.now) }
{
    let mut leaves = Vec::new(alloc);
    for x in spec.externs() {
        push_leaves(alloc, spec.types(), x.name.bytes(), x.ty, &mut leaves)?;
    }
    Ok(leaves)
}

/// The columns of a sound specification are few, and their scalars are those of a row.
pub(crate) fn columns_fit_rows(sound: &Sound)
    ensures few { length (extern_columns sound.now) < 4294967296 }
    ensures scalars { scalars_of (extern_columns sound.now) ≡ row_leaves (closed_spec sound.now) }
{
    let _ = sound.spec();
}

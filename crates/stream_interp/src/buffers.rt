// How many words a step's buffers have.
ghost use Rattle.std.specs.Prelude.{◌≡◌, ◌+◌, All, IfOk};
ghost use Rattle.stream_types.specs.declared.scalar.Ty.{Ty};
ghost use Rattle.stream_types.specs.Types.{words};
ghost use Rattle.stream_types.specs.TypeList.{Stands};
ghost use Rattle.stream_core.specs.declared.spec.Root.{Root};
ghost use Rattle.stream_lib.specs.PlainSpecs.{IsSoundPlain};
ghost use Rattle.stream_interp.specs.Roots.{roots_words, triggers_words, observers_words, streams_words};

use crate::layout::added;
use std::alloc::AllocError;
use stream_core::{Root, Spec};
use stream_types::Ty;

// So many words and those of a value of this type, where a `usize` holds their number.
fn with_words(spec: &Spec, ty: Ty, before: usize) -> Result<usize, AllocError>
    requires { Stands spec.now.types ty }
    ensures { IfOk result (λ n. n ≡ before + words spec.now.types ty) }
{
    added(before, spec.types().words(ty) as usize)
}

fn with_roots(spec: &Spec, roots: &[Root], before: usize) -> Result<usize, AllocError>
    requires { All (λ (r : Root). Stands spec.now.types r.ty) roots.now }
    ensures { IfOk result (λ n. n ≡ before + roots_words spec.now.types roots.now) }
{
    let mut total = before;
    for root in roots {
        total = with_words(spec, root.ty, total)?;
    }
    Ok(total)
}

fn trigger_words(spec: &Spec) -> Result<usize, AllocError>
    requires { IsSoundPlain spec.now }
    ensures { IfOk result (λ n. n ≡ triggers_words spec.now.types spec.now.triggers) }
{
    let mut total = 0;
    for trigger in spec.triggers() {
        total = with_roots(spec, trigger.args.as_slice(), total)?;
    }
    Ok(total)
}

/// The words of all triggers' arguments and of all observers.
pub(crate) fn event_words(spec: &Spec) -> Result<usize, AllocError>
    requires { IsSoundPlain spec.now }
    ensures { IfOk result (λ n. n ≡ triggers_words spec.now.types spec.now.triggers + observers_words spec.now.types spec.now.observers) }
{
    let mut total = trigger_words(spec)?;
    for observer in spec.observers() {
        total = with_words(spec, observer.root.ty, total)?;
    }
    Ok(total)
}

/// The words of one value of each stream.
pub(crate) fn row_words(spec: &Spec) -> Result<usize, AllocError>
    requires { IsSoundPlain spec.now }
    ensures { IfOk result (λ n. n ≡ streams_words spec.now.types spec.now.streams) }
{
    let mut total = 0;
    for stream in spec.streams() {
        total = with_words(spec, stream.ty, total)?;
    }
    Ok(total)
}

// The first buffer of each form.
ghost use Rattle.std.specs.Prelude.{◌≡◌, ◌+◌, ◌<◌, length, IfOk};
ghost use Rattle.stream_core.specs.Lower.{buffers};
ghost use Rattle.stream_lib.specs.Renamed.{AreStarts};
ghost use Rattle.stream_lib.specs.Room.{IsSmall};

use std::alloc::{AllocError, Global};
use stream_core::{LibForm, Spec};

// How many buffers a form has.
pub(crate) fn buffers(form: LibForm) -> u32
    ensures value { result ≡ buffers form }
    ensures few { result < 3 }
{
    match form {
        LibForm::SinceIn(_, _) => 2,
        LibForm::Once
        | LibForm::Historically
        | LibForm::Yesterday
        | LibForm::WeaklyYesterday
        | LibForm::Since
        | LibForm::OnceIn(_, _)
        | LibForm::HistoricallyIn(_, _)
        | LibForm::Clock(_, _)
        | LibForm::WindowMax(_, _)
        | LibForm::WindowMin(_, _)
        | LibForm::WindowSum(_, _) => 1,
    }
}

/// The first buffer of each form, behind the streams.
pub(crate) fn starts(alloc: Global, source: &Spec) -> Result<Vec<u32>, AllocError>
    requires { IsSmall source.now }
    ensures all { IfOk result (λ starts. length starts.items ≡ length source.now.libs) }
    ensures first { IfOk result (λ starts. AreStarts source.now starts.items) }
{
    let mut starts = Vec::new(alloc);
    let mut next = source.streams().len() as u32;
    for item in source.libs() {
        starts.push(next)?;
        next += buffers(item.form);
    }
    Ok(starts)
}

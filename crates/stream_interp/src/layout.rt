// Where the externs' parts of a row begin.
ghost use Rattle.std.specs.Prelude.{◌≡◌, ◌+◌, IfOk};
ghost use Rattle.stream_lib.specs.PlainSpecs.{IsSoundPlain};
ghost use Rattle.stream_interp.specs.Reading.{IsLayout};

use std::alloc::{AllocError, Global};
use stream_core::Spec;

/// Two counts together, or an error where they do not fit.
pub(crate) fn added(a: usize, b: usize) -> Result<usize, AllocError>
    ensures { IfOk result (λ n. n ≡ a + b) }
{
    a.checked_add(b).ok_or(AllocError)
}

/// The index in a row of the first word of each extern.
#[derive(Drop)]
pub(crate) struct Layout {
    pub(crate) firsts: Vec<usize>,
}

impl Layout {
    /// That of a specification.
    pub(crate) fn new(alloc: Global, spec: &Spec) -> Result<Layout, AllocError>
        requires { IsSoundPlain spec.now }
        ensures { IfOk result (λ layout. IsLayout spec.now layout) }
    {
        let mut firsts = Vec::with_capacity(alloc, spec.externs().len())?;
        let mut at = 0usize;
        for x in spec.externs() {
            firsts.push(at)?;
            at = added(at, spec.types().words(x.ty) as usize)?;
        }
        Ok(Layout { firsts })
    }
}

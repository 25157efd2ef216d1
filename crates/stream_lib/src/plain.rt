// What the lowering gives, and the lowering.
ghost use Rattle.std.specs.Prelude.{◌≡◌, IfOk};
ghost use Rattle.stream_core.specs.Term.{trees};
ghost use Rattle.stream_core.specs.Lower.{lowered_spec};
ghost use Rattle.stream_lib.specs.PlainSpecs.{IsSoundPlain};

use crate::assembled::lowered;
use recursion_check::Sound;
use std::alloc::{AllocError, Global};
use std::marker::Model;
use stream_core::Spec;

/// A sound specification without forms of the library, abs, sign and votes.
#[derive(Drop)]
pub struct Plain {
    spec: Spec,
}

impl Model for Plain {
    ghost use Rattle.stream_core.specs.Value.{SpecValue};
    ghost use Rattle.stream_lib.specs.PlainSpecs.{IsSoundPlain};

    ghost Value = { SpecValue };

    ghost view = { λ s. s.spec };

    ghost invariant = { λ s. IsSoundPlain s.spec };
}

impl Plain {
    fn of(spec: Spec) -> Plain
        requires { IsSoundPlain spec }
        ensures { result ≡ spec }
    {
        Plain { spec }
    }

    /// The specification.
    pub fn spec(&self) -> &Spec
        ensures spec { result.now ≡ self.now }
        ensures plain { IsSoundPlain result.now }
    {
        &self.spec
    }
}

/// The specification with each form of the library as buffers and plain expressions.
pub fn lower(alloc: Global, sound: &Sound) -> Result<Plain, AllocError>
    ensures { IfOk result (λ plain. trees plain ≡ lowered_spec (trees sound.now)) }
{
    let spec = lowered(alloc, sound.spec())?;
    Ok(Plain::of(spec))
}

// What the check gives.
ghost use Rattle.std.specs.Prelude.{◌≡◌, Option, None};
ghost use Rattle.stream_core.specs.Meaning.{IsFirstFault};
ghost use Rattle.stream_core.specs.WellTyped.{WellTyped};
ghost use Rattle.recursion_check.specs.Judged.{IsSound};

use std::marker::Model;
use stream_core::Spec;

/// A well typed specification without a fault of soundness.
#[derive(Drop)]
pub struct Sound {
    spec: Spec,
}

impl Model for Sound {
    ghost use Rattle.stream_core.specs.Value.{SpecValue};
    ghost use Rattle.recursion_check.specs.Judged.{IsSound};

    ghost Value = { SpecValue };

    ghost view = { λ s. s.spec };

    ghost invariant = { λ s. IsSound s.spec };
}

impl Sound {
    pub(crate) fn of(spec: Spec) -> Sound
        requires { IsSound spec }
        ensures { result ≡ spec }
    {
        Sound { spec }
    }

    /// The specification.
    pub fn spec(&self) -> &Spec
        ensures spec { result.now ≡ self.now }
        ensures typed { WellTyped result.now }
        ensures sound { IsFirstFault result.now None }
    {
        &self.spec
    }
}

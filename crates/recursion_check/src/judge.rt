// The check.
ghost use Rattle.std.specs.Prelude.{◌≡◌, Option, Some, None, IfOk, MatchOption};
ghost use Rattle.stream_core.specs.Soundness.{HasNoCycle, CycleAt};
ghost use Rattle.stream_core.specs.Term.{defs_of};
ghost use Rattle.stream_core.specs.WellTyped.{WellTyped};
ghost use Rattle.recursion_check.specs.Judged.{HasOneTable, IsFault, Judges};

use crate::accepted::Sound;
use crate::fault::SoundFault;
use crate::roots::weigh_roots;
use crate::sizes::{declarations, words};
use crate::walk::first_on_cycle;
use crate::weigh::node_weights;
use std::alloc::{AllocError, Global};
use stream_core::{Spec, equations_have_one_solution};

/// Checks a well typed specification, or hands it back with its first fault. Over a clean history its streams' equations
/// have no other solution than its table.
pub fn sound(alloc: Global, spec: Spec) -> Result<Sound, (Spec, SoundFault)>
    requires { WellTyped spec }
    ensures judged { Judges spec result }
    ensures one_table { HasOneTable spec }
{
    equations_have_one_solution();
    match first_fault(alloc, &spec) {
        None => Ok(Sound::of(spec)),
        Some(fault) => Err((spec, fault)),
    }
}

fn first_fault(alloc: Global, spec: &Spec) -> Option<SoundFault>
    requires { WellTyped spec.now }
    ensures { IsFault spec.now result }
{
    match first_cycle(alloc, spec) {
        Err(_) => Some(SoundFault::Memory),
        Ok(Some(at)) => Some(SoundFault::Cycle(at)),
        Ok(None) => first_excess(alloc, spec),
    }
}

// The place of the first def that lies on a cycle.
fn first_cycle(alloc: Global, spec: &Spec) -> Result<Option<u64>, AllocError>
    requires { WellTyped spec.now }
    ensures { IfOk result (λ first. MatchOption first (HasNoCycle (defs_of spec.now)) (λ at. CycleAt (defs_of spec.now) at)) }
{
    Ok(match first_on_cycle(alloc, spec)? {
        Some(d) => Some(spec.defs()[d].at),
        None => None,
    })
}

// The first limit that a specification without cycles exceeds.
fn first_excess(alloc: Global, spec: &Spec) -> Option<SoundFault>
    requires typed { WellTyped spec.now }
    requires no_cycle { HasNoCycle (defs_of spec.now) }
    ensures { IsFault spec.now result }
{
    if declarations(spec) > 4_096 {
        return Some(SoundFault::TooManyDecls);
    }
    if words(spec) > 262_144 {
        return Some(SoundFault::TooManyWords);
    }
    let Ok(weights) = node_weights(alloc, spec) else {
        return Some(SoundFault::Memory);
    };
    let roots = weigh_roots(spec, weights.as_slice());
    if let Some(at) = roots.first {
        return Some(SoundFault::RootTooHeavy(at));
    }
    if roots.total > 262_144 {
        return Some(SoundFault::SpecTooHeavy);
    }
    None
}

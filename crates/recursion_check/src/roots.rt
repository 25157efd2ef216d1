// What the roots weigh, by the weights of all nodes.
ghost use Rattle.std.specs.Prelude.{◌≡◌, ℕ, ◌+◌, ◌<◌, ◌≤◌, length, map, min, slice_get, Some, None, IfSome, All, nat_lt, if◌then◌else◌, drop};
ghost use Rattle.stream_core.specs.Soundness.{heavy_root};
ghost use Rattle.stream_core.specs.Term.{trees};
ghost use Rattle.stream_core.specs.WellTyped.{WellTyped};
ghost use Rattle.stream_core.specs.Meaning.{weight};
ghost use Rattle.stream_core.specs.Weights.{IsTriggerThere, libs_weight};
ghost use Rattle.stream_core.specs.declared.spec.Root.{Root};
ghost use Rattle.stream_core.specs.declared.spec.ObserverItem.{ObserverItem};
ghost use Rattle.stream_core.specs.declared.spec.StreamItem.{StreamItem};
ghost use Rattle.recursion_check.specs.Walked.{lesser};
ghost use Rattle.recursion_check.specs.Weighed.{AreWeights};
ghost use Rattle.recursion_check.specs.Loads.{declared_of, first_form, load, no_roots, observers_of, or_form, roots_of, streams_of, triggers_of, with_load, with_loads};

use stream_core::{NodeId, ObserverItem, Root, Spec, StreamItem, TriggerItem};

// The weight that a root may have.
const MOST: u64 = 2_048;

// The weight at which the count of all roots stops.
const MOST_OF_ALL: u64 = 262_145;

/// What roots weigh together, up to 262,145, and the place of the first one above 2,048.
#[derive(Clone, Copy, Debug)]
pub(crate) struct Tally {
    pub(crate) total: u64,
    pub(crate) first: Option<u64>,
}

/// The tally of all roots.
pub(crate) fn weigh_roots(spec: &Spec, weights: &[u64]) -> Tally
    requires typed { WellTyped spec.now }
    requires weights { AreWeights spec.now weights.now }
    ensures total { result.total ≡ min (weight spec.now) 262145 }
    ensures first { result.first ≡ heavy_root (trees spec.now) }
{
    let declared = weigh_declared(spec, weights);
    Tally {
        total: sum(declared.total, weigh_forms(spec, weights)),
        first: first_of(declared.first, heavy_form(spec, weights)),
    }
}

fn sum(total: u64, weight: u64) -> u64
    ensures { result ≡ min (total + weight) 262145 }
{
    total.saturating_add(weight).min(MOST_OF_ALL)
}

// The place of a declaration, and else that of a form.
fn first_of(declared: Option<u64>, form: Option<u64>) -> Option<u64>
    ensures { result ≡ or_form declared form }
{
    match declared {
        Some(at) => Some(at),
        None => form,
    }
}

// The tally of the guards, the arguments, the observers and the streams.
fn weigh_declared(spec: &Spec, weights: &[u64]) -> Tally
    requires typed { WellTyped spec.now }
    requires weights { AreWeights spec.now weights.now }
    ensures { result ≡ with_loads no_roots (declared_of spec.now) }
{
    let none = Tally {
        total: 0,
        first: None,
    };
    let mut tally = with_triggers(spec, weights, spec.triggers(), none);
    tally = with_observers(spec, weights, spec.observers(), tally);
    with_streams(spec, weights, spec.streams(), tally)
}

// The tally with one more root.
fn with_root(spec: &Spec, weights: &[u64], tally: Tally, expr: NodeId, at: u64) -> Tally
    requires weights { AreWeights spec.now weights.now }
    requires there { expr < length spec.now.nodes }
    ensures { result ≡ with_load tally (load spec.now expr at) }
{
    let _ = spec;
    let weight = weights[expr.0];
    Tally {
        total: sum(tally.total, weight),
        first: first_with(tally.first, weight, at),
    }
}

// The lesser place of the first heavy root so far and one more root.
fn first_with(first: Option<u64>, weight: u64, at: u64) -> Option<u64>
    ensures { result ≡ (if nat_lt 2048 weight then lesser first at else first) }
{
    if weight <= MOST {
        return first;
    }
    match first {
        None => Some(at),
        Some(other) => Some(other.min(at)),
    }
}

fn with_roots(spec: &Spec, weights: &[u64], roots: &[Root], before: Tally) -> Tally
    requires weights { AreWeights spec.now weights.now }
    requires there { All (λ (r : Root). r.expr < length spec.now.nodes) roots.now }
    ensures { result ≡ with_loads before (roots_of spec.now roots.now) }
{
    let mut tally = before;
    for r in roots {
        tally = with_root(spec, weights, tally, r.expr, r.at);
    }
    tally
}

fn with_triggers(spec: &Spec, weights: &[u64], triggers: &[TriggerItem], before: Tally) -> Tally
    requires weights { AreWeights spec.now weights.now }
    requires there { All (IsTriggerThere spec.now) triggers.now }
    ensures { result ≡ with_loads before (triggers_of spec.now triggers.now) }
{
    let mut tally = before;
    for x in triggers {
        tally = with_root(spec, weights, tally, x.guard.expr, x.guard.at);
        tally = with_roots(spec, weights, x.args.as_slice(), tally);
    }
    tally
}

fn with_observers(spec: &Spec, weights: &[u64], observers: &[ObserverItem], before: Tally) -> Tally
    requires weights { AreWeights spec.now weights.now }
    requires there { All (λ (x : ObserverItem). x.root.expr < length spec.now.nodes) observers.now }
    ensures { result ≡ with_loads before (observers_of spec.now observers.now) }
{
    let mut tally = before;
    for x in observers {
        tally = with_root(spec, weights, tally, x.root.expr, x.root.at);
    }
    tally
}

fn with_streams(spec: &Spec, weights: &[u64], streams: &[StreamItem], before: Tally) -> Tally
    requires weights { AreWeights spec.now weights.now }
    requires there { All (λ (x : StreamItem). x.expr < length spec.now.nodes) streams.now }
    ensures { result ≡ with_loads before (streams_of spec.now streams.now) }
{
    let mut tally = before;
    for x in streams {
        tally = with_root(spec, weights, tally, x.expr, x.at);
    }
    tally
}

// What the buffers of all library forms weigh.
fn weigh_forms(spec: &Spec, weights: &[u64]) -> u64
    requires typed { WellTyped spec.now }
    requires weights { AreWeights spec.now weights.now }
    ensures { result ≡ min (libs_weight spec.now spec.now.libs) 262145 }
{
    let mut total = 0;
    for k in 0..spec.libs().len() {
        total = sum(total, spec.buffers_by(k, weights));
    }
    total
}

// The place of the first library form that has a heavy buffer.
fn heavy_form(spec: &Spec, weights: &[u64]) -> Option<u64>
    requires typed { WellTyped spec.now }
    requires weights { AreWeights spec.now weights.now }
    ensures { result ≡ first_form spec.now spec.now.libs }
{
    let libs = spec.libs();
    for (k, x) in libs.iter().enumerate() {
        if spec.heaviest_buffer_by(k, weights) > MOST {
            return Some(x.at);
        }
    }
    None
}

// What a program declares.
ghost use Rattle.std.specs.Prelude.{◌≡◌, map, All, IfOk};
ghost use Rattle.stream_types.specs.TypeList.{Stands};
ghost use Rattle.stream_core.specs.declared.spec.ExternItem.{ExternItem as AnyExtern};
ghost use Rattle.stream_core.specs.declared.spec.Root.{Root as AnyRoot};
ghost use Rattle.stream_core.specs.Meaning.{closed_spec};
ghost use Rattle.stream_lib.specs.PlainSpecs.{IsSoundPlain};
ghost use Rattle.ring_codegen.specs.CTypes.{c_def, c_extern, c_handlers, c_type};
ghost use Rattle.ring_codegen.specs.Items.{HasStandingArgs, IsRingItem, item_handler, item_ring};

use crate::c_types::{c_def, c_type};
use crate::rings::ring;
use c99_tree::{CDef, CProto, CRing, CTy, CVar};
use indexmap::IndexSet;
use sm_io::Seq;
use std::alloc::{AllocError, Global};
use stream_core::{ExternItem, Root, Spec, TriggerItem};
use stream_types::Types;

/// The types that the header defines.
pub(crate) fn type_defs(alloc: Global, types: &Types) -> Result<Seq<CDef>, AllocError>
    ensures { IfOk result (λ defs. defs ≡ map (c_def types.now) types.now) }
{
    let mut defs = Seq::new(alloc);
    for i in 0..types.len() {
        let def = c_def(alloc, types, i)?;
        defs.push(def)?;
    }
    Ok(defs)
}

/// The externs.
pub(crate) fn extern_vars(
    alloc: Global,
    types: &Types,
    externs: &[ExternItem],
) -> Result<Seq<CVar>, AllocError>
    requires { All (λ (x : AnyExtern). Stands types.now x.ty) externs.now }
    ensures { IfOk result (λ vars. vars ≡ map (c_extern types.now) externs.now) }
{
    let mut vars = Seq::new(alloc);
    for item in externs {
        let name = item.name.copy(alloc)?;
        let ty = c_type(alloc, types, item.ty)?;
        vars.push(CVar { name, ty })?;
    }
    Ok(vars)
}

// The types of a handler's parameters.
fn parameters(alloc: Global, types: &Types, args: &[Root]) -> Result<Seq<CTy>, AllocError>
    requires { All (λ (r : AnyRoot). Stands types.now r.ty) args.now }
    ensures { IfOk result (λ params. params ≡ map (λ (r : AnyRoot). c_type types.now r.ty) args.now) }
{
    let mut params = Seq::new(alloc);
    for root in args {
        let ty = c_type(alloc, types, root.ty)?;
        params.push(ty)?;
    }
    Ok(params)
}

// The handler of a trigger.
fn handler(alloc: Global, spec: &Spec, trigger: &TriggerItem) -> Result<CProto, AllocError>
    requires { HasStandingArgs spec.now.types trigger.now }
    ensures { IfOk result (λ proto. proto ≡ item_handler spec.now trigger.now) }
{
    let name = trigger.name.copy(alloc)?;
    let params = parameters(alloc, spec.types(), trigger.args.as_slice())?;
    Ok(CProto { name, params })
}

/// The handlers, each once, in the order of their first triggers.
pub(crate) fn handler_protos(alloc: Global, spec: &Spec) -> Result<Seq<CProto>, AllocError>
    requires sound { IsSoundPlain spec.now }
    requires stand { All (HasStandingArgs spec.now.types) spec.now.triggers }
    ensures { IfOk result (λ protos. protos ≡ c_handlers (closed_spec spec.now)) }
{
    let mut seen = IndexSet::new(alloc);
    let mut protos = Vec::new(alloc);
    for trigger in spec.triggers() {
        let is_first = seen.insert(trigger.name.copy(alloc)?)?;
        if is_first {
            let proto = handler(alloc, spec, trigger)?;
            protos.push(proto)?;
        }
    }
    Ok(Seq::of(protos))
}

/// The rings of the streams.
pub(crate) fn rings(alloc: Global, spec: &Spec) -> Result<Seq<CRing>, AllocError>
    requires { All (IsRingItem spec.now.types) spec.now.streams }
    ensures { IfOk result (λ rings. rings ≡ map (item_ring spec.now) spec.now.streams) }
{
    let streams = spec.streams();
    let mut rings = Seq::new(alloc);
    for x in streams {
        let one = ring(alloc, spec, x)?;
        rings.push(one)?;
    }
    Ok(rings)
}

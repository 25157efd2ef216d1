// A specification's nodes, buffers and items put together.
ghost use Rattle.std.specs.Prelude.{◌≡◌, ◌+◌, ◌≤◌, ◌++◌, length, IfOk, OnOk};
ghost use Rattle.stream_core.specs.Ordered.{Ordered};
ghost use Rattle.stream_core.specs.Parts.{IsNodeList};
ghost use Rattle.stream_core.specs.Term.{trees};
ghost use Rattle.stream_core.specs.Lower.{lowered_spec};
ghost use Rattle.stream_lib.specs.Renamed.{AreNumbers, IsOfLowered, with_items};
ghost use Rattle.stream_lib.specs.Room.{HasForms, HasRoomFor, IsSmall};

use crate::buffers::all_buffers;
use crate::copies::{add_defs, add_externs, add_observers, add_streams, add_triggers};
use crate::nodes::lower_nodes;
use crate::starts::starts;
use sm_io::Seq;
use std::alloc::{AllocError, Global};
use stream_core::{Item, NodeId, Spec, StreamItem};

// A stream again.
fn same_stream(alloc: Global, x: &StreamItem) -> Result<StreamItem, AllocError>
    ensures { IfOk result (λ y. y ≡ x.now) }
{
    let name = x.name.copy(alloc)?;
    let init = Vec::from_slice(alloc, x.init.as_slice())?;
    Ok(StreamItem {
        name,
        ty: x.ty,
        init: Seq::of(init),
        expr: x.expr,
        at: x.at,
    })
}

// These streams behind the others.
fn add_buffers(alloc: Global, xs: &[StreamItem], spec: &mut Spec) -> Result<(), AllocError>
    requires { length spec.old.streams + length xs.now ≤ 4294967295 }
    ensures { OnOk result (spec.new ≡ record spec.old { streams = spec.old.streams ++ xs.now }) }
{
    for x in xs {
        let again = same_stream(alloc, x)?;
        spec.add(Item::Stream(again))?;
    }
    Ok(())
}

// The items of a specification over new numbers, and its buffers.
fn add_items(
    alloc: Global,
    source: &Spec,
    news: &[NodeId],
    xs: &[StreamItem],
    spec: &mut Spec,
) -> Result<(), AllocError>
    requires numbers { AreNumbers (length news.now) source.now }
    requires room { HasRoomFor source.now (length xs.now) spec.old }
    ensures { OnOk result (spec.new ≡ with_items source.now news.now xs.now spec.old) }
{
    add_externs(alloc, source, spec)?;
    add_streams(alloc, source, news, spec)?;
    add_buffers(alloc, xs, spec)?;
    add_defs(alloc, source, news, spec)?;
    add_triggers(alloc, source, news, spec)?;
    add_observers(alloc, source, news, spec)?;
    Ok(())
}

/// The specification without library forms.
pub(crate) fn lowered(alloc: Global, source: &Spec) -> Result<Spec, AllocError>
    requires ordered { Ordered source.now.nodes source.now.libs }
    requires numbers { AreNumbers (length source.now.nodes) source.now }
    requires few { IsSmall source.now }
    requires forms { HasForms source.now }
    ensures trees { IfOk result (λ spec. trees spec ≡ lowered_spec (trees source.now)) }
    ensures parts { IfOk result (λ spec. IsOfLowered source.now spec) }
    ensures list { IfOk result (λ spec. IsNodeList spec.nodes) }
{
    let name = source.name().copy(alloc)?;
    let types = source.types().copy(alloc)?;
    let mut spec = Spec::new(alloc, name, types);
    let firsts = starts(alloc, source)?;
    let news = lower_nodes(alloc, source, firsts.as_slice(), &mut spec)?;
    let xs = all_buffers(alloc, source, news.as_slice(), &mut spec)?;
    add_items(alloc, source, news.as_slice(), xs.as_slice(), &mut spec)?;
    let _ = spec.nodes();
    Ok(spec)
}

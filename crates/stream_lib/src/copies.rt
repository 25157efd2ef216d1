// Declarations added again, over new numbers.
ghost use Rattle.std.specs.Prelude.{◌≡◌, ◌+◌, ◌<◌, ◌≤◌, ◌++◌, length, map, OnOk};
ghost use Rattle.std.specs.List.{AllByRecursion};
ghost use Rattle.stream_core.specs.declared.spec.StreamItem.{StreamItem};
ghost use Rattle.stream_core.specs.declared.spec.DefItem.{DefItem};
ghost use Rattle.stream_core.specs.declared.spec.ObserverItem.{ObserverItem};
ghost use Rattle.stream_lib.specs.Renamed.{HasNumbers, new_of, renamed_def, renamed_observer, renamed_stream, renamed_trigger};

use crate::items::{def_again, extern_again, observer_again, stream_again, trigger_again};
use std::alloc::{AllocError, Global};
use stream_core::{Item, NodeId, Spec};

// The externs of a specification.
pub(crate) fn add_externs(alloc: Global, source: &Spec, spec: &mut Spec) -> Result<(), AllocError>
    requires room { length spec.old.externs + length source.now.externs ≤ 4294967295 }
    ensures { OnOk result (spec.new ≡ record spec.old { externs = spec.old.externs ++ source.now.externs }) }
{
    for x in source.externs() {
        let again = extern_again(alloc, x)?;
        spec.add(Item::Extern(again))?;
    }
    Ok(())
}

// The streams of a specification, over new numbers.
pub(crate) fn add_streams(
    alloc: Global,
    source: &Spec,
    news: &[NodeId],
    spec: &mut Spec,
) -> Result<(), AllocError>
    requires numbers { AllByRecursion (λ (x : StreamItem). x.expr < length news.now) source.now.streams }
    requires room { length spec.old.streams + length source.now.streams ≤ 4294967295 }
    ensures { OnOk result (spec.new ≡ record spec.old { streams = spec.old.streams ++ map (renamed_stream (new_of news.now)) source.now.streams }) }
{
    for x in source.streams() {
        let again = stream_again(alloc, news, x)?;
        spec.add(Item::Stream(again))?;
    }
    Ok(())
}

// The defs of a specification, over new numbers.
pub(crate) fn add_defs(
    alloc: Global,
    source: &Spec,
    news: &[NodeId],
    spec: &mut Spec,
) -> Result<(), AllocError>
    requires numbers { AllByRecursion (λ (x : DefItem). x.expr < length news.now) source.now.defs }
    requires room { length spec.old.defs + length source.now.defs ≤ 4294967295 }
    ensures { OnOk result (spec.new ≡ record spec.old { defs = spec.old.defs ++ map (renamed_def (new_of news.now)) source.now.defs }) }
{
    for x in source.defs() {
        let again = def_again(alloc, news, x)?;
        spec.add(Item::Def(again))?;
    }
    Ok(())
}

// The observers of a specification, over new numbers.
pub(crate) fn add_observers(
    alloc: Global,
    source: &Spec,
    news: &[NodeId],
    spec: &mut Spec,
) -> Result<(), AllocError>
    requires numbers { AllByRecursion (λ (x : ObserverItem). x.root.expr < length news.now) source.now.observers }
    requires room { length spec.old.observers + length source.now.observers ≤ 4294967295 }
    ensures { OnOk result (spec.new ≡ record spec.old { observers = spec.old.observers ++ map (renamed_observer (new_of news.now)) source.now.observers }) }
{
    for x in source.observers() {
        let again = observer_again(alloc, news, x)?;
        spec.add(Item::Observer(again))?;
    }
    Ok(())
}

// The triggers of a specification, over new numbers.
pub(crate) fn add_triggers(
    alloc: Global,
    source: &Spec,
    news: &[NodeId],
    spec: &mut Spec,
) -> Result<(), AllocError>
    requires numbers { AllByRecursion (HasNumbers (length news.now)) source.now.triggers }
    requires room { length spec.old.triggers + length source.now.triggers ≤ 4294967295 }
    ensures { OnOk result (spec.new ≡ record spec.old { triggers = spec.old.triggers ++ map (renamed_trigger (new_of news.now)) source.now.triggers }) }
{
    for x in source.triggers() {
        let again = trigger_again(alloc, news, x)?;
        spec.add(Item::Trigger(again))?;
    }
    Ok(())
}

// Declarations over the new numbers of their expressions.
ghost use Rattle.std.specs.Prelude.{◌≡◌, ◌<◌, length, map, IfOk};
ghost use Rattle.std.specs.List.{AllByRecursion};
ghost use Rattle.stream_core.specs.declared.spec.Root.{Root};
ghost use Rattle.stream_lib.specs.Renamed.{new_of, renamed_root};

use crate::rename::new_of;
use sm_io::Seq;
use std::alloc::{AllocError, Global};
use stream_core::{DefItem, ExternItem, NodeId, ObserverItem, Root, StreamItem, TriggerItem};

fn root_again(news: &[NodeId], root: &Root) -> Root
    requires { root.now.expr < length news.now }
    ensures { result ≡ renamed_root (new_of news.now) root.now }
{
    Root {
        expr: new_of(news, root.expr),
        ty: root.ty,
        at: root.at,
    }
}

pub(crate) fn extern_again(alloc: Global, x: &ExternItem) -> Result<ExternItem, AllocError>
    ensures { IfOk result (λ y. y ≡ x.now) }
{
    Ok(ExternItem {
        name: x.name.copy(alloc)?,
        ty: x.ty,
    })
}

pub(crate) fn stream_again(
    alloc: Global,
    news: &[NodeId],
    x: &StreamItem,
) -> Result<StreamItem, AllocError>
    requires { x.now.expr < length news.now }
    ensures { IfOk result (λ y. y ≡ record { name = x.now.name; ty = x.now.ty; init = x.now.init; expr = new_of news.now x.now.expr; at = x.now.at }) }
{
    let name = x.name.copy(alloc)?;
    let init = Vec::from_slice(alloc, x.init.as_slice())?;
    Ok(StreamItem {
        name,
        ty: x.ty,
        init: Seq::of(init),
        expr: new_of(news, x.expr),
        at: x.at,
    })
}

pub(crate) fn def_again(alloc: Global, news: &[NodeId], x: &DefItem) -> Result<DefItem, AllocError>
    requires { x.now.expr < length news.now }
    ensures { IfOk result (λ y. y ≡ record { name = x.now.name; ty = x.now.ty; expr = new_of news.now x.now.expr; at = x.now.at }) }
{
    Ok(DefItem {
        name: x.name.copy(alloc)?,
        ty: x.ty,
        expr: new_of(news, x.expr),
        at: x.at,
    })
}

pub(crate) fn observer_again(
    alloc: Global,
    news: &[NodeId],
    x: &ObserverItem,
) -> Result<ObserverItem, AllocError>
    requires { x.now.root.expr < length news.now }
    ensures { IfOk result (λ y. y ≡ record { name = x.now.name; root = renamed_root (new_of news.now) x.now.root }) }
{
    Ok(ObserverItem {
        name: x.name.copy(alloc)?,
        root: root_again(news, &x.root),
    })
}

fn roots_again(alloc: Global, news: &[NodeId], roots: &[Root]) -> Result<Seq<Root>, AllocError>
    requires { AllByRecursion (λ (r : Root). r.expr < length news.now) roots.now }
    ensures { IfOk result (λ all. all ≡ map (renamed_root (new_of news.now)) roots.now) }
{
    let mut all = Vec::new(alloc);
    for root in roots {
        all.push(root_again(news, root))?;
    }
    Ok(Seq::of(all))
}

pub(crate) fn trigger_again(
    alloc: Global,
    news: &[NodeId],
    x: &TriggerItem,
) -> Result<TriggerItem, AllocError>
    requires guard { x.now.guard.expr < length news.now }
    requires args { AllByRecursion (λ (r : Root). r.expr < length news.now) x.now.args }
    ensures { IfOk result (λ y. y ≡
        record { name = x.now.name; guard = renamed_root (new_of news.now) x.now.guard; args = map (renamed_root (new_of news.now)) x.now.args }) }
{
    let name = x.name.copy(alloc)?;
    let args = roots_again(alloc, news, x.args.as_slice())?;
    Ok(TriggerItem {
        name,
        guard: root_again(news, &x.guard),
        args,
    })
}

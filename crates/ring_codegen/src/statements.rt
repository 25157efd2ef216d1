// The statements of `step`.
ghost use Rattle.std.specs.Prelude.{◌≡◌, ◌<◌, ◌++◌, length, map, All, IfOk};
ghost use Rattle.std.specs.List.{flat_map};
ghost use Rattle.stream_core.specs.declared.spec.Root.{Root as AnyRoot};
ghost use Rattle.stream_core.specs.declared.spec.StreamItem.{StreamItem as AnyStream};
ghost use Rattle.stream_core.specs.Meaning.{closed_spec};
ghost use Rattle.stream_core.specs.Weights.{IsTriggerThere};
ghost use Rattle.stream_lib.specs.PlainSpecs.{IsSoundPlain};
ghost use Rattle.ring_codegen.specs.Items.{IsRingItem, expression_of, item_call, item_next, item_writes};
ghost use Rattle.ring_codegen.specs.Translation.{copy_statement, translated_step};

use crate::expressions::expression;
use crate::rings::{is_indexed, place_behind};
use c99_tree::{CExpr, CStmt};
use sm_io::Seq;
use std::alloc::{AllocError, Global};
use stream_core::{ExternItem, Root, Spec, StreamItem, TriggerItem};

/// All externs are copied, the triggers' handlers called, each stream's next value computed, and then each written.
pub(crate) fn step_statements(alloc: Global, spec: &Spec) -> Result<Seq<CStmt>, AllocError>
    requires { IsSoundPlain spec.now }
    ensures { IfOk result (λ step. step ≡ translated_step (closed_spec spec.now)) }
{
    let nothing = Seq::new(alloc);
    let copies = add_copies(alloc, spec.externs(), nothing)?;
    let calls = add_calls(alloc, spec, copies)?;
    let nexts = add_nexts(alloc, spec, calls)?;
    add_writes(alloc, spec, nexts)
}

// The statements with a copy of each extern behind them.
fn add_copies(
    alloc: Global,
    externs: &[ExternItem],
    mut step: Seq<CStmt>,
) -> Result<Seq<CStmt>, AllocError>
    ensures { IfOk result (λ all. all ≡ step ++ map copy_statement externs.now) }
{
    for item in externs {
        let name = item.name.copy(alloc)?;
        step.push(CStmt::Copy { name })?;
    }
    Ok(step)
}

// The statements with a call for each trigger behind them.
fn add_calls(alloc: Global, spec: &Spec, mut step: Seq<CStmt>) -> Result<Seq<CStmt>, AllocError>
    requires sound { IsSoundPlain spec.now }
    requires there { All (IsTriggerThere spec.now) spec.now.triggers }
    ensures { IfOk result (λ all. all ≡ step ++ map (item_call spec.now) spec.now.triggers) }
{
    let triggers = spec.triggers();
    for trigger in triggers {
        let call = guarded_call(alloc, spec, trigger)?;
        step.push(call)?;
    }
    Ok(step)
}

// `if (E) { h(E, E); }`
fn guarded_call(alloc: Global, spec: &Spec, trigger: &TriggerItem) -> Result<CStmt, AllocError>
    requires sound { IsSoundPlain spec.now }
    requires there { IsTriggerThere spec.now trigger.now }
    ensures { IfOk result (λ call. call ≡ item_call spec.now trigger.now) }
{
    let handler = trigger.name.copy(alloc)?;
    let guard = expression(alloc, spec, trigger.guard.expr)?;
    let args = arguments(alloc, spec, trigger.args.as_slice())?;
    Ok(CStmt::Call {
        handler,
        guard,
        args,
    })
}

fn arguments(alloc: Global, spec: &Spec, roots: &[Root]) -> Result<Seq<CExpr>, AllocError>
    requires sound { IsSoundPlain spec.now }
    requires there { All (λ (r : AnyRoot). r.expr < length spec.now.nodes) roots.now }
    ensures { IfOk result (λ args. args ≡ map (λ (r : AnyRoot). expression_of spec.now r.expr) roots.now) }
{
    let mut args = Seq::new(alloc);
    for root in roots {
        let value = expression(alloc, spec, root.expr)?;
        args.push(value)?;
    }
    Ok(args)
}

// The statements with each stream's next value behind them.
fn add_nexts(alloc: Global, spec: &Spec, mut step: Seq<CStmt>) -> Result<Seq<CStmt>, AllocError>
    requires sound { IsSoundPlain spec.now }
    requires there { All (λ (x : AnyStream). x.expr < length spec.now.nodes) spec.now.streams }
    ensures { IfOk result (λ all. all ≡ step ++ map (item_next spec.now) spec.now.streams) }
{
    let streams = spec.streams();
    for x in streams {
        let ring = x.name.copy(alloc)?;
        let value = expression(alloc, spec, x.expr)?;
        step.push(CStmt::Next { ring, value })?;
    }
    Ok(step)
}

// The statements with the writes of each stream behind them.
fn add_writes(alloc: Global, spec: &Spec, mut step: Seq<CStmt>) -> Result<Seq<CStmt>, AllocError>
    requires { All (IsRingItem spec.now.types) spec.now.streams }
    ensures { IfOk result (λ all. all ≡ step ++ flat_map (item_writes spec.now) spec.now.streams) }
{
    let streams = spec.streams();
    for x in streams {
        step = with_writes(alloc, spec, x, step)?;
    }
    Ok(step)
}

// `cp_b_r = cp_n_r;`, or `cp_b_r[cp_i_r] = cp_n_r;` directly followed by `cp_i_r = ((cp_i_r + 1U) % lenU);`
fn with_writes(
    alloc: Global,
    spec: &Spec,
    x: &StreamItem,
    mut step: Seq<CStmt>,
) -> Result<Seq<CStmt>, AllocError>
    requires { IsRingItem spec.now.types x.now }
    ensures { IfOk result (λ all. all ≡ step ++ item_writes spec.now x.now) }
{
    let ring = x.name.copy(alloc)?;
    if !is_indexed(spec.types(), x) {
        step.push(CStmt::Put { ring })?;
        return Ok(step);
    }
    let at = CExpr::Head(x.name.copy(alloc)?);
    step.push(CStmt::Store { ring, at })?;
    let value = place_behind(alloc, spec, x, 1)?;
    let ring = x.name.copy(alloc)?;
    step.push(CStmt::Move { ring, value })?;
    Ok(step)
}

// What a step finds: its events, in the order of the definition, and the streams' next values.
ghost use Rattle.std.specs.Prelude.{◌≡◌, ◌+◌, ◌<◌, ◌≤◌, [], ◌∷◌, ◌++◌, length, All, Ok, Err, OnOk, OnErr, IfOk, IfErr};
ghost use Rattle.stream_core.specs.Eval.{StepValues, events_of, events_of_trigger, fired, observed, step_at, values};
ghost use Rattle.stream_core.specs.Meaning.{closed_spec, weight};
ghost use Rattle.stream_core.specs.Weights.{heavy, roots_weight, triggers_weight, observers_weight, streams_weight};
ghost use Rattle.stream_interp.specs.EventLog.{used};
ghost use Rattle.stream_interp.specs.Buffers.{FitsSpec};
ghost use Rattle.stream_interp.specs.Reading.{IsLayout};
ghost use Rattle.stream_interp.specs.Roots.{IsReadySpec, IsReadyTrigger, closed_trigger, closed_triggers, closed_observers, closed_exprs, roots_words, triggers_words, observers_words, streams_words, rows_in, then_events, or_hazard};
ghost use Rattle.stream_interp.specs.Seen.{IsSeen, now_moment};

use crate::events::{Log, Who};
use crate::sight::Sight;
use crate::values::{fill, word};
use sm_io::Steps;
use std::slice;
use std::sync::ledger::Ledger;
use stream_core::TriggerItem;
use stream_types::Hazard;

// A trigger's event, where its guard is true. The hazard is the guard's, or else the first of the arguments'.
fn fire_one<L: Ledger>(
    sight: &Sight,
    number: u32,
    trigger: &TriggerItem,
    log: &mut Log,
    scratch: &mut [u64],
    steps: &mut Steps<L>,
) -> Result<(), Hazard>
    requires seen { IsSeen sight.now.spec.now sight.now.rings.now sight.now.row.now }
    requires layout { IsLayout sight.now.spec.now sight.now.layout.now }
    requires ready { IsReadyTrigger sight.now.spec.now (length scratch.old) trigger.now }
    requires words { used log.old.events + roots_words sight.now.spec.now.types trigger.now.args ≤ log.old.words }
    requires mark { length log.old.events < log.old.marks }
    ensures value { let s = sight.now.spec.now in
        then_events log.old.events (events_of_trigger (now_moment s sight.now.rings.now sight.now.row.now) number (closed_trigger s trigger.now)) ≡ or_hazard result log.new.events }
    ensures used { OnOk result (used log.new.events ≤ used log.old.events + roots_words sight.now.spec.now.types trigger.now.args) }
    ensures one { OnOk result (length log.new.events ≤ length log.old.events + 1) }
    ensures room { (log.new.words ≡ log.old.words) × (log.new.marks ≡ log.old.marks) }
    ensures steps { let s = sight.now.spec.now in
        steps.new ≤ steps.old + (heavy s trigger.now.guard.expr + roots_weight s trigger.now.args) }
{
    let guard = word(sight, trigger.guard.expr, scratch, steps)?;
    if guard == 0 {
        return Ok(());
    }
    log.add(
        Who::Trigger(number),
        sight,
        trigger.args.as_slice(),
        scratch,
        steps,
    )
}

// The events of all triggers, or the first trigger's hazard that has one.
fn fire<L: Ledger>(
    sight: &Sight,
    log: &mut Log,
    scratch: &mut [u64],
    steps: &mut Steps<L>,
) -> Result<(), Hazard>
    requires seen { IsSeen sight.now.spec.now sight.now.rings.now sight.now.row.now }
    requires layout { IsLayout sight.now.spec.now sight.now.layout.now }
    requires ready { IsReadySpec sight.now.spec.now (length scratch.old) }
    requires words { used log.old.events + triggers_words sight.now.spec.now.types sight.now.spec.now.triggers ≤ log.old.words }
    requires marks { length log.old.events + length sight.now.spec.now.triggers ≤ log.old.marks }
    ensures value { let s = sight.now.spec.now in
        then_events log.old.events (fired (now_moment s sight.now.rings.now sight.now.row.now) 0 (closed_triggers s s.triggers)) ≡ or_hazard result log.new.events }
    ensures used { OnOk result (used log.new.events ≤ used log.old.events + triggers_words sight.now.spec.now.types sight.now.spec.now.triggers) }
    ensures few { OnOk result (length log.new.events ≤ length log.old.events + length sight.now.spec.now.triggers) }
    ensures room { (log.new.words ≡ log.old.words) × (log.new.marks ≡ log.old.marks) }
    ensures steps { steps.new ≤ steps.old + triggers_weight sight.now.spec.now sight.now.spec.now.triggers }
{
    for (i, trigger) in sight.spec.triggers().iter().enumerate() {
        fire_one(sight, i as u32, trigger, log, scratch, steps)?;
    }
    Ok(())
}

// The events of all observers, or the first observer's hazard that has one.
fn observe<L: Ledger>(
    sight: &Sight,
    log: &mut Log,
    scratch: &mut [u64],
    steps: &mut Steps<L>,
) -> Result<(), Hazard>
    requires seen { IsSeen sight.now.spec.now sight.now.rings.now sight.now.row.now }
    requires layout { IsLayout sight.now.spec.now sight.now.layout.now }
    requires ready { IsReadySpec sight.now.spec.now (length scratch.old) }
    requires words { used log.old.events + observers_words sight.now.spec.now.types sight.now.spec.now.observers ≤ log.old.words }
    requires marks { length log.old.events + length sight.now.spec.now.observers ≤ log.old.marks }
    ensures value { let s = sight.now.spec.now in
        then_events log.old.events (observed (now_moment s sight.now.rings.now sight.now.row.now) 0 (closed_observers s s.observers)) ≡ or_hazard result log.new.events }
    ensures room { (log.new.words ≡ log.old.words) × (log.new.marks ≡ log.old.marks) }
    ensures steps { steps.new ≤ steps.old + observers_weight sight.now.spec.now sight.now.spec.now.observers }
{
    for (i, observer) in sight.spec.observers().iter().enumerate() {
        log.add(
            Who::Observer(i as u32),
            sight,
            slice::from_ref(&observer.root),
            scratch,
            steps,
        )?;
    }
    Ok(())
}

// Each stream's next value, one after another, or the first stream's hazard that has one.
fn next_rows<L: Ledger>(
    sight: &Sight,
    rows: &mut [u64],
    scratch: &mut [u64],
    steps: &mut Steps<L>,
) -> Result<(), Hazard>
    requires seen { IsSeen sight.now.spec.now sight.now.rings.now sight.now.row.now }
    requires layout { IsLayout sight.now.spec.now sight.now.layout.now }
    requires ready { IsReadySpec sight.now.spec.now (length scratch.old) }
    requires rows { length rows.old ≡ streams_words sight.now.spec.now.types sight.now.spec.now.streams }
    ensures value { let s = sight.now.spec.now in
        values (now_moment s sight.now.rings.now sight.now.row.now) (closed_exprs s s.streams) ≡ or_hazard result (rows_in s.types s.streams rows.new) }
    ensures steps { steps.new ≤ steps.old + streams_weight sight.now.spec.now sight.now.spec.now.streams }
{
    let mut at = 0;
    for stream in sight.spec.streams() {
        let width = sight.spec.types().words(stream.ty) as usize;
        fill(
            sight,
            stream.expr,
            &mut rows[at..at + width],
            scratch,
            steps,
        )?;
        at += width;
    }
    Ok(())
}

/// The buffers that a step works in.
#[derive(Drop)]
pub(crate) struct Work {
    pub(crate) log: Log,
    pub(crate) rows: Vec<u64>,
    pub(crate) scratch: Vec<u64>,
}

/// All that a step finds, over a log without events: the triggers' events and then the observers', and the streams'
/// next values. The hazard is the definition's: the first trigger's, or else the first observer's, or else the first
/// stream's.
pub(crate) fn find<L: Ledger>(
    sight: &Sight,
    work: &mut Work,
    steps: &mut Steps<L>,
) -> Result<(), Hazard>
    requires seen { IsSeen sight.now.spec.now sight.now.rings.now sight.now.row.now }
    requires layout { IsLayout sight.now.spec.now sight.now.layout.now }
    requires blank { work.old.log.events ≡ [] }
    requires fits { FitsSpec sight.now.spec.now work.old }
    ensures value { let s = sight.now.spec.now in
        OnOk result ((v : StepValues) × (step_at (closed_spec s) (now_moment s sight.now.rings.now sight.now.row.now) ≡ Ok v)
        × (work.new.log.events ≡ events_of v) × (rows_in s.types s.streams work.new.rows.items ≡ v.nexts)) }
    ensures err { let s = sight.now.spec.now in
        IfErr result (λ z. step_at (closed_spec s) (now_moment s sight.now.rings.now sight.now.row.now) ≡ Err z) }
    ensures fits { FitsSpec sight.now.spec.now work.new }
    ensures steps { steps.new ≤ steps.old + weight sight.now.spec.now }
{
    fire(sight, &mut work.log, &mut work.scratch, steps)?;
    observe(sight, &mut work.log, &mut work.scratch, steps)?;
    next_rows(sight, &mut work.rows, &mut work.scratch, steps)
}

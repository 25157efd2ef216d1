// The lines of a step's events.
ghost use Rattle.std.specs.Prelude.{◌≡◌, is_ok};
ghost use Rattle.std.specs.List.{AllByRecursion, flat_map};
ghost use Rattle.sm_io.specs.Written.{WritesText};
ghost use Rattle.stream_core.specs.Eval.{Event as AnyEvent};
ghost use Rattle.stream_core.specs.Term.{trees};
ghost use Rattle.stream_core.specs.EventWords.{AreWordsOf};
ghost use Rattle.stream_interp.specs.EventLog.{who_of};
ghost use Rattle.interpreter.specs.Interpreted.{line_of_event};
ghost use Rattle.interpreter.specs.Lines.{shapes_of};

use crate::shapes::Shapes;
use extern_rows::event_line;
use sm_io::{Failed, Sink};
use stream_core::Spec;
use stream_interp::{Events, Who};

// The line of an event of the step of this number.
fn write_event<K: Sink>(
    spec: &Spec,
    shapes: &Shapes,
    step: u64,
    who: Who,
    words: &[u64],
    out: &mut K,
) -> Result<(), Failed>
    requires shapes { shapes.now ≡ shapes_of spec.now }
    requires words { AreWordsOf spec.now (who_of who) words.now }
    ensures { WritesText (K.taken out.old) (K.taken out.new) (K.faults out.old) (K.faults out.new) (is_ok result)
        (line_of_event (trees spec.now) step (record { who = who_of who; words = words.now })) }
{
    match who {
        Who::Trigger(i) => {
            let name = spec.triggers()[i as usize].name.bytes();
            let shape = shapes.triggers.as_slice()[i as usize].as_slice();
            event_line(out, step, false, name, shape, words)
        }
        Who::Observer(i) => {
            let name = spec.observers()[i as usize].name.bytes();
            let shape = shapes.observers.as_slice()[i as usize].as_slice();
            event_line(out, step, true, name, shape, words)
        }
    }
}

/// The lines of the events of the step of this number. On `Failed` a prefix of them was taken.
pub(crate) fn write_events<K: Sink>(
    spec: &Spec,
    shapes: &Shapes,
    step: u64,
    events: &Events,
    out: &mut K,
) -> Result<(), Failed>
    requires shapes { shapes.now ≡ shapes_of spec.now }
    requires words { AllByRecursion (λ (e : AnyEvent). AreWordsOf spec.now e.who e.words) events.now }
    ensures { WritesText (K.taken out.old) (K.taken out.new) (K.faults out.old) (K.faults out.new) (is_ok result)
        (flat_map (line_of_event (trees spec.now) step) events.now) }
{
    let mut i = 0;
    while i < events.len() {
        write_event(spec, shapes, step, events.who(i), events.words(i), out)?;
        i += 1;
    }
    Ok(())
}

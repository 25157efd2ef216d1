// A monitor as a machine that is stepped over rows.
ghost use Rattle.std.specs.Prelude.{◌≡◌, [], None, IfOk};
ghost use Rattle.stream_core.specs.Meaning.{IsFirstFault};
ghost use Rattle.stream_core.specs.Term.{trees};
ghost use Rattle.stream_core.specs.Lower.{lowered_spec};
ghost use Rattle.interpreter.specs.Lines.{Interprets};

use crate::lines::write_events;
use crate::shapes::Shapes;
use recursion_check::Sound;
use row_sessions::{Stepper, Stop};
use sm_io::{Failed, Sink, Steps};
use std::alloc::{AllocError, Global};
use std::sync::ledger::Ledger;
use stream_core::Spec;
use stream_interp::Monitor;
use stream_lib::Plain;
use stream_types::Hazard;

/// A monitor, and what the lines of its events need.
#[derive(Drop)]
pub(crate) struct Machine<'a, L: Ledger> {
    spec: &'a Spec,
    shapes: Shapes,
    monitor: Monitor<'a>,
    time: u64,
    steps: Steps<L>,
}

impl<'a, L: Ledger> Machine<'a, L> {
    /// The machine of a specification before the first row, over what it is lowered to.
    pub(crate) fn start(
        alloc: Global,
        sound: &'a Sound,
        plain: &'a Plain,
        steps: Steps<L>,
    ) -> Result<Machine<'a, L>, AllocError>
        requires { trees plain.now ≡ lowered_spec (trees sound.now) }
        ensures { IfOk result (λ m. (m.spec.now ≡ sound.now) × Interprets sound.now m.monitor m.shapes m.time []) }
    {
        let spec = sound.spec();
        Ok(Machine {
            spec,
            shapes: Shapes::new(alloc, spec)?,
            monitor: Monitor::start(alloc, plain)?,
            time: 0,
            steps,
        })
    }
}

impl<L: Ledger> Stepper<Hazard> for Machine<'_, L> {
    ghost use Rattle.stream_core.specs.Eval.{row_leaves};
    ghost use Rattle.stream_core.specs.Meaning.{closed_spec};
    ghost use Rattle.interpreter.specs.Interpreted.{last_step};
    ghost use Rattle.interpreter.specs.Lines.{Interprets};

    ghost answers = { λ m rows. last_step m.spec.now rows };

    ghost stands = { λ m rows. Interprets m.spec.now m.monitor m.shapes m.time rows };

    ghost scalars = { λ m. row_leaves (closed_spec m.spec.now) };

    fn step<K: Sink>(&mut self, row: &[u64], out: &mut K) -> Result<(), Stop<Hazard>> {
        match self.monitor.step(row, &mut self.steps) {
            Ok(()) => {}
            Err(hazard) => return Err(Stop::Fault(hazard)),
        }
        let events = self.monitor.events();
        match write_events(self.spec, &self.shapes, self.time, &events, out) {
            Ok(()) => {}
            Err(Failed) => return Err(Stop::Failed),
        }
        self.time += 1;
        Ok(())
    }
}

// The monitor.
ghost use Rattle.std.specs.Prelude.{◌≡◌, ◌+◌, ◌≤◌, ℕ, List, [], ◌∷◌, ◌++◌, length, Ok, Err, OnOk, OnErr, IfOk, IfErr};
ghost use Rattle.stream_types.specs.Types.{AreWords};
ghost use Rattle.stream_core.specs.Eval.{row_leaves};
ghost use Rattle.stream_core.specs.Meaning.{closed_spec, step, weight};
ghost use Rattle.stream_interp.specs.Standing.{StandsFor};

use crate::buffers::{event_words, row_words};
use crate::events::{Events, Log};
use crate::layout::Layout;
use crate::rings::{first_rings, push_rows};
use crate::rooms::greatest_room;
use crate::sight::Sight;
use crate::steps::{Work, find};
use ring_bank::Bank;
use sm_io::Steps;
use std::alloc::{AllocError, Global};
use std::marker::Model;
use std::sync::ledger::Ledger;
use stream_core::Spec;
use stream_lib::Plain;
use stream_types::Hazard;

/// A plain specification that runs step by step. It holds no more than the streams' last values, however many steps
/// there were.
#[derive(Drop)]
pub struct Monitor<'p> {
    spec: &'p Spec,
    layout: Layout,
    rings: Bank,
    work: Work,
    time: u64,
}

impl<'p> Model for Monitor<'p> {
    ghost use Rattle.stream_interp.specs.Standing.{MonitorValue};

    ghost Value = { MonitorValue };

    ghost use Rattle.stream_interp.specs.Running.{value_of, IsRunning};

    ghost view = { λ m. value_of m.spec.now m.rings m.time m.work };

    ghost invariant = { λ m. IsRunning m.spec.now m.layout m.rings m.time m.work };
}

impl<'p> Monitor<'p> {
    /// A monitor before the first step, which has no events. All memory that its steps use is taken here.
    pub fn start(alloc: Global, plain: &'p Plain) -> Result<Monitor<'p>, AllocError>
        ensures { IfOk result (λ m. (m.spec ≡ plain.now) × StandsFor m [] × (m.events ≡ [])) }
    {
        let spec = plain.spec();
        let room = greatest_room(spec)?;
        let marks = spec.triggers().len() + spec.observers().len();
        Ok(Monitor {
            spec,
            layout: Layout::new(alloc, spec)?,
            rings: first_rings(alloc, spec)?,
            work: Work {
                log: Log::new(alloc, event_words(spec)?, marks)?,
                rows: Vec::from_elem(alloc, 0u64, row_words(spec)?)?,
                scratch: Vec::from_elem(alloc, 0u64, room)?,
            },
            time: 0,
        })
    }

    /// Takes a row of the externs' words, in their order, as the next step: its events are the definition's, and so is
    /// its hazard, after which all is as before the step, but without events. It takes no memory.
    pub fn step<L: Ledger>(&mut self, row: &[u64], steps: &mut Steps<L>) -> Result<(), Hazard>
        requires row { AreWords (row_leaves (closed_spec self.old.spec)) row.now }
        ensures ok { (h : List (List ℕ)) → StandsFor self.old h
            → OnOk result (StandsFor self.new (h ++ row.now ∷ []) × (step self.old.spec (h ++ row.now ∷ []) (length h) ≡ Ok self.new.events)) }
        ensures err { (h : List (List ℕ)) → StandsFor self.old h → IfErr result (λ z. step self.old.spec (h ++ row.now ∷ []) (length h) ≡ Err z) }
        ensures same { OnErr result (self.new ≡ record self.old { events = [] }) }
        ensures spec { self.new.spec ≡ self.old.spec }
        ensures steps { steps.new ≤ steps.old + weight self.old.spec }
    {
        self.work.log.clear();
        let sight = Sight {
            spec: self.spec,
            layout: &self.layout,
            rings: &self.rings,
            row,
        };
        match find(&sight, &mut self.work, steps) {
            Ok(()) => {
                push_rows(self.spec, &mut self.rings, &self.work.rows);
                self.time = self.time.saturating_add(1);
                Ok(())
            }
            Err(hazard) => {
                self.work.log.clear();
                Err(hazard)
            }
        }
    }

    /// The last step's events, without a copy.
    pub fn events(&self) -> Events<'_>
        ensures { result ≡ self.now.events }
    {
        self.work.log.events()
    }
}

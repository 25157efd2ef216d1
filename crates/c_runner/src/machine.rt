// The machine of a unit, stepped over rows.
ghost use Rattle.std.specs.Prelude.{◌≡◌, [], IfOk};
ghost use Rattle.c99_tree.specs.WellFormed.{IsWellFormed};
ghost use Rattle.c_runner.specs.Lines.{Executes};

use crate::lines::write_calls;
use crate::shapes::shapes;
use c_exec::{Machine as Carried, Undefined};
use c99_tree::Unit;
use extern_rows::Piece;
use row_sessions::{Stepper, Stop};
use sm_io::{Failed, Seq, Sink, Steps};
use std::alloc::{AllocError, Global};
use std::sync::ledger::Ledger;

/// A machine, and what the lines of its calls need.
#[derive(Drop)]
pub(crate) struct Machine<'a, L: Ledger> {
    unit: &'a Unit,
    shapes: Seq<Seq<Piece>>,
    carried: Carried<'a>,
    time: u64,
    steps: Steps<L>,
}

impl<'a, L: Ledger> Machine<'a, L> {
    /// The machine of a unit before the first row.
    pub(crate) fn start(
        alloc: Global,
        unit: &'a Unit,
        steps: Steps<L>,
    ) -> Result<Machine<'a, L>, AllocError>
        requires { IsWellFormed unit.now }
        ensures { IfOk result (λ m. (m.unit.now ≡ unit.now) × Executes unit.now m.carried m.shapes m.time []) }
    {
        Ok(Machine {
            unit,
            shapes: shapes(alloc, unit)?,
            carried: Carried::start(alloc, unit)?,
            time: 0,
            steps,
        })
    }
}

impl<L: Ledger> Stepper<Undefined> for Machine<'_, L> {
    ghost use Rattle.extern_rows.specs.Leaves.{scalars_of};
    ghost use Rattle.c_runner.specs.Executed.{last_step, unit_columns};
    ghost use Rattle.c_runner.specs.Lines.{Executes};

    ghost answers = { λ m rows. last_step m.unit.now rows };

    ghost stands = { λ m rows. Executes m.unit.now m.carried m.shapes m.time rows };

    ghost scalars = { λ m. scalars_of (unit_columns m.unit.now) };

    fn step<K: Sink>(&mut self, row: &[u64], out: &mut K) -> Result<(), Stop<Undefined>> {
        match self.carried.call_step(row, &mut self.steps) {
            Ok(()) => {}
            Err(why) => return Err(Stop::Fault(why)),
        }
        let calls = self.carried.events();
        match write_calls(self.unit, self.shapes.as_slice(), self.time, &calls, out) {
            Ok(()) => {}
            Err(Failed) => return Err(Stop::Failed),
        }
        self.time += 1;
        Ok(())
    }
}

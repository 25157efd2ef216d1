// The execution of a unit.
ghost use Rattle.std.specs.Prelude.{◌≡◌, IfOk, OnErr};
ghost use Rattle.c99_tree.specs.WellFormed.{IsWellFormed};
ghost use Rattle.row_sessions.specs.Session.{RunsSession, TellsFaults, streams};
ghost use Rattle.c_runner.specs.Executed.{executed, unit_columns};

use crate::externs::columns_are_few;
use crate::machine::Machine;
use c_exec::Undefined;
use c99_tree::Unit;
use extern_rows::Leaf;
use row_sessions::{Ending, run_session};
use sm_io::{Sink, Source, Steps};
use std::alloc::{AllocError, Global};
use std::marker::Brand;
use std::sync::ledger::{Blank, Ledger};

// The same with a count of steps.
fn run<S: Source, K: Sink, L: Ledger>(
    alloc: Global,
    unit: &Unit,
    leaves: &[Leaf],
    blank: Blank,
    input: &mut S,
    out: &mut K,
) -> Result<Ending<Undefined>, AllocError>
    requires well_formed { IsWellFormed unit.now }
    requires leaves { leaves.now ≡ unit_columns unit.now }
    requires name { blank.name ≡ L.name }
    requires parts { blank.parts ≡ L.parts }
    requires one { blank.parts ≡ 1 }
    ensures runs { IfOk result (RunsSession (executed unit.now) (streams (S.left input.old) (S.faults input.old) (K.taken out.old) (K.faults out.old)) (streams (S.left input.new) (S.faults input.new) (K.taken out.new) (K.faults out.new))) }
    ensures faults { IfOk result (TellsFaults (streams (S.left input.old) (S.faults input.old) (K.taken out.old) (K.faults out.old)) (streams (S.left input.new) (S.faults input.new) (K.taken out.new) (K.faults out.new))) }
    ensures input { OnErr result (input.new ≡ input.old) }
    ensures out { OnErr result (out.new ≡ out.old) }
{
    let steps: Steps<L> = Steps::new(blank);
    columns_are_few(unit);
    let mut machine = Machine::start(alloc, unit, steps)?;
    Ok(run_session(alloc, leaves, &mut machine, input, out))
}

/// Reads rows of the externs' values from the input, by their columns, and writes the lines of the calls of each step.
/// The session ends with the input, at the first line that gives no row, at the first step that meets something
/// undefined, which writes nothing, or where the input, the output or memory fails.
pub fn execute<S: Source, K: Sink>(
    alloc: Global,
    unit: &Unit,
    leaves: &[Leaf],
    input: &mut S,
    out: &mut K,
) -> Ending<Undefined>
    requires well_formed { IsWellFormed unit.now }
    requires leaves { leaves.now ≡ unit_columns unit.now }
    ensures runs { RunsSession (executed unit.now) (streams (S.left input.old) (S.faults input.old) (K.taken out.old) (K.faults out.old)) (streams (S.left input.new) (S.faults input.new) (K.taken out.new) (K.faults out.new)) result }
    ensures faults { TellsFaults (streams (S.left input.old) (S.faults input.old) (K.taken out.old) (K.faults out.old)) (streams (S.left input.new) (S.faults input.new) (K.taken out.new) (K.faults out.new)) result }
{
    match run::<S, K, Brand>(alloc, unit, leaves, Blank::new(1), input, out) {
        Ok(ending) => ending,
        Err(AllocError) => Ending::NoMemory,
    }
}

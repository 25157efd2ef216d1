// The interpretation of a specification.
ghost use Rattle.std.specs.Prelude.{◌≡◌, IfOk, OnErr};
ghost use Rattle.stream_core.specs.Term.{trees};
ghost use Rattle.stream_core.specs.Lower.{lowered_spec};
ghost use Rattle.row_sessions.specs.Session.{RunsSession, TellsFaults, streams};
ghost use Rattle.interpreter.specs.Interpreted.{extern_columns, interpreted};

use crate::externs::columns_fit_rows;
use crate::machine::Machine;
use extern_rows::Leaf;
use recursion_check::Sound;
use row_sessions::{Ending, run_session};
use sm_io::{Sink, Source, Steps};
use std::alloc::{AllocError, Global};
use std::marker::Brand;
use std::sync::ledger::{Blank, Ledger};
use stream_lib::{Plain, lower};
use stream_types::Hazard;

// The same over what the specification is lowered to, with a count of steps.
fn run<S: Source, K: Sink, L: Ledger>(
    alloc: Global,
    sound: &Sound,
    plain: &Plain,
    leaves: &[Leaf],
    blank: Blank,
    input: &mut S,
    out: &mut K,
) -> Result<Ending<Hazard>, AllocError>
    requires lowered { trees plain.now ≡ lowered_spec (trees sound.now) }
    requires leaves { leaves.now ≡ extern_columns sound.now }
    requires name { blank.name ≡ L.name }
    requires parts { blank.parts ≡ L.parts }
    requires one { blank.parts ≡ 1 }
    ensures runs { IfOk result (RunsSession (interpreted sound.now) (streams (S.left input.old) (S.faults input.old) (K.taken out.old) (K.faults out.old)) (streams (S.left input.new) (S.faults input.new) (K.taken out.new) (K.faults out.new))) }
    ensures faults { IfOk result (TellsFaults (streams (S.left input.old) (S.faults input.old) (K.taken out.old) (K.faults out.old)) (streams (S.left input.new) (S.faults input.new) (K.taken out.new) (K.faults out.new))) }
    ensures input { OnErr result (input.new ≡ input.old) }
    ensures out { OnErr result (out.new ≡ out.old) }
{
    let steps: Steps<L> = Steps::new(blank);
    columns_fit_rows(sound);
    let mut machine = Machine::start(alloc, sound, plain, steps)?;
    Ok(run_session(alloc, leaves, &mut machine, input, out))
}

/// Reads rows of the externs' values from the input, by their columns, and writes the lines of each step's events: the triggers that fire,
/// and then the observers. The session ends with the input, at the first line that gives no row, at the first step with
/// a hazard, which writes nothing, or where the input, the output or memory fails.
pub fn interpret<S: Source, K: Sink>(
    alloc: Global,
    sound: &Sound,
    leaves: &[Leaf],
    input: &mut S,
    out: &mut K,
) -> Ending<Hazard>
    requires { leaves.now ≡ extern_columns sound.now }
    ensures runs { RunsSession (interpreted sound.now) (streams (S.left input.old) (S.faults input.old) (K.taken out.old) (K.faults out.old)) (streams (S.left input.new) (S.faults input.new) (K.taken out.new) (K.faults out.new)) result }
    ensures faults { TellsFaults (streams (S.left input.old) (S.faults input.old) (K.taken out.old) (K.faults out.old)) (streams (S.left input.new) (S.faults input.new) (K.taken out.new) (K.faults out.new)) result }
{
    let plain = match lower(alloc, sound) {
        Ok(plain) => plain,
        Err(AllocError) => return Ending::NoMemory,
    };
    match run::<S, K, Brand>(alloc, sound, &plain, leaves, Blank::new(1), input, out) {
        Ok(ending) => ending,
        Err(AllocError) => Ending::NoMemory,
    }
}

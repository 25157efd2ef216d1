// `interpret`.
ghost use Rattle.std.specs.Prelude.{◌≡◌, ◌≤◌, ◌⊎◌, ℕ, List, [], ◌∷◌, IfErr, IfOk, OnOk, IfSome};
ghost use Rattle.stream_core.specs.Value.{SpecValue};
ghost use Rattle.interpreter.specs.Interpreted.{extern_columns};
ghost use Rattle.extern_rows.specs.LeafFaults.{leaf_name};
ghost use Rattle.tool_top.specs.Command.{interpret};
ghost use Rattle.tool_top.specs.Outside.{outside};
ghost use Rattle.tool_top.specs.Wanted.{text_file, contents};
ghost use Rattle.tool_top.specs.Answer.{IsEarly, IsStop, StopsAt, TellsShelfFaults};
ghost use Rattle.tool_top.specs.Interpret.{IsReadAs, RunsInterpret, NamesLeaves};
ghost use Rattle.tool_top.specs.Sessions.{told_as};

use crate::analysis::{analyse, first_fault_is_one};
use crate::fetch::fetch_text;
use crate::outcome::Outcome;
use extern_rows::Leaf;
use interpreter::{columns, interpret};
use recursion_check::Sound;
use row_sessions::Ending;
use sm_io::{Shelf, Sink, Source};
use std::alloc::{AllocError, Global};
use stream_types::Hazard;

/// How an interpretation ended, and the columns that its rows have, as far as it came to them.
#[derive(Drop)]
pub(crate) struct Interpreted {
    pub(crate) outcome: Outcome,
    pub(crate) leaves: Vec<Leaf>,
}

// The specification that a file stands for, or how the run stops.
fn fetch_spec<F: Shelf>(alloc: Global, spec: &str, shelf: &mut F) -> Result<Sound, Outcome>
    ensures same { F.files shelf.new ≡ F.files shelf.old }
    ensures later { F.faults shelf.old ≤ F.faults shelf.new }
    ensures ok { IfOk result (λ s. IfSome (F.files shelf.old) (λ m. IsReadAs spec.now m s)) }
    ensures err { IfErr result (λ stop. IfSome (F.files shelf.old) (λ m. StopsAt (interpret spec.now) (contents m (text_file spec.now)) stop)) }
    ensures stops { IfErr result IsStop }
    ensures steady { OnOk result (F.faults shelf.new ≡ F.faults shelf.old) }
    ensures faults { IfErr result (TellsShelfFaults (F.faults shelf.old) (F.faults shelf.new)) }
{
    let text = match fetch_text(alloc, spec, shelf) {
        Ok(text) => text,
        Err(stop) => return Err(stop),
    };
    analyse(alloc, &text)
}

// What the end of a session is told as.
fn outcome_of(ending: Ending<Hazard>) -> Outcome
    ensures { result ≡ told_as Outcome.Hazard ending }
{
    match ending {
        Ending::Done => Outcome::Done,
        Ending::Stopped { step, fault } => Outcome::Hazard { step, kind: fault },
        Ending::BadRow { line, fault } => Outcome::BadRow { line, fault },
        Ending::ReadFault => Outcome::ReadFault,
        Ending::WriteFault => Outcome::WriteFault,
        Ending::NoMemory => Outcome::NoMemory,
    }
}

/// Fetches a specification, and interprets it over the rows of the input.
pub(crate) fn interpret_file<S: Source, K: Sink, F: Shelf>(
    alloc: Global,
    spec: &str,
    input: &mut S,
    out: &mut K,
    shelf: &mut F,
) -> Interpreted
    ensures runs { RunsInterpret spec.now
        (outside (F.files shelf.old) (F.faults shelf.old) (S.left input.old) (S.faults input.old) (K.taken out.old) (K.faults out.old))
        (outside (F.files shelf.new) (F.faults shelf.new) (S.left input.new) (S.faults input.new) (K.taken out.new) (K.faults out.new))
        result.outcome }
    ensures leaves { IfSome (F.files shelf.old) (λ m. NamesLeaves spec.now m result.outcome result.leaves.items) }
    ensures input { IsEarly result.outcome → input.new ≡ input.old }
    ensures out { IsEarly result.outcome → out.new ≡ out.old }
{
    first_fault_is_one();
    let none = Vec::new(alloc);
    let sound = match fetch_spec(alloc, spec, shelf) {
        Ok(sound) => sound,
        Err(outcome) => return Interpreted {
            outcome,
            leaves: none,
        },
    };
    let leaves = match columns(alloc, sound.spec()) {
        Ok(leaves) => leaves,
        Err(AllocError) => {
            return Interpreted {
                outcome: Outcome::NoMemory,
                leaves: none,
            };
        }
    };
    let outcome = outcome_of(interpret(alloc, &sound, &leaves, input, out));
    Interpreted { outcome, leaves }
}

// `cexec`.
ghost use Rattle.std.specs.Prelude.{◌≡◌, IfSome, string_bytes};
ghost use Rattle.tool_top.specs.Outside.{outside};
ghost use Rattle.tool_top.specs.Wanted.{unit_files};
ghost use Rattle.tool_top.specs.Answer.{IsEarly, NamesStop};
ghost use Rattle.tool_top.specs.Execute.{RunsExecute, NamesColumns};
ghost use Rattle.tool_top.specs.Sessions.{told_as};

use crate::outcome::Outcome;
use crate::unit_files::fetch_unit;
use c_runner::{columns, execute};
use c99_read::texts_spell_one_unit;
use c99_tree::Undefined;
use extern_rows::Leaf;
use row_sessions::Ending;
use sm_io::{Shelf, Sink, Source};
use std::alloc::{AllocError, Global};

/// How an execution ended, the file at which its reading stopped, and the columns that its rows have, as far as it came.
#[derive(Drop)]
pub(crate) struct Executed {
    pub(crate) outcome: Outcome,
    pub(crate) file: String,
    pub(crate) leaves: Vec<Leaf>,
}

// What the end of a session is told as.
fn outcome_of(ending: Ending<Undefined>) -> Outcome
    ensures { result ≡ told_as Outcome.Undefined ending }
{
    match ending {
        Ending::Done => Outcome::Done,
        Ending::Stopped { step, fault } => Outcome::Undefined { step, kind: fault },
        Ending::BadRow { line, fault } => Outcome::BadRow { line, fault },
        Ending::ReadFault => Outcome::ReadFault,
        Ending::WriteFault => Outcome::WriteFault,
        Ending::NoMemory => Outcome::NoMemory,
    }
}

/// Reads the two files of a program, and executes it over the rows of the input.
pub(crate) fn execute_files<S: Source, K: Sink, F: Shelf>(
    alloc: Global,
    name: &str,
    input: &mut S,
    out: &mut K,
    shelf: &mut F,
) -> Executed
    ensures runs { RunsExecute name.now
        (outside (F.files shelf.old) (F.faults shelf.old) (S.left input.old) (S.faults input.old) (K.taken out.old) (K.faults out.old))
        (outside (F.files shelf.new) (F.faults shelf.new) (S.left input.new) (S.faults input.new) (K.taken out.new) (K.faults out.new))
        result.outcome }
    ensures file { NamesStop (unit_files name.now) (F.files shelf.old) result.outcome (string_bytes result.file) }
    ensures leaves { IfSome (F.files shelf.old) (λ m. NamesColumns name.now m result.outcome result.leaves.items) }
    ensures input { IsEarly result.outcome → input.new ≡ input.old }
    ensures out { IsEarly result.outcome → out.new ≡ out.old }
{
    texts_spell_one_unit();
    let none = Vec::new(alloc);
    let unit = match fetch_unit(alloc, name, shelf) {
        Ok(unit) => unit,
        Err(stop) => return Executed {
            outcome: stop.outcome,
            file: stop.file,
            leaves: none,
        },
    };
    let file = String::new(alloc);
    let leaves = match columns(alloc, &unit) {
        Ok(leaves) => leaves,
        Err(AllocError) => {
            return Executed {
                outcome: Outcome::NoMemory,
                file,
                leaves: none,
            };
        }
    };
    let outcome = outcome_of(execute(alloc, &unit, &leaves, input, out));
    Executed {
        outcome,
        file,
        leaves,
    }
}

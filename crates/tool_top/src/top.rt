// The top call.
ghost use Rattle.std.specs.Prelude.{◌≡◌, ℕ, List, Bool, map, string_bytes};
ghost use Rattle.sm_io.specs.Written.{WritesText};
ghost use Rattle.tool_top.specs.Command.{command_of};
ghost use Rattle.tool_top.specs.Outside.{outside};
ghost use Rattle.tool_top.specs.Answer.{Names};
ghost use Rattle.tool_top.specs.Runs.{Runs, IsIdle, LeavesInput, LeavesOut, Completes, HasOneOutcome};
ghost use Rattle.tool_top.specs.Interpret.{subject_of};
ghost use Rattle.tool_top.specs.Lines.{line_of};

use crate::analysis::{first_fault_is_one, nowhere};
use crate::command::{Command, command_of};
use crate::compiling::compile;
use crate::demonstrating::run_demo;
use crate::executing::execute_files;
use crate::interpreting::interpret_file;
use crate::migrating::migrate_files;
use crate::outcome::{Outcome, RefusalKind, Tool};
use crate::tell::tell;
use c99_read::texts_spell_one_unit;
use extern_rows::{Leaf, leaf_name};
use sm_io::{Shelf, Sink, Source};
use std::alloc::Global;

// What the line of a session speaks of: the leaf of a bad row, or else the file.
fn subject<'a>(file: &'a [u8], outcome: &'a Outcome, leaves: &'a [Leaf]) -> &'a [u8]
    ensures { result.now ≡ subject_of file.now outcome.now leaves.now }
{
    match outcome {
        Outcome::BadRow { fault, .. } => leaf_name(leaves, fault),
        _ => file,
    }
}

/// Runs a tool over the words after its name. `input` is standard input, `out` standard output, `err` standard error
/// and `shelf` the folder of the files. A failing write to `err` changes no answer.
pub fn run_tool<S: Source, K: Sink, E: Sink, F: Shelf>(
    alloc: Global,
    tool: Tool,
    words: &[String],
    input: &mut S,
    out: &mut K,
    err: &mut E,
    shelf: &mut F,
) -> Outcome
    // What each answer rests on, and what it leaves of the files, the input and the output.
    ensures runs { Runs (command_of tool (map string_bytes words.now))
        (outside (F.files shelf.old) (F.faults shelf.old) (S.left input.old) (S.faults input.old) (K.taken out.old) (K.faults out.old))
        (outside (F.files shelf.new) (F.faults shelf.new) (S.left input.new) (S.faults input.new) (K.taken out.new) (K.faults out.new))
        result }
    // What is accepted is done, unless a call that the command may tell of failed or memory ran out.
    ensures completes { Completes (command_of tool (map string_bytes words.now))
        (outside (F.files shelf.old) (F.faults shelf.old) (S.left input.old) (S.faults input.old) (K.taken out.old) (K.faults out.old))
        (outside (F.files shelf.new) (F.faults shelf.new) (S.left input.new) (S.faults input.new) (K.taken out.new) (K.faults out.new))
        result }
    // No call is made on the folder for words of no command and for a command that isn't built.
    ensures idle { IsIdle (command_of tool (map string_bytes words.now)) → shelf.new ≡ shelf.old }
    // The input is read by a session alone, and the output written by a session or a demonstration, and by a session only
    // once its files are read and accepted.
    ensures input { LeavesInput (command_of tool (map string_bytes words.now)) result → input.new ≡ input.old }
    ensures out { LeavesOut (command_of tool (map string_bytes words.now)) result → out.new ≡ out.old }
    // The outcome's line is on err, or a prefix of it where err failed.
    ensures line { (subject : List ℕ) × Names (command_of tool (map string_bytes words.now)) (F.files shelf.old) result subject
        × (whole : Bool) × WritesText (E.taken err.old) (E.taken err.new) (E.faults err.old) (E.faults err.new) whole (line_of tool subject result) }
{
    match command_of(tool, words) {
        Command::Compile { spec, name } => {
            first_fault_is_one();
            let outcome = compile(alloc, spec, name, shelf);
            let _ = tell(tool, spec.as_bytes(), &outcome, err);
            outcome
        }
        Command::Interpret { spec } => {
            first_fault_is_one();
            let told = interpret_file(alloc, spec, input, out, shelf);
            let about = subject(spec.as_bytes(), &told.outcome, &told.leaves);
            let _ = tell(tool, about, &told.outcome, err);
            told.outcome
        }
        Command::Cexec { name } => {
            texts_spell_one_unit();
            let told = execute_files(alloc, name, input, out, shelf);
            let about = subject(told.file.as_bytes(), &told.outcome, &told.leaves);
            let _ = tell(tool, about, &told.outcome, err);
            told.outcome
        }
        Command::Migrate { old, new } => {
            texts_spell_one_unit();
            let told = migrate_files(alloc, old, new, shelf);
            let _ = tell(tool, told.file.as_bytes(), &told.outcome, err);
            told.outcome
        }
        Command::Demo { streams, steps } => {
            let outcome = run_demo(alloc, streams, steps, out);
            let _ = tell(tool, b"", &outcome, err);
            outcome
        }
        Command::NoCommand => {
            let outcome = Outcome::Usage;
            let _ = tell(tool, b"", &outcome, err);
            outcome
        }
        _ => {
            let outcome = nowhere(RefusalKind::NotYet);
            let _ = tell(tool, b"", &outcome, err);
            outcome
        }
    }
}

/// Two runs over the same words and content answer the same, unless one met a fault or found no memory.
pub fn outcome_is_one()
    ensures { HasOneOutcome }
{
    first_fault_is_one();
    texts_spell_one_unit();
}

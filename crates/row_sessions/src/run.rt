// A session over an input.
ghost use Rattle.std.specs.Prelude.{◌≡◌, ◌≤◌, ◌<◌, ◌∷◌, ◌++◌, ◌+◌, [], ℕ, List, length, IfOk, OnOk, IfErr};
ghost use Rattle.stream_types.specs.Types.{AreWords};
ghost use Rattle.extern_rows.specs.Leaves.{scalars_of};
ghost use Rattle.extern_rows.specs.Lines.{first_line, without_cr};
ghost use Rattle.row_sessions.specs.Session.{machine_sessions, streams, piece, RunsSession, TellsFaults};
ghost use Rattle.row_sessions.specs.Stepping.{MayStep};
ghost use Rattle.row_sessions.specs.Standing.{held_in, line_read, row_ending, FitsLeaves, StepEnds, LineTaken, LineKept, MayGoOn, MayHold, HoldsOn, HoldsEndOn, PassesOn, StandsOn, EndsOn, InputTaken, LastHolds, LastFronts, LastEnds, IsLineEnding, reach, TellsWrite, InputTells};

use crate::ending::{Ending, Stop};
use crate::gather::Gather;
use crate::lines::Lines;
use crate::stepper::Stepper;
use extern_rows::{Leaf, RowFault};
use sm_io::{Failed, Sink, Source, read_some};
use std::alloc::{AllocError, Global};

// How a line that gives no row ends the session.
fn row_ending<F>(line: u64, fault: RowFault) -> Ending<F>
    ensures { result ≡ row_ending line fault }
{
    match fault {
        RowFault::Memory => Ending::NoMemory,
        fault => Ending::BadRow { line, fault },
    }
}

// The step of this number.
fn step_row<F, M: Stepper<F>>(
    step: u64,
    row: &[u64],
    machine: &mut M,
    held: &mut Gather,
) -> Result<(), Ending<F>>
    requires stands { MayStep (M.stands machine.old) }
    requires words { AreWords (M.scalars machine.old) row.now }
    ensures answers { M.answers machine.new ≡ M.answers machine.old }
    ensures scalars { M.scalars machine.new ≡ M.scalars machine.old }
    ensures kind { IfErr result IsLineEnding }
    ensures step { (rows : List (List ℕ)) → M.stands machine.old rows → StepEnds step (M.answers machine.old (rows ++ row.now ∷ [])) (held_in held.old) (held_in held.new) result }
    ensures next { (rows : List (List ℕ)) → M.stands machine.old rows → OnOk result (M.stands machine.new (rows ++ row.now ∷ [])) }
{
    match machine.step(row, held) {
        Ok(()) => Ok(()),
        Err(Stop::Fault(fault)) => Err(Ending::Stopped { step, fault }),
        Err(Stop::Failed) => Err(Ending::NoMemory),
    }
}

// Takes the line at hand, whole or the last one: a row is a step of the machine.
fn take_line<F, M: Stepper<F>>(
    alloc: Global,
    leaves: &[Leaf],
    lines: &mut Lines,
    machine: &mut M,
    held: &mut Gather,
) -> Result<(), Ending<F>>
    requires few { length leaves.now < 4294967296 }
    requires fits { FitsLeaves leaves.now lines.old.header lines.old.row.items }
    requires scalars { M.scalars machine.old ≡ scalars_of leaves.now }
    requires stands { MayStep (M.stands machine.old) }
    requires steps { lines.old.steps < 4294967295 }
    ensures answers { M.answers machine.new ≡ M.answers machine.old }
    ensures scalars { M.scalars machine.new ≡ M.scalars machine.old }
    ensures feed { lines.new.feed ≡ lines.old.feed }
    ensures fits { FitsLeaves leaves.now lines.new.header lines.new.row.items }
    ensures kind { IfErr result IsLineEnding }
    ensures taken { (rows : List (List ℕ)) → M.stands machine.old rows → LineTaken (M.answers machine.old) rows lines.old.feed.number lines.old.steps (line_read leaves.now lines.old.header (without_cr lines.old.feed.line)) (held_in held.old) (held_in held.new) result }
    ensures kept { OnOk result (LineKept (line_read leaves.now lines.old.header (without_cr lines.old.feed.line)) lines.old lines.new (M.stands machine.old) (M.stands machine.new)) }
{
    match lines.read(alloc, leaves) {
        Ok(false) => Ok(()),
        Ok(true) => {
            step_row(lines.steps, &lines.row, machine, held)?;
            lines.steps += 1;
            Ok(())
        }
        Err(fault) => Err(row_ending(lines.feed.number(), fault)),
    }
}

// Takes the next bytes up to and with a line feed, or all, and then the line if it is whole; gives how many they were.
fn take_part<F, M: Stepper<F>>(
    alloc: Global,
    leaves: &[Leaf],
    lines: &mut Lines,
    part: &[u8],
    machine: &mut M,
    held: &mut Gather,
) -> Result<usize, Ending<F>>
    requires few { length leaves.now < 4294967296 }
    requires some { 0 < length part.now }
    requires size { length part.now ≤ piece }
    requires scalars { M.scalars machine.old ≡ scalars_of leaves.now }
    requires stands { MayHold (M.answers machine.old) leaves.now lines.old (M.stands machine.old) held.old.bytes.items }
    ensures answers { M.answers machine.new ≡ M.answers machine.old }
    ensures scalars { M.scalars machine.new ≡ M.scalars machine.old }
    ensures count { IfOk result (λ n. n ≡ length (first_line part.now)) }
    ensures fits { OnOk result (FitsLeaves leaves.now lines.new.header lines.new.row.items) }
    ensures reach { IfOk result (λ n. reach lines.old.feed + n ≤ reach lines.new.feed) }
    ensures kind { IfErr result IsLineEnding }
    ensures stands { OnOk result (HoldsOn (M.answers machine.old) leaves.now lines.old lines.new (M.stands machine.old) (M.stands machine.new) held.old.bytes.items held.new.bytes.items (first_line part.now)) }
    ensures ends { IfErr result (λ ending. HoldsEndOn (M.answers machine.old) leaves.now lines.old (M.stands machine.old) held.old.bytes.items held.new.bytes.items part.now ending) }
{
    let pushed = match lines.feed.push(part) {
        Ok(pushed) => pushed,
        Err(fault) => return Err(row_ending(lines.feed.number(), fault)),
    };
    if !pushed.whole {
        return Ok(pushed.taken);
    }
    take_line(alloc, leaves, lines, machine, held)?;
    lines.feed.next();
    Ok(pushed.taken)
}

// Takes such a part, and writes the lines that are held where they are many, or where the session ends.
fn pass_part<F: Drop, M: Stepper<F>, K: Sink>(
    alloc: Global,
    leaves: &[Leaf],
    lines: &mut Lines,
    part: &[u8],
    machine: &mut M,
    held: &mut Gather,
    out: &mut K,
) -> Result<usize, Ending<F>>
    requires few { length leaves.now < 4294967296 }
    requires some { 0 < length part.now }
    requires size { length part.now ≤ piece }
    requires scalars { M.scalars machine.old ≡ scalars_of leaves.now }
    requires stands { MayHold (M.answers machine.old) leaves.now lines.old (M.stands machine.old) held.old.bytes.items }
    ensures answers { M.answers machine.new ≡ M.answers machine.old }
    ensures scalars { M.scalars machine.new ≡ M.scalars machine.old }
    ensures count { IfOk result (λ n. n ≡ length (first_line part.now)) }
    ensures fits { OnOk result (FitsLeaves leaves.now lines.new.header lines.new.row.items) }
    ensures reach { IfOk result (λ n. reach lines.old.feed + n ≤ reach lines.new.feed) }
    ensures faults { TellsWrite (K.faults out.old) (K.faults out.new) result }
    ensures passes { PassesOn (M.answers machine.old) leaves.now lines.old lines.new (M.stands machine.old) (M.stands machine.new) held.old.bytes.items held.new.bytes.items (K.taken out.old) (K.taken out.new) part.now result }
{
    match take_part(alloc, leaves, lines, part, machine, held) {
        Ok(count) => match held.make_room(out) {
            Ok(()) => Ok(count),
            Err(Failed) => Err(Ending::WriteFault),
        },
        Err(ending) => match held.flush(out) {
            Ok(()) => Err(ending),
            Err(Failed) => Err(Ending::WriteFault),
        },
    }
}

// Takes a piece of the input, and writes the lines of its steps.
fn take_piece<F: Drop, M: Stepper<F>, K: Sink>(
    alloc: Global,
    leaves: &[Leaf],
    lines: &mut Lines,
    bytes: &[u8],
    machine: &mut M,
    held: &mut Gather,
    out: &mut K,
) -> Result<(), Ending<F>>
    requires few { length leaves.now < 4294967296 }
    requires size { length bytes.now ≤ piece }
    requires scalars { M.scalars machine.old ≡ scalars_of leaves.now }
    requires empty { held.old.bytes.items ≡ [] }
    requires stands { MayGoOn (M.answers machine.old) leaves.now lines.old (M.stands machine.old) (K.taken out.old) }
    ensures answers { M.answers machine.new ≡ M.answers machine.old }
    ensures scalars { M.scalars machine.new ≡ M.scalars machine.old }
    ensures fits { OnOk result (FitsLeaves leaves.now lines.new.header lines.new.row.items) }
    ensures reach { OnOk result (reach lines.old.feed + length bytes.now ≤ reach lines.new.feed) }
    ensures empty { OnOk result (held.new.bytes.items ≡ []) }
    ensures faults { TellsWrite (K.faults out.old) (K.faults out.new) result }
    ensures stands { OnOk result (StandsOn (M.answers machine.old) leaves.now lines.old lines.new (M.stands machine.old) (M.stands machine.new) (K.taken out.old) (K.taken out.new) bytes.now) }
    ensures ends { IfErr result (λ ending. EndsOn (M.answers machine.old) leaves.now lines.old (M.stands machine.old) (K.taken out.old) (K.taken out.new) bytes.now ending) }
{
    let mut done = 0;
    while done < bytes.len() {
        done += pass_part(alloc, leaves, lines, &bytes[done..], machine, held, out)?;
    }
    match held.flush(out) {
        Ok(()) => Ok(()),
        Err(Failed) => Err(Ending::WriteFault),
    }
}

// Takes the input to its end, but for a last line without a line feed.
fn take_input<F: Drop, M: Stepper<F>, S: Source, K: Sink>(
    alloc: Global,
    leaves: &[Leaf],
    lines: &mut Lines,
    machine: &mut M,
    input: &mut S,
    held: &mut Gather,
    out: &mut K,
) -> Result<(), Ending<F>>
    requires few { length leaves.now < 4294967296 }
    requires scalars { M.scalars machine.old ≡ scalars_of leaves.now }
    requires empty { held.old.bytes.items ≡ [] }
    requires stands { MayGoOn (M.answers machine.old) leaves.now lines.old (M.stands machine.old) (K.taken out.old) }
    ensures answers { M.answers machine.new ≡ M.answers machine.old }
    ensures scalars { M.scalars machine.new ≡ M.scalars machine.old }
    ensures fits { OnOk result (FitsLeaves leaves.now lines.new.header lines.new.row.items) }
    ensures empty { OnOk result (held.new.bytes.items ≡ []) }
    ensures faults { InputTells (S.faults input.old) (S.faults input.new) (K.faults out.old) (K.faults out.new) result }
    ensures taken { InputTaken (M.answers machine.old) leaves.now lines.old lines.new (M.stands machine.old) (M.stands machine.new) (S.left input.old) (S.left input.new) (K.taken out.old) (K.taken out.new) result }
{
    let mut buf = [0u8; 4096];
    loop {
        let count = match read_some(input, &mut buf) {
            Ok(0) => return Ok(()),
            Ok(count) => count,
            Err(Failed) => return Err(Ending::ReadFault),
        };
        take_piece(alloc, leaves, lines, &buf[..count], machine, held, out)?;
    }
}

// Takes a last line for which no line feed came.
fn finish<F, M: Stepper<F>>(
    alloc: Global,
    leaves: &[Leaf],
    lines: &mut Lines,
    machine: &mut M,
    held: &mut Gather,
) -> Result<(), Ending<F>>
    requires few { length leaves.now < 4294967296 }
    requires scalars { M.scalars machine.old ≡ scalars_of leaves.now }
    requires stands { MayHold (M.answers machine.old) leaves.now lines.old (M.stands machine.old) held.old.bytes.items }
    ensures kind { IfErr result IsLineEnding }
    ensures ends { LastHolds (M.answers machine.old) leaves.now lines.old (M.stands machine.old) held.old.bytes.items held.new.bytes.items result }
    ensures front { LastFronts (M.answers machine.old) leaves.now lines.old (M.stands machine.old) held.old.bytes.items held.new.bytes.items }
{
    if lines.feed.finish() {
        return take_line(alloc, leaves, lines, machine, held);
    }
    Ok(())
}

// Takes such a last line, and writes the lines of its step.
fn pass_last<F: Drop, M: Stepper<F>, K: Sink>(
    alloc: Global,
    leaves: &[Leaf],
    lines: &mut Lines,
    machine: &mut M,
    held: &mut Gather,
    out: &mut K,
) -> Result<(), Ending<F>>
    requires few { length leaves.now < 4294967296 }
    requires scalars { M.scalars machine.old ≡ scalars_of leaves.now }
    requires empty { held.old.bytes.items ≡ [] }
    requires stands { MayGoOn (M.answers machine.old) leaves.now lines.old (M.stands machine.old) (K.taken out.old) }
    ensures faults { TellsWrite (K.faults out.old) (K.faults out.new) result }
    ensures ends { LastEnds (M.answers machine.old) leaves.now lines.old (M.stands machine.old) (K.taken out.old) (K.taken out.new) result }
{
    let taken = finish(alloc, leaves, lines, machine, held);
    match held.flush(out) {
        Ok(()) => taken,
        Err(Failed) => Err(Ending::WriteFault),
    }
}

/// Reads rows from the input, and steps the machine over each as soon as its line is whole. The first line that isn't
/// blank is the header. The steps' lines are held and written together, before the next read at the latest. The session
/// ends with the input, at the first line that gives no row, at the first step with a fault, or where the input, the
/// output or memory fails.
pub fn run_session<F: Drop, M: Stepper<F>, S: Source, K: Sink>(
    alloc: Global,
    leaves: &[Leaf],
    machine: &mut M,
    input: &mut S,
    out: &mut K,
) -> Ending<F>
    requires few { length leaves.now < 4294967296 }
    requires stands { M.stands machine.old [] }
    requires scalars { M.scalars machine.old ≡ scalars_of leaves.now }
    ensures runs { RunsSession (machine_sessions (M.answers machine.old) leaves.now) (streams (S.left input.old) (S.faults input.old) (K.taken out.old) (K.faults out.old)) (streams (S.left input.new) (S.faults input.new) (K.taken out.new) (K.faults out.new)) result }
    ensures faults { TellsFaults (streams (S.left input.old) (S.faults input.old) (K.taken out.old) (K.faults out.old)) (streams (S.left input.new) (S.faults input.new) (K.taken out.new) (K.faults out.new)) result }
{
    let mut lines = match Lines::new(alloc, leaves) {
        Ok(lines) => lines,
        Err(AllocError) => return Ending::NoMemory,
    };
    let mut held = Gather::new(alloc);
    match take_input(alloc, leaves, &mut lines, machine, input, &mut held, out) {
        Ok(()) => {}
        Err(ending) => return ending,
    }
    match pass_last(alloc, leaves, &mut lines, machine, &mut held, out) {
        Ok(()) => Ending::Done,
        Err(ending) => ending,
    }
}

// The two files of a program, made and put.
ghost use Rattle.std.specs.Prelude.{◌≡◌, ◌≤◌, ◌∷◌, [], ℕ, List, IfOk, OnOk, OnErr, IsTrue};
ghost use Rattle.sm_io.specs.Causes.{HasCause};
ghost use Rattle.sm_io.specs.Words.{is_name};
ghost use Rattle.c99_tree.specs.Spelling.{Spells};
ghost use Rattle.c99_tree.specs.WellFormed.{IsWellFormed};
ghost use Rattle.tool_top.specs.Puts.{Put, with_puts, OnePutFailed, LeavesFiles, program_files};
ghost use Rattle.tool_top.specs.Answer.{TellsShelfFaults, IsFileAnswer};

use crate::outcome::Outcome;
use crate::unit_files::file_name;
use c99_print::{print_header, print_source, printed_texts_are_spelled};
use c99_tree::Unit;
use sm_io::{Failed, Name, Shelf, VecSink};
use std::alloc::{AllocError, Global};

/// Both texts of a unit, in memory.
#[derive(Drop)]
pub(crate) struct Texts {
    pub(crate) header: VecSink,
    pub(crate) source: VecSink,
}

/// The texts of a program.
pub(crate) fn make_texts(alloc: Global, unit: &Unit) -> Result<Texts, AllocError>
    requires { IsWellFormed unit.now }
    ensures { IfOk result (λ t. Spells unit.now t.header.taken t.source.taken) }
{
    printed_texts_are_spelled();
    let mut header = VecSink::new(alloc);
    if print_header(unit, &mut header).is_err() {
        return Err(AllocError);
    }
    let mut source = VecSink::new(alloc);
    if print_source(unit, &mut source).is_err() {
        return Err(AllocError);
    }
    Ok(Texts { header, source })
}

/// The name of a unit.
pub(crate) fn unit_name(alloc: Global, name: &str) -> Result<Name, AllocError>
    requires { IsTrue (is_name name.now) }
    ensures { IfOk result (λ unit. unit ≡ name.now) }
{
    Ok(Name::new(name.as_bytes().to_vec(alloc)?))
}

// Puts the header and then the source.
fn put_both<F: Shelf>(
    header: &str,
    source: &str,
    texts: &Texts,
    shelf: &mut F,
) -> Result<(), Failed>
    ensures done { OnOk result (F.files shelf.new ≡ with_puts (F.files shelf.old)
        (record { name = header.now; text = texts.now.header.taken } ∷ record { name = source.now; text = texts.now.source.taken } ∷ [])) }
    ensures failed { OnErr result (OnePutFailed
        (record { name = header.now; text = texts.now.header.taken } ∷ record { name = source.now; text = texts.now.source.taken } ∷ [])
        (F.files shelf.old) (F.files shelf.new)) }
    ensures cause { HasCause (F.faults shelf.old) (F.faults shelf.new) result }
{
    shelf.put(header, texts.header.taken())?;
    shelf.put(source, texts.source.taken())
}

/// Puts both texts under the names of a program's files.
pub(crate) fn put_program<F: Shelf>(
    alloc: Global,
    name: &str,
    texts: &Texts,
    shelf: &mut F,
) -> Outcome
    ensures files { LeavesFiles (program_files name.now texts.now.header.taken texts.now.source.taken) (F.files shelf.old) (F.files shelf.new) result }
    ensures possible { IsFileAnswer result }
    ensures faults { TellsShelfFaults (F.faults shelf.old) (F.faults shelf.new) result }
    ensures later { F.faults shelf.old ≤ F.faults shelf.new }
{
    let Ok(header) = file_name(alloc, name, ".h") else {
        return Outcome::NoMemory;
    };
    let Ok(source) = file_name(alloc, name, ".c") else {
        return Outcome::NoMemory;
    };
    match put_both(header.as_str(), source.as_str(), texts, shelf) {
        Ok(()) => Outcome::Done,
        Err(Failed) => Outcome::WriteFault,
    }
}

// Reading the two files of a program.
ghost use Rattle.std.specs.Prelude.{◌≡◌, ◌≤◌, ◌⊎◌, ◌++◌, ◌∷◌, [], ℕ, List, IfErr, IfOk, OnOk, IfSome, Ok, string_bytes};
ghost use Rattle.sm_io.specs.Fetch.{fetched};
ghost use Rattle.c99_tree.specs.WellFormed.{IsWellFormed};
ghost use Rattle.tool_top.specs.Command.{cexec, header_file, source_file};
ghost use Rattle.tool_top.specs.Wanted.{unit_files, unit_limit, contents};
ghost use Rattle.tool_top.specs.Answer.{FetchStops, StopsAt, TellsShelfFaults, IsStop, NamesStop};
ghost use Rattle.tool_top.specs.Programs.{IsUnitIn, ReadsTo, stop_of_reading};

use crate::analysis::nowhere;
use crate::fetch::fetch_file;
use crate::outcome::{Outcome, RefusalKind};
use c99_read::{ReadUnitFault, read_unit};
use c99_tree::Unit;
use sm_io::Shelf;
use std::alloc::{AllocError, Global};

// The most bytes of a file of C.
const UNIT_LIMIT: usize = 268_435_456;

/// How the reading of a program's files stops a run, and the file at which it did.
#[derive(Drop)]
pub(crate) struct UnitStop {
    pub(crate) outcome: Outcome,
    pub(crate) file: String,
}

// The texts of a header and of a source.
#[derive(Drop)]
struct UnitTexts {
    header: Vec<u8>,
    source: Vec<u8>,
}

/// The name of a file.
pub(crate) fn file_name(alloc: Global, name: &str, end: &str) -> Result<String, AllocError>
    ensures { IfOk result (λ s. string_bytes s ≡ name.now ++ end.now) }
{
    let mut file = String::from_str(alloc, name)?;
    file.push_str(end)?;
    Ok(file)
}

// Fetches the file of this name with this ending.
fn fetch_part<F: Shelf>(
    alloc: Global,
    name: &str,
    end: &str,
    shelf: &mut F,
) -> Result<Vec<u8>, UnitStop>
    ensures same { F.files shelf.new ≡ F.files shelf.old }
    ensures later { F.faults shelf.old ≤ F.faults shelf.new }
    ensures ok { IfOk result (λ bytes. IfSome (F.files shelf.old) (λ m. fetched m (name.now ++ end.now) unit_limit ≡ Ok bytes.items)) }
    ensures err { IfErr result (λ stop. IfSome (F.files shelf.old) (λ m. FetchStops (fetched m (name.now ++ end.now) unit_limit) stop.outcome)) }
    ensures file { IfErr result (λ stop. (stop.outcome ≡ Outcome.NoMemory) ⊎ (string_bytes stop.file ≡ name.now ++ end.now)) }
    ensures stops { IfErr result (λ stop. IsStop stop.outcome) }
    ensures steady { OnOk result (F.faults shelf.new ≡ F.faults shelf.old) }
    ensures faults { IfErr result (λ stop. TellsShelfFaults (F.faults shelf.old) (F.faults shelf.new) stop.outcome) }
{
    let Ok(file) = file_name(alloc, name, end) else {
        return Err(UnitStop {
            outcome: Outcome::NoMemory,
            file: String::new(alloc),
        });
    };
    match fetch_file(alloc, file.as_str(), UNIT_LIMIT, shelf) {
        Ok(bytes) => Ok(bytes),
        Err(outcome) => Err(UnitStop { outcome, file }),
    }
}

// Fetches the header and then the source.
fn fetch_texts<F: Shelf>(alloc: Global, name: &str, shelf: &mut F) -> Result<UnitTexts, UnitStop>
    ensures same { F.files shelf.new ≡ F.files shelf.old }
    ensures later { F.faults shelf.old ≤ F.faults shelf.new }
    ensures ok { IfOk result (λ t. IfSome (F.files shelf.old) (λ m. contents m (unit_files name.now) ≡ Ok (t.header.items ∷ t.source.items ∷ []))) }
    ensures err { IfErr result (λ stop. IfSome (F.files shelf.old) (λ m. StopsAt (cexec name.now) (contents m (unit_files name.now)) stop.outcome)) }
    ensures file { IfErr result (λ stop. NamesStop (unit_files name.now) (F.files shelf.old) stop.outcome (string_bytes stop.file)) }
    ensures stops { IfErr result (λ stop. IsStop stop.outcome) }
    ensures steady { OnOk result (F.faults shelf.new ≡ F.faults shelf.old) }
    ensures faults { IfErr result (λ stop. TellsShelfFaults (F.faults shelf.old) (F.faults shelf.new) stop.outcome) }
{
    let header = match fetch_part(alloc, name, ".h", shelf) {
        Ok(header) => header,
        Err(stop) => return Err(stop),
    };
    match fetch_part(alloc, name, ".c", shelf) {
        Ok(source) => Ok(UnitTexts { header, source }),
        Err(stop) => Err(stop),
    }
}

// How the fault of a reading stops a run.
fn stop_of_reading(fault: &ReadUnitFault) -> Outcome
    ensures { result ≡ stop_of_reading fault.now }
{
    match fault {
        ReadUnitFault::NotHeader => nowhere(RefusalKind::NotHeader),
        ReadUnitFault::NotSource => nowhere(RefusalKind::NotSource),
        ReadUnitFault::NotWellFormed => nowhere(RefusalKind::NotWellFormed),
        ReadUnitFault::Memory => Outcome::NoMemory,
    }
}

// The program that two texts spell, or how the run stops.
fn read_program(alloc: Global, header: &[u8], source: &[u8]) -> Result<Unit, Outcome>
    ensures { ReadsTo header.now source.now result }
{
    match read_unit(alloc, header, source) {
        Ok(unit) => Ok(unit),
        Err(fault) => Err(stop_of_reading(&fault)),
    }
}

/// The program that the two files of this name spell, or how the run stops.
pub(crate) fn fetch_unit<F: Shelf>(
    alloc: Global,
    name: &str,
    shelf: &mut F,
) -> Result<Unit, UnitStop>
    ensures same { F.files shelf.new ≡ F.files shelf.old }
    ensures later { F.faults shelf.old ≤ F.faults shelf.new }
    ensures ok { IfOk result (λ u. IfSome (F.files shelf.old) (λ m. IsUnitIn name.now m u)) }
    ensures formed { IfOk result IsWellFormed }
    ensures err { IfErr result (λ stop. IfSome (F.files shelf.old) (λ m. StopsAt (cexec name.now) (contents m (unit_files name.now)) stop.outcome)) }
    ensures file { IfErr result (λ stop. NamesStop (unit_files name.now) (F.files shelf.old) stop.outcome (string_bytes stop.file)) }
    ensures stops { IfErr result (λ stop. IsStop stop.outcome) }
    ensures steady { OnOk result (F.faults shelf.new ≡ F.faults shelf.old) }
    ensures faults { IfErr result (λ stop. TellsShelfFaults (F.faults shelf.old) (F.faults shelf.new) stop.outcome) }
{
    let texts = match fetch_texts(alloc, name, shelf) {
        Ok(texts) => texts,
        Err(stop) => return Err(stop),
    };
    match read_program(alloc, &texts.header, &texts.source) {
        Ok(unit) => Ok(unit),
        Err(outcome) => Err(UnitStop {
            outcome,
            file: String::new(alloc),
        }),
    }
}

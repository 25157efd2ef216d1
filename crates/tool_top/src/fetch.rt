// Fetching files.
ghost use Rattle.std.specs.Prelude.{◌≡◌, ◌≤◌, ◌∷◌, [], ℕ, List, IfErr, IfOk, OnOk, IfSome, Ok};
ghost use Rattle.sm_io.specs.Fetch.{fetched};
ghost use Rattle.tool_top.specs.Command.{compile};
ghost use Rattle.tool_top.specs.Wanted.{text_file, contents};
ghost use Rattle.tool_top.specs.Answer.{FetchStops, StopsAt, TellsShelfFaults, IsFileAnswer, IsStop};

use crate::analysis::nowhere;
use crate::outcome::{Outcome, RefusalKind};
use sm_io::{FetchFault, Shelf};
use std::alloc::Global;

// The most bytes of a specification.
const TEXT_LIMIT: usize = 1_048_576;

/// Fetches a file of at most so many bytes, or tells how the run stops.
pub(crate) fn fetch_file<F: Shelf>(
    alloc: Global,
    name: &str,
    limit: usize,
    shelf: &mut F,
) -> Result<Vec<u8>, Outcome>
    ensures same { F.files shelf.new ≡ F.files shelf.old }
    ensures later { F.faults shelf.old ≤ F.faults shelf.new }
    ensures ok { IfOk result (λ bytes. IfSome (F.files shelf.old) (λ m. fetched m name.now limit ≡ Ok bytes.items)) }
    ensures err { IfErr result (λ stop. IfSome (F.files shelf.old) (λ m. FetchStops (fetched m name.now limit) stop)) }
    ensures stops { IfErr result IsStop }
    ensures steady { OnOk result (F.faults shelf.new ≡ F.faults shelf.old) }
    ensures faults { IfErr result (TellsShelfFaults (F.faults shelf.old) (F.faults shelf.new)) }
{
    match shelf.fetch(alloc, name, limit) {
        Ok(bytes) => Ok(bytes),
        Err(FetchFault::Missing) => Err(Outcome::Missing),
        Err(FetchFault::TooLong) => Err(nowhere(RefusalKind::TextTooLong)),
        Err(FetchFault::Failed) => Err(Outcome::ReadFault),
        Err(FetchFault::Memory) => Err(Outcome::NoMemory),
    }
}

/// Fetches the text of a specification, or tells how the run stops.
pub(crate) fn fetch_text<F: Shelf>(
    alloc: Global,
    spec: &str,
    shelf: &mut F,
) -> Result<Vec<u8>, Outcome>
    ensures same { F.files shelf.new ≡ F.files shelf.old }
    ensures later { F.faults shelf.old ≤ F.faults shelf.new }
    ensures ok { IfOk result (λ text. IfSome (F.files shelf.old) (λ m. contents m (text_file spec.now) ≡ Ok (text.items ∷ []))) }
    ensures err { IfErr result (λ stop. IfSome (F.files shelf.old) (λ m. (name : List ℕ) → StopsAt (compile spec.now name) (contents m (text_file spec.now)) stop)) }
    ensures stops { IfErr result IsStop }
    ensures steady { OnOk result (F.faults shelf.new ≡ F.faults shelf.old) }
    ensures faults { IfErr result (TellsShelfFaults (F.faults shelf.old) (F.faults shelf.new)) }
{
    fetch_file(alloc, spec, TEXT_LIMIT, shelf)
}

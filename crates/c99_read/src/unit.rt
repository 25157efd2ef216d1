// A whole program.
ghost use Rattle.std.specs.Prelude.{◌≡◌, Some, map, codes};
ghost use Rattle.c99_read.specs.Gives.{Gives};
ghost use Rattle.c99_read.specs.Reads.{Reads, ReadsSpelled};
ghost use Rattle.c99_read.specs.UnitAt as spec;

use crate::fault::{ReadFault, ReadUnitFault};
use crate::front::behind;
use crate::heading::{Header, header_of};
use crate::known::known_at;
use crate::rings::rings_at;
use crate::statements::statements_at;
use c99_ast::well_formed;
use c99_tree::{CRing, CStmt, Unit};
use sm_io::Seq;
use std::alloc::Global;

// The statements and the end of a source with these rings.
fn step_at(
    alloc: Global,
    rings: Seq<CRing>,
    bytes: &[u8],
) -> Result<(Seq<CRing>, Seq<CStmt>), ReadFault>
    ensures { Gives (λ p. spec.kept (p.0, p.1)) result (spec.step_at rings bytes.now) }
{
    let (step, rest) = statements_at(alloc, rings.as_slice(), bytes)?;
    let rest = behind(b"}\n", rest)?;
    if !rest.is_empty() {
        return Err(ReadFault::NotRead);
    }
    Ok((rings, step))
}

// What a source says beside its header.
#[tactic(auto, unfolding(crate::specs::UnitAt::source_of))]
fn source_of(
    alloc: Global,
    header: &Header,
    bytes: &[u8],
) -> Result<(Seq<CRing>, Seq<CStmt>), ReadFault>
    ensures { Gives (λ p. spec.kept (p.0, p.1)) result (spec.source_of header.now bytes.now) }
{
    let rest = known_at(header, bytes)?;
    let (rings, rest) = rings_at(alloc, header.types.as_slice(), rest)?;
    let rest = behind(b"void step(void)\n{\n", rest)?;
    step_at(alloc, rings, rest)
}

// The program of a header and what its source says.
fn unit_of(header: Header, rings: Seq<CRing>, step: Seq<CStmt>) -> Unit
    ensures header { spec.said result ≡ header }
    ensures source { spec.said_by_source result ≡ spec.kept (rings, step) }
{
    Unit {
        name: header.name,
        types: header.types,
        storage: header.storage,
        need: header.need,
        externs: header.externs,
        handlers: header.handlers,
        rings,
        step,
    }
}

// The program that two texts spell.
fn spelled_unit(alloc: Global, header: &[u8], source: &[u8]) -> Result<Unit, ReadUnitFault>
    ensures { ReadsSpelled header.now source.now result }
{
    match header_of(alloc, header) {
        Err(ReadFault::Memory) => Err(ReadUnitFault::Memory),
        Err(ReadFault::NotRead) => Err(ReadUnitFault::NotHeader),
        Ok(head) => match source_of(alloc, &head, source) {
            Err(ReadFault::Memory) => Err(ReadUnitFault::Memory),
            Err(ReadFault::NotRead) => Err(ReadUnitFault::NotSource),
            Ok((rings, step)) => Ok(unit_of(head, rings, step)),
        },
    }
}

/// The program that a header and a source spell, where it is well formed. It fails where no program has this header, where
/// none of those that have it has this source, and where the one that has both is not well formed.
pub fn read_unit(alloc: Global, header: &[u8], source: &[u8]) -> Result<Unit, ReadUnitFault>
    ensures { Reads header.now source.now result }
{
    let unit = spelled_unit(alloc, header, source)?;
    if !well_formed(&unit) {
        return Err(ReadUnitFault::NotWellFormed);
    }
    Ok(unit)
}

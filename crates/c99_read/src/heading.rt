// A whole header.
ghost use Rattle.std.specs.Prelude.{◌≡◌, ◌++◌, Some, MatchOption, codes};
ghost use Rattle.c99_read.specs.Front.{behind};
ghost use Rattle.c99_read.specs.Gives.{Gives};
ghost use Rattle.c99_read.specs.Headers.{ReadsHeader};
ghost use Rattle.c99_read.specs.UnitAt as spec;

use crate::fault::{ReadFault, ReadHeaderFault};
use crate::front;
use crate::front::{name_of, number_at, split_word};
use crate::lines::{defs_at, externs_at, handlers_at};
use c99_tree::{CDef, CProto, CVar};
use sm_io::{Name, Seq, is_name};
use std::alloc::Global;

/// What a header says of its program.
#[derive(Drop)]
pub struct Header {
    pub name: Name,
    /// `cp_storage`.
    pub storage: u32,
    /// `cp_need`.
    pub need: u32,
    /// The types that it defines, in its order.
    pub types: Seq<CDef>,
    pub externs: Seq<CVar>,
    pub handlers: Seq<CProto>,
}

// What stands before a last `_H`.
fn before_end(word: &[u8]) -> Option<&[u8]>
    ensures { MatchOption result (spec.before_end word.now ≡ None) (λ x. spec.before_end word.now ≡ Some x.now) }
{
    word.strip_suffix(b"_H")
}

#[tactic(auto, unfolding(crate::specs::UnitAt::guard_name_at), using(crate::proofs::Bytes::name_bytes))]
fn guard_name_at(alloc: Global, bytes: &[u8]) -> Result<(Name, &[u8]), ReadFault>
    ensures { Gives (λ p. (p.0, p.1.now)) result (spec.guard_name_at bytes.now) }
{
    let (word, rest) = split_word(bytes);
    let Some(name) = before_end(word) else {
        return Err(ReadFault::NotRead);
    };
    if !is_name(name) {
        return Err(ReadFault::NotRead);
    }
    Ok((name_of(alloc, name)?, rest))
}

// The rest of the lines before the totals.
fn behind_guard<'a>(name: &Name, bytes: &'a [u8]) -> Result<&'a [u8], ReadFault>
    ensures { Gives (λ r. r.now) result (behind (codes "\n#define CP_" ++ name.now ++ codes "_H\n#include <stdint.h>\n#include <stdbool.h>\n") bytes.now) }
{
    front::behind_three(
        b"\n#define CP_",
        name.bytes(),
        b"_H\n#include <stdint.h>\n#include <stdbool.h>\n",
        bytes,
    )
}

// The lines before the totals, with the program's name.
#[tactic(auto, unfolding(crate::specs::UnitAt::top_at))]
fn top_at(alloc: Global, bytes: &[u8]) -> Result<(Name, &[u8]), ReadFault>
    ensures { Gives (λ p. (p.0, p.1.now)) result (spec.top_at bytes.now) }
{
    let rest = front::behind(b"#ifndef CP_", bytes)?;
    let (name, rest) = guard_name_at(alloc, rest)?;
    let rest = behind_guard(&name, rest)?;
    Ok((name, rest))
}

// `cp_storage` and `cp_need`.
#[tactic(auto, unfolding(crate::specs::UnitAt::totals_at))]
fn totals_at(bytes: &[u8]) -> Result<((u32, u32), &[u8]), ReadFault>
    ensures { Gives (λ p. (p.0, p.1.now)) result (spec.totals_at bytes.now) }
{
    let rest = front::behind(b"enum { cp_storage = ", bytes)?;
    let (storage, rest) = number_at(rest)?;
    let rest = front::behind(b", cp_need = ", rest)?;
    let (need, rest) = number_at(rest)?;
    let rest = front::behind(b" };\n", rest)?;
    Ok(((storage, need), rest))
}

// The end of a header with these parts.
fn ended(header: Header, bytes: &[u8]) -> Result<Header, ReadFault>
    ensures { Gives (λ h. h) result (spec.ended header bytes.now) }
{
    let rest = front::behind(b"void step(void);\n#endif\n", bytes)?;
    if !rest.is_empty() {
        return Err(ReadFault::NotRead);
    }
    Ok(header)
}

// What stands behind the totals.
fn declared_at(
    alloc: Global,
    name: Name,
    totals: (u32, u32),
    bytes: &[u8],
) -> Result<Header, ReadFault>
    ensures { Gives (λ h. h) result (spec.declared_at name totals bytes.now) }
{
    let (types, rest) = defs_at(alloc, bytes)?;
    let (externs, rest) = externs_at(alloc, rest)?;
    let (handlers, rest) = handlers_at(alloc, rest)?;
    let header = Header {
        name,
        storage: totals.0,
        need: totals.1,
        types,
        externs,
        handlers,
    };
    ended(header, rest)
}

#[tactic(auto, unfolding(crate::specs::UnitAt::header_of))]
pub fn header_of(alloc: Global, bytes: &[u8]) -> Result<Header, ReadFault>
    ensures { Gives (λ h. h) result (spec.header_of bytes.now) }
{
    let (name, rest) = top_at(alloc, bytes)?;
    let (totals, rest) = totals_at(rest)?;
    declared_at(alloc, name, totals, rest)
}

/// The parts of the programs that have this header: each of them has these. It fails where no program has it.
pub fn read_header(alloc: Global, header: &[u8]) -> Result<Header, ReadHeaderFault>
    ensures { ReadsHeader header.now result }
{
    match header_of(alloc, header) {
        Ok(parts) => Ok(parts),
        Err(ReadFault::NotRead) => Err(ReadHeaderFault::NotHeader),
        Err(ReadFault::Memory) => Err(ReadHeaderFault::Memory),
    }
}

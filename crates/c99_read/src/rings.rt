// The rings.
ghost use Rattle.std.specs.Prelude.{◌≡◌, ◌++◌, None, Some, codes};
ghost use Rattle.c99_read.specs.Front as parts;
ghost use Rattle.c99_read.specs.Front.{all_at, begins};
ghost use Rattle.c99_read.specs.Gives.{Gives};
ghost use Rattle.c99_read.specs.LineAt as spec;

use crate::fault::ReadFault;
use crate::front;
use crate::front::{behind, number_at, ring_name_at, strip};
use crate::kinds::type_at;
use crate::values::init_at;
use c99_tree::{CDef, CRing, CTy};
use sm_io::{Name, Seq};
use std::alloc::Global;

fn single_at<'a>(
    alloc: Global,
    types: &[CDef],
    ty: CTy,
    name: Name,
    bytes: &'a [u8],
) -> Result<(CRing, &'a [u8]), ReadFault>
    ensures { Gives (λ p. (p.0, p.1.now)) result (spec.single_at types.now ty name bytes.now) }
{
    let rest = behind(b" = ", bytes)?;
    let (init, rest) = init_at(alloc, types, &ty, 1, rest)?;
    let rest = behind(b";\n", rest)?;
    let ring = CRing {
        name,
        ty,
        len: 1,
        indexed: false,
        init,
    };
    Ok((ring, rest))
}

// The end of a ring's line, and the line of its index.
fn behind_index<'a>(name: &Name, bytes: &'a [u8]) -> Result<&'a [u8], ReadFault>
    ensures { Gives (λ r. r.now) result (parts.behind (codes " };\nstatic uint32_t cp_i_" ++ name.now ++ codes " = 0U;\n") bytes.now) }
{
    front::behind_three(
        b" };\nstatic uint32_t cp_i_",
        name.bytes(),
        b" = 0U;\n",
        bytes,
    )
}

// The constants of a ring with an index, and what stands behind them.
fn filled_at<'a>(
    alloc: Global,
    types: &[CDef],
    ty: CTy,
    name: Name,
    len: u32,
    bytes: &'a [u8],
) -> Result<(CRing, &'a [u8]), ReadFault>
    ensures { Gives (λ p. (p.0, p.1.now)) result (spec.filled_at types.now ty name len bytes.now) }
{
    let (init, rest) = init_at(alloc, types, &ty, len, bytes)?;
    let rest = behind_index(&name, rest)?;
    let ring = CRing {
        name,
        ty,
        len,
        indexed: true,
        init,
    };
    Ok((ring, rest))
}

fn indexed_at<'a>(
    alloc: Global,
    types: &[CDef],
    ty: CTy,
    name: Name,
    bytes: &'a [u8],
) -> Result<(CRing, &'a [u8]), ReadFault>
    ensures { Gives (λ p. (p.0, p.1.now)) result (spec.indexed_at types.now ty name bytes.now) }
{
    let (len, rest) = number_at(bytes)?;
    let rest = behind(b"] = { ", rest)?;
    filled_at(alloc, types, ty, name, len, rest)
}

// A ring's lines, behind its name.
fn named_at<'a>(
    alloc: Global,
    types: &[CDef],
    ty: CTy,
    name: Name,
    bytes: &'a [u8],
) -> Result<(CRing, &'a [u8]), ReadFault>
    ensures { Gives (λ p. (p.0, p.1.now)) result (spec.ring_by types.now ty name bytes.now (parts.behind (codes "[") bytes.now)) }
{
    match strip(b"[", bytes) {
        Some(len) => indexed_at(alloc, types, ty, name, len),
        None => single_at(alloc, types, ty, name, bytes),
    }
}

#[tactic(auto, unfolding(crate::specs::LineAt::ring_lines_at))]
fn ring_at<'a>(
    alloc: Global,
    types: &[CDef],
    bytes: &'a [u8],
) -> Result<(CRing, &'a [u8]), ReadFault>
    ensures { Gives (λ p. (p.0, p.1.now)) result (spec.ring_lines_at types.now bytes.now) }
{
    let rest = behind(b"static ", bytes)?;
    let (ty, rest) = type_at(alloc, rest)?;
    let rest = behind(b" cp_b_", rest)?;
    let (name, rest) = ring_name_at(alloc, rest)?;
    named_at(alloc, types, ty, name, rest)
}

pub fn rings_at<'a>(
    alloc: Global,
    types: &[CDef],
    bytes: &'a [u8],
) -> Result<(Seq<CRing>, &'a [u8]), ReadFault>
    ensures { Gives (λ p. (p.0, p.1.now)) result (all_at (begins (codes "static ")) (spec.ring_lines_at types.now) bytes.now) }
{
    let mut all = Seq::new(alloc);
    let mut rest = bytes;
    for i in 0..bytes.len() {
        if !front::begins(b"static ", rest) {
            return Ok((all, rest));
        }
        let (x, after) = ring_at(alloc, types, rest)?;
        all.push(x)?;
        rest = after;
    }
    Err(ReadFault::NotRead)
}

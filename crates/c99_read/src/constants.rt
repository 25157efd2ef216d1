// Constants, as the words of their values.
ghost use Rattle.std.specs.Prelude.{◌≡◌, ◌∷◌, [], Some, List, ℕ, IsTrue};
ghost use Rattle.c99_read.specs.Front.{word, after_word};
ghost use Rattle.c99_read.specs.Gives.{Gives};
ghost use Rattle.c99_read.specs.WordsAt as spec;

use crate::fault::ReadFault;
use crate::front::{behind_three, is_same, number_of, split_number, split_word, strip};
use c99_tree::CScalar;

// A number of at most this, with the suffix of its type.
#[tactic(auto, unfolding(crate::specs::WordsAt::tailed_at))]
fn tailed_at<'a>(tail: &[u8], most: u64, bytes: &'a [u8]) -> Result<(u64, &'a [u8]), ReadFault>
    ensures { Gives (λ p. (p.0, p.1.now)) result (spec.tailed_at tail.now most bytes.now) }
{
    let (word, rest) = split_word(bytes);
    let (digits, after) = split_number(word);
    if !is_same(after, tail) {
        return Err(ReadFault::NotRead);
    }
    let n = number_of(most, digits)?;
    Ok((n, rest))
}

fn unsigned_at<'a>(tail: &[u8], most: u64, bytes: &'a [u8]) -> Result<(u64, &'a [u8]), ReadFault>
    ensures { Gives (λ p. (p.0 ∷ [], p.1.now)) result (spec.unsigned_at tail.now most bytes.now) }
{
    let (n, rest) = tailed_at(tail, most, bytes)?;
    Ok((n, rest))
}

// Behind `((-`.
fn negative_at<'a>(tail: &[u8], most: u64, bytes: &'a [u8]) -> Result<(u64, &'a [u8]), ReadFault>
    ensures { Gives (λ p. (p.0 ∷ [], p.1.now)) result (spec.negative_at tail.now most bytes.now) }
{
    let (n, rest) = tailed_at(tail, most, bytes)?;
    let rest = behind_three(b") - 1", tail, b")", rest)?;
    Ok((u64::MAX - n, rest))
}

fn signed_at<'a>(
    depth: u32,
    tail: &[u8],
    most: u64,
    bytes: &'a [u8],
) -> Result<(u64, &'a [u8]), ReadFault>
    ensures { Gives (λ p. (p.0 ∷ [], p.1.now)) result (spec.signed_at depth tail.now most bytes.now) }
{
    let Some(less) = strip(b"((-", bytes) else {
        return unsigned_at(tail, most, bytes);
    };
    if depth < 2 {
        return Err(ReadFault::NotRead);
    }
    negative_at(tail, most, less)
}

fn bool_at(bytes: &[u8]) -> Result<(u64, &[u8]), ReadFault>
    ensures { Gives (λ p. (p.0 ∷ [], p.1.now)) result (spec.bool_of (word bytes.now) (after_word bytes.now)) }
{
    let (word, rest) = split_word(bytes);
    if is_same(word, b"false") {
        return Ok((0, rest));
    }
    if is_same(word, b"true") {
        return Ok((1, rest));
    }
    Err(ReadFault::NotRead)
}

// The word of a scalar's constant of at most this height.
#[tactic(auto, unfolding(crate::specs::WordsAt::word_at))]
pub fn scalar_at(depth: u32, t: CScalar, bytes: &[u8]) -> Result<(u64, &[u8]), ReadFault>
    ensures { Gives (λ p. (p.0 ∷ [], p.1.now)) result (spec.word_at depth t bytes.now) }
{
    match t {
        CScalar::Bool => bool_at(bytes),
        CScalar::I8 => signed_at(depth, b"", 0x7F, bytes),
        CScalar::I16 => signed_at(depth, b"", 0x7FFF, bytes),
        CScalar::I32 => signed_at(depth, b"", 0x7FFF_FFFF, bytes),
        CScalar::I64 => signed_at(depth, b"LL", 0x7FFF_FFFF_FFFF_FFFF, bytes),
        CScalar::U8 => unsigned_at(b"U", 0xFF, bytes),
        CScalar::U16 => unsigned_at(b"U", 0xFFFF, bytes),
        CScalar::U32 => unsigned_at(b"U", 0xFFFF_FFFF, bytes),
        CScalar::U64 => unsigned_at(b"ULL", u64::MAX, bytes),
    }
}

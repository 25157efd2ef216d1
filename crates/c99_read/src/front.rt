// What stands at the front of a text: fixed bytes, words, numbers and names.
ghost use Rattle.std.specs.Prelude.{◌≡◌, ◌++◌, ◌^◌, ◌<◌, List, ℕ, [], ◌∷◌, Some, None, MatchOption, IsTrue, IfOk, ◌≤◌, length, min};
ghost use Rattle.std.specs.List.{list_all};
ghost use Rattle.std.specs.Str.Parse.{digits_value};
ghost use Rattle.sm_io.specs.Names as names;
ghost use Rattle.sm_io.specs.Names.{IsNameBytes};
ghost use Rattle.c99_tree.specs.Words as words;
ghost use Rattle.c99_read.specs.Gives.{Gives};
ghost use Rattle.c99_read.specs.Front as spec;

use crate::fault::ReadFault;
use crate::words::{is_element, is_ring_name};
use sm_io::{Name, is_name};
use std::alloc::Global;

pub fn is_digit(b: u8) -> bool
    ensures { result ≡ words.is_digit b }
{
    b >= 48 && b <= 57
}

fn is_name_byte(b: u8) -> bool
    ensures { result ≡ names.is_name_byte b }
{
    is_digit(b) || (b >= 65 && b <= 90) || (b >= 97 && b <= 122) || b == 95
}

// The letters, digits and `_` at the front, and the rest.
#[tactic(auto, unfolding(crate::specs::Front::word, crate::specs::Front::after_word))]
pub fn split_word(bytes: &[u8]) -> (&[u8], &[u8])
    ensures word { result.0.now ≡ spec.word bytes.now }
    ensures rest { result.1.now ≡ spec.after_word bytes.now }
{
    let mut n = 0;
    while n < bytes.len() && is_name_byte(bytes[n]) {
        n += 1;
    }
    bytes.split_at(n)
}

// Whether two runs of bytes are the same.
pub fn is_same(a: &[u8], b: &[u8]) -> bool
    ensures { result ≡ words.is_same a.now b.now }
{
    a == b
}

pub fn strip<'a>(fixed: &[u8], bytes: &'a [u8]) -> Option<&'a [u8]>
    ensures { MatchOption result (spec.behind fixed.now bytes.now ≡ None) (λ r. spec.behind fixed.now bytes.now ≡ Some r.now) }
{
    bytes.strip_prefix(fixed)
}

pub fn begins(fixed: &[u8], bytes: &[u8]) -> bool
    ensures { result ≡ spec.begins fixed.now bytes.now }
{
    match strip(fixed, bytes) {
        Some(_) => true,
        None => false,
    }
}

pub fn behind<'a>(fixed: &[u8], bytes: &'a [u8]) -> Result<&'a [u8], ReadFault>
    ensures { Gives (λ r. r.now) result (spec.behind fixed.now bytes.now) }
{
    match strip(fixed, bytes) {
        Some(rest) => Ok(rest),
        None => Err(ReadFault::NotRead),
    }
}

// ---- numbers

fn is_number(digits: &[u8]) -> bool
    ensures { result ≡ spec.is_number digits.now }
{
    match digits {
        [] => false,
        [_] => true,
        [first, _, ..] => *first != 48,
    }
}

fn are_digits(digits: &[u8]) -> bool
    ensures { result ≡ list_all words.is_digit digits.now }
{
    digits.iter().all(|b| is_digit(*b))
}

// The number that digits write, or 2^64 where it is more.
fn value_of(digits: &[u8]) -> u128
    requires { IsTrue (list_all words.is_digit digits.now) }
    ensures { result ≡ min (digits_value 10 digits.now) 18446744073709551616 }
{
    let mut size: u128 = 0;
    for digit in digits {
        size = (size * 10 + u128::from(*digit - 48)).min(1 << 64);
    }
    size
}

// The number that these bytes write, where it is at most this.
#[tactic(auto, unfolding(crate::specs::Front::number_of))]
pub fn number_of(most: u64, digits: &[u8]) -> Result<u64, ReadFault>
    ensures number { Gives (λ n. n) result (spec.number_of most digits.now) }
    ensures low { IfOk result (λ n. n ≤ most) }
{
    if !are_digits(digits) {
        return Err(ReadFault::NotRead);
    }
    if !is_number(digits) {
        return Err(ReadFault::NotRead);
    }
    let size = value_of(digits);
    if size > u128::from(most) {
        return Err(ReadFault::NotRead);
    }
    Ok(size as u64)
}

// A number of 32 bits.
#[tactic(auto, unfolding(crate::specs::Front::number_at))]
pub fn number_at(bytes: &[u8]) -> Result<(u32, &[u8]), ReadFault>
    ensures { Gives (λ p. (p.0, p.1.now)) result (spec.number_at bytes.now) }
{
    let (word, rest) = split_word(bytes);
    let n = number_of(0xFFFF_FFFF, word)?;
    Ok((n as u32, rest))
}

// ---- names

// A name of these bytes.
pub fn name_of(alloc: Global, bytes: &[u8]) -> Result<Name, ReadFault>
    requires { IsNameBytes bytes.now }
    ensures { Gives (λ x. x) result (Some bytes.now) }
{
    Ok(Name::new(Vec::from_slice(alloc, bytes)?))
}

#[tactic(auto, unfolding(crate::specs::Front::name_at), using(crate::proofs::Bytes::name_bytes))]
pub fn name_at(alloc: Global, bytes: &[u8]) -> Result<(Name, &[u8]), ReadFault>
    ensures { Gives (λ p. (p.0, p.1.now)) result (spec.name_at bytes.now) }
{
    let (word, rest) = split_word(bytes);
    if !is_name(word) {
        return Err(ReadFault::NotRead);
    }
    Ok((name_of(alloc, word)?, rest))
}

// What stands before the last `_`, and behind it.
fn last_split(bytes: &[u8]) -> Option<(&[u8], &[u8])>
    ensures { MatchOption result (spec.last_split bytes.now ≡ None) (λ p. spec.last_split bytes.now ≡ Some (p.0.now, p.1.now)) }
{
    let mut i = bytes.len();
    while i > 0 {
        i -= 1;
        if bytes[i] == b'_' {
            return Some((&bytes[..i], &bytes[i + 1..]));
        }
    }
    None
}

// The word of an array's elements and its length, in the name of its type.
#[tactic(auto, unfolding(crate::specs::Front::array_of), using(crate::proofs::Bytes::element_bytes))]
pub fn array_of(alloc: Global, word: &[u8]) -> Result<(Name, u32), ReadFault>
    ensures { Gives (λ p. p) result (spec.array_of word.now) }
{
    let Some((elem, digits)) = last_split(word) else {
        return Err(ReadFault::NotRead);
    };
    if !is_element(elem) {
        return Err(ReadFault::NotRead);
    }
    let n = number_of(0xFFFF_FFFF, digits)?;
    Ok((name_of(alloc, elem)?, n as u32))
}

// ---- fixed bytes one after another

fn behind_two<'a>(a: &[u8], b: &[u8], bytes: &'a [u8]) -> Result<&'a [u8], ReadFault>
    ensures { Gives (λ r. r.now) result (spec.behind (a.now ++ b.now) bytes.now) }
{
    let rest = behind(a, bytes)?;
    behind(b, rest)
}

pub fn behind_three<'a>(
    a: &[u8],
    b: &[u8],
    c: &[u8],
    bytes: &'a [u8],
) -> Result<&'a [u8], ReadFault>
    ensures { Gives (λ r. r.now) result (spec.behind (a.now ++ b.now ++ c.now) bytes.now) }
{
    let rest = behind_two(a, b, bytes)?;
    behind(c, rest)
}

// The bytes up to a space, and the rest.
#[tactic(auto, unfolding(crate::specs::Front::token, crate::specs::Front::after_token))]
pub fn split_token(bytes: &[u8]) -> (&[u8], &[u8])
    ensures token { result.0.now ≡ spec.token bytes.now }
    ensures rest { result.1.now ≡ spec.after_token bytes.now }
{
    let mut n = 0;
    while n < bytes.len() && bytes[n] != b' ' {
        n += 1;
    }
    bytes.split_at(n)
}

// The digits at the front, and the rest.
#[tactic(auto, unfolding(crate::specs::Front::number, crate::specs::Front::after_number))]
pub fn split_number(bytes: &[u8]) -> (&[u8], &[u8])
    ensures number { result.0.now ≡ spec.number bytes.now }
    ensures rest { result.1.now ≡ spec.after_number bytes.now }
{
    let mut n = 0;
    while n < bytes.len() && is_digit(bytes[n]) {
        n += 1;
    }
    bytes.split_at(n)
}

#[tactic(auto, unfolding(crate::specs::Front::ring_name_at), using(crate::proofs::Bytes::ring_name_bytes))]
pub fn ring_name_at(alloc: Global, bytes: &[u8]) -> Result<(Name, &[u8]), ReadFault>
    ensures { Gives (λ p. (p.0, p.1.now)) result (spec.ring_name_at bytes.now) }
{
    let (word, rest) = split_word(bytes);
    if !is_ring_name(word) {
        return Err(ReadFault::NotRead);
    }
    Ok((name_of(alloc, word)?, rest))
}

// Types.
ghost use Rattle.std.specs.Prelude.{◌≡◌, None};
ghost use Rattle.c99_read.specs.TypeAt as spec;
ghost use Rattle.c99_read.specs.Gives.{Gives};

use crate::fault::ReadFault;
use crate::front::{array_of, behind, is_same, name_of, split_word, strip};
use crate::words::scalar_of;
use c99_tree::CTy;
use sm_io::is_name;
use std::alloc::Global;

#[tactic(auto, using(crate::proofs::Bytes::name_bytes))]
fn named_struct<'a>(
    alloc: Global,
    word: &[u8],
    rest: &'a [u8],
) -> Result<(CTy, &'a [u8]), ReadFault>
    ensures { Gives (λ p. (p.0, p.1.now)) result (spec.struct_of_word None word.now rest.now) }
{
    if !is_name(word) {
        return Err(ReadFault::NotRead);
    }
    Ok((CTy::Struct(name_of(alloc, word)?), rest))
}

fn struct_at(alloc: Global, bytes: &[u8]) -> Result<(CTy, &[u8]), ReadFault>
    ensures { Gives (λ p. (p.0, p.1.now)) result (spec.struct_at bytes.now) }
{
    let (word, rest) = split_word(bytes);
    match strip(b"cp_arr_", word) {
        Some(name) => {
            let (elem, n) = array_of(alloc, name)?;
            Ok((CTy::Array(elem, n), rest))
        }
        None => named_struct(alloc, word, rest),
    }
}

// The type at the front.
#[tactic(auto, unfolding(crate::specs::TypeAt::type_at))]
pub fn type_at(alloc: Global, bytes: &[u8]) -> Result<(CTy, &[u8]), ReadFault>
    ensures { Gives (λ p. (p.0, p.1.now)) result (spec.type_at bytes.now) }
{
    let (word, rest) = split_word(bytes);
    if is_same(word, b"struct") {
        let rest = behind(b" ", rest)?;
        return struct_at(alloc, rest);
    }
    let t = scalar_of(word)?;
    Ok((CTy::Scalar(t), rest))
}

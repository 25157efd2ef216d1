// Buffers, and their names.
ghost use Rattle.std.specs.Prelude.{◌≡◌, decimal, replicate, IfOk};
ghost use Rattle.stream_types.specs.Numbers.{greatest, least, word};
ghost use Rattle.stream_types.specs.Scalars.{bits, signed};

use itoa::Buffer;
use sm_io::{Name, Seq};
use std::alloc::{AllocError, Global};
use stream_core::{NodeId, StreamItem};
use stream_types::{Scalar, Ty};

/// The name of a buffer: its number.
pub(crate) fn number_name(alloc: Global, n: u32) -> Result<Name, AllocError>
    ensures { IfOk result (λ name. name ≡ decimal n) }
{
    let mut buffer = Buffer::new();
    let text = buffer.format(n);
    let bytes = Vec::from_slice(alloc, text.as_bytes())?;
    Ok(Name::new(bytes))
}

/// A buffer: so many times a word of a scalar, and the node of each later value.
pub(crate) fn buffer(
    alloc: Global,
    number: u32,
    s: Scalar,
    m: u32,
    w: u64,
    expr: NodeId,
    at: u64,
) -> Result<StreamItem, AllocError>
    ensures { IfOk result (λ x. x ≡ record { name = decimal number; ty = Ty.Scalar s; init = replicate m w; expr = expr; at = at }) }
{
    let name = number_name(alloc, number)?;
    let mut init = Vec::new(alloc);
    init.resize(m as usize, w)?;
    Ok(StreamItem {
        name,
        ty: Ty::Scalar(s),
        init: Seq::of(init),
        expr,
        at,
    })
}

/// The word of the least number of a scalar, with which the buffer of a window's maximum begins.
pub(crate) fn least_word(s: Scalar) -> u64
    ensures { result ≡ word (least (bits s) (signed s)) }
{
    match s {
        Scalar::Int8 => 18_446_744_073_709_551_488,
        Scalar::Int16 => 18_446_744_073_709_518_848,
        Scalar::Int32 => 18_446_744_071_562_067_968,
        Scalar::Int64 => 9_223_372_036_854_775_808,
        Scalar::Bool | Scalar::Word8 | Scalar::Word16 | Scalar::Word32 | Scalar::Word64 => 0,
    }
}

/// The word of the greatest number of a scalar, with which the buffer of a window's minimum begins.
pub(crate) fn greatest_word(s: Scalar) -> u64
    ensures { result ≡ word (greatest (bits s) (signed s)) }
{
    match s {
        Scalar::Int8 => 127,
        Scalar::Int16 => 32_767,
        Scalar::Int32 => 2_147_483_647,
        Scalar::Int64 => 9_223_372_036_854_775_807,
        Scalar::Bool | Scalar::Word8 => 255,
        Scalar::Word16 => 65_535,
        Scalar::Word32 => 4_294_967_295,
        Scalar::Word64 => 18_446_744_073_709_551_615,
    }
}

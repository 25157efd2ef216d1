// Reading and writing over any reader and writer of std, the real ones included: no byte is dropped, doubled or
// invented. A call of std that was interrupted is made again; every other error of std is a fault.
ghost use Rattle.std.specs.Prelude.{◌≡◌, ◌<◌, ◌≤◌, length, IfOk, IfSome, IsErrOf, vec_len};
ghost use Rattle.std.specs.Io.{ReadsAtMost, WritesAtMost};
ghost use Rattle.std.specs.Io.KnownBytes.{ReadConsumes, WriteAppends};
ghost use Rattle.std.specs.IoError.{error_kind};
ghost use Rattle.sm_io.specs.Streams.{is_interruption, opening_fault, AppendsText};

use crate::outside::{Failed, FetchFault};
use std::alloc::Global;
use std::io::{Error, ErrorKind, Read, Write};

/// Whether a call that gave this error is made again: it was interrupted. Every other error is a fault.
pub fn is_interruption(error: &Error) -> bool
    ensures { result ≡ is_interruption (error_kind error.now) }
{
    matches!(error.kind(), ErrorKind::Interrupted)
}

/// Why a file was not opened: it is not there, or the call failed.
pub fn opening_fault(error: &Error) -> FetchFault
    ensures { result ≡ opening_fault (error_kind error.now) }
{
    match error.kind() {
        ErrorKind::NotFound => FetchFault::Missing,
        _ => FetchFault::Failed,
    }
}

/// One read, made again while it is interrupted.
pub fn read_once<R: Read>(reader: &mut R, buf: &mut [u8]) -> Result<usize, Failed>
    ensures bound { ReadsAtMost result buf.new }
    ensures bytes { ReadConsumes (R.remaining reader.old) (R.remaining reader.new) result buf.new }
{
    for _ in 0..u64::MAX {
        match reader.read(buf) {
            Ok(count) => return Ok(count),
            Err(e) if is_interruption(&e) => {}
            Err(_) => return Err(Failed),
        }
    }
    Err(Failed)
}

/// One write, made again while it is interrupted. No byte taken of a nonempty piece is a fault.
pub fn write_once<W: Write>(writer: &mut W, bytes: &[u8]) -> Result<usize, Failed>
    ensures bound { WritesAtMost result bytes.now }
    ensures some { IfOk result (λ n. 0 < length bytes.now → 0 < n) }
    ensures bytes { WriteAppends (W.contents writer.old) (W.contents writer.new) result bytes.now }
{
    for _ in 0..u64::MAX {
        match writer.write(bytes) {
            Ok(count) if count > 0 || bytes.is_empty() => return Ok(count),
            Err(e) if is_interruption(&e) => {}
            _ => return Err(Failed),
        }
    }
    Err(Failed)
}

/// The bytes of a reader to its end, at most `limit` of them. More are `TooLong`, and a reader is never `Missing`. It
/// is read at most one byte past the limit.
pub fn read_whole<R: Read>(
    alloc: Global,
    reader: &mut R,
    limit: usize,
) -> Result<Vec<u8>, FetchFault>
    ensures within { IfOk result (λ bytes. vec_len bytes ≤ limit) }
    ensures whole { IfOk result (λ bytes. IfSome (R.remaining reader.old) (λ xs. bytes.items ≡ xs)) }
    ensures long { IsErrOf result FetchFault.TooLong → IfSome (R.remaining reader.old) (λ xs. limit < length xs) }
    ensures present { ¬ IsErrOf result FetchFault.Missing }
{
    let mut bytes = Vec::new(alloc);
    let mut buf = [0u8; 4096];
    for _ in 0..u64::MAX {
        let room = (limit - bytes.len()).saturating_add(1).min(4096);
        let Ok(count) = read_once(reader, &mut buf[..room]) else {
            return Err(FetchFault::Failed);
        };
        if count == 0 {
            return Ok(bytes);
        }
        if count > limit - bytes.len() {
            return Err(FetchFault::TooLong);
        }
        if bytes.extend_from_slice(&buf[..count]).is_err() {
            return Err(FetchFault::Memory);
        }
    }
    Err(FetchFault::Failed)
}

/// Writes all the bytes to a writer, or fails after a prefix of them.
pub fn write_whole<W: Write>(writer: &mut W, bytes: &[u8]) -> Result<(), Failed>
    ensures { AppendsText (W.contents writer.old) (W.contents writer.new) result bytes.now }
{
    let mut done = 0;
    while done < bytes.len() {
        done += write_once(writer, &bytes[done..])?;
    }
    Ok(())
}

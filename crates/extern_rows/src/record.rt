// The record of a line.
ghost use Rattle.std.specs.Prelude.{◌≡◌, IfOk, Some, IsTrue};
ghost use Rattle.std.specs.List.{list_all};
ghost use Rattle.csv.specs.Records.{fields_of};
ghost use Rattle.extern_rows.specs.Records.{line_fields, is_plain_byte, is_plain, ReadsRecord};

use crate::fault::RowFault;
use csv::{ByteRecord, ReaderBuilder};
use std::alloc::{AllocError, Global};

fn is_plain_byte(byte: u8) -> bool
    ensures { result ≡ is_plain_byte byte }
{
    !(byte == b'"' || byte == b'\r' || byte == b'\n' || byte == 0xEF)
}

fn are_plain(bytes: &[u8]) -> bool
    ensures { result ≡ list_all is_plain_byte bytes.now }
{
    bytes.iter().all(|byte| is_plain_byte(*byte))
}

// Whether a line's fields are the parts between its commas, as they stand.
fn is_plain(line: &[u8]) -> bool
    ensures { result ≡ is_plain line.now }
{
    !line.is_empty() && are_plain(line)
}

// The parts of a plain line between its commas, with room for so many.
fn cut_record(alloc: Global, line: &[u8], room: usize) -> Result<ByteRecord, AllocError>
    requires { IsTrue (is_plain line.now) }
    ensures { IfOk result (λ row. line_fields line.now ≡ Some (fields_of row)) }
{
    let mut record = ByteRecord::with_capacity(alloc, line.len(), room)?;
    let mut start = 0;
    for at in 0..line.len() {
        if line[at] == b',' {
            record.push_field(&line[start..at])?;
            start = at + 1;
        }
    }
    record.push_field(&line[start..])?;
    Ok(record)
}

// Reads a line's record with the usual settings, by a reader of its own.
fn parse_record(alloc: Global, line: &[u8]) -> Result<ByteRecord, RowFault>
    ensures { ReadsRecord line.now result }
{
    if line.contains(&b'\r') {
        return Err(RowFault::BadRecord);
    }
    let mut reader = ReaderBuilder::new()
        .has_headers(false)
        .from_reader(alloc, line);
    let mut record = ByteRecord::new(alloc);
    match reader.read_byte_record(&mut record) {
        Ok(true) => Ok(record),
        Ok(false) => Err(RowFault::BadRecord),
        Err(_) => Err(RowFault::Memory),
    }
}

/// Reads a line's record, with the usual settings and with room for so many fields. A line without a quote is cut at
/// its commas.
pub fn read_record(alloc: Global, line: &[u8], room: usize) -> Result<ByteRecord, RowFault>
    ensures { ReadsRecord line.now result }
{
    if is_plain(line) {
        return Ok(cut_record(alloc, line, room)?);
    }
    parse_record(alloc, line)
}

// The columns of a header, and the words of a row.
ghost use Rattle.std.specs.Prelude.{◌≡◌, ◌<◌, ℕ, List, [], map, length, get_or, bytes_eq, IfOk};
ghost use Rattle.std.specs.HashMap as hash;
ghost use Rattle.stream_types.specs.Types.{AreWords};
ghost use Rattle.csv.specs.Records.{fields_of};
ghost use Rattle.extern_rows.specs.Fields.{trimmed};
ghost use Rattle.extern_rows.specs.Columns.{column_of, wanted_at, wanted_scalars, cell_word, ReadsHeader, ReadsRow};
ghost use Rattle.extern_rows.specs.Leaves.{scalars_of};
ghost use Rattle.extern_rows.specs.SampleRows.{RowsByLines, RowsOfRest};
ghost use Rattle.extern_rows.specs.LeafReading.{seen_at, ReadsWanted, ReadsWords};

use crate::fault::RowFault;
use crate::field::{field_word, trimmed};
use crate::record::read_record;
use csv::ByteRecord;
use sm_io::Text;
use std::alloc::{AllocError, Global};
use std::collections::HashMap;
use std::marker::Model;
use stream_types::Scalar;

/// One column that is wanted.
#[derive(Debug, Drop)]
pub struct Leaf {
    /// The name that the header has for it.
    pub name: Text,
    /// The type of its fields.
    pub scalar: Scalar,
}

// A leaf's type and column.
#[derive(Clone, Copy)]
struct Wanted {
    scalar: Scalar,
    place: usize,
}

// Where a name stands among the columns' names.
#[derive(Clone, Copy)]
enum Column {
    Once(usize),
    Twice,
}

/// The columns of a text: how many, and where each leaf stands.
#[derive(Drop)]
pub struct Header {
    width: usize,
    wanted: Vec<Wanted>,
}

impl Model for Header {
    ghost use Rattle.std.specs.Prelude.{◌<◌, length};
    ghost use Rattle.extern_rows.specs.Columns.{Columns};

    ghost Value = { Columns };

    ghost view = { λ a. record { width = a.width; wanted = a.wanted.items } };

    ghost invariant = { λ a. length a.wanted.items < 4294967296 };
}

// Where a name stands that stood so before, and stands at this place too.
fn seen_at(before: Option<Column>, place: usize) -> Column
    ensures { result ≡ seen_at before place }
{
    match before {
        None => Column::Once(place),
        Some(_) => Column::Twice,
    }
}

fn field_at(row: &ByteRecord, place: usize) -> &[u8]
    requires { place < length (fields_of row.now) }
    ensures { result.now ≡ get_or (fields_of row.now) place [] }
{
    row.get(place).unwrap_or(&[])
}

// The columns by their names.
fn index_columns<'a>(
    alloc: Global,
    row: &'a ByteRecord,
) -> Result<HashMap<&'a [u8], Column>, AllocError>
    ensures { IfOk result (λ m. (q : List ℕ) → hash.get_by (λ k. bytes_eq q k.now) m ≡ column_of q (map trimmed (fields_of row.now))) }
{
    let mut columns = HashMap::new(alloc);
    for place in 0..row.len() {
        let name = trimmed(field_at(row, place));
        let column = seen_at(columns.get(name).copied(), place);
        columns.insert(name, column)?;
    }
    Ok(columns)
}

// A leaf's type and column, where its name is a column's once.
fn wanted_at(number: u32, scalar: Scalar, column: Option<Column>) -> Result<Wanted, RowFault>
    ensures { result ≡ wanted_at number scalar column }
{
    match column {
        None => Err(RowFault::NoColumn(number)),
        Some(Column::Twice) => Err(RowFault::TwoColumns(number)),
        Some(Column::Once(place)) => Ok(Wanted { scalar, place }),
    }
}

// The leaves' columns, or the first leaf's fault that hasn't one.
fn find_leaves(alloc: Global, row: &ByteRecord, leaves: &[Leaf]) -> Result<Vec<Wanted>, RowFault>
    requires { length leaves.now < 4294967296 }
    ensures reads { ReadsWanted leaves.now (map trimmed (fields_of row.now)) result }
    ensures count { IfOk result (λ wanted. length wanted.items ≡ length leaves.now) }
{
    let columns = index_columns(alloc, row)?;
    let mut wanted = Vec::new(alloc);
    for (number, leaf) in leaves.iter().enumerate() {
        let column = columns.get(leaf.name.bytes()).copied();
        let found = wanted_at(number as u32, leaf.scalar, column)?;
        wanted.push(found)?;
    }
    Ok(wanted)
}

// A leaf's word in a record, where its field writes a value of its type.
fn cell_word(row: &ByteRecord, wanted: Wanted) -> Option<u64>
    ensures { result ≡ cell_word wanted (fields_of row.now) }
{
    field_word(wanted.scalar, trimmed(row.get(wanted.place)?))
}

// The leaves' words in a record, or the first leaf's fault that has none.
fn read_words(row: &ByteRecord, wanted: &[Wanted], out: &mut [u64]) -> Result<(), RowFault>
    requires count { length out.old ≡ length wanted.now }
    requires few { length wanted.now < 4294967296 }
    ensures { ReadsWords wanted.now (fields_of row.now) out.new result }
{
    for (number, leaf) in wanted.iter().enumerate() {
        match cell_word(row, *leaf) {
            None => return Err(RowFault::BadField(number as u32)),
            Some(word) => out[number] = word,
        }
    }
    Ok(())
}

impl Header {
    /// Reads a header line, and finds the column of each leaf. The first leaf in order whose name isn't exactly one
    /// column's is refused.
    pub fn read(alloc: Global, line: &[u8], leaves: &[Leaf]) -> Result<Header, RowFault>
        requires { length leaves.now < 4294967296 }
        ensures reads { ReadsHeader leaves.now line.now result }
        ensures count { IfOk result (λ header. length header.wanted ≡ length leaves.now) }
        ensures scalars { IfOk result (λ header. wanted_scalars header.wanted ≡ scalars_of leaves.now) }
    {
        let record = read_record(alloc, line, leaves.len())?;
        let wanted = find_leaves(alloc, &record, leaves)?;
        Ok(Header {
            width: record.len(),
            wanted,
        })
    }

    /// Reads a row's words, one for each leaf, into `out`. The first leaf in order whose field is no value of its
    /// type is refused; `out` then holds any words.
    pub fn row(&self, alloc: Global, line: &[u8], out: &mut [u64]) -> Result<(), RowFault>
        requires { length out.old ≡ length self.now.wanted }
        ensures reads { ReadsRow self.now line.now out.new result }
        ensures words { IfOk result (λ _. AreWords (wanted_scalars self.now.wanted) out.new) }
    {
        let record = read_record(alloc, line, self.width)?;
        if record.len() != self.width {
            return Err(RowFault::BadRecord);
        }
        read_words(&record, self.wanted.as_slice(), out)
    }
}

/// A text's rows are those of its first line, and then those of what comes behind it. The rest of a text that has
/// ended is its last line.
pub fn rows_stand_in_lines()
    ensures lines { RowsByLines }
    ensures rest { RowsOfRest }
{}

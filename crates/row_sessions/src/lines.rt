// The lines of an input, as a header and rows.
ghost use Rattle.std.specs.Prelude.{◌≡◌, ◌<◌, true, false, length, None, IfOk};
ghost use Rattle.stream_types.specs.Types.{AreWords};
ghost use Rattle.extern_rows.specs.Feeding.{start};
ghost use Rattle.extern_rows.specs.Leaves.{scalars_of};
ghost use Rattle.extern_rows.specs.Lines.{without_cr};
ghost use Rattle.row_sessions.specs.Standing.{ReadsLine, FitsLeaves};

use extern_rows::{Feed, Header, Leaf, RowFault, is_blank};
use std::alloc::{AllocError, Global};

/// The line at hand, the header once it was read, the row that was read last, and how many steps were taken.
#[derive(Drop)]
pub struct Lines {
    pub feed: Feed,
    pub header: Option<Header>,
    pub row: Vec<u64>,
    pub steps: u64,
}

impl Lines {
    /// Before any byte.
    pub fn new(alloc: Global, leaves: &[Leaf]) -> Result<Lines, AllocError>
        ensures feed { IfOk result (λ lines. lines.feed ≡ start) }
        ensures header { IfOk result (λ lines. lines.header ≡ None) }
        ensures steps { IfOk result (λ lines. lines.steps ≡ 0) }
        ensures fits { IfOk result (λ lines. FitsLeaves leaves.now lines.header lines.row.items) }
    {
        Ok(Lines {
            feed: Feed::new(alloc)?,
            header: None,
            row: Vec::from_elem(alloc, 0u64, leaves.len())?,
            steps: 0,
        })
    }

    /// Reads the line at hand, and tells whether it is a row: a blank line is passed over, and the first other one is
    /// the header.
    pub fn read(&mut self, alloc: Global, leaves: &[Leaf]) -> Result<bool, RowFault>
        requires few { length leaves.now < 4294967296 }
        requires fits { FitsLeaves leaves.now self.old.header self.old.row.items }
        ensures reads { ReadsLine leaves.now self.old.header (without_cr self.old.feed.line) self.new.header self.new.row.items result }
        ensures feed { self.new.feed ≡ self.old.feed }
        ensures steps { self.new.steps ≡ self.old.steps }
        ensures fits { FitsLeaves leaves.now self.new.header self.new.row.items }
        ensures words { IfOk result (λ is_row. is_row ≡ true → AreWords (scalars_of leaves.now) self.new.row.items) }
    {
        let line = self.feed.line();
        if is_blank(line) {
            return Ok(false);
        }
        match &self.header {
            None => {
                self.header = Some(Header::read(alloc, line, leaves)?);
                Ok(false)
            }
            Some(header) => {
                header.row(alloc, line, &mut self.row)?;
                Ok(true)
            }
        }
    }
}

// Why a line gives no row.
ghost use Rattle.std.specs.Prelude.{◌≡◌};
ghost use Rattle.extern_rows.specs.declared.fault.RowFault.TheVariants.{Memory};

use std::alloc::{AllocError, AllocFailed};
use thiserror::Error;

/// Why a line gives no row. A leaf is named by its number, from 0.
#[derive(Debug, PartialEq, Eq, Drop, Error)]
pub enum RowFault {
    /// The header has no column for this leaf.
    #[error("no column for leaf {0}")]
    NoColumn(u32),
    /// The header has more than one column for this leaf.
    #[error("two columns for leaf {0}")]
    TwoColumns(u32),
    /// The line is no record, or none of the header's width.
    #[error("no record")]
    BadRecord,
    /// This leaf's field is no value of its type.
    #[error("no value of leaf {0}")]
    BadField(u32),
    /// More than 1,048,576 bytes stand before the line's end.
    #[error("the line is too long")]
    LineTooLong,
    /// The line's number is above 4,294,967,295.
    #[error("too many lines")]
    TooManyLines,
    /// Memory ran out.
    #[error("out of memory")]
    Memory,
}

impl From<AllocError> for RowFault {
    ghost from_gives = { λ _ e. e ≡ Memory };

    fn from(_e: AllocError) -> RowFault {
        RowFault::Memory
    }
}

impl<T: Drop> From<AllocFailed<T>> for RowFault {
    ghost from_gives = { λ _ e. e ≡ Memory };

    fn from(_e: AllocFailed<T>) -> RowFault {
        RowFault::Memory
    }
}

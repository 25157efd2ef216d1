// Why a text is no forest.
ghost use Rattle.std.specs.Prelude.{◌≡◌};
ghost use Rattle.spec_forest.specs.declared.fault.ScanFault.TheVariants.{Memory};

use std::alloc::{AllocError, AllocFailed};
use thiserror::Error;

/// Why a text is no forest. A place is an offset in bytes from 0.
#[derive(Debug, PartialEq, Eq, Drop, Error)]
pub enum ScanFault {
    /// The text has more than 1,048,576 bytes.
    #[error("the text is too long")]
    TextTooLong,
    /// This byte may not stand outside a comment.
    #[error("a byte that may not stand at {0}")]
    BadByte(u64),
    /// This `)` closes no list; at the text's length, a list is open there.
    #[error("a bracket without its other one at {0}")]
    Unbalanced(u64),
    /// This `(` would open a 65th level.
    #[error("a list too deep at {0}")]
    TooDeep(u64),
    /// Memory ran out.
    #[error("out of memory")]
    Memory,
}

impl From<AllocError> for ScanFault {
    ghost from_gives = { λ _ e. e ≡ Memory };

    fn from(_e: AllocError) -> ScanFault {
        ScanFault::Memory
    }
}

impl<T: Drop> From<AllocFailed<T>> for ScanFault {
    ghost from_gives = { λ _ e. e ≡ Memory };

    fn from(_e: AllocFailed<T>) -> ScanFault {
        ScanFault::Memory
    }
}

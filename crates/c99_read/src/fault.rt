// Why a text was not read.
ghost use Rattle.std.specs.Prelude.{◌≡◌};
ghost use Rattle.c99_read.specs.declared.fault.ReadFault.TheVariants.{Memory};

use std::alloc::{AllocError, AllocFailed};
use thiserror::Error;

/// Why no header was read.
#[derive(Debug, Drop, Error)]
pub enum ReadHeaderFault {
    /// No program has this header.
    #[error("no header")]
    NotHeader,
    /// Memory ran out.
    #[error("out of memory")]
    Memory,
}

/// Why no expression was read.
#[derive(Debug, Drop, Error)]
pub enum ReadExpressionFault {
    /// No expression has this text.
    #[error("no expression")]
    NotExpression,
    /// Memory ran out.
    #[error("out of memory")]
    Memory,
}

/// Why two texts are not those of a well formed program.
#[derive(Debug, Drop, Error)]
pub enum ReadUnitFault {
    /// No program has this header.
    #[error("no header")]
    NotHeader,
    /// No program of this header has this source.
    #[error("no source of this header")]
    NotSource,
    /// The program is not well formed.
    #[error("not well formed")]
    NotWellFormed,
    /// Memory ran out.
    #[error("out of memory")]
    Memory,
}

// Why a part was not read.
#[derive(Debug, Drop)]
pub enum ReadFault {
    Memory,
    NotRead,
}

impl From<AllocError> for ReadFault {
    ghost from_gives = { λ _ e. e ≡ Memory };

    fn from(_e: AllocError) -> ReadFault {
        ReadFault::Memory
    }
}

impl<T: Drop> From<AllocFailed<T>> for ReadFault {
    ghost from_gives = { λ _ e. e ≡ Memory };

    fn from(_e: AllocFailed<T>) -> ReadFault {
        ReadFault::Memory
    }
}

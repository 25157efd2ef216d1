// Why a surface has no types.
ghost use Rattle.std.specs.Prelude.{◌≡◌};
ghost use Rattle.type_check.specs.declared.fault.TypeFault.TheVariants.{Memory};

use std::alloc::{AllocError, AllocFailed};
use thiserror::Error;

/// The first fault of names or types. Each number is the place of the node at fault: its offset in bytes from 0.
#[derive(Debug, Drop, Error)]
pub enum TypeFault {
    /// A name is declared again in its space.
    #[error("a name is declared again at {0}")]
    Redeclared(u64),
    /// A name stands for nothing.
    #[error("a name stands for nothing at {0}")]
    Unknown(u64),
    /// A form has parts of types that it doesn't take.
    #[error("types clash at {0}")]
    TypeClash(u64),
    /// An array has arrays as elements.
    #[error("an array of arrays at {0}")]
    NestedArray(u64),
    /// A type has more than 1,024 words.
    #[error("a type is too wide at {0}")]
    TypeTooWide(u64),
    /// A drop of an extern or a def, which keep no values.
    #[error("a drop of no buffer at {0}")]
    DropOfNoBuffer(u64),
    /// A drop of as many values as a stream begins with, or of more.
    #[error("a drop goes too far at {0}")]
    DropTooFar(u64),
    #[error("no memory")]
    Memory,
}

impl From<AllocError> for TypeFault {
    ghost from_gives = { λ _ e. e ≡ Memory };

    fn from(_e: AllocError) -> TypeFault {
        TypeFault::Memory
    }
}

impl<T: Drop> From<AllocFailed<T>> for TypeFault {
    ghost from_gives = { λ _ e. e ≡ Memory };

    fn from(_e: AllocFailed<T>) -> TypeFault {
        TypeFault::Memory
    }
}

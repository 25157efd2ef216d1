// Why a forest holds no specification.
ghost use Rattle.std.specs.Prelude.{◌≡◌};
ghost use Rattle.spec_text.specs.declared.fault.ShapeFault.TheVariants.{Memory};

use std::alloc::{AllocError, AllocFailed};
use thiserror::Error;

/// The first node in preorder that doesn't fit its place, by its own place in the text.
#[derive(Debug, Drop, Error)]
pub enum ShapeFault {
    /// A list that is no form of its place, or an atom where only a list may stand; 0 where it is the text's first
    /// item or there is none.
    #[error("no form at {0}")]
    BadForm(u64),
    /// No name, or no type.
    #[error("no name at {0}")]
    BadName(u64),
    /// No literal or number of this place.
    #[error("no literal at {0}")]
    BadLiteral(u64),
    /// Memory ran out.
    #[error("out of memory")]
    Memory,
}

impl From<AllocError> for ShapeFault {
    ghost from_gives = { λ _ e. e ≡ Memory };

    fn from(_e: AllocError) -> ShapeFault {
        ShapeFault::Memory
    }
}

impl<T: Drop> From<AllocFailed<T>> for ShapeFault {
    ghost from_gives = { λ _ e. e ≡ Memory };

    fn from(_e: AllocFailed<T>) -> ShapeFault {
        ShapeFault::Memory
    }
}

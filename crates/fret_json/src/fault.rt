// Why a file holds no requirements.
ghost use Rattle.std.specs.Prelude.{◌≡◌};
ghost use Rattle.fret_json.specs.declared.fault.ReqFault.TheVariants.{Memory};

use std::alloc::{AllocError, AllocFailed};
use thiserror::Error;

/// The first fault of a requirement file. Entries count from 1.
#[derive(Debug, Drop, Error)]
pub enum ReqFault {
    /// `serde_json` reads no value.
    #[error("no JSON")]
    NotJson,
    /// The value isn't an object whose `component` is an object with a name as string `name` and lists `variables` and
    /// `requirements`.
    #[error("no component")]
    NoComponent,
    /// A variable that isn't an object with strings `name` and `type`.
    #[error("variable {0} is no entry")]
    BadVariableEntry(u64),
    /// A requirement that isn't an object with strings `name` and `formula`.
    #[error("requirement {0} is no entry")]
    BadRequirementEntry(u64),
    /// Memory ran out.
    #[error("out of memory")]
    Memory,
}

impl From<AllocError> for ReqFault {
    ghost from_gives = { λ _ e. e ≡ Memory };

    fn from(_e: AllocError) -> ReqFault {
        ReqFault::Memory
    }
}

impl<T: Drop> From<AllocFailed<T>> for ReqFault {
    ghost from_gives = { λ _ e. e ≡ Memory };

    fn from(_e: AllocFailed<T>) -> ReqFault {
        ReqFault::Memory
    }
}

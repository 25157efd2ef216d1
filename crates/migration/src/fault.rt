// Why a program is not migrated.
ghost use Rattle.std.specs.Prelude.{◌≡◌};
ghost use Rattle.migration.specs.declared.fault.MigrateFault.TheVariants.{Memory};

use std::alloc::AllocError;
use thiserror::Error;

/// Why a program is not migrated.
#[derive(Debug, Drop, Error)]
pub enum MigrateFault {
    /// The number, from 1, of the first ring of one value with an index that is used otherwise than of old.
    #[error("ring {0} is not used as of old")]
    OldUse(u32),
    /// Memory ran out.
    #[error("out of memory")]
    Memory,
}

impl From<AllocError> for MigrateFault {
    ghost from_gives = { λ _ e. e ≡ Memory };

    fn from(_e: AllocError) -> MigrateFault {
        MigrateFault::Memory
    }
}

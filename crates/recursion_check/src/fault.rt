// Why a specification is unsound.
use thiserror::Error;

/// Why a specification is unsound. A number is the place of the node at fault: its offset in bytes from 0.
#[derive(Debug, Drop, Error)]
pub enum SoundFault {
    /// The first def that leads back to itself.
    #[error("a cycle at {0}")]
    Cycle(u64),
    /// More than 4,096 declarations.
    #[error("too many declarations")]
    TooManyDecls,
    /// More than 262,144 words in externs, streams and buffers.
    #[error("too many words")]
    TooManyWords,
    /// The first root that weighs more than 2,048.
    #[error("a root is too heavy at {0}")]
    RootTooHeavy(u64),
    /// All roots together weigh more than 262,144.
    #[error("the specification is too heavy")]
    SpecTooHeavy,
    /// Memory ran out.
    #[error("out of memory")]
    Memory,
}

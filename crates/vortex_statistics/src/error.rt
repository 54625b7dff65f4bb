//! Why statistics were refused.

ghost use Rattle.std.specs.Prelude.{◌≡◌};
ghost use Rattle.vortex_statistics.specs.declared.error.StatisticsError.TheVariants.{OutOfMemory};

use std::alloc::AllocError;
use thiserror::Error;

/// Why there are no statistics. What `Display` writes is for people and is not promised.
#[derive(Clone, Copy, Debug, PartialEq, Eq, Error)]
pub enum StatisticsError {
    /// An allocation was refused.
    #[error("out of memory")]
    OutOfMemory,
    /// There are more rows than 64 bits can count.
    #[error("too many rows")]
    TooManyRows,
    /// A variant stands in the type, so its values have no keys. Of the calls of `statistics_bytes`
    /// alone.
    #[error("a variant stands in the type")]
    HasVariant,
    /// The bytes are no encoding of statistics of the type: the offset of the first byte that none
    /// has there, or of the end if they end too early. Of the calls of `statistics_bytes` alone.
    #[error("no encoding of statistics of the type: byte {offset}")]
    BadBytes { offset: usize },
}

/// Out of memory, whatever was asked for.
impl From<AllocError> for StatisticsError {
    ghost from_gives = { λ _ e. e ≡ OutOfMemory };

    fn from(_error: AllocError) -> StatisticsError {
        StatisticsError::OutOfMemory
    }
}

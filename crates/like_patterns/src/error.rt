// SPDX-License-Identifier: Apache-2.0
//! Why a text is no pattern.

ghost use Rattle.std.specs.Prelude.{◌≡◌};
ghost use Rattle.like_patterns.specs.declared.error.PatternError.TheVariants.{OutOfMemory};

use std::alloc::{AllocError, AllocFailed};
use thiserror::Error;

/// Why a text is no pattern. Texts are for people and are not promised.
#[derive(Clone, Copy, Debug, PartialEq, Eq, Error)]
pub enum PatternError {
    /// An allocation was refused.
    #[error("out of memory")]
    OutOfMemory,
    /// The text ends with the escape, which begins at this byte and has no character behind it.
    #[error("byte {offset}: nothing follows the escape")]
    EscapeAtEnd { offset: usize },
}

/// Out of memory, whatever was asked for.
impl From<AllocError> for PatternError {
    ghost from_gives = { λ _ e. e ≡ OutOfMemory };

    fn from(_error: AllocError) -> PatternError {
        PatternError::OutOfMemory
    }
}

/// Out of memory; what was to be kept is dropped.
impl<T: Drop> From<AllocFailed<T>> for PatternError {
    ghost from_gives = { λ _ e. e ≡ OutOfMemory };

    fn from(_error: AllocFailed<T>) -> PatternError {
        PatternError::OutOfMemory
    }
}

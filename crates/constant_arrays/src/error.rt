// SPDX-License-Identifier: Apache-2.0
//! Why a call of constant arrays was refused.

use thiserror::Error;

/// Why a call was refused. Texts are for people and are not promised.
#[derive(Clone, Copy, Debug, PartialEq, Eq, Error)]
pub enum ConstantArrayError {
    /// An allocation was refused.
    #[error("out of memory")]
    OutOfMemory,
    /// The array has no row at this index.
    #[error("no row {index} in an array of {len}")]
    IndexOutOfBounds {
        index: usize,
        len: usize,
    },
    /// The range starts behind its end, or ends behind the array.
    #[error("no rows from {start} to {end} in an array of {len}")]
    RangeOutOfBounds {
        start: usize,
        end: usize,
        len: usize,
    },
}

// SPDX-License-Identifier: Apache-2.0
//! The statistics of constant arrays.

ghost use Rattle.std.specs.Prelude.{◌≡◌, ◌<◌, IfErr, IfOk, fold, length};
ghost use Rattle.constant_arrays.specs.Words.{AreComplete, HasValidBounds, IsValid, MayTakeMemory, items, known};
ghost use Rattle.constant_arrays.specs.Words.{nothing, observed, scalar_of};
ghost use Rattle.vortex_statistics.specs.declared.error.StatisticsError.TheVariants.{OutOfMemory};

use crate::array::ConstantArray;
use std::alloc::Global;
use vortex_statistics::{ColumnStatistics, StatisticsError};

impl ConstantArray {
    /// The statistics of the rows, without a walk over them: both bounds are the scalar, or all rows
    /// are null.
    ///
    /// `OutOfMemory` is its only refusal, and only if there are rows and the scalar is not null. It
    /// never comes for a valid scalar of a type whose values take no memory.
    pub fn statistics(&self, alloc: Global) -> Result<ColumnStatistics, StatisticsError>
        ensures value { IfOk result (λ s. known s ≡ fold observed nothing (items self.now)) }
        ensures complete { IfOk result (λ s. AreComplete (known s) (items self.now)) }
        ensures valid { IfOk result (λ s. IsValid (scalar_of self.now) → HasValidBounds s) }
        ensures refused { IfErr result (λ e. (e ≡ OutOfMemory) × (0 < length (items self.now))
            × MayTakeMemory (scalar_of self.now)) }
    {
        ColumnStatistics::of_constant(alloc, &self.scalar, self.len as u64)
    }
}

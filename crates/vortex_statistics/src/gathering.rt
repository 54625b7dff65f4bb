//! The statistics of values that are at hand.

ghost use Rattle.std.specs.List.{All};
ghost use Rattle.std.specs.Prelude.{◌≡◌, ◌<◌, IfErr, IfOk, fold, map, replicate};
ghost use Rattle.vortex_statistics.specs.Words.{AreComplete, HasValidBounds, IsValid, MayTakeMemory, OutOfMemory};
ghost use Rattle.vortex_statistics.specs.Words.{SomeMayTakeMemory, cell_of, known, nothing, observed};

use crate::column_statistics::ColumnStatistics;
use crate::error::StatisticsError;
use crate::observing::replacing;
use std::alloc::Global;
use vortex_value::laws::{order_is_reversed, order_is_transitive};
use vortex_value::{Scalar, ScalarRef};

impl ColumnStatistics {
    /// The statistics of these values: the nulls are counted, and the bounds are exact. There are
    /// bounds if there is a value and all values compare with one another.
    ///
    /// `OutOfMemory` is its only refusal, and only if a value is not null, and is not a valid one of
    /// a type whose values take no memory, as an integer.
    pub fn of(alloc: Global, values: &[Scalar]) -> Result<ColumnStatistics, StatisticsError>
        ensures value { IfOk result
            (λ s. known s ≡ fold observed nothing (map cell_of values.now)) }
        ensures complete { IfOk result (λ s. AreComplete (known s) (map cell_of values.now)) }
        ensures valid { IfOk result (λ s. All IsValid values.now → HasValidBounds s) }
        ensures refused { IfErr result
            (λ e. (e ≡ OutOfMemory) × SomeMayTakeMemory values.now) }
    {
        let mut statistics = ColumnStatistics::empty();
        for value in values {
            statistics.observe(alloc, ScalarRef::of(value))?;
        }
        Ok(statistics)
    }

    /// The statistics of a column that has the same value, or a null, in each of `rows` rows: both
    /// bounds are the value, or all rows are null.
    ///
    /// `OutOfMemory` is its only refusal, and only if there are rows and the value is not null. It
    /// never comes for a valid value of a type whose values take no memory, as an integer.
    pub fn of_constant(
        alloc: Global,
        value: &Scalar,
        rows: u64,
    ) -> Result<ColumnStatistics, StatisticsError>
        ensures value { IfOk result
            (λ s. known s ≡ fold observed nothing (replicate rows (cell_of value.now))) }
        ensures complete { IfOk result
            (λ s. AreComplete (known s) (replicate rows (cell_of value.now))) }
        ensures valid { IfOk result (λ s. IsValid value.now → HasValidBounds s) }
        ensures refused { IfErr result
            (λ e. (e ≡ OutOfMemory) × (0 < rows) × MayTakeMemory value.now) }
    {
        order_is_reversed();
        order_is_transitive();
        if rows == 0 {
            return Ok(ColumnStatistics::empty());
        }
        if value.is_null() {
            return Ok(ColumnStatistics {
                row_count: rows,
                null_count: Some(rows),
                lower: None,
                upper: None,
            });
        }
        let value = ScalarRef::of(value);
        let change = replacing(value);
        let mut statistics = ColumnStatistics {
            row_count: rows,
            null_count: Some(0),
            lower: None,
            upper: None,
        };
        match statistics.change_bounds(alloc, change, change, value) {
            Ok(()) => Ok(statistics),
            Err(cause) => {
                drop(statistics);
                Err(cause)
            }
        }
    }
}

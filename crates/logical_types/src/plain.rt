// SPDX-License-Identifier: Apache-2.0
//! The logical types without digits in their names, in a list.

ghost use Rattle.std.specs.Prelude.{◌≡◌};
ghost use Rattle.logical_types.specs.Names.{plain_types};
ghost use Rattle.logical_types.specs.declared.logical.LogicalType.TheVariants as LogicalType;

use crate::logical::LogicalType;
use crate::times::TimeUnit;

/// Every logical type but decimals.
pub(crate) fn plain_types() -> [LogicalType; 15]
    ensures { result ≡ plain_types }
{
    [
        LogicalType::Float64,
        LogicalType::Float32,
        LogicalType::Date,
        LogicalType::Time(TimeUnit::Seconds),
        LogicalType::Time(TimeUnit::Milliseconds),
        LogicalType::Time(TimeUnit::Microseconds),
        LogicalType::Time(TimeUnit::Nanoseconds),
        timestamp(TimeUnit::Seconds, false),
        timestamp(TimeUnit::Milliseconds, false),
        timestamp(TimeUnit::Microseconds, false),
        timestamp(TimeUnit::Nanoseconds, false),
        timestamp(TimeUnit::Seconds, true),
        timestamp(TimeUnit::Milliseconds, true),
        timestamp(TimeUnit::Microseconds, true),
        timestamp(TimeUnit::Nanoseconds, true),
    ]
}

fn timestamp(unit: TimeUnit, is_zoned: bool) -> LogicalType
    ensures { result ≡ LogicalType.Timestamp unit is_zoned }
{
    LogicalType::Timestamp { unit, is_zoned }
}

// SPDX-License-Identifier: Apache-2.0
//! Which integers are storages of values: those from a least to a greatest.

ghost use Rattle.std.specs.Prelude.{◌↔◌, ℤ, IsTrue};
ghost use Rattle.jiff_core.specs.Calendar.{IsBetween};
ghost use Rattle.logical_types.specs.Times.{IsTimestamp};
ghost use Rattle.logical_types.specs.Words.{IsStorageOf};

use crate::logical::LogicalType;
use crate::times::TimeUnit;

/// The storage of NaN, the greatest of f64.
const NAN_64: i128 = 0x7ff0_0000_0000_0001;

/// The storage of NaN, the greatest of f32.
const NAN_32: i128 = 0x7f80_0001;

/// How many nanoseconds a day has.
const DAY: i128 = 86_400_000_000_000;

/// The least and the greatest storage of a type. Each integer from one to the other is a storage.
pub fn storages_of(logical: LogicalType) -> (i128, i128)
    ensures { (z : ℤ) → IsStorageOf logical z ↔ IsBetween result.0 result.1 z }
{
    match logical {
        LogicalType::Float64 => (1 - NAN_64, NAN_64),
        LogicalType::Float32 => (1 - NAN_32, NAN_32),
        LogicalType::Decimal(decimal) => {
            let greatest = decimal.limit() as i128 - 1;
            (-greatest, greatest)
        }
        LogicalType::Date => (-4_371_587, 2_932_896),
        LogicalType::Time(unit) => (0, DAY / unit.nanoseconds() as i128 - 1),
        LogicalType::Timestamp { unit, .. } => timestamps_of(unit),
    }
}

/// The same of timestamps: from -9999-01-01 to 9999-12-31, as far as 64 bits hold them.
fn timestamps_of(unit: TimeUnit) -> (i128, i128)
    ensures { (z : ℤ) → IsTimestamp unit z ↔ IsBetween result.0 result.1 z }
{
    match unit {
        TimeUnit::Seconds => (-377_705_116_800, 253_402_300_799),
        TimeUnit::Milliseconds => (-377_705_116_800_000, 253_402_300_799_999),
        TimeUnit::Microseconds => (-377_705_116_800_000_000, 253_402_300_799_999_999),
        TimeUnit::Nanoseconds => (-0x8000_0000_0000_0000, 0x7fff_ffff_ffff_ffff),
    }
}

/// Whether the integer is the storage of a value of the type.
pub fn is_value_of(logical: LogicalType, storage: i128) -> bool
    ensures { IsTrue result ↔ IsStorageOf logical storage }
{
    let (least, greatest) = storages_of(logical);
    least <= storage && storage <= greatest
}

// SPDX-License-Identifier: Apache-2.0
//! Logical types as extensions: their ids, metadata and storages, and back.

ghost use Rattle.std.specs.Prelude.{◌≡◌, ◌↔◌, IfNone, IfSome, IsTrue};
ghost use Rattle.logical_types.specs.Extensions.{HasMetadata, HasZone, IsExtension, id_of, metadata_of};
ghost use Rattle.logical_types.specs.Extensions.{storage_type_of, time_storage, unit_byte};
ghost use Rattle.logical_types.specs.declared.logical.LogicalType.{LogicalType};
ghost use Rattle.logical_types.specs.declared.logical.LogicalType.TheVariants as LogicalTypes;

use crate::logical::{DecimalType, LogicalType};
use crate::plain::plain_types;
use crate::times::TimeUnit;
use arrayvec::ArrayVec;

/// What stores the values of a logical type.
#[derive(Clone, Copy, Debug, PartialEq, Eq)]
pub enum StorageType {
    /// Integers of 32 bits.
    I32,
    /// Integers of 64 bits.
    I64,
    /// 16 bytes that sort as the integer of 128 bits, for decimals of more than 18 digits.
    Bytes,
}

/// The id of a type's extension.
pub fn extension_id(logical: LogicalType) -> &'static str
    ensures { result.now ≡ id_of logical }
{
    match logical {
        LogicalType::Float64 => "doqallin.f64",
        LogicalType::Float32 => "doqallin.f32",
        LogicalType::Decimal(_) => "doqallin.decimal",
        LogicalType::Date => "vortex.date",
        LogicalType::Time(_) => "vortex.time",
        LogicalType::Timestamp { .. } => "vortex.timestamp",
    }
}

/// The metadata of a type's extension. A zone has the name `UTC`.
pub fn extension_metadata(logical: LogicalType) -> ArrayVec<u8, 6>
    ensures { result.items ≡ metadata_of logical }
{
    let mut metadata = ArrayVec::new();
    match logical {
        LogicalType::Float64 | LogicalType::Float32 => {}
        LogicalType::Decimal(decimal) => {
            metadata.push(decimal.precision);
            metadata.push(decimal.scale);
        }
        LogicalType::Date => metadata.push(DAYS),
        LogicalType::Time(unit) => metadata.push(unit_byte(unit)),
        LogicalType::Timestamp { unit, is_zoned } => return timestamp_metadata(unit, is_zoned),
    }
    metadata
}

/// The byte that stands for days.
const DAYS: u8 = 4;

/// The byte of a unit.
fn unit_byte(unit: TimeUnit) -> u8
    ensures { result ≡ unit_byte unit }
{
    match unit {
        TimeUnit::Nanoseconds => 0,
        TimeUnit::Microseconds => 1,
        TimeUnit::Milliseconds => 2,
        TimeUnit::Seconds => 3,
    }
}

/// The unit, and the length and the name of the zone.
fn timestamp_metadata(unit: TimeUnit, is_zoned: bool) -> ArrayVec<u8, 6>
    ensures { result.items ≡ metadata_of (LogicalTypes.Timestamp unit is_zoned) }
{
    let mut metadata = ArrayVec::new();
    metadata.push(unit_byte(unit));
    if is_zoned {
        metadata.push(3);
        metadata.push(0);
        metadata.push(b'U');
        metadata.push(b'T');
        metadata.push(b'C');
    } else {
        metadata.push(0);
        metadata.push(0);
    }
    metadata
}

/// What stores the values of a type.
pub fn storage_type(logical: LogicalType) -> StorageType
    ensures { result ≡ storage_type_of logical }
{
    match logical {
        LogicalType::Float64 | LogicalType::Timestamp { .. } => StorageType::I64,
        LogicalType::Float32 | LogicalType::Date => StorageType::I32,
        LogicalType::Decimal(decimal) if decimal.precision <= 18 => StorageType::I64,
        LogicalType::Decimal(_) => StorageType::Bytes,
        LogicalType::Time(TimeUnit::Seconds | TimeUnit::Milliseconds) => StorageType::I32,
        LogicalType::Time(TimeUnit::Microseconds | TimeUnit::Nanoseconds) => StorageType::I64,
    }
}

/// The logical type of an extension, if it is one: by its id, metadata and storage. A zone may have any
/// name, since timestamps count in UTC.
pub fn logical_type_of_extension(
    id: &str,
    metadata: &[u8],
    storage: StorageType,
) -> Option<LogicalType>
    ensures some { IfSome result (IsExtension id.now metadata.now storage) }
    ensures none { IfNone result ((l : LogicalType) → ¬ (IsExtension id.now metadata.now storage l)) }
{
    for logical in plain_types() {
        if is_extension_of(logical, id, metadata, storage) {
            return Some(logical);
        }
    }
    let [precision, scale] = metadata else {
        return None;
    };
    let logical = LogicalType::Decimal(DecimalType::new(*precision, *scale)?);
    if is_extension_of(logical, id, metadata, storage) {
        Some(logical)
    } else {
        None
    }
}

/// Whether an extension is that of a type: by its id, metadata and storage.
pub fn is_extension_of(
    logical: LogicalType,
    id: &str,
    metadata: &[u8],
    storage: StorageType,
) -> bool
    ensures { IsTrue result ↔ IsExtension id.now metadata.now storage logical }
{
    id == extension_id(logical)
        && has_metadata(logical, metadata)
        && storage == storage_type(logical)
}

/// Whether these are metadata of a type.
fn has_metadata(logical: LogicalType, metadata: &[u8]) -> bool
    ensures { IsTrue result ↔ HasMetadata logical metadata.now }
{
    match logical {
        LogicalType::Timestamp {
            unit,
            is_zoned: true,
        } => has_zone(unit, metadata),
        _ => extension_metadata(logical).as_slice() == metadata,
    }
}

/// Whether these are a unit and the length and the name of a zone.
fn has_zone(unit: TimeUnit, metadata: &[u8]) -> bool
    ensures { IsTrue result ↔ HasZone unit metadata.now }
{
    match metadata {
        [first, low, high, name @ ..] => {
            *first == unit_byte(unit)
                && name.len() == *low as usize + 256 * *high as usize
                && !name.is_empty()
        }
        _ => false,
    }
}

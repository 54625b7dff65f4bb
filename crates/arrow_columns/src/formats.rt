// SPDX-License-Identifier: Apache-2.0
//! Formats of columns of logical types: floats, decimals, days, times and timestamps.

ghost use Rattle.std.specs.Prelude.{◌≡◌, ◌≤◌, IfNone, IfSome};
ghost use Rattle.arrow_columns.specs.Words.{IsLogicalTypeOf, IsSound, decimal_format_at, format_at, items_of};
ghost use Rattle.arrow_columns.specs.Words.{greatest_precision, time_items, timestamp_format_at};

use crate::kinds::{IntegerKind, ItemKind};
use logical_types::{DecimalType, LogicalType, TimeUnit};

/// How many bits an integer of a column of decimals has.
#[derive(Clone, Copy, Debug, PartialEq, Eq)]
pub enum DecimalWidth {
    Bits32,
    Bits64,
    Bits128,
}

/// What the items of a column of a logical type are, and what they stand for.
#[derive(Clone, Copy, Debug, PartialEq, Eq)]
pub enum Format {
    Float32,
    Float64,
    /// Days since 1970-01-01, of 32 bits.
    Date32,
    /// A number of the unit since midnight: of 32 bits for seconds and milliseconds, else of 64.
    Time(TimeUnit),
    /// A number of the unit since 1970-01-01T00:00:00, of 64 bits; in UTC if it has a zone.
    Timestamp {
        unit: TimeUnit,
        is_zoned: bool,
    },
    /// Decimal numbers of at most so many digits, times 10 ^ scale.
    Decimal {
        width: DecimalWidth,
        precision: u8,
        scale: u8,
    },
}

impl DecimalWidth {
    /// How many digits a number has at most.
    pub fn greatest_precision(self) -> u8
        ensures value { result ≡ greatest_precision self }
        ensures small { result ≤ 38 }
    {
        match self {
            DecimalWidth::Bits32 => 9,
            DecimalWidth::Bits64 => 18,
            DecimalWidth::Bits128 => 38,
        }
    }
}

impl Format {
    /// What its items are.
    pub fn items(self) -> ItemKind
        ensures { result ≡ items_of self }
    {
        match self {
            Format::Float32 => ItemKind::F32,
            Format::Float64 => ItemKind::F64,
            Format::Date32 => ItemKind::Integer(IntegerKind::I32),
            Format::Time(unit) => time_items(unit),
            Format::Timestamp { .. } => ItemKind::Integer(IntegerKind::I64),
            Format::Decimal { width, .. } => match width {
                DecimalWidth::Bits32 => ItemKind::Integer(IntegerKind::I32),
                DecimalWidth::Bits64 => ItemKind::Integer(IntegerKind::I64),
                DecimalWidth::Bits128 => ItemKind::I128,
            },
        }
    }

    /// The format with this code, 14 to 31. The precision and the scale are of decimals, 29 to 31, and
    /// else not read.
    pub fn from_code(code: u8, precision: u8, scale: u8) -> Option<Format>
        ensures { result ≡ format_at code precision scale }
    {
        match code {
            14 => Some(Format::Float32),
            15 => Some(Format::Float64),
            16 => Some(Format::Date32),
            17 => Some(Format::Time(TimeUnit::Seconds)),
            18 => Some(Format::Time(TimeUnit::Milliseconds)),
            19 => Some(Format::Time(TimeUnit::Microseconds)),
            20 => Some(Format::Time(TimeUnit::Nanoseconds)),
            29 => decimal_at(DecimalWidth::Bits32, precision, scale),
            30 => decimal_at(DecimalWidth::Bits64, precision, scale),
            31 => decimal_at(DecimalWidth::Bits128, precision, scale),
            _ => timestamp_at(code),
        }
    }

    /// The logical type. None of decimals of more digits than their width has, or with a scale above the
    /// precision: such a format has no code.
    pub fn logical_type(self) -> Option<LogicalType>
        ensures some { IfSome result (IsLogicalTypeOf self) }
        ensures none { IfNone result (¬ (IsSound self)) }
    {
        match self {
            Format::Float32 => Some(LogicalType::Float32),
            Format::Float64 => Some(LogicalType::Float64),
            Format::Date32 => Some(LogicalType::Date),
            Format::Time(unit) => Some(LogicalType::Time(unit)),
            Format::Timestamp { unit, is_zoned } => Some(LogicalType::Timestamp { unit, is_zoned }),
            Format::Decimal {
                width,
                precision,
                scale,
            } => {
                let greatest = width.greatest_precision();
                if 0 < precision && precision <= greatest && scale <= precision {
                    Some(LogicalType::Decimal(DecimalType { precision, scale }))
                } else {
                    None
                }
            }
        }
    }
}

/// The items of times of day.
fn time_items(unit: TimeUnit) -> ItemKind
    ensures { result ≡ time_items unit }
{
    match unit {
        TimeUnit::Seconds | TimeUnit::Milliseconds => ItemKind::Integer(IntegerKind::I32),
        TimeUnit::Microseconds | TimeUnit::Nanoseconds => ItemKind::Integer(IntegerKind::I64),
    }
}

/// The format of timestamps with this code: 21 to 24 without a zone, by their unit, and 25 to 28 with one.
fn timestamp_at(code: u8) -> Option<Format>
    ensures { result ≡ timestamp_format_at code }
{
    let (unit, is_zoned) = match code {
        21 => (TimeUnit::Seconds, false),
        22 => (TimeUnit::Milliseconds, false),
        23 => (TimeUnit::Microseconds, false),
        24 => (TimeUnit::Nanoseconds, false),
        25 => (TimeUnit::Seconds, true),
        26 => (TimeUnit::Milliseconds, true),
        27 => (TimeUnit::Microseconds, true),
        28 => (TimeUnit::Nanoseconds, true),
        _ => return None,
    };
    Some(Format::Timestamp { unit, is_zoned })
}

/// The decimals of this width, precision and scale, if there are such.
fn decimal_at(width: DecimalWidth, precision: u8, scale: u8) -> Option<Format>
    ensures { result ≡ decimal_format_at width precision scale }
{
    let greatest = width.greatest_precision();
    if 0 < precision && precision <= greatest && scale <= precision {
        Some(Format::Decimal {
            width,
            precision,
            scale,
        })
    } else {
        None
    }
}

// SPDX-License-Identifier: Apache-2.0
//! Logical types: what the integers of a column stand for.

ghost use Rattle.std.specs.Prelude.{◌<◌, ◌≤◌};

use crate::times::TimeUnit;

/// Decimal numbers of at most so many digits, with so many of them behind the point.
#[derive(Clone, Copy, Debug)]
pub struct DecimalType {
    /// How many digits a number has at most, from 1 to 38.
    pub precision: u8,
    /// How many of them stand behind the point.
    pub scale: u8,
    pub ghost some: { 0 < precision },
    pub ghost small: { precision ≤ 38 },
    pub ghost within: { scale ≤ precision },
}

impl DecimalType {
    ghost use Rattle.std.specs.Prelude.{◌≡◌, ◌<◌, ◌≤◌, ◌^◌, IfNone, IfSome};

    /// The type of this precision and scale, if there is one.
    pub fn new(precision: u8, scale: u8) -> Option<DecimalType>
        ensures some { IfSome result (λ d. (d.precision ≡ precision) × (d.scale ≡ scale)) }
        ensures none { IfNone result (¬ ((0 < precision) × (precision ≤ 38) × (scale ≤ precision))) }
    {
        if precision == 0 || precision > 38 || scale > precision {
            return None;
        }
        Some(DecimalType { precision, scale })
    }

    /// The numbers times 10 ^ scale are below this in size.
    pub fn limit(self) -> u128
        ensures value { result ≡ 10 ^ self.precision }
        ensures some { 0 < result }
        ensures small { result ≤ 10 ^ 38 }
    {
        10u128.pow(self.precision as u32)
    }
}

/// What the integers of a column stand for. Their order is that of the values.
#[derive(Clone, Copy, Debug)]
pub enum LogicalType {
    /// Floats of 64 bits: all NaNs are equal and above infinity, and both zeros are one.
    Float64,
    /// Floats of 32 bits, likewise.
    Float32,
    /// Decimal numbers, times 10 ^ scale.
    Decimal(DecimalType),
    /// Days since 1970-01-01.
    Date,
    /// A number of the unit since midnight.
    Time(TimeUnit),
    /// A number of the unit since 1970-01-01T00:00:00, in UTC if the type has a zone.
    Timestamp { unit: TimeUnit, is_zoned: bool },
}

// SPDX-License-Identifier: Apache-2.0
//! The names of logical types, as `decimal(10,2)`, and the types of names.

ghost use Rattle.std.specs.Prelude.{◌≡◌, ◌≢◌, ◌<◌, ◌≤◌, IfNone, IfSome};
ghost use Rattle.logical_types.specs.Names.{decimal_name, name_of, time_name, timestamp_name, zoned_name};
ghost use Rattle.logical_types.specs.declared.logical.DecimalType.{DecimalType};
ghost use Rattle.logical_types.specs.declared.logical.LogicalType.{LogicalType};

use crate::logical::{DecimalType, LogicalType};
use crate::plain::plain_types;
use crate::times::TimeUnit;
use arrayvec::ArrayString;
use itoa::Buffer;

/// The name of a type: `f64`, `f32`, `decimal(10,2)`, `date`, `time(us)`, `timestamp(us)`,
/// `timestamp(us,UTC)`.
pub fn name_of_logical_type(logical: LogicalType) -> ArrayString<17>
    ensures { result.bytes ≡ name_of logical }
{
    let mut name = ArrayString::new();
    match logical {
        LogicalType::Float64 => name.push_str("f64"),
        LogicalType::Float32 => name.push_str("f32"),
        LogicalType::Decimal(decimal) => return decimal_name(decimal),
        LogicalType::Date => name.push_str("date"),
        LogicalType::Time(unit) => name.push_str(time_name(unit)),
        LogicalType::Timestamp {
            unit,
            is_zoned: false,
        } => name.push_str(timestamp_name(unit)),
        LogicalType::Timestamp {
            unit,
            is_zoned: true,
        } => name.push_str(zoned_name(unit)),
    }
    name
}

/// The name of a type of decimals.
fn decimal_name(decimal: DecimalType) -> ArrayString<17>
    ensures { result.bytes ≡ decimal_name decimal }
{
    let mut digits = Buffer::new();
    let mut name = ArrayString::new();
    name.push_str("decimal(");
    name.push_str(digits.format(decimal.precision));
    name.push(',');
    name.push_str(digits.format(decimal.scale));
    name.push(')');
    name
}

fn time_name(unit: TimeUnit) -> &'static str
    ensures { result.now ≡ time_name unit }
{
    match unit {
        TimeUnit::Seconds => "time(s)",
        TimeUnit::Milliseconds => "time(ms)",
        TimeUnit::Microseconds => "time(us)",
        TimeUnit::Nanoseconds => "time(ns)",
    }
}

fn timestamp_name(unit: TimeUnit) -> &'static str
    ensures { result.now ≡ timestamp_name unit }
{
    match unit {
        TimeUnit::Seconds => "timestamp(s)",
        TimeUnit::Milliseconds => "timestamp(ms)",
        TimeUnit::Microseconds => "timestamp(us)",
        TimeUnit::Nanoseconds => "timestamp(ns)",
    }
}

fn zoned_name(unit: TimeUnit) -> &'static str
    ensures { result.now ≡ zoned_name unit }
{
    match unit {
        TimeUnit::Seconds => "timestamp(s,UTC)",
        TimeUnit::Milliseconds => "timestamp(ms,UTC)",
        TimeUnit::Microseconds => "timestamp(us,UTC)",
        TimeUnit::Nanoseconds => "timestamp(ns,UTC)",
    }
}

/// The type of a name. None of any other word.
pub fn logical_type_named(word: &[u8]) -> Option<LogicalType>
    ensures some { IfSome result (λ l. word.now ≡ name_of l) }
    ensures none { IfNone result ((l : LogicalType) → word.now ≢ name_of l) }
{
    for logical in plain_types() {
        if name_of_logical_type(logical).as_bytes() == word {
            return Some(logical);
        }
    }
    match decimal_named(word) {
        Some(decimal) => Some(LogicalType::Decimal(decimal)),
        None => None,
    }
}

/// The type of decimals of a name. None of any other word. A name is read once for a column, so each of
/// the 779 types is tried.
fn decimal_named(word: &[u8]) -> Option<DecimalType>
    ensures some { IfSome result (λ d. word.now ≡ decimal_name d) }
    ensures none { IfNone result ((d : DecimalType) → word.now ≢ decimal_name d) }
{
    for precision in 1..39 {
        match decimal_of_precision(precision, word) {
            Some(decimal) => return Some(decimal),
            None => {}
        }
    }
    None
}

/// The type of decimals of this precision and a name.
fn decimal_of_precision(precision: u8, word: &[u8]) -> Option<DecimalType>
    requires some { 0 < precision }
    requires small { precision ≤ 38 }
    ensures some { IfSome result (λ d. word.now ≡ decimal_name d) }
    ensures none { IfNone result ((d : DecimalType) → d.precision ≡ precision → word.now ≢ decimal_name d) }
{
    for scale in 0..precision + 1 {
        let decimal = DecimalType { precision, scale };
        if decimal_name(decimal).as_bytes() == word {
            return Some(decimal);
        }
    }
    None
}

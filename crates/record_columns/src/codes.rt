//! The kinds that columns of records are written as, by their codes.

ghost use Rattle.std.specs.Prelude.{◌≡◌, Some};
ghost use Rattle.record_columns.specs.Words.{Integer, Logical, Time, Timestamp, format_of, integer_kind_of, kind_at};
ghost use Rattle.record_columns.specs.Words.{kind_of_code, kind_of_column};

use column_items::KindCode;
use logical_types::{LogicalType, TimeUnit};
use record_rows::{ColumnType, Kind};
use vortex_dtype::PType;

/// The code of the kind that a column of records is written as, and of decimals their precision and scale.
pub fn code_of_column(column: ColumnType) -> KindCode
    ensures { kind_of_code result ≡ Some (kind_of_column column) }
{
    match column.kind {
        Kind::Integer(ptype) => plain_code(code_of_integers(ptype)),
        Kind::Utf8 => plain_code(10),
        Kind::Binary | Kind::Bytes => plain_code(12),
        Kind::Logical(logical) => code_of_logical(logical),
    }
}

/// A code of a kind that is not of decimals.
fn plain_code(code: u8) -> KindCode
    ensures { kind_of_code result ≡ kind_at code }
{
    KindCode {
        code,
        precision: 0,
        scale: 0,
    }
}

/// The code of integers of a type.
fn code_of_integers(ptype: PType) -> u8
    ensures { kind_at result ≡ Some (Integer (integer_kind_of ptype)) }
{
    match ptype {
        PType::U8 => 0,
        PType::U16 => 1,
        PType::U32 => 2,
        PType::U64 => 3,
        PType::I8 => 4,
        PType::I16 => 5,
        PType::I32 => 6,
        PType::I64 => 7,
    }
}

/// The code of values of a logical type.
fn code_of_logical(logical: LogicalType) -> KindCode
    ensures { kind_of_code result ≡ Some (Logical (format_of logical)) }
{
    match logical {
        LogicalType::Float32 => plain_code(14),
        LogicalType::Float64 => plain_code(15),
        LogicalType::Date => plain_code(16),
        LogicalType::Time(unit) => plain_code(code_of_times(unit)),
        LogicalType::Timestamp { unit, is_zoned } => {
            plain_code(code_of_timestamps(unit, is_zoned))
        }
        LogicalType::Decimal(decimal) => KindCode {
            code: 31,
            precision: decimal.precision,
            scale: decimal.scale,
        },
    }
}

/// The code of times of day.
fn code_of_times(unit: TimeUnit) -> u8
    ensures { kind_at result ≡ Some (Logical (Time unit)) }
{
    match unit {
        TimeUnit::Seconds => 17,
        TimeUnit::Milliseconds => 18,
        TimeUnit::Microseconds => 19,
        TimeUnit::Nanoseconds => 20,
    }
}

/// The code of timestamps.
fn code_of_timestamps(unit: TimeUnit, is_zoned: bool) -> u8
    ensures { kind_at result ≡ Some (Logical (Timestamp unit is_zoned)) }
{
    match (unit, is_zoned) {
        (TimeUnit::Seconds, false) => 21,
        (TimeUnit::Milliseconds, false) => 22,
        (TimeUnit::Microseconds, false) => 23,
        (TimeUnit::Nanoseconds, false) => 24,
        (TimeUnit::Seconds, true) => 25,
        (TimeUnit::Milliseconds, true) => 26,
        (TimeUnit::Microseconds, true) => 27,
        (TimeUnit::Nanoseconds, true) => 28,
    }
}

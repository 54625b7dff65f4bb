//! The kinds of columns in Arrow's layout that columns of records are written as.

ghost use Rattle.std.specs.Prelude.{◌≡◌};
ghost use Rattle.record_columns.specs.Words.{Nullable, column_type, format_of, integer_kind_of, kind_of_column};
ghost use Rattle.record_columns.specs.Words.{type_of_kind};

use arrow_columns::{DecimalWidth, Format, IntegerKind, Kind};
use logical_types::LogicalType;
use record_rows::ColumnType;
use vortex_dtype::PType;

/// The kind of the column that the cells of a column of records are written as: strings and bytes with offsets of
/// 64 bits, decimals of 128 bits.
pub fn kind_of_column(column: ColumnType) -> Kind
    ensures kind { result ≡ kind_of_column column }
    // Its cells are of the column's type, and each may be null.
    ensures typed { type_of_kind result ≡ column_type (record column { nullability = Nullable }) }
{
    match column.kind {
        record_rows::Kind::Integer(ptype) => Kind::Integer(integer_kind_of(ptype)),
        record_rows::Kind::Utf8 => Kind::LargeUtf8,
        record_rows::Kind::Binary | record_rows::Kind::Bytes => Kind::LargeBinary,
        record_rows::Kind::Logical(logical) => Kind::Logical(format_of(logical)),
    }
}

/// The kind of integers of a type.
fn integer_kind_of(ptype: PType) -> IntegerKind
    ensures { result ≡ integer_kind_of ptype }
{
    match ptype {
        PType::U8 => IntegerKind::U8,
        PType::U16 => IntegerKind::U16,
        PType::U32 => IntegerKind::U32,
        PType::U64 => IntegerKind::U64,
        PType::I8 => IntegerKind::I8,
        PType::I16 => IntegerKind::I16,
        PType::I32 => IntegerKind::I32,
        PType::I64 => IntegerKind::I64,
    }
}

/// The format of the values of a logical type.
fn format_of(logical: LogicalType) -> Format
    ensures { result ≡ format_of logical }
{
    match logical {
        LogicalType::Float64 => Format::Float64,
        LogicalType::Float32 => Format::Float32,
        LogicalType::Decimal(decimal) => Format::Decimal {
            width: DecimalWidth::Bits128,
            precision: decimal.precision,
            scale: decimal.scale,
        },
        LogicalType::Date => Format::Date32,
        LogicalType::Time(unit) => Format::Time(unit),
        LogicalType::Timestamp { unit, is_zoned } => Format::Timestamp { unit, is_zoned },
    }
}

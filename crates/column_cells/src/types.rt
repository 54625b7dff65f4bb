//! The types of columns.

ghost use Rattle.std.specs.Prelude.{◌≡◌, ◌↔◌, IfErr, IsTrue};
ghost use Rattle.column_cells.specs.Words.{GivesOrNoMemory, HasLogicalType, HasParts, IsExtensionOver, IsLogical};
ghost use Rattle.column_cells.specs.Words.{Nullable, Same, decimal_storage, decimal_tree, ext_of, logical_tree};
ghost use Rattle.column_cells.specs.Words.{ptype_of_kind};
ghost use Rattle.column_cells.specs.Words.{storage_of_format, storage_tree};
ghost use Rattle.column_cells.specs.Words.{type_of, type_of_format, type_of_kind, type_of_rows};

use arrow_columns::{Format, IntegerKind, Kind, Rows};
use logical_scalars::dtype_of_logical_type;
use logical_types::{
    LogicalType, StorageType, TimeUnit, extension_id, extension_metadata, storage_type,
};
use std::alloc::Global;
use vortex_dtype::{BufferString, ByteBuffer, DType, ExtDType, Nullability, PType, VortexError};

/// The integer type of a kind of integers.
pub fn ptype_of(kind: IntegerKind) -> PType
    ensures { result ≡ ptype_of_kind kind }
{
    match kind {
        IntegerKind::U8 => PType::U8,
        IntegerKind::U16 => PType::U16,
        IntegerKind::U32 => PType::U32,
        IntegerKind::U64 => PType::U64,
        IntegerKind::I8 => PType::I8,
        IntegerKind::I16 => PType::I16,
        IntegerKind::I32 => PType::I32,
        IntegerKind::I64 => PType::I64,
    }
}

/// The type of the cells of a column of this kind. Each takes a null.
///
/// `OutOfMemory` only for a logical type.
pub fn dtype_of(alloc: Global, kind: Kind) -> Result<DType, VortexError>
    ensures made { GivesOrNoMemory (λ dtype. type_of dtype ≡ type_of_kind kind) result }
    ensures refused { IfErr result (λ _. IsLogical kind) }
{
    Ok(match kind {
        Kind::Integer(kind) => DType::Primitive(ptype_of(kind), Nullability::Nullable),
        Kind::Boolean => DType::Bool(Nullability::Nullable),
        Kind::Utf8 | Kind::LargeUtf8 => DType::Utf8(Nullability::Nullable),
        Kind::Binary | Kind::LargeBinary => DType::Binary(Nullability::Nullable),
        Kind::Null => DType::Null,
        Kind::Logical(format) => return dtype_of_format(alloc, format),
    })
}

/// The type of the cells of a column.
///
/// `OutOfMemory` only for a logical type.
pub fn dtype_of_rows(alloc: Global, rows: &Rows) -> Result<DType, VortexError>
    ensures made { GivesOrNoMemory (λ dtype. type_of dtype ≡ type_of_rows rows.now) result }
    ensures refused { IfErr result (λ _. HasLogicalType rows.now) }
{
    Ok(match rows {
        Rows::Integers(rows) => DType::Primitive(ptype_of(rows.kind), Nullability::Nullable),
        Rows::Booleans(_) => DType::Bool(Nullability::Nullable),
        Rows::Strings(_) => DType::Utf8(Nullability::Nullable),
        Rows::Bytes(_) => DType::Binary(Nullability::Nullable),
        Rows::Nulls(_) => DType::Null,
        Rows::Values(rows) => return dtype_of_format(alloc, rows.format),
    })
}

/// Whether a type is that of the cells of a column, up to nullability. It makes no type, and so takes no
/// memory.
pub fn is_type_of_rows(rows: &Rows, dtype: &DType) -> bool
    ensures { IsTrue result ↔ Same (type_of_rows rows.now) (type_of dtype.now) }
{
    match rows {
        Rows::Integers(rows) => {
            let own = DType::Primitive(ptype_of(rows.kind), Nullability::Nullable);
            own.eq_ignore_nullability(dtype)
        }
        Rows::Booleans(_) => DType::Bool(Nullability::Nullable).eq_ignore_nullability(dtype),
        Rows::Strings(_) => DType::Utf8(Nullability::Nullable).eq_ignore_nullability(dtype),
        Rows::Bytes(_) => DType::Binary(Nullability::Nullable).eq_ignore_nullability(dtype),
        Rows::Nulls(_) => DType::Null.eq_ignore_nullability(dtype),
        Rows::Values(rows) => is_type_of_format(rows.format, dtype),
    }
}

/// The type of the cells of a column of a format. A zone has the name `UTC`, since timestamps count in it.
pub fn dtype_of_format(alloc: Global, format: Format) -> Result<DType, VortexError>
    ensures { GivesOrNoMemory (λ dtype. type_of dtype ≡ type_of_format format) result }
{
    let logical = match format {
        Format::Float32 => LogicalType::Float32,
        Format::Float64 => LogicalType::Float64,
        Format::Date32 => LogicalType::Date,
        Format::Time(unit) => LogicalType::Time(unit),
        Format::Timestamp { unit, is_zoned } => LogicalType::Timestamp { unit, is_zoned },
        Format::Decimal {
            precision,
            scale,
            ..
        } => return dtype_of_decimals(alloc, precision, scale),
    };
    dtype_of_logical_type(alloc, logical, Nullability::Nullable)
}

/// Whether a type is that of the cells of a column of a format, up to nullability.
fn is_type_of_format(format: Format, dtype: &DType) -> bool
    ensures { IsTrue result ↔ Same (type_of_format format) (type_of dtype.now) }
{
    match format {
        Format::Float32 => is_type_of_logical(LogicalType::Float32, dtype),
        Format::Float64 => is_type_of_logical(LogicalType::Float64, dtype),
        Format::Date32 => is_type_of_logical(LogicalType::Date, dtype),
        Format::Time(unit) => is_type_of_logical(LogicalType::Time(unit), dtype),
        Format::Timestamp { unit, is_zoned } => {
            is_type_of_logical(LogicalType::Timestamp { unit, is_zoned }, dtype)
        }
        Format::Decimal {
            precision,
            scale,
            ..
        } => is_type_of_decimals(precision, scale, dtype),
    }
}

/// Whether a type is that of a logical type, up to nullability. A zone has the name `UTC`.
fn is_type_of_logical(logical: LogicalType, dtype: &DType) -> bool
    ensures { IsTrue result ↔ Same (logical_tree logical Nullable) (type_of dtype.now) }
{
    let metadata = extension_metadata(logical);
    is_extension(
        extension_id(logical),
        metadata.as_slice(),
        storage_type(logical),
        dtype,
    )
}

/// Whether a type is that of decimals of so many digits, so many of them behind the point, up to nullability.
fn is_type_of_decimals(precision: u8, scale: u8, dtype: &DType) -> bool
    ensures { IsTrue result ↔ Same (decimal_tree precision scale) (type_of dtype.now) }
{
    let metadata = [precision, scale];
    is_extension(
        "doqallin.decimal",
        &metadata,
        decimal_storage(precision),
        dtype,
    )
}

/// Whether a type is an extension with this id and these metadata, over storages of this type up to
/// nullability.
fn is_extension(id: &str, metadata: &[u8], storage: StorageType, dtype: &DType) -> bool
    ensures { IsTrue result ↔ IsExtensionOver id.now metadata.now storage (type_of dtype.now) }
{
    let DType::Extension(extension) = dtype else {
        return false;
    };
    has_parts(id, metadata, storage, extension)
}

/// Whether an extension has this id, these metadata, and storages of this type up to nullability.
fn has_parts(id: &str, metadata: &[u8], storage: StorageType, extension: &ExtDType) -> bool
    ensures { IsTrue result ↔ HasParts id.now metadata.now storage (ext_of extension.now) }
{
    extension.id().as_str() == id
        && extension.metadata().as_slice() == metadata
        && is_storage(storage, extension.storage_dtype())
}

/// Whether a type is that of storages, up to nullability.
fn is_storage(storage: StorageType, dtype: &DType) -> bool
    ensures { IsTrue result ↔ Same (storage_tree storage Nullable) (type_of dtype.now) }
{
    dtype_of_storage(storage).eq_ignore_nullability(dtype)
}

/// The type of decimals of so many digits, so many of them behind the point.
fn dtype_of_decimals(alloc: Global, precision: u8, scale: u8) -> Result<DType, VortexError>
    ensures { GivesOrNoMemory (λ dtype. type_of dtype ≡ decimal_tree precision scale) result }
{
    let id = BufferString::from_str(alloc, "doqallin.decimal")?;
    let metadata = ByteBuffer::from_slice(alloc, &[precision, scale])?;
    let storage = dtype_of_storage(decimal_storage(precision));
    Ok(DType::Extension(ExtDType::new(alloc, id, metadata, storage)?))
}

/// The type of what stores values.
fn dtype_of_storage(storage: StorageType) -> DType
    ensures { type_of result ≡ storage_tree storage Nullable }
{
    match storage {
        StorageType::I32 => DType::Primitive(PType::I32, Nullability::Nullable),
        StorageType::I64 => DType::Primitive(PType::I64, Nullability::Nullable),
        StorageType::Bytes => DType::Binary(Nullability::Nullable),
    }
}

/// What stores the values of a format.
pub(crate) fn storage_of_format(format: Format) -> StorageType
    ensures { result ≡ storage_of_format format }
{
    match format {
        Format::Float32 | Format::Date32 => StorageType::I32,
        Format::Float64 | Format::Timestamp { .. } => StorageType::I64,
        Format::Time(TimeUnit::Seconds | TimeUnit::Milliseconds) => StorageType::I32,
        Format::Time(TimeUnit::Microseconds | TimeUnit::Nanoseconds) => StorageType::I64,
        Format::Decimal { precision, .. } => decimal_storage(precision),
    }
}

/// What stores decimals of so many digits.
fn decimal_storage(precision: u8) -> StorageType
    ensures { result ≡ decimal_storage precision }
{
    if precision <= 18 {
        StorageType::I64
    } else {
        StorageType::Bytes
    }
}

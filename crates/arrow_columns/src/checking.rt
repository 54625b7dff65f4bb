//! Whether a column can be read.

ghost use Rattle.std.specs.Prelude.{◌≡◌, ◌<◌, ◌≤◌, IfErr, IfOk, MatchOption};
ghost use Rattle.arrow_columns.specs.Words.{AreRowsOf, AreTextRows, HasRows, IsBooleanError, IsByteColumn};
ghost use Rattle.arrow_columns.specs.Words.{IsByteError, IsErrorOf, IsIntegerError, IsItemError, IsRowsError};
ghost use Rattle.arrow_columns.specs.Words.{IsStringError, IsTextRow, bytes_of_offset, end_of, width_of};
ghost use Rattle.arrow_columns.specs.Words.{AreValuesBefore, IsLogicalError, IsLogicalTypeOf, IsSound, IsValueRow};
ghost use Rattle.arrow_columns.specs.Words.{items_of};
ghost use Rattle.arrow_columns.specs.Words.{width_of_item, with_start};

use crate::bitmaps::bitmap_length;
use crate::byte_items::{first_bad, first_not_utf8};
use crate::columns::Column;
use crate::errors::{Buffer, ColumnError};
use crate::formats::Format;
use crate::kinds::{IntegerKind, ItemKind, Kind};
use crate::offset_width::OffsetWidth;
use crate::offsets::Offset;
use crate::tested_rows::{BooleanRows, ByteRows, IntegerRows, ItemRows, LogicalRows, Rows};
use logical_types::{LogicalType, storages_of};

impl IntegerKind {
    /// How many bytes an integer of the kind has.
    pub fn width(self) -> usize
        ensures { result ≡ width_of self }
    {
        match self {
            IntegerKind::U8 | IntegerKind::I8 => 1,
            IntegerKind::U16 | IntegerKind::I16 => 2,
            IntegerKind::U32 | IntegerKind::I32 => 4,
            IntegerKind::U64 | IntegerKind::I64 => 8,
        }
    }
}

impl ItemKind {
    /// How many bytes an item of the kind has.
    pub fn width(self) -> usize
        ensures { result ≡ width_of_item self }
    {
        match self {
            ItemKind::Integer(kind) => kind.width(),
            ItemKind::F32 => 4,
            ItemKind::F64 => 8,
            ItemKind::I128 => 16,
        }
    }
}

/// Where the rows end in the buffers, if the bitmap of validity has a bit for each.
fn end_of_rows(column: Column) -> Result<usize, ColumnError>
    ensures rows { IfOk result (λ end. (end ≡ end_of column.entry) × HasRows column.entry) }
    ensures fault { IfErr result (λ fault. IsRowsError column.entry fault) }
{
    let Some(end) = column.offset.checked_add(column.length) else {
        return Err(ColumnError::TooManyRows);
    };
    if !column.validity.is_empty() && column.validity.len() < bitmap_length(end) {
        return Err(ColumnError::TooShort(Buffer::Validity));
    }
    Ok(end)
}

/// The rows of a column of integers.
fn integer_rows(kind: IntegerKind, column: Column) -> Result<IntegerRows, ColumnError>
    ensures rows { IfOk result (λ rows. (rows.kind ≡ kind) × (rows.column ≡ column.entry)) }
    ensures fault { IfErr result (λ fault. IsIntegerError kind column.entry fault) }
{
    let end = end_of_rows(column)?;
    if column.values.len() / kind.width() < end {
        return Err(ColumnError::TooShort(Buffer::Values));
    }
    Ok(IntegerRows { kind, column })
}

/// The rows of a column of items of any kind.
pub(crate) fn item_rows(kind: ItemKind, column: Column) -> Result<ItemRows, ColumnError>
    ensures rows { IfOk result (λ rows. (rows.kind ≡ kind) × (rows.column ≡ column.entry)) }
    ensures fault { IfErr result (λ fault. IsItemError kind column.entry fault) }
{
    let end = end_of_rows(column)?;
    if column.values.len() / kind.width() < end {
        return Err(ColumnError::TooShort(Buffer::Values));
    }
    Ok(ItemRows { kind, column })
}

/// The first row whose number is of no value. Each float is one.
fn first_bad_value(format: Format, logical: LogicalType, rows: ItemRows) -> Option<usize>
    requires logical { IsLogicalTypeOf format logical }
    requires items { rows.kind ≡ items_of format }
    ensures { MatchOption result (AreValuesBefore format rows.entry.column rows.entry.column.length)
        (λ row. (row < rows.entry.column.length) × AreValuesBefore format rows.entry.column row
        × ¬ (IsValueRow format rows.entry.column row)) }
{
    match format {
        Format::Float32 | Format::Float64 => None,
        _ => {
            let (least, greatest) = storages_of(logical);
            rows.first_outside(least, greatest)
        }
    }
}

/// The rows of a column of a logical type.
fn logical_rows(format: Format, column: Column) -> Result<LogicalRows, ColumnError>
    ensures rows { IfOk result (λ rows. (rows.format ≡ format) × (rows.column ≡ column.entry)) }
    ensures values { IfOk result (λ _. IsSound format
        × AreValuesBefore format column.entry column.entry.length) }
    ensures fault { IfErr result (λ fault. IsLogicalError format column.entry fault) }
{
    let Some(logical) = format.logical_type() else {
        return Err(ColumnError::UnknownKind);
    };
    let rows = item_rows(format.items(), column)?;
    match first_bad_value(format, logical, rows) {
        Some(row) => Err(ColumnError::NotAValue(row)),
        None => Ok(LogicalRows { format, column }),
    }
}

/// The rows of a column of booleans.
fn boolean_rows(column: Column) -> Result<BooleanRows, ColumnError>
    ensures rows { IfOk result (λ rows. rows.column ≡ column.entry) }
    ensures fault { IfErr result (λ fault. IsBooleanError column.entry fault) }
{
    let end = end_of_rows(column)?;
    if column.values.len() < bitmap_length(end) {
        return Err(ColumnError::TooShort(Buffer::Values));
    }
    Ok(BooleanRows { column })
}

/// Whether a column of strings or bytes, of offsets of N bytes, can be read.
fn test_offsets<const N: usize, T: Offset<N>>(column: Column) -> Result<(), ColumnError>
    requires narrow { N ≤ 8 }
    requires width { N ≡ bytes_of_offset T.width }
    requires some { 0 < N }
    ensures column { IfOk result (λ _. IsByteColumn T.width column.entry) }
    ensures fault { IfErr result (λ fault. IsByteError T.width column.entry fault) }
{
    let end = end_of_rows(column)?;
    if column.length == 0 {
        return Ok(());
    }
    let (offsets, _) = column.offsets.as_chunks::<N>();
    if offsets.len() <= end {
        return Err(ColumnError::TooShort(Buffer::Offsets));
    }
    match first_bad::<N, T>(column.values, offsets, column.offset, end) {
        Some(i) => Err(ColumnError::BadOffsets(i - column.offset)),
        None => Ok(()),
    }
}

/// The rows of a column of bytes.
fn byte_rows(width: OffsetWidth, column: Column) -> Result<ByteRows, ColumnError>
    ensures rows { IfOk result (λ rows. (rows.width ≡ width) × (rows.column ≡ column.entry)) }
    ensures fault { IfErr result (λ fault. IsByteError width column.entry fault) }
{
    match width {
        OffsetWidth::Bits32 => test_offsets::<4, u32>(column)?,
        OffsetWidth::Bits64 => test_offsets::<8, u64>(column)?,
    }
    Ok(ByteRows { width, column })
}

/// The first row that is no UTF-8, of a column of bytes with offsets of N bytes.
fn first_bad_text<const N: usize, T: Offset<N>>(column: Column) -> Option<usize>
    requires narrow { N ≤ 8 }
    requires width { N ≡ bytes_of_offset T.width }
    requires some { 0 < N }
    requires column { IsByteColumn T.width column }
    ensures { MatchOption result (AreTextRows T.width column.entry column.entry.length)
        (λ row. (row < column.entry.length) × AreTextRows T.width column.entry row
        × ¬ (IsTextRow T.width column.entry row)) }
{
    if column.length == 0 {
        return None;
    }
    let (offsets, _) = column.offsets.as_chunks::<N>();
    let end = column.offset + column.length;
    match first_not_utf8::<N, T>(column.validity, column.values, offsets, column.offset, end) {
        Some(i) => Some(i - column.offset),
        None => None,
    }
}

/// The first row that is no UTF-8.
fn first_bad_string(rows: ByteRows) -> Option<usize>
    ensures { MatchOption result (AreTextRows rows.entry.width rows.entry.column rows.entry.column.length)
        (λ row. (row < rows.entry.column.length) × AreTextRows rows.entry.width rows.entry.column row
        × ¬ (IsTextRow rows.entry.width rows.entry.column row)) }
{
    match rows.width {
        OffsetWidth::Bits32 => first_bad_text::<4, u32>(rows.column),
        OffsetWidth::Bits64 => first_bad_text::<8, u64>(rows.column),
    }
}

/// The rows of a column of strings.
fn string_rows(width: OffsetWidth, column: Column) -> Result<ByteRows, ColumnError>
    ensures rows { IfOk result (λ rows. (rows.width ≡ width) × (rows.column ≡ column.entry)) }
    ensures text { IfOk result (λ rows. AreTextRows width column.entry column.entry.length) }
    ensures fault { IfErr result (λ fault. IsStringError width column.entry fault) }
{
    let rows = byte_rows(width, column)?;
    match first_bad_string(rows) {
        Some(row) => Err(ColumnError::NotUtf8(row)),
        None => Ok(rows),
    }
}

impl<'a> Column<'a> {
    /// The same rows. A column without any begins with its buffers, whatever it says of itself.
    fn with_start(self) -> Column<'a>
        ensures { result ≡ with_start self.entry }
    {
        if self.length == 0 {
            return Column { offset: 0, ..self };
        }
        self
    }

    /// The rows of the column, or why it cannot be read. A column without rows may have any offset,
    /// and no bytes in its buffers.
    pub fn check(self) -> Result<Rows<'a>, ColumnError>
        ensures rows { IfOk result (λ rows. AreRowsOf self.entry rows) }
        ensures fault { IfErr result (λ fault. IsErrorOf self.entry fault) }
    {
        let Some(kind) = Kind::with_code(self.kind, self.precision, self.scale) else {
            return Err(ColumnError::UnknownKind);
        };
        let column = self.with_start();
        match kind {
            Kind::Integer(kind) => Ok(Rows::Integers(integer_rows(kind, column)?)),
            Kind::Boolean => Ok(Rows::Booleans(boolean_rows(column)?)),
            Kind::Utf8 => Ok(Rows::Strings(string_rows(OffsetWidth::Bits32, column)?)),
            Kind::LargeUtf8 => Ok(Rows::Strings(string_rows(OffsetWidth::Bits64, column)?)),
            Kind::Binary => Ok(Rows::Bytes(byte_rows(OffsetWidth::Bits32, column)?)),
            Kind::LargeBinary => Ok(Rows::Bytes(byte_rows(OffsetWidth::Bits64, column)?)),
            Kind::Null => Ok(Rows::Nulls(self.length)),
            Kind::Logical(format) => Ok(Rows::Values(logical_rows(format, column)?)),
        }
    }
}

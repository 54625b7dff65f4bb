//! The value of a row of a column.

ghost use Rattle.std.specs.Prelude.{◌≡◌, ◌<◌, IfSome, IsUtf8, length, slice_index_or};
ghost use Rattle.std.specs.Option.{option_copied};
ghost use Rattle.column_keys.specs.Words.{HasTexts, IsValueOf, IsWhole, cell_content, content_or_null};
ghost use Rattle.column_keys.specs.Words.{contents_of_rows, null, plain_content, stored_content, string, text};
ghost use Rattle.column_keys.specs.Words.{truth, whole};

use arrow_columns::{Format, Rows, items_are_bytes};
use column_items::is_wide;
use logical_types::bytes_of_decimal;
use std::str;
use vortex_row::PlainValue;

/// An integer of 64 bits.
#[inline(always)]
fn integer_value(cell: Option<i128>) -> PlainValue<'static>
    requires { IfSome cell IsWhole }
    ensures { plain_content result ≡ content_or_null whole cell }
{
    match cell {
        Some(number) if number < 0 => PlainValue::Signed(number as i64),
        Some(number) => PlainValue::Unsigned(number as u64),
        None => PlainValue::Null,
    }
}

/// A truth value.
#[inline(always)]
fn bool_value(cell: Option<bool>) -> PlainValue<'static>
    ensures { plain_content result ≡ content_or_null truth cell }
{
    match cell {
        Some(value) => PlainValue::Bool(value),
        None => PlainValue::Null,
    }
}

/// A string.
#[inline(always)]
fn text_value(cell: Option<&[u8]>) -> PlainValue<'_>
    requires { IfSome (option_copied cell) (λ bytes. IsUtf8 bytes) }
    ensures { plain_content result ≡ content_or_null text (option_copied cell.entry) }
{
    match cell {
        Some(bytes) => PlainValue::Utf8(unsafe { str::from_utf8_unchecked(bytes) }),
        None => PlainValue::Null,
    }
}

/// Bytes.
#[inline(always)]
fn byte_value(cell: Option<&[u8]>) -> PlainValue<'_>
    ensures { plain_content result ≡ content_or_null string (option_copied cell.entry) }
{
    match cell {
        Some(bytes) => PlainValue::Binary(bytes),
        None => PlainValue::Null,
    }
}

/// A cell as its key wants it.
#[derive(Clone, Copy)]
pub(crate) enum CellValue<'a> {
    /// A value that the column lends, or a number.
    Plain(PlainValue<'a>),
    /// A decimal of more than 18 digits, by the 16 bytes that store it.
    Wide([u8; 16]),
}

impl CellValue<'_> {
    /// The cell as a plain value.
    #[inline(always)]
    pub(crate) fn plain(&self) -> PlainValue<'_>
        ensures { plain_content result ≡ cell_content self.now }
    {
        match self {
            CellValue::Plain(value) => *value,
            CellValue::Wide(bytes) => PlainValue::Binary(bytes),
        }
    }
}

/// A value of a format: by what stores it.
#[inline(always)]
fn logical_value(format: Format, cell: Option<i128>) -> CellValue<'static>
    requires { IfSome cell (IsValueOf format) }
    ensures { cell_content result ≡ content_or_null (stored_content format) cell }
{
    let Some(number) = cell else {
        return CellValue::Plain(PlainValue::Null);
    };
    if is_wide(format) {
        CellValue::Wide(bytes_of_decimal(number))
    } else {
        CellValue::Plain(integer_value(Some(number)))
    }
}

/// The value of a row.
#[inline(always)]
#[tactic(auto, using(crate::proofs::ValueSteps::shown))]
pub(crate) fn value_at<'a>(rows: &Rows<'a>, row: usize) -> CellValue<'a>
    requires row { row < length (contents_of_rows rows.now) }
    requires texts { HasTexts rows.now }
    ensures { cell_content result ≡ slice_index_or (contents_of_rows rows.now) row null }
{
    match rows {
        Rows::Integers(rows) => {
            items_are_bytes(rows.column.values);
            CellValue::Plain(integer_value(rows.integer_at(row)))
        }
        Rows::Booleans(rows) => CellValue::Plain(bool_value(rows.bool_at(row))),
        Rows::Strings(rows) => CellValue::Plain(text_value(rows.bytes_at(row))),
        Rows::Bytes(rows) => CellValue::Plain(byte_value(rows.bytes_at(row))),
        Rows::Nulls(_) => CellValue::Plain(PlainValue::Null),
        Rows::Values(rows) => logical_value(rows.format, rows.numbers().number_at(row)),
    }
}

//! The cells of a column, as raw values and as scalars.

ghost use Rattle.std.specs.Prelude.{◌≡◌, ◌<◌, IfErr, IfOk, IsSomeAnd, Some, length, slice_get};
ghost use Rattle.column_cells.specs.Words.{HasLogicalType, HasTexts, IsLongContent, IsValid, OutOfMemory, TakesMemory};
ghost use Rattle.column_cells.specs.Words.{Valid, content, contents_of_rows, raw_of, scalar_content, scalar_type};
ghost use Rattle.column_cells.specs.Words.{type_of_rows};

use crate::types::dtype_of_rows;
use crate::values::{bool_value, byte_value, integer_value, stored_value, text_value};
use arrow_columns::{Rows, items_are_bytes};
use std::alloc::Global;
use vortex_dtype::VortexError;
use vortex_value::{Scalar, ScalarValue};

/// How many rows the column has.
pub fn row_count(rows: &Rows) -> usize
    ensures { result ≡ length (contents_of_rows rows.now) }
{
    match rows {
        Rows::Integers(rows) => rows.column.length,
        Rows::Booleans(rows) => rows.column.length,
        Rows::Strings(rows) => rows.column.length,
        Rows::Bytes(rows) => rows.column.length,
        Rows::Nulls(count) => *count,
        Rows::Values(rows) => rows.column.length,
    }
}

/// The raw value of a row, of the column's type. Put into a scalar of that type in place of another
/// row's, it makes no type anew.
///
/// `OutOfMemory` only for a string, or bytes, of more than 22 bytes.
pub fn value_at(alloc: Global, rows: &Rows, row: usize) -> Result<Option<ScalarValue>, VortexError>
    requires row { row < length (contents_of_rows rows.now) }
    requires texts { HasTexts rows.now }
    ensures content { IfOk result (λ v. slice_get (contents_of_rows rows.now) row ≡ Some (content (raw_of v))) }
    ensures valid { IfOk result (λ v. Valid (type_of_rows rows.now) (raw_of v)) }
    ensures refused { IfErr result
        (λ e. (e ≡ OutOfMemory) × IsSomeAnd (slice_get (contents_of_rows rows.now) row) IsLongContent) }
{
    match rows {
        Rows::Integers(rows) => {
            items_are_bytes(rows.column.values);
            Ok(integer_value(rows.kind, rows.integer_at(row)))
        }
        Rows::Booleans(rows) => Ok(bool_value(rows.bool_at(row))),
        Rows::Strings(rows) => text_value(alloc, rows.bytes_at(row)),
        Rows::Bytes(rows) => byte_value(alloc, rows.bytes_at(row)),
        Rows::Nulls(_) => Ok(None),
        Rows::Values(rows) => {
            let number = rows.numbers().number_at(row);
            Ok(stored_value(alloc, rows.format, number))
        }
    }
}

/// A null of the column's type, in which `value_at` has its place.
///
/// `OutOfMemory` only for a column of a logical type.
pub fn null_of_rows(alloc: Global, rows: &Rows) -> Result<Scalar, VortexError>
    ensures typed { IfOk result (λ x. scalar_type x ≡ type_of_rows rows.now) }
    ensures valid { IfOk result IsValid }
    ensures refused { IfErr result (λ e. (e ≡ OutOfMemory) × HasLogicalType rows.now) }
{
    let dtype = dtype_of_rows(alloc, rows)?;
    Ok(Scalar { dtype, value: None })
}

/// The scalar of a row.
///
/// `OutOfMemory` only for a string, or bytes, of more than 22 bytes, and for a column of a logical type.
pub fn scalar_at(alloc: Global, rows: &Rows, row: usize) -> Result<Scalar, VortexError>
    requires row { row < length (contents_of_rows rows.now) }
    requires texts { HasTexts rows.now }
    ensures typed { IfOk result (λ x. scalar_type x ≡ type_of_rows rows.now) }
    ensures content { IfOk result (λ x. slice_get (contents_of_rows rows.now) row ≡ Some (scalar_content x)) }
    ensures valid { IfOk result IsValid }
    ensures refused { IfErr result
        (λ e. (e ≡ OutOfMemory) × IsSomeAnd (slice_get (contents_of_rows rows.now) row) (TakesMemory rows.now)) }
{
    let dtype = dtype_of_rows(alloc, rows)?;
    Scalar::with_value(dtype, value_at(alloc, rows, row))
}

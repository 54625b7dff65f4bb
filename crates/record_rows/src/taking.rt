//! What a column takes of a field.

ghost use Rattle.std.specs.Prelude.{◌≡◌, ◌+◌, ◌-◌, ◌<◌, ◌^◌, IfErr, IfOk, None, false, true};
ghost use Rattle.std.specs.Prelude.{if◌then◌else◌};
ghost use Rattle.vortex_dtype.specs.declared.types.DType.TheVariants.{Null};
ghost use Rattle.vortex_dtype.specs.declared.nullability.Nullability.TheVariants.{Nullable};
ghost use Rattle.record_rows.specs.Rows.{IsStrict, IsTaken, IsTested, IsWordError, RefusesWord};
ghost use Rattle.record_rows.specs.Walks.{field_of};

use crate::cells::{is_taken, put_cell, put_null};
use crate::errors::RowReadError;
use crate::fields::ColumnField;
use crate::schema::{ColumnType, FieldReading};
use std::alloc::Global;
use vortex_dtype::{DType, Nullability};
use vortex_value::Scalar;

/// Puts the cell of a field at this place, or a null for it, and says whether it is such a null.
#[inline(always)]
pub(crate) fn take_field(
    alloc: Global,
    reading: &FieldReading,
    field: &ColumnField<'_>,
    cell: &mut Scalar,
) -> Result<bool, RowReadError>
    ensures taken { IfOk result (IsTaken reading.now field.now.column (field_of field.now) cell.new) }
    ensures refused { IfErr result (RefusesWord reading.now field.now.column field.now.place (field_of field.now)) }
{
    let is_taken = put_cell(
        alloc,
        reading,
        field.column,
        field.word,
        field.is_quoted,
        cell,
    )?;
    if is_taken {
        Ok(false)
    } else if may_be_null(reading, field.column) {
        put_null(alloc, field.column, cell)?;
        Ok(true)
    } else {
        Err(word_fault(alloc, field.place, field.word))
    }
}

/// A scalar that stands where a cell is to be put.
#[inline(always)]
pub(crate) fn no_cell() -> Scalar
    ensures { result ≡ record { dtype = Null; value = None } }
{
    Scalar {
        dtype: DType::Null,
        value: None,
    }
}

/// Whether a null is to stand in place of the cell of a field.
#[inline(always)]
pub(crate) fn test_field(
    alloc: Global,
    reading: &FieldReading,
    field: &ColumnField<'_>,
) -> Result<bool, RowReadError>
    ensures tested { IfOk result (IsTested reading.now field.now.column (field_of field.now)) }
    ensures refused { IfErr result (RefusesWord reading.now field.now.column field.now.place (field_of field.now)) }
{
    if is_taken(alloc, reading, field.column, field.word, field.is_quoted)? {
        Ok(false)
    } else if may_be_null(reading, field.column) {
        Ok(true)
    } else {
        Err(word_fault(alloc, field.place, field.word))
    }
}

/// Whether a null may stand in place of a cell.
fn may_be_null(reading: &FieldReading, column: ColumnType) -> bool
    ensures asked { result ≡ true → reading.now.is_lenient ≡ true }
    ensures takes { result ≡ true → column.nullability ≡ Nullable }
    ensures strict { result ≡ false → IsStrict reading.now column }
{
    match column.nullability {
        Nullability::Nullable => reading.is_lenient(),
        Nullability::NonNullable => false,
    }
}

/// The error of a word that its column does not take.
#[inline(never)]
fn word_fault(alloc: Global, place: usize, word: &[u8]) -> RowReadError
    ensures { IsWordError place word.now result }
{
    match Vec::from_slice(alloc, word) {
        Ok(word) => RowReadError::Word {
            column: place,
            word,
        },
        Err(_) => RowReadError::Memory,
    }
}

/// One more, if that is so.
pub(crate) fn one_more(count: usize, flag: bool) -> usize
    requires { count < 2 ^ 64 - 1 }
    ensures { result ≡ count + (if flag then 1 else 0) }
{
    if flag { count + 1 } else { count }
}

//! A field is the cell of its column.

ghost use Rattle.std.specs.Prelude.{◌≡◌, ℕ, ℤ, List, IfOk, IsUtf8, MatchBool, OnOk};
ghost use Rattle.hex.specs.Hex.{decode_of};
ghost use Rattle.logical_types.specs.Words.{Writes};
ghost use Rattle.vortex_dtype.specs.declared.nullability.Nullability.TheVariants.{Nullable};
ghost use Rattle.vortex_value.specs.Values.Content.{null};
ghost use Rattle.vortex_value.specs.Values.Scalars.{IsValid, scalar_content, scalar_type};
ghost use Rattle.record_rows.specs.Cells.{HasCell, HasMeaning, HasNoCell, HasNoMeaning, HasNoValue, IsBinaryCell};
ghost use Rattle.record_rows.specs.Cells.{IsBytesCell, IsCell, IsIntegerCell, IsLogicalCell, IsTextCell};
ghost use Rattle.record_rows.specs.Cells.{IsValueCell, column_type};
ghost use Rattle.record_rows.specs.Readings.{is_null_field};
ghost use Rattle.record_rows.specs.Words.{IsIntegerWord};

use crate::ascii::is_text;
use crate::schema::{ColumnType, FieldReading, Kind, dtype_of};
use crate::words::{integer_of, is_integer};
use hex::{FromHexError, decode};
use logical_scalars::scalar_of_word;
use logical_types::{LogicalType, storage_of_word};
use std::alloc::{AllocError, Global};
use vortex_dtype::{ByteBuffer, Nullability, PType};
use vortex_value::Scalar;

/// Puts the cell that a field is at this place, and says whether its column takes it.
#[inline(never)]
pub(crate) fn put_cell(
    alloc: Global,
    reading: &FieldReading,
    column: ColumnType,
    word: &[u8],
    is_quoted: bool,
    cell: &mut Scalar,
) -> Result<bool, AllocError>
    ensures { IfOk result (λ taken. MatchBool taken
        (IsCell reading.now column (record { text = word.now; is_quoted = is_quoted }) cell.new)
        (HasNoCell reading.now column (record { text = word.now; is_quoted = is_quoted }))) }
{
    if is_null(reading, column.nullability, word, is_quoted) {
        put_null(alloc, column, cell)?;
        return Ok(true);
    }
    put_value(alloc, column, word, cell)
}

/// Whether its column takes a field.
#[inline(always)]
pub(crate) fn is_taken(
    alloc: Global,
    reading: &FieldReading,
    column: ColumnType,
    word: &[u8],
    is_quoted: bool,
) -> Result<bool, AllocError>
    ensures { IfOk result (λ taken. MatchBool taken
        (HasCell reading.now column (record { text = word.now; is_quoted = is_quoted }))
        (HasNoCell reading.now column (record { text = word.now; is_quoted = is_quoted }))) }
{
    if is_null(reading, column.nullability, word, is_quoted) {
        return Ok(true);
    }
    has_meaning(alloc, column.kind, word)
}

/// Whether a word is a value of this kind.
#[inline(always)]
fn has_meaning(alloc: Global, kind: Kind, word: &[u8]) -> Result<bool, AllocError>
    ensures { IfOk result (λ has. MatchBool has (HasMeaning kind word.now) (HasNoMeaning kind word.now)) }
{
    match kind {
        Kind::Integer(ptype) => Ok(is_integer(word, ptype)),
        Kind::Utf8 => Ok(is_text(word)),
        Kind::Binary => is_hexadecimal(alloc, word),
        Kind::Bytes => Ok(true),
        Kind::Logical(logical) => Ok(is_written(logical, word)),
    }
}

/// Whether a word writes a value of a logical type.
#[inline(never)]
fn is_written(logical: LogicalType, word: &[u8]) -> bool
    ensures { MatchBool result ((z : ℤ) × Writes logical word.now z) ((z : ℤ) → ¬ (Writes logical word.now z)) }
{
    match storage_of_word(logical, word) {
        Some(_) => true,
        None => false,
    }
}

/// Whether a word is hexadecimal digits, two for a byte.
#[inline(never)]
fn is_hexadecimal(alloc: Global, word: &[u8]) -> Result<bool, AllocError>
    ensures { IfOk result (λ is. MatchBool is ((bytes : List ℕ) × (decode_of word.now ≡ Ok bytes))
        ((bytes : List ℕ) → ¬ (decode_of word.now ≡ Ok bytes))) }
{
    match decode(alloc, word) {
        Ok(bytes) => {
            drop(bytes);
            Ok(true)
        }
        Err(FromHexError::OutOfMemory) => Err(AllocError),
        Err(_) => Ok(false),
    }
}

/// Whether a field is a null.
#[inline(always)]
fn is_null(reading: &FieldReading, nullability: Nullability, word: &[u8], is_quoted: bool) -> bool
    ensures { result ≡ is_null_field reading.now nullability
        (record { text = word.now; is_quoted = is_quoted }) }
{
    match nullability {
        Nullability::Nullable => (word.is_empty() || reading.has_null(word)) && !is_quoted,
        Nullability::NonNullable => false,
    }
}

/// Puts the null of a column that takes one at this place.
#[inline(never)]
pub(crate) fn put_null(
    alloc: Global,
    column: ColumnType,
    cell: &mut Scalar,
) -> Result<(), AllocError>
    requires { column.nullability ≡ Nullable }
    ensures typed { OnOk result (scalar_type cell.new ≡ column_type column) }
    ensures content { OnOk result (scalar_content cell.new ≡ null) }
    ensures valid { OnOk result (IsValid cell.new) }
{
    let dtype = dtype_of(alloc, column)?;
    *cell = Scalar::null(dtype);
    Ok(())
}

/// Puts the cell that a word is at this place, and says whether its column takes it.
fn put_value(
    alloc: Global,
    column: ColumnType,
    word: &[u8],
    cell: &mut Scalar,
) -> Result<bool, AllocError>
    ensures { IfOk result (λ taken. MatchBool taken
        (IsValueCell column word.now cell.new) (HasNoValue column word.now)) }
{
    match column.kind {
        Kind::Integer(ptype) => Ok(put_integer(ptype, column.nullability, word, cell)),
        Kind::Utf8 => put_text(alloc, column.nullability, word, cell),
        Kind::Binary => put_binary(alloc, column.nullability, word, cell),
        Kind::Bytes => {
            put_bytes(alloc, column.nullability, word, cell)?;
            Ok(true)
        }
        Kind::Logical(logical) => put_logical(alloc, logical, column.nullability, word, cell),
    }
}

/// Puts the number that a word is at this place, and says whether it is one.
fn put_integer(ptype: PType, nullability: Nullability, word: &[u8], cell: &mut Scalar) -> bool
    ensures { MatchBool result (IsIntegerCell ptype nullability word.now cell.new)
        ((z : ℤ) → ¬ (IsIntegerWord ptype word.now z)) }
{
    match integer_of(word, ptype) {
        Some(value) => match Scalar::primitive_value(value, ptype, nullability) {
            Ok(made) => {
                *cell = made;
                true
            }
            Err(_) => unreachable!(),
        },
        None => false,
    }
}

/// Puts the string that a word is at this place, and says whether it is one.
fn put_text(
    alloc: Global,
    nullability: Nullability,
    word: &[u8],
    cell: &mut Scalar,
) -> Result<bool, AllocError>
    ensures { IfOk result (λ taken. MatchBool taken
        (IsTextCell nullability word.now cell.new) (¬ (IsUtf8 word.now))) }
{
    let Ok(buffer) = ByteBuffer::from_slice(alloc, word) else {
        return Err(AllocError);
    };
    match Scalar::try_utf8(buffer, nullability) {
        Ok(made) => {
            *cell = made;
            Ok(true)
        }
        Err(_) => Ok(false),
    }
}

/// Puts the bytes that a word is in hexadecimal at this place, and says whether it is some.
fn put_binary(
    alloc: Global,
    nullability: Nullability,
    word: &[u8],
    cell: &mut Scalar,
) -> Result<bool, AllocError>
    ensures { IfOk result (λ taken. MatchBool taken (IsBinaryCell nullability word.now cell.new)
        ((bytes : List ℕ) → ¬ (decode_of word.now ≡ Ok bytes))) }
{
    match decode(alloc, word) {
        Ok(bytes) => {
            let Ok(buffer) = ByteBuffer::from_slice(alloc, &bytes) else {
                return Err(AllocError);
            };
            *cell = Scalar::binary(buffer, nullability);
            Ok(true)
        }
        Err(FromHexError::OutOfMemory) => Err(AllocError),
        Err(_) => Ok(false),
    }
}

/// Puts the bytes of a word at this place.
fn put_bytes(
    alloc: Global,
    nullability: Nullability,
    word: &[u8],
    cell: &mut Scalar,
) -> Result<(), AllocError>
    ensures { OnOk result (IsBytesCell nullability word.now cell.new) }
{
    let Ok(buffer) = ByteBuffer::from_slice(alloc, word) else {
        return Err(AllocError);
    };
    *cell = Scalar::binary(buffer, nullability);
    Ok(())
}

/// Puts the value of a logical type that a word writes at this place, and says whether it writes one.
fn put_logical(
    alloc: Global,
    logical: LogicalType,
    nullability: Nullability,
    word: &[u8],
    cell: &mut Scalar,
) -> Result<bool, AllocError>
    ensures { IfOk result (λ taken. MatchBool taken (IsLogicalCell logical nullability word.now cell.new)
        ((z : ℤ) → ¬ (Writes logical word.now z))) }
{
    match scalar_of_word(alloc, logical, word, nullability) {
        Ok(Some(made)) => {
            *cell = made;
            Ok(true)
        }
        Ok(None) => Ok(false),
        Err(_) => Err(AllocError),
    }
}

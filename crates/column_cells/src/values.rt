//! The raw values of cells.

ghost use Rattle.std.specs.Prelude.{◌≡◌, ◌<◌, IfErr, IfOk, IfSome, IsSomeAnd, IsUtf8, length};
ghost use Rattle.column_cells.specs.Words.{FitsStorage, InRange, IsSound, IsValueOf, Nullable, OutOfMemory, Valid};
ghost use Rattle.column_cells.specs.Words.{binary_type, bool_type, content, content_or_null, integer_type};
ghost use Rattle.column_cells.specs.Words.{option_copied, ptype_of_kind, raw_of, raw_storage, stored_content, string};
ghost use Rattle.column_cells.specs.Words.{text, truth, type_of_format, utf8_type, value_tree, whole};

use crate::types::{ptype_of, storage_of_format};
use arrow_columns::{Format, IntegerKind};
use logical_types::{StorageType, bytes_of_decimal};
use std::alloc::Global;
use std::str;
use vortex_dtype::{BufferString, ByteBuffer, INLINE_BYTES, VortexError};
use vortex_pvalue::PValue;
use vortex_value::ScalarValue;

/// The raw value of an integer of the kind, or of a null.
pub(crate) fn integer_value(kind: IntegerKind, cell: Option<i128>) -> Option<ScalarValue>
    requires { IfSome cell (InRange (ptype_of_kind kind)) }
    ensures content { content (raw_of result) ≡ content_or_null whole cell }
    ensures valid { Valid (integer_type (ptype_of_kind kind) Nullable) (raw_of result) }
{
    let Some(whole) = cell else {
        return None;
    };
    let Some(number) = PValue::from_whole(whole, ptype_of(kind)) else {
        unreachable!()
    };
    Some(ScalarValue::Primitive(number))
}

/// The raw value of a boolean, or of a null.
pub(crate) fn bool_value(cell: Option<bool>) -> Option<ScalarValue>
    ensures content { content (raw_of result) ≡ content_or_null truth cell }
    ensures valid { Valid (bool_type Nullable) (raw_of result) }
{
    match cell {
        Some(value) => Some(ScalarValue::Bool(value)),
        None => None,
    }
}

/// The raw value of a string, or of a null.
///
/// `OutOfMemory` only for a string of more than 22 bytes.
pub(crate) fn text_value(
    alloc: Global,
    cell: Option<&[u8]>,
) -> Result<Option<ScalarValue>, VortexError>
    requires { IfSome (option_copied cell) (λ bytes. IsUtf8 bytes) }
    ensures content { IfOk result (λ v. content (raw_of v) ≡ content_or_null text (option_copied cell.entry)) }
    ensures valid { IfOk result (λ v. Valid (utf8_type Nullable) (raw_of v)) }
    ensures refused { IfErr result (λ e. (e ≡ OutOfMemory)
        × IsSomeAnd (option_copied cell.entry) (λ bytes. INLINE_BYTES < length bytes)) }
{
    match cell {
        Some(bytes) => {
            let string = unsafe { str::from_utf8_unchecked(bytes) };
            let buffer = BufferString::from_str(alloc, string)?;
            Ok(Some(ScalarValue::Utf8(buffer)))
        }
        None => Ok(None),
    }
}

/// The raw value of bytes, or of a null.
///
/// `OutOfMemory` only for more than 22 bytes.
pub(crate) fn byte_value(
    alloc: Global,
    cell: Option<&[u8]>,
) -> Result<Option<ScalarValue>, VortexError>
    ensures content { IfOk result (λ v. content (raw_of v) ≡ content_or_null string (option_copied cell.entry)) }
    ensures valid { IfOk result (λ v. Valid (binary_type Nullable) (raw_of v)) }
    ensures refused { IfErr result (λ e. (e ≡ OutOfMemory)
        × IsSomeAnd (option_copied cell.entry) (λ bytes. INLINE_BYTES < length bytes)) }
{
    match cell {
        Some(bytes) => {
            let buffer = ByteBuffer::from_slice(alloc, bytes)?;
            Ok(Some(ScalarValue::Binary(buffer)))
        }
        None => Ok(None),
    }
}

/// The raw value of a value of a format, by its number, or of a null.
pub(crate) fn stored_value(alloc: Global, format: Format, cell: Option<i128>) -> Option<ScalarValue>
    requires sound { IsSound format }
    requires value { IfSome cell (IsValueOf format) }
    ensures content { content (raw_of result) ≡ content_or_null (stored_content format) cell }
    ensures valid { Valid (type_of_format format) (raw_of result) }
{
    match cell {
        Some(number) => Some(stored(alloc, storage_of_format(format), number)),
        None => None,
    }
}

/// The raw value that stores a number. Its bytes, if it has such, are few enough to lie in the value.
fn stored(alloc: Global, storage: StorageType, number: i128) -> ScalarValue
    requires { FitsStorage storage number }
    ensures { value_tree result ≡ raw_storage storage number }
{
    match storage {
        StorageType::I32 => ScalarValue::Primitive(PValue::I32(number as i32)),
        StorageType::I64 => ScalarValue::Primitive(PValue::I64(number as i64)),
        StorageType::Bytes => {
            let Ok(bytes) = ByteBuffer::from_slice(alloc, &bytes_of_decimal(number)) else {
                unreachable!()
            };
            ScalarValue::Binary(bytes)
        }
    }
}

//! The scalars of cells.

ghost use Rattle.std.specs.Prelude.{◌≡◌, ◌<◌, IfErr, IfOk, IfSome, IsSomeAnd, IsUtf8, length};
ghost use Rattle.column_cells.specs.Words.{InRange, IsSound, IsValid, IsValueOf, Nullable, OutOfMemory};
ghost use Rattle.column_cells.specs.Words.{binary_type, bool_type, content_or_null, integer_type, option_copied};
ghost use Rattle.column_cells.specs.Words.{ptype_of_kind, scalar_content, scalar_type, stored_content, string};
ghost use Rattle.column_cells.specs.Words.{text, truth, type_of_format, utf8_type, whole};

use crate::types::{dtype_of_format, ptype_of};
use crate::values::{bool_value, byte_value, integer_value, stored_value, text_value};
use arrow_columns::{Format, IntegerKind};
use std::alloc::Global;
use vortex_dtype::{DType, INLINE_BYTES, Nullability, VortexError};
use vortex_value::Scalar;

/// The scalar of an integer of the kind, or of a null.
pub fn integer_scalar(kind: IntegerKind, cell: Option<i128>) -> Scalar
    requires { IfSome cell (InRange (ptype_of_kind kind)) }
    ensures typed { scalar_type result ≡ integer_type (ptype_of_kind kind) Nullable }
    ensures content { scalar_content result ≡ content_or_null whole cell }
    ensures valid { IsValid result }
{
    Scalar {
        dtype: DType::Primitive(ptype_of(kind), Nullability::Nullable),
        value: integer_value(kind, cell),
    }
}

/// The scalar of a boolean, or of a null.
pub fn bool_scalar(cell: Option<bool>) -> Scalar
    ensures typed { scalar_type result ≡ bool_type Nullable }
    ensures content { scalar_content result ≡ content_or_null truth cell }
    ensures valid { IsValid result }
{
    Scalar {
        dtype: DType::Bool(Nullability::Nullable),
        value: bool_value(cell),
    }
}

/// The scalar of a string, or of a null.
///
/// `OutOfMemory` only for a string of more than 22 bytes.
pub fn text_scalar(alloc: Global, cell: Option<&[u8]>) -> Result<Scalar, VortexError>
    requires { IfSome (option_copied cell) (λ bytes. IsUtf8 bytes) }
    ensures typed { IfOk result (λ x. scalar_type x ≡ utf8_type Nullable) }
    ensures content { IfOk result (λ x. scalar_content x ≡ content_or_null text (option_copied cell.entry)) }
    ensures valid { IfOk result IsValid }
    ensures refused { IfErr result (λ e. (e ≡ OutOfMemory)
        × IsSomeAnd (option_copied cell.entry) (λ bytes. INLINE_BYTES < length bytes)) }
{
    let value = text_value(alloc, cell)?;
    Ok(Scalar {
        dtype: DType::Utf8(Nullability::Nullable),
        value,
    })
}

/// The scalar of bytes, or of a null.
///
/// `OutOfMemory` only for more than 22 bytes.
pub fn byte_scalar(alloc: Global, cell: Option<&[u8]>) -> Result<Scalar, VortexError>
    ensures typed { IfOk result (λ x. scalar_type x ≡ binary_type Nullable) }
    ensures content { IfOk result (λ x. scalar_content x ≡ content_or_null string (option_copied cell.entry)) }
    ensures valid { IfOk result IsValid }
    ensures refused { IfErr result (λ e. (e ≡ OutOfMemory)
        × IsSomeAnd (option_copied cell.entry) (λ bytes. INLINE_BYTES < length bytes)) }
{
    let value = byte_value(alloc, cell)?;
    Ok(Scalar {
        dtype: DType::Binary(Nullability::Nullable),
        value,
    })
}

/// The scalar of a value of a format, by its number, or of a null.
///
/// `OutOfMemory` if there is no memory for its type.
pub fn value_scalar(
    alloc: Global,
    format: Format,
    cell: Option<i128>,
) -> Result<Scalar, VortexError>
    requires sound { IsSound format }
    requires value { IfSome cell (IsValueOf format) }
    ensures typed { IfOk result (λ x. scalar_type x ≡ type_of_format format) }
    ensures content { IfOk result (λ x. scalar_content x ≡ content_or_null (stored_content format) cell) }
    ensures valid { IfOk result IsValid }
    ensures refused { IfErr result (λ e. e ≡ OutOfMemory) }
{
    let dtype = dtype_of_format(alloc, format)?;
    Ok(Scalar {
        dtype,
        value: stored_value(alloc, format, cell),
    })
}

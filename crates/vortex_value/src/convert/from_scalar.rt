//! Truth values, strings and bytes out of scalars, valid or not. The impls for `ScalarRef` are of
//! this port alone.

ghost use Rattle.vortex_value.specs.Words.{ShortNeverOutOfMemory, Takes, TakesCopy, bytes_in, given_option, or_none};
ghost use Rattle.vortex_value.specs.Words.{raw_bool, raw_bytes, raw_of, raw_text, ref_raw, ref_type, scalar_raw};
ghost use Rattle.vortex_value.specs.Words.{scalar_type, taken_bool, taken_bytes, taken_option_bool, taken_option_bytes};
ghost use Rattle.vortex_value.specs.Words.{taken_option_text, taken_text, text_in};

use crate::refs::ScalarRef;
use crate::scalars::Scalar;
use crate::values::ScalarValue;
use vortex_dtype::{BufferString, ByteBuffer, DType, VortexError};

/// The truth value. `WrongKind` if the type is not Bool; then `IsNull` of a null; then `WrongKind`
/// if the raw value is not a truth value.
impl TryFrom<ScalarRef<'_>> for bool {
    type Error = VortexError;

    ghost try_from_gives = { λ x r. Takes raw_bool (taken_bool (ref_type x) (ref_raw x)) r };

    fn try_from(scalar: ScalarRef<'_>) -> Result<bool, VortexError> {
        Option::<bool>::try_from(scalar)?.ok_or(VortexError::IsNull)
    }
}

/// The truth value, or `None` of a null. `WrongKind` if the type is not Bool or the raw value is
/// neither null nor a truth value.
impl TryFrom<ScalarRef<'_>> for Option<bool> {
    type Error = VortexError;

    ghost try_from_gives = { λ x r. Takes (given_option raw_bool)
        (taken_option_bool (ref_type x) (ref_raw x)) r };

    fn try_from(scalar: ScalarRef<'_>) -> Result<Option<bool>, VortexError> {
        match (scalar.dtype(), scalar.value()) {
            (DType::Bool(_), Some(ScalarValue::Bool(truth))) => Ok(Some(*truth)),
            (DType::Bool(_), None) => Ok(None),
            _ => Err(VortexError::WrongKind),
        }
    }
}

/// The truth value. `WrongKind` if the type is not Bool; then `IsNull` of a null; then `WrongKind`
/// if the raw value is not a truth value.
impl TryFrom<&Scalar> for bool {
    type Error = VortexError;

    ghost try_from_gives = { λ x r. Takes raw_bool
        (taken_bool (scalar_type x.now) (scalar_raw x.now)) r };

    fn try_from(scalar: &Scalar) -> Result<bool, VortexError> {
        bool::try_from(ScalarRef::of(scalar))
    }
}

/// The truth value, or `None` of a null. `WrongKind` if the type is not Bool or the raw value is
/// neither null nor a truth value.
impl TryFrom<&Scalar> for Option<bool> {
    type Error = VortexError;

    ghost try_from_gives = { λ x r. Takes (given_option raw_bool)
        (taken_option_bool (scalar_type x.now) (scalar_raw x.now)) r };

    fn try_from(scalar: &Scalar) -> Result<Option<bool>, VortexError> {
        Option::<bool>::try_from(ScalarRef::of(scalar))
    }
}

/// The truth value. `WrongKind` if the type is not Bool; then `IsNull` of a null; then `WrongKind`
/// if the raw value is not a truth value.
impl TryFrom<Scalar> for bool {
    type Error = VortexError;

    ghost try_from_gives = { λ x r. Takes raw_bool (taken_bool (scalar_type x) (scalar_raw x)) r };

    fn try_from(scalar: Scalar) -> Result<bool, VortexError> {
        let taken = bool::try_from(&scalar);
        drop(scalar);
        taken
    }
}

/// The truth value, or `None` of a null. `WrongKind` if the type is not Bool or the raw value is
/// neither null nor a truth value.
impl TryFrom<Scalar> for Option<bool> {
    type Error = VortexError;

    ghost try_from_gives = { λ x r. Takes (given_option raw_bool)
        (taken_option_bool (scalar_type x) (scalar_raw x)) r };

    fn try_from(scalar: Scalar) -> Result<Option<bool>, VortexError> {
        let taken = Option::<bool>::try_from(&scalar);
        drop(scalar);
        taken
    }
}

/// A copy of the bytes. `WrongKind` if the type is not Binary; then `IsNull` of a null; then
/// `WrongKind` if the raw value is not bytes. `OutOfMemory` only for a copy of more than 22 bytes.
impl TryFrom<ScalarRef<'_>> for ByteBuffer {
    type Error = VortexError;

    ghost try_from_gives = { λ x r. TakesCopy raw_bytes (taken_bytes (ref_type x) (ref_raw x)) r
        × ShortNeverOutOfMemory (taken_bytes (ref_type x) (ref_raw x)) r };

    fn try_from(scalar: ScalarRef<'_>) -> Result<ByteBuffer, VortexError> {
        Option::<ByteBuffer>::try_from(scalar)?.ok_or(VortexError::IsNull)
    }
}

/// A copy of the bytes, or `None` of a null. `WrongKind` if the type is not Binary or the raw value
/// is neither null nor bytes. `OutOfMemory` only for a copy of more than 22 bytes.
impl TryFrom<ScalarRef<'_>> for Option<ByteBuffer> {
    type Error = VortexError;

    ghost try_from_gives = { λ x r. TakesCopy (given_option raw_bytes)
        (taken_option_bytes (ref_type x) (ref_raw x)) r
        × ShortNeverOutOfMemory (taken_option_bytes (ref_type x) (ref_raw x)) r };

    fn try_from(scalar: ScalarRef<'_>) -> Result<Option<ByteBuffer>, VortexError> {
        match (scalar.dtype(), scalar.value()) {
            (DType::Binary(_), Some(ScalarValue::Binary(bytes))) => Ok(Some(bytes.clone()?)),
            (DType::Binary(_), None) => Ok(None),
            _ => Err(VortexError::WrongKind),
        }
    }
}

/// A copy of the bytes. `WrongKind` if the type is not Binary; then `IsNull` of a null; then
/// `WrongKind` if the raw value is not bytes. `OutOfMemory` only for a copy of more than 22 bytes.
impl TryFrom<&Scalar> for ByteBuffer {
    type Error = VortexError;

    ghost try_from_gives = { λ x r. TakesCopy raw_bytes
        (taken_bytes (scalar_type x.now) (scalar_raw x.now)) r
        × ShortNeverOutOfMemory (taken_bytes (scalar_type x.now) (scalar_raw x.now)) r };

    fn try_from(scalar: &Scalar) -> Result<ByteBuffer, VortexError> {
        ByteBuffer::try_from(ScalarRef::of(scalar))
    }
}

/// A copy of the bytes, or `None` of a null. `WrongKind` if the type is not Binary or the raw value
/// is neither null nor bytes. `OutOfMemory` only for a copy of more than 22 bytes.
impl TryFrom<&Scalar> for Option<ByteBuffer> {
    type Error = VortexError;

    ghost try_from_gives = { λ x r. TakesCopy (given_option raw_bytes)
        (taken_option_bytes (scalar_type x.now) (scalar_raw x.now)) r
        × ShortNeverOutOfMemory (taken_option_bytes (scalar_type x.now) (scalar_raw x.now)) r };

    fn try_from(scalar: &Scalar) -> Result<Option<ByteBuffer>, VortexError> {
        Option::<ByteBuffer>::try_from(ScalarRef::of(scalar))
    }
}

/// The bytes, moved. `WrongKind` if the type is not Binary; then `IsNull` of a null; then
/// `WrongKind` if the raw value is not bytes.
impl TryFrom<Scalar> for ByteBuffer {
    type Error = VortexError;

    ghost try_from_gives = { λ x r. Takes raw_bytes (taken_bytes (scalar_type x) (scalar_raw x)) r };

    fn try_from(scalar: Scalar) -> Result<ByteBuffer, VortexError> {
        Option::<ByteBuffer>::try_from(scalar)?.ok_or(VortexError::IsNull)
    }
}

/// The bytes, moved, or `None` of a null. `WrongKind` if the type is not Binary or the raw value is
/// neither null nor bytes.
impl TryFrom<Scalar> for Option<ByteBuffer> {
    type Error = VortexError;

    ghost try_from_gives = { λ x r. Takes (given_option raw_bytes)
        (taken_option_bytes (scalar_type x) (scalar_raw x)) r };

    fn try_from(scalar: Scalar) -> Result<Option<ByteBuffer>, VortexError> {
        if scalar.dtype.is_binary() {
            into_bytes(scalar.into_value())
        } else {
            drop(scalar);
            Err(VortexError::WrongKind)
        }
    }
}

/// The bytes of a raw value, moved, or `None` of a null.
fn into_bytes(value: Option<ScalarValue>) -> Result<Option<ByteBuffer>, VortexError>
    ensures { Takes (given_option raw_bytes) (or_none bytes_in (raw_of value)) result }
{
    match value {
        Some(ScalarValue::Binary(bytes)) => Ok(Some(bytes)),
        Some(_) => Err(VortexError::WrongKind),
        None => Ok(None),
    }
}

/// A copy of the string. `WrongKind` if the type is not Utf8; then `IsNull` of a null; then
/// `WrongKind` if the raw value is not a string. `OutOfMemory` only for a copy of more than 22
/// bytes.
impl TryFrom<ScalarRef<'_>> for BufferString {
    type Error = VortexError;

    ghost try_from_gives = { λ x r. TakesCopy raw_text (taken_text (ref_type x) (ref_raw x)) r
        × ShortNeverOutOfMemory (taken_text (ref_type x) (ref_raw x)) r };

    fn try_from(scalar: ScalarRef<'_>) -> Result<BufferString, VortexError> {
        Option::<BufferString>::try_from(scalar)?.ok_or(VortexError::IsNull)
    }
}

/// A copy of the string, or `None` of a null. `WrongKind` if the type is not Utf8 or the raw value
/// is neither null nor a string. `OutOfMemory` only for a copy of more than 22 bytes.
impl TryFrom<ScalarRef<'_>> for Option<BufferString> {
    type Error = VortexError;

    ghost try_from_gives = { λ x r. TakesCopy (given_option raw_text)
        (taken_option_text (ref_type x) (ref_raw x)) r
        × ShortNeverOutOfMemory (taken_option_text (ref_type x) (ref_raw x)) r };

    fn try_from(scalar: ScalarRef<'_>) -> Result<Option<BufferString>, VortexError> {
        match (scalar.dtype(), scalar.value()) {
            (DType::Utf8(_), Some(ScalarValue::Utf8(text))) => Ok(Some(text.clone()?)),
            (DType::Utf8(_), None) => Ok(None),
            _ => Err(VortexError::WrongKind),
        }
    }
}

/// A copy of the string. `WrongKind` if the type is not Utf8; then `IsNull` of a null; then
/// `WrongKind` if the raw value is not a string. `OutOfMemory` only for a copy of more than 22
/// bytes.
impl TryFrom<&Scalar> for BufferString {
    type Error = VortexError;

    ghost try_from_gives = { λ x r. TakesCopy raw_text
        (taken_text (scalar_type x.now) (scalar_raw x.now)) r
        × ShortNeverOutOfMemory (taken_text (scalar_type x.now) (scalar_raw x.now)) r };

    fn try_from(scalar: &Scalar) -> Result<BufferString, VortexError> {
        BufferString::try_from(ScalarRef::of(scalar))
    }
}

/// A copy of the string, or `None` of a null. `WrongKind` if the type is not Utf8 or the raw value
/// is neither null nor a string. `OutOfMemory` only for a copy of more than 22 bytes.
impl TryFrom<&Scalar> for Option<BufferString> {
    type Error = VortexError;

    ghost try_from_gives = { λ x r. TakesCopy (given_option raw_text)
        (taken_option_text (scalar_type x.now) (scalar_raw x.now)) r
        × ShortNeverOutOfMemory (taken_option_text (scalar_type x.now) (scalar_raw x.now)) r };

    fn try_from(scalar: &Scalar) -> Result<Option<BufferString>, VortexError> {
        Option::<BufferString>::try_from(ScalarRef::of(scalar))
    }
}

/// The string, moved. `WrongKind` if the type is not Utf8; then `IsNull` of a null; then
/// `WrongKind` if the raw value is not a string.
impl TryFrom<Scalar> for BufferString {
    type Error = VortexError;

    ghost try_from_gives = { λ x r. Takes raw_text (taken_text (scalar_type x) (scalar_raw x)) r };

    fn try_from(scalar: Scalar) -> Result<BufferString, VortexError> {
        Option::<BufferString>::try_from(scalar)?.ok_or(VortexError::IsNull)
    }
}

/// The string, moved, or `None` of a null. `WrongKind` if the type is not Utf8 or the raw value is
/// neither null nor a string.
impl TryFrom<Scalar> for Option<BufferString> {
    type Error = VortexError;

    ghost try_from_gives = { λ x r. Takes (given_option raw_text)
        (taken_option_text (scalar_type x) (scalar_raw x)) r };

    fn try_from(scalar: Scalar) -> Result<Option<BufferString>, VortexError> {
        if scalar.dtype.is_utf8() {
            into_text(scalar.into_value())
        } else {
            drop(scalar);
            Err(VortexError::WrongKind)
        }
    }
}

/// The string of a raw value, moved, or `None` of a null.
fn into_text(value: Option<ScalarValue>) -> Result<Option<BufferString>, VortexError>
    ensures { Takes (given_option raw_text) (or_none text_in (raw_of value)) result }
{
    match value {
        Some(ScalarValue::Utf8(text)) => Ok(Some(text)),
        Some(_) => Err(VortexError::WrongKind),
        None => Ok(None),
    }
}

//! Conversions of Rust values into scalars.
#![tactic(auto, using(crate::proofs::GivenEach::givens))]

ghost use Rattle.std.specs.Prelude.{◌≡◌, ◌≤◌, length, IsOk, IsOkAnd, MatchResult, string_bytes};
ghost use Rattle.vortex_array.specs.Words.{EachValid, IsMadeValid, NonNullable, OutOfMemory, RawTree, U64, Valid};
ghost use Rattle.vortex_array.specs.Words.{binary_type, bool_type, given_each, given_number, given_option, given_usize};
ghost use Rattle.vortex_array.specs.Words.{given_vec, integer_type, raw_bool, raw_bytes, raw_of, raw_text, utf8_type};
ghost use Rattle.vortex_array.specs.Words.{value_trees};

use crate::integers::Integer;
use std::alloc::Global;
use vortex_dtype::{BufferString, ByteBuffer, INLINE_BYTES, NativeDType, Nullability, VortexError};
use vortex_value::{Scalar, ScalarValue};

/// A Rust type whose values convert into scalars of its column type.
///
/// Upstream has `From` for `Scalar` instead, which cannot refuse if no memory is left.
pub trait IntoScalar: NativeDType {
    /// The raw value of a Rust value.
    ghost given: { Self → RawTree };

    /// The scalar of the value. Its type is the column type of `Self`, `NativeDType::dtype`.
    ///
    /// `OutOfMemory` is the only refusal: a string or bytes become a buffer, and a vector needs
    /// memory for its elements and its type.
    fn try_into_scalar(self, alloc: Global) -> Result<Scalar, VortexError>
        ensures { MatchResult result
            (IsMadeValid Self.native_type (given self))
            (λ e. e ≡ OutOfMemory) };
}

/// Takes no memory. Gives what `From<bool> for Scalar` does.
impl IntoScalar for bool {
    ghost given = { raw_bool };

    fn try_into_scalar(self, _alloc: Global) -> Result<Scalar, VortexError>
        ensures { IsOkAnd result (IsMadeValid (bool_type NonNullable) (raw_bool self)) }
    {
        Ok(Scalar::bool(self, Nullability::NonNullable))
    }
}

/// For the eight integers. Takes no memory. Gives what `From` for `Scalar` does.
impl<T: Integer> IntoScalar for T {
    ghost given = { given_number T.PTYPE T.value };

    fn try_into_scalar(self, _alloc: Global) -> Result<Scalar, VortexError>
        ensures { IsOkAnd result
            (IsMadeValid (integer_type T.PTYPE NonNullable) (given_number T.PTYPE T.value self)) }
    {
        Ok(Scalar::primitive(self, Nullability::NonNullable))
    }
}

/// Takes no memory. Gives what `From<usize> for Scalar` does.
impl IntoScalar for usize {
    ghost given = { given_usize };

    fn try_into_scalar(self, _alloc: Global) -> Result<Scalar, VortexError>
        ensures { IsOkAnd result (IsMadeValid (integer_type U64 NonNullable) (given_usize self)) }
    {
        Ok(Scalar::primitive(self as u64, Nullability::NonNullable))
    }
}

/// Takes no memory. Gives what `From<BufferString> for Scalar` does.
impl IntoScalar for BufferString {
    ghost given = { raw_text };

    fn try_into_scalar(self, _alloc: Global) -> Result<Scalar, VortexError>
        ensures { IsOkAnd result (IsMadeValid (utf8_type NonNullable) (raw_text self)) }
    {
        Ok(Scalar::utf8(self, Nullability::NonNullable))
    }
}

/// Copies the string. At most 22 bytes take no memory. Ports `From<&str> for Scalar`.
impl IntoScalar for &str {
    ghost given = { λ text. raw_text text.now };

    fn try_into_scalar(self, alloc: Global) -> Result<Scalar, VortexError>
        ensures made { MatchResult result
            (IsMadeValid (utf8_type NonNullable) (raw_text self.now))
            (λ e. e ≡ OutOfMemory) }
        ensures inline { length self.now ≤ INLINE_BYTES → IsOk result }
    {
        let text = BufferString::from_str(alloc, self)?;
        Ok(Scalar::utf8(text, Nullability::NonNullable))
    }
}

/// Moves the string. At most 22 bytes take no memory. Ports `From<String> for Scalar`.
impl IntoScalar for String {
    ghost given = { λ text. raw_text (string_bytes text) };

    fn try_into_scalar(self, _alloc: Global) -> Result<Scalar, VortexError>
        ensures made { MatchResult result
            (IsMadeValid (utf8_type NonNullable) (raw_text (string_bytes self)))
            (λ e. e ≡ OutOfMemory) }
        ensures inline { length (string_bytes self) ≤ INLINE_BYTES → IsOk result }
    {
        let text = BufferString::from_string(self)?;
        Ok(Scalar::utf8(text, Nullability::NonNullable))
    }
}

/// Takes no memory. Gives what `From<ByteBuffer> for Scalar` does.
impl IntoScalar for ByteBuffer {
    ghost given = { raw_bytes };

    fn try_into_scalar(self, _alloc: Global) -> Result<Scalar, VortexError>
        ensures { IsOkAnd result (IsMadeValid (binary_type NonNullable) (raw_bytes self)) }
    {
        Ok(Scalar::binary(self, Nullability::NonNullable))
    }
}

/// Copies the bytes. At most 22 bytes take no memory. Ports `From<&[u8]> for Scalar`.
impl IntoScalar for &[u8] {
    ghost given = { λ bytes. raw_bytes bytes.now };

    fn try_into_scalar(self, alloc: Global) -> Result<Scalar, VortexError>
        ensures made { MatchResult result
            (IsMadeValid (binary_type NonNullable) (raw_bytes self.now))
            (λ e. e ≡ OutOfMemory) }
        ensures inline { length self.now ≤ INLINE_BYTES → IsOk result }
    {
        let bytes = ByteBuffer::from_slice(alloc, self)?;
        Ok(Scalar::binary(bytes, Nullability::NonNullable))
    }
}

/// `None` gives the null, at any depth of options. The type is nullable.
///
/// Ports `From<Option<T>> for Scalar` of strings, bytes and vectors.
impl<T: IntoScalar> IntoScalar for Option<T> {
    ghost given = { given_option T.given };

    fn try_into_scalar(self, alloc: Global) -> Result<Scalar, VortexError> {
        match self {
            None => Scalar::null_native::<T>(alloc),
            Some(value) => Ok(value.try_into_scalar(alloc)?.into_nullable()),
        }
    }
}

/// Gives a list. Ports `From<Vec<T>> for Scalar`.
impl<T: IntoScalar + Drop> IntoScalar for Vec<T> {
    ghost given = { given_vec T.given };

    fn try_into_scalar(self, alloc: Global) -> Result<Scalar, VortexError> {
        let elements = raw_elements(alloc, self)?;
        let dtype = <Vec<T> as NativeDType>::dtype(alloc)?;
        Ok(Scalar {
            dtype,
            value: Some(ScalarValue::Tuple(elements)),
        })
    }
}

/// The raw value of each element.
fn raw_elements<T: IntoScalar + Drop>(
    alloc: Global,
    elements: Vec<T>,
) -> Result<Vec<Option<ScalarValue>>, VortexError>
    ensures { MatchResult result
        (λ values. (value_trees values.items ≡ given_each T.given elements.items)
        × EachValid T.native_type (value_trees values.items))
        (λ e. e ≡ OutOfMemory) }
{
    let mut values = Vec::with_capacity(alloc, elements.len())?;
    for element in elements {
        values.push(raw_element(alloc, element)?)?;
    }
    Ok(values)
}

/// The raw value of one element.
fn raw_element<T: IntoScalar>(alloc: Global, element: T) -> Result<Option<ScalarValue>, VortexError>
    ensures { MatchResult result
        (λ value. (raw_of value ≡ T.given element) × Valid T.native_type (raw_of value))
        (λ e. e ≡ OutOfMemory) }
{
    Ok(element.try_into_scalar(alloc)?.into_value())
}

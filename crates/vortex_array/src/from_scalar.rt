//! Conversions of scalars into Rust values.
#![tactic(auto, using(crate::proofs::GivenEach::tuple_tree, crate::proofs::TakenEach::has_parts))]

ghost use Rattle.std.specs.Prelude.{◌≡◌, Err, string_bytes};
ghost use Rattle.vortex_array.specs.Words.{Copies, HasParts, RawTree, ShortNeverOutOfMemory, Taken, Takes, TakesCopy};
ghost use Rattle.vortex_array.specs.Words.{TakesOrNoMemory, TypeTree, as_tuple, each_taken, elements_in, given_number};
ghost use Rattle.vortex_array.specs.Words.{given_option, given_usize, given_vec, lent_raw, raw_bool, raw_bytes, raw_of};
ghost use Rattle.vortex_array.specs.Words.{raw_text, raw_tuple, ref_raw, ref_type, taken_bool, taken_bytes, taken_from};
ghost use Rattle.vortex_array.specs.Words.{taken_number, taken_option_bool, taken_option_bytes, taken_option_number};
ghost use Rattle.vortex_array.specs.Words.{taken_option_text, taken_option_usize, taken_text, taken_usize, taken_vec};
ghost use Rattle.vortex_array.specs.Words.{type_of, unless_null, value_trees};

use crate::integers::Integer;
use std::alloc::Global;
use vortex_dtype::{BufferString, ByteBuffer, DType, VortexError};
use vortex_value::{ScalarRef, ScalarValue};

/// A Rust type whose values are taken from scalars.
///
/// Upstream has `TryFrom<&Scalar>` instead, which takes no allocator. The types are those of
/// `TryFrom<ScalarRef<'_>>`, with the same answers, and `String` and `Vec`, which take memory.
pub trait FromScalar {
    /// The raw value of a Rust value. Contracts name a Rust value by it.
    ghost given: { Self → RawTree };

    /// What a scalar of this type and raw value converts into, or the refusal.
    ghost taken: { TypeTree → RawTree → Taken };

    /// The value that the scalar holds, even if the scalar is not valid.
    ///
    /// The refusals are those of `TryFrom<ScalarRef<'_>>`, or stated at the implementation.
    /// `OutOfMemory` comes only if memory is asked for: to
    /// copy a string or bytes, or for the elements of a list that is not empty. It never hides a
    /// wrong type, a null, or another variant of `ScalarValue`.
    fn try_from_scalar(alloc: Global, scalar: ScalarRef<'_>) -> Result<Self, VortexError>
        ensures value { TakesOrNoMemory given (taken_from taken scalar.entry) result }
        ensures memory { result ≡ Err VortexError.OutOfMemory
            → Copies taken (ref_type scalar.entry) (ref_raw scalar.entry) };
}

impl FromScalar for bool {
    ghost given = { raw_bool };

    ghost taken = { taken_bool };

    fn try_from_scalar(_alloc: Global, scalar: ScalarRef<'_>) -> Result<bool, VortexError>
        ensures { Takes raw_bool (taken_from taken_bool scalar.entry) result }
    {
        bool::try_from(scalar)
    }
}

impl FromScalar for Option<bool> {
    ghost given = { given_option raw_bool };

    ghost taken = { taken_option_bool };

    fn try_from_scalar(_alloc: Global, scalar: ScalarRef<'_>) -> Result<Option<bool>, VortexError>
        ensures { Takes (given_option raw_bool) (taken_from taken_option_bool scalar.entry) result }
    {
        Option::<bool>::try_from(scalar)
    }
}

/// For the eight integers, whatever the scalar's type: only its raw value counts.
///
/// `IsNull` if the scalar is null, then `WrongKind` if its raw value is not an integer, then
/// `OutOfRange` if `T` does not have the number.
impl<T: Integer> FromScalar for T {
    ghost given = { given_number T.PTYPE T.value };

    ghost taken = { taken_number T.PTYPE };

    fn try_from_scalar(_alloc: Global, scalar: ScalarRef<'_>) -> Result<T, VortexError>
        ensures { Takes (given_number T.PTYPE T.value)
            (taken_from (taken_number T.PTYPE) scalar.entry) result }
    {
        scalar.number()
    }
}

/// For the eight integers; `None` is the null.
///
/// `WrongKind` if the type is not an integer, then `WrongPType` if it is not the integer `T`, even
/// for a null. Then `WrongKind` if the raw value is not an integer, then `OutOfRange` if `T` does not
/// have the number.
impl<T: Integer> FromScalar for Option<T> {
    ghost given = { given_option (given_number T.PTYPE T.value) };

    ghost taken = { taken_option_number T.PTYPE };

    fn try_from_scalar(_alloc: Global, scalar: ScalarRef<'_>) -> Result<Option<T>, VortexError>
        ensures { Takes (given_option (given_number T.PTYPE T.value))
            (taken_from (taken_option_number T.PTYPE) scalar.entry) result }
    {
        scalar.optional_number()
    }
}

impl FromScalar for usize {
    ghost given = { given_usize };

    ghost taken = { taken_usize };

    fn try_from_scalar(_alloc: Global, scalar: ScalarRef<'_>) -> Result<usize, VortexError>
        ensures { Takes given_usize (taken_from taken_usize scalar.entry) result }
    {
        usize::try_from(scalar)
    }
}

impl FromScalar for Option<usize> {
    ghost given = { given_option given_usize };

    ghost taken = { taken_option_usize };

    fn try_from_scalar(_alloc: Global, scalar: ScalarRef<'_>) -> Result<Option<usize>, VortexError>
        ensures { Takes (given_option given_usize)
            (taken_from taken_option_usize scalar.entry) result }
    {
        Option::<usize>::try_from(scalar)
    }
}

impl FromScalar for ByteBuffer {
    ghost given = { raw_bytes };

    ghost taken = { taken_bytes };

    fn try_from_scalar(_alloc: Global, scalar: ScalarRef<'_>) -> Result<ByteBuffer, VortexError>
        ensures copy { TakesCopy raw_bytes (taken_from taken_bytes scalar.entry) result }
        ensures inline { ShortNeverOutOfMemory (taken_from taken_bytes scalar.entry) result }
    {
        ByteBuffer::try_from(scalar)
    }
}

impl FromScalar for Option<ByteBuffer> {
    ghost given = { given_option raw_bytes };

    ghost taken = { taken_option_bytes };

    fn try_from_scalar(
        _alloc: Global,
        scalar: ScalarRef<'_>,
    ) -> Result<Option<ByteBuffer>, VortexError>
        ensures copy { TakesCopy (given_option raw_bytes)
            (taken_from taken_option_bytes scalar.entry) result }
        ensures inline { ShortNeverOutOfMemory (taken_from taken_option_bytes scalar.entry) result }
    {
        Option::<ByteBuffer>::try_from(scalar)
    }
}

impl FromScalar for BufferString {
    ghost given = { raw_text };

    ghost taken = { taken_text };

    fn try_from_scalar(_alloc: Global, scalar: ScalarRef<'_>) -> Result<BufferString, VortexError>
        ensures copy { TakesCopy raw_text (taken_from taken_text scalar.entry) result }
        ensures inline { ShortNeverOutOfMemory (taken_from taken_text scalar.entry) result }
    {
        BufferString::try_from(scalar)
    }
}

impl FromScalar for Option<BufferString> {
    ghost given = { given_option raw_text };

    ghost taken = { taken_option_text };

    fn try_from_scalar(
        _alloc: Global,
        scalar: ScalarRef<'_>,
    ) -> Result<Option<BufferString>, VortexError>
        ensures copy { TakesCopy (given_option raw_text)
            (taken_from taken_option_text scalar.entry) result }
        ensures inline { ShortNeverOutOfMemory (taken_from taken_option_text scalar.entry) result }
    {
        Option::<BufferString>::try_from(scalar)
    }
}

/// Copies the string. `WrongKind` if the type is not Utf8, then `IsNull` if the scalar is null, then
/// `WrongKind` if its raw value is not a string. Ports `TryFrom<&Scalar> for String`.
impl FromScalar for String {
    ghost given = { λ text. raw_text (string_bytes text) };

    ghost taken = { taken_text };

    fn try_from_scalar(alloc: Global, scalar: ScalarRef<'_>) -> Result<String, VortexError>
        ensures { TakesCopy (λ text. raw_text (string_bytes text))
            (taken_from taken_text scalar.entry) result }
    {
        match (scalar.dtype(), scalar.value()) {
            (DType::Utf8(_), None) => Err(VortexError::IsNull),
            (DType::Utf8(_), Some(ScalarValue::Utf8(text))) => {
                Ok(String::from_str(alloc, text.as_str())?)
            }
            _ => Err(VortexError::WrongKind),
        }
    }
}

/// `WrongKind` if the type is neither a list nor a fixed-size list, then `IsNull` if the scalar is
/// null, then `WrongKind` if its raw value is not a tuple. Else the refusal of the first element that
/// refuses. An empty list gives an empty vector, whatever its element type.
///
/// Ports `TryFrom<&Scalar> for Vec<T>`.
impl<T: FromScalar + Drop> FromScalar for Vec<T> {
    ghost given = { given_vec T.given };

    ghost taken = { taken_vec T.taken };

    fn try_from_scalar(alloc: Global, scalar: ScalarRef<'_>) -> Result<Vec<T>, VortexError> {
        match scalar.dtype() {
            DType::List(element, _) => take_list(alloc, element, scalar.value()),
            DType::FixedSizeList(element, _, _) => take_list(alloc, element, scalar.value()),
            _ => Err(VortexError::WrongKind),
        }
    }
}

/// The elements of a list's raw value; `None` is the null.
fn take_list<T: FromScalar + Drop>(
    alloc: Global,
    element: &DType,
    value: Option<&ScalarValue>,
) -> Result<Vec<T>, VortexError>
    ensures value { TakesOrNoMemory (given_vec T.given)
        (unless_null (elements_in (T.taken (type_of element.now))) (lent_raw value.entry)) result }
    ensures memory { result ≡ Err VortexError.OutOfMemory → HasParts (lent_raw value.entry) }
{
    match value {
        Some(ScalarValue::Tuple(parts)) => take_elements(alloc, element, parts),
        Some(_) => Err(VortexError::WrongKind),
        None => Err(VortexError::IsNull),
    }
}

/// Each element of a list, read with the element type.
fn take_elements<T: FromScalar + Drop>(
    alloc: Global,
    element: &DType,
    parts: &[Option<ScalarValue>],
) -> Result<Vec<T>, VortexError>
    ensures value { TakesOrNoMemory (given_vec T.given)
        (as_tuple (each_taken (T.taken (type_of element.now)) (value_trees parts.now))) result }
    ensures memory { result ≡ Err VortexError.OutOfMemory
        → HasParts (raw_tuple (value_trees parts.now)) }
{
    let mut taken = Vec::with_capacity(alloc, parts.len())?;
    for part in parts {
        taken.push(take_element(alloc, element, part)?)?;
    }
    Ok(taken)
}

/// One element of a list, read with the element type.
fn take_element<T: FromScalar>(
    alloc: Global,
    element: &DType,
    part: &Option<ScalarValue>,
) -> Result<T, VortexError>
    ensures { TakesOrNoMemory T.given (T.taken (type_of element.now) (raw_of part.now)) result }
{
    T::try_from_scalar(alloc, ScalarRef::from_parts(element, part.as_ref()))
}

//! The answers of commands.

ghost use Rattle.std.specs.Prelude.{◌≡◌, ◌≤◌, IfOk, IsOk, MatchOption};
ghost use Rattle.rows.specs.Words.{InRange, IsBytesValue, IsInteger, IsIntegerValue, IsNumber, IsValid, Lower};
ghost use Rattle.rows.specs.Words.{NonNullable, Upper, binary_type, bound, bound_text, integer_type, ptype_of};
ghost use Rattle.rows.specs.Words.{raw_bytes, raw_integer, request_text, scalar_content, scalar_raw, scalar_type};
ghost use Rattle.rows.specs.Words.{whole, whole_of};

use crate::commands::Side;
use std::alloc::{AllocError, Global};
use vortex_bounds::laws::{bounds_are_computed, bounds_are_unique, items_are_bytes};
use vortex_bounds::{lower_bound, upper_bound};
use vortex_dtype::{ByteBuffer, DType, INLINE_BYTES, Nullability, PType};
use vortex_pvalue::PValue;
use vortex_value::{Scalar, ScalarValue};

/// The number as this `PType`, if that has it: by a cast of its scalar.
pub fn number_in_ptype(alloc: Global, number: PValue, ptype: PType) -> Option<PValue>
    ensures { MatchOption result
        (¬ (InRange ptype (whole_of number)))
        (IsNumber ptype (whole_of number)) }
{
    let target = DType::Primitive(ptype, Nullability::NonNullable);
    let source = scalar_of(number);
    match source.cast(alloc, &target) {
        Ok(made) => {
            drop_number(source);
            Some(number_of(&made))
        }
        Err(_) => {
            drop_number(source);
            None
        }
    }
}

/// The scalar of the number.
fn scalar_of(number: PValue) -> Scalar
    ensures typed { scalar_type result ≡ integer_type (ptype_of number) NonNullable }
    ensures content { scalar_content result ≡ whole (whole_of number) }
    ensures valid { IsValid result }
{
    Scalar {
        dtype: DType::Primitive(number.ptype(), Nullability::NonNullable),
        value: Some(ScalarValue::Primitive(number)),
    }
}

/// The number of a scalar that has one. The match on the type tells the compiler that the scalar
/// owns no memory.
fn number_of(scalar: &Scalar) -> PValue
    requires typed { IsInteger (scalar_type scalar.now) }
    requires present { IsIntegerValue (scalar_raw scalar.now) }
    ensures { scalar_raw scalar.now ≡ raw_integer (ptype_of result) (whole_of result) }
{
    match (scalar.dtype(), scalar.value()) {
        (DType::Primitive(_, _), Some(value)) => *value.as_primitive(),
        _ => unreachable!(),
    }
}

/// Drops the scalar of a number. The look at the number lets the compiler leave out the freeing of
/// memory, as such a scalar owns none.
fn drop_number(scalar: Scalar)
    requires typed { IsInteger (scalar_type scalar) }
    requires present { IsIntegerValue (scalar_raw scalar) }
{
    let _number = number_of(&scalar);
}

/// The bytes if there are at most `length`, else their bound on this side, if there is one. Takes no
/// memory if `length` is at most 22.
pub fn bound_at(
    alloc: Global,
    side: Side,
    length: u64,
    value: ByteBuffer,
) -> Result<Option<ByteBuffer>, AllocError>
    ensures text { IfOk result (λ given. bound_text given ≡ request_text (bound side length value)) }
    ensures inline { length ≤ INLINE_BYTES → IsOk result }
{
    match side {
        Side::Lower => lower_at(alloc, length, value),
        Side::Upper => upper_at(alloc, length, value),
    }
}

/// The bytes if there are at most `length`, else their lower bound.
fn lower_at(alloc: Global, length: u64, value: ByteBuffer) -> Result<Option<ByteBuffer>, AllocError>
    ensures text { IfOk result (λ given. bound_text given ≡ request_text (bound Lower length value)) }
    ensures inline { length ≤ INLINE_BYTES → IsOk result }
{
    bounds_are_computed();
    bounds_are_unique();
    items_are_bytes(value.as_slice());
    let length = length as usize;
    let Ok(given) = lower_bound(alloc, Some(value), length, Nullability::NonNullable) else {
        return Err(AllocError);
    };
    match given {
        Some((bound, _)) => Ok(Some(bytes_of(bound))),
        None => unreachable!(),
    }
}

/// The bytes if there are at most `length`, else their upper bound, if there is one.
fn upper_at(alloc: Global, length: u64, value: ByteBuffer) -> Result<Option<ByteBuffer>, AllocError>
    ensures text { IfOk result (λ given. bound_text given ≡ request_text (bound Upper length value)) }
    ensures inline { length ≤ INLINE_BYTES → IsOk result }
{
    bounds_are_computed();
    bounds_are_unique();
    items_are_bytes(value.as_slice());
    let length = length as usize;
    let Ok(given) = upper_bound(alloc, Some(value), length, Nullability::NonNullable) else {
        return Err(AllocError);
    };
    match given {
        Some((bound, _)) => Ok(Some(bytes_of(bound))),
        None => Ok(None),
    }
}

/// The bytes of a scalar that has some. The match on the type tells the compiler that there is
/// nothing of it to drop: by `bench/run` that is 5 % of the instructions of all commands.
fn bytes_of(scalar: Scalar) -> ByteBuffer
    requires typed { scalar_type scalar ≡ binary_type NonNullable }
    requires present { IsBytesValue (scalar_raw scalar) }
    ensures { scalar_raw scalar ≡ raw_bytes result }
{
    let (dtype, value) = scalar.into_parts();
    let DType::Binary(_) = dtype else {
        unreachable!();
    };
    match value {
        Some(value) => value.into_binary(),
        None => unreachable!(),
    }
}

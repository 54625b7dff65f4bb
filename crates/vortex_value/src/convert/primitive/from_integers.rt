//! The eight integers out of raw values and scalars, valid or not.
//!
//! Of a raw value `WrongKind` if it is no integer, then `OutOfRange` if the integer type does not have
//! it. Of a scalar the raw value alone is looked at, so `IsNull` of a null comes before these. Ports
//! the impls of `TryFrom<&ScalarValue>` and `TryFrom<&Scalar>`, which panic if there is no integer;
//! those for `ScalarRef` are of this port alone.

ghost use Rattle.std.specs.Prelude.{pos};
ghost use Rattle.vortex_value.specs.Words.{I16, I32, I64, I8, Takes, U16, U32, U64, U8, given_number, number_in};
ghost use Rattle.vortex_value.specs.Words.{ref_raw, ref_type, scalar_raw, scalar_type, taken_number, value_tree};

use super::take_number;
use crate::refs::ScalarRef;
use crate::scalars::Scalar;
use crate::values::ScalarValue;
use vortex_dtype::VortexError;

impl TryFrom<&ScalarValue> for u8 {
    type Error = VortexError;

    ghost try_from_gives = { λ v r. Takes (given_number U8 pos)
        (number_in U8 (value_tree v.now)) r };

    fn try_from(value: &ScalarValue) -> Result<u8, VortexError> {
        take_number(value)
    }
}

impl TryFrom<ScalarRef<'_>> for u8 {
    type Error = VortexError;

    ghost try_from_gives = { λ x r. Takes (given_number U8 pos)
        (taken_number U8 (ref_type x) (ref_raw x)) r };

    fn try_from(scalar: ScalarRef<'_>) -> Result<u8, VortexError> {
        scalar.number()
    }
}

impl TryFrom<&Scalar> for u8 {
    type Error = VortexError;

    ghost try_from_gives = { λ x r. Takes (given_number U8 pos)
        (taken_number U8 (scalar_type x.now) (scalar_raw x.now)) r };

    fn try_from(scalar: &Scalar) -> Result<u8, VortexError> {
        u8::try_from(ScalarRef::of(scalar))
    }
}

impl TryFrom<&ScalarValue> for u16 {
    type Error = VortexError;

    ghost try_from_gives = { λ v r. Takes (given_number U16 pos)
        (number_in U16 (value_tree v.now)) r };

    fn try_from(value: &ScalarValue) -> Result<u16, VortexError> {
        take_number(value)
    }
}

impl TryFrom<ScalarRef<'_>> for u16 {
    type Error = VortexError;

    ghost try_from_gives = { λ x r. Takes (given_number U16 pos)
        (taken_number U16 (ref_type x) (ref_raw x)) r };

    fn try_from(scalar: ScalarRef<'_>) -> Result<u16, VortexError> {
        scalar.number()
    }
}

impl TryFrom<&Scalar> for u16 {
    type Error = VortexError;

    ghost try_from_gives = { λ x r. Takes (given_number U16 pos)
        (taken_number U16 (scalar_type x.now) (scalar_raw x.now)) r };

    fn try_from(scalar: &Scalar) -> Result<u16, VortexError> {
        u16::try_from(ScalarRef::of(scalar))
    }
}

impl TryFrom<&ScalarValue> for u32 {
    type Error = VortexError;

    ghost try_from_gives = { λ v r. Takes (given_number U32 pos)
        (number_in U32 (value_tree v.now)) r };

    fn try_from(value: &ScalarValue) -> Result<u32, VortexError> {
        take_number(value)
    }
}

impl TryFrom<ScalarRef<'_>> for u32 {
    type Error = VortexError;

    ghost try_from_gives = { λ x r. Takes (given_number U32 pos)
        (taken_number U32 (ref_type x) (ref_raw x)) r };

    fn try_from(scalar: ScalarRef<'_>) -> Result<u32, VortexError> {
        scalar.number()
    }
}

impl TryFrom<&Scalar> for u32 {
    type Error = VortexError;

    ghost try_from_gives = { λ x r. Takes (given_number U32 pos)
        (taken_number U32 (scalar_type x.now) (scalar_raw x.now)) r };

    fn try_from(scalar: &Scalar) -> Result<u32, VortexError> {
        u32::try_from(ScalarRef::of(scalar))
    }
}

impl TryFrom<&ScalarValue> for u64 {
    type Error = VortexError;

    ghost try_from_gives = { λ v r. Takes (given_number U64 pos)
        (number_in U64 (value_tree v.now)) r };

    fn try_from(value: &ScalarValue) -> Result<u64, VortexError> {
        take_number(value)
    }
}

impl TryFrom<ScalarRef<'_>> for u64 {
    type Error = VortexError;

    ghost try_from_gives = { λ x r. Takes (given_number U64 pos)
        (taken_number U64 (ref_type x) (ref_raw x)) r };

    fn try_from(scalar: ScalarRef<'_>) -> Result<u64, VortexError> {
        scalar.number()
    }
}

impl TryFrom<&Scalar> for u64 {
    type Error = VortexError;

    ghost try_from_gives = { λ x r. Takes (given_number U64 pos)
        (taken_number U64 (scalar_type x.now) (scalar_raw x.now)) r };

    fn try_from(scalar: &Scalar) -> Result<u64, VortexError> {
        u64::try_from(ScalarRef::of(scalar))
    }
}

impl TryFrom<&ScalarValue> for i8 {
    type Error = VortexError;

    ghost try_from_gives = { λ v r. Takes (given_number I8 (λ n. n))
        (number_in I8 (value_tree v.now)) r };

    fn try_from(value: &ScalarValue) -> Result<i8, VortexError> {
        take_number(value)
    }
}

impl TryFrom<ScalarRef<'_>> for i8 {
    type Error = VortexError;

    ghost try_from_gives = { λ x r. Takes (given_number I8 (λ n. n))
        (taken_number I8 (ref_type x) (ref_raw x)) r };

    fn try_from(scalar: ScalarRef<'_>) -> Result<i8, VortexError> {
        scalar.number()
    }
}

impl TryFrom<&Scalar> for i8 {
    type Error = VortexError;

    ghost try_from_gives = { λ x r. Takes (given_number I8 (λ n. n))
        (taken_number I8 (scalar_type x.now) (scalar_raw x.now)) r };

    fn try_from(scalar: &Scalar) -> Result<i8, VortexError> {
        i8::try_from(ScalarRef::of(scalar))
    }
}

impl TryFrom<&ScalarValue> for i16 {
    type Error = VortexError;

    ghost try_from_gives = { λ v r. Takes (given_number I16 (λ n. n))
        (number_in I16 (value_tree v.now)) r };

    fn try_from(value: &ScalarValue) -> Result<i16, VortexError> {
        take_number(value)
    }
}

impl TryFrom<ScalarRef<'_>> for i16 {
    type Error = VortexError;

    ghost try_from_gives = { λ x r. Takes (given_number I16 (λ n. n))
        (taken_number I16 (ref_type x) (ref_raw x)) r };

    fn try_from(scalar: ScalarRef<'_>) -> Result<i16, VortexError> {
        scalar.number()
    }
}

impl TryFrom<&Scalar> for i16 {
    type Error = VortexError;

    ghost try_from_gives = { λ x r. Takes (given_number I16 (λ n. n))
        (taken_number I16 (scalar_type x.now) (scalar_raw x.now)) r };

    fn try_from(scalar: &Scalar) -> Result<i16, VortexError> {
        i16::try_from(ScalarRef::of(scalar))
    }
}

impl TryFrom<&ScalarValue> for i32 {
    type Error = VortexError;

    ghost try_from_gives = { λ v r. Takes (given_number I32 (λ n. n))
        (number_in I32 (value_tree v.now)) r };

    fn try_from(value: &ScalarValue) -> Result<i32, VortexError> {
        take_number(value)
    }
}

impl TryFrom<ScalarRef<'_>> for i32 {
    type Error = VortexError;

    ghost try_from_gives = { λ x r. Takes (given_number I32 (λ n. n))
        (taken_number I32 (ref_type x) (ref_raw x)) r };

    fn try_from(scalar: ScalarRef<'_>) -> Result<i32, VortexError> {
        scalar.number()
    }
}

impl TryFrom<&Scalar> for i32 {
    type Error = VortexError;

    ghost try_from_gives = { λ x r. Takes (given_number I32 (λ n. n))
        (taken_number I32 (scalar_type x.now) (scalar_raw x.now)) r };

    fn try_from(scalar: &Scalar) -> Result<i32, VortexError> {
        i32::try_from(ScalarRef::of(scalar))
    }
}

impl TryFrom<&ScalarValue> for i64 {
    type Error = VortexError;

    ghost try_from_gives = { λ v r. Takes (given_number I64 (λ n. n))
        (number_in I64 (value_tree v.now)) r };

    fn try_from(value: &ScalarValue) -> Result<i64, VortexError> {
        take_number(value)
    }
}

impl TryFrom<ScalarRef<'_>> for i64 {
    type Error = VortexError;

    ghost try_from_gives = { λ x r. Takes (given_number I64 (λ n. n))
        (taken_number I64 (ref_type x) (ref_raw x)) r };

    fn try_from(scalar: ScalarRef<'_>) -> Result<i64, VortexError> {
        scalar.number()
    }
}

impl TryFrom<&Scalar> for i64 {
    type Error = VortexError;

    ghost try_from_gives = { λ x r. Takes (given_number I64 (λ n. n))
        (taken_number I64 (scalar_type x.now) (scalar_raw x.now)) r };

    fn try_from(scalar: &Scalar) -> Result<i64, VortexError> {
        i64::try_from(ScalarRef::of(scalar))
    }
}

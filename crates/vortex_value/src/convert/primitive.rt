//! Conversions between scalars and integers: what holds for all eight integer types, for `PValue`
//! and for `usize`. The impls for each of the eight stand in `from_integers`.

ghost use Rattle.std.specs.Prelude.{◌≡◌};
ghost use Rattle.vortex_value.specs.Words.{IsMadeValid, NonNullable, Nullable, Takes, U64, given_number, given_option};
ghost use Rattle.vortex_value.specs.Words.{given_usize, integer_type, lent_raw, number_in, or_none, ptype_of};
ghost use Rattle.vortex_value.specs.Words.{raw_integer, ref_raw, ref_type, scalar_raw, scalar_type, taken_number};
ghost use Rattle.vortex_value.specs.Words.{taken_option_number, taken_option_usize, taken_usize, value_tree, whole_of};

use crate::refs::ScalarRef;
use crate::scalars::Scalar;
use crate::values::ScalarValue;
use vortex_dtype::{DType, Nullability, PType, VortexError};
use vortex_pvalue::laws::native_is_in_range;
use vortex_pvalue::{NativePType, PValue};

mod from_integers;

/// The eight integers. A trait of this crate, so that one impl for them all stands beside those for
/// other types.
pub trait Integer: NativePType {}

impl Integer for u8 {}

impl Integer for u16 {}

impl Integer for u32 {}

impl Integer for u64 {}

impl Integer for i8 {}

impl Integer for i16 {}

impl Integer for i32 {}

impl Integer for i64 {}

/// The integer value.
impl From<PValue> for ScalarValue {
    ghost from_gives = { λ p v. value_tree v ≡ raw_integer (ptype_of p) (whole_of p) };

    fn from(value: PValue) -> ScalarValue {
        ScalarValue::Primitive(value)
    }
}

/// The number, with the `PType` of its Rust type.
impl<T: Integer> From<T> for ScalarValue {
    ghost from_gives = { λ n v. value_tree v ≡ given_number T.PTYPE T.value n };

    fn from(value: T) -> ScalarValue {
        ScalarValue::Primitive(value.into_pvalue())
    }
}

/// The number, of the integer type of its Rust type that takes no null.
impl<T: Integer> From<T> for Scalar {
    ghost from_gives = { λ n y. IsMadeValid
        (integer_type T.PTYPE NonNullable) (given_number T.PTYPE T.value n) y };

    fn from(value: T) -> Scalar {
        Scalar::primitive(value, Nullability::NonNullable)
    }
}

/// The number, of the nullable integer type of its Rust type; `None` is the null.
impl<T: Integer> From<Option<T>> for Scalar {
    ghost from_gives = { λ o y. IsMadeValid
        (integer_type T.PTYPE Nullable) (given_option (given_number T.PTYPE T.value) o) y };

    fn from(value: Option<T>) -> Scalar {
        match value {
            Some(value) => Scalar::primitive(value, Nullability::Nullable),
            None => Scalar::null(DType::Primitive(T::PTYPE, Nullability::Nullable)),
        }
    }
}

/// The number of a raw value as this Rust type. `WrongKind` if the value is no integer,
/// `OutOfRange` if the type does not have the number.
fn take_number<T: NativePType>(value: &ScalarValue) -> Result<T, VortexError>
    ensures { Takes (given_number T.PTYPE T.value)
        (number_in T.PTYPE (value_tree value.now)) result }
{
    let ScalarValue::Primitive(number) = value else {
        return Err(VortexError::WrongKind);
    };
    let native = T::from_pvalue(number).ok_or(VortexError::OutOfRange)?;
    native_is_in_range(native);
    Ok(native)
}

/// The number of a raw value, or `None` of a null.
fn take_or_none<T: NativePType>(value: Option<&ScalarValue>) -> Result<Option<T>, VortexError>
    ensures { Takes (given_option (given_number T.PTYPE T.value))
        (or_none (number_in T.PTYPE) (lent_raw value.entry)) result }
{
    match value {
        Some(value) => Ok(Some(take_number(value)?)),
        None => Ok(None),
    }
}

impl ScalarRef<'_> {
    /// The number as this integer type, whatever the scalar's type, valid or not. Of this port
    /// alone.
    ///
    /// `IsNull` of a null, then `WrongKind` if the raw value is no integer, then `OutOfRange` if
    /// the integer type does not have the number.
    pub fn number<T: NativePType>(&self) -> Result<T, VortexError>
        ensures { Takes (given_number T.PTYPE T.value)
            (taken_number T.PTYPE (ref_type self.now) (ref_raw self.now)) result }
    {
        take_number(self.value().ok_or(VortexError::IsNull)?)
    }

    /// The number, if the scalar's type is exactly this integer type; `None` of a null. Of this
    /// port alone.
    ///
    /// `WrongKind` if the type is no integer type, then `WrongPType` if it is another one, of a
    /// null too. Then `WrongKind` if the raw value is no integer, and `OutOfRange` if the integer
    /// type does not have the number.
    pub fn optional_number<T: NativePType>(&self) -> Result<Option<T>, VortexError>
        ensures { Takes (given_option (given_number T.PTYPE T.value))
            (taken_option_number T.PTYPE (ref_type self.now) (ref_raw self.now)) result }
    {
        match self.dtype() {
            DType::Primitive(ptype, _) if *ptype == T::PTYPE => take_or_none(self.value()),
            DType::Primitive(..) => Err(VortexError::WrongPType),
            _ => Err(VortexError::WrongKind),
        }
    }
}

/// The number as `optional_number` gives it, with the same refusals. Of this port alone.
impl<T: Integer> TryFrom<ScalarRef<'_>> for Option<T> {
    type Error = VortexError;

    ghost try_from_gives = { λ x r. Takes (given_option (given_number T.PTYPE T.value))
        (taken_option_number T.PTYPE (ref_type x) (ref_raw x)) r };

    fn try_from(scalar: ScalarRef<'_>) -> Result<Option<T>, VortexError> {
        scalar.optional_number()
    }
}

/// The number as `ScalarRef::optional_number` gives it, with the same refusals.
impl<T: Integer> TryFrom<&Scalar> for Option<T> {
    type Error = VortexError;

    ghost try_from_gives = { λ x r. Takes (given_option (given_number T.PTYPE T.value))
        (taken_option_number T.PTYPE (scalar_type x.now) (scalar_raw x.now)) r };

    fn try_from(scalar: &Scalar) -> Result<Option<T>, VortexError> {
        Option::<T>::try_from(ScalarRef::of(scalar))
    }
}

/// The number as a `u64`.
impl From<usize> for ScalarValue {
    ghost from_gives = { λ n v. value_tree v ≡ given_usize n };

    fn from(value: usize) -> ScalarValue {
        ScalarValue::Primitive(PValue::from(value))
    }
}

/// The number as a `u64`, of the type that takes no null.
impl From<usize> for Scalar {
    ghost from_gives = { λ n y. IsMadeValid (integer_type U64 NonNullable) (given_usize n) y };

    fn from(value: usize) -> Scalar {
        Scalar::primitive(value as u64, Nullability::NonNullable)
    }
}

/// The number as a `u64`, of the nullable type; `None` is the null.
impl From<Option<usize>> for Scalar {
    ghost from_gives = { λ o y. IsMadeValid
        (integer_type U64 Nullable) (given_option given_usize o) y };

    fn from(value: Option<usize>) -> Scalar {
        match value {
            Some(value) => Scalar::primitive(value as u64, Nullability::Nullable),
            None => Scalar::null(DType::Primitive(PType::U64, Nullability::Nullable)),
        }
    }
}

/// The number. `WrongKind` if the value is no integer, then `OutOfRange` if it is not between 0 and
/// `u64::MAX`. Ports `impl TryFrom<&ScalarValue> for usize`, which panics if the value is no
/// integer.
impl TryFrom<&ScalarValue> for usize {
    type Error = VortexError;

    ghost try_from_gives = { λ v r. Takes given_usize (number_in U64 (value_tree v.now)) r };

    fn try_from(value: &ScalarValue) -> Result<usize, VortexError> {
        Ok(take_number::<u64>(value)? as usize)
    }
}

/// The number. `WrongKind` if the type is no integer type, as an extension over one; then `IsNull`
/// of a null. Then `WrongKind` if the raw value is no integer, and `OutOfRange` if it is not
/// between 0 and `u64::MAX`.
impl TryFrom<ScalarRef<'_>> for usize {
    type Error = VortexError;

    ghost try_from_gives = { λ x r. Takes given_usize (taken_usize (ref_type x) (ref_raw x)) r };

    fn try_from(scalar: ScalarRef<'_>) -> Result<usize, VortexError> {
        match scalar.dtype() {
            DType::Primitive(..) => Ok(scalar.number::<u64>()? as usize),
            _ => Err(VortexError::WrongKind),
        }
    }
}

/// The number. `WrongKind` if the type is no integer type, as an extension over one; then `IsNull`
/// of a null. Then `WrongKind` if the raw value is no integer, and `OutOfRange` if it is not
/// between 0 and `u64::MAX`.
impl TryFrom<&Scalar> for usize {
    type Error = VortexError;

    ghost try_from_gives = { λ x r. Takes given_usize
        (taken_usize (scalar_type x.now) (scalar_raw x.now)) r };

    fn try_from(scalar: &Scalar) -> Result<usize, VortexError> {
        usize::try_from(ScalarRef::of(scalar))
    }
}

/// The number, or `None` of a null. `WrongKind` if the type is no integer type or the raw value is
/// neither null nor an integer, and `OutOfRange` if it is not between 0 and `u64::MAX`.
impl TryFrom<ScalarRef<'_>> for Option<usize> {
    type Error = VortexError;

    ghost try_from_gives = { λ x r. Takes (given_option given_usize)
        (taken_option_usize (ref_type x) (ref_raw x)) r };

    fn try_from(scalar: ScalarRef<'_>) -> Result<Option<usize>, VortexError> {
        match (scalar.dtype(), scalar.value()) {
            (DType::Primitive(..), Some(value)) => Ok(Some(usize::try_from(value)?)),
            (DType::Primitive(..), None) => Ok(None),
            _ => Err(VortexError::WrongKind),
        }
    }
}

/// The number, or `None` of a null. `WrongKind` if the type is no integer type or the raw value is
/// neither null nor an integer, and `OutOfRange` if it is not between 0 and `u64::MAX`.
impl TryFrom<&Scalar> for Option<usize> {
    type Error = VortexError;

    ghost try_from_gives = { λ x r. Takes (given_option given_usize)
        (taken_option_usize (scalar_type x.now) (scalar_raw x.now)) r };

    fn try_from(scalar: &Scalar) -> Result<Option<usize>, VortexError> {
        Option::<usize>::try_from(ScalarRef::of(scalar))
    }
}

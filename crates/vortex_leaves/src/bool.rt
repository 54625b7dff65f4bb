//! Views of booleans.

ghost use Rattle.std.specs.Prelude.{◌≡◌, ◌≢◌, Err, IsTrue, MatchOption};
ghost use Rattle.vortex_leaves.specs.Words.{AnswersView, GivesView, IsMadeOf, IsValid, absent, is_bool_type, lent_raw};
ghost use Rattle.vortex_leaves.specs.Words.{may_be_truth, opposite, raw_bool, scalar_raw, scalar_type, type_of};

use std::alloc::Global;
use vortex_dtype::{DType, VortexError};
use vortex_value::{Scalar, ScalarValue};

mod comparisons;

/// A boolean of a scalar, or its null, and the scalar's type. Ports
/// `vortex_array::scalar::BoolScalar`.
#[derive(Clone, Copy, Debug)]
pub struct BoolScalar<'a> {
    dtype: &'a DType,
    value: Option<bool>,
    ghost kind: { IsTrue (is_bool_type (type_of dtype.now)) },
}

impl<'a> BoolScalar<'a> {
    ghost use Rattle.vortex_leaves.specs.ViewWords.{IsBoolViewOf, IsValidBoolView, bool_view_raw, bool_view_type};

    /// The view of a type and a raw value. `None` is the null.
    ///
    /// `WrongKind` if the type is not a type of booleans; an extension over one is not. Else
    /// `Invalid` if the value is not valid for the type.
    pub fn try_new(
        alloc: Global,
        dtype: &'a DType,
        value: Option<&ScalarValue>,
    ) -> Result<BoolScalar<'a>, VortexError>
        ensures answers { AnswersView IsBoolViewOf IsValidBoolView is_bool_type
            (type_of dtype.now) (lent_raw value.entry) result }
        ensures memory { result ≢ Err VortexError.OutOfMemory }
    {
        let DType::Bool(_) = dtype else {
            return Err(VortexError::WrongKind);
        };
        Scalar::validate(alloc, dtype, value)?;
        let value = value.map(|value| value.as_bool());
        Ok(BoolScalar { dtype, value })
    }

    /// The type.
    pub fn dtype(&self) -> &'a DType
        ensures { type_of result.now ≡ bool_view_type self.now }
    {
        self.dtype
    }

    /// The boolean; `None` for a null.
    pub fn value(&self) -> Option<bool>
        ensures { MatchOption result
            (bool_view_raw self.now ≡ absent)
            (λ truth. bool_view_raw self.now ≡ raw_bool truth) }
    {
        self.value
    }

    /// The view of the other boolean, of the same type; a null stays null.
    pub fn invert(self) -> BoolScalar<'a>
        ensures made { IsBoolViewOf
            (bool_view_type self.entry) (opposite (bool_view_raw self.entry)) result }
        ensures valid { IsValidBoolView self.entry → IsValidBoolView result }
    {
        BoolScalar {
            dtype: self.dtype,
            value: self.value.map(|truth| !truth),
        }
    }

    /// The scalar of the same type and value.
    pub fn into_scalar(self) -> Scalar
        ensures made { IsMadeOf (bool_view_type self.entry) (bool_view_raw self.entry) result }
        ensures valid { IsValidBoolView self.entry → IsValid result }
    {
        let nullability = self.dtype.nullability();
        Scalar {
            dtype: DType::Bool(nullability),
            value: self.value.map(ScalarValue::Bool),
        }
    }
}

/// The view of a scalar's type and value. It is valid if the scalar is.
///
/// `WrongKind` exactly if the type is not a type of booleans, or the raw value of another variant.
impl<'a> TryFrom<&'a Scalar> for BoolScalar<'a> {
    ghost use Rattle.vortex_leaves.specs.ViewWords.{IsBoolViewOf};

    type Error = VortexError;

    ghost try_from_gives = { λ scalar. GivesView
        (IsBoolViewOf (scalar_type scalar.now) (scalar_raw scalar.now))
        (IsTrue (is_bool_type (scalar_type scalar.now))
        × IsTrue (may_be_truth (scalar_raw scalar.now))) };

    fn try_from(scalar: &'a Scalar) -> Result<BoolScalar<'a>, VortexError> {
        let DType::Bool(_) = scalar.dtype() else {
            return Err(VortexError::WrongKind);
        };
        let value = match scalar.value() {
            Some(ScalarValue::Bool(truth)) => Some(*truth),
            Some(_) => return Err(VortexError::WrongKind),
            None => None,
        };
        Ok(BoolScalar {
            dtype: scalar.dtype(),
            value,
        })
    }
}

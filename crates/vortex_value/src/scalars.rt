//! Scalars: a type and an optional raw value.

ghost use Rattle.std.specs.Prelude.{◌≡◌, ◌↔◌, not, IsOk, IsTrue, Ok, Err, IfOk, IfErr, MatchResult};

use crate::copies;
use crate::values::ScalarValue;
use std::alloc::Global;
use vortex_dtype::{DType, VortexError};

/// A type and an optional raw value; `None` is the null.
///
/// A literal of the public fields need not be valid; `Scalar::validate` tests it. Ports
/// `vortex_array::scalar::Scalar`.
#[cycle(value)]
#[derive(Debug, Drop)]
pub struct Scalar {
    /// The type.
    pub dtype: DType,
    /// The raw value; `None` for a null.
    pub value: Option<ScalarValue>,
}

impl Scalar {
    ghost use Rattle.vortex_value.specs.Words.{EqualContents, IsFlat, IsMadeOf, IsValid, Same, is_absent};
    ghost use Rattle.vortex_value.specs.Words.{option_copied, scalar_content, scalar_raw, scalar_type};

    /// The type.
    pub fn dtype(&self) -> &DType
        ensures { result.now ≡ self.now.dtype }
    {
        &self.dtype
    }

    /// The raw value; `None` for a null.
    pub fn value(&self) -> Option<&ScalarValue>
        ensures { option_copied result ≡ self.now.value }
    {
        self.value.as_ref()
    }

    /// The raw value, by value; `None` for a null.
    pub fn into_value(self) -> Option<ScalarValue>
        ensures { result ≡ self.value }
    {
        let Scalar { dtype, value } = self;
        drop(dtype);
        value
    }

    /// The type and the raw value, by value.
    pub fn into_parts(self) -> (DType, Option<ScalarValue>)
        ensures dtype { result.0 ≡ self.dtype }
        ensures value { result.1 ≡ self.value }
    {
        (self.dtype, self.value)
    }

    /// Whether the scalar is not null. A union's inner null and a variant's null are not the null.
    pub fn is_valid(&self) -> bool
        ensures { result ≡ not (is_absent (scalar_raw self.now)) }
    {
        self.value.is_some()
    }

    /// Whether the scalar is null. A union's inner null and a variant's null are not the null.
    pub fn is_null(&self) -> bool
        ensures { result ≡ is_absent (scalar_raw self.now) }
    {
        self.value.is_none()
    }

    /// Whether the types are the same up to nullability and the contents are equal. `==` says the
    /// same.
    pub fn eq_ignore_nullability(&self, other: &Scalar) -> bool
        ensures { IsTrue result ↔ (Same (scalar_type self.now) (scalar_type other.now)
            × EqualContents (scalar_content self.now) (scalar_content other.now)) }
    {
        self == other
    }

    /// A copy of the exact type and the exact raw value.
    ///
    /// `OutOfMemory` is its only refusal. A valid scalar of a type whose values take no memory is
    /// never refused. Ports the `Clone` of `Scalar`.
    pub fn clone(&self, alloc: Global) -> Result<Scalar, VortexError>
        ensures copied { IfOk result (IsMadeOf (scalar_type self.now) (scalar_raw self.now)) }
        ensures refused { IfErr result (λ e. e ≡ VortexError.OutOfMemory) }
        ensures flat { IsFlat (scalar_type self.now) → IsValid self.now → IsOk result }
    {
        copies::copy_scalar(alloc, self)
    }

    /// The scalar of this type and of the value that was made for it, or the error that the value
    /// came with. It does not look at validity. Of this port alone: makers here and above end with
    /// it.
    pub fn with_value(
        dtype: DType,
        value: Result<Option<ScalarValue>, VortexError>,
    ) -> Result<Scalar, VortexError>
        ensures { MatchResult value
            (λ v. result ≡ Ok (record { dtype = dtype; value = v }))
            (λ e. result ≡ Err e) }
    {
        match value {
            Ok(value) => Ok(Scalar { dtype, value }),
            Err(cause) => {
                drop(dtype);
                Err(cause)
            }
        }
    }
}

/// The scalar of this value and of the type that was made for it, or the error that the type came
/// with. The value is then dropped by a call: at an exit its drop is written out, variant by
/// variant.
pub(crate) fn with_type(
    dtype: Result<DType, VortexError>,
    value: Option<ScalarValue>,
) -> Result<Scalar, VortexError>
    ensures { MatchResult dtype
        (λ t. result ≡ Ok (record { dtype = t; value = value }))
        (λ e. result ≡ Err e) }
{
    match dtype {
        Ok(dtype) => Ok(Scalar { dtype, value }),
        Err(cause) => {
            drop(value);
            Err(cause)
        }
    }
}

//! Views of bytes.

ghost use Rattle.std.specs.Prelude.{◌≡◌, ◌≢◌, ◌==◌, Err, IsTrue, MatchOption, Some, length, option_map};
ghost use Rattle.vortex_leaves.specs.Words.{AnswersRefView, GivesView, IsRefOf, absent, is_binary_type, lent_raw};
ghost use Rattle.vortex_leaves.specs.Words.{may_be_bytes, raw_bytes, ref_bytes, ref_raw, ref_type, scalar_raw};
ghost use Rattle.vortex_leaves.specs.Words.{scalar_type, type_of};

use std::alloc::Global;
use vortex_dtype::{ByteBuffer, DType, VortexError};
use vortex_value::{Scalar, ScalarRef, ScalarValue};

mod comparisons;

/// Bytes of a scalar, or its null, and the scalar's type. Ports
/// `vortex_array::scalar::BinaryScalar`.
#[derive(Clone, Copy, Debug)]
pub struct BinaryScalar<'a> {
    scalar: ScalarRef<'a>,
    ghost kind: { IsTrue (is_binary_type (ref_type scalar)) },
    ghost holds: { IsTrue (may_be_bytes (ref_raw scalar)) },
}

impl<'a> BinaryScalar<'a> {
    ghost use Rattle.vortex_leaves.specs.ViewWords.{bytes_ref, bytes_view_raw, bytes_view_type};

    /// The view of a type and a raw value. `None` is the null.
    ///
    /// `WrongKind` if the type is not a type of bytes; an extension over one is not. Else `Invalid`
    /// if the value is not valid for the type.
    pub fn try_new(
        alloc: Global,
        dtype: &'a DType,
        value: Option<&'a ScalarValue>,
    ) -> Result<BinaryScalar<'a>, VortexError>
        ensures answers { AnswersRefView bytes_ref is_binary_type
            (type_of dtype.now) (lent_raw value.entry) result }
        ensures memory { result ≢ Err VortexError.OutOfMemory }
    {
        if !dtype.is_binary() {
            return Err(VortexError::WrongKind);
        }
        let scalar = ScalarRef::try_new(alloc, dtype, value)?;
        Ok(BinaryScalar { scalar })
    }

    /// The type.
    pub fn dtype(&self) -> &'a DType
        ensures { type_of result.now ≡ bytes_view_type self.now }
    {
        self.scalar.dtype()
    }

    /// The bytes; `None` for a null.
    pub fn value(&self) -> Option<&'a ByteBuffer>
        ensures { MatchOption result
            (bytes_view_raw self.now ≡ absent)
            (λ bytes. bytes_view_raw self.now ≡ raw_bytes bytes.now) }
    {
        Some(self.scalar.value()?.as_binary())
    }

    /// How many bytes there are; `None` for a null.
    pub fn len(&self) -> Option<usize>
        ensures { result ≡ option_map length (ref_bytes (bytes_ref self.now)) }
    {
        self.value().map(|bytes| bytes.len())
    }

    /// Whether there are no bytes; `None` for a null.
    pub fn is_empty(&self) -> Option<bool>
        ensures { result
            ≡ option_map (λ bytes. length bytes == 0) (ref_bytes (bytes_ref self.now)) }
    {
        self.value().map(|bytes| bytes.is_empty())
    }
}

/// The view of a scalar's type and value. It is valid if the scalar is.
///
/// `WrongKind` exactly if the type is not a type of bytes, or the raw value of another variant.
impl<'a> TryFrom<&'a Scalar> for BinaryScalar<'a> {
    ghost use Rattle.vortex_leaves.specs.ViewWords.{bytes_ref};

    type Error = VortexError;

    ghost try_from_gives = { λ scalar. GivesView
        (λ view. IsRefOf (scalar_type scalar.now) (scalar_raw scalar.now) (bytes_ref view))
        (IsTrue (is_binary_type (scalar_type scalar.now))
        × IsTrue (may_be_bytes (scalar_raw scalar.now))) };

    fn try_from(scalar: &'a Scalar) -> Result<BinaryScalar<'a>, VortexError> {
        match (scalar.dtype(), scalar.value()) {
            (DType::Binary(_), None | Some(ScalarValue::Binary(_))) => Ok(BinaryScalar {
                scalar: ScalarRef::of(scalar),
            }),
            _ => Err(VortexError::WrongKind),
        }
    }
}

//! Views of strings.

ghost use Rattle.std.specs.Prelude.{◌≡◌, ◌≢◌, ◌==◌, Err, IsTrue, MatchOption, Some, length, option_map};
ghost use Rattle.vortex_leaves.specs.Words.{AnswersRefView, GivesView, IsRefOf, absent, is_utf8_type, lent_raw};
ghost use Rattle.vortex_leaves.specs.Words.{may_be_text, raw_text, ref_bytes, ref_raw, ref_type, scalar_raw};
ghost use Rattle.vortex_leaves.specs.Words.{scalar_type, type_of};

use std::alloc::Global;
use vortex_dtype::{BufferString, DType, VortexError};
use vortex_value::{Scalar, ScalarRef, ScalarValue};

mod comparisons;

/// A string of a scalar, or its null, and the scalar's type. Ports
/// `vortex_array::scalar::Utf8Scalar`.
#[derive(Clone, Copy, Debug)]
pub struct Utf8Scalar<'a> {
    scalar: ScalarRef<'a>,
    ghost kind: { IsTrue (is_utf8_type (ref_type scalar)) },
    ghost holds: { IsTrue (may_be_text (ref_raw scalar)) },
}

impl<'a> Utf8Scalar<'a> {
    ghost use Rattle.vortex_leaves.specs.ViewWords.{text_ref, text_view_raw, text_view_type};

    /// The view of a type and a raw value. `None` is the null.
    ///
    /// `WrongKind` if the type is not a type of strings; an extension over one is not. Else
    /// `Invalid` if the value is not valid for the type.
    pub fn try_new(
        alloc: Global,
        dtype: &'a DType,
        value: Option<&'a ScalarValue>,
    ) -> Result<Utf8Scalar<'a>, VortexError>
        ensures answers { AnswersRefView text_ref is_utf8_type
            (type_of dtype.now) (lent_raw value.entry) result }
        ensures memory { result ≢ Err VortexError.OutOfMemory }
    {
        if !dtype.is_utf8() {
            return Err(VortexError::WrongKind);
        }
        let scalar = ScalarRef::try_new(alloc, dtype, value)?;
        Ok(Utf8Scalar { scalar })
    }

    /// The type.
    pub fn dtype(&self) -> &'a DType
        ensures { type_of result.now ≡ text_view_type self.now }
    {
        self.scalar.dtype()
    }

    /// The string; `None` for a null.
    pub fn value(&self) -> Option<&'a BufferString>
        ensures { MatchOption result
            (text_view_raw self.now ≡ absent)
            (λ text. text_view_raw self.now ≡ raw_text text.now) }
    {
        Some(self.scalar.value()?.as_utf8())
    }

    /// How many bytes the string has; `None` for a null.
    pub fn len(&self) -> Option<usize>
        ensures { result ≡ option_map length (ref_bytes (text_ref self.now)) }
    {
        self.value().map(|text| text.len())
    }

    /// Whether the string is empty; `None` for a null.
    pub fn is_empty(&self) -> Option<bool>
        ensures { result
            ≡ option_map (λ bytes. length bytes == 0) (ref_bytes (text_ref self.now)) }
    {
        self.value().map(|text| text.is_empty())
    }
}

/// The view of a scalar's type and value. It is valid if the scalar is.
///
/// `WrongKind` exactly if the type is not a type of strings, or the raw value of another variant.
impl<'a> TryFrom<&'a Scalar> for Utf8Scalar<'a> {
    ghost use Rattle.vortex_leaves.specs.ViewWords.{text_ref};

    type Error = VortexError;

    ghost try_from_gives = { λ scalar. GivesView
        (λ view. IsRefOf (scalar_type scalar.now) (scalar_raw scalar.now) (text_ref view))
        (IsTrue (is_utf8_type (scalar_type scalar.now))
        × IsTrue (may_be_text (scalar_raw scalar.now))) };

    fn try_from(scalar: &'a Scalar) -> Result<Utf8Scalar<'a>, VortexError> {
        match (scalar.dtype(), scalar.value()) {
            (DType::Utf8(_), None | Some(ScalarValue::Utf8(_))) => Ok(Utf8Scalar {
                scalar: ScalarRef::of(scalar),
            }),
            _ => Err(VortexError::WrongKind),
        }
    }
}

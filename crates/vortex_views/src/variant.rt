//! Views of variants.

ghost use Rattle.std.specs.Prelude.{◌≡◌, true, option_map, IfNone, IfSome, Some};
ghost use Rattle.vortex_views.specs.Words.{IsRefOf, IsValid, IsValidRef, absent, is_absent, is_of_variant, is_zero_of};
ghost use Rattle.vortex_views.specs.Words.{ref_content, ref_raw, ref_text, ref_type, scalar_part, type_of};

use std::fmt::{self, Display, Formatter, Write};
use vortex_dtype::DType;
use vortex_value::{Scalar, ScalarRef, ScalarValue};

/// A view of a scalar of a variant type: a null, or a scalar that brings its type along.
///
/// The variant-null, which holds the null of the Null type, is itself not null.
#[derive(Clone, Copy, Debug)]
pub struct VariantScalar<'a> {
    scalar: ScalarRef<'a>,
    ghost kind: { is_of_variant (ref_type scalar) (ref_raw scalar) ≡ true },
}

impl<'a> VariantScalar<'a> {
    ghost use Rattle.vortex_views.specs.ViewWords.{inner_of, is_inner_null, variant_ref, variant_view_raw};
    ghost use Rattle.vortex_views.specs.ViewWords.{variant_view_type};

    /// A borrowed scalar, viewed as a variant. The caller knows that it is one.
    ///
    /// Ports `VariantScalar::try_new`, which tests the type and panics at another raw value.
    pub(crate) fn of(scalar: ScalarRef<'a>) -> VariantScalar<'a>
        requires { is_of_variant (ref_type scalar) (ref_raw scalar) ≡ true }
        ensures { IsRefOf (ref_type scalar.entry) (ref_raw scalar.entry) (variant_ref result) }
    {
        VariantScalar { scalar }
    }

    /// The type.
    pub fn dtype(&self) -> &'a DType
        ensures { type_of result.now ≡ variant_view_type self.now }
    {
        self.scalar.dtype()
    }

    /// Whether the variant itself is null; the variant-null is not.
    pub fn is_null(&self) -> bool
        ensures { result ≡ is_absent (variant_view_raw self.now) }
    {
        self.scalar.is_null()
    }

    /// The scalar that the variant holds; `None` exactly for a null.
    pub fn value(&self) -> Option<&'a Scalar>
        ensures inner { option_map (λ inner. scalar_part inner.now) result
            ≡ inner_of (variant_view_raw self.now) }
        ensures present { IfNone result (variant_view_raw self.now ≡ absent) }
        ensures valid { IsValidRef (variant_ref self.now)
            → IfSome result (λ inner. IsValid inner.now) }
    {
        match self.scalar.value() {
            Some(ScalarValue::Variant(inner)) => Some(inner),
            Some(_) => unreachable!(),
            None => None,
        }
    }

    /// Whether the scalar that the variant holds is null, as in the variant-null; `None` exactly
    /// for a null.
    pub fn is_variant_null(&self) -> Option<bool>
        ensures null { result ≡ is_inner_null (variant_view_raw self.now) }
        ensures present { IfNone result (variant_view_raw self.now ≡ absent) }
    {
        self.value().map(|inner| inner.is_null())
    }

    /// Whether the variant is zero. The variant-null is; any other is if the scalar that it holds
    /// is. `None` for a null, and if the variant holds a union with a null child.
    pub fn is_zero(&self) -> Option<bool>
        requires { IsValidRef (variant_ref self.now) }
        ensures { result
            ≡ is_zero_of (variant_view_type self.now) (ref_content (variant_ref self.now)) }
    {
        match self.value() {
            Some(inner) if inner.is_null() => Some(true),
            Some(inner) => inner.is_zero(),
            None => None,
        }
    }
}

/// Writes `null`, or `variant(..)` with the text of the scalar that it holds.
///
/// Ports the `Display` of `VariantScalar`.
impl Display for VariantScalar<'_> {
    ghost use Rattle.vortex_views.specs.ViewWords.{variant_ref};

    ghost output = { λ x. Some (ref_text (variant_ref x)) };

    fn fmt<W: Write>(&self, f: &mut Formatter<W>) -> fmt::Result {
        self.scalar.fmt(f)
    }
}

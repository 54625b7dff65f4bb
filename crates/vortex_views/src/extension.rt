//! Views of extensions.

ghost use Rattle.std.specs.Prelude.{◌≡◌, Some, is_some, true, IfErr, IfOk, IfSome, IsOk, IsTrue};
ghost use Rattle.vortex_views.specs.Words.{GivesView, IsFlat, IsMadeOf, IsRefOf, IsValid, IsValidRef, OutOfMemory};
ghost use Rattle.vortex_views.specs.Words.{ext_of, extension_in, is_nested, is_of_kind, lent_raw, ref_order, ref_type};
ghost use Rattle.vortex_views.specs.Words.{scalar_raw, scalar_type, storage, type_of, value_tree};

use std::alloc::Global;
use std::cmp::Ordering;
use vortex_dtype::{DType, ExtDType, VortexError};
use vortex_value::{Scalar, ScalarRef, ScalarValue, storage_of};

mod comparisons;

/// A view of a scalar of an extension type: a raw value of its storage, or a null.
#[derive(Clone, Copy, Debug)]
pub struct ExtScalar<'a> {
    scalar: ScalarRef<'a>,
    ghost kind: { is_some (extension_in (ref_type scalar)) ≡ true },
}

impl<'a> ExtScalar<'a> {
    ghost use Rattle.vortex_views.specs.ViewWords.{ext_ref, ext_view_raw, ext_view_type};

    /// The type.
    pub fn dtype(&self) -> &'a DType
        ensures { type_of result.now ≡ ext_view_type self.now }
    {
        self.scalar.dtype()
    }

    /// The id, the metadata and the storage type, also of a null.
    pub fn ext_dtype(&self) -> &'a ExtDType
        ensures { Some (ext_of result.now) ≡ extension_in (ext_view_type self.now) }
    {
        self.scalar.dtype().as_extension_opt().unwrap()
    }

    /// A copy of the raw value as a scalar of the storage type, which may be an extension too.
    ///
    /// `OutOfMemory` if there is none for the copy. A valid extension over a type whose values take
    /// no memory never gives it.
    pub fn to_storage_scalar(&self, alloc: Global) -> Result<Scalar, VortexError>
        ensures stored { IfOk result (λ made. IfSome (extension_in (ext_view_type self.now))
            (λ extension. IsMadeOf extension.storage (ext_view_raw self.now) made)) }
        ensures valid { IsValidRef (ext_ref self.now) → IfOk result IsValid }
        ensures refused { IfErr result (λ e. e ≡ OutOfMemory) }
        ensures flat { IsValidRef (ext_ref self.now)
            → IfSome (extension_in (ext_view_type self.now))
            (λ extension. IsFlat extension.storage) → IsOk result }
    {
        let storage = self.ext_dtype().storage_dtype();
        ScalarRef::from_parts(storage, self.scalar.value()).to_scalar(alloc)
    }

    /// The raw value; `None` for a null.
    pub fn value(&self) -> Option<&'a ScalarValue>
        ensures { lent_raw result ≡ ext_view_raw self.now }
    {
        self.scalar.value()
    }

    /// The order of the contents, if the types are the same up to nullability, id and metadata
    /// included, and else `None`. A null is below all others.
    ///
    /// Ports the `PartialOrd` of `ExtScalar`.
    pub fn partial_cmp(&self, other: &ExtScalar<'_>) -> Option<Ordering>
        ensures { result ≡ ref_order (ext_ref self.now) (ext_ref other.now) }
    {
        self.scalar.partial_cmp(&other.scalar)
    }
}

/// Whether a raw value is a null, or of the variant that values of this type have. The type is no
/// extension.
fn is_of_kind(dtype: &DType, value: Option<&ScalarValue>) -> bool
    ensures { result ≡ is_of_kind (type_of dtype.now) (lent_raw value.entry) }
{
    match value {
        Some(value) => is_value_of_kind(dtype, value),
        None => true,
    }
}

/// Whether a raw value is of the variant that values of this type have. The type is no extension.
#[tactic(auto, using(crate::proofs::KindSteps::shown))]
fn is_value_of_kind(dtype: &DType, value: &ScalarValue) -> bool
    ensures { result ≡ is_of_kind (type_of dtype.now) (value_tree value.now) }
{
    match value {
        ScalarValue::Bool(_) => matches!(dtype, DType::Bool(_)),
        ScalarValue::Primitive(_) => matches!(dtype, DType::Primitive(_, _)),
        ScalarValue::Utf8(_) => dtype.is_utf8(),
        ScalarValue::Binary(_) => dtype.is_binary(),
        ScalarValue::Tuple(_) => is_nested(dtype),
        ScalarValue::Union(_) => dtype.is_union(),
        ScalarValue::Variant(_) => matches!(dtype, DType::Variant(_)),
    }
}

/// Whether the values of the type are tuples.
fn is_nested(dtype: &DType) -> bool
    ensures { result ≡ is_nested (type_of dtype.now) }
{
    match dtype {
        DType::List(_, _) | DType::FixedSizeList(_, _, _) => true,
        DType::Map(_, _) | DType::Struct(_, _) => true,
        _ => false,
    }
}

/// The view of a scalar's type and raw value, even if the value is not valid for the type. It is
/// valid if the scalar is.
///
/// `WrongKind` exactly if the type is no extension, or the raw value is neither a null nor of the
/// variant that values of the storage have, below all extensions. Integers of all `PType`s are of
/// one variant, and the Null type has no value but the null. Upstream has no such conversion: it
/// views only valid scalars.
impl<'a> TryFrom<&'a Scalar> for ExtScalar<'a> {
    type Error = VortexError;

    ghost use Rattle.vortex_views.specs.ViewWords.{ext_ref};

    ghost try_from_gives = { λ scalar. GivesView
        (λ view. IsRefOf (scalar_type scalar.now) (scalar_raw scalar.now) (ext_ref view))
        (IsTrue (is_some (extension_in (scalar_type scalar.now)))
        × IsTrue (is_of_kind (storage (scalar_type scalar.now)) (scalar_raw scalar.now))) };

    fn try_from(scalar: &'a Scalar) -> Result<ExtScalar<'a>, VortexError> {
        if scalar.dtype().as_extension_opt().is_none() {
            return Err(VortexError::WrongKind);
        }
        if !is_of_kind(storage_of(scalar.dtype()), scalar.value()) {
            return Err(VortexError::WrongKind);
        }
        Ok(ExtScalar {
            scalar: ScalarRef::of(scalar),
        })
    }
}

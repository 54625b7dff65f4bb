//! Scalars viewed as what their types say.

ghost use Rattle.std.specs.Prelude.{◌≡◌, true, is_some, IfSome};
ghost use Rattle.vortex_views.specs.Words.{IsRefOf, RawTree, TypeTree, Valid, element_in, fields_in, is_binary_type};
ghost use Rattle.vortex_views.specs.Words.{is_bool_type, is_extension_type, is_map_type, is_union_type, is_utf8_type};
ghost use Rattle.vortex_views.specs.Words.{is_variant_type, ptype_in, scalar_raw, scalar_type};
ghost use Rattle.vortex_views.specs.ViewWords.{IsBoolViewOf, IsNumberViewOf, bytes_ref, ext_ref, list_ref, map_ref};
ghost use Rattle.vortex_views.specs.ViewWords.{struct_ref, text_ref, union_ref, variant_ref};

use crate::extension::ExtScalar;
use crate::list::ListScalar;
use crate::map::MapScalar;
use crate::struct_::StructScalar;
use crate::union::UnionScalar;
use crate::variant::VariantScalar;
use vortex_dtype::DType;
use vortex_leaves::{BinaryScalar, BoolScalar, PrimitiveScalar, Utf8Scalar};
use vortex_value::{Scalar, ScalarRef};

/// The views of a valid scalar, by the kind of its type.
///
/// Each call gives a view of the scalar's type and raw value, also for a null. The view is valid,
/// since the scalar is. An extension is viewed only as an extension, whatever it stores. The calls
/// take no memory. Upstream has them as calls of `Scalar`, and no such trait.
pub trait Downcast {
    /// The type.
    ghost type_at: { Self → TypeTree };

    /// The raw value.
    ghost raw_at: { Self → RawTree };

    /// The view as a boolean. The caller knows the kind of the type.
    ///
    /// Ports `Scalar::as_bool`, which panics at another kind of type.
    fn as_bool(&self) -> BoolScalar<'_>
        requires valid { Valid (type_at self.now) (raw_at self.now) }
        requires kind { is_bool_type (type_at self.now) ≡ true }
        ensures { IsBoolViewOf (type_at self.now) (raw_at self.now) result }
    {
        self.as_bool_opt().unwrap()
    }

    /// The view as a boolean; `None` exactly for another kind of type.
    fn as_bool_opt(&self) -> Option<BoolScalar<'_>>
        requires { Valid (type_at self.now) (raw_at self.now) }
        ensures kind { is_some result ≡ is_bool_type (type_at self.now) }
        ensures view { IfSome result (IsBoolViewOf (type_at self.now) (raw_at self.now)) };

    /// The view as an integer. The caller knows the kind of the type.
    ///
    /// Ports `Scalar::as_primitive`, which panics at another kind of type.
    fn as_primitive(&self) -> PrimitiveScalar<'_>
        requires valid { Valid (type_at self.now) (raw_at self.now) }
        requires kind { is_some (ptype_in (type_at self.now)) ≡ true }
        ensures { IsNumberViewOf (type_at self.now) (raw_at self.now) result }
    {
        self.as_primitive_opt().unwrap()
    }

    /// The view as an integer; `None` exactly for another kind of type.
    fn as_primitive_opt(&self) -> Option<PrimitiveScalar<'_>>
        requires { Valid (type_at self.now) (raw_at self.now) }
        ensures kind { is_some result ≡ is_some (ptype_in (type_at self.now)) }
        ensures view { IfSome result (IsNumberViewOf (type_at self.now) (raw_at self.now)) };

    /// The view as a string. The caller knows the kind of the type.
    ///
    /// Ports `Scalar::as_utf8`, which panics at another kind of type.
    fn as_utf8(&self) -> Utf8Scalar<'_>
        requires valid { Valid (type_at self.now) (raw_at self.now) }
        requires kind { is_utf8_type (type_at self.now) ≡ true }
        ensures { IsRefOf (type_at self.now) (raw_at self.now) (text_ref result) }
    {
        self.as_utf8_opt().unwrap()
    }

    /// The view as a string; `None` exactly for another kind of type.
    fn as_utf8_opt(&self) -> Option<Utf8Scalar<'_>>
        requires { Valid (type_at self.now) (raw_at self.now) }
        ensures kind { is_some result ≡ is_utf8_type (type_at self.now) }
        ensures view { IfSome result
            (λ view. IsRefOf (type_at self.now) (raw_at self.now) (text_ref view)) };

    /// The view as bytes. The caller knows the kind of the type.
    ///
    /// Ports `Scalar::as_binary`, which panics at another kind of type.
    fn as_binary(&self) -> BinaryScalar<'_>
        requires valid { Valid (type_at self.now) (raw_at self.now) }
        requires kind { is_binary_type (type_at self.now) ≡ true }
        ensures { IsRefOf (type_at self.now) (raw_at self.now) (bytes_ref result) }
    {
        self.as_binary_opt().unwrap()
    }

    /// The view as bytes; `None` exactly for another kind of type.
    fn as_binary_opt(&self) -> Option<BinaryScalar<'_>>
        requires { Valid (type_at self.now) (raw_at self.now) }
        ensures kind { is_some result ≡ is_binary_type (type_at self.now) }
        ensures view { IfSome result
            (λ view. IsRefOf (type_at self.now) (raw_at self.now) (bytes_ref view)) };

    /// The view as a list, of fixed size or not. The caller knows the kind of the type.
    ///
    /// Ports `Scalar::as_list`, which panics at another kind of type.
    fn as_list(&self) -> ListScalar<'_>
        requires valid { Valid (type_at self.now) (raw_at self.now) }
        requires kind { is_some (element_in (type_at self.now)) ≡ true }
        ensures { IsRefOf (type_at self.now) (raw_at self.now) (list_ref result) }
    {
        self.as_list_opt().unwrap()
    }

    /// The view as a list, of fixed size or not; `None` exactly for another kind of type.
    fn as_list_opt(&self) -> Option<ListScalar<'_>>
        requires { Valid (type_at self.now) (raw_at self.now) }
        ensures kind { is_some result ≡ is_some (element_in (type_at self.now)) }
        ensures view { IfSome result
            (λ view. IsRefOf (type_at self.now) (raw_at self.now) (list_ref view)) };

    /// The view as a struct. The caller knows the kind of the type.
    ///
    /// Ports `Scalar::as_struct`, which panics at another kind of type.
    fn as_struct(&self) -> StructScalar<'_>
        requires valid { Valid (type_at self.now) (raw_at self.now) }
        requires kind { is_some (fields_in (type_at self.now)) ≡ true }
        ensures { IsRefOf (type_at self.now) (raw_at self.now) (struct_ref result) }
    {
        self.as_struct_opt().unwrap()
    }

    /// The view as a struct; `None` exactly for another kind of type.
    fn as_struct_opt(&self) -> Option<StructScalar<'_>>
        requires { Valid (type_at self.now) (raw_at self.now) }
        ensures kind { is_some result ≡ is_some (fields_in (type_at self.now)) }
        ensures view { IfSome result
            (λ view. IsRefOf (type_at self.now) (raw_at self.now) (struct_ref view)) };

    /// The view as a map. The caller knows the kind of the type.
    ///
    /// Ports `Scalar::as_map`, which panics at another kind of type.
    fn as_map(&self) -> MapScalar<'_>
        requires valid { Valid (type_at self.now) (raw_at self.now) }
        requires kind { is_map_type (type_at self.now) ≡ true }
        ensures { IsRefOf (type_at self.now) (raw_at self.now) (map_ref result) }
    {
        self.as_map_opt().unwrap()
    }

    /// The view as a map; `None` exactly for another kind of type.
    fn as_map_opt(&self) -> Option<MapScalar<'_>>
        requires { Valid (type_at self.now) (raw_at self.now) }
        ensures kind { is_some result ≡ is_map_type (type_at self.now) }
        ensures view { IfSome result
            (λ view. IsRefOf (type_at self.now) (raw_at self.now) (map_ref view)) };

    /// The view as an extension. The caller knows the kind of the type.
    ///
    /// Ports `Scalar::as_extension`, which panics at another kind of type.
    fn as_extension(&self) -> ExtScalar<'_>
        requires valid { Valid (type_at self.now) (raw_at self.now) }
        requires kind { is_extension_type (type_at self.now) ≡ true }
        ensures { IsRefOf (type_at self.now) (raw_at self.now) (ext_ref result) }
    {
        self.as_extension_opt().unwrap()
    }

    /// The view as an extension; `None` exactly for another kind of type.
    fn as_extension_opt(&self) -> Option<ExtScalar<'_>>
        requires { Valid (type_at self.now) (raw_at self.now) }
        ensures kind { is_some result ≡ is_extension_type (type_at self.now) }
        ensures view { IfSome result
            (λ view. IsRefOf (type_at self.now) (raw_at self.now) (ext_ref view)) };

    /// The view as a union. The caller knows the kind of the type.
    ///
    /// Ports `Scalar::as_union`, which panics at another kind of type.
    fn as_union(&self) -> UnionScalar<'_>
        requires valid { Valid (type_at self.now) (raw_at self.now) }
        requires kind { is_union_type (type_at self.now) ≡ true }
        ensures { IsRefOf (type_at self.now) (raw_at self.now) (union_ref result) }
    {
        self.as_union_opt().unwrap()
    }

    /// The view as a union; `None` exactly for another kind of type.
    fn as_union_opt(&self) -> Option<UnionScalar<'_>>
        requires { Valid (type_at self.now) (raw_at self.now) }
        ensures kind { is_some result ≡ is_union_type (type_at self.now) }
        ensures view { IfSome result
            (λ view. IsRefOf (type_at self.now) (raw_at self.now) (union_ref view)) };

    /// The view as a variant. The caller knows the kind of the type.
    ///
    /// Ports `Scalar::as_variant`, which panics at another kind of type.
    fn as_variant(&self) -> VariantScalar<'_>
        requires valid { Valid (type_at self.now) (raw_at self.now) }
        requires kind { is_variant_type (type_at self.now) ≡ true }
        ensures { IsRefOf (type_at self.now) (raw_at self.now) (variant_ref result) }
    {
        self.as_variant_opt().unwrap()
    }

    /// The view as a variant; `None` exactly for another kind of type.
    fn as_variant_opt(&self) -> Option<VariantScalar<'_>>
        requires { Valid (type_at self.now) (raw_at self.now) }
        ensures kind { is_some result ≡ is_variant_type (type_at self.now) }
        ensures view { IfSome result
            (λ view. IsRefOf (type_at self.now) (raw_at self.now) (variant_ref view)) };
}

impl Downcast for Scalar {
    ghost type_at = { scalar_type };

    ghost raw_at = { scalar_raw };

    fn as_bool_opt(&self) -> Option<BoolScalar<'_>> {
        BoolScalar::try_from(self).ok()
    }

    fn as_primitive_opt(&self) -> Option<PrimitiveScalar<'_>> {
        PrimitiveScalar::try_from(self).ok()
    }

    fn as_utf8_opt(&self) -> Option<Utf8Scalar<'_>> {
        Utf8Scalar::try_from(self).ok()
    }

    fn as_binary_opt(&self) -> Option<BinaryScalar<'_>> {
        BinaryScalar::try_from(self).ok()
    }

    fn as_list_opt(&self) -> Option<ListScalar<'_>> {
        ListScalar::try_from(self).ok()
    }

    fn as_struct_opt(&self) -> Option<StructScalar<'_>> {
        StructScalar::try_from(self).ok()
    }

    fn as_map_opt(&self) -> Option<MapScalar<'_>> {
        MapScalar::try_from(self).ok()
    }

    fn as_extension_opt(&self) -> Option<ExtScalar<'_>> {
        ExtScalar::try_from(self).ok()
    }

    fn as_union_opt(&self) -> Option<UnionScalar<'_>> {
        if self.dtype().is_union() {
            Some(UnionScalar::of(ScalarRef::of(self)))
        } else {
            None
        }
    }

    fn as_variant_opt(&self) -> Option<VariantScalar<'_>> {
        match self.dtype() {
            DType::Variant(_) => Some(VariantScalar::of(ScalarRef::of(self))),
            _ => None,
        }
    }
}

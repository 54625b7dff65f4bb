//! Makers of scalars: each answers a valid scalar of the stated type, or refuses by name.

ghost use Rattle.std.specs.Prelude.{◌≡◌, ◌≢◌, ◌↔◌, None, Err, IsOk, IfOk, IfErr, IsUtf8, MatchResult, Some, false};
ghost use Rattle.std.specs.Prelude.{true};
ghost use Rattle.vortex_value.specs.Words.{IsFlat, IsMadeOf, IsNullable, IsValid, NonNullable, OutOfMemory, Refuses};
ghost use Rattle.vortex_value.specs.Words.{RefusesExactly, RefusesOrNoMemory, Valid, absent, as_nullable, binary_type};
ghost use Rattle.vortex_value.specs.Words.{bool_type, breaches, child_cause, ext_of, extension_over, inside_cause};
ghost use Rattle.vortex_value.specs.Words.{integer_type, is_absent, ptype_of, raw_bool, raw_bytes, raw_integer, raw_of};
ghost use Rattle.vortex_value.specs.Words.{raw_text, raw_union, raw_variant, scalar_raw, scalar_type, type_of};
ghost use Rattle.vortex_value.specs.Words.{union_cause, union_of, utf8_type, variant_type, variants_of, whole_of};

use crate::scalars::Scalar;
use crate::storage::variant_with;
use crate::unions::UnionValue;
use crate::values::ScalarValue;
use std::alloc::Global;
use vortex_dtype::{
    BufferString, ByteBuffer, DType, ExtDType, NativeDType, Nullability, PType, UnionVariants,
    VortexError,
};
use vortex_pvalue::{NativePType, PValue};

mod lists;
mod maps;
mod structs;

impl Scalar {
    /// The scalar of a type and a raw value, or `None` for the null.
    ///
    /// `Invalid` if the raw value is not valid for the type: it has the first breach in reading
    /// order and the path to it. `OutOfMemory` comes in its place if there is no memory for the
    /// steps of the path. A valid value takes no memory, nor does any value of a type whose values
    /// take none.
    pub fn try_new(
        alloc: Global,
        dtype: DType,
        value: Option<ScalarValue>,
    ) -> Result<Scalar, VortexError>
        ensures ok { IsOk result ↔ Valid (type_of dtype) (raw_of value) }
        ensures made { IfOk result (IsMadeOf (type_of dtype) (raw_of value)) }
        ensures valid { IfOk result IsValid }
        ensures refused { IfErr result (λ e. Refuses e (breaches (type_of dtype) (raw_of value))) }
        ensures flat { IsFlat (type_of dtype) → result ≢ Err VortexError.OutOfMemory }
    {
        if let Err(cause) = Scalar::validate(alloc, &dtype, value.as_ref()) {
            drop((dtype, value));
            return Err(cause);
        }
        Ok(Scalar { dtype, value })
    }

    /// The null of a type that takes one.
    ///
    /// Ports `Scalar::null`, which panics for a type that takes none.
    #[tactic(auto, using(crate::proofs::MakerLaws::null_valid))]
    pub fn null(dtype: DType) -> Scalar
        requires { IsNullable (type_of dtype) }
        ensures made { IsMadeOf (type_of dtype) absent result }
        ensures valid { IsValid result }
    {
        Scalar { dtype, value: None }
    }

    /// The null of the column type of a Rust type, made nullable.
    ///
    /// `OutOfMemory` if there is no memory for the type.
    #[tactic(auto, using(crate::proofs::MakerLaws::takes_null))]
    pub fn null_native<T: NativeDType>(alloc: Global) -> Result<Scalar, VortexError>
        ensures made { IfOk result (IsMadeOf (as_nullable T.native_type) absent) }
        ensures valid { IfOk result IsValid }
        ensures refused { IfErr result (λ e. e ≡ OutOfMemory) }
    {
        Ok(Scalar::null(T::dtype(alloc)?.as_nullable()))
    }

    /// The scalar of a truth value.
    pub fn bool(value: bool, nullability: Nullability) -> Scalar
        ensures made { IsMadeOf (bool_type nullability) (raw_bool value) result }
        ensures valid { IsValid result }
    {
        Scalar {
            dtype: DType::Bool(nullability),
            value: Some(ScalarValue::Bool(value)),
        }
    }

    /// The scalar of an integer, with the `PType` of its Rust type.
    pub fn primitive<T: NativePType>(value: T, nullability: Nullability) -> Scalar
        ensures made { IsMadeOf
            (integer_type T.PTYPE nullability) (raw_integer T.PTYPE (T.value value)) result }
        ensures valid { IsValid result }
    {
        Scalar {
            dtype: DType::Primitive(T::PTYPE, nullability),
            value: Some(ScalarValue::Primitive(value.into_pvalue())),
        }
    }

    /// The scalar of an integer value of this `PType`.
    ///
    /// `WrongPType` exactly if the value has another `PType`. Ports `Scalar::primitive_value`,
    /// which panics then.
    pub fn primitive_value(
        value: PValue,
        ptype: PType,
        nullability: Nullability,
    ) -> Result<Scalar, VortexError>
        ensures ok { IsOk result ↔ (ptype_of value ≡ ptype) }
        ensures made { IfOk result
            (IsMadeOf (integer_type ptype nullability) (raw_integer ptype (whole_of value))) }
        ensures valid { IfOk result IsValid }
        ensures refused { IfErr result (λ e. e ≡ VortexError.WrongPType) }
    {
        if value.ptype() != ptype {
            return Err(VortexError::WrongPType);
        }
        Ok(Scalar {
            dtype: DType::Primitive(ptype, nullability),
            value: Some(ScalarValue::Primitive(value)),
        })
    }

    /// The scalar of a string.
    pub fn utf8(text: BufferString, nullability: Nullability) -> Scalar
        ensures made { IsMadeOf (utf8_type nullability) (raw_text text) result }
        ensures valid { IsValid result }
    {
        Scalar {
            dtype: DType::Utf8(nullability),
            value: Some(ScalarValue::Utf8(text)),
        }
    }

    /// The scalar of the string with these bytes.
    ///
    /// `NotUtf8` exactly if they are not UTF-8.
    pub fn try_utf8(buffer: ByteBuffer, nullability: Nullability) -> Result<Scalar, VortexError>
        ensures ok { IsOk result ↔ IsUtf8 buffer }
        ensures made { IfOk result (IsMadeOf (utf8_type nullability) (raw_text buffer)) }
        ensures valid { IfOk result IsValid }
        ensures refused { IfErr result (λ e. e ≡ VortexError.NotUtf8) }
    {
        let text = BufferString::try_from(buffer)?;
        Ok(Scalar::utf8(text, nullability))
    }

    /// The scalar of bytes.
    pub fn binary(buffer: ByteBuffer, nullability: Nullability) -> Scalar
        ensures made { IsMadeOf (binary_type nullability) (raw_bytes buffer) result }
        ensures valid { IsValid result }
    {
        Scalar {
            dtype: DType::Binary(nullability),
            value: Some(ScalarValue::Binary(buffer)),
        }
    }

    /// The scalar of an extension type whose storage is this scalar.
    ///
    /// `WrongChild` with 0 exactly if the storage's type is not exactly the extension's storage
    /// type, nullability included. Ports `Scalar::extension_ref`, which panics then.
    pub fn extension_ref(ext_dtype: ExtDType, storage: Scalar) -> Result<Scalar, VortexError>
        requires { IsValid storage }
        ensures refused { RefusesExactly
            (child_cause 0 (ext_of ext_dtype).storage (scalar_type storage)) result }
        ensures made { IfOk result
            (IsMadeOf (extension_over (ext_of ext_dtype)) (scalar_raw storage)) }
        ensures valid { IfOk result IsValid }
    {
        if let Err(cause) = check_child(0, ext_dtype.storage_dtype(), &storage.dtype) {
            drop((ext_dtype, storage));
            return Err(cause);
        }
        Ok(Scalar {
            dtype: DType::Extension(ext_dtype),
            value: storage.into_value(),
        })
    }

    /// The scalar of a union with this child under this id. A null child makes an inner null, and
    /// the union itself is not null.
    ///
    /// `UnknownTypeId` if no variant has the id; else `WrongChild` with the variant's place if the
    /// child's type is not exactly the variant's. Both come before any memory is asked for. Else
    /// `OutOfMemory` if there is no memory for the child; a null child takes none.
    pub fn union(
        alloc: Global,
        variants: UnionVariants,
        type_id: u8,
        child: Scalar,
        nullability: Nullability,
    ) -> Result<Scalar, VortexError>
        requires { IsValid child }
        ensures refused { RefusesOrNoMemory
            (union_cause (variants_of variants) type_id (scalar_type child)) result }
        ensures made { IfOk result
            (IsMadeOf (union_of (variants_of variants) nullability)
            (raw_union type_id (scalar_raw child))) }
        ensures childless { is_absent (scalar_raw child) ≡ true
            → IfErr result (λ e. e ≢ OutOfMemory) }
        ensures valid { IfOk result IsValid }
    {
        if let Err(cause) = check_variant(&variants, type_id, &child.dtype) {
            drop((variants, child));
            return Err(cause);
        }
        let value = union_value(alloc, type_id, child);
        Scalar::with_value(DType::Union(variants, nullability), value)
    }

    /// The scalar of a variant that holds this scalar, its exact type included.
    ///
    /// `VariantNull` exactly if the value is a null of a type other than `Null`, before any memory
    /// is asked for. Else `OutOfMemory` if there is no memory for the value.
    pub fn variant(alloc: Global, value: Scalar) -> Result<Scalar, VortexError>
        requires { IsValid value }
        ensures refused { RefusesOrNoMemory
            (inside_cause (scalar_type value) (scalar_raw value)) result }
        ensures made { IfOk result
            (IsMadeOf (variant_type NonNullable)
            (raw_variant (scalar_type value) (scalar_raw value))) }
        ensures valid { IfOk result IsValid }
    {
        if value.value.is_none() && !matches!(value.dtype, DType::Null) {
            drop(value);
            return Err(VortexError::VariantNull);
        }
        let inner = Box::new(alloc, value)?;
        Ok(Scalar {
            dtype: DType::Variant(Nullability::NonNullable),
            value: Some(ScalarValue::Variant(inner)),
        })
    }
}

/// The raw value of a union with this id and child.
#[tactic(auto, using(crate::proofs::ValueSteps::shown))]
fn union_value(
    alloc: Global,
    type_id: u8,
    child: Scalar,
) -> Result<Option<ScalarValue>, VortexError>
    ensures { MatchResult result
        (λ value. raw_of value ≡ raw_union type_id (scalar_raw child))
        (λ e. (e ≡ OutOfMemory) × (is_absent (scalar_raw child) ≡ false)) }
{
    let union = UnionValue::new(alloc, type_id, child.into_value())?;
    Ok(Some(ScalarValue::Union(union)))
}

/// Tests that a child's type is exactly the expected one.
fn check_child(index: usize, expected: &DType, found: &DType) -> Result<(), VortexError>
    ensures { MatchResult result
        (λ _. child_cause index (type_of expected.now) (type_of found.now) ≡ None)
        (λ e. child_cause index (type_of expected.now) (type_of found.now) ≡ Some e) }
{
    if found == expected {
        Ok(())
    } else {
        Err(VortexError::WrongChild { index })
    }
}

/// Tests that a child of this type fits the variant with this id.
fn check_variant(variants: &UnionVariants, type_id: u8, found: &DType) -> Result<(), VortexError>
    ensures { MatchResult result
        (λ _. union_cause (variants_of variants.now) type_id (type_of found.now) ≡ None)
        (λ e. union_cause (variants_of variants.now) type_id (type_of found.now) ≡ Some e) }
{
    let unknown = VortexError::UnknownTypeId { id: type_id };
    let (index, expected) = variant_with(variants, type_id).ok_or(unknown)?;
    check_child(index, expected, found)
}

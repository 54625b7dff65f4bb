//! The zero and the default of a type, and whether a scalar is zero.
#![tactic(auto, using(crate::proofs::ZeroSteps::shown))]

ghost use Rattle.std.specs.Prelude.{◌≡◌, ◌&&◌, [], IfErr, IfOk, IsOk, IsSome, MatchResult, false, length, option_map};
ghost use Rattle.std.specs.Prelude.{pos, unwrap_or};
ghost use Rattle.vortex_dtype.specs.declared.nullability.Nullability.{Nullability};
ghost use Rattle.vortex_dtype.specs.declared.ptype.PType.{PType};
ghost use Rattle.vortex_value.specs.Words.{EachFills, FillFields, Fills, FillsFirst, IsFlat, IsTheOneOf, OutOfMemory};
ghost use Rattle.vortex_value.specs.Words.{as_type_trees, child_filling, content, contents, default_of, dtype_trees};
ghost use Rattle.vortex_value.specs.Words.{each_zero, fields_zero, filling, fillings, first_of, int_eq, integer_type};
ghost use Rattle.vortex_value.specs.Words.{is_nullable, is_some, is_zero_of, lent_raw, of_first, of_inner, places_of};
ghost use Rattle.vortex_value.specs.Words.{raw_of, scalar_content, scalar_type, type_of, union_tree, value_trees};
ghost use Rattle.vortex_value.specs.Words.{variants_of, whole_of, zero_of};

use crate::scalars::{Scalar, with_type};
use crate::storage::{first_variant, storage_of};
use crate::unions::UnionValue;
use crate::values::ScalarValue;
use std::alloc::{AllocError, Global};
use vortex_dtype::{BufferString, ByteBuffer, DType, UnionVariants, VortexError};
use vortex_pvalue::PValue;

/// Whether the default of the type is the null: nulls are taken, and the type takes one.
fn is_null_default(dtype: &DType, nulls: bool) -> bool
    ensures { result ≡ (nulls && is_nullable (type_of dtype.now)) }
{
    nulls && dtype.is_nullable()
}

/// Whether the type has a zero, or a default if nulls are taken.
#[cycle(fills)]
fn has_zero_or_default(dtype: &DType, nulls: bool) -> bool
    ensures { result ≡ is_some (filling nulls (type_of dtype.now)) }
{
    match dtype {
        DType::Extension(extension) => has_zero_or_default(extension.storage_dtype(), nulls),
        _ if is_null_default(dtype, nulls) => true,
        DType::Null => false,
        DType::FixedSizeList(element, size, _) => have_places_zero_or_default(
            element, *size, nulls,
        ),
        DType::Struct(fields, _) => have_all_zero_or_default(fields.dtypes(), nulls),
        DType::Union(variants, _) => has_first_zero_or_default(variants, nulls),
        _ => true,
    }
}

/// Whether so many places of the type have a zero or default: no places always have.
#[cycle(fills)]
fn have_places_zero_or_default(element: &DType, size: u32, nulls: bool) -> bool
    ensures { result ≡ is_some (places_of size (filling nulls (type_of element.now))) }
{
    size == 0 || has_zero_or_default(element, nulls)
}

/// Whether there is a first variant whose type has a zero or default.
#[cycle(fills)]
fn has_first_zero_or_default(variants: &UnionVariants, nulls: bool) -> bool
    ensures { result ≡ is_some (child_filling (filling nulls)
        (first_of (variants_of variants.now).type_ids (variants_of variants.now).types)) }
{
    match first_variant(variants) {
        Some((_, variant)) => has_zero_or_default(variant, nulls),
        None => false,
    }
}

/// Whether each of the types has a zero or default.
#[cycle(fills)]
fn have_all_zero_or_default(dtypes: &[DType], nulls: bool) -> bool
    ensures { result ≡ is_some (fillings nulls (dtype_trees dtypes.now)) }
{
    for dtype in dtypes {
        if !has_zero_or_default(dtype, nulls) {
            return false;
        }
    }
    true
}

/// Writes the zero of the type to the place, or its default if nulls are taken: `None` is the null.
/// The caller knows that there is one. `AllocError` is a byte and `VortexError` has several words,
/// and each level of a type answers with it.
#[cycle(fill)]
fn write_zero_or_default(
    alloc: Global,
    dtype: &DType,
    nulls: bool,
    place: &mut Option<ScalarValue>,
) -> Result<(), AllocError>
    requires { IsSome (filling nulls (type_of dtype.now)) }
    ensures { MatchResult result
        (λ _. Fills nulls (type_of dtype.now) (raw_of place.new))
        (λ _. ¬ (IsFlat (type_of dtype.now))) }
{
    if let DType::Extension(extension) = dtype {
        return write_zero_or_default(alloc, extension.storage_dtype(), nulls, place);
    }
    if is_null_default(dtype, nulls) {
        *place = None;
        return Ok(());
    }
    match dtype {
        DType::Bool(_) => *place = Some(ScalarValue::Bool(false)),
        DType::Primitive(ptype, _) => *place = Some(ScalarValue::Primitive(PValue::zero(ptype))),
        DType::Utf8(_) => *place = Some(ScalarValue::Utf8(empty_text(alloc)?)),
        DType::Binary(_) => *place = Some(ScalarValue::Binary(empty_bytes(alloc)?)),
        DType::List(_, _) => *place = Some(ScalarValue::Tuple(Vec::new(alloc))),
        DType::FixedSizeList(element, size, _) => {
            let items = zero_or_default_places(alloc, element, *size, nulls)?;
            *place = Some(ScalarValue::Tuple(items));
        }
        DType::Map(_, _) => *place = Some(ScalarValue::Tuple(Vec::new(alloc))),
        DType::Struct(fields, _) => {
            let items = zero_or_default_fields(alloc, fields.dtypes(), nulls)?;
            *place = Some(ScalarValue::Tuple(items));
        }
        DType::Union(variants, _) => {
            let union = zero_or_default_first(alloc, variants, nulls)?;
            *place = Some(ScalarValue::Union(union));
        }
        DType::Variant(_) => {
            let null = Box::new(alloc, Scalar::null(DType::Null))?;
            *place = Some(ScalarValue::Variant(null));
        }
        DType::Null | DType::Extension(_) => unreachable!(),
    }
    Ok(())
}

/// The empty string.
fn empty_text(alloc: Global) -> Result<BufferString, AllocError>
    ensures { IfOk result (λ text. text ≡ []) }
{
    BufferString::empty(alloc).map_err(|_| AllocError)
}

/// No bytes.
fn empty_bytes(alloc: Global) -> Result<ByteBuffer, AllocError>
    ensures { IfOk result (λ bytes. bytes ≡ []) }
{
    ByteBuffer::empty(alloc).map_err(|_| AllocError)
}

/// The zero or default of the type, so many times.
#[cycle(fill)]
fn zero_or_default_places(
    alloc: Global,
    element: &DType,
    size: u32,
    nulls: bool,
) -> Result<Vec<Option<ScalarValue>>, AllocError>
    requires { IsSome (places_of size (filling nulls (type_of element.now))) }
    ensures { IfOk result
        (λ items. (length items.items ≡ size)
        × EachFills nulls (type_of element.now) (value_trees items.items)) }
{
    let mut items = Vec::with_capacity(alloc, size as usize)?;
    for _ in 0..size {
        let mut item = None;
        write_zero_or_default(alloc, element, nulls, &mut item)?;
        items.push(item)?;
    }
    Ok(items)
}

/// The zero or default of each of the types, in order.
#[cycle(fill)]
fn zero_or_default_fields(
    alloc: Global,
    dtypes: &[DType],
    nulls: bool,
) -> Result<Vec<Option<ScalarValue>>, AllocError>
    requires { IsSome (fillings nulls (dtype_trees dtypes.now)) }
    ensures { IfOk result
        (λ items. FillFields nulls (dtype_trees dtypes.now) (value_trees items.items)) }
{
    let mut items = Vec::with_capacity(alloc, dtypes.len())?;
    for dtype in dtypes {
        let mut item = None;
        write_zero_or_default(alloc, dtype, nulls, &mut item)?;
        items.push(item)?;
    }
    Ok(items)
}

/// The first variant's id, with the zero or default of its type.
#[cycle(fill)]
fn zero_or_default_first(
    alloc: Global,
    variants: &UnionVariants,
    nulls: bool,
) -> Result<UnionValue, AllocError>
    requires { IsSome (child_filling (filling nulls)
        (first_of (variants_of variants.now).type_ids (variants_of variants.now).types)) }
    ensures { IfOk result
        (λ made. FillsFirst nulls
        (first_of (variants_of variants.now).type_ids (variants_of variants.now).types)
        (union_tree made)) }
{
    match first_variant(variants) {
        Some((id, variant)) => {
            let mut child = None;
            write_zero_or_default(alloc, variant, nulls, &mut child)?;
            UnionValue::new(alloc, id, child).map_err(|_| AllocError)
        }
        None => unreachable!(),
    }
}

/// The zero of the type, or its default if nulls are taken, if there is one. That is found out
/// before anything is made.
fn zero_or_default(alloc: Global, dtype: &DType, nulls: bool) -> Result<Option<Scalar>, VortexError>
    ensures { MatchResult result
        (IsTheOneOf (type_of dtype.now) (filling nulls (type_of dtype.now)))
        (λ e. (e ≡ OutOfMemory) × IsSome (filling nulls (type_of dtype.now))
        × ¬ (IsFlat (type_of dtype.now))) }
{
    if !has_zero_or_default(dtype, nulls) {
        return Ok(None);
    }
    let mut value = None;
    write_zero_or_default(alloc, dtype, nulls, &mut value)?;
    Ok(Some(with_type(dtype.clone(alloc), value)?))
}

/// Whether the number is zero.
#[inline(always)]
fn is_zero_number(number: &PValue) -> bool
    ensures { result ≡ int_eq (whole_of number.now) (pos 0) }
{
    number.is_zero()
}

/// Whether an optional raw value of the type is zero; `None` for a null.
#[cycle(is_zero)]
#[inline(always)]
fn is_zero(value: Option<&ScalarValue>, dtype: &DType) -> Option<bool>
    ensures { result ≡
        is_zero_of (type_of dtype.now) (content (lent_raw value.entry)) }
{
    match (storage_of(dtype), value) {
        (DType::Bool(_), Some(ScalarValue::Bool(truth))) => Some(!*truth),
        (DType::Primitive(_, _), Some(ScalarValue::Primitive(number))) => {
            Some(is_zero_number(number))
        }
        (DType::Utf8(_), Some(ScalarValue::Utf8(text))) => Some(text.is_empty()),
        (DType::Binary(_), Some(ScalarValue::Binary(bytes))) => Some(bytes.is_empty()),
        (DType::List(_, _), Some(ScalarValue::Tuple(items))) => Some(items.is_empty()),
        (DType::Map(_, _), Some(ScalarValue::Tuple(items))) => Some(items.is_empty()),
        (DType::FixedSizeList(element, _, _), Some(ScalarValue::Tuple(items))) => {
            Some(are_elements_zero(items, element))
        }
        (DType::Struct(fields, _), Some(ScalarValue::Tuple(items))) => {
            Some(are_fields_zero(items, fields.dtypes()))
        }
        (DType::Union(variants, _), Some(ScalarValue::Union(union))) => {
            is_child_zero(union, variants)
        }
        (DType::Variant(_), Some(ScalarValue::Variant(scalar))) => is_inner_zero(scalar),
        _ => None,
    }
}

/// Whether each element is zero. One is not, if `is_zero` says `None`. Integers have a loop of
/// their own.
#[cycle(is_zero)]
fn are_elements_zero(items: &[Option<ScalarValue>], element: &DType) -> bool
    ensures { result ≡ each_zero (type_of element.now) (contents (value_trees items.now)) }
{
    match storage_of(element) {
        DType::Primitive(_, _) => are_numbers_zero(items),
        _ => are_parts_zero(items, element),
    }
}

/// Whether each element of an integer type is zero: a null is not.
fn are_numbers_zero(items: &[Option<ScalarValue>]) -> bool
    ensures { (k : PType) (n : Nullability) → result ≡ each_zero (integer_type k n) (contents (value_trees items.now)) }
{
    for item in items {
        if !is_zero_integer(item.as_ref()) {
            return false;
        }
    }
    true
}

/// Whether the value is an integer, and zero.
#[inline(always)]
fn is_zero_integer(value: Option<&ScalarValue>) -> bool
    ensures { (k : PType) (n : Nullability) → result ≡
        unwrap_or (is_zero_of (integer_type k n) (content (lent_raw value.entry))) false }
{
    match value {
        Some(ScalarValue::Primitive(number)) => is_zero_number(number),
        _ => false,
    }
}

/// Whether each element of any type is zero.
#[cycle(is_zero)]
fn are_parts_zero(items: &[Option<ScalarValue>], element: &DType) -> bool
    ensures { result ≡ each_zero (type_of element.now) (contents (value_trees items.now)) }
{
    for item in items {
        if is_zero(item.as_ref(), element) != Some(true) {
            return false;
        }
    }
    true
}

/// Whether there are as many values as fields and each is zero. One is not, if `is_zero` says
/// `None`.
#[cycle(is_zero)]
fn are_fields_zero(items: &[Option<ScalarValue>], fields: &[DType]) -> bool
    ensures { result ≡ fields_zero (dtype_trees fields.now) (contents (value_trees items.now)) }
{
    if items.len() != fields.len() {
        return false;
    }
    for (item, field) in items.iter().zip(fields) {
        if is_zero(item.as_ref(), field) != Some(true) {
            return false;
        }
    }
    true
}

/// Whether a union's child is zero, if its id is that of the first variant; another is not.
#[cycle(is_zero)]
fn is_child_zero(union: &UnionValue, variants: &UnionVariants) -> Option<bool>
    ensures { result ≡ of_first (variants_of variants.now).type_ids
        (as_type_trees (variants_of variants.now).types) union.now.type_id
        (λ t. is_zero_of t (content (raw_of (option_map (λ b. b.value) union.now.child)))) }
{
    match first_variant(variants) {
        Some((id, variant)) if id == union.type_id => is_zero(union.child.as_deref(), variant),
        _ => Some(false),
    }
}

/// Whether a variant's scalar is zero: the null of Null is.
#[cycle(is_zero)]
fn is_inner_zero(scalar: &Scalar) -> Option<bool>
    ensures { result ≡ of_inner (scalar_type scalar.now) (scalar_content scalar.now)
        (is_zero_of (scalar_type scalar.now) (scalar_content scalar.now)) }
{
    match (&scalar.dtype, &scalar.value) {
        (DType::Null, None) => Some(true),
        (dtype, value) => is_zero(value.as_ref(), dtype),
    }
}

impl Scalar {
    /// The zero of the type, which is never null: false, 0, an empty string, no bytes, an empty
    /// list or map. A struct, a list of a fixed size and the first variant of a union have zeros in
    /// their parts. An extension has the zero of its storage, and a variant holds the null of
    /// `Null`. `None` exactly for `Null`, for a union without variants, and if one of those parts
    /// or storages has no zero.
    ///
    /// `OutOfMemory` is its only refusal. It comes only if there is a zero, and never for a type
    /// whose values take no memory. Ports `Scalar::zero_value`, which panics if there is no zero.
    pub fn zero_value(alloc: Global, dtype: &DType) -> Result<Option<Scalar>, VortexError>
        ensures one { IfOk result (IsTheOneOf (type_of dtype.now) (zero_of (type_of dtype.now))) }
        ensures refused { IfErr result
            (λ e. (e ≡ OutOfMemory) × IsSome (zero_of (type_of dtype.now))) }
        ensures flat { IsFlat (type_of dtype.now) → IsOk result }
    {
        zero_or_default(alloc, dtype, false)
    }

    /// The default of the type: the null if the type takes one, else made as its zero, with
    /// defaults in the parts. `None` exactly if the type takes no null and has no default: a union
    /// without variants, or a type with a part without a default.
    ///
    /// `OutOfMemory` is its only refusal. It comes only if there is a default, and never for a type
    /// whose values take no memory. Ports `Scalar::default_value`, which panics if there is no
    /// default.
    pub fn default_value(alloc: Global, dtype: &DType) -> Result<Option<Scalar>, VortexError>
        ensures one { IfOk result
            (IsTheOneOf (type_of dtype.now) (default_of (type_of dtype.now))) }
        ensures refused { IfErr result
            (λ e. (e ≡ OutOfMemory) × IsSome (default_of (type_of dtype.now))) }
        ensures flat { IsFlat (type_of dtype.now) → IsOk result }
    {
        zero_or_default(alloc, dtype, true)
    }

    /// Whether the value is zero. A struct and a list of a fixed size are if each part is, and a
    /// union is if it has a zero under the id of its first variant. `None` for a null, and for an
    /// inner null of a union's first variant.
    pub fn is_zero(&self) -> Option<bool>
        ensures { result ≡ is_zero_of (scalar_type self.now) (scalar_content self.now) }
    {
        is_zero(self.value.as_ref(), &self.dtype)
    }
}

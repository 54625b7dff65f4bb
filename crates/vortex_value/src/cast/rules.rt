//! What the cast table asks of two types, and of a value that is kept as it is.

ghost use Rattle.std.specs.Prelude.{◌≡◌, ◌==◌, option_map};
ghost use Rattle.vortex_value.specs.Words.{IsBareTarget, accepts, bytes_eq, count, may_unwrap, map_of, option_copied};
ghost use Rattle.vortex_value.specs.Words.{sorts, keeps_its_kind, takes_null, type_of, types_with, value_tree};
ghost use Rattle.vortex_value.specs.Words.{value_trees, variants_of};

use crate::equality::same_types;
use crate::scalars::Scalar;
use crate::storage::{storage_of, variant_with};
use crate::values::ScalarValue;
use vortex_dtype::{DType, MapDType, UnionVariants};

/// Whether a map whose type does not claim sorted keys would come to claim them.
pub(super) fn would_claim_sorted(source: &MapDType, target: &MapDType) -> bool
    ensures { result ≡ sorts (map_of source.now).keys_sorted (map_of target.now).keys_sorted }
{
    !source.keys_sorted() && target.keys_sorted()
}

/// Whether the number of parts is the size.
pub(super) fn are_as_many(parts: &[Option<ScalarValue>], size: u32) -> bool
    ensures { result ≡ (count (value_trees parts.now) == size) }
{
    parts.len() == size as usize
}

/// Whether a null of the source type may be a null of the target type.
pub(super) fn takes_null(source: &DType, target: &DType) -> bool
    ensures { result ≡ takes_null (type_of source.now) (type_of target.now) }
{
    match (source, target) {
        (DType::Map(from, _), DType::Map(to, _)) if would_claim_sorted(from, to) => false,
        _ => target.is_nullable(),
    }
}

/// What the target stores, if the source is no extension. A value that is present is then cast to
/// this type.
#[inline(always)]
pub(super) fn bare_target<'a>(source: &DType, target: &'a DType) -> Option<&'a DType>
    ensures { IsBareTarget (type_of source.now) (type_of target.now) (option_copied result) }
{
    match source {
        DType::Extension(_) => None,
        _ => Some(storage_of(target)),
    }
}

/// Whether a value that is present may be cast from an extension over the stored type to the
/// target.
pub(super) fn may_unwrap(source: &DType, stored: &DType, target: &DType) -> bool
    ensures { result ≡ may_unwrap (type_of source.now) (type_of stored.now) (type_of target.now) }
{
    match target {
        DType::Extension(extension) => {
            same_types(source, target) || may_unwrap(source, stored, extension.storage_dtype())
        }
        _ => same_types(stored, target),
    }
}

/// Whether two unions have equal ids in equal order.
fn same_ids(a: &UnionVariants, b: &UnionVariants) -> bool
    ensures { result ≡ bytes_eq (variants_of a.now).type_ids (variants_of b.now).type_ids }
{
    a.type_ids().eq(b.type_ids())
}

/// The types of the two variants with this id, if both types are unions with equal ids in order.
pub(super) fn types_with<'a>(
    source: &'a DType,
    target: &'a DType,
    id: u8,
) -> Option<(&'a DType, &'a DType)>
    ensures { option_map (λ p. (type_of p.0.now, type_of p.1.now)) result
        ≡ types_with id (type_of source.now) (type_of target.now) }
{
    match (source, target) {
        (DType::Union(from, _), DType::Union(to, _)) if same_ids(from, to) => {
            let (_, variant) = variant_with(from, id)?;
            let (_, wanted) = variant_with(to, id)?;
            Some((variant, wanted))
        }
        _ => None,
    }
}

/// Whether the type accepts the value.
pub(super) fn accepts(dtype: &DType, value: &ScalarValue) -> bool
    ensures { result ≡ accepts (type_of dtype.now) (value_tree value.now) }
{
    Scalar::is_compatible(dtype, Some(value))
}

/// Whether a value without parts is kept as it is: the two types are its own, up to nullability.
pub(super) fn keeps_its_kind(value: &ScalarValue, source: &DType, target: &DType) -> bool
    ensures { result ≡ keeps_its_kind (value_tree value.now) (type_of source.now) (type_of target.now) }
{
    match (value, target) {
        (ScalarValue::Bool(_), DType::Bool(_)) => matches!(source, DType::Bool(_)),
        (ScalarValue::Utf8(_), DType::Utf8(_)) => matches!(source, DType::Utf8(_)),
        (ScalarValue::Binary(_), DType::Binary(_)) => matches!(source, DType::Binary(_)),
        (ScalarValue::Variant(_), DType::Variant(_)) => matches!(source, DType::Variant(_)),
        _ => false,
    }
}

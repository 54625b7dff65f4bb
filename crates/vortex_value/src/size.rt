//! The size of scalars in bytes: the sum of the sizes of their parts, as far as a `usize` counts.
#![tactic(auto, using(crate::proofs::SizeSteps::shown))]

ghost use Rattle.std.specs.Prelude.{◌≡◌, option_map};
ghost use Rattle.vortex_value.specs.Words.{as_type_trees, capped, child_size, dtype_trees, elements_size, entries_size};
ghost use Rattle.vortex_value.specs.Words.{entry_size, fields_size, lent_raw, map_of, raw_of, raw_tuple, scalar_raw};
ghost use Rattle.vortex_value.specs.Words.{scalar_type, size_of, type_of, type_with, value_trees, variants_of};

use crate::scalars::Scalar;
use crate::storage::{storage_of, variant_with};
use crate::unions::UnionValue;
use crate::values::ScalarValue;
use vortex_dtype::{DType, MapDType, UnionVariants};

/// The size of an optional raw value of the type.
#[cycle(size)]
#[inline(always)]
fn size(value: Option<&ScalarValue>, dtype: &DType) -> usize
    ensures { result ≡ capped (size_of (type_of dtype.now) (lent_raw value.entry)) }
{
    match (storage_of(dtype), value) {
        (DType::Bool(_), _) => 1,
        (DType::Primitive(ptype, _), _) => ptype.byte_width(),
        (DType::Utf8(_), Some(ScalarValue::Utf8(text))) => text.len(),
        (DType::Binary(_), Some(ScalarValue::Binary(bytes))) => bytes.len(),
        (DType::List(element, _), Some(ScalarValue::Tuple(items))) => size_of_elements(
            items, element,
        ),
        (DType::FixedSizeList(element, _, _), Some(ScalarValue::Tuple(items))) => {
            size_of_elements(items, element)
        }
        (DType::Map(map, _), Some(ScalarValue::Tuple(items))) => size_of_entries(items, map),
        (DType::Struct(fields, _), Some(ScalarValue::Tuple(items))) => {
            size_of_fields(items, fields.dtypes())
        }
        (DType::Union(variants, _), Some(ScalarValue::Union(union))) => {
            size_of_child(union, variants).saturating_add(1)
        }
        (DType::Variant(_), Some(ScalarValue::Variant(scalar))) => size_of_inner(scalar),
        _ => 0,
    }
}

/// The sizes of the elements of a list, together. Truth values and integers take the same each, a
/// null too, and none is looked at.
#[cycle(size)]
fn size_of_elements(items: &[Option<ScalarValue>], element: &DType) -> usize
    ensures { result ≡ capped (elements_size (type_of element.now) (value_trees items.now)) }
{
    match storage_of(element) {
        DType::Bool(_) => items.len(),
        DType::Primitive(ptype, _) => items.len().saturating_mul(ptype.byte_width()),
        _ => size_of_parts(items, element),
    }
}

/// The sizes of the elements of a list of any type, together.
#[cycle(size)]
fn size_of_parts(items: &[Option<ScalarValue>], element: &DType) -> usize
    ensures { result ≡ capped (elements_size (type_of element.now) (value_trees items.now)) }
{
    let mut total = 0usize;
    for item in items {
        total = total.saturating_add(size(item.as_ref(), element));
    }
    total
}

/// The sizes of the keys and values of a map, together.
#[cycle(size)]
fn size_of_entries(items: &[Option<ScalarValue>], map: &MapDType) -> usize
    ensures { result ≡
        capped (entries_size (map_of map.now).key (map_of map.now).value (value_trees items.now)) }
{
    let mut total = 0usize;
    for item in items {
        total = total.saturating_add(size_of_entry(item.as_ref(), map));
    }
    total
}

/// The size of an entry: of a tuple of two, those of the key and the value together.
#[cycle(size)]
fn size_of_entry(entry: Option<&ScalarValue>, map: &MapDType) -> usize
    ensures { result ≡ capped (entry_size (map_of map.now).key (map_of map.now).value
        (lent_raw entry.entry)) }
{
    match entry {
        Some(ScalarValue::Tuple(parts)) => size_of_pair(parts, map),
        _ => 0,
    }
}

/// The sizes of a key and a value, together.
#[cycle(size)]
fn size_of_pair(parts: &[Option<ScalarValue>], map: &MapDType) -> usize
    ensures { result ≡ capped (entry_size (map_of map.now).key (map_of map.now).value
        (raw_tuple (value_trees parts.now))) }
{
    match parts {
        [key, value] => {
            let key = size(key.as_ref(), map.key_dtype());
            key.saturating_add(size(value.as_ref(), map.value_dtype()))
        }
        _ => 0,
    }
}

/// The sizes of the fields of a struct, together.
#[cycle(size)]
fn size_of_fields(items: &[Option<ScalarValue>], fields: &[DType]) -> usize
    ensures { result ≡ capped (fields_size (dtype_trees fields.now) (value_trees items.now)) }
{
    let mut total = 0usize;
    for (item, field) in items.iter().zip(fields) {
        total = total.saturating_add(size(item.as_ref(), field));
    }
    total
}

/// The size of a union's child.
#[cycle(size)]
fn size_of_child(union: &UnionValue, variants: &UnionVariants) -> usize
    ensures { result ≡ capped (child_size (type_with union.now.type_id
        (variants_of variants.now).type_ids (as_type_trees (variants_of variants.now).types))
        (λ t. size_of t (raw_of (option_map (λ b. b.value) union.now.child)))) }
{
    match variant_with(variants, union.type_id) {
        Some((_, variant)) => size(union.child.as_deref(), variant),
        None => 0,
    }
}

/// The size of a variant's scalar. It is a function of its own, since one that calls itself is not
/// inlined.
#[cycle(size)]
fn size_of_inner(scalar: &Scalar) -> usize
    ensures { result ≡ capped (size_of (scalar_type scalar.now) (scalar_raw scalar.now)) }
{
    size(scalar.value.as_ref(), &scalar.dtype)
}

impl Scalar {
    /// The size in bytes: the strings and bytes of all parts together, a byte more for each union
    /// and truth value, and the width of each integer. A null of truth values or integers counts as
    /// a value. The sum stops at the greatest `usize`.
    pub fn approx_nbytes(&self) -> usize
        ensures { result ≡ capped (size_of (scalar_type self.now) (scalar_raw self.now)) }
    {
        size(self.value.as_ref(), &self.dtype)
    }
}

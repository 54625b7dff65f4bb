//! How raw values and scalars are printed.
#![tactic(auto, using(crate::proofs::TextSteps::shown))]

ghost use Rattle.std.specs.Prelude.{◌≡◌, ◌++◌, ◌⊎◌, [], IfNone, IfSome, IsTrue, None, Some, codes, false, slice_get};
ghost use Rattle.vortex_value.specs.Words.{RawTree, WritesOnOk, as_type_trees, between, element_texts, entry_text};
ghost use Rattle.vortex_value.specs.Words.{entry_texts, field_at, field_texts, fields_of, in_braces, in_brackets};
ghost use Rattle.vortex_value.specs.Words.{in_parentheses, is_valid, joined, lent_raw, map_of, raw_text_of, raw_texts};
ghost use Rattle.vortex_value.specs.Words.{raw_tuple, raw_union, ref_raw, ref_type, scalar_raw, scalar_type, storage};
ghost use Rattle.vortex_value.specs.Words.{text_at, text_of, type_of, union_tree, value_tree, value_trees};
ghost use Rattle.vortex_value.specs.Words.{variant_tree};

use crate::refs::ScalarRef;
use crate::scalars::Scalar;
use crate::storage::{storage_of, variant_with};
use crate::unions::UnionValue;
use crate::values::ScalarValue;
use std::fmt::{self, Display, Formatter, Write};
use vortex_dtype::{DType, FieldName, MapDType, StructFields, UnionVariants};

mod leaves;

/// Writes a valid value of the type, or `null`.
#[cycle(text)]
fn write_part<W: Write>(
    value: Option<&ScalarValue>,
    dtype: &DType,
    f: &mut Formatter<W>,
) -> fmt::Result
    ensures { WritesOnOk W.write_str_gives f.old result
        (text_at (storage (type_of dtype.now)) (lent_raw value.entry)) f.new }
{
    match value {
        Some(value) => write_value(value, dtype, f),
        None => leaves::write_null(f),
    }
}

/// Writes a valid value that is present.
#[cycle(text)]
fn write_value<W: Write>(value: &ScalarValue, dtype: &DType, f: &mut Formatter<W>) -> fmt::Result
    ensures { WritesOnOk W.write_str_gives f.old result
        (text_at (storage (type_of dtype.now)) (value_tree value.now)) f.new }
{
    match value {
        ScalarValue::Bool(truth) => f.write_str(leaves::truth(*truth)),
        ScalarValue::Primitive(number) => number.fmt(f),
        ScalarValue::Utf8(text) => leaves::write_escaped(text.as_str(), f),
        ScalarValue::Binary(bytes) => leaves::write_bytes(bytes.as_slice(), f),
        ScalarValue::Tuple(items) => write_tuple(items, storage_of(dtype), f),
        ScalarValue::Union(union) => write_union(union, storage_of(dtype), f),
        ScalarValue::Variant(scalar) => write_inner(scalar, f),
    }
}

/// Writes the parts of a valid list, map or struct, and nothing of another type.
#[cycle(text)]
fn write_tuple<W: Write>(
    items: &[Option<ScalarValue>],
    dtype: &DType,
    f: &mut Formatter<W>,
) -> fmt::Result
    ensures { WritesOnOk W.write_str_gives f.old result
        (text_at (type_of dtype.now) (raw_tuple (value_trees items.now))) f.new }
{
    match dtype {
        DType::List(element, _) => write_elements(items, element, f),
        DType::FixedSizeList(element, size, _) => {
            write!(f, "fixed_size<{size}>")?;
            write_elements(items, element, f)
        }
        DType::Map(map, _) => write_entries(items, map, f),
        DType::Struct(fields, _) => write_fields(items, fields, f),
        _ => Ok(()),
    }
}

/// Writes the elements of a list, in brackets.
#[cycle(text)]
fn write_elements<W: Write>(
    items: &[Option<ScalarValue>],
    element: &DType,
    f: &mut Formatter<W>,
) -> fmt::Result
    ensures { WritesOnOk W.write_str_gives f.old result (in_brackets
        (joined (codes ", ") (element_texts (type_of element.now) (value_trees items.now)))) f.new }
{
    f.write_str("[")?;
    for (index, item) in items.iter().enumerate() {
        leaves::write_separator(index, ", ", f)?;
        write_part(item.as_ref(), element, f)?;
    }
    f.write_str("]")
}

/// Writes the entries of a map, in braces.
#[cycle(text)]
fn write_entries<W: Write>(
    items: &[Option<ScalarValue>],
    map: &MapDType,
    f: &mut Formatter<W>,
) -> fmt::Result
    ensures { WritesOnOk W.write_str_gives f.old result (in_braces
        (joined (codes ", ")
        (entry_texts (map_of map.now).key (map_of map.now).value (value_trees items.now)))) f.new }
{
    f.write_str("{")?;
    for (index, item) in items.iter().enumerate() {
        leaves::write_separator(index, ", ", f)?;
        write_entry(item.as_ref(), map, f)?;
    }
    f.write_str("}")
}

/// Writes one entry: the key, and after a colon the value.
#[cycle(text)]
fn write_entry<W: Write>(
    entry: Option<&ScalarValue>,
    map: &MapDType,
    f: &mut Formatter<W>,
) -> fmt::Result
    ensures { WritesOnOk W.write_str_gives f.old result
        (entry_text (map_of map.now).key (map_of map.now).value
        (lent_raw entry.entry)) f.new }
{
    match entry {
        Some(ScalarValue::Tuple(parts)) => write_pair(parts, map, f),
        _ => Ok(()),
    }
}

/// Writes the two parts of an entry, with a colon between them.
#[cycle(text)]
fn write_pair<W: Write>(
    parts: &[Option<ScalarValue>],
    map: &MapDType,
    f: &mut Formatter<W>,
) -> fmt::Result
    ensures { WritesOnOk W.write_str_gives f.old result
        (entry_text (map_of map.now).key (map_of map.now).value
        (raw_tuple (value_trees parts.now))) f.new }
{
    if parts.len() != 2 {
        return Ok(());
    }
    write_part(parts[0].as_ref(), map.key_dtype(), f)?;
    f.write_str(": ")?;
    write_part(parts[1].as_ref(), map.value_dtype(), f)
}

/// Writes the fields of a struct, in braces: each one's name, and after a colon its value.
#[cycle(text)]
fn write_fields<W: Write>(
    items: &[Option<ScalarValue>],
    fields: &StructFields,
    f: &mut Formatter<W>,
) -> fmt::Result
    ensures { WritesOnOk W.write_str_gives f.old result (in_braces
        (joined (codes ", ") (field_texts (fields_of fields.now).names
        (as_type_trees (fields_of fields.now).types) (value_trees items.now)))) f.new }
{
    f.write_str("{")?;
    for (index, item) in items.iter().enumerate() {
        write_field(index, item.as_ref(), fields, f)?;
    }
    f.write_str("}")
}

/// Writes one field: what stands before it, its name, and after a colon its value. Past the fields
/// it writes nothing.
#[cycle(text)]
fn write_field<W: Write>(
    index: usize,
    value: Option<&ScalarValue>,
    fields: &StructFields,
    f: &mut Formatter<W>,
) -> fmt::Result
    ensures { WritesOnOk W.write_str_gives f.old result
        (field_at index (slice_get (fields_of fields.now).names index)
        (slice_get (fields_of fields.now).types index) (lent_raw value.entry)) f.new }
{
    let Some((name, dtype)) = named_field(fields, index) else {
        return Ok(());
    };
    leaves::write_label(index, name, f)?;
    write_part(value, dtype, f)
}

/// The name and the type of the field at this place, if there is one.
fn named_field(fields: &StructFields, index: usize) -> Option<(&FieldName, &DType)>
    ensures some { IfSome result
        (λ v. (slice_get (fields_of fields.now).names index ≡ Some v.0.now)
        × (slice_get (fields_of fields.now).types index ≡ Some (type_of v.1.now))) }
    ensures none { IfNone result ((slice_get (fields_of fields.now).names index ≡ None)
        ⊎ (slice_get (fields_of fields.now).types index ≡ None)) }
{
    Some((fields.names().get(index)?, fields.field_by_index(index)?))
}

/// Writes the name of the id's variant, and in parentheses the child. Of a type that is no union
/// with such a variant it writes nothing.
#[cycle(text)]
fn write_union<W: Write>(union: &UnionValue, dtype: &DType, f: &mut Formatter<W>) -> fmt::Result
    ensures { WritesOnOk W.write_str_gives f.old result
        (text_at (type_of dtype.now) (union_tree union.now)) f.new }
{
    let Some((name, variant)) = named_variant(dtype, union.type_id) else {
        return Ok(());
    };
    leaves::write_opening(name, f)?;
    write_part(union.child.as_deref(), variant, f)?;
    f.write_str(")")
}

/// The name and the type of the variant with this id, if the type is a union that has one.
fn named_variant(dtype: &DType, id: u8) -> Option<(&FieldName, &DType)>
    ensures some { IfSome result (λ v. (raw : RawTree) → text_at (type_of dtype.now) (raw_union id raw)
        ≡ v.0.now ++ in_parentheses (text_at (storage (type_of v.1.now)) raw)) }
    ensures none { IfNone result ((raw : RawTree) → text_at (type_of dtype.now) (raw_union id raw) ≡ []) }
{
    let DType::Union(variants, _) = dtype else {
        return None;
    };
    let (place, variant) = variant_with(variants, id)?;
    Some((variants.names().get(place)?, variant))
}

/// Writes the scalar in a variant, in parentheses.
#[cycle(text)]
fn write_inner<W: Write>(scalar: &Scalar, f: &mut Formatter<W>) -> fmt::Result
    ensures { WritesOnOk W.write_str_gives f.old result
        (between (codes "variant(") (codes ")")
        (text_at (storage (scalar_type scalar.now)) (scalar_raw scalar.now))) f.new }
{
    f.write_str("variant(")?;
    write_part(scalar.value.as_ref(), &scalar.dtype, f)?;
    f.write_str(")")
}

/// Writes a raw value, or `null`, whatever its type.
#[cycle(raw_text)]
fn write_raw_part<W: Write>(value: Option<&ScalarValue>, f: &mut Formatter<W>) -> fmt::Result
    ensures { WritesOnOk W.write_str_gives f.old result
        (raw_text_of (lent_raw value.entry)) f.new }
{
    match value {
        Some(value) => write_raw(value, f),
        None => leaves::write_null(f),
    }
}

/// Writes a raw value, whatever its type.
#[cycle(raw_text)]
fn write_raw<W: Write>(value: &ScalarValue, f: &mut Formatter<W>) -> fmt::Result
    ensures { WritesOnOk W.write_str_gives f.old result (raw_text_of (value_tree value.now)) f.new }
{
    match value {
        ScalarValue::Bool(truth) => f.write_str(leaves::truth(*truth)),
        ScalarValue::Primitive(number) => number.fmt(f),
        ScalarValue::Utf8(text) => leaves::write_quoted(text.as_str(), f),
        ScalarValue::Binary(bytes) => leaves::write_shortened_bytes(bytes.as_slice(), f),
        ScalarValue::Tuple(items) => write_raw_items(items, f),
        ScalarValue::Union(union) => write_raw_union(union, f),
        ScalarValue::Variant(scalar) => write_scalar(scalar, f),
    }
}

/// Writes the parts of a list, a struct or a map, in brackets.
#[cycle(raw_text)]
fn write_raw_items<W: Write>(items: &[Option<ScalarValue>], f: &mut Formatter<W>) -> fmt::Result
    ensures { WritesOnOk W.write_str_gives f.old result
        (in_brackets (joined (codes ", ") (raw_texts (value_trees items.now)))) f.new }
{
    f.write_str("[")?;
    for (index, item) in items.iter().enumerate() {
        leaves::write_separator(index, ", ", f)?;
        write_raw_part(item.as_ref(), f)?;
    }
    f.write_str("]")
}

/// Writes the id of a union's value, and in parentheses the child.
#[cycle(raw_text)]
fn write_raw_union<W: Write>(union: &UnionValue, f: &mut Formatter<W>) -> fmt::Result
    ensures { WritesOnOk W.write_str_gives f.old result (raw_text_of (union_tree union.now)) f.new }
{
    write!(f, "union@{}(", union.type_id)?;
    write_raw_part(union.child.as_deref(), f)?;
    f.write_str(")")
}

/// Writes a scalar: a valid one by its type, another as a raw value.
#[cycle(raw_text)]
fn write_scalar<W: Write>(scalar: &Scalar, f: &mut Formatter<W>) -> fmt::Result
    ensures { WritesOnOk W.write_str_gives f.old result
        (text_of (scalar_type scalar.now) (scalar_raw scalar.now)) f.new }
{
    write_text(scalar.value.as_ref(), &scalar.dtype, f)
}

/// Writes a raw value of the type, or `null`. Validity is looked at once, here, and no more in its
/// parts.
#[cycle(raw_text)]
fn write_text<W: Write>(
    value: Option<&ScalarValue>,
    dtype: &DType,
    f: &mut Formatter<W>,
) -> fmt::Result
    ensures { WritesOnOk W.write_str_gives f.old result
        (text_of (type_of dtype.now) (lent_raw value.entry)) f.new }
{
    if Scalar::is_compatible(dtype, value) {
        write_part(value, dtype, f)
    } else {
        write_invalid(value, dtype, f)
    }
}

/// Writes a value that is not valid for the type as a raw value. Validity is not looked at again
/// for variants inside one another.
#[cycle(raw_text)]
fn write_invalid<W: Write>(
    value: Option<&ScalarValue>,
    dtype: &DType,
    f: &mut Formatter<W>,
) -> fmt::Result
    requires { is_valid (type_of dtype.now) (lent_raw value) ≡ false }
    ensures { WritesOnOk W.write_str_gives f.old result
        (raw_text_of (lent_raw value.entry)) f.new }
{
    match value {
        Some(ScalarValue::Variant(scalar)) if is_decided_inside(scalar, dtype) => {
            write_invalid(scalar.value.as_ref(), &scalar.dtype, f)
        }
        _ => write_raw_part(value, f),
    }
}

/// Whether a variant of this scalar is valid for the type exactly if the scalar is valid.
fn is_decided_inside(scalar: &Scalar, dtype: &DType) -> bool
    ensures { IsTrue result → is_valid (type_of dtype.now) (variant_tree scalar.now)
        ≡ is_valid (scalar_type scalar.now) (scalar_raw scalar.now) }
{
    match (storage_of(dtype), &scalar.value) {
        (DType::Variant(_), Some(_)) => true,
        _ => false,
    }
}

/// Writes the raw value, which reads alike whatever the type is.
///
/// A string of more than ten characters shows its first five and its last five, and so do more than
/// ten bytes. Nothing is escaped. A variant shows its scalar.
///
/// Ports the `Display` of `ScalarValue`.
impl Display for ScalarValue {
    ghost output = { λ value. Some (raw_text_of (value_tree value)) };

    fn fmt<W: Write>(&self, f: &mut Formatter<W>) -> fmt::Result {
        write_raw(self, f)
    }
}

/// Writes `null` for a null, another valid scalar by its type, and one that is not valid as a raw
/// value.
///
/// Ports the `Display` of `Scalar`, which panics at some scalars that are not valid.
impl Display for Scalar {
    ghost output = { λ scalar. Some (text_of (scalar_type scalar) (scalar_raw scalar)) };

    fn fmt<W: Write>(&self, f: &mut Formatter<W>) -> fmt::Result {
        write_scalar(self, f)
    }
}

/// Writes what the `Display` of `Scalar` writes.
impl Display for ScalarRef<'_> {
    ghost output = { λ scalar. Some (text_of (ref_type scalar) (ref_raw scalar)) };

    fn fmt<W: Write>(&self, f: &mut Formatter<W>) -> fmt::Result {
        write_text(self.value(), self.dtype(), f)
    }
}

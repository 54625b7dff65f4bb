//! Values from their keys, down the type. A refusal leaves the reader before the first byte that
//! cannot be. Of a type that has no value that is the first byte, so what must hold a value of such a
//! type is refused where it begins.

ghost use Rattle.std.specs.Prelude.{◌≡◌, ◌≢◌, ◌++◌, ◌∷◌, ◌<◌, [], ℕ, List, IfErr, IfOk, MatchOption, MatchResult, Some};
ghost use Rattle.std.specs.Prelude.{false, true};
ghost use Rattle.vortex_row.specs.Reading.{HasPut, HasRead, IsChild, IsPresent, IsStuck, Puts, PutsOne, Reads};
ghost use Rattle.vortex_row.specs.Reading.{ReadsInto, ReadsOne, Refuses, entry_type, left};
ghost use Rattle.vortex_row.specs.Words.{IsNullable, NonNullable, Valid, absent, as_type_trees, dtype_trees};
ghost use Rattle.vortex_row.specs.Words.{fixed_size_list_type, integer_type, list_type, map_of, map_type, raw_of};
ghost use Rattle.vortex_row.specs.Words.{raw_union, struct_type, type_of, type_with, union_tree, union_type};
ghost use Rattle.vortex_row.specs.Words.{utf8_type, value_tree, variants_of};
ghost use Rattle.vortex_row.specs.declared.reader.KeyDecodeError.TheVariants.{NoMemory};
ghost use Rattle.vortex_row.specs.declared.reader.ValueError.TheVariants.{Key};

use super::inhabited::{
    bad_or_none, has_child, has_entry, has_sized, has_value, have_values, of_nullable, of_optional,
    of_struct, of_union, of_whole, variant_with,
};
use super::leaves::{put_number, put_text, read_binary, read_primitive, read_truth, read_utf8};
use super::numbers::read_number;
use super::strings::read_text;
use crate::reader::{KeyDecodeError, Reader, ValueError};
use crate::tags::{END, NULL, SEQUENCE, TAGGED, TEXT};
use std::alloc::Global;
use vortex_dtype::{DType, MapDType, PType, UnionVariants};
use vortex_value::{ScalarValue, UnionValue};

/// Puts a part to the others.
#[inline(always)]
fn push(
    part: Option<ScalarValue>,
    parts: &mut Vec<Option<ScalarValue>>,
) -> Result<(), KeyDecodeError>
    ensures { MatchResult result
        (λ _. parts.new.items ≡ parts.old.items ++ part ∷ [])
        (λ e. e ≡ NoMemory) }
{
    if parts.len() < parts.capacity() {
        parts.push_reserved(part);
        Ok(())
    } else {
        push_more(part, parts)
    }
}

/// Puts a part to the others, in capacity that has to be reserved first.
#[inline(never)]
fn push_more(
    part: Option<ScalarValue>,
    parts: &mut Vec<Option<ScalarValue>>,
) -> Result<(), KeyDecodeError>
    ensures { MatchResult result
        (λ _. parts.new.items ≡ parts.old.items ++ part ∷ [])
        (λ e. e ≡ NoMemory) }
{
    parts.push(part).map_err(|_| KeyDecodeError::NoMemory)
}

/// The value of a union with this id and child.
fn union_of(alloc: Global, id: u8, child: Option<ScalarValue>) -> Result<UnionValue, KeyDecodeError>
    ensures { MatchResult result
        (λ made. union_tree made ≡ raw_union id (raw_of child))
        (λ e. e ≡ NoMemory) }
{
    UnionValue::new(alloc, id, child).map_err(|_| KeyDecodeError::NoMemory)
}

/// Whether a null comes, and the type takes one; it is then taken.
#[tactic(auto, using(crate::proofs::ValueSteps::shown))]
#[inline(always)]
fn takes_null(dtype: &DType, reader: &mut Reader<'_>) -> bool
    ensures taken { result ≡ true
        → HasRead (Valid (type_of dtype.now)) absent (left reader.old) (left reader.new) }
    ensures unchanged { result ≡ false → left reader.new ≡ left reader.old }
    ensures other { result ≡ false → IsNullable (type_of dtype.now)
        → (bs : List ℕ) → left reader.old ≢ 1 ∷ bs }
{
    dtype.is_nullable() && reader.takes(NULL)
}

/// An optional value of the type.
#[cycle(read)]
#[tactic(auto, using(crate::proofs::ValueSteps::shown))]
pub(super) fn read(
    alloc: Global,
    dtype: &DType,
    reader: &mut Reader<'_>,
) -> Result<Option<ScalarValue>, ValueError>
    ensures { ReadsOne (Valid (type_of dtype.now)) raw_of result (left reader.old) (left reader.new) }
{
    if takes_null(dtype, reader) {
        return Ok(None);
    }
    let start = *reader;
    match read_value(alloc, dtype, reader) {
        Ok(value) => Ok(Some(value)),
        Err(error) => Err(of_nullable(dtype, start, error, reader)),
    }
}

/// Puts a number of the kind to the others.
#[inline(always)]
fn push_number(
    ptype: PType,
    reader: &mut Reader<'_>,
    parts: &mut Vec<Option<ScalarValue>>,
) -> Result<(), KeyDecodeError>
    ensures { Puts (IsPresent (integer_type ptype NonNullable)) result
        parts.old.items parts.new.items (left reader.old) (left reader.new) }
{
    let number = read_number(ptype, reader)?;
    push(Some(ScalarValue::Primitive(number)), parts)
}

/// Puts a text to the others.
#[tactic(auto, using(crate::proofs::LeafSteps::shown))]
#[inline(never)]
fn push_text(
    alloc: Global,
    reader: &mut Reader<'_>,
    parts: &mut Vec<Option<ScalarValue>>,
) -> Result<(), KeyDecodeError>
    ensures { Puts (IsPresent (utf8_type NonNullable)) result
        parts.old.items parts.new.items (left reader.old) (left reader.new) }
{
    reader.take(TEXT)?;
    let text = read_text(alloc, reader)?;
    push(Some(ScalarValue::Utf8(text)), parts)
}

/// Puts an optional value of the type to the others, where no null comes.
#[cycle(read)]
#[inline(never)]
fn push_value(
    alloc: Global,
    dtype: &DType,
    reader: &mut Reader<'_>,
    parts: &mut Vec<Option<ScalarValue>>,
) -> Result<(), ValueError>
    requires { IsNullable (type_of dtype.now) → (bs : List ℕ) → left reader.old ≢ 1 ∷ bs }
    ensures { PutsOne (Valid (type_of dtype.now)) result
        parts.old.items parts.new.items (left reader.old) (left reader.new) }
{
    let start = *reader;
    match read_value(alloc, dtype, reader) {
        Ok(value) => Ok(push(Some(value), parts)?),
        Err(error) => Err(of_nullable(dtype, start, error, reader)),
    }
}

/// Puts a null, a number or a text to the others, and answers `true`. `false` if the type's values are
/// others, and no null comes: nothing is read then. Numbers are read in the loop that asks for them,
/// without a call. They and texts are put there at once, which spares the moves of a result.
#[inline(always)]
fn push_leaf(
    alloc: Global,
    dtype: &DType,
    reader: &mut Reader<'_>,
    parts: &mut Vec<Option<ScalarValue>>,
) -> Result<bool, KeyDecodeError>
    ensures put { IfOk result (λ done. done ≡ true → HasPut (Valid (type_of dtype.now))
        parts.old.items parts.new.items (left reader.old) (left reader.new)) }
    ensures other { IfOk result (λ done. done ≡ false → (parts.new.items ≡ parts.old.items)
        × (left reader.new ≡ left reader.old)
        × (IsNullable (type_of dtype.now) → (bs : List ℕ) → left reader.old ≢ 1 ∷ bs)) }
    ensures refused { IfErr result (λ e. Refuses (Valid (type_of dtype.now)) (Key e)
        (left reader.old) (left reader.new)) }
{
    if takes_null(dtype, reader) {
        push(None, parts)?;
        return Ok(true);
    }
    match dtype {
        DType::Primitive(ptype, _) => push_number(*ptype, reader, parts)?,
        DType::Utf8(_) => push_text(alloc, reader, parts)?,
        _ => return Ok(false),
    }
    Ok(true)
}

/// Puts an optional value of the type to the others.
#[cycle(read)]
#[inline(always)]
fn push_next(
    alloc: Global,
    dtype: &DType,
    reader: &mut Reader<'_>,
    parts: &mut Vec<Option<ScalarValue>>,
) -> Result<(), ValueError>
    ensures { PutsOne (Valid (type_of dtype.now)) result
        parts.old.items parts.new.items (left reader.old) (left reader.new) }
{
    if push_leaf(alloc, dtype, reader, parts)? {
        return Ok(());
    }
    push_value(alloc, dtype, reader, parts)
}

/// Puts an optional value of the type to the others, where none need come.
#[cycle(read)]
#[inline(always)]
fn push_element(
    alloc: Global,
    dtype: &DType,
    reader: &mut Reader<'_>,
    parts: &mut Vec<Option<ScalarValue>>,
) -> Result<(), KeyDecodeError>
    ensures { Puts (Valid (type_of dtype.now)) result
        parts.old.items parts.new.items (left reader.old) (left reader.new) }
{
    if push_leaf(alloc, dtype, reader, parts)? {
        return Ok(());
    }
    let start = *reader;
    match push_value(alloc, dtype, reader, parts) {
        Ok(()) => Ok(()),
        Err(error) => Err(of_optional(start, error, reader)),
    }
}

/// A value of the type that is no null.
#[cycle(read)]
#[tactic(auto, using(crate::proofs::ValueSteps::shown))]
pub(super) fn read_value(
    alloc: Global,
    dtype: &DType,
    reader: &mut Reader<'_>,
) -> Result<ScalarValue, ValueError>
    ensures { ReadsOne (IsPresent (type_of dtype.now)) value_tree result (left reader.old) (left reader.new) }
{
    match dtype {
        DType::Bool(_) => Ok(read_truth(reader)?),
        DType::Primitive(ptype, _) => Ok(read_primitive(*ptype, reader)?),
        DType::Utf8(_) => Ok(read_utf8(alloc, reader)?),
        DType::Binary(_) => Ok(read_binary(alloc, reader)?),
        DType::List(element, _) => Ok(read_list(alloc, element, reader)?),
        DType::FixedSizeList(element, size, _) => read_fixed(alloc, element, *size, reader),
        DType::Map(map, _) => Ok(read_map(alloc, map, reader)?),
        DType::Struct(fields, _) => read_struct(alloc, fields.dtypes(), reader),
        DType::Union(variants, _) => read_union(alloc, variants, reader),
        DType::Extension(extension) => read_value(alloc, extension.storage_dtype(), reader),
        DType::Null | DType::Variant(_) => Err(ValueError::NoValue),
    }
}

/// Puts a value of the type that is no null in this place. Numbers and texts are put there at once,
/// which spares the moves of a result.
#[inline(always)]
pub(super) fn read_into(
    alloc: Global,
    dtype: &DType,
    reader: &mut Reader<'_>,
    place: &mut Option<ScalarValue>,
) -> Result<(), KeyDecodeError>
    ensures { ReadsInto (IsPresent (type_of dtype.now)) result
        (raw_of place.new) (left reader.old) (left reader.new) }
{
    match dtype {
        DType::Primitive(ptype, _) => put_number(*ptype, reader, place),
        DType::Utf8(_) => put_text(alloc, reader, place),
        _ => put_value(alloc, dtype, reader, place),
    }
}

/// Puts a value of the type that is no null in this place.
#[inline(never)]
fn put_value(
    alloc: Global,
    dtype: &DType,
    reader: &mut Reader<'_>,
    place: &mut Option<ScalarValue>,
) -> Result<(), KeyDecodeError>
    ensures { ReadsInto (IsPresent (type_of dtype.now)) result
        (raw_of place.new) (left reader.old) (left reader.new) }
{
    let start = *reader;
    match read_value(alloc, dtype, reader) {
        Ok(value) => {
            *place = Some(value);
            Ok(())
        }
        Err(error) => Err(of_optional(start, error, reader)),
    }
}

/// A list of elements of this type.
#[cycle(read)]
#[tactic(auto, using(crate::proofs::ValueSteps::shown))]
fn read_list(
    alloc: Global,
    element: &DType,
    reader: &mut Reader<'_>,
) -> Result<ScalarValue, KeyDecodeError>
    ensures { Reads (IsPresent (list_type (type_of element.now) NonNullable)) value_tree
        result (left reader.old) (left reader.new) }
{
    reader.take(SEQUENCE)?;
    let mut parts = Vec::new(alloc);
    while !reader.takes(END) {
        push_element(alloc, element, reader, &mut parts)?;
    }
    Ok(ScalarValue::Tuple(parts))
}

/// A list of so many elements of this type.
#[cycle(read)]
#[tactic(auto, using(crate::proofs::ValueSteps::shown))]
fn read_fixed(
    alloc: Global,
    element: &DType,
    size: u32,
    reader: &mut Reader<'_>,
) -> Result<ScalarValue, ValueError>
    ensures { ReadsOne (IsPresent (fixed_size_list_type (type_of element.now) size NonNullable)) value_tree
        result (left reader.old) (left reader.new) }
{
    if !reader.takes(SEQUENCE) {
        return Err(bad_or_none(has_sized(element, size)));
    }
    let mut parts = Vec::new(alloc);
    for place in 0..size {
        push_next(alloc, element, reader, &mut parts)?;
    }
    reader.take(END)?;
    Ok(ScalarValue::Tuple(parts))
}

/// The entries of a map.
#[cycle(read)]
#[tactic(auto, using(crate::proofs::ValueSteps::shown))]
fn read_map(
    alloc: Global,
    map: &MapDType,
    reader: &mut Reader<'_>,
) -> Result<ScalarValue, KeyDecodeError>
    ensures { Reads (IsPresent (map_type (map_of map.now).key (map_of map.now).value false NonNullable))
        value_tree result (left reader.old) (left reader.new) }
{
    reader.take(SEQUENCE)?;
    let mut parts = Vec::new(alloc);
    while !reader.takes(END) {
        push_entry(alloc, map, reader, &mut parts)?;
    }
    Ok(ScalarValue::Tuple(parts))
}

/// Puts an entry of a map to the others, where none need come.
#[cycle(read)]
fn push_entry(
    alloc: Global,
    map: &MapDType,
    reader: &mut Reader<'_>,
    parts: &mut Vec<Option<ScalarValue>>,
) -> Result<(), KeyDecodeError>
    ensures { Puts (Valid (entry_type (map_of map.now).key (map_of map.now).value)) result
        parts.old.items parts.new.items (left reader.old) (left reader.new) }
{
    let start = *reader;
    match read_entry(alloc, map, reader) {
        Ok(entry) => push(Some(entry), parts),
        Err(error) => Err(of_optional(start, error, reader)),
    }
}

/// A key and a value of a map.
#[cycle(read)]
#[tactic(auto, using(crate::proofs::ValueSteps::shown))]
fn read_entry(
    alloc: Global,
    map: &MapDType,
    reader: &mut Reader<'_>,
) -> Result<ScalarValue, ValueError>
    ensures { ReadsOne (IsPresent (entry_type (map_of map.now).key (map_of map.now).value)) value_tree
        result (left reader.old) (left reader.new) }
{
    if !reader.takes(SEQUENCE) {
        return Err(bad_or_none(has_entry(map)));
    }
    let mut parts = Vec::new(alloc);
    if let Err(error) = push_next(alloc, map.key_dtype(), reader, &mut parts) {
        return Err(of_whole(error, has_value(map.value_dtype())));
    }
    push_next(alloc, map.value_dtype(), reader, &mut parts)?;
    reader.take(END)?;
    Ok(ScalarValue::Tuple(parts))
}

/// A struct of fields of these types.
#[cycle(read)]
#[tactic(auto, using(crate::proofs::ValueSteps::shown))]
fn read_struct(
    alloc: Global,
    dtypes: &[DType],
    reader: &mut Reader<'_>,
) -> Result<ScalarValue, ValueError>
    ensures { ReadsOne (IsPresent (struct_type [] (dtype_trees dtypes.now) NonNullable)) value_tree
        result (left reader.old) (left reader.new) }
{
    if !reader.takes(SEQUENCE) {
        return Err(bad_or_none(have_values(dtypes)));
    }
    let mut parts = Vec::new(alloc);
    for index in 0..dtypes.len() {
        if let Err(error) = push_next(alloc, &dtypes[index], reader, &mut parts) {
            return Err(of_struct(dtypes, index, error));
        }
    }
    reader.take(END)?;
    Ok(ScalarValue::Tuple(parts))
}

/// A child of one of these variants.
#[cycle(read)]
#[tactic(auto, using(crate::proofs::ValueSteps::shown))]
fn read_union(
    alloc: Global,
    variants: &UnionVariants,
    reader: &mut Reader<'_>,
) -> Result<ScalarValue, ValueError>
    ensures { ReadsOne (IsPresent (union_type []
        (as_type_trees (variants_of variants.now).types)
        (variants_of variants.now).type_ids NonNullable))
        value_tree result (left reader.old) (left reader.new) }
{
    if !reader.takes(TAGGED) {
        return Err(bad_or_none(has_child(variants, None)));
    }
    let start = *reader;
    match variant_at(variants, reader) {
        Some((id, dtype)) => match read(alloc, dtype, reader) {
            Ok(child) => Ok(ScalarValue::Union(union_of(alloc, id, child)?)),
            Err(error) => Err(of_union(variants, id, start, error, reader)),
        },
        None => Err(bad_or_none(has_child(variants, None))),
    }
}

/// The id that comes, and the type of the variant with it. `None` if no variant has it.
#[tactic(auto, using(crate::proofs::ValueSteps::shown))]
fn variant_at<'a>(variants: &'a UnionVariants, reader: &mut Reader<'_>) -> Option<(u8, &'a DType)>
    ensures { MatchOption result
        (IsStuck (IsChild (variants_of variants.now).type_ids
        (as_type_trees (variants_of variants.now).types))
        (left reader.old) (left reader.new))
        (λ p. (left reader.old ≡ p.0 ∷ left reader.new)
        × (type_with p.0 (variants_of variants.now).type_ids
        (as_type_trees (variants_of variants.now).types) ≡ Some (type_of p.1.now))
        × (p.0 < 256)) }
{
    let id = reader.first()?;
    let dtype = variant_with(variants, id)?;
    reader.advance(1);
    Some((id, dtype))
}

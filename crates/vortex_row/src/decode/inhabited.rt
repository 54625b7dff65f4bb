//! Whether types have values that keys can have. A union without variants has none, and so has what
//! must hold a value of such a type. It is asked only once bytes are refused, and of no part of a type
//! more than twice.

ghost use Rattle.std.specs.Prelude.{◌≡◌, ◌≢◌, ◌+◌, ◌<◌, ◌∷◌, ℕ, List, Some, drop, length, option_map};
ghost use Rattle.std.specs.Prelude.{true};
ghost use Rattle.vortex_row.specs.ColumnReading.{IsOfRow};
ghost use Rattle.vortex_row.specs.Reading.{AreSized, GoesBack, GoesBackIn, HasChild, HasOne, HasPlain, HavePlain};
ghost use Rattle.vortex_row.specs.Reading.{IsChild, IsOfWhole, IsPresent, LacksChild, Refuses, Tells, bad_or_none};
ghost use Rattle.vortex_row.specs.Reading.{left, of_whole};
ghost use Rattle.vortex_row.specs.Words.{FieldsValid, IsNullable, Valid, as_type_trees, dtype_trees, map_of};
ghost use Rattle.vortex_row.specs.Words.{no_types, type_of, type_then, type_with, variants_of};
ghost use Rattle.vortex_row.specs.declared.reader.ValueError.TheVariants.{NoValue};

use crate::error::RowError;
use crate::reader::{KeyDecodeError, Reader, ValueError};
use vortex_dtype::{DType, MapDType, UnionVariants};

/// The type of the variant with this id, if there is one.
#[tactic(auto, using(crate::proofs::ValueSteps::by_place))]
pub(super) fn variant_with(variants: &UnionVariants, id: u8) -> Option<&DType>
    ensures { option_map (λ v. type_of v.now) result
        ≡ type_with id (variants_of variants.now).type_ids
        (as_type_trees (variants_of variants.now).types) }
{
    let index = variants.tag_to_child_index(id)?;
    variants.variant_by_index(index)
}

/// Whether the type has a value.
#[cycle(values)]
#[tactic(auto, using(crate::proofs::InhabitedSteps::sizes))]
pub(super) fn has_value(dtype: &DType) -> bool
    ensures { Tells result (HasPlain (Valid (type_of dtype.now))) }
{
    if dtype.is_nullable() {
        return true;
    }
    has_present(dtype)
}

/// Whether the type has a value that is no null.
#[cycle(values)]
#[tactic(auto, using(crate::proofs::InhabitedSteps::sizes))]
fn has_present(dtype: &DType) -> bool
    ensures { Tells result (HasPlain (IsPresent (type_of dtype.now))) }
{
    match dtype {
        DType::FixedSizeList(element, size, _) => has_sized(element, *size),
        DType::Struct(fields, _) => have_values(fields.dtypes()),
        DType::Union(variants, _) => has_child(variants, None),
        DType::Extension(extension) => has_present(extension.storage_dtype()),
        DType::Null | DType::Variant(_) => false,
        DType::Bool(_) => true,
        DType::Primitive(_, _) => true,
        DType::Utf8(_) => true,
        DType::Binary(_) => true,
        DType::List(_, _) => true,
        DType::Map(_, _) => true,
    }
}

/// Whether so many values of the type can be.
#[cycle(values)]
#[tactic(auto, using(crate::proofs::InhabitedSteps::sizes))]
pub(super) fn has_sized(element: &DType, size: u32) -> bool
    ensures { Tells result (HavePlain (AreSized size (type_of element.now))) }
{
    if size == 0 {
        return true;
    }
    has_value(element)
}

/// Whether each of the types has a value.
#[cycle(values)]
#[tactic(auto, using(crate::proofs::InhabitedSteps::sizes))]
pub(super) fn have_values(dtypes: &[DType]) -> bool
    ensures { Tells result (HavePlain (FieldsValid (dtype_trees dtypes.now))) }
{
    for dtype in dtypes {
        if !has_value(dtype) {
            return false;
        }
    }
    true
}

/// Whether a variant of the union has a value. The variant with the id `empty` has none, and is not
/// asked again.
#[cycle(values)]
#[tactic(auto, using(crate::proofs::InhabitedSteps::sizes))]
pub(super) fn has_child(variants: &UnionVariants, empty: Option<u8>) -> bool
    requires { LacksChild empty (variants_of variants.now).type_ids
        (as_type_trees (variants_of variants.now).types) }
    ensures { Tells result (HasOne (IsChild (variants_of variants.now).type_ids
        (as_type_trees (variants_of variants.now).types))) }
{
    for index in 0..variants.len() {
        if has_child_at(variants, variants.child_index_to_tag(index), empty) {
            return true;
        }
    }
    false
}

/// Whether the variant with this id is there and has a value, if the one with the id `empty` has none.
#[cycle(values)]
#[tactic(auto, using(crate::proofs::InhabitedSteps::sizes))]
fn has_child_at(variants: &UnionVariants, id: u8, empty: Option<u8>) -> bool
    requires { LacksChild empty (variants_of variants.now).type_ids
        (as_type_trees (variants_of variants.now).types) }
    ensures { Tells result (HasChild id (variants_of variants.now).type_ids
        (as_type_trees (variants_of variants.now).types)) }
{
    if is_some_id(empty, id) {
        return false;
    }
    match variant_with(variants, id) {
        Some(dtype) => has_value(dtype),
        None => false,
    }
}

/// Whether there is an id, and it is this one.
fn is_some_id(one: Option<u8>, id: u8) -> bool
    ensures { result ≡ true → one ≡ Some id }
{
    one == Some(id)
}

/// Whether the map has an entry.
pub(super) fn has_entry(map: &MapDType) -> bool
    ensures { Tells result (HavePlain (FieldsValid (type_then (map_of map.now).key
        (type_then (map_of map.now).value no_types)))) }
{
    if !has_value(map.key_dtype()) {
        return false;
    }
    has_value(map.value_dtype())
}

/// The refusal of bytes that no key begins with, of a type that has values or has none.
pub(super) fn bad_or_none(has_value: bool) -> ValueError
    ensures { result ≡ bad_or_none has_value }
{
    if has_value {
        ValueError::Key(KeyDecodeError::Bad)
    } else {
        ValueError::NoValue
    }
}

/// The refusal of a whole of which a part is refused so: the parts before it have values, and those after
/// it have them or not.
pub(super) fn of_whole(part: ValueError, has_rest: bool) -> ValueError
    ensures { result ≡ of_whole part has_rest }
{
    match part {
        ValueError::Key(KeyDecodeError::Bad) => bad_or_none(has_rest),
        _ => part,
    }
}

/// The refusal of a struct of which the field at this place is refused so.
pub(super) fn of_struct(dtypes: &[DType], index: usize, field: ValueError) -> ValueError
    requires { index < length dtypes.now }
    ensures { IsOfWhole field (HavePlain (FieldsValid (dtype_trees (drop (index + 1) dtypes.now)))) result }
{
    of_whole(field, have_values(&dtypes[index + 1..]))
}

/// The refusal of a part that need not come. If there is no such part, the byte with which it would
/// begin is bad: the reader goes back to that.
pub(super) fn of_optional<'a>(
    start: Reader<'a>,
    part: ValueError,
    reader: &mut Reader<'a>,
) -> KeyDecodeError
    ensures { GoesBack (left start.entry) part result (left reader.old) (left reader.new) }
{
    match part {
        ValueError::Key(error) => error,
        ValueError::NoValue => {
            *reader = start;
            KeyDecodeError::Bad
        }
    }
}

/// The refusal of a value that may be a null if the type takes one, but is none.
pub(super) fn of_nullable<'a>(
    dtype: &DType,
    start: Reader<'a>,
    present: ValueError,
    reader: &mut Reader<'a>,
) -> ValueError
    requires present { Refuses (IsPresent (type_of dtype.now)) present (left start) (left reader.old) }
    requires other { IsNullable (type_of dtype.now) → (bs : List ℕ) → left start ≢ 1 ∷ bs }
    ensures { Refuses (Valid (type_of dtype.now)) result (left start.entry) (left reader.new) }
{
    if dtype.is_nullable() {
        return ValueError::Key(of_optional(start, present, reader));
    }
    present
}

/// The refusal of a union of which the child with this id is refused so. If there is no such child, the
/// id is bad: the reader goes back to that.
pub(super) fn of_union<'a>(
    variants: &UnionVariants,
    id: u8,
    start: Reader<'a>,
    child: ValueError,
    reader: &mut Reader<'a>,
) -> ValueError
    requires { child ≡ NoValue → ¬ (HasChild id (variants_of variants.now).type_ids
        (as_type_trees (variants_of variants.now).types)) }
    ensures { GoesBackIn (HasOne (IsChild (variants_of variants.now).type_ids
        (as_type_trees (variants_of variants.now).types)))
        (left start.entry) child result (left reader.old) (left reader.new) }
{
    match child {
        ValueError::Key(error) => ValueError::Key(error),
        ValueError::NoValue => {
            *reader = start;
            bad_or_none(has_child(variants, Some(id)))
        }
    }
}

/// The refusal of a row of which a column is refused so. If one of the types has no value, no row has,
/// and the first byte is bad.
pub(super) fn of_row(dtypes: &[DType], column: RowError) -> RowError
    ensures { IsOfRow (HavePlain (FieldsValid (dtype_trees dtypes.now))) column result }
{
    match column {
        RowError::BadKey { .. } => {
            if have_values(dtypes) {
                return column;
            }
            RowError::BadKey { offset: 0 }
        }
        _ => column,
    }
}

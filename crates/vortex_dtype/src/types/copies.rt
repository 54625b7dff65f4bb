//! Copies of types and of their parts.

ghost use Rattle.std.specs.Prelude.{◌≡◌, ◌<◌, IfOk, MatchResult, map};
ghost use Rattle.vortex_dtype.specs.Words.{Adds, GivesOrNoMemory, IsFlat, OutOfMemory, ext_of, extension_type_of};
ghost use Rattle.vortex_dtype.specs.Words.{fields_of, fixed_size_list_type, integer_type, list_type, lists_of, map_of};
ghost use Rattle.vortex_dtype.specs.Words.{map_type_of, struct_type_of, type_of, union_type_of, utf8_type, variants_of};
ghost use Rattle.vortex_dtype.specs.Words.{vec_capacity, vec_len};

use super::{DType, ExtDType, FieldLists, HeldFields, MapDType, StructFields, UnionVariants};
use crate::error::VortexError;
use crate::names::FieldName;
use crate::nullability::Nullability;
use crate::ptype::PType;
use std::alloc::{AllocError, Global};

/// Copies names.
fn copy_names(alloc: Global, names: &[FieldName]) -> Result<Vec<FieldName>, AllocError>
    ensures { IfOk result (λ copies. copies.items ≡ names.now) }
{
    let mut copies = Vec::with_capacity(alloc, names.len())?;
    for name in names {
        copies.push_reserved(name.clone(alloc).map_err(|_| AllocError)?);
    }
    Ok(copies)
}

/// Copies a type into a box. Integers and strings, which most parts are, have functions of their
/// own.
#[cycle(copy)]
#[inline(always)]
fn copy_box(alloc: Global, dtype: &DType) -> Result<Box<DType>, AllocError>
    ensures { IfOk result (λ c. type_of c.value ≡ type_of dtype.now) }
{
    match dtype {
        DType::Primitive(ptype, nullability) => box_primitive(alloc, *ptype, *nullability),
        DType::Utf8(nullability) => box_utf8(alloc, *nullability),
        _ => box_whole(alloc, dtype),
    }
}

/// Makes a type of integers in a box.
#[inline(never)]
fn box_primitive(
    alloc: Global,
    ptype: PType,
    nullability: Nullability,
) -> Result<Box<DType>, AllocError>
    ensures { IfOk result (λ made. type_of made.value ≡ integer_type ptype nullability) }
{
    Ok(Box::new(alloc, DType::Primitive(ptype, nullability))?)
}

/// Makes a type of strings in a box.
#[inline(never)]
fn box_utf8(alloc: Global, nullability: Nullability) -> Result<Box<DType>, AllocError>
    ensures { IfOk result (λ made. type_of made.value ≡ utf8_type nullability) }
{
    Ok(Box::new(alloc, DType::Utf8(nullability))?)
}

/// Copies any type into a box.
#[cycle(copy)]
#[inline(never)]
fn box_whole(alloc: Global, dtype: &DType) -> Result<Box<DType>, AllocError>
    ensures { IfOk result (λ c. type_of c.value ≡ type_of dtype.now) }
{
    let dtype = copy(alloc, dtype).map_err(|_| AllocError)?;
    Ok(Box::new(alloc, dtype)?)
}

/// Copies types.
#[cycle(copy)]
fn copy_all(alloc: Global, dtypes: &[DType]) -> Result<Vec<DType>, AllocError>
    ensures { IfOk result (λ copies. map type_of copies.items ≡ map type_of dtypes.now) }
{
    let mut copies = Vec::with_capacity(alloc, dtypes.len())?;
    for dtype in dtypes {
        push_copy(alloc, dtype, &mut copies)?;
    }
    Ok(copies)
}

/// Appends a copy of a type, by the cases of `copy_box`.
#[cycle(copy)]
#[inline(always)]
fn push_copy(alloc: Global, dtype: &DType, copies: &mut Vec<DType>) -> Result<(), AllocError>
    requires { vec_len copies.old < vec_capacity copies.old }
    ensures { IfOk result (λ _. Adds copies.old copies.new (type_of dtype.now)) }
{
    match dtype {
        DType::Primitive(ptype, nullability) => push_primitive(*ptype, *nullability, copies),
        DType::Utf8(nullability) => push_utf8(*nullability, copies),
        _ => push_whole(alloc, dtype, copies),
    }
}

/// Appends a type of integers.
#[inline(never)]
fn push_primitive(
    ptype: PType,
    nullability: Nullability,
    copies: &mut Vec<DType>,
) -> Result<(), AllocError>
    requires { vec_len copies.old < vec_capacity copies.old }
    ensures { IfOk result (λ _. Adds copies.old copies.new (integer_type ptype nullability)) }
{
    copies.push_reserved(DType::Primitive(ptype, nullability));
    Ok(())
}

/// Appends a type of strings.
#[inline(never)]
fn push_utf8(nullability: Nullability, copies: &mut Vec<DType>) -> Result<(), AllocError>
    requires { vec_len copies.old < vec_capacity copies.old }
    ensures { IfOk result (λ _. Adds copies.old copies.new (utf8_type nullability)) }
{
    copies.push_reserved(DType::Utf8(nullability));
    Ok(())
}

/// Appends a copy of any type.
#[cycle(copy)]
#[inline(never)]
fn push_whole(alloc: Global, dtype: &DType, copies: &mut Vec<DType>) -> Result<(), AllocError>
    requires { vec_len copies.old < vec_capacity copies.old }
    ensures { IfOk result (λ _. Adds copies.old copies.new (type_of dtype.now)) }
{
    copies.push_reserved(copy(alloc, dtype).map_err(|_| AllocError)?);
    Ok(())
}

/// Copies a type. Never `OutOfMemory` for a flat type.
///
/// A type without parts is copied inline at the call. A type with parts goes to a function of its
/// own, so that only its copies pay for the locals.
#[cycle(copy)]
#[inline(always)]
pub(super) fn copy(alloc: Global, dtype: &DType) -> Result<DType, VortexError>
    ensures { MatchResult result
        (λ c. type_of c ≡ type_of dtype.now)
        (λ e. (e ≡ OutOfMemory) × ¬ (IsFlat (type_of dtype.now))) }
{
    match dtype {
        DType::Null => Ok(DType::Null),
        DType::Bool(nullability) => Ok(DType::Bool(*nullability)),
        DType::Primitive(ptype, nullability) => Ok(DType::Primitive(*ptype, *nullability)),
        DType::Utf8(nullability) => Ok(DType::Utf8(*nullability)),
        DType::Binary(nullability) => Ok(DType::Binary(*nullability)),
        DType::List(element, nullability) => copy_list(alloc, element, *nullability),
        DType::FixedSizeList(element, size, nullability) => copy_sized(
            alloc,
            element,
            *size,
            *nullability,
        ),
        DType::Map(map, nullability) => copy_map_type(alloc, map, *nullability),
        DType::Struct(fields, nullability) => copy_struct(alloc, fields, *nullability),
        DType::Union(variants, nullability) => copy_union(alloc, variants, *nullability),
        DType::Variant(nullability) => Ok(DType::Variant(*nullability)),
        DType::Extension(extension) => copy_over(alloc, extension),
    }
}

/// Copies a type of lists.
#[cycle(copy)]
#[inline(never)]
fn copy_list(alloc: Global, element: &DType, nullability: Nullability) -> Result<DType, VortexError>
    ensures { GivesOrNoMemory (λ c. type_of c ≡ list_type (type_of element.now) nullability) result }
{
    Ok(DType::List(copy_box(alloc, element)?, nullability))
}

/// Copies a type of lists of this length.
#[cycle(copy)]
#[inline(never)]
fn copy_sized(
    alloc: Global,
    element: &DType,
    size: u32,
    nullability: Nullability,
) -> Result<DType, VortexError>
    ensures { GivesOrNoMemory (λ c. type_of c ≡ fixed_size_list_type (type_of element.now) size nullability) result }
{
    Ok(DType::FixedSizeList(copy_box(alloc, element)?, size, nullability))
}

/// Copies a type of maps.
#[cycle(copy)]
#[inline(never)]
fn copy_map_type(
    alloc: Global,
    map: &MapDType,
    nullability: Nullability,
) -> Result<DType, VortexError>
    ensures { GivesOrNoMemory (λ c. type_of c ≡ map_type_of (map_of map.now) nullability) result }
{
    Ok(DType::Map(copy_map(alloc, map)?, nullability))
}

/// Copies a type of structs.
#[cycle(copy)]
#[inline(never)]
fn copy_struct(
    alloc: Global,
    fields: &StructFields,
    nullability: Nullability,
) -> Result<DType, VortexError>
    ensures { GivesOrNoMemory (λ c. type_of c ≡ struct_type_of (fields_of fields.now) nullability) result }
{
    Ok(DType::Struct(copy_fields(alloc, fields)?, nullability))
}

/// Copies a type of unions.
#[cycle(copy)]
#[inline(never)]
fn copy_union(
    alloc: Global,
    variants: &UnionVariants,
    nullability: Nullability,
) -> Result<DType, VortexError>
    ensures { GivesOrNoMemory (λ c. type_of c ≡ union_type_of (variants_of variants.now) nullability) result }
{
    Ok(DType::Union(copy_variants(alloc, variants)?, nullability))
}

/// Copies an extension type.
#[cycle(copy)]
#[inline(never)]
fn copy_over(alloc: Global, extension: &ExtDType) -> Result<DType, VortexError>
    ensures { GivesOrNoMemory (λ c. type_of c ≡ extension_type_of (ext_of extension.now)) result }
{
    Ok(DType::Extension(copy_extension(alloc, extension)?))
}

/// Copies the parts of a map type.
#[cycle(copy)]
pub(super) fn copy_map(alloc: Global, map: &MapDType) -> Result<MapDType, VortexError>
    ensures { GivesOrNoMemory (λ c. map_of c ≡ map_of map.now) result }
{
    Ok(MapDType {
        key: copy_box(alloc, &map.key)?,
        value: copy_box(alloc, &map.value)?,
        keys_sorted: map.keys_sorted,
    })
}

/// Copies fields: shares them if they are shared and one more owner can be counted, and otherwise
/// copies each.
#[cycle(copy)]
pub(super) fn copy_fields(alloc: Global, fields: &StructFields) -> Result<StructFields, VortexError>
    ensures { GivesOrNoMemory (λ c. fields_of c ≡ fields_of fields.now) result }
{
    if let HeldFields::Shared(lists) = &fields.held {
        let shared: Result<_, _> = lists.clone();
        if let Ok(lists) = shared {
            let held = HeldFields::Shared(lists);
            return Ok(StructFields { held });
        }
    }
    Ok(StructFields::from_lists(alloc, copy_lists(alloc, fields.lists())?))
}

/// Copies the names and types of fields.
#[cycle(copy)]
fn copy_lists(alloc: Global, lists: &FieldLists) -> Result<FieldLists, VortexError>
    ensures { GivesOrNoMemory (λ c. lists_of c ≡ lists_of lists.now) result }
{
    Ok(FieldLists {
        names: copy_names(alloc, &lists.names)?,
        dtypes: copy_all(alloc, &lists.dtypes)?,
    })
}

/// Copies the variants of a union type.
#[cycle(copy)]
pub(super) fn copy_variants(
    alloc: Global,
    variants: &UnionVariants,
) -> Result<UnionVariants, VortexError>
    ensures { GivesOrNoMemory (λ c. variants_of c ≡ variants_of variants.now) result }
{
    Ok(UnionVariants {
        names: copy_names(alloc, &variants.names)?,
        dtypes: copy_all(alloc, &variants.dtypes)?,
        type_ids: Vec::from_slice(alloc, &variants.type_ids)?,
    })
}

/// Copies the parts of an extension type.
#[cycle(copy)]
pub(super) fn copy_extension(alloc: Global, extension: &ExtDType) -> Result<ExtDType, VortexError>
    ensures { GivesOrNoMemory (λ c. ext_of c ≡ ext_of extension.now) result }
{
    Ok(ExtDType {
        id: extension.id.clone()?,
        metadata: extension.metadata.clone()?,
        storage: copy_box(alloc, &extension.storage)?,
    })
}

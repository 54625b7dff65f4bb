//! Calls that make types.

use case_lines::{
    Answer, CallResult, Fields, Given, Input, Line, Named, struct_fields, take_fields, take_type,
};
use std::alloc::Global;
use vortex_dtype::{
    BufferString, ByteBuffer, DType, ExtDType, MapDType, NativeDType, Nullability, StructFields,
    UnionVariants, VortexError,
};
use vortex_value::Scalar;

#[derive(Clone, Copy)]
enum Call {
    AsNullable,
    Struct,
    CloneFields,
    Union,
    MapParts,
    Map,
    Extension,
    ListOfRust,
    ListsOfRust,
    TextOfRust,
    NullOfRust,
}

const CALLS: [Named<Call, Input>; 12] = [
    ("as_nullable", Call::AsNullable, &[Input::Type]),
    ("struct_type", Call::Struct, &[Input::Fields]),
    ("clone_fields", Call::CloneFields, &[Input::Fields]),
    ("union_type", Call::Union, &[Input::Variants]),
    // The names, types and ids may differ in number.
    (
        "union_variants",
        Call::Union,
        &[Input::Names, Input::Types, Input::TypeIds],
    ),
    (
        "map_parts",
        Call::MapParts,
        &[Input::Type, Input::SecondType],
    ),
    (
        "map_type",
        Call::Map,
        &[Input::Type, Input::SecondType, Input::Nullability],
    ),
    (
        "extension_type",
        Call::Extension,
        &[Input::Type, Input::SecondType],
    ),
    ("list_of_rust", Call::ListOfRust, &[]),
    ("lists_of_rust", Call::ListsOfRust, &[]),
    ("text_of_rust", Call::TextOfRust, &[]),
    ("null_of_rust", Call::NullOfRust, &[]),
];

/// Answers the line if it names one of these calls.
pub fn answer(line: &mut Line<'_>) {
    line.give(&CALLS, answer_of);
}

fn answer_of(alloc: Global, call: Call, given: &mut Given) -> CallResult {
    match call {
        Call::AsNullable => Ok(Answer::Type(take_type(&mut given.dtype).as_nullable())),
        Call::Struct => struct_type(struct_fields(alloc, take_fields(&mut given.fields, alloc))),
        Call::CloneFields => clone_fields(alloc, take_fields(&mut given.fields, alloc)),
        Call::Union => union_type(alloc, take_fields(&mut given.fields, alloc)),
        Call::MapParts | Call::Map => map_type(alloc, call, given),
        Call::Extension => extension_type(alloc, given),
        Call::ListOfRust => Vec::<Option<i32>>::dtype(alloc).map(Answer::Type),
        Call::ListsOfRust => Vec::<Option<Vec<Option<i32>>>>::dtype(alloc).map(Answer::Type),
        Call::TextOfRust => String::dtype(alloc).map(Answer::Type),
        Call::NullOfRust => Scalar::null_native::<Vec<Option<i32>>>(alloc).map(Answer::Scalar),
    }
}

fn struct_type(fields: Result<StructFields, VortexError>) -> CallResult {
    Ok(Answer::Type(DType::Struct(fields?, Nullability::NonNullable)))
}

fn clone_fields(alloc: Global, fields: Fields) -> CallResult {
    let fields = struct_fields(alloc, fields)?;
    let copy = fields.clone(alloc);
    drop(fields);
    struct_type(copy)
}

fn union_type(alloc: Global, fields: Fields) -> CallResult {
    let variants = UnionVariants::try_new(alloc, fields.names, fields.dtypes, fields.type_ids)?;
    Ok(Answer::Type(DType::Union(variants, Nullability::NonNullable)))
}

fn map_type(alloc: Global, call: Call, given: &mut Given) -> CallResult {
    let key = take_type(&mut given.dtype);
    let value = take_type(&mut given.second_dtype);
    Ok(Answer::Type(match call {
        Call::MapParts => {
            DType::Map(
                MapDType::try_new(alloc, key, value, true)?,
                Nullability::NonNullable,
            )
        }
        _ => DType::map(alloc, key, value, true, given.nullability)?,
    }))
}

/// An extension with the id and the metadata of the first type, over the second.
fn extension_type(alloc: Global, given: &mut Given) -> CallResult {
    let (id, metadata) = extension_head(&given.dtype)?;
    let storage = take_type(&mut given.second_dtype);
    ExtDType::new(alloc, id, metadata, storage)
        .map(DType::Extension)
        .map(Answer::Type)
}

/// Copies of the id and the metadata of an extension type.
fn extension_head(dtype: &DType) -> Result<(BufferString, ByteBuffer), VortexError> {
    let extension = dtype.as_extension_opt().ok_or(VortexError::WrongKind)?;
    let id = extension.id().clone()?;
    match extension.metadata().clone() {
        Ok(metadata) => Ok((id, metadata)),
        Err(refusal) => {
            drop(id);
            Err(refusal)
        }
    }
}

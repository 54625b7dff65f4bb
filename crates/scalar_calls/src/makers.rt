//! Calls that make scalars and raw values.

use case_lines::{
    Answer, CallResult, Given, Input, Line, Named, take_bytes, take_entries, take_scalar,
    take_scalars, take_text, take_type, validate, validate_all, validate_entries,
};
use std::alloc::Global;
use vortex_dtype::{DType, ExtDType, Nullability, UnionVariants, VortexError};
use vortex_value::{Scalar, ScalarValue, UnionValue};

#[derive(Clone, Copy)]
enum Leaf {
    Bool,
    Utf8,
    TryUtf8,
    Binary,
    PrimitiveValue,
    EmptyList,
    TryNew,
    UnionValue,
    Remake,
}

const LEAVES: [Named<Leaf, Input>; 9] = [
    ("bool", Leaf::Bool, &[Input::Truth, Input::Nullability]),
    ("utf8", Leaf::Utf8, &[Input::Text, Input::Nullability]),
    (
        "try_utf8",
        Leaf::TryUtf8,
        &[Input::Bytes, Input::Nullability],
    ),
    ("binary", Leaf::Binary, &[Input::Bytes, Input::Nullability]),
    (
        "primitive_value",
        Leaf::PrimitiveValue,
        &[Input::Integer, Input::PType, Input::Nullability],
    ),
    (
        "empty_list",
        Leaf::EmptyList,
        &[Input::Type, Input::Nullability],
    ),
    ("try_new", Leaf::TryNew, &[Input::Scalar]),
    (
        "union_value",
        Leaf::UnionValue,
        &[Input::TypeId, Input::Value],
    ),
    ("remake", Leaf::Remake, &[Input::Value]),
];

/// What is made of a valid scalar.
#[derive(Clone, Copy)]
enum OfScalar {
    IntoNullable,
    Variant,
    Union,
    Extension,
}

const OF_SCALAR: [Named<OfScalar, Input>; 4] = [
    ("into_nullable", OfScalar::IntoNullable, &[Input::Scalar]),
    ("variant_of", OfScalar::Variant, &[Input::Scalar]),
    (
        "union",
        OfScalar::Union,
        &[Input::Type, Input::TypeId, Input::Scalar],
    ),
    (
        "extension",
        OfScalar::Extension,
        &[Input::Type, Input::Scalar],
    ),
];

/// What is made of valid scalars.
#[derive(Clone, Copy)]
enum OfScalars {
    List,
    FixedSizeList,
    Struct,
}

const OF_SCALARS: [Named<OfScalars, Input>; 3] = [
    (
        "list",
        OfScalars::List,
        &[Input::Type, Input::Scalars, Input::Nullability],
    ),
    (
        "fixed_size_list",
        OfScalars::FixedSizeList,
        &[Input::Type, Input::Scalars, Input::Nullability],
    ),
    ("struct", OfScalars::Struct, &[Input::Type, Input::Scalars]),
];

/// What is made of valid keys and values.
#[derive(Clone, Copy)]
enum OfEntries {
    Map,
    TryMap,
}

const OF_ENTRIES: [Named<OfEntries, Input>; 2] = [
    ("map", OfEntries::Map, &[Input::Type, Input::Entries]),
    ("try_map", OfEntries::TryMap, &[Input::Type, Input::Entries]),
];

/// Answers the line if it names one of these calls.
pub fn answer(line: &mut Line<'_>) {
    line.give(&LEAVES, make_leaf);
    line.give(&OF_SCALAR, of_scalar);
    line.give(&OF_SCALARS, of_scalars);
    line.give(&OF_ENTRIES, of_entries);
}

/// What is made without valid scalars.
fn make_leaf(alloc: Global, call: Leaf, given: &mut Given) -> CallResult {
    let n = given.nullability;
    match call {
        Leaf::Bool => Ok(Answer::Scalar(Scalar::bool(given.is_true, n))),
        Leaf::Utf8 => Ok(Answer::Scalar(Scalar::utf8(take_text(&mut given.text, alloc), n))),
        Leaf::TryUtf8 => {
            Scalar::try_utf8(take_bytes(&mut given.bytes, alloc), n).map(Answer::Scalar)
        }
        Leaf::Binary => Ok(Answer::Scalar(Scalar::binary(take_bytes(&mut given.bytes, alloc), n))),
        Leaf::PrimitiveValue => {
            Scalar::primitive_value(given.integer, given.ptype, n).map(Answer::Scalar)
        }
        Leaf::EmptyList => {
            Scalar::list_empty(alloc, take_type(&mut given.dtype), n).map(Answer::Scalar)
        }
        Leaf::TryNew => try_new(alloc, take_scalar(&mut given.scalar)),
        Leaf::UnionValue => UnionValue::new(alloc, given.type_id, given.value.take())
            .map(ScalarValue::Union)
            .map(Answer::Raw),
        Leaf::Remake => remake(alloc, given.value.take()),
    }
}

fn try_new(alloc: Global, scalar: Scalar) -> CallResult {
    let Scalar { dtype, value } = scalar;
    Scalar::try_new(alloc, dtype, value).map(Answer::Scalar)
}

/// A raw value taken apart by `into_..`, and made again of its part.
fn remake(alloc: Global, value: Option<ScalarValue>) -> CallResult {
    let Some(value) = value else {
        return Ok(Answer::Null);
    };
    Ok(Answer::Raw(match &value {
        ScalarValue::Bool(_) => ScalarValue::from(value.into_bool()),
        ScalarValue::Primitive(_) => ScalarValue::from(value.into_primitive()),
        ScalarValue::Utf8(_) => ScalarValue::from(value.into_utf8()),
        ScalarValue::Binary(_) => ScalarValue::from(value.into_binary()),
        ScalarValue::Tuple(_) => ScalarValue::Tuple(value.into_list()),
        ScalarValue::Union(_) => ScalarValue::Union(value.into_union()),
        ScalarValue::Variant(_) => ScalarValue::Variant(Box::new(alloc, value.into_variant())?),
    }))
}

fn of_scalar(alloc: Global, call: OfScalar, given: &mut Given) -> CallResult {
    validate(alloc, &given.scalar)?;
    let made = match call {
        OfScalar::IntoNullable => Ok(take_scalar(&mut given.scalar).into_nullable()),
        OfScalar::Variant => Scalar::variant(alloc, take_scalar(&mut given.scalar)),
        OfScalar::Union => {
            let (variants, n) = union_parts(take_type(&mut given.dtype))?;
            let child = take_scalar(&mut given.scalar);
            Scalar::union(alloc, variants, given.type_id, child, n)
        }
        OfScalar::Extension => {
            let extension = extension_in(take_type(&mut given.dtype))?;
            Scalar::extension_ref(extension, take_scalar(&mut given.scalar))
        }
    };
    made.map(Answer::Scalar)
}

/// The variants of a union type, and whether it is nullable.
fn union_parts(dtype: DType) -> Result<(UnionVariants, Nullability), VortexError> {
    match dtype {
        DType::Union(variants, n) => Ok((variants, n)),
        dtype => wrong_kind(dtype),
    }
}

/// The extension of an extension type.
fn extension_in(dtype: DType) -> Result<ExtDType, VortexError> {
    match dtype {
        DType::Extension(extension) => Ok(extension),
        dtype => wrong_kind(dtype),
    }
}

/// Refuses a type of another kind.
fn wrong_kind<T>(dtype: DType) -> Result<T, VortexError> {
    drop(dtype);
    Err(VortexError::WrongKind)
}

fn of_scalars(alloc: Global, call: OfScalars, given: &mut Given) -> CallResult {
    validate_all(alloc, &given.scalars)?;
    let children = take_scalars(&mut given.scalars, alloc);
    let dtype = take_type(&mut given.dtype);
    let made = match call {
        OfScalars::List => Scalar::list(alloc, dtype, children, given.nullability),
        OfScalars::FixedSizeList => {
            Scalar::fixed_size_list(alloc, dtype, children, given.nullability)
        }
        OfScalars::Struct => Scalar::struct_(alloc, dtype, children),
    };
    made.map(Answer::Scalar)
}

fn of_entries(alloc: Global, call: OfEntries, given: &mut Given) -> CallResult {
    validate_entries(alloc, &given.entries)?;
    let entries = take_entries(&mut given.entries, alloc);
    let dtype = take_type(&mut given.dtype);
    let made = match call {
        OfEntries::Map => Scalar::map(alloc, dtype, entries),
        OfEntries::TryMap => Scalar::try_map(alloc, dtype, entries),
    };
    made.map(Answer::Scalar)
}

//! Calls that borrow types.

use crate::recorder::fed;
use case_lines::{Answer, CallResult, Given, Input, Line, Named, or_none, scalar_or_none};
use std::alloc::Global;
use vortex_dtype::{DType, FieldName, VortexError};
use vortex_value::Scalar;

#[derive(Clone, Copy)]
enum Call {
    Same,
    Equal,
    Hash,
    Project,
    Find,
    Zero,
    Default,
    CloneName,
    Clone,
    CloneParts,
}

const CALLS: [Named<Call, Input>; 10] = [
    ("same", Call::Same, &[Input::Type, Input::SecondType]),
    (
        "equal_types",
        Call::Equal,
        &[Input::Type, Input::SecondType],
    ),
    ("hash_types", Call::Hash, &[Input::Type, Input::SecondType]),
    ("project", Call::Project, &[Input::Type, Input::Names]),
    ("find", Call::Find, &[Input::Type, Input::Text]),
    ("zero", Call::Zero, &[Input::Type]),
    ("default", Call::Default, &[Input::Type]),
    ("clone_name", Call::CloneName, &[Input::Names]),
    ("clone_type", Call::Clone, &[Input::Type]),
    ("clone_parts", Call::CloneParts, &[Input::Type]),
];

/// Answers the line if it names one of these calls.
pub fn answer(line: &mut Line<'_>) {
    line.lend(&CALLS, answer_of);
}

fn answer_of(alloc: Global, call: Call, given: &Given) -> CallResult {
    let dtype = &given.dtype;
    let second = &given.second_dtype;
    match call {
        Call::Same => Ok(Answer::Truth(dtype.eq_ignore_nullability(second))),
        Call::Equal => Ok(Answer::Truth(dtype == second)),
        Call::Hash => Ok(Answer::SameFeed(fed(dtype) == fed(second))),
        Call::Project => project(alloc, dtype, &given.fields.names),
        Call::Find => find(dtype, given.text.as_str()),
        Call::Zero => scalar_or_none(Scalar::zero_value(alloc, dtype)),
        Call::Default => scalar_or_none(Scalar::default_value(alloc, dtype)),
        Call::CloneName => clone_name(alloc, &given.fields.names),
        Call::Clone => dtype.clone(alloc).map(Answer::Type),
        Call::CloneParts => clone_parts(alloc, dtype),
    }
}

fn project(alloc: Global, dtype: &DType, names: &[FieldName]) -> CallResult {
    match dtype {
        DType::Struct(fields, n) => {
            Ok(Answer::Type(DType::Struct(fields.project(alloc, names)?, *n)))
        }
        _ => Err(VortexError::WrongKind),
    }
}

fn find(dtype: &DType, name: &str) -> CallResult {
    match dtype {
        DType::Struct(fields, _) => Ok(or_none(fields.find(name).map(Answer::Number))),
        _ => Err(VortexError::WrongKind),
    }
}

/// Whether a copy of the first name equals it.
fn clone_name(alloc: Global, names: &[FieldName]) -> CallResult {
    match names.first() {
        Some(name) => Ok(Answer::Truth(name.clone(alloc)? == *name)),
        None => Ok(Answer::None),
    }
}

/// A type made of copies of another's parts.
fn clone_parts(alloc: Global, dtype: &DType) -> CallResult {
    Ok(Answer::Type(match dtype {
        DType::Map(map, n) => DType::Map(map.clone(alloc)?, *n),
        DType::Struct(fields, n) => DType::Struct(fields.clone(alloc)?, *n),
        DType::Union(variants, n) => DType::Union(variants.clone(alloc)?, *n),
        DType::Extension(extension) => DType::Extension(extension.clone(alloc)?),
        _ => return Err(VortexError::WrongKind),
    }))
}

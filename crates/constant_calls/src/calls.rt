//! Calls of constant arrays.

use crate::answers::ConstantAnswer;
use crate::constant_inputs::{ConstantInputs, Input};
use case_lines::{Line, Named, take_scalar, validate};
use constant_arrays::{ConstantArray, ConstantArrayError};
use std::alloc::Global;
use vortex_dtype::{DType, VortexError};
use vortex_filter::Filter;
use vortex_row::{RowError, SortOptions};

#[derive(Clone, Copy)]
enum Call {
    ScalarAt,
    Slice,
    Cast,
    Compare,
    Statistics,
    Key,
}

const CALLS: [Named<Call, Input>; 6] = [
    (
        "constant_scalar_at",
        Call::ScalarAt,
        &[Input::Array, Input::Index],
    ),
    ("constant_slice", Call::Slice, &[Input::Array, Input::Range]),
    ("constant_cast", Call::Cast, &[Input::Array, Input::Type]),
    (
        "constant_compare",
        Call::Compare,
        &[Input::Array, Input::Operator, Input::Literal],
    ),
    (
        "constant_array_statistics",
        Call::Statistics,
        &[Input::Array],
    ),
    ("constant_key", Call::Key, &[Input::Array, Input::Sorting]),
];

/// The call that takes a filter: the comparison of a column with a literal.
#[derive(Clone, Copy)]
struct TruthOf;

const TRUTH_OF: [Named<TruthOf, Input>; 1] = [(
    "constant_truth",
    TruthOf,
    &[Input::Array, Input::Column, Input::Operator, Input::Literal],
)];

/// Answers the line if it names one of these calls.
pub fn answer(line: &mut Line<'_>) {
    line.lend(&CALLS, answer_of);
    line.give(&TRUTH_OF, truth_of);
}

/// An answer, or the refusal that all calls have.
type ConstantResult = Result<ConstantAnswer, VortexError>;

fn answer_of(alloc: Global, call: Call, given: &ConstantInputs) -> ConstantResult {
    let array = &given.array;
    match call {
        Call::ScalarAt => match array.scalar_at(alloc, given.index) {
            Ok(scalar) => Ok(ConstantAnswer::Scalar(scalar)),
            Err(refusal) => refused(refusal),
        },
        Call::Slice => match array.slice(alloc, given.index, given.end) {
            Ok(slice) => Ok(ConstantAnswer::Array(slice)),
            Err(refusal) => refused(refusal),
        },
        Call::Cast => cast(alloc, array, &given.dtype),
        Call::Compare => {
            let truth = array.compare(given.operator, &given.literal);
            Ok(ConstantAnswer::Truth(truth))
        }
        Call::Statistics => match array.statistics(alloc) {
            Ok(statistics) => Ok(ConstantAnswer::Statistics(statistics)),
            Err(_) => Err(VortexError::OutOfMemory),
        },
        Call::Key => key(alloc, array, given.sorting),
    }
}

/// A refusal, which is an answer; `OutOfMemory` is that of all calls.
fn refused(refusal: ConstantArrayError) -> ConstantResult {
    match refusal {
        ConstantArrayError::OutOfMemory => Err(VortexError::OutOfMemory),
        _ => Ok(ConstantAnswer::Refused(refusal)),
    }
}

/// The array of another type. Only a valid scalar is cast.
fn cast(alloc: Global, array: &ConstantArray, dtype: &DType) -> ConstantResult {
    validate(alloc, array.scalar())?;
    array.cast(alloc, dtype).map(ConstantAnswer::Array)
}

/// What a comparison of a column with a literal, as a filter, is on each row.
fn truth_of(_alloc: Global, _call: TruthOf, given: &mut ConstantInputs) -> ConstantResult {
    let filter = Filter::Compare {
        column: given.column,
        operator: given.operator,
        literal: take_scalar(&mut given.literal),
    };
    Ok(ConstantAnswer::Truth(given.array.truth_of(&filter)))
}

/// The key of each row.
fn key(alloc: Global, array: &ConstantArray, options: SortOptions) -> ConstantResult {
    let mut key = Vec::new(alloc);
    match array.append_key(options, &mut key) {
        Ok(()) => Ok(ConstantAnswer::Key(key)),
        Err(_) if !key.is_empty() => Ok(ConstantAnswer::Changed),
        Err(RowError::HasVariant) => Ok(ConstantAnswer::HasVariant),
        Err(_) => Err(VortexError::OutOfMemory),
    }
}

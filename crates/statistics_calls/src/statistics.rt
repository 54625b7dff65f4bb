//! Calls of statistics of columns.

use crate::answers::statistics::StatisticsAnswer;
use crate::read::TypedStatistics;
use crate::statistics_inputs::{Input, StatisticsInputs};
use case_lines::{Line, Named, take_type};
use statistics_bytes::{append_statistics, decode_statistics};
use std::alloc::Global;
use std::mem::replace;
use vortex_dtype::{DType, VortexError};
use vortex_statistics::{ColumnStatistics, StatisticsError};
use vortex_value::{ScalarRef, ScalarValue};

#[derive(Clone, Copy)]
enum Call {
    Statistics,
    Of,
    OfConstant,
    MayBeNull,
    MayBeValue,
    Bytes,
    FromBytes,
    CastLower,
}

const CALLS: [Named<Call, Input>; 8] = [
    (
        "statistics",
        Call::Statistics,
        &[Input::Type, Input::Values],
    ),
    ("statistics_of", Call::Of, &[Input::Type, Input::Scalars]),
    (
        "constant_statistics",
        Call::OfConstant,
        &[Input::Scalar, Input::Number],
    ),
    ("may_be_null", Call::MayBeNull, &[Input::Column]),
    ("may_be_value", Call::MayBeValue, &[Input::Column]),
    ("statistics_bytes", Call::Bytes, &[Input::Column]),
    (
        "from_statistics_bytes",
        Call::FromBytes,
        &[Input::Type, Input::Bytes],
    ),
    (
        "cast_lower_bound",
        Call::CastLower,
        &[Input::Type, Input::Bytes, Input::Target],
    ),
];

/// The calls that take statistics.
#[derive(Clone, Copy)]
enum Taking {
    Observe,
    Merge,
    MergeAll,
    Truncate,
    BytesInRoom,
}

const TAKING: [Named<Taking, Input>; 5] = [
    (
        "observe",
        Taking::Observe,
        &[Input::Column, Input::NextCell],
    ),
    ("merge", Taking::Merge, &[Input::Column, Input::NextPiece]),
    ("merge_all", Taking::MergeAll, &[Input::Pieces]),
    (
        "truncate",
        Taking::Truncate,
        &[Input::Column, Input::Number],
    ),
    (
        "statistics_bytes_in_room",
        Taking::BytesInRoom,
        &[Input::Column, Input::Room],
    ),
];

/// Answers the line if it names one of these calls.
pub fn answer(line: &mut Line<'_>) {
    line.lend(&CALLS, answer_of);
    line.give(&TAKING, answer_taking);
}

/// An answer, or the refusal that all calls have.
pub type StatisticsResult = Result<StatisticsAnswer, VortexError>;

/// Statistics of a column of this type, or their refusal. `OutOfMemory` is that of all calls.
pub fn column_answer(
    dtype: DType,
    made: Result<ColumnStatistics, StatisticsError>,
) -> StatisticsResult {
    match made {
        Ok(statistics) => Ok(StatisticsAnswer::Statistics(TypedStatistics { dtype, statistics })),
        Err(refusal) => {
            drop(dtype);
            refused(refusal)
        }
    }
}

fn refused(refusal: StatisticsError) -> StatisticsResult {
    match refusal {
        StatisticsError::OutOfMemory => Err(VortexError::OutOfMemory),
        _ => Ok(StatisticsAnswer::Refused(refusal)),
    }
}

fn answer_of(alloc: Global, call: Call, given: &StatisticsInputs) -> StatisticsResult {
    match call {
        Call::Statistics => {
            let dtype = given.dtype.clone(alloc)?;
            column_answer(dtype, observed(alloc, &given.dtype, &given.values))
        }
        Call::Of => {
            let dtype = given.dtype.clone(alloc)?;
            column_answer(dtype, ColumnStatistics::of(alloc, &given.scalars))
        }
        Call::OfConstant => {
            let dtype = given.scalar.dtype.clone(alloc)?;
            let made = ColumnStatistics::of_constant(alloc, &given.scalar, given.number);
            column_answer(dtype, made)
        }
        Call::FromBytes => {
            let dtype = given.dtype.clone(alloc)?;
            let bytes = given.bytes.as_slice();
            column_answer(dtype, decode_statistics(alloc, &given.dtype, bytes))
        }
        Call::CastLower => cast_lower(alloc, given),
        Call::MayBeNull => Ok(StatisticsAnswer::Truth(given.statistics.may_be_null())),
        Call::MayBeValue => Ok(StatisticsAnswer::Truth(given.statistics.may_be_value())),
        Call::Bytes => {
            let mut bytes = Vec::new(alloc);
            let outcome = append_statistics(&given.statistics, &mut bytes);
            bytes_answer(outcome, bytes)
        }
    }
}

/// The lower bound that the bytes say, cast to the target. What is read is valid, so nothing tests it.
fn cast_lower(alloc: Global, given: &StatisticsInputs) -> StatisticsResult {
    let bytes = given.bytes.as_slice();
    match decode_statistics(alloc, &given.dtype, bytes) {
        Ok(statistics) => match &statistics.lower {
            Some(lower) => {
                let cast = lower.value.cast(alloc, &given.target);
                cast.map(StatisticsAnswer::Scalar)
            }
            None => Ok(StatisticsAnswer::NoBound),
        },
        Err(refusal) => refused(refusal),
    }
}

/// The statistics of values, observed one by one.
fn observed(
    alloc: Global,
    dtype: &DType,
    values: &[Option<ScalarValue>],
) -> Result<ColumnStatistics, StatisticsError> {
    let mut statistics = ColumnStatistics::empty();
    for value in values {
        statistics.observe(alloc, ScalarRef::from_parts(dtype, value.as_ref()))?;
    }
    Ok(statistics)
}

fn answer_taking(alloc: Global, call: Taking, given: &mut StatisticsInputs) -> StatisticsResult {
    let made = match call {
        Taking::Observe => observe(alloc, given),
        Taking::Merge => {
            let first = take_statistics(&mut given.statistics);
            first.merge(take_statistics(&mut given.second))
        }
        Taking::MergeAll => {
            ColumnStatistics::merge_all(replace(&mut given.pieces, Vec::new(alloc)))
        }
        Taking::Truncate => {
            take_statistics(&mut given.statistics).truncate(alloc, given.number as usize)
        }
        Taking::BytesInRoom => return bytes_in_room(alloc, given),
    };
    column_answer(take_type(&mut given.dtype), made)
}

/// Takes statistics from their place.
fn take_statistics(place: &mut ColumnStatistics) -> ColumnStatistics {
    replace(place, ColumnStatistics::empty())
}

/// The statistics with one cell more.
fn observe(
    alloc: Global,
    given: &mut StatisticsInputs,
) -> Result<ColumnStatistics, StatisticsError> {
    given
        .statistics
        .observe(alloc, ScalarRef::of(&given.scalar))?;
    Ok(take_statistics(&mut given.statistics))
}

/// The encoding in bytes, appended where there is capacity.
fn bytes_in_room(alloc: Global, given: &mut StatisticsInputs) -> StatisticsResult {
    let mut bytes = replace(&mut given.room, Vec::new(alloc));
    let outcome = append_statistics(&given.statistics, &mut bytes);
    bytes_answer(outcome, bytes)
}

/// The encoding in bytes, or its refusal. `Changed` if a refusal left a part of it.
fn bytes_answer(outcome: Result<(), StatisticsError>, bytes: Vec<u8>) -> StatisticsResult {
    match outcome {
        Ok(()) => Ok(StatisticsAnswer::Bytes(bytes)),
        Err(_) if !bytes.is_empty() => Ok(StatisticsAnswer::Changed),
        Err(refusal) => refused(refusal),
    }
}

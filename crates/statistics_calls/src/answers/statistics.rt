//! What calls of statistics answer, and how it is written.

use crate::read::TypedStatistics;
use case_lines::{
    Output, WriteAnswer, truth_word, write_bytes, write_count, write_raw, write_scalar, write_type,
};
use vortex_dtype::DType;
use vortex_statistics::{Bound, StatisticsError};
use vortex_value::Scalar;

/// What a call of statistics answers.
#[derive(Drop)]
pub enum StatisticsAnswer {
    Statistics(TypedStatistics),
    Truth(bool),
    Scalar(Scalar),
    /// There is no such bound.
    NoBound,
    /// Statistics as bytes.
    Bytes(Vec<u8>),
    /// The call refused, but left a part of the bytes.
    Changed,
    Refused(StatisticsError),
}

impl WriteAnswer for StatisticsAnswer {
    fn write_answer(&self, out: &mut Output) {
        match self {
            StatisticsAnswer::Statistics(column) => write_statistics(out, column),
            StatisticsAnswer::Truth(is_true) => out.word(truth_word(*is_true)),
            StatisticsAnswer::Scalar(scalar) => write_scalar(out, scalar),
            StatisticsAnswer::NoBound => out.word("none"),
            StatisticsAnswer::Bytes(bytes) => write_bytes(out, bytes),
            StatisticsAnswer::Changed => out.word("changed"),
            StatisticsAnswer::Refused(refusal) => write_refusal(out, *refusal),
        }
    }
}

/// Writes statistics after the column's type, as they are read.
fn write_statistics(out: &mut Output, column: &TypedStatistics) {
    let TypedStatistics { dtype, statistics } = column;
    write_type(out, dtype);
    out.word(":(");
    write_counted(out, statistics.row_count, " row");
    out.word(", ");
    match statistics.null_count {
        Some(nulls) => write_counted(out, nulls, " null"),
        None => out.char('_'),
    }
    out.word(", ");
    write_bound(out, dtype, statistics.lower.as_ref());
    out.word(", ");
    write_bound(out, dtype, statistics.upper.as_ref());
    out.char(')');
}

/// Writes a number and what it counts.
fn write_counted(out: &mut Output, count: u64, noun: &str) {
    out.number(count);
    out.word(noun);
    if count != 1 {
        out.char('s');
    }
}

/// Writes a bound, with its type if that is not the column's.
fn write_bound(out: &mut Output, dtype: &DType, bound: Option<&Bound>) {
    let Some(bound) = bound else {
        return out.char('_');
    };
    write_raw(out, bound.value.value.as_ref());
    if bound.value.dtype != *dtype {
        out.word(" of ");
        write_type(out, &bound.value.dtype);
    }
    if bound.is_exact {
        out.word(" exact");
    }
}

/// Writes the name of a refusal, and then its place.
fn write_refusal(out: &mut Output, refusal: StatisticsError) {
    match refusal {
        StatisticsError::OutOfMemory => out.word("OutOfMemory"),
        StatisticsError::TooManyRows => out.word("TooManyRows"),
        StatisticsError::HasVariant => out.word("HasVariant"),
        StatisticsError::BadBytes { offset: place } => {
            out.word("BadBytes");
            write_count(out, place);
        }
    }
}

//! What calls of constant arrays answer, and how it is written.

use case_lines::{Output, WriteAnswer, write_bytes, write_count, write_scalar};
use constant_arrays::{ConstantArray, ConstantArrayError};
use vortex_filter::Truth;
use vortex_statistics::{Bound, ColumnStatistics};
use vortex_value::Scalar;

/// What a call of constant arrays answers.
#[derive(Drop)]
pub enum ConstantAnswer {
    Scalar(Scalar),
    /// An array, as its scalar and how many rows have it.
    Array(ConstantArray),
    /// What each row is.
    Truth(Truth),
    Statistics(ColumnStatistics),
    Key(Vec<u8>),
    /// The call refused, but left a part of the key.
    Changed,
    Refused(ConstantArrayError),
    /// A variant stands in the type or in the scalar.
    HasVariant,
}

impl WriteAnswer for ConstantAnswer {
    fn write_answer(&self, out: &mut Output) {
        match self {
            ConstantAnswer::Scalar(scalar) => write_scalar(out, scalar),
            ConstantAnswer::Array(array) => {
                write_scalar(out, array.scalar());
                write_count(out, array.len());
            }
            ConstantAnswer::Truth(truth) => out.word(row_truth_word(*truth)),
            ConstantAnswer::Statistics(statistics) => write_statistics(out, statistics),
            ConstantAnswer::Key(key) => write_bytes(out, key),
            ConstantAnswer::Changed => out.word("changed"),
            ConstantAnswer::Refused(refusal) => write_refusal(out, *refusal),
            ConstantAnswer::HasVariant => out.word("HasVariant"),
        }
    }
}

fn row_truth_word(truth: Truth) -> &'static str {
    match truth {
        Truth::False => "false",
        Truth::Unknown => "unknown",
        Truth::True => "true",
    }
}

/// Writes how many rows and nulls there are, and the bounds; an underscore is what is not known.
fn write_statistics(out: &mut Output, statistics: &ColumnStatistics) {
    out.number(statistics.row_count);
    out.char(' ');
    match statistics.null_count {
        Some(nulls) => out.number(nulls),
        None => out.char('_'),
    }
    write_bound(out, statistics.lower.as_ref());
    write_bound(out, statistics.upper.as_ref());
}

fn write_bound(out: &mut Output, bound: Option<&Bound>) {
    let Some(bound) = bound else {
        return out.word(" _");
    };
    out.char(' ');
    write_scalar(out, &bound.value);
    if bound.is_exact {
        out.word(" exact");
    }
}

/// Writes the name of a refusal, and then its fields.
fn write_refusal(out: &mut Output, refusal: ConstantArrayError) {
    match refusal {
        ConstantArrayError::OutOfMemory => out.word("OutOfMemory"),
        ConstantArrayError::IndexOutOfBounds { index, len } => {
            out.word("IndexOutOfBounds");
            write_count(out, index);
            write_count(out, len);
        }
        ConstantArrayError::RangeOutOfBounds { start, end, len } => {
            out.word("RangeOutOfBounds");
            write_count(out, start);
            write_count(out, end);
            write_count(out, len);
        }
    }
}

//! Calls of prepared filters: filters in bytes.

use crate::answers::FilterAnswer;
use crate::filter_inputs::FilterInputs;
use crate::filters::{FilterResult, sql_answer};
use filter_encoding::{FilterEncodingError, append_filter, read_filter};
use filter_sql::{Column, ParseError, parse_within};
use std::alloc::Global;
use vortex_dtype::{DType, VortexError};
use vortex_filter::Filter;
use vortex_value::{Scalar, ScalarValue};

/// How many connectives may nest in the bytes.
const DEPTH: usize = 256;

/// The bytes of the filter that SQL text is, with the types of its columns.
pub(crate) fn prepare(alloc: Global, given: &FilterInputs) -> FilterResult {
    match parse_within(alloc, &given.text, &given.columns, given.depth) {
        Ok(filter) => {
            let answer = written(alloc, &filter, &given.columns);
            drop(filter);
            answer
        }
        Err(ParseError::OutOfMemory) => Err(VortexError::OutOfMemory),
        Err(refusal) => Ok(FilterAnswer::TextRefused(refusal)),
    }
}

/// The bytes of a filter, with the types of its columns.
fn written(alloc: Global, filter: &Filter, columns: &[Column]) -> FilterResult {
    let dtypes = types_of(alloc, columns)?;
    let mut bytes = Vec::new(alloc);
    match append_filter(filter, &dtypes, DEPTH, &mut bytes) {
        Ok(()) => Ok(FilterAnswer::Bytes(bytes)),
        Err(refusal) => {
            drop(bytes);
            refused(refusal)
        }
    }
}

/// Copies of the types of columns.
fn types_of(alloc: Global, columns: &[Column]) -> Result<Vec<DType>, VortexError> {
    let mut dtypes = Vec::new(alloc);
    for column in columns {
        let dtype = column.dtype.clone(alloc)?;
        dtypes.push(dtype)?;
    }
    Ok(dtypes)
}

/// The filter of these bytes, as SQL text with the places of its columns.
pub(crate) fn read_prepared(alloc: Global, given: &FilterInputs) -> FilterResult {
    match read_filter(alloc, DEPTH, bytes_in(&given.literal)) {
        Ok(prepared) => {
            let answer = sql_answer(alloc, &prepared.filter, &[]);
            drop(prepared);
            answer
        }
        Err(refusal) => refused(refusal),
    }
}

/// The bytes of a scalar of bytes, and none of another.
fn bytes_in(scalar: &Scalar) -> &[u8] {
    match scalar.value() {
        Some(ScalarValue::Binary(bytes)) => bytes.as_slice(),
        _ => &[],
    }
}

/// A refusal, which is an answer; `OutOfMemory` is that of all calls.
fn refused(refusal: FilterEncodingError) -> FilterResult {
    match refusal {
        FilterEncodingError::OutOfMemory => Err(VortexError::OutOfMemory),
        _ => Ok(FilterAnswer::EncodingRefused(refusal)),
    }
}

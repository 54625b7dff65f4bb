//! Calls of pieces: what is known of one column in one zone, in bytes.

use crate::answers::statistics::StatisticsAnswer;
use crate::statistics::{StatisticsResult, column_answer};
use crate::statistics_inputs::{Input, StatisticsInputs};
use case_lines::{Line, Named};
use statistics_bytes::decode_piece_into;
use std::alloc::Global;
use vortex_dtype::DType;
use vortex_statistics::{ColumnStatistics, StatisticsError};

#[derive(Clone, Copy)]
enum Call {
    FromPiece,
}

const CALLS: [Named<Call, Input>; 1] = [(
    "from_piece",
    Call::FromPiece,
    &[Input::Type, Input::Bytes],
)];

/// Answers the line if it names this call.
pub fn answer(line: &mut Line<'_>) {
    line.lend(&CALLS, answer_of);
}

fn answer_of(alloc: Global, call: Call, given: &StatisticsInputs) -> StatisticsResult {
    match call {
        Call::FromPiece => {
            let dtype = given.dtype.clone(alloc)?;
            let bytes = given.bytes.as_slice();
            column_answer(dtype, said(alloc, &given.dtype, bytes))
        }
    }
}

/// What a piece says, put in the place of other statistics.
fn said(alloc: Global, dtype: &DType, piece: &[u8]) -> Result<ColumnStatistics, StatisticsError> {
    let mut statistics = ColumnStatistics::empty();
    match decode_piece_into(alloc, dtype, piece, &mut statistics) {
        Ok(()) => Ok(statistics),
        Err(refusal) => {
            drop(statistics);
            Err(refusal)
        }
    }
}

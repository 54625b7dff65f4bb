//! What lines give to calls of statistics.

use crate::key_inputs::room;
use crate::read::{TypedStatistics, read_typed_statistics};
use crate::same::same_statistics;
use case_lines::{
    Inputs, Tokens, no_bytes, no_scalar, put, read_bytes, read_list, read_natural, read_scalar,
    read_type, read_value, same_raws, same_scalar, same_scalars,
};
use std::alloc::Global;
use vortex_dtype::{ByteBuffer, DType};
use vortex_statistics::ColumnStatistics;
use vortex_value::{Scalar, ScalarValue};

/// What a call of statistics may ask of a line.
#[derive(Clone, Copy)]
pub enum Input {
    Scalar,
    Type,
    /// The type that a bound is cast to.
    Target,
    Bytes,
    /// A count of rows, or a length in bytes.
    Number,
    /// Scalars of any types, in brackets.
    Scalars,
    /// Raw values, with commas between them.
    Values,
    /// A column's type and statistics.
    Column,
    /// A semicolon, and the column's next cell.
    NextCell,
    /// A semicolon, and a type and the statistics of another piece.
    NextPiece,
    /// Types and statistics, with semicolons between them. The type of the first is the column's.
    Pieces,
    /// A buffer for an encoding in bytes. No word of the line stands for it.
    Room,
}

/// What a line gives to a call of statistics.
#[derive(Drop)]
pub struct StatisticsInputs {
    pub scalar: Scalar,
    pub dtype: DType,
    /// The type that a bound is cast to.
    pub target: DType,
    pub bytes: ByteBuffer,
    pub number: u64,
    pub scalars: Vec<Scalar>,
    pub values: Vec<Option<ScalarValue>>,
    /// The statistics of a column of the type `dtype`.
    pub statistics: ColumnStatistics,
    /// The statistics of another piece.
    pub second: ColumnStatistics,
    /// The statistics of all pieces.
    pub pieces: Vec<ColumnStatistics>,
    pub room: Vec<u8>,
}

impl Inputs for StatisticsInputs {
    type Input = Input;

    fn empty(alloc: Global) -> StatisticsInputs {
        StatisticsInputs {
            scalar: no_scalar(),
            dtype: DType::Null,
            target: DType::Null,
            bytes: no_bytes(alloc),
            number: 0,
            scalars: Vec::new(alloc),
            values: Vec::new(alloc),
            statistics: ColumnStatistics::empty(),
            second: ColumnStatistics::empty(),
            pieces: Vec::new(alloc),
            room: Vec::new(alloc),
        }
    }

    fn read(&mut self, input: Input, tokens: &mut Tokens<'_>) {
        match input {
            Input::Values => put(&mut self.values, read_values(tokens)),
            Input::NextCell => {
                tokens.expect(b';');
                tokens.spaces();
                put(&mut self.scalar, read_scalar(tokens));
            }
            Input::NextPiece => {
                tokens.expect(b';');
                put(&mut self.second, read_column(tokens).statistics);
            }
            Input::Room => put(&mut self.room, room(tokens)),
            _ => read_argument(self, input, tokens),
        }
    }

    fn is_same(&self, copy: &StatisticsInputs) -> bool {
        same_scalar(&self.scalar, &copy.scalar)
            && same_scalars(&self.scalars, &copy.scalars)
            && same_raws(&self.values, &copy.values)
            && same_statistics(&self.statistics, &copy.statistics)
            && self.dtype == copy.dtype
            && self.target == copy.target
            && self.bytes == copy.bytes
    }
}

/// Reads an input that stands after spaces.
fn read_argument(given: &mut StatisticsInputs, input: Input, tokens: &mut Tokens<'_>) {
    tokens.spaces();
    match input {
        Input::Scalar => put(&mut given.scalar, read_scalar(tokens)),
        Input::Type => put(&mut given.dtype, read_type(tokens)),
        Input::Target => put(&mut given.target, read_type(tokens)),
        Input::Bytes => put(&mut given.bytes, read_bytes(tokens)),
        Input::Number => given.number = read_natural(tokens, u64::MAX),
        Input::Scalars => put(&mut given.scalars, read_list(tokens)),
        Input::Column => keep_column(given, read_typed_statistics(tokens)),
        _ => read_pieces(given, tokens),
    }
}

/// Keeps the type and the statistics of a column.
fn keep_column(given: &mut StatisticsInputs, column: TypedStatistics) {
    let TypedStatistics { dtype, statistics } = column;
    put(&mut given.dtype, dtype);
    put(&mut given.statistics, statistics);
}

/// Reads a column's type and statistics, after spaces.
fn read_column(tokens: &mut Tokens<'_>) -> TypedStatistics {
    tokens.spaces();
    read_typed_statistics(tokens)
}

/// Reads raw values, with commas between them.
fn read_values(tokens: &mut Tokens<'_>) -> Vec<Option<ScalarValue>> {
    let mut values = Vec::new(tokens.alloc);
    for before in 0..=tokens.left() {
        if !tokens.has_more(before) {
            break;
        }
        let value = read_value(tokens);
        tokens.push(&mut values, value);
    }
    values
}

/// Reads the statistics of pieces, with semicolons between them, and the type of the first.
fn read_pieces(given: &mut StatisticsInputs, tokens: &mut Tokens<'_>) {
    let TypedStatistics { dtype, statistics } = read_typed_statistics(tokens);
    put(&mut given.dtype, dtype);
    tokens.push(&mut given.pieces, statistics);
    for _ in 0..=tokens.left() {
        if !tokens.takes(b';') {
            break;
        }
        let piece = read_column(tokens).statistics;
        tokens.push(&mut given.pieces, piece);
    }
}

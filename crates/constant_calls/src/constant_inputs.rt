//! What lines give to calls of constant arrays.

use case_lines::{
    Inputs, Tokens, no_scalar, put, read_named, read_natural, read_scalar, read_type, same_scalar,
};
use constant_arrays::ConstantArray;
use std::alloc::Global;
use vortex_dtype::DType;
use vortex_filter::CompareOperator;
use vortex_row::SortOptions;
use vortex_value::Scalar;

/// What a call of constant arrays may ask of a line.
#[derive(Clone, Copy)]
pub enum Input {
    /// A scalar, and how many rows have it.
    Array,
    Index,
    /// The index of the first row, and that behind the last.
    Range,
    Type,
    /// The place of a column in a filter.
    Column,
    Operator,
    Literal,
    /// `desc` and `nulls_last`; either may be missing.
    Sorting,
}

/// What a line gives to a call of constant arrays.
#[derive(Drop)]
pub struct ConstantInputs {
    pub array: ConstantArray,
    /// An index, or that of the first row of a range.
    pub index: usize,
    /// The index behind the last row of a range.
    pub end: usize,
    pub dtype: DType,
    pub column: usize,
    pub operator: CompareOperator,
    pub literal: Scalar,
    pub sorting: SortOptions,
}

impl Inputs for ConstantInputs {
    type Input = Input;

    fn empty(_alloc: Global) -> ConstantInputs {
        ConstantInputs {
            array: ConstantArray::new(no_scalar(), 0),
            index: 0,
            end: 0,
            dtype: DType::Null,
            column: 0,
            operator: CompareOperator::Eq,
            literal: no_scalar(),
            sorting: SortOptions::default(),
        }
    }

    fn read(&mut self, input: Input, tokens: &mut Tokens<'_>) {
        match input {
            Input::Array => put(&mut self.array, read_array(tokens)),
            Input::Index => self.index = read_number(tokens),
            Input::Range => {
                self.index = read_number(tokens);
                self.end = read_number(tokens);
            }
            Input::Type => {
                tokens.spaces();
                put(&mut self.dtype, read_type(tokens));
            }
            Input::Column => self.column = read_number(tokens),
            Input::Operator => self.operator = read_operator(tokens),
            Input::Literal => {
                tokens.spaces();
                put(&mut self.literal, read_scalar(tokens));
            }
            Input::Sorting => self.sorting = read_sorting(tokens),
        }
    }

    fn is_same(&self, copy: &ConstantInputs) -> bool {
        same_scalar(self.array.scalar(), copy.array.scalar())
            && self.array.len() == copy.array.len()
            && self.dtype == copy.dtype
            && same_scalar(&self.literal, &copy.literal)
    }
}

/// Reads a scalar, and how many rows have it.
fn read_array(tokens: &mut Tokens<'_>) -> ConstantArray {
    tokens.spaces();
    let scalar = read_scalar(tokens);
    ConstantArray::new(scalar, read_number(tokens))
}

/// Reads a natural number after spaces.
fn read_number(tokens: &mut Tokens<'_>) -> usize {
    tokens.spaces();
    read_natural(tokens, u64::MAX) as usize
}

fn read_operator(tokens: &mut Tokens<'_>) -> CompareOperator {
    const WORDS: [(&str, CompareOperator); 6] = [
        ("eq", CompareOperator::Eq),
        ("not_eq", CompareOperator::NotEq),
        ("gt", CompareOperator::Gt),
        ("gte", CompareOperator::Gte),
        ("lt", CompareOperator::Lt),
        ("lte", CompareOperator::Lte),
    ];
    tokens.spaces();
    read_named(tokens, &WORDS, CompareOperator::Eq)
}

/// Reads `desc` for descending, and `nulls_last`; either may be missing.
fn read_sorting(tokens: &mut Tokens<'_>) -> SortOptions {
    SortOptions {
        descending: tokens.takes_word(b"desc"),
        nulls_first: !tokens.takes_word(b"nulls_last"),
    }
}

//! What lines give to calls of keys.

use case_lines::{
    Inputs, Item, Tokens, no_bytes, no_scalar, put, read_bytes, read_list, read_scalar, read_type,
    same_scalar, same_scalars,
};
use std::alloc::Global;
use vortex_dtype::{ByteBuffer, DType, VortexError};
use vortex_row::SortOptions;
use vortex_value::Scalar;

/// What a call of keys may ask of a line.
#[derive(Clone, Copy)]
pub enum Input {
    Scalar,
    Type,
    Bytes,
    SecondBytes,
    /// `desc` and `nulls_last`; either may be missing.
    Sorting,
    /// Columns with semicolons between them: the scalar of each, and how it is sorted.
    Row,
    /// Columns with semicolons between them: the type of each, and how it is sorted.
    Columns,
    /// The scalars of rows, one row after another, in brackets.
    Rows,
    /// A buffer for a key. No word of the line stands for it.
    Room,
}

/// What a line gives to a call of keys.
#[derive(Drop)]
pub struct KeyInputs {
    pub scalar: Scalar,
    pub dtype: DType,
    pub bytes: ByteBuffer,
    pub second_bytes: ByteBuffer,
    pub sorting: SortOptions,
    /// The scalars of a row, or of several.
    pub scalars: Vec<Scalar>,
    /// The types of columns.
    pub dtypes: Vec<DType>,
    /// How columns are sorted.
    pub options: Vec<SortOptions>,
    pub room: Vec<u8>,
}

impl Inputs for KeyInputs {
    type Input = Input;

    fn empty(alloc: Global) -> KeyInputs {
        KeyInputs {
            scalar: no_scalar(),
            dtype: DType::Null,
            bytes: no_bytes(alloc),
            second_bytes: no_bytes(alloc),
            sorting: SortOptions::default(),
            scalars: Vec::new(alloc),
            dtypes: Vec::new(alloc),
            options: Vec::new(alloc),
            room: Vec::new(alloc),
        }
    }

    fn read(&mut self, input: Input, tokens: &mut Tokens<'_>) {
        match input {
            Input::Sorting => self.sorting = read_options(tokens),
            Input::Row => {
                let scalars = read_columns(tokens, &mut self.options);
                put(&mut self.scalars, scalars);
            }
            Input::Columns => {
                let dtypes = read_columns(tokens, &mut self.options);
                put(&mut self.dtypes, dtypes);
            }
            Input::Room => put(&mut self.room, room(tokens)),
            _ => read_argument(self, input, tokens),
        }
    }

    fn is_same(&self, copy: &KeyInputs) -> bool {
        same_scalar(&self.scalar, &copy.scalar)
            && same_scalars(&self.scalars, &copy.scalars)
            && self.dtype == copy.dtype
            && self.dtypes == copy.dtypes
            && self.bytes == copy.bytes
            && self.second_bytes == copy.second_bytes
            && self.options == copy.options
    }
}

/// Reads an input that stands after spaces.
fn read_argument(given: &mut KeyInputs, input: Input, tokens: &mut Tokens<'_>) {
    tokens.spaces();
    match input {
        Input::Scalar => put(&mut given.scalar, read_scalar(tokens)),
        Input::Type => put(&mut given.dtype, read_type(tokens)),
        Input::Bytes => put(&mut given.bytes, read_bytes(tokens)),
        Input::SecondBytes => put(&mut given.second_bytes, read_bytes(tokens)),
        _ => put(&mut given.scalars, read_list(tokens)),
    }
}

/// Reads `desc` for descending, and `nulls_last`; either may be missing.
fn read_options(tokens: &mut Tokens<'_>) -> SortOptions {
    let descending = tokens.takes_word(b"desc");
    let nulls_first = !tokens.takes_word(b"nulls_last");
    SortOptions {
        descending,
        nulls_first,
    }
}

/// Reads columns with semicolons between them: what each has, and how each is sorted, which is
/// added to `options`. An underscore stands for what is missing.
fn read_columns<T: Item>(tokens: &mut Tokens<'_>, options: &mut Vec<SortOptions>) -> Vec<T> {
    let mut contents = Vec::new(tokens.alloc);
    for _ in 0..=tokens.left() {
        tokens.spaces();
        if !tokens.takes(b'_') {
            let content = T::read_item(tokens);
            tokens.push(&mut contents, content);
        }
        if !tokens.takes(b'_') {
            let sorting = read_options(tokens);
            tokens.push(options, sorting);
        }
        if !tokens.takes(b';') {
            break;
        }
    }
    contents
}

/// A buffer for a key or an encoding, made before the call.
pub fn room(tokens: &mut Tokens<'_>) -> Vec<u8> {
    let room = Vec::with_capacity(tokens.alloc, 4096);
    let made = tokens.made(room.map_err(VortexError::from));
    made.unwrap_or(Vec::new(tokens.alloc))
}

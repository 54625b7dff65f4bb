//! What lines give to calls of filters. SQL text ends at a semicolon; its columns are `$1`, `$2` and so
//! on, of the types that follow.

use crate::same::{same_columns, same_filter, same_zones};
use case_lines::{
    Inputs, Tokens, copy_type, no_scalar, put, read_name, read_named, read_scalar, read_type,
    read_value, same_scalars,
};
use filter_sql::{Column, ParseError, parse_within};
use statistics_calls::{read_statistics, read_typed_statistics};
use std::alloc::{AllocError, Global};
use std::str;
use vortex_dtype::{DType, VortexError};
use vortex_filter::{CompareOperator, Filter, Truth};
use vortex_statistics::ColumnStatistics;
use vortex_value::Scalar;

/// What a call of filters may ask of a line.
#[derive(Clone, Copy)]
pub enum Input {
    /// SQL text, and the names and types of the columns that it may name.
    Text,
    /// A filter, and the cell of each column that it may name.
    OnCells,
    /// A filter, and the statistics of each column that it may name.
    OnZone,
    /// A filter, the types of the columns that it may name, and rows, one after another.
    OnRows,
    /// A filter, the types of the columns that it may name, and zones, one after another.
    OnZones,
    /// A filter, the types of its literals, and those of columns.
    ForTypes,
    /// A cell.
    Cell,
    /// A column's type, and the statistics of a zone.
    Zone,
    Operator,
    Literal,
}

/// What a line gives to a call of filters.
#[derive(Drop)]
pub struct FilterInputs {
    pub filter: Filter,
    /// The cells of a row, or of several.
    pub cells: Vec<Scalar>,
    /// The statistics of a zone, or of several.
    pub zones: Vec<ColumnStatistics>,
    /// How many columns a row or a zone has.
    pub width: usize,
    /// How many rows or zones there are, if they may be several.
    pub count: usize,
    /// The types of columns.
    pub dtypes: Vec<DType>,
    pub text: String,
    pub columns: Vec<Column>,
    /// How deep the text may nest.
    pub depth: usize,
    pub operator: CompareOperator,
    pub literal: Scalar,
}

impl Inputs for FilterInputs {
    type Input = Input;

    fn empty(alloc: Global) -> FilterInputs {
        FilterInputs {
            filter: Filter::Constant(Truth::Unknown),
            cells: Vec::new(alloc),
            zones: Vec::new(alloc),
            width: 0,
            count: 0,
            dtypes: Vec::new(alloc),
            text: String::new(alloc),
            columns: Vec::new(alloc),
            depth: 0,
            operator: CompareOperator::Eq,
            literal: no_scalar(),
        }
    }

    fn read(&mut self, input: Input, tokens: &mut Tokens<'_>) {
        tokens.spaces();
        match input {
            Input::Text => read_sql(self, tokens),
            Input::OnCells => {
                let filter = read_filter_on(tokens, &mut self.cells);
                put(&mut self.filter, filter);
            }
            Input::OnZone => {
                let filter = read_filter_on(tokens, &mut self.zones);
                put(&mut self.filter, filter);
            }
            Input::OnRows => {
                let filter = read_filter_on_many(
                    tokens,
                    &mut self.width,
                    &mut self.count,
                    &mut self.cells,
                );
                put(&mut self.filter, filter);
            }
            Input::OnZones => {
                let filter = read_filter_on_many(
                    tokens,
                    &mut self.width,
                    &mut self.count,
                    &mut self.zones,
                );
                put(&mut self.filter, filter);
            }
            Input::ForTypes => {
                let filter = read_filter_for(tokens, &mut self.dtypes);
                put(&mut self.filter, filter);
            }
            Input::Cell => {
                let cell = read_scalar(tokens);
                tokens.push(&mut self.cells, cell);
            }
            Input::Zone => {
                let zone = read_typed_statistics(tokens).statistics;
                tokens.push(&mut self.zones, zone);
            }
            Input::Operator => self.operator = read_operator(tokens),
            Input::Literal => put(&mut self.literal, read_scalar(tokens)),
        }
    }

    fn is_same(&self, copy: &FilterInputs) -> bool {
        same_filter(&self.filter, &copy.filter)
            && same_scalars(&self.cells, &copy.cells)
            && same_zones(&self.zones, &copy.zones)
            && same_columns(&self.columns, &copy.columns)
            && self.dtypes == copy.dtypes
            && self.text == copy.text
    }
}

/// What a filter is asked about in a column: a cell, or statistics.
trait InColumn: Drop {
    /// Reads what follows the column's type.
    fn read_in(tokens: &mut Tokens<'_>, dtype: &DType) -> Self;
}

impl InColumn for Scalar {
    fn read_in(tokens: &mut Tokens<'_>, dtype: &DType) -> Scalar {
        let value = read_value(tokens);
        let dtype = copy_type(tokens, dtype);
        Scalar { dtype, value }
    }
}

impl InColumn for ColumnStatistics {
    fn read_in(tokens: &mut Tokens<'_>, dtype: &DType) -> ColumnStatistics {
        read_statistics(tokens, dtype)
    }
}

/// Reads a filter, and an item for each column that it may name.
fn read_filter_on<T: InColumn>(tokens: &mut Tokens<'_>, items: &mut Vec<T>) -> Filter {
    let text = tokens.sql();
    let mut columns = Vec::new(tokens.alloc);
    for before in 0..=tokens.left() {
        if !tokens.has_more(before) {
            break;
        }
        let dtype = read_type(tokens);
        tokens.expect(b':');
        let item = T::read_in(tokens, &dtype);
        tokens.push(items, item);
        push_column(tokens, &mut columns, dtype);
    }
    parsed(tokens, text, &columns)
}

/// Reads a filter, the types of the columns that it may name, and rows or zones.
fn read_filter_on_many<T: InColumn>(
    tokens: &mut Tokens<'_>,
    width: &mut usize,
    count: &mut usize,
    items: &mut Vec<T>,
) -> Filter {
    let text = tokens.sql();
    let columns = read_columns(tokens);
    *width = columns.len();
    tokens.expect(b';');
    for before in 0..=tokens.left() {
        *count = before;
        if !tokens.has_more(before) {
            break;
        }
        read_row(tokens, &columns, items);
    }
    parsed(tokens, text, &columns)
}

/// Reads a filter, the types of its literals, and those of columns.
fn read_filter_for(tokens: &mut Tokens<'_>, dtypes: &mut Vec<DType>) -> Filter {
    let text = tokens.sql();
    let columns = read_columns(tokens);
    tokens.expect(b';');
    for before in 0..=tokens.left() {
        if !tokens.has_more(before) {
            break;
        }
        let dtype = read_type(tokens);
        tokens.push(dtypes, dtype);
    }
    parsed(tokens, text, &columns)
}

/// Reads an item for each column, in brackets.
fn read_row<T: InColumn>(tokens: &mut Tokens<'_>, columns: &[Column], items: &mut Vec<T>) {
    tokens.expect(b'[');
    for (place, column) in columns.iter().enumerate() {
        if place > 0 {
            tokens.expect(b',');
        }
        let item = T::read_in(tokens, &column.dtype);
        tokens.push(items, item);
    }
    tokens.expect(b']');
}

/// Reads the types of columns.
fn read_columns(tokens: &mut Tokens<'_>) -> Vec<Column> {
    let mut columns = Vec::new(tokens.alloc);
    for before in 0..=tokens.left() {
        if !tokens.has_more(before) {
            break;
        }
        let dtype = read_type(tokens);
        push_column(tokens, &mut columns, dtype);
    }
    columns
}

/// Adds a column of this type, named by its place.
fn push_column(tokens: &mut Tokens<'_>, columns: &mut Vec<Column>, dtype: DType) {
    let alloc = tokens.alloc;
    let place = columns.len();
    let name = format!(in alloc; "${}", place.saturating_add(1));
    let made = tokens.made(name.map_err(|_| VortexError::OutOfMemory));
    let name = made.unwrap_or(String::new(alloc));
    tokens.push(columns, Column { name, dtype });
}

/// The filter of SQL text. Without one the line is bad, or nests too deep.
fn parsed(tokens: &mut Tokens<'_>, text: &[u8], columns: &[Column]) -> Filter {
    let alloc = tokens.alloc;
    let text = str::from_utf8(text).unwrap_or("");
    match parse_within(alloc, text, columns, tokens.room) {
        Ok(filter) => return filter,
        Err(ParseError::OutOfMemory) => drop(tokens.made::<()>(Err(VortexError::OutOfMemory))),
        Err(ParseError::TooDeep { .. }) => tokens.too_deep(),
        Err(_) => tokens.bad_line(),
    }
    Filter::Constant(Truth::Unknown)
}

/// Reads SQL text, and the columns that it may name.
fn read_sql(given: &mut FilterInputs, tokens: &mut Tokens<'_>) {
    let bytes = tokens.sql();
    let copy = String::from_str(tokens.alloc, str::from_utf8(bytes).unwrap_or(""));
    put(&mut given.text, made_string(tokens, copy));
    given.depth = tokens.room;
    for before in 0..=tokens.left() {
        if !tokens.has_more(before) {
            break;
        }
        let column = read_column(tokens);
        tokens.push(&mut given.columns, column);
    }
}

/// A string, or an empty one if there was no memory for it.
fn made_string(tokens: &mut Tokens<'_>, string: Result<String, AllocError>) -> String {
    let made = tokens.made(string.map_err(VortexError::from));
    made.unwrap_or(String::new(tokens.alloc))
}

/// Reads a column's name and type.
fn read_column(tokens: &mut Tokens<'_>) -> Column {
    let name = read_name(tokens);
    let copy = String::from_str(tokens.alloc, name.as_str());
    let name = made_string(tokens, copy);
    tokens.spaces();
    let dtype = read_type(tokens);
    Column { name, dtype }
}

/// Reads an operator, by its name.
fn read_operator(tokens: &mut Tokens<'_>) -> CompareOperator {
    const WORDS: [(&str, CompareOperator); 6] = [
        ("eq", CompareOperator::Eq),
        ("not_eq", CompareOperator::NotEq),
        ("gt", CompareOperator::Gt),
        ("gte", CompareOperator::Gte),
        ("lt", CompareOperator::Lt),
        ("lte", CompareOperator::Lte),
    ];
    read_named(tokens, &WORDS, CompareOperator::Eq)
}

//! Columns of a table whose rows have keys.

ghost use Rattle.std.specs.Prelude.{◌≡◌, ◌<◌, IfErr, IfOk, MatchOption, OnOk, length};
ghost use Rattle.column_keys.specs.Words.{AreReadFrom, AreSoundBefore, IsErrorAt, IsReadFrom, IsTableError};
ghost use Rattle.column_keys.specs.Words.{options_in, rows_in};

use crate::errors::TableError;
use arrow_columns::{Column, Rows, row_count_of};
use column_cells::{row_count, rows_of};
use std::alloc::Global;
use vortex_row::SortOptions;

/// A column whose values can be read, and how it is sorted.
#[derive(Clone, Copy)]
pub struct KeyColumn<'a> {
    /// The rows of the column.
    pub rows: Rows<'a>,
    /// How it is sorted.
    pub options: SortOptions,
}

/// The options that a byte stands for: 1 for greater values first, 2 for nulls first, and the sum
/// for both. `None` for a byte of another value than 0 to 3.
pub fn options_of_byte(byte: u8) -> Option<SortOptions>
    ensures { MatchOption result (¬ (byte < 4))
        (λ options. (byte < 4) × (options ≡ options_in byte)) }
{
    if byte > 3 {
        return None;
    }
    Some(options_of_bits(byte))
}

/// The options that the two low bits of a byte stand for.
pub(crate) fn options_of_bits(byte: u8) -> SortOptions
    ensures { result ≡ options_in byte }
{
    SortOptions {
        descending: byte % 2 == 1,
        nulls_first: byte / 2 % 2 == 1,
    }
}

/// The column at a place, if it has so many rows.
fn key_column<'a>(
    place: usize,
    column: Column<'a>,
    options: u8,
    count: usize,
) -> Result<KeyColumn<'a>, TableError>
    ensures read { IfOk result (λ read. IsReadFrom column.entry options count read) }
    ensures fault { IfErr result (λ fault. IsErrorAt place column.entry options count fault) }
{
    let rows = match rows_of(column) {
        Ok(rows) => rows,
        Err(fault) => {
            return Err(TableError::Unreadable {
                column: place,
                fault,
            });
        }
    };
    let Some(options) = options_of_byte(options) else {
        return Err(TableError::BadOptions { column: place });
    };
    if row_count(&rows) != count {
        return Err(TableError::WrongLength { column: place });
    }
    Ok(KeyColumn { rows, options })
}

/// The columns of a table, each with its byte of options.
///
/// `WrongCount` exactly if there are not as many options as columns, before all else. Then the
/// first column with an error gives it: `Unreadable`, `BadOptions` for a byte above 3, and
/// `WrongLength` for another number of rows than the first. `OutOfMemory` comes in place of none of
/// these: without memory the columns are tested all the same.
#[tactic(auto, using(crate::proofs::ColumnSteps::shown, column_cells::proofs::TableSteps::shown))]
pub fn read_columns<'a>(
    alloc: Global,
    columns: &[Column<'a>],
    options: &[u8],
) -> Result<Vec<KeyColumn<'a>>, TableError>
    ensures read { IfOk result (λ table. AreReadFrom columns.now options.now (length columns.now) table.items) }
    ensures counts { OnOk result (length options.now ≡ length columns.now) }
    ensures sound { OnOk result (AreSoundBefore columns.now options.now (length columns.now)) }
    ensures fault { IfErr result (λ fault. IsTableError columns.now options.now fault) }
{
    if options.len() != columns.len() {
        return Err(TableError::WrongCount);
    }
    let count = row_count_of(columns);
    let Ok(mut table) = Vec::with_capacity(alloc, columns.len()) else {
        expect_columns(columns, options)?;
        return Err(TableError::OutOfMemory);
    };
    for place in 0..columns.len() {
        let column = key_column(place, columns[place], options[place], count)?;
        table.push_reserved(column);
    }
    Ok(table)
}

/// The error of the first column that has one.
#[tactic(auto, using(column_cells::proofs::TableSteps::shown))]
fn expect_columns(columns: &[Column], options: &[u8]) -> Result<(), TableError>
    requires { length options.now ≡ length columns.now }
    ensures sound { OnOk result (AreSoundBefore columns.now options.now (length columns.now)) }
    ensures fault { IfErr result (λ fault. IsTableError columns.now options.now fault) }
{
    let count = row_count_of(columns);
    for place in 0..columns.len() {
        key_column(place, columns[place], options[place], count)?;
    }
    Ok(())
}

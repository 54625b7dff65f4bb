//! The columns of which a filter is asked.

ghost use Rattle.std.specs.Prelude.{◌≡◌, ◌↔◌, IfErr, IfOk, IsTrue, OnOk, length, map};
ghost use Rattle.std.specs.Prelude.{true};
ghost use Rattle.column_filters.specs.Words.{AreColumnsOf, AreReadFrom, IsErrorAt, IsReadFrom, IsReadIf};
ghost use Rattle.column_filters.specs.Words.{IsTableError, Same};
ghost use Rattle.column_filters.specs.Words.{OutOfMemory, formula, type_of, type_of_rows};

use crate::errors::MaskError;
use crate::naming::{is_set, named_columns};
use arrow_columns::{Column, Rows};
use column_cells::{dtype_of_rows, row_count, rows_of};
use std::alloc::Global;
use vortex_dtype::DType;
use vortex_filter::Filter;

/// Whether the cells are of the type, up to nullability. `OutOfMemory` if there is no memory for theirs.
fn are_of_type(alloc: Global, rows: &Rows, dtype: &DType) -> Result<bool, MaskError>
    ensures typed { IfOk result (λ same. IsTrue same ↔ Same (type_of_rows rows.now) (type_of dtype.now)) }
    ensures refused { IfErr result (λ e. e ≡ OutOfMemory) }
{
    match dtype_of_rows(alloc, rows) {
        Ok(typed) => Ok(typed.eq_ignore_nullability(dtype)),
        Err(_) => Err(MaskError::OutOfMemory),
    }
}

/// The rows of the column at a place, if it is of the type and has so many.
fn read_column<'a>(
    alloc: Global,
    place: usize,
    column: Column<'a>,
    dtype: &DType,
    count: usize,
) -> Result<Rows<'a>, MaskError>
    ensures read { IfOk result (λ rows. IsReadFrom column.entry (type_of dtype.now) count rows) }
    ensures fault { IfErr result (λ fault. IsErrorAt place column.entry (type_of dtype.now) count fault) }
{
    let rows = match rows_of(column) {
        Ok(rows) => rows,
        Err(fault) => {
            return Err(MaskError::Unreadable {
                column: place,
                fault,
            });
        }
    };
    if !are_of_type(alloc, &rows, dtype)? {
        return Err(MaskError::TypesDiffer { column: place });
    }
    if row_count(&rows) != count {
        return Err(MaskError::WrongLength { column: place });
    }
    Ok(rows)
}

/// The rows of the column at a place if it is named, and else as many nulls.
fn read_if_named<'a>(
    alloc: Global,
    is_named: bool,
    place: usize,
    column: Column<'a>,
    dtype: &DType,
    count: usize,
) -> Result<Rows<'a>, MaskError>
    ensures read { IfOk result (λ rows. IsReadIf is_named column.entry (type_of dtype.now) count rows) }
    ensures fault { IfErr result (λ fault. (is_named ≡ true)
        × IsErrorAt place column.entry (type_of dtype.now) count fault) }
{
    if is_named {
        read_column(alloc, place, column, dtype, count)
    } else {
        Ok(Rows::Nulls(count))
    }
}

/// The rows of columns of these types, so many of each. A column that the filter does not name is not
/// looked at: whatever it is, it is read as nulls.
///
/// `WrongCount` exactly if there are not as many columns as types, before all else. Then the first
/// named column with an error gives it: `Unreadable`, `TypesDiffer` for cells of another type, up to
/// nullability, and `WrongLength` for another number of rows. `OutOfMemory` may come in place of
/// these, but not of `WrongCount`.
#[tactic(auto, using(crate::proofs::ColumnSteps::shown, column_cells::proofs::TableSteps::shown))]
pub fn read_columns<'a>(
    alloc: Global,
    filter: &Filter,
    columns: &[Column<'a>],
    types: &[DType],
    count: usize,
) -> Result<Vec<Rows<'a>>, MaskError>
    ensures read { IfOk result (λ table.
        AreReadFrom (formula filter.now) columns.now count (length columns.now) table.items) }
    ensures sound { OnOk result
        (AreColumnsOf (formula filter.now) columns.now (map type_of types.now) count) }
    ensures fault { IfErr result
        (λ fault. IsTableError (formula filter.now) columns.now (map type_of types.now) count fault) }
{
    if columns.len() != types.len() {
        return Err(MaskError::WrongCount);
    }
    let named = named_columns(alloc, filter, columns.len())?;
    let mut table = Vec::with_capacity(alloc, columns.len())?;
    for place in 0..columns.len() {
        let rows = read_if_named(
            alloc,
            is_set(&named, place),
            place,
            columns[place],
            &types[place],
            count,
        )?;
        table.push_reserved(rows);
    }
    Ok(table)
}

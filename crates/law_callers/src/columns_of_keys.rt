//! Columns that are read back from the keys of their rows.

ghost use Rattle.std.specs.Prelude.{◌≡◌, ℕ, ◌+◌, ◌<◌, List, [], IfErr, IfOk, None, OnOk, Some, length, map, slice_get};
ghost use Rattle.std.specs.Prelude.{slice_index_or};
ghost use Rattle.arrow_columns.specs.Columns.{kind_in, rows_in};
ghost use Rattle.arrow_columns.specs.Kinds.{kind_at};
ghost use Rattle.arrow_columns.specs.Spans.{AreBytes};
ghost use Rattle.arrow_columns.specs.declared.columns.Column.{Column};
ghost use Rattle.arrow_columns.specs.declared.kinds.Kind.{Kind};
ghost use Rattle.column_cells.specs.Contents.{contents_of_column};
ghost use Rattle.vortex_value.specs.Values.Content.{Content};
ghost use Rattle.column_items.specs.Codes.{kind_of_code};
ghost use Rattle.column_keys.specs.Keys.{AreRowKeys};
ghost use Rattle.column_keys.specs.Tables.{HaveRows, IsTableError, contents_in, options_in, options_of, table_of};
ghost use Rattle.column_keys.specs.Laws.{AreColumnsOf, IsTable};
ghost use Rattle.column_keys.specs.Read.{IsWritten};
ghost use Rattle.column_keys.specs.Types.{types_of_kinds};
ghost use Rattle.law_callers.specs.Ways.{IfNoKeys};
ghost use Rattle.column_keys.specs.declared.buffers.ColumnBuffers.{ColumnBuffers as AnyBuffers};

use arrow_columns::{Column as ArrowColumn, row_count_of};
use column_items::KindCode;
use column_keys::laws::{columns_come_back, tables_come_back};
use column_keys::{
    ColumnBuffers, KeyColumn, KeysError, TableError, columns_of_keys, columns_of_typed_keys,
    read_columns, row_keys_length, write_row_keys,
};
use std::alloc::{AllocError, Global};

/// Reads columns back as `columns_of_keys` does. If the keys are those of a table's rows, then the
/// buffers begin with the columns of the table, cell for cell.
pub fn read_back(
    alloc: Global,
    kinds: &[u8],
    options: &[u8],
    offsets: &[u64],
    bytes: &[u8],
    columns: &mut [ColumnBuffers],
) -> Result<(), KeysError>
    ensures { OnOk result ((table : List (List Content)) (rows which : ℕ) (d : AnyBuffers)
        → AreColumnsOf (types_of_kinds (map kind_at kinds.now)) rows table
        → AreRowKeys (map options_in options.now) table rows offsets.now bytes.now
        → length offsets.now ≡ rows + 1 → which < length kinds.now
        → (kind : Kind) × (slice_index_or (map kind_at kinds.now) which None ≡ Some kind)
        × IsWritten kind (slice_index_or table which [])
        (slice_index_or columns.old which d) (slice_index_or columns.new which d)) }
{
    columns_come_back();
    columns_of_keys(alloc, kinds, options, offsets, bytes, columns)
}

/// Reads columns in Arrow's layout back as `columns_of_typed_keys` does. If the keys are those of their
/// rows, then the buffers begin with the columns, cell for cell.
pub fn read_table_back(
    alloc: Global,
    kinds: &[KindCode],
    options: &[u8],
    offsets: &[u64],
    bytes: &[u8],
    columns: &mut [ColumnBuffers],
) -> Result<(), KeysError>
    ensures { OnOk result ((table : List Column) (which : ℕ) (d : AnyBuffers) (e : Column)
        → map kind_of_code kinds.now ≡ map kind_in table → IsTable table options.now
        → AreRowKeys (map options_in options.now) (contents_in table) (rows_in table) offsets.now bytes.now
        → length offsets.now ≡ rows_in table + 1 → which < length table
        → (kind : Kind) × (slice_index_or (map kind_of_code kinds.now) which None ≡ Some kind)
        × IsWritten kind (contents_of_column (slice_index_or table which e))
        (slice_index_or columns.old which d) (slice_index_or columns.new which d)) }
{
    tables_come_back();
    columns_of_typed_keys(alloc, kinds, options, offsets, bytes, columns)
}

/// Why columns do not come back.
#[derive(Debug, Drop)]
pub enum WayError {
    /// Their rows have no keys.
    NoKeys(TableError),
    /// The keys are not read into the buffers, or there is no memory for them.
    NotRead(KeysError),
}

/// Columns in Arrow's layout, written as the keys of their rows, and read back of these. The buffers begin with
/// the columns, cell for cell. `NoKeys` exactly with what `read_columns` refuses.
pub fn there_and_back(
    alloc: Global,
    columns: &[ArrowColumn<'_>],
    kinds: &[KindCode],
    options: &[u8],
    buffers: &mut [ColumnBuffers<'_>],
) -> Result<(), WayError>
    ensures back { OnOk result ((which : ℕ) (d : AnyBuffers) (e : Column)
        → map kind_of_code kinds.now ≡ map kind_in columns.now
        → ((k : ℕ) (column : Column) → slice_get columns.now k ≡ Some column → AreBytes column.values.now)
        → which < length columns.now
        → (kind : Kind) × (slice_index_or (map kind_of_code kinds.now) which None ≡ Some kind)
        × IsWritten kind (contents_of_column (slice_index_or columns.now which e))
        (slice_index_or buffers.old which d) (slice_index_or buffers.new which d)) }
    ensures refused { IfErr result (IfNoKeys (IsTableError columns.now options.now)) }
{
    let table = match read_columns(alloc, columns, options) {
        Ok(table) => table,
        Err(fault) => return Err(WayError::NoKeys(fault)),
    };
    match keys_of(alloc, &table, row_count_of(columns)) {
        Ok((offsets, bytes)) => {
            match read_table_back(alloc, kinds, options, &offsets, &bytes, buffers) {
                Ok(()) => Ok(()),
                Err(fault) => Err(WayError::NotRead(fault)),
            }
        }
        Err(AllocError) => Err(WayError::NotRead(KeysError::OutOfMemory)),
    }
}

/// The keys of so many rows, and where each begins and ends.
fn keys_of(
    alloc: Global,
    table: &[KeyColumn<'_>],
    rows: usize,
) -> Result<(Vec<u64>, Vec<u8>), AllocError>
    requires { HaveRows table.now rows }
    ensures { IfOk result (λ keys. AreRowKeys (options_of table.now) (table_of table.now) rows keys.0.items keys.1.items
        × (length keys.0.items ≡ rows + 1)) }
{
    let length = row_keys_length(table, rows);
    if rows == usize::MAX || length == usize::MAX {
        return Err(AllocError);
    }
    let mut offsets = vec![in alloc; 0u64; rows + 1]?;
    let mut bytes = vec![in alloc; 0u8; length]?;
    write_row_keys(table, rows, &mut offsets, &mut bytes);
    Ok((offsets, bytes))
}

//! The columns that keys of rows give.

ghost use Rattle.std.specs.Prelude.{◌≡◌, ◌≢◌, IfErr, OnOk, length, map};
ghost use Rattle.column_keys.specs.Words.{AreColumnsOfKeys, AreCountsOfKeys, BufferTooSmall, HaveTypes, IsRefusal};
ghost use Rattle.column_keys.specs.Words.{kind_at, kind_of_code};

use crate::buffers::ColumnBuffers;
use crate::counting::count_columns;
use crate::errors::KeysError;
use crate::keys::{RowKeys, read_rows};
use crate::stored::expect_values;
use crate::types::{kinds_of_codes, read_types};
use crate::writing::write_columns;
use arrow_columns::Kind;
use column_items::KindCode;
use std::alloc::Global;

/// Writes the columns of the rows that keys were made of, in Arrow's layout: a bit for each row, 0
/// for a null, and the values, 0, false or an empty string for a null. Only a column of strings or
/// bytes has offsets, of 64 bits each. Says of each column how many bytes its values have. Each key
/// is read once.
///
/// The columns have these kinds, by their codes, each with its byte of options. The key of row k
/// goes from offset k to the next. The first of these that comes is told:
///
/// - `WrongLength` exactly if there are not as many options as kinds, or not as many buffers.
/// - `BadOptions` for the first byte above 3, and then `UnknownKind` for the first code of no kind.
/// - `BadOffsets` or `BadBytes` for the first key that is none of the kinds.
/// - `NotAValue` for the first column in which a row has no value of its logical type, and the first
///   such row.
/// - `BufferTooSmall` if a buffer is too short: the counts say what is wanted, and nothing else is
///   written.
///
/// `OutOfMemory` may come in place of the last four of these. Memory is asked for the types, and for the
/// values of all rows.
pub fn columns_of_keys(
    alloc: Global,
    kinds: &[u8],
    options: &[u8],
    offsets: &[u64],
    bytes: &[u8],
    columns: &mut [ColumnBuffers],
) -> Result<(), KeysError>
    ensures columns { OnOk result (AreColumnsOfKeys (map kind_at kinds.now) options.now bytes.now
        offsets.now columns.old columns.new) }
    ensures refused { IfErr result
        (IsRefusal (map kind_at kinds.now) options.now bytes.now offsets.now columns.old) }
    ensures counted { IfErr result (λ e. e ≡ BufferTooSmall
        → AreCountsOfKeys (map kind_at kinds.now) options.now bytes.now offsets.now columns.old columns.new) }
    ensures kept { IfErr result (λ e. e ≢ BufferTooSmall → columns.new ≡ columns.old) }
{
    let found = kinds_of_codes(alloc, kinds, options, columns.len())?;
    columns_of_kinds(alloc, found.as_slice(), options, offsets, bytes, columns)
}

/// The same of any kinds, decimals too.
pub fn columns_of_typed_keys(
    alloc: Global,
    kinds: &[KindCode],
    options: &[u8],
    offsets: &[u64],
    bytes: &[u8],
    columns: &mut [ColumnBuffers],
) -> Result<(), KeysError>
    ensures columns { OnOk result (AreColumnsOfKeys (map kind_of_code kinds.now) options.now bytes.now
        offsets.now columns.old columns.new) }
    ensures refused { IfErr result
        (IsRefusal (map kind_of_code kinds.now) options.now bytes.now offsets.now columns.old) }
    ensures counted { IfErr result (λ e. e ≡ BufferTooSmall
        → AreCountsOfKeys (map kind_of_code kinds.now) options.now bytes.now offsets.now columns.old
        columns.new) }
    ensures kept { IfErr result (λ e. e ≢ BufferTooSmall → columns.new ≡ columns.old) }
{
    let found = kinds_of_codes(alloc, kinds, options, columns.len())?;
    columns_of_kinds(alloc, found.as_slice(), options, offsets, bytes, columns)
}

/// The same of kinds that were found, and of options that were tested.
fn columns_of_kinds(
    alloc: Global,
    kinds: &[Option<Kind>],
    options: &[u8],
    offsets: &[u64],
    bytes: &[u8],
    columns: &mut [ColumnBuffers],
) -> Result<(), KeysError>
    requires lengths { length columns.old ≡ length kinds.now }
    requires types { HaveTypes kinds.now options.now }
    ensures columns { OnOk result (AreColumnsOfKeys kinds.now options.now bytes.now offsets.now
        columns.old columns.new) }
    ensures refused { IfErr result (IsRefusal kinds.now options.now bytes.now offsets.now columns.old) }
    ensures counted { IfErr result (λ e. e ≡ BufferTooSmall
        → AreCountsOfKeys kinds.now options.now bytes.now offsets.now columns.old columns.new) }
    ensures kept { IfErr result (λ e. e ≢ BufferTooSmall → columns.new ≡ columns.old) }
{
    let types = read_types(alloc, kinds, options)?;
    let keys = RowKeys {
        dtypes: &types.dtypes,
        options: &types.options,
        offsets,
        bytes,
    };
    let rows = read_rows(alloc, &keys)?;
    let rows = rows.as_slice();
    expect_values(kinds, rows)?;
    if !count_columns(kinds, rows, columns) {
        return Err(KeysError::BufferTooSmall);
    }
    write_columns(kinds, rows, columns);
    Ok(())
}

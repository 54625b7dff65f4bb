//! Keys of rows, and the rows that they decode to.

ghost use Rattle.std.specs.Prelude.{◌≡◌, ◌+◌, ◌<◌, ◌≤◌, IfErr, IfOk, MatchResult, length, map, slice_index};
ghost use Rattle.column_keys.specs.Words.{AreRowsOf, AreTyped, BadOffsets, IsPlaced, IsRowOf, IsRowReadError, Refuses};
ghost use Rattle.column_keys.specs.Words.{key_at, key_count, scalar_raw};

use crate::errors::KeysError;
use std::alloc::Global;
use vortex_dtype::DType;
use vortex_row::{RowError, SortOptions, decode_row_key};
use vortex_value::Scalar;

/// Keys of rows, one after the other.
#[derive(Clone, Copy)]
pub(crate) struct RowKeys<'a> {
    /// The types of the columns.
    pub(crate) dtypes: &'a [DType],
    /// How each column is sorted.
    pub(crate) options: &'a [SortOptions],
    /// Where each key begins, and where the last one ends.
    pub(crate) offsets: &'a [u64],
    /// The keys.
    pub(crate) bytes: &'a [u8],
}

/// How many keys there are: one less than offsets, and none if there is no offset.
pub(crate) fn key_count(offsets: &[u64]) -> usize
    ensures { result ≡ key_count offsets.now }
{
    offsets.len().saturating_sub(1)
}

/// The bytes of the key of a row.
fn key_at<'a>(keys: &RowKeys<'a>, row: usize) -> Result<&'a [u8], KeysError>
    requires { row < key_count keys.now.offsets.now }
    ensures { MatchResult result
        (λ key. IsPlaced keys.now.bytes.now keys.now.offsets.now row
        × (key.now ≡ key_at keys.now.bytes.now keys.now.offsets.now row)
        × (slice_index keys.now.offsets.now row + length key.now ≤ length keys.now.bytes.now))
        (λ e. (e ≡ BadOffsets row) × ¬ (IsPlaced keys.now.bytes.now keys.now.offsets.now row)) }
{
    let start = keys.offsets[row];
    let end = keys.offsets[row + 1];
    if start > end || end > keys.bytes.len() as u64 {
        return Err(KeysError::BadOffsets { row });
    }
    Ok(&keys.bytes[start as usize..end as usize])
}

/// The cells of a row, read from its key.
fn read_row(alloc: Global, keys: &RowKeys, row: usize) -> Result<Vec<Scalar>, KeysError>
    requires typed { AreTyped keys.now }
    requires row { row < key_count keys.now.offsets.now }
    ensures cells { IfOk result (λ cells. IsRowOf keys.now row (map scalar_raw cells.items)) }
    ensures fault { IfErr result (IsRowReadError keys.now row) }
{
    let key = key_at(keys, row)?;
    let start = keys.offsets[row] as usize;
    let (cells, taken) = match decode_row_key(alloc, keys.dtypes, keys.options, key) {
        Ok(decoded) => decoded,
        Err(RowError::BadKey { offset: bad }) => {
            return Err(KeysError::BadBytes {
                offset: start + bad,
            });
        }
        Err(_) => return Err(KeysError::OutOfMemory),
    };
    if taken < key.len() {
        drop(cells);
        return Err(KeysError::BadBytes {
            offset: start + taken,
        });
    }
    Ok(cells)
}

/// The cells of all rows, each key read once.
///
/// The first key with an error gives it: `BadOffsets` if its offsets go down or past the end of the
/// bytes, and `BadBytes` if it is no key of a row of the types. `OutOfMemory` may come in place of
/// these.
pub(crate) fn read_rows(alloc: Global, keys: &RowKeys) -> Result<Vec<Vec<Scalar>>, KeysError>
    requires { AreTyped keys.now }
    ensures rows { IfOk result (λ rows. AreRowsOf keys.now rows.items) }
    ensures fault { IfErr result (Refuses keys.now) }
{
    let mut rows = Vec::new(alloc);
    for row in 0..key_count(keys.offsets) {
        let cells = read_row(alloc, keys, row)?;
        rows.push(cells)?;
    }
    Ok(rows)
}

//! How long the keys of a column are.

ghost use Rattle.std.specs.Prelude.{◌≡◌, ◌≤◌, length};
ghost use Rattle.column_keys.specs.Words.{HasTexts, capped, column_length, contents_of_rows};

use crate::values::value_at;
use arrow_columns::Rows;
use vortex_row::plain_key_length;

/// How many bytes the keys of the first cells of a column have together. It is the greatest `usize`
/// if they have more. The loop is there for each kind of column, and does not ask for the kind. Nulls,
/// of which there may be more than memory holds, are not counted one by one: each has one byte.
pub(crate) fn column_keys_length(rows: &Rows, count: usize) -> usize
    requires rows { count ≤ length (contents_of_rows rows.now) }
    requires texts { HasTexts rows.now }
    ensures { result ≡ capped (column_length (contents_of_rows rows.now) count) }
{
    match rows {
        Rows::Integers(rows) => cells_length(&Rows::Integers(*rows), count),
        Rows::Booleans(rows) => cells_length(&Rows::Booleans(*rows), count),
        Rows::Strings(rows) => cells_length(&Rows::Strings(*rows), count),
        Rows::Bytes(rows) => cells_length(&Rows::Bytes(*rows), count),
        Rows::Nulls(_) => count,
        Rows::Values(rows) => cells_length(&Rows::Values(*rows), count),
    }
}

/// The same, in one loop for all kinds.
#[inline(always)]
fn cells_length(rows: &Rows, count: usize) -> usize
    requires rows { count ≤ length (contents_of_rows rows.now) }
    requires texts { HasTexts rows.now }
    ensures { result ≡ capped (column_length (contents_of_rows rows.now) count) }
{
    let mut total = 0usize;
    for row in 0..count {
        total = total.saturating_add(plain_key_length(value_at(rows, row).plain()));
    }
    total
}

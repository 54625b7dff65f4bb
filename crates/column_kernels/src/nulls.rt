//! Which rows are null.

ghost use Rattle.std.specs.Prelude.{◌≡◌, ◌+◌, ◌*◌, ◌≤◌, length};
ghost use Rattle.column_kernels.specs.Words.{AreTruths, cell_of_row, contents_of_rows, null_truth, option_of};

use crate::validity::test_validity;
use arrow_columns::Rows;
use truth_bitmaps::{TruthWord, fill_words};

/// Writes which of so many rows of a column are null, from a row on.
pub fn test_nulls(rows: &Rows, from: usize, count: usize, words: &mut [TruthWord])
    requires range { from + count ≤ length (contents_of_rows rows.now) }
    requires words { count ≤ 64 * length words.old }
    ensures truth { AreTruths (λ row. option_of (null_truth (cell_of_row rows.now (from + row)))) count words.new }
    ensures size { length words.new ≡ length words.old }
{
    match rows {
        Rows::Integers(rows) => test_validity(rows.column, from, count, words),
        Rows::Booleans(rows) => test_validity(rows.column, from, count, words),
        Rows::Strings(rows) => test_validity(rows.column, from, count, words),
        Rows::Bytes(rows) => test_validity(rows.column, from, count, words),
        Rows::Nulls(_) => fill_words(words, Some(true)),
        Rows::Values(rows) => test_validity(rows.column, from, count, words),
    }
}

//! Rows that are null by a bitmap of validity.

ghost use Rattle.std.specs.Prelude.{◌≡◌, ◌+◌, ◌*◌, ◌≤◌, Some, length};
ghost use Rattle.column_kernels.specs.Words.{AreTruths, HasRows, is_valid_row, not, truth_at, under_null};

use arrow_columns::Column;
use truth_bitmaps::{TruthWord, fill_words, mark_nulls, write_bits};

/// Writes which of so many rows of a column are null, from a row on: none, if there is no bitmap.
pub(crate) fn test_validity(column: Column, from: usize, count: usize, words: &mut [TruthWord])
    requires rows { HasRows column }
    requires range { from + count ≤ column.length }
    requires words { count ≤ 64 * length words.old }
    ensures truth { AreTruths (λ row. Some (not (is_valid_row column.entry (from + row)))) count words.new }
    ensures size { length words.new ≡ length words.old }
{
    if column.validity.is_empty() {
        fill_words(words, Some(false));
    } else {
        write_bits(
            words,
            column.validity,
            column.offset + from,
            count,
            false,
            true,
        );
    }
}

/// Unknown for each of so many rows that is null, from a row on. The others stay.
pub(crate) fn mark_null_rows(column: Column, from: usize, count: usize, words: &mut [TruthWord])
    requires rows { HasRows column }
    requires range { from + count ≤ column.length }
    requires words { count ≤ 64 * length words.old }
    ensures truth { AreTruths (λ row. under_null (is_valid_row column.entry (from + row)) (truth_at words.old row))
        count words.new }
    ensures size { length words.new ≡ length words.old }
{
    if !column.validity.is_empty() {
        mark_nulls(words, column.validity, column.offset + from, count);
    }
}

//! A column whose strings are to match a pattern of `like`.

ghost use Rattle.std.specs.Prelude.{◌≡◌, ◌+◌, ◌*◌, ◌<◌, ◌≤◌, length};
ghost use Rattle.column_kernels.specs.Words.{AreTruths, HasTexts, Strings, are_like, byte_cell, cell_of_row};
ghost use Rattle.column_kernels.specs.Words.{contents_of_rows, if_value, option_of, pattern_truth, tested};

use crate::validity::mark_null_rows;
use arrow_columns::{ByteRows, Rows};
use like_patterns::{Case, Pattern};
use truth_bitmaps::{TruthWord, fill_words, write_rows};

/// Writes which of so many rows of a column match a pattern, from a row on. It is Unknown of a row that is
/// null, and of each row of a column that has no strings.
pub fn match_rows(
    rows: &Rows,
    from: usize,
    count: usize,
    pattern: &Pattern,
    case: Case,
    words: &mut [TruthWord],
)
    requires range { from + count ≤ length (contents_of_rows rows.now) }
    requires texts { HasTexts rows.now }
    requires words { count ≤ 64 * length words.old }
    ensures truth { AreTruths (λ row. option_of (pattern_truth case pattern.now
        (cell_of_row rows.now (from + row)))) count words.new }
    ensures size { length words.new ≡ length words.old }
{
    match rows {
        Rows::Strings(rows) => match_strings(rows, from, count, pattern, case, words),
        Rows::Bytes(_) => fill_words(words, None),
        Rows::Values(_) => fill_words(words, None),
        Rows::Integers(_) => fill_words(words, None),
        Rows::Booleans(_) => fill_words(words, None),
        Rows::Nulls(_) => fill_words(words, None),
    }
}

/// Writes which strings match.
fn match_strings(
    rows: &ByteRows,
    from: usize,
    count: usize,
    pattern: &Pattern,
    case: Case,
    words: &mut [TruthWord],
)
    requires range { from + count ≤ rows.now.column.length }
    requires texts { HasTexts (Strings rows.now) }
    requires words { count ≤ 64 * length words.old }
    ensures truth { AreTruths (λ row. tested (are_like case pattern.now)
        (byte_cell rows.now.width rows.now.column (from + row))) count words.new }
    ensures size { length words.new ≡ length words.old }
{
    write_rows(
        words,
        count,
        |row: usize| -> bool
            requires row { from + row < rows.now.column.length }
            requires texts { HasTexts (Strings rows.now) }
            ensures { result ≡ if_value (are_like case pattern.entry.now)
                (byte_cell rows.entry.now.width rows.entry.now.column (from + row)) }
        {
            match rows.bytes_at(from + row) {
                Some(bytes) => pattern.is_match_of_bytes(case, bytes),
                None => false,
            }
        },
    );
    mark_null_rows(rows.column, from, count, words);
}

//! A column whose strings, or bytes, are to begin with a prefix.

ghost use Rattle.std.specs.Prelude.{◌≡◌, ◌+◌, ◌*◌, ◌≤◌, length, true};
ghost use Rattle.column_kernels.specs.Words.{AreTruths, Bytes, Strings, Values, begins};
ghost use Rattle.column_kernels.specs.Words.{begins_truth, cell_of};
ghost use Rattle.column_kernels.specs.Words.{cell_of_row, content_of_row, contents_of_rows, option_of};
ghost use Rattle.column_kernels.specs.Words.{prefix_truth, scalar_content, stores_bytes};

use crate::bytes::test_prefix;
use crate::comparing::stores_bytes;
use crate::items::test_prefix_of_decimals;
use crate::literals::{bytes_in, text_in};
use arrow_columns::{ByteRows, LogicalRows, Rows};
use column_cells::is_type_of_rows;
use truth_bitmaps::{TruthWord, fill_words};
use vortex_value::Scalar;

/// Writes which of so many rows of a column, from a row on, begin with a prefix. It is Unknown of a row that is
/// null, and of each row if the prefix is null, or of another type than the column, not only by nullability,
/// or if neither strings nor bytes are stored.
pub fn test_prefix_of_rows(
    rows: &Rows,
    from: usize,
    count: usize,
    prefix: &Scalar,
    words: &mut [TruthWord],
)
    requires range { from + count ≤ length (contents_of_rows rows.now) }
    requires words { count ≤ 64 * length words.old }
    ensures truth { AreTruths (λ row. option_of (prefix_truth
        (cell_of_row rows.now (from + row)) (cell_of prefix.now))) count words.new }
    ensures size { length words.new ≡ length words.old }
{
    if is_type_of_rows(rows, prefix.dtype()) {
        test_contents(rows, from, count, prefix, words);
    } else {
        fill_words(words, None);
    }
}

/// Tests so many rows of a column for what a prefix of its type has in it.
fn test_contents(rows: &Rows, from: usize, count: usize, prefix: &Scalar, words: &mut [TruthWord])
    requires range { from + count ≤ length (contents_of_rows rows.now) }
    requires words { count ≤ 64 * length words.old }
    ensures truth { AreTruths (λ row. option_of (begins_truth (begins
        (content_of_row rows.now (from + row)) (scalar_content prefix.now)))) count words.new }
    ensures size { length words.new ≡ length words.old }
{
    match rows {
        Rows::Strings(rows) => test_strings(rows, from, count, prefix, words),
        Rows::Bytes(rows) => test_byte_rows(rows, from, count, prefix, words),
        Rows::Values(rows) => test_values(rows, from, count, prefix, words),
        Rows::Integers(_) => fill_words(words, None),
        Rows::Booleans(_) => fill_words(words, None),
        Rows::Nulls(_) => fill_words(words, None),
    }
}

/// Tests strings for the string that a prefix has in it.
fn test_strings(
    rows: &ByteRows,
    from: usize,
    count: usize,
    prefix: &Scalar,
    words: &mut [TruthWord],
)
    requires range { from + count ≤ rows.now.column.length }
    requires words { count ≤ 64 * length words.old }
    ensures truth { AreTruths (λ row. option_of (begins_truth (begins
        (content_of_row (Strings rows.now) (from + row)) (scalar_content prefix.now)))) count words.new }
    ensures size { length words.new ≡ length words.old }
{
    match text_in(prefix) {
        Some(text) => test_prefix(rows, from, count, text, words),
        None => fill_words(words, None),
    }
}

/// Tests bytes for the bytes that a prefix has in it.
fn test_byte_rows(
    rows: &ByteRows,
    from: usize,
    count: usize,
    prefix: &Scalar,
    words: &mut [TruthWord],
)
    requires range { from + count ≤ rows.now.column.length }
    requires words { count ≤ 64 * length words.old }
    ensures truth { AreTruths (λ row. option_of (begins_truth (begins
        (content_of_row (Bytes rows.now) (from + row)) (scalar_content prefix.now)))) count words.new }
    ensures size { length words.new ≡ length words.old }
{
    match bytes_in(prefix) {
        Some(bytes) => test_prefix(rows, from, count, bytes, words),
        None => fill_words(words, None),
    }
}

/// Tests what stores values of a logical type, if it is bytes, for the bytes that a prefix has in it.
fn test_values(
    rows: &LogicalRows,
    from: usize,
    count: usize,
    prefix: &Scalar,
    words: &mut [TruthWord],
)
    requires range { from + count ≤ rows.now.column.length }
    requires words { count ≤ 64 * length words.old }
    ensures truth { AreTruths (λ row. option_of (begins_truth (begins
        (content_of_row (Values rows.now) (from + row)) (scalar_content prefix.now)))) count words.new }
    ensures size { length words.new ≡ length words.old }
{
    if stores_bytes(rows.format) {
        test_stored_bytes(rows, from, count, prefix, words);
    } else {
        fill_words(words, None);
    }
}

/// The same of values that bytes store.
fn test_stored_bytes(
    rows: &LogicalRows,
    from: usize,
    count: usize,
    prefix: &Scalar,
    words: &mut [TruthWord],
)
    requires stored { stores_bytes rows.now.format ≡ true }
    requires range { from + count ≤ rows.now.column.length }
    requires words { count ≤ 64 * length words.old }
    ensures truth { AreTruths (λ row. option_of (begins_truth (begins
        (content_of_row (Values rows.now) (from + row)) (scalar_content prefix.now)))) count words.new }
    ensures size { length words.new ≡ length words.old }
{
    match bytes_in(prefix) {
        Some(bytes) => test_prefix_of_decimals(&rows.numbers(), from, count, bytes, words),
        None => fill_words(words, None),
    }
}

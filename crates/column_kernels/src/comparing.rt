//! A column that is compared with a literal.

ghost use Rattle.std.specs.Prelude.{◌≡◌, ◌+◌, ◌*◌, ◌≤◌, false, length, true};
ghost use Rattle.column_kernels.specs.Words.{AreTruths, Booleans, Bytes, Integers, Strings};
ghost use Rattle.column_kernels.specs.Words.{Values, cell_of, cell_of_row, compare_truth, content_compared};
ghost use Rattle.column_kernels.specs.Words.{content_of_row, contents_of_rows, option_of, scalar_content, stores_bytes};

use crate::booleans::compare_booleans;
use crate::bytes::compare_bytes;
use crate::items::{compare_decimals, compare_numbers};
use crate::literals::{bool_in, bytes_in, number_in, text_in};
use arrow_columns::{
    BooleanRows, ByteRows, Format, IntegerRows, ItemKind, ItemRows, LogicalRows, Rows,
};
use column_cells::is_type_of_rows;
use truth_bitmaps::{TruthWord, fill_words};
use vortex_filter::CompareOperator;
use vortex_value::Scalar;

/// Compares so many rows of a column, from a row on, with a literal. It is Unknown of a row that is null,
/// and of each row if the literal is null, or of another type than the column, not only by nullability.
pub fn compare_rows(
    rows: &Rows,
    from: usize,
    count: usize,
    operator: CompareOperator,
    literal: &Scalar,
    words: &mut [TruthWord],
)
    requires range { from + count ≤ length (contents_of_rows rows.now) }
    requires words { count ≤ 64 * length words.old }
    ensures truth { AreTruths (λ row. option_of (compare_truth operator
        (cell_of_row rows.now (from + row)) (cell_of literal.now))) count words.new }
    ensures size { length words.new ≡ length words.old }
{
    if is_type_of_rows(rows, literal.dtype()) {
        compare_contents(rows, from, count, operator, literal, words);
    } else {
        fill_words(words, None);
    }
}

/// Compares so many rows of a column with what a literal of its type has in it.
fn compare_contents(
    rows: &Rows,
    from: usize,
    count: usize,
    operator: CompareOperator,
    literal: &Scalar,
    words: &mut [TruthWord],
)
    requires range { from + count ≤ length (contents_of_rows rows.now) }
    requires words { count ≤ 64 * length words.old }
    ensures truth { AreTruths (λ row. option_of (content_compared operator
        (content_of_row rows.now (from + row)) (scalar_content literal.now))) count words.new }
    ensures size { length words.new ≡ length words.old }
{
    match rows {
        Rows::Integers(rows) => {
            compare_integer_rows(rows, from, count, operator, literal, words);
        }
        Rows::Booleans(rows) => {
            compare_boolean_rows(rows, from, count, operator, literal, words);
        }
        Rows::Strings(rows) => compare_strings(rows, from, count, operator, literal, words),
        Rows::Bytes(rows) => compare_byte_rows(rows, from, count, operator, literal, words),
        Rows::Nulls(_) => fill_words(words, None),
        Rows::Values(rows) => compare_values(rows, from, count, operator, literal, words),
    }
}

/// Compares integers with what a literal has in it.
fn compare_integer_rows(
    rows: &IntegerRows,
    from: usize,
    count: usize,
    operator: CompareOperator,
    literal: &Scalar,
    words: &mut [TruthWord],
)
    requires range { from + count ≤ rows.now.column.length }
    requires words { count ≤ 64 * length words.old }
    ensures truth { AreTruths (λ row. option_of (content_compared operator
        (content_of_row (Integers rows.now) (from + row)) (scalar_content literal.now))) count words.new }
    ensures size { length words.new ≡ length words.old }
{
    let numbers = ItemRows {
        kind: ItemKind::Integer(rows.kind),
        column: rows.column,
    };
    match number_in(literal) {
        Some(number) => compare_numbers(&numbers, from, count, operator, number, words),
        None => fill_words(words, None),
    }
}

/// Compares booleans with what a literal has in it.
fn compare_boolean_rows(
    rows: &BooleanRows,
    from: usize,
    count: usize,
    operator: CompareOperator,
    literal: &Scalar,
    words: &mut [TruthWord],
)
    requires range { from + count ≤ rows.now.column.length }
    requires words { count ≤ 64 * length words.old }
    ensures truth { AreTruths (λ row. option_of (content_compared operator
        (content_of_row (Booleans rows.now) (from + row)) (scalar_content literal.now))) count words.new }
    ensures size { length words.new ≡ length words.old }
{
    match bool_in(literal) {
        Some(value) => compare_booleans(rows, from, count, operator, value, words),
        None => fill_words(words, None),
    }
}

/// Compares strings with what a literal has in it.
fn compare_strings(
    rows: &ByteRows,
    from: usize,
    count: usize,
    operator: CompareOperator,
    literal: &Scalar,
    words: &mut [TruthWord],
)
    requires range { from + count ≤ rows.now.column.length }
    requires words { count ≤ 64 * length words.old }
    ensures truth { AreTruths (λ row. option_of (content_compared operator
        (content_of_row (Strings rows.now) (from + row)) (scalar_content literal.now))) count words.new }
    ensures size { length words.new ≡ length words.old }
{
    match text_in(literal) {
        Some(text) => compare_bytes(rows, from, count, operator, text, words),
        None => fill_words(words, None),
    }
}

/// Compares bytes with what a literal has in it.
fn compare_byte_rows(
    rows: &ByteRows,
    from: usize,
    count: usize,
    operator: CompareOperator,
    literal: &Scalar,
    words: &mut [TruthWord],
)
    requires range { from + count ≤ rows.now.column.length }
    requires words { count ≤ 64 * length words.old }
    ensures truth { AreTruths (λ row. option_of (content_compared operator
        (content_of_row (Bytes rows.now) (from + row)) (scalar_content literal.now))) count words.new }
    ensures size { length words.new ≡ length words.old }
{
    match bytes_in(literal) {
        Some(bytes) => compare_bytes(rows, from, count, operator, bytes, words),
        None => fill_words(words, None),
    }
}

/// Compares values of a logical type, by what stores them, with what a literal has in it.
fn compare_values(
    rows: &LogicalRows,
    from: usize,
    count: usize,
    operator: CompareOperator,
    literal: &Scalar,
    words: &mut [TruthWord],
)
    requires range { from + count ≤ rows.now.column.length }
    requires words { count ≤ 64 * length words.old }
    ensures truth { AreTruths (λ row. option_of (content_compared operator
        (content_of_row (Values rows.now) (from + row)) (scalar_content literal.now))) count words.new }
    ensures size { length words.new ≡ length words.old }
{
    if stores_bytes(rows.format) {
        compare_stored_bytes(rows, from, count, operator, literal, words);
    } else {
        compare_stored_numbers(rows, from, count, operator, literal, words);
    }
}

/// The same of values that bytes store.
fn compare_stored_bytes(
    rows: &LogicalRows,
    from: usize,
    count: usize,
    operator: CompareOperator,
    literal: &Scalar,
    words: &mut [TruthWord],
)
    requires stored { stores_bytes rows.now.format ≡ true }
    requires range { from + count ≤ rows.now.column.length }
    requires words { count ≤ 64 * length words.old }
    ensures truth { AreTruths (λ row. option_of (content_compared operator
        (content_of_row (Values rows.now) (from + row)) (scalar_content literal.now))) count words.new }
    ensures size { length words.new ≡ length words.old }
{
    match bytes_in(literal) {
        Some(bytes) => {
            compare_decimals(&rows.numbers(), from, count, operator, bytes, words);
        }
        None => fill_words(words, None),
    }
}

/// The same of values that are stored as numbers.
fn compare_stored_numbers(
    rows: &LogicalRows,
    from: usize,
    count: usize,
    operator: CompareOperator,
    literal: &Scalar,
    words: &mut [TruthWord],
)
    requires stored { stores_bytes rows.now.format ≡ false }
    requires range { from + count ≤ rows.now.column.length }
    requires words { count ≤ 64 * length words.old }
    ensures truth { AreTruths (λ row. option_of (content_compared operator
        (content_of_row (Values rows.now) (from + row)) (scalar_content literal.now))) count words.new }
    ensures size { length words.new ≡ length words.old }
{
    match number_in(literal) {
        Some(number) => {
            compare_numbers(&rows.numbers(), from, count, operator, number, words);
        }
        None => fill_words(words, None),
    }
}

/// Whether bytes store the numbers of a format, and not the numbers themselves.
pub(crate) fn stores_bytes(format: Format) -> bool
    ensures { result ≡ stores_bytes format }
{
    match format {
        Format::Decimal { precision, .. } => precision > 18,
        _ => false,
    }
}

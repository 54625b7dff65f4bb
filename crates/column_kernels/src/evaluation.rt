//! What a filter says of a block of rows.

ghost use Rattle.std.specs.Prelude.{◌≡◌, ◌+◌, ◌*◌, ◌^◌, ◌<◌, ◌≤◌, ℕ, length, map};
ghost use Rattle.column_kernels.specs.FilterWords.{AreTruths, HasTexts, HaveRowsTo, HaveTexts, cell_at, cell_of};
ghost use Rattle.column_kernels.specs.FilterWords.{cell_of_row, cells_of_row, compare_truth, contents_of_rows, formula};
ghost use Rattle.column_kernels.specs.FilterWords.{member_truth, option_of, range_truth, truth, truth_and};
ghost use Rattle.column_kernels.specs.FilterWords.{truth_at, truth_or};

use crate::beginning::test_prefix_of_rows;
use crate::comparing::compare_rows;
use crate::members::write_listed;
use crate::nulls::test_nulls;
use crate::patterns::match_rows;
use arrow_columns::Rows;
use truth_bitmaps::{
    TruthWord, and_words, are_all_false, are_all_true, fill_words, not_words, or_words,
};
use vortex_filter::{CompareOperator, Filter, Truth};
use vortex_value::Scalar;

/// The words of a block of rows.
pub(crate) const BLOCK_WORDS: usize = 32;

/// 64 rows of which a filter is False.
pub(crate) const NO_ROW: TruthWord = TruthWord {
    is_true: 0,
    is_unknown: 0,
};

/// Writes what a filter says of each of so many rows of columns, from a row on. A filter on the right of
/// `And` or `Or` is not asked where the left one decides each row. Each level of them that nests on the
/// right takes a block of words.
#[cycle(evaluate)]
#[tactic(auto, using(vortex_filter::proofs::Steps::shown))]
pub(crate) fn write_truths(
    filter: &Filter,
    columns: &[Rows],
    from: usize,
    count: usize,
    words: &mut [TruthWord],
)
    requires rows { HaveRowsTo (from + count) columns.now }
    requires texts { HaveTexts columns.now }
    requires end { from + count < 2 ^ 64 }
    requires words { count ≤ 64 * length words.old }
    requires block { length words.old ≤ BLOCK_WORDS }
    ensures truth { AreTruths (λ row. option_of (truth (formula filter.now)
        (cells_of_row columns.now (from + row)))) count words.new }
    ensures size { length words.new ≡ length words.old }
{
    match filter {
        Filter::Constant(truth) => fill_words(words, known(*truth)),
        Filter::Compare {
            column,
            operator,
            literal,
        } => {
            let rows = rows_at(columns, *column, from + count);
            compare_rows(&rows, from, count, *operator, literal, words);
        }
        Filter::IsNull { column } => {
            let rows = rows_at(columns, *column, from + count);
            test_nulls(&rows, from, count, words);
        }
        Filter::In { column, literals } => {
            let rows = rows_at(columns, *column, from + count);
            write_members(&rows, from, count, literals, words);
        }
        Filter::Between {
            column,
            lower,
            upper,
        } => {
            let rows = rows_at(columns, *column, from + count);
            write_range(&rows, from, count, lower, upper, words);
        }
        Filter::StartsWith { column, prefix } => {
            let rows = rows_at(columns, *column, from + count);
            test_prefix_of_rows(&rows, from, count, prefix, words);
        }
        Filter::Like {
            column,
            pattern,
            case,
        } => {
            let rows = rows_at(columns, *column, from + count);
            match_rows(&rows, from, count, pattern, *case, words);
        }
        Filter::And(left, right) => {
            write_truths(left, columns, from, count, words);
            and_truths(right, columns, from, count, words);
        }
        Filter::Or(left, right) => {
            write_truths(left, columns, from, count, words);
            or_truths(right, columns, from, count, words);
        }
        Filter::Not(filter) => {
            write_truths(filter, columns, from, count, words);
            not_words(words);
        }
    }
}

/// Joins what another filter says by `and` to the words. It is not asked where each is False.
#[cycle(evaluate)]
#[tactic(auto, using(vortex_filter::proofs::Steps::shown))]
fn and_truths(filter: &Filter, columns: &[Rows], from: usize, count: usize, words: &mut [TruthWord])
    requires rows { HaveRowsTo (from + count) columns.now }
    requires texts { HaveTexts columns.now }
    requires end { from + count < 2 ^ 64 }
    requires words { count ≤ 64 * length words.old }
    requires block { length words.old ≤ BLOCK_WORDS }
    ensures truth { AreTruths (λ row. truth_and (truth_at words.old row)
        (option_of (truth (formula filter.now) (cells_of_row columns.now (from + row))))) count words.new }
    ensures size { length words.new ≡ length words.old }
{
    if are_all_false(words) {
        return;
    }
    let mut block = [NO_ROW; BLOCK_WORDS];
    let others = &mut block[..words.len()];
    write_truths(filter, columns, from, count, others);
    and_words(words, others);
}

/// Joins what another filter says by `or` to the words. It is not asked where each is True.
#[cycle(evaluate)]
#[tactic(auto, using(vortex_filter::proofs::Steps::shown))]
fn or_truths(filter: &Filter, columns: &[Rows], from: usize, count: usize, words: &mut [TruthWord])
    requires rows { HaveRowsTo (from + count) columns.now }
    requires texts { HaveTexts columns.now }
    requires end { from + count < 2 ^ 64 }
    requires words { count ≤ 64 * length words.old }
    requires block { length words.old ≤ BLOCK_WORDS }
    ensures truth { AreTruths (λ row. truth_or (truth_at words.old row)
        (option_of (truth (formula filter.now) (cells_of_row columns.now (from + row))))) count words.new }
    ensures size { length words.new ≡ length words.old }
{
    if are_all_true(words) {
        return;
    }
    let mut block = [NO_ROW; BLOCK_WORDS];
    let others = &mut block[..words.len()];
    write_truths(filter, columns, from, count, others);
    or_words(words, others);
}

/// The column at a place. If there is none, so many nulls.
fn rows_at<'a>(columns: &[Rows<'a>], column: usize, count: usize) -> Rows<'a>
    requires rows { HaveRowsTo count columns.now }
    requires texts { HaveTexts columns.now }
    ensures cells { (row : ℕ) → cell_of_row result row ≡ cell_at (cells_of_row columns.now row) column }
    ensures rows { count ≤ length (contents_of_rows result) }
    ensures texts { HasTexts result }
{
    match columns.get(column) {
        Some(rows) => *rows,
        None => Rows::Nulls(count),
    }
}

/// A truth, as words have it.
fn known(truth: Truth) -> Option<bool>
    ensures { result ≡ option_of truth }
{
    match truth {
        Truth::False => Some(false),
        Truth::Unknown => None,
        Truth::True => Some(true),
    }
}

/// Writes whether each row is equal to one of the literals: of all at once, if that can be, or else of one after
/// the other. The others are not asked once each row is equal.
fn write_members(
    rows: &Rows,
    from: usize,
    count: usize,
    literals: &[Scalar],
    words: &mut [TruthWord],
)
    requires range { from + count ≤ length (contents_of_rows rows.now) }
    requires words { count ≤ 64 * length words.old }
    requires block { length words.old ≤ BLOCK_WORDS }
    ensures truth { AreTruths (λ row. option_of (member_truth
        (cell_of_row rows.now (from + row)) (map cell_of literals.now))) count words.new }
    ensures size { length words.new ≡ length words.old }
{
    if write_listed(rows, from, count, literals, words) {
        return;
    }
    fill_words(words, Some(false));
    for literal in literals {
        or_equal(rows, from, count, literal, words);
        if are_all_true(words) {
            return;
        }
    }
}

/// Joins whether each row is equal to the literal by `or` to the words.
fn or_equal(rows: &Rows, from: usize, count: usize, literal: &Scalar, words: &mut [TruthWord])
    requires range { from + count ≤ length (contents_of_rows rows.now) }
    requires words { count ≤ 64 * length words.old }
    requires block { length words.old ≤ BLOCK_WORDS }
    ensures truth { AreTruths (λ row. truth_or (truth_at words.old row) (option_of (compare_truth CompareOperator.Eq
        (cell_of_row rows.now (from + row)) (cell_of literal.now)))) count words.new }
    ensures size { length words.new ≡ length words.old }
{
    let mut block = [NO_ROW; BLOCK_WORDS];
    let others = &mut block[..words.len()];
    compare_rows(rows, from, count, CompareOperator::Eq, literal, others);
    or_words(words, others);
}

/// Writes whether each row is from the one literal up to the other.
fn write_range(
    rows: &Rows,
    from: usize,
    count: usize,
    lower: &Scalar,
    upper: &Scalar,
    words: &mut [TruthWord],
)
    requires range { from + count ≤ length (contents_of_rows rows.now) }
    requires words { count ≤ 64 * length words.old }
    requires block { length words.old ≤ BLOCK_WORDS }
    ensures truth { AreTruths (λ row. option_of (range_truth
        (cell_of_row rows.now (from + row)) (cell_of lower.now) (cell_of upper.now))) count words.new }
    ensures size { length words.new ≡ length words.old }
{
    let mut block = [NO_ROW; BLOCK_WORDS];
    let others = &mut block[..words.len()];
    compare_rows(rows, from, count, CompareOperator::Gte, lower, words);
    compare_rows(rows, from, count, CompareOperator::Lte, upper, others);
    and_words(words, others);
}

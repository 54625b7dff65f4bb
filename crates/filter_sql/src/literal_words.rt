//! The words by which literals of logical types are printed.

ghost use Rattle.std.specs.Prelude.{◌≡◌, IfOk, OnOk, drop, map, option_map, string_bytes};
ghost use Rattle.std.specs.List.{list_any};
ghost use Rattle.std.specs.Option.{option_copied};
ghost use Rattle.filter_sql.specs.Choosing.{AddsEach, AddsWord, AddsWords, has_logical, is_logical_cell};
ghost use Rattle.filter_sql.specs.LiteralWords.{AreWordsOf, IsWordOf, first_word, is_logical, is_numeric, printed_word};
ghost use Rattle.filter_sql.specs.LiteralWords.{word_tree, word_trees, words_behind};
ghost use Rattle.filter_sql.specs.Words.{cell_of, formula};
ghost use Rattle.vortex_dtype.specs.TypeOf.{type_of};

use crate::lex::is_number;
use logical_scalars::laws::shapes_say_types;
use logical_scalars::logical_type_of;
use logical_types::{LogicalType, word_of_storage};
use std::alloc::{AllocError, Global};
use vortex_dtype::DType;
use vortex_filter::{Filter, logical_value};
use vortex_value::Scalar;

/// The word of a value of a logical type.
#[derive(Debug, Drop)]
pub(crate) enum Word {
    /// A number, as it is.
    Bare(String),
    /// What stands in quotes.
    Quoted(String),
}

/// The words of a filter's literals, in reading order. None at all, and no memory taken, if no
/// literal is of a logical type.
#[tactic(auto, using(crate::proofs::WordLaws::all_words))]
pub(crate) fn words_of(alloc: Global, filter: &Filter) -> Result<Vec<Option<Word>>, AllocError>
    ensures { IfOk result (λ words. AreWordsOf (word_trees words.items) (formula filter.now)) }
{
    shapes_say_types();
    let mut words = Vec::new(alloc);
    if has_logical(filter) {
        push_words(alloc, filter, &mut words)?;
    }
    Ok(words)
}

/// Whether a type is a logical type.
#[tactic(auto, using(crate::proofs::WordLaws::logicals))]
pub(crate) fn is_logical(dtype: &DType) -> bool
    ensures { result ≡ is_logical (type_of dtype.now) }
{
    shapes_say_types();
    match logical_type_of(dtype) {
        Some(_) => true,
        None => false,
    }
}

/// Whether one of the filter's literals is of a logical type.
fn has_logical(filter: &Filter) -> bool
    ensures { result ≡ has_logical (formula filter.now) }
{
    match filter {
        Filter::Constant(_) | Filter::IsNull { .. } => false,
        Filter::Compare { literal, .. } => is_logical(&literal.dtype),
        Filter::In { literals, .. } => any_logical(literals),
        Filter::Between { lower, upper, .. } => {
            is_logical(&lower.dtype) || is_logical(&upper.dtype)
        }
        Filter::StartsWith { prefix, .. } => is_logical(&prefix.dtype),
        Filter::Like { .. } => false,
        Filter::And(left, right) => has_logical(left) || has_logical(right),
        Filter::Or(one, other) => has_logical(one) || has_logical(other),
        Filter::Not(inner) => has_logical(inner),
    }
}

/// Whether one of the literals is of a logical type.
#[tactic(auto, using(crate::proofs::WordLaws::any_shown))]
fn any_logical(literals: &[Scalar]) -> bool
    ensures { result ≡ list_any is_logical_cell (map cell_of literals.now) }
{
    for literal in literals {
        if is_logical(&literal.dtype) {
            return true;
        }
    }
    false
}

/// Appends the words of a filter's literals.
#[tactic(auto, using(crate::proofs::WordLaws::gathered))]
fn push_words(
    alloc: Global,
    filter: &Filter,
    words: &mut Vec<Option<Word>>,
) -> Result<(), AllocError>
    ensures { OnOk result (AddsWords (formula filter.now)
        (word_trees words.old.items) (word_trees words.new.items)) }
{
    match filter {
        Filter::Constant(_) | Filter::IsNull { .. } => Ok(()),
        Filter::Compare { literal, .. } => push_word(alloc, literal, words),
        Filter::In { literals, .. } => push_each(alloc, literals, words),
        Filter::Between { lower, upper, .. } => {
            push_word(alloc, lower, words)?;
            push_word(alloc, upper, words)
        }
        Filter::StartsWith { prefix, .. } => push_word(alloc, prefix, words),
        Filter::Like { .. } => Ok(()),
        Filter::And(left, right) => {
            push_words(alloc, left, words)?;
            push_words(alloc, right, words)
        }
        Filter::Or(one, other) => {
            push_words(alloc, one, words)?;
            push_words(alloc, other, words)
        }
        Filter::Not(inner) => push_words(alloc, inner, words),
    }
}

/// Appends the words of literals.
fn push_each(
    alloc: Global,
    literals: &[Scalar],
    words: &mut Vec<Option<Word>>,
) -> Result<(), AllocError>
    ensures { OnOk result (AddsEach (map cell_of literals.now)
        (word_trees words.old.items) (word_trees words.new.items)) }
{
    for literal in literals {
        push_word(alloc, literal, words)?;
    }
    Ok(())
}

/// Appends the word of a literal.
fn push_word(
    alloc: Global,
    literal: &Scalar,
    words: &mut Vec<Option<Word>>,
) -> Result<(), AllocError>
    ensures { OnOk result (AddsWord (cell_of literal.now)
        (word_trees words.old.items) (word_trees words.new.items)) }
{
    let word = word_of(alloc, literal)?;
    words.push(word)?;
    Ok(())
}

/// The word of a literal. None of what is no value of a logical type.
fn word_of(alloc: Global, literal: &Scalar) -> Result<Option<Word>, AllocError>
    ensures { IfOk result (λ word. IsWordOf (option_map word_tree word) (cell_of literal.now)) }
{
    let Some((logical, storage)) = logical_value(literal) else {
        return Ok(None);
    };
    match word_of_storage(alloc, logical, storage)? {
        Some(word) => Ok(Some(printed_word(logical, word))),
        None => Ok(None),
    }
}

/// A word as it is printed: a number as it is, and what is none in quotes.
fn printed_word(logical: LogicalType, word: String) -> Word
    ensures { word_tree result ≡ printed_word logical (string_bytes word) }
{
    if is_numeric(logical) && is_number(word.as_str()) {
        Word::Bare(word)
    } else {
        Word::Quoted(word)
    }
}

/// Whether values of the type are numbers.
fn is_numeric(logical: LogicalType) -> bool
    ensures { result ≡ is_numeric logical }
{
    match logical {
        LogicalType::Float64 | LogicalType::Float32 | LogicalType::Decimal(_) => true,
        LogicalType::Date | LogicalType::Time(_) | LogicalType::Timestamp { .. } => false,
    }
}

/// The word at a place, if there is one.
pub(crate) fn word_at(words: &[Option<Word>], place: usize) -> Option<&Word>
    ensures { option_map word_tree (option_copied result) ≡ first_word (drop place (word_trees words.now)) }
{
    match words.get(place) {
        Some(word) => word.as_ref(),
        None => None,
    }
}

/// The words behind so many.
fn behind(words: &[Option<Word>], count: usize) -> &[Option<Word>]
    ensures { word_trees result.now ≡ drop count (word_trees words.now) }
{
    if count < words.len() {
        &words[count..]
    } else {
        &[]
    }
}

/// The words behind those of a filter's literals.
pub(crate) fn words_behind<'a>(filter: &Filter, words: &'a [Option<Word>]) -> &'a [Option<Word>]
    ensures { word_trees result.now ≡ words_behind (formula filter.now) (word_trees words.now) }
{
    match filter {
        Filter::Constant(_) | Filter::IsNull { .. } => words,
        Filter::Compare { .. } | Filter::StartsWith { .. } => behind(words, 1),
        Filter::In { literals, .. } => behind(words, literals.len()),
        Filter::Between { .. } => behind(words, 2),
        Filter::Like { .. } => words,
        Filter::And(left, right) => words_behind(right, words_behind(left, words)),
        Filter::Or(one, other) => words_behind(other, words_behind(one, words)),
        Filter::Not(inner) => words_behind(inner, words),
    }
}

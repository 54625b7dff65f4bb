//! Filters in which a name may stand in another case than its column's.

ghost use Rattle.std.specs.Prelude.{◌≢◌, [], IfErr, IfOk, IfSome, string_bytes};
ghost use Rattle.filter_sql.specs.Words.{IsFilterOf, IsOnlyName, IsOwnFilter, IsRenamed, IsWordIn, NoColumn};
ghost use Rattle.filter_sql.specs.Words.{RefusesSqlWithin, RefusesWords, column_trees, formula};

use crate::laws::texts_say_one_filter;
use crate::lex::word_len;
use crate::{Column, ParseError, parse_within};
use std::alloc::{AllocError, Global};
use vortex_filter::Filter;

/// The filter that words are over columns. A name without quotes that no column has exactly is that of the
/// one that has it in another case. At most `depth` connectives and parentheses may nest.
pub fn filter_of_words(
    alloc: Global,
    words: &str,
    columns: &[Column],
    depth: usize,
) -> Result<Filter, ParseError>
    ensures read { IfOk result (λ filter. IsFilterOf depth (column_trees columns.now) words.now (formula filter)) }
    ensures refused { IfErr result (RefusesWords depth (column_trees columns.now) words.now) }
{
    texts_say_one_filter();
    match parse_within(alloc, words, columns, depth) {
        Ok(filter) => Ok(filter),
        Err(ParseError::NoColumn { offset }) => filter_by_case(
            alloc, words, offset, columns, depth,
        ),
        Err(error) => Err(error),
    }
}

/// The filter that words are whose name at this offset no column has exactly.
fn filter_by_case(
    alloc: Global,
    words: &str,
    offset: usize,
    columns: &[Column],
    depth: usize,
) -> Result<Filter, ParseError>
    requires { RefusesSqlWithin depth (column_trees columns.now) words.now (NoColumn offset) }
    ensures read { IfOk result (λ filter. IsOwnFilter depth (column_trees columns.now) words.now (formula filter)) }
    ensures refused { IfErr result (RefusesWords depth (column_trees columns.now) words.now) }
{
    texts_say_one_filter();
    let mut own = String::from_str(alloc, words)?;
    let mut place = offset;
    for _ in 0..words.len() {
        let Some(other) = in_own_case(alloc, &own, place, columns)? else {
            return Err(ParseError::NoColumn { offset: place });
        };
        own = other;
        match parse_within(alloc, &own, columns, depth) {
            Ok(filter) => return Ok(filter),
            Err(ParseError::NoColumn { offset }) => place = offset,
            Err(error) => return Err(error),
        }
    }
    Err(ParseError::NoColumn { offset: place })
}

/// The words where the name at this offset is that of the one column that has it in another case; `None` if
/// there is no such column, or more than one.
fn in_own_case(
    alloc: Global,
    words: &str,
    offset: usize,
    columns: &[Column],
) -> Result<Option<String>, AllocError>
    ensures { IfOk result (λ found. IfSome found (λ own.
        IsRenamed (column_trees columns.now) words.now offset (string_bytes own))) }
{
    let Some((before, word, after)) = word_in(words, offset) else {
        return Ok(None);
    };
    let Some(own) = only_name(word, columns) else {
        return Ok(None);
    };
    let mut text = String::from_str(alloc, before)?;
    text.push_str(own)?;
    text.push_str(after)?;
    Ok(Some(text))
}

/// What stands before the word at this offset, the word, and what follows it; `None` if no word begins there.
/// In quotes a name is that of a column as it stands.
pub fn word_in(words: &str, offset: usize) -> Option<(&str, &str, &str)>
    ensures word { IfSome result (λ parts.
        IsWordIn words.now offset parts.0.now parts.1.now parts.2.now) }
    ensures some { IfSome result (λ parts. parts.1.now ≢ []) }
{
    let (before, rest) = words.split_at_checked(offset)?;
    let count = word_len(rest.as_bytes());
    if count == 0 {
        return None;
    }
    let (word, after) = rest.split_at_checked(count)?;
    Some((before, word, after))
}

/// The name of the one column that has this name in another case.
fn only_name<'a>(name: &str, columns: &'a [Column]) -> Option<&'a str>
    ensures { IfSome result (λ own. IsOnlyName (column_trees columns.now) name.now own.now) }
{
    let mut found = None;
    for column in columns {
        if column.name.eq_ignore_ascii_case(name) {
            if found.is_some() {
                return None;
            }
            found = Some(column.name.as_str());
        }
    }
    found
}

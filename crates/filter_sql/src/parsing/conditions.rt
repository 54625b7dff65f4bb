//! Tests of a column.

ghost use Rattle.std.specs.Prelude.{◌≡◌, [], true, IfOk, MatchResult, map};
ghost use Rattle.std.specs.Option.{option_map};
ghost use Rattle.std.specs.Str.{chars, encode_utf8_all};
ghost use Rattle.like_patterns.specs.Texts.{pattern_of};
ghost use Rattle.vortex_dtype.specs.Parts.{is_utf8_type};
ghost use Rattle.vortex_dtype.specs.TypeOf.{type_of};
ghost use Rattle.vortex_cells.specs.Cells.{cell_of};
ghost use Rattle.vortex_filter.specs.FilterLiterals.{AreValid, literals_of};
ghost use Rattle.vortex_filter.specs.Formula.{formula, membership, prefix_test};
ghost use Rattle.vortex_filter.specs.Literals.{text_cell};
ghost use Rattle.filter_sql.specs.Literals.{like_in, prefix_asked};
ghost use Rattle.filter_sql.specs.Tokens.{trees};
ghost use Rattle.filter_sql.specs.Mistakes.{Gives, cells_mistake, condition_mistake, escape_mistake, like_mistake};
ghost use Rattle.filter_sql.specs.Mistakes.{literal_mistake, members_mistake, more_mistake, null_test_mistake};
ghost use Rattle.filter_sql.specs.Mistakes.{other_type, range_mistake, test_mistake};
ghost use Rattle.filter_sql.specs.Reading.{cells_at, comparison_at, condition_at, escape_at, like_at, members_at};
ghost use Rattle.filter_sql.specs.Reading.{more_cells, null_test_at, only_one, range_at, test_at, with_front};

use crate::error::Expected;
use crate::parsing::column_names::Found;
use crate::parsing::errors::{Cause, TokenError};
use crate::parsing::literals::{other_type, position_at, prefix, string_in};
use crate::parsing::tokens::{
    after_closing, after_comma, after_keyword, expect_closing, expect_keyword, expect_opening,
    expect_string, expected, operator_at, tokens_left,
};
use crate::token::{Keyword, Placed};
use like_patterns::{Case, Pattern, PatternError};
use std::alloc::Global;
use vortex_dtype::DType;
use vortex_filter::{CompareOperator, Filter, comparison_of, member_of, range_of, with_position};
use vortex_value::Scalar;

/// What follows the column's name.
#[tactic(auto, unfolding(crate::specs::Reading::condition_at, crate::specs::Mistakes::condition_mistake), using(vortex_filter::proofs::LiteralSteps::valid))]
pub(crate) fn condition<'a>(
    alloc: Global,
    column: Found<'_>,
    rest: &'a [Placed],
) -> Result<(Filter, &'a [Placed]), TokenError>
    ensures read { Gives (λ x. (formula x.0, trees x.1.now)) result
        (condition_at column.entry.place (type_of column.entry.dtype.now) (trees rest.now))
        (condition_mistake (type_of column.entry.dtype.now) (trees rest.now)) }
    ensures valid { IfOk result (λ x. AreValid (literals_of x.0)) }
{
    if let Some((operator, after)) = operator_at(rest) {
        return compared(alloc, column, operator, after);
    }
    if let Some(after) = after_keyword(rest, Keyword::Is) {
        return is_null(alloc, column.place, after);
    }
    let Some(after) = after_keyword(rest, Keyword::Not) else {
        return test(alloc, column, rest);
    };
    let (inner, rest) = test(alloc, column, after)?;
    Ok((Filter::not(alloc, inner)?, rest))
}

/// A comparison with the literal that comes next.
#[tactic(auto, unfolding(crate::specs::Reading::comparison_at), using(vortex_filter::proofs::LiteralSteps::valid))]
fn compared<'a>(
    alloc: Global,
    column: Found<'_>,
    operator: CompareOperator,
    rest: &'a [Placed],
) -> Result<(Filter, &'a [Placed]), TokenError>
    ensures read { Gives (λ x. (formula x.0, trees x.1.now)) result
        (comparison_at column.entry.place (type_of column.entry.dtype.now) operator (trees rest.now))
        (literal_mistake (type_of column.entry.dtype.now) (trees rest.now)) }
    ensures valid { IfOk result (λ x. AreValid (literals_of x.0)) }
{
    let (literal, rest) = position_at(alloc, column.dtype, rest)?;
    Ok((comparison_of(alloc, column.place, operator, literal)?, rest))
}

/// What follows `is`: `null` or `not null`.
#[tactic(auto, unfolding(crate::specs::Reading::null_test_at, crate::specs::Mistakes::null_test_mistake), using(vortex_filter::proofs::Steps::shown, vortex_filter::proofs::LiteralSteps::valid))]
fn is_null(alloc: Global, column: usize, rest: &[Placed]) -> Result<(Filter, &[Placed]), TokenError>
    ensures read { Gives (λ x. (formula x.0, trees x.1.now)) result
        (null_test_at column (trees rest.now)) (null_test_mistake (trees rest.now)) }
    ensures valid { IfOk result (λ x. AreValid (literals_of x.0)) }
{
    let Some(after) = after_keyword(rest, Keyword::Not) else {
        let rest = expect_keyword(rest, Keyword::Null, Expected::Null)?;
        return Ok((Filter::IsNull { column }, rest));
    };
    let rest = expect_keyword(after, Keyword::Null, Expected::Null)?;
    Ok((Filter::not(alloc, Filter::IsNull { column })?, rest))
}

/// `in`, `between`, `like` or `ilike`, and what follows.
#[tactic(auto, unfolding(crate::specs::Reading::test_at, crate::specs::Mistakes::test_mistake))]
fn test<'a>(
    alloc: Global,
    column: Found<'_>,
    rest: &'a [Placed],
) -> Result<(Filter, &'a [Placed]), TokenError>
    ensures read { Gives (λ x. (formula x.0, trees x.1.now)) result
        (test_at column.entry.place (type_of column.entry.dtype.now) (trees rest.now))
        (test_mistake (type_of column.entry.dtype.now) (trees rest.now)) }
    ensures valid { IfOk result (λ x. AreValid (literals_of x.0)) }
{
    if let Some(after) = after_keyword(rest, Keyword::In) {
        return members(alloc, column, after);
    }
    if let Some(after) = after_keyword(rest, Keyword::Between) {
        return between(alloc, column, after);
    }
    if let Some(after) = after_keyword(rest, Keyword::Ilike) {
        return like(alloc, column, Case::Insensitive, after);
    }
    let after = expect_keyword(rest, Keyword::Like, Expected::Operator)?;
    like(alloc, column, Case::Sensitive, after)
}

/// What follows `between`: two literals with `and` between them.
#[tactic(auto, unfolding(crate::specs::Reading::range_at, crate::specs::Mistakes::range_mistake), using(vortex_filter::proofs::LiteralSteps::valid))]
fn between<'a>(
    alloc: Global,
    column: Found<'_>,
    rest: &'a [Placed],
) -> Result<(Filter, &'a [Placed]), TokenError>
    ensures read { Gives (λ x. (formula x.0, trees x.1.now)) result
        (range_at column.entry.place (type_of column.entry.dtype.now) (trees rest.now))
        (range_mistake (type_of column.entry.dtype.now) (trees rest.now)) }
    ensures valid { IfOk result (λ x. AreValid (literals_of x.0)) }
{
    let (lower, rest) = position_at(alloc, column.dtype, rest)?;
    let rest = expect_keyword(rest, Keyword::And, Expected::And)?;
    let (upper, rest) = position_at(alloc, column.dtype, rest)?;
    Ok((range_of(alloc, column.place, lower, upper)?, rest))
}

/// What follows `in`: literals in parentheses.
#[tactic(auto, unfolding(crate::specs::Reading::members_at, crate::specs::Mistakes::members_mistake), using(vortex_filter::proofs::LiteralSteps::valid))]
fn members<'a>(
    alloc: Global,
    column: Found<'_>,
    rest: &'a [Placed],
) -> Result<(Filter, &'a [Placed]), TokenError>
    ensures read { Gives (λ x. (formula x.0, trees x.1.now)) result
        (members_at column.entry.place (type_of column.entry.dtype.now) (trees rest.now))
        (members_mistake (type_of column.entry.dtype.now) (trees rest.now)) }
    ensures valid { IfOk result (λ x. AreValid (literals_of x.0)) }
{
    let rest = expect_opening(rest)?;
    if let Some(after) = after_closing(rest) {
        return Ok((none_of(alloc, column.place), after));
    }
    let (literals, rest) = cells(alloc, column.dtype, rest)?;
    Ok((member_of(alloc, column.place, literals)?, rest))
}

/// Whether the column is one of no literals.
#[tactic(auto, using(vortex_filter::proofs::Steps::shown, vortex_filter::proofs::LiteralSteps::literals))]
fn none_of(alloc: Global, column: usize) -> Filter
    ensures made { formula result ≡ membership column [] }
    ensures literals { literals_of result ≡ [] }
{
    Filter::In {
        column,
        literals: Vec::new(alloc),
    }
}

/// One literal or more with commas between them, to the closing parenthesis. Those that the type
/// lacks are left out.
#[tactic(auto, using(vortex_filter::proofs::LiteralSteps::valid))]
fn cells<'a>(
    alloc: Global,
    dtype: &DType,
    rest: &'a [Placed],
) -> Result<(Vec<Scalar>, &'a [Placed]), TokenError>
    ensures read { Gives (λ x. (map cell_of x.0.items, trees x.1.now)) result
        (cells_at (type_of dtype.now) (trees rest.now))
        (cells_mistake (type_of dtype.now) (trees rest.now)) }
    ensures valid { IfOk result (λ x. AreValid x.0.items) }
{
    let (literal, rest) = position_at(alloc, dtype, rest)?;
    let literals = with_position(Vec::new(alloc), literal)?;
    more_cells(alloc, dtype, literals, rest)
}

/// The literals and those behind them.
fn more_cells<'a>(
    alloc: Global,
    dtype: &DType,
    literals: Vec<Scalar>,
    rest: &'a [Placed],
) -> Result<(Vec<Scalar>, &'a [Placed]), TokenError>
    ensures read { Gives (λ x. (map cell_of x.0.items, trees x.1.now)) result
        (with_front (map cell_of literals.items) (more_cells (type_of dtype.now) (trees rest.now)))
        (more_mistake (type_of dtype.now) (trees rest.now)) }
    ensures valid { AreValid literals.items → IfOk result (λ x. AreValid x.0.items) }
{
    let mut literals = literals;
    let mut rest = rest;
    while let Some(after) = after_comma(rest) {
        let (literal, behind) = position_at(alloc, dtype, after)?;
        literals = with_position(literals, literal)?;
        rest = behind;
    }
    let rest = expect_closing(rest)?;
    Ok((literals, rest))
}

/// What follows `like` or `ilike`: a pattern, and perhaps its escape.
#[tactic(auto, unfolding(crate::specs::Reading::like_at, crate::specs::Mistakes::like_mistake))]
fn like<'a>(
    alloc: Global,
    column: Found<'_>,
    case: Case,
    rest: &'a [Placed],
) -> Result<(Filter, &'a [Placed]), TokenError>
    ensures read { Gives (λ x. (formula x.0, trees x.1.now)) result
        (like_at column.entry.place (type_of column.entry.dtype.now) case (trees rest.now))
        (like_mistake (type_of column.entry.dtype.now) (trees rest.now)) }
    ensures valid { IfOk result (λ x. AreValid (literals_of x.0)) }
{
    let left = tokens_left(rest);
    let (text, rest) = expect_string(rest, Expected::Pattern)?;
    let (escape, rest) = escape_at(rest)?;
    let pattern = pattern_of(alloc, text, escape, left)?;
    Ok((like_test(alloc, column, case, pattern, left)?, rest))
}

/// The escape that comes next, or none, and what follows.
#[tactic(auto, unfolding(crate::specs::Reading::escape_at, crate::specs::Mistakes::escape_mistake))]
fn escape_at(rest: &[Placed]) -> Result<(Option<char>, &[Placed]), TokenError>
    ensures { Gives (λ x. (x.0, trees x.1.now)) result (escape_at (trees rest.now))
        (escape_mistake (trees rest.now)) }
{
    let Some(after) = after_keyword(rest, Keyword::Escape) else {
        return Ok((None, rest));
    };
    let (text, rest) = expect_string(after, Expected::Escape)?;
    match only_character(text) {
        Some(escape) => Ok((Some(escape), rest)),
        None => Err(expected(after, Expected::Escape)),
    }
}

/// The character that a text is, if it is just one.
fn only_character(text: &str) -> Option<char>
    ensures { result ≡ only_one (chars text.now) }
{
    let mut characters = text.chars();
    let first = characters.next()?;
    match characters.next() {
        Some(_) => None,
        None => Some(first),
    }
}

/// The pattern that a text spells, where so many tokens are left.
fn pattern_of(
    alloc: Global,
    text: &str,
    escape: Option<char>,
    left: usize,
) -> Result<Pattern, TokenError>
    ensures { Gives (λ pattern. pattern) result (pattern_of escape (chars text.now))
        (TokenError.At left (Cause.Expected Expected.Pattern)) }
{
    match Pattern::parse(alloc, text, escape) {
        Ok(pattern) => Ok(pattern),
        Err(PatternError::OutOfMemory) => Err(TokenError::NoMemory),
        Err(PatternError::EscapeAtEnd { .. }) => {
            Err(TokenError::At(left, Cause::Expected(Expected::Pattern)))
        }
    }
}

/// Whether the column is like the pattern, where so many tokens are left.
#[tactic(auto, using(vortex_filter::proofs::Steps::shown, vortex_filter::proofs::LiteralSteps::literals, vortex_filter::proofs::LiteralSteps::valid))]
fn like_test(
    alloc: Global,
    column: Found<'_>,
    case: Case,
    pattern: Pattern,
    left: usize,
) -> Result<Filter, TokenError>
    ensures read { Gives formula result
        (like_in column.entry.place (type_of column.entry.dtype.now) case pattern)
        (TokenError.At left (other_type (type_of column.entry.dtype.now))) }
    ensures valid { IfOk result (λ f. AreValid (literals_of f)) }
{
    if !column.dtype.is_utf8() {
        return Err(TokenError::At(left, other_type(column.dtype)));
    }
    if let Some(text) = prefix_asked(case, &pattern) {
        return text_prefix(alloc, column, text, left);
    }
    Ok(Filter::Like {
        column: column.place,
        pattern,
        case,
    })
}

/// The prefix that a pattern asks for, if it asks for nothing else.
fn prefix_asked(case: Case, pattern: &Pattern) -> Option<&str>
    ensures { option_map (λ text. chars text.now) result ≡ prefix_asked case pattern.now }
{
    match case {
        Case::Sensitive => pattern.as_prefix(),
        Case::Insensitive => None,
    }
}

/// Whether a column of strings begins with a text, where so many tokens are left.
#[tactic(auto, using(vortex_filter::proofs::LiteralSteps::valid))]
fn text_prefix(
    alloc: Global,
    column: Found<'_>,
    text: &str,
    left: usize,
) -> Result<Filter, TokenError>
    requires { is_utf8_type (type_of column.dtype.now) ≡ true }
    ensures read { MatchResult result
        (λ f. formula f ≡ prefix_test column.entry.place (text_cell (encode_utf8_all (chars text.now))))
        (λ e. e ≡ TokenError.NoMemory) }
    ensures valid { IfOk result (λ f. AreValid (literals_of f)) }
{
    let literal = string_in(alloc, column.dtype, text, left)?;
    prefix(column.place, literal, left)
}

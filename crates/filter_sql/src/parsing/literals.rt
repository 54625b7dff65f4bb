//! Literals, and where they stand among the values of a column's type.

ghost use Rattle.std.specs.Prelude.{◌≡◌, IfOk};
ghost use Rattle.std.specs.Option.{option_map};
ghost use Rattle.vortex_dtype.specs.TypeOf.{type_of};
ghost use Rattle.logical_types.specs.Shapes.{shape_of};
ghost use Rattle.vortex_filter.specs.FilterLiterals.{AreValid, literals_of};
ghost use Rattle.vortex_filter.specs.Formula.{formula};
ghost use Rattle.vortex_filter.specs.Literals.{literal_tree, position_of};
ghost use Rattle.vortex_filter.specs.Positions.{position_tree, prefix_of, scalars_of};
ghost use Rattle.filter_sql.specs.Literals.{keyword_literal, literal_of};
ghost use Rattle.filter_sql.specs.Tokens.{token_tree, trees};
ghost use Rattle.filter_sql.specs.Mistakes.{Gives, extension_cause, holds_numbers, is_numeric, is_numeric_type};
ghost use Rattle.filter_sql.specs.Mistakes.{literal_cause, literal_mistake, other_type, refusal};
ghost use Rattle.filter_sql.specs.Reading.{position_at, string_in, token_position};

use crate::error::Expected;
use crate::parsing::errors::{Cause, TokenError};
use crate::parsing::tokens::{expected, tokens_left};
use crate::token::{Keyword, Placed, Token};
use logical_scalars::laws::shapes_say_types;
use logical_scalars::logical_type_of;
use logical_types::LogicalType;
use std::alloc::Global;
use vortex_dtype::DType;
use vortex_filter::{Filter, Literal, Position, prefix_of};

/// Where the literal that comes next stands among the values of the type, and what follows it.
#[tactic(auto, unfolding(crate::specs::Reading::position_at, crate::specs::Mistakes::literal_mistake))]
pub(crate) fn position_at<'a>(
    alloc: Global,
    dtype: &DType,
    rest: &'a [Placed],
) -> Result<(Position, &'a [Placed]), TokenError>
    ensures read { Gives (λ x. (position_tree x.0, trees x.1.now)) result
        (position_at (type_of dtype.now) (trees rest.now))
        (literal_mistake (type_of dtype.now) (trees rest.now)) }
    ensures valid { IfOk result (λ x. AreValid (scalars_of x.0)) }
{
    let [first, after @ ..] = rest else {
        return Err(expected(rest, Expected::Literal));
    };
    let position = token_position(alloc, dtype, &first.token, tokens_left(rest))?;
    Ok((position, after))
}

/// Where a token stands as a literal of the type. So many tokens are left.
#[tactic(auto, unfolding(crate::specs::Reading::token_position))]
fn token_position(
    alloc: Global,
    dtype: &DType,
    token: &Token,
    left: usize,
) -> Result<Position, TokenError>
    ensures read { Gives position_tree result
        (token_position (type_of dtype.now) (token_tree token.now))
        (TokenError.At left (literal_cause (type_of dtype.now) (token_tree token.now))) }
    ensures valid { IfOk result (λ p. AreValid (scalars_of p)) }
{
    match literal_of(token) {
        Some(literal) => position_in(alloc, dtype, literal, left),
        None => Err(TokenError::At(left, Cause::Expected(Expected::Literal))),
    }
}

/// Where a literal stands among the values of the type. So many tokens are left.
fn position_in(
    alloc: Global,
    dtype: &DType,
    literal: Literal<'_>,
    left: usize,
) -> Result<Position, TokenError>
    ensures read { Gives position_tree result
        (position_of (type_of dtype.now) (literal_tree literal.entry))
        (TokenError.At left (refusal (type_of dtype.now) (literal_tree literal.entry))) }
    ensures valid { IfOk result (λ p. AreValid (scalars_of p)) }
{
    match literal.position(alloc, dtype) {
        Ok(Some(position)) => Ok(position),
        Ok(None) => Err(TokenError::At(left, refusal(dtype, literal))),
        Err(_) => Err(TokenError::NoMemory),
    }
}

/// Where a string stands in a column of strings. So many tokens are left.
#[tactic(auto, using(crate::proofs::StringSteps::strings))]
pub(crate) fn string_in(
    alloc: Global,
    dtype: &DType,
    text: &str,
    left: usize,
) -> Result<Position, TokenError>
    ensures read { Gives position_tree result (string_in (type_of dtype.now) text.now)
        (TokenError.At left (other_type (type_of dtype.now))) }
    ensures valid { IfOk result (λ p. AreValid (scalars_of p)) }
{
    match dtype {
        DType::Utf8(_) => position_in(alloc, dtype, Literal::Text(text), left),
        _ => Err(TokenError::At(left, other_type(dtype))),
    }
}

/// The literal that a token is.
#[tactic(auto, unfolding(crate::specs::Literals::literal_of))]
fn literal_of(token: &Token) -> Option<Literal<'_>>
    ensures { option_map literal_tree result ≡ literal_of (token_tree token.now) }
{
    match token {
        Token::Keyword(keyword) => keyword_literal(*keyword),
        Token::Number(word) => Some(Literal::Number(word.as_str())),
        Token::Text(text) => Some(Literal::Text(text.as_str())),
        Token::Bytes(bytes) => Some(Literal::Bytes(bytes.as_slice())),
        Token::Name(_) | Token::Operator(_) | Token::Open | Token::Close | Token::Comma => None,
    }
}

/// `null`, `true` or `false`.
fn keyword_literal<'a>(keyword: Keyword) -> Option<Literal<'a>>
    ensures { option_map literal_tree result ≡ keyword_literal keyword }
{
    match keyword {
        Keyword::Null => Some(Literal::Null),
        Keyword::True => Some(Literal::Bool(true)),
        Keyword::False => Some(Literal::Bool(false)),
        _ => None,
    }
}

/// Why a literal is none of the type.
fn refusal(dtype: &DType, literal: Literal<'_>) -> Cause
    ensures { result ≡ refusal (type_of dtype.now) (literal_tree literal.entry) }
{
    match literal {
        Literal::Number(_) if holds_numbers(dtype) => Cause::NumberTooLong,
        _ => other_type(dtype),
    }
}

/// Whether numbers are written in a column of the type.
fn holds_numbers(dtype: &DType) -> bool
    ensures { result ≡ holds_numbers (type_of dtype.now) }
{
    match dtype {
        DType::Primitive(_, _) => true,
        DType::Extension(_) => is_numeric_type(dtype),
        _ => false,
    }
}

/// Whether the type is a logical one of numbers.
fn is_numeric_type(dtype: &DType) -> bool
    ensures { result ≡ is_numeric_type (type_of dtype.now) }
{
    shapes_say_types();
    match logical_type_of(dtype) {
        Some(logical) => is_numeric(logical),
        None => false,
    }
}

/// Whether the values of a logical type are numbers.
fn is_numeric(logical: LogicalType) -> bool
    ensures { result ≡ is_numeric (shape_of logical) }
{
    match logical {
        LogicalType::Float64 | LogicalType::Float32 | LogicalType::Decimal(_) => true,
        LogicalType::Date | LogicalType::Time(_) | LogicalType::Timestamp { .. } => false,
    }
}

/// Why a literal of another kind is none of the type: whether the type has literals.
pub(crate) fn other_type(dtype: &DType) -> Cause
    ensures { result ≡ other_type (type_of dtype.now) }
{
    match dtype {
        DType::Bool(_) | DType::Primitive(_, _) | DType::Utf8(_) | DType::Binary(_) => {
            Cause::TypesDiffer
        }
        DType::Extension(_) => extension_cause(dtype),
        _ => Cause::NoLiteral,
    }
}

/// Why a literal is none of an extension: whether this is a logical type.
fn extension_cause(dtype: &DType) -> Cause
    ensures { result ≡ extension_cause (type_of dtype.now) }
{
    shapes_say_types();
    match logical_type_of(dtype) {
        Some(_) => Cause::TypesDiffer,
        None => Cause::NoLiteral,
    }
}

/// Whether the column begins with the literal, where so many tokens are left.
pub(crate) fn prefix(column: usize, literal: Position, left: usize) -> Result<Filter, TokenError>
    ensures read { Gives formula result (prefix_of column (position_tree literal))
        (TokenError.At left Cause.TypesDiffer) }
    ensures literals { IfOk result (λ f. literals_of f ≡ scalars_of literal) }
{
    match prefix_of(column, literal) {
        Some(filter) => Ok(filter),
        None => Err(TokenError::At(left, Cause::TypesDiffer)),
    }
}

//! Single tokens from the front.

ghost use Rattle.std.specs.Prelude.{◌≡◌, length};
ghost use Rattle.std.specs.Option.{option_map};
ghost use Rattle.std.specs.String.{string_bytes};
ghost use Rattle.filter_sql.specs.Tokens.{token_tree, trees};
ghost use Rattle.filter_sql.specs.Mistakes.{Gives, expected};
ghost use Rattle.filter_sql.specs.Reading.{after_closing, after_comma, after_keyword, after_opening, is_keyword};
ghost use Rattle.filter_sql.specs.Reading.{name_at, operator_at, string_at};

use crate::error::Expected;
use crate::parsing::errors::{Cause, TokenError};
use crate::token::{Keyword, Placed, Token};
use vortex_filter::CompareOperator;

/// How many tokens are left.
#[tactic(auto, using(crate::proofs::ReadSteps::counts))]
pub(crate) fn tokens_left(rest: &[Placed]) -> usize
    ensures { result ≡ length (trees rest.now) }
{
    rest.len()
}

/// The fault that something else had to come next.
pub(crate) fn expected(rest: &[Placed], what: Expected) -> TokenError
    ensures { result ≡ expected (trees rest.now) what }
{
    TokenError::At(tokens_left(rest), Cause::Expected(what))
}

/// Whether the token is this keyword.
fn is_keyword(token: &Token, keyword: Keyword) -> bool
    ensures { result ≡ is_keyword keyword (token_tree token.now) }
{
    match token {
        Token::Keyword(other) => *other as u8 == keyword as u8,
        _ => false,
    }
}

/// What follows this keyword, if it comes next.
#[tactic(auto, unfolding(crate::specs::Reading::after_keyword))]
pub(crate) fn after_keyword(rest: &[Placed], keyword: Keyword) -> Option<&[Placed]>
    ensures { option_map (λ r. trees r.now) result ≡ after_keyword keyword (trees rest.now) }
{
    match rest {
        [first, after @ ..] if is_keyword(&first.token, keyword) => Some(after),
        _ => None,
    }
}

/// What follows an opening parenthesis, if it comes next.
#[tactic(auto, unfolding(crate::specs::Reading::after_opening))]
pub(crate) fn after_opening(rest: &[Placed]) -> Option<&[Placed]>
    ensures { option_map (λ r. trees r.now) result ≡ after_opening (trees rest.now) }
{
    match rest {
        [first, after @ ..] => match &first.token {
            Token::Open => Some(after),
            _ => None,
        },
        [] => None,
    }
}

/// What follows a closing parenthesis, if it comes next.
#[tactic(auto, unfolding(crate::specs::Reading::after_closing))]
pub(crate) fn after_closing(rest: &[Placed]) -> Option<&[Placed]>
    ensures { option_map (λ r. trees r.now) result ≡ after_closing (trees rest.now) }
{
    match rest {
        [first, after @ ..] => match &first.token {
            Token::Close => Some(after),
            _ => None,
        },
        [] => None,
    }
}

/// What follows a comma, if it comes next.
#[tactic(auto, unfolding(crate::specs::Reading::after_comma))]
pub(crate) fn after_comma(rest: &[Placed]) -> Option<&[Placed]>
    ensures { option_map (λ r. trees r.now) result ≡ after_comma (trees rest.now) }
{
    match rest {
        [first, after @ ..] => match &first.token {
            Token::Comma => Some(after),
            _ => None,
        },
        [] => None,
    }
}

/// The comparison that comes next, and what follows it.
#[tactic(auto, unfolding(crate::specs::Reading::operator_at))]
pub(crate) fn operator_at(rest: &[Placed]) -> Option<(CompareOperator, &[Placed])>
    ensures { option_map (λ x. (x.0, trees x.1.now)) result ≡ operator_at (trees rest.now) }
{
    match rest {
        [first, after @ ..] => match &first.token {
            Token::Operator(operator) => Some((*operator, after)),
            _ => None,
        },
        [] => None,
    }
}

/// The name that comes next, and what follows it.
#[tactic(auto, unfolding(crate::specs::Reading::name_at))]
pub(crate) fn name_at(rest: &[Placed]) -> Option<(&str, &[Placed])>
    ensures { option_map (λ x. (x.0.now, trees x.1.now)) result ≡ name_at (trees rest.now) }
{
    match rest {
        [first, after @ ..] => match &first.token {
            Token::Name(name) => Some((name.as_str(), after)),
            _ => None,
        },
        [] => None,
    }
}

/// The string that comes next, and what follows it.
#[tactic(auto, unfolding(crate::specs::Reading::string_at))]
pub(crate) fn string_at(rest: &[Placed]) -> Option<(&str, &[Placed])>
    ensures { option_map (λ x. (x.0.now, trees x.1.now)) result ≡ string_at (trees rest.now) }
{
    match rest {
        [first, after @ ..] => match &first.token {
            Token::Text(text) => Some((text.as_str(), after)),
            _ => None,
        },
        [] => None,
    }
}

/// What follows this keyword, which has to come next.
pub(crate) fn expect_keyword(
    rest: &[Placed],
    keyword: Keyword,
    what: Expected,
) -> Result<&[Placed], TokenError>
    ensures { Gives (λ r. trees r.now) result (after_keyword keyword (trees rest.now))
        (expected (trees rest.now) what) }
{
    match after_keyword(rest, keyword) {
        Some(after) => Ok(after),
        None => Err(expected(rest, what)),
    }
}

/// What follows an opening parenthesis, which has to come next.
pub(crate) fn expect_opening(rest: &[Placed]) -> Result<&[Placed], TokenError>
    ensures { Gives (λ r. trees r.now) result (after_opening (trees rest.now))
        (expected (trees rest.now) Expected.Opening) }
{
    match after_opening(rest) {
        Some(after) => Ok(after),
        None => Err(expected(rest, Expected::Opening)),
    }
}

/// What follows a closing parenthesis, which has to come next.
pub(crate) fn expect_closing(rest: &[Placed]) -> Result<&[Placed], TokenError>
    ensures { Gives (λ r. trees r.now) result (after_closing (trees rest.now))
        (expected (trees rest.now) Expected.Closing) }
{
    match after_closing(rest) {
        Some(after) => Ok(after),
        None => Err(expected(rest, Expected::Closing)),
    }
}

/// What follows a comma, which has to come next.
pub(crate) fn expect_comma(rest: &[Placed]) -> Result<&[Placed], TokenError>
    ensures { Gives (λ r. trees r.now) result (after_comma (trees rest.now))
        (expected (trees rest.now) Expected.Comma) }
{
    match after_comma(rest) {
        Some(after) => Ok(after),
        None => Err(expected(rest, Expected::Comma)),
    }
}

/// The string that has to come next, and what follows it.
pub(crate) fn expect_string(
    rest: &[Placed],
    what: Expected,
) -> Result<(&str, &[Placed]), TokenError>
    ensures { Gives (λ x. (x.0.now, trees x.1.now)) result (string_at (trees rest.now))
        (expected (trees rest.now) what) }
{
    match string_at(rest) {
        Some(found) => Ok(found),
        None => Err(expected(rest, what)),
    }
}

/// The name that has to come next, and what follows it.
pub(crate) fn expect_name(rest: &[Placed]) -> Result<(&str, &[Placed]), TokenError>
    ensures { Gives (λ x. (x.0.now, trees x.1.now)) result (name_at (trees rest.now))
        (expected (trees rest.now) Expected.Column) }
{
    match name_at(rest) {
        Some(found) => Ok(found),
        None => Err(expected(rest, Expected::Column)),
    }
}
